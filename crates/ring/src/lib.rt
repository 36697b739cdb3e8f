//! A ring over lent places, for every kind of element.
#![tactic(auto)]

pub mod ring;

//! What a receiving end counted and how it stands, to be printed.
#![tactic(auto)]

pub mod readings;

//! Reading lines of text: their words, and the numbers that words spell.
#![tactic(auto)]

pub mod number;
pub mod words;

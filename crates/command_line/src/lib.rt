//! What the programs share: the words of their command lines, the refusal of one, and reading until a place is full.
#![tactic(auto)]

pub mod fault;
pub mod input;
pub mod words;

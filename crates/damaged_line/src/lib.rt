//! A sending and a receiving end over a line with damage, as commands ask for it. The ends carry the theorem of the line in their type.
#![tactic(auto)]

pub mod command;
pub mod damage;
mod ends;
pub mod outcome;
pub mod tally;
pub mod trial;

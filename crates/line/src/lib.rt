//! Both ends of the line: histories of their calls, and the theorem over them.
#![tactic(auto)]

pub mod theorem;

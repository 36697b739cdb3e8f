//! Reading and writing lower-case hexadecimal digits, for the programs that are run against the reference implementation.
#![tactic(auto)]

pub mod digits;

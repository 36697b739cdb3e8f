//! Captured headers: reading one from a line of text, what is found out of it, and counts over a whole capture.
#![tactic(auto)]

pub mod capture;
mod character;
pub mod finding;
mod line_end;
pub mod remark;
pub mod report;
pub mod tally;

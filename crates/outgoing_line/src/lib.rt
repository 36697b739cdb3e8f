//! What `send` is made of: its arguments, the line as it goes out, and the counts on it.
#![tactic(auto)]

pub mod arguments;
pub mod f3_payload;
pub mod line;
mod name;
pub mod summary;
pub mod tally;

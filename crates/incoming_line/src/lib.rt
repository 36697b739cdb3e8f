//! What `receive` is made of: its arguments, the line as it comes in, and how its cells and events are written.
#![tactic(auto)]

pub mod arguments;
pub mod line;
mod name;
pub mod output;
pub mod passing;
pub mod summary;

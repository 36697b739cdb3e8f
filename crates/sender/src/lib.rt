//! The sending end: which cell goes out, at which phase, and what a sent stream is.
#![tactic(auto)]

pub mod sender;
pub mod stream;

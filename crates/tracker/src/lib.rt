//! What tracks the line, bit by bit: the cell boundary, the descrambler's phase, mending, and the cell that is coming in. It knows no sink.
#![tactic(auto)]

mod display;
pub mod events;
mod lock;
pub mod reading;
mod rules;
pub mod state;
pub mod tracker;
pub mod window;

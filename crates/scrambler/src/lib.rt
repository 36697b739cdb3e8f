//! The distributed sample scrambler: its generator, coding a cell at a phase, and finding the phase from samples.
#![tactic(auto)]

pub mod coding;
pub mod finder;
pub mod generator;
pub mod payload;
pub mod samples;
mod sums;
pub mod worked_values;

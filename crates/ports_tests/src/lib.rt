//! Tests of rings, sources, sinks and draining on real data, and a source written by hand.
#![tactic(auto)]

#[cfg(test)]
mod checks;
pub mod one_cell;
#[cfg(test)]
mod refusal_tests;
#[cfg(test)]
mod ring_tests;
#[cfg(test)]
mod round_trip_tests;

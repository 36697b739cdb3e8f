//! Where user cells come from and go to: sources and sinks by their meaning, rings of cells, pairs, splits and draining.
#![tactic(auto)]

pub mod cell_ring;
pub mod checks;
pub mod closed;
pub mod drain;
pub mod drained;
pub mod lent;
pub mod pair;
pub mod sink;
pub mod source;
pub mod split;
pub mod user_cell;

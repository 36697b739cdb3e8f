//! The lowest layer: a cell's header and its fields, the check octet, what a syndrome says, sorting, and the refusals of the whole product.
#![tactic(auto)]

pub mod check_octet;
pub mod header;
pub mod line_header;
pub mod octets;
pub mod refusal;
pub mod sizes;
pub mod sorting;
pub mod verdict;

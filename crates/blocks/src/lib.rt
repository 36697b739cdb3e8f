//! Blocks of octets as sources and sinks of payloads under one header.
#![tactic(auto)]

pub mod block_sink;
pub mod block_source;

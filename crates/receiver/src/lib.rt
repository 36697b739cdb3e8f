//! The receiving end: it is fed octets of the line, and hands user cells up to a sink.
#![tactic(auto)]

pub mod book;
pub mod event;
pub mod feeding;
mod handing;
pub mod receiver;

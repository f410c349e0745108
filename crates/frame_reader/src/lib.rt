//! The events of a connection's octets, which come in pieces (RFC 6455, sections 5 and 8.1).
#![tactic(auto)]

mod data_frame;
mod header;
mod mask;
mod reader;
mod step;

pub use reader::Reader;
pub use step::Step;

#[cfg(test)]
mod tests;

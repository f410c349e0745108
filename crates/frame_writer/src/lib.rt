//! The headers of the frames that a server sends, and the payloads of close frames (RFC 6455, sections 5.2 and 5.5.1).
//!
//! No function takes memory. The meanings that the contracts name (`frame`, `closing`, `is_sendable`) stand in the crate
//! `wire_meaning`.
#![tactic(auto)]

mod close;
mod header;

pub use close::{Closing, close_of, close_payload};
pub use header::head_of;

#[cfg(test)]
mod tests;

//! UTF-8 that comes in pieces (RFC 6455, sections 5.6 and 8.1): whether the octets so far are text, or can become text.
//!
//! No call takes memory. Between two pieces at most three octets are carried, those of a character that has not ended, and
//! these are looked at again with each piece until it ends.
#![tactic(auto)]

mod front;
mod stream;

pub use stream::{Text, Utf8, are_utf8};

#[cfg(test)]
mod tests;

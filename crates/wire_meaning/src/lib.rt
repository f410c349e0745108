//! What the octets of a WebSocket connection mean to a server (RFC 6455), and plain programs that compute it.
//!
//! The definitions stand in `specs/`: masking (`Mask`), frames and their parts (`Frame`), text that has not all come
//! (`Text`), events and closes (`Event`), the reading of a client's octets (`Reading`), what events it can give (`Bounds`),
//! and what is sent (`Answer`). [`plain_reading`] and [`plain_echo`] compute the reading and the echo of octets in memory.
//!
//! The crates above share the decoders of a frame's header: [`is_final`], [`has_reserved_bit`] and [`opcode_of`] read its
//! first octet, [`is_masked`] and [`seven_bits`] the second, and [`size_at`] the length. [`is_reserved`], [`is_control`] and
//! [`is_data`] say what an opcode is for, and [`opcode_number`] is its number. [`is_sendable`] and [`is_utf8`] test the code and
//! the reason of a close, and [`close_body`] is the payload of one that is sent without a reason.
//!
//! The functions of the module `laws` have empty bodies. Their contracts are the laws of the definitions.
#![tactic(auto)]

mod answer;
mod event;
mod frame;
mod laws;
mod opening;
mod reading;

pub use answer::{close_body, plain_echo};
pub use event::{OwnedEvent, is_sendable, is_utf8};
pub use frame::{
    Opcode, has_reserved_bit, is_control, is_data, is_final, is_masked, is_reserved, opcode_number,
    opcode_of, seven_bits,
};
pub use laws::{
    closes, event_bounds, frame_by_frame, fronts, masking, nothing_follows, one_frame,
    sent_is_read, text_fronts,
};
pub use opening::size_at;
pub use reading::plain_reading;

#[cfg(test)]
mod tests;

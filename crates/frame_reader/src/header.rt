//! The header of the frame at the front of some octets, and what of it is refused (RFC 6455, section 5.2).

ghost use Rattle.std.specs.Prelude.{◌≡◌, ◌+◌, ◌^◌, ◌&&◌, Option, nat_lt, nat_le};
ghost use Rattle.wire_meaning.specs.Frame.{opcode_of};
ghost use Rattle.wire_meaning.specs.Reading.{Begun, is_data, is_out_of_turn, refuses_first, refuses_second};
ghost use Rattle.frame_reader.specs.Header.{opened, Describes, HeaderIs};

use wire_meaning::{
    Opcode, has_reserved_bit, is_control, is_data, is_final, is_masked, is_reserved, opcode_of,
    seven_bits, size_at,
};
use ws_kinds::Kind;

/// A whole header, no part of which is refused.
#[derive(Clone, Copy, Debug)]
pub(crate) struct FrameHeader {
    pub is_final: bool,
    pub opcode: Opcode,
    /// The octets of the payload.
    pub size: usize,
    pub key: [u8; 4],
    /// The octets of the header itself.
    pub length: usize,
}

/// What octets tell of the header at their front.
#[derive(Clone, Copy, Debug)]
pub(crate) enum Header {
    /// It is not whole, and no part that is there is refused.
    More,
    /// The connection fails with this code.
    Refused(u16),
    Whole(FrameHeader),
}

/// What a frame is checked against: the kind of the open message, if one is open, how many octets it has so far, and the limit
/// on a message's octets.
#[derive(Clone, Copy, Debug)]
pub(crate) struct MessageState {
    pub max_message: u32,
    pub kind: Option<Kind>,
    pub held: usize,
}

/// A continuation continues, and a text or binary frame begins, the one message that is open at most.
fn is_out_of_turn(kind: Option<Kind>, opcode: Opcode) -> bool
    ensures { result ≡ is_out_of_turn (opened kind) opcode }
{
    match opcode {
        Opcode::Continuation => kind.is_none(),
        Opcode::Begins(_) => kind.is_some(),
        Opcode::Close | Opcode::Ping | Opcode::Pong | Opcode::Reserved => false,
    }
}

/// The first octet of the frame is refused.
fn refuses_first(kind: Option<Kind>, first: u8) -> bool
    ensures { result ≡ refuses_first (opened kind) first }
{
    let opcode = opcode_of(first);
    has_reserved_bit(first)
        || is_reserved(opcode)
        || is_control(opcode) && !is_final(first)
        || is_out_of_turn(kind, opcode)
}

/// The second octet of the frame is refused.
fn refuses_second(first: u8, second: u8) -> bool
    ensures { result ≡ refuses_second first second }
{
    !is_masked(second) || is_control(opcode_of(first)) && seven_bits(second) >= 126
}

/// The top bit of the length is 1, which the standard forbids.
fn has_top_bit(size: u64) -> bool
    ensures { result ≡ nat_le (2 ^ 63) size }
{
    size >= 0x8000_0000_0000_0000
}

/// The message would have more octets than it may.
fn is_over(message: MessageState, first: u8, size: u64) -> bool
    ensures { result ≡ (is_data (opcode_of first) && nat_lt message.max_message (message.held + size)) }
{
    is_data(opcode_of(first))
        && u128::from(message.max_message) < message.held as u128 + u128::from(size)
}

/// What the octets tell of the header at their front, which is judged part by part as the parts come.
pub(crate) fn header_at(message: MessageState, raw: &[u8]) -> Header
    ensures { (begun : Option Begun) → Describes message begun → HeaderIs message.max_message begun raw.now result }
{
    let Some((first, rest)) = raw.split_first() else {
        return Header::More;
    };
    if refuses_first(message.kind, *first) {
        return Header::Refused(1002);
    }
    let Some((second, rest)) = rest.split_first() else {
        return Header::More;
    };
    if refuses_second(*first, *second) {
        return Header::Refused(1002);
    }
    let Some((size, rest)) = size_at(*second, rest) else {
        return Header::More;
    };
    if has_top_bit(size) {
        return Header::Refused(1002);
    }
    if is_over(message, *first, size) {
        return Header::Refused(1009);
    }
    let Some((key, rest)) = rest.split_first_chunk::<4>() else {
        return Header::More;
    };
    Header::Whole(FrameHeader {
        is_final: is_final(*first),
        opcode: opcode_of(*first),
        size: size as usize,
        key: *key,
        length: raw.len() - rest.len(),
    })
}

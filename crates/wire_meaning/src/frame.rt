//! The kinds of frames, and the fields of their first two octets (RFC 6455, section 5.2).

ghost use Rattle.std.specs.Prelude.{◌≡◌};

use ws_kinds::Kind;

/// What a frame is, by its opcode (RFC 6455, sections 5.2 and 11.8).
#[derive(Clone, Copy, Debug, PartialEq, Eq)]
pub enum Opcode {
    /// 0: a further fragment of the open message (section 5.4).
    Continuation,
    /// 1 for text, 2 for binary: a whole message or its first fragment (section 5.6).
    Begins(Kind),
    /// 8: the last frame of its sender (section 5.5.1).
    Close,
    /// 9: to be answered by a pong (section 5.5.2).
    Ping,
    /// 10 (section 5.5.3).
    Pong,
    /// 3 to 7 and 11 to 15, which have no meaning yet and are refused.
    Reserved,
}

ghost use Rattle.wire_meaning.specs.Frame.{is_final, has_reserved_bit, opcode_of, is_masked, seven_bits, opcode_number};
ghost use Rattle.wire_meaning.specs.Reading.{is_reserved, is_control, is_data, is_text};

// The numbers of the opcodes that have a meaning (RFC 6455, section 11.8).
const CONTINUATION: u8 = 0;

const TEXT: u8 = 1;

const BINARY: u8 = 2;

const CLOSE: u8 = 8;

const PING: u8 = 9;

const PONG: u8 = 10;

/// FIN is 1: the frame is the last fragment of its message.
pub fn is_final(first: u8) -> bool
    ensures { result ≡ is_final first }
{
    first >= 128
}

/// RSV1, RSV2 or RSV3 is 1.
pub fn has_reserved_bit(first: u8) -> bool
    ensures { result ≡ has_reserved_bit first }
{
    first / 16 % 8 != 0
}

/// What the frame is, by the low four bits of its first octet.
pub fn opcode_of(first: u8) -> Opcode
    ensures { result ≡ opcode_of first }
{
    match first % 16 {
        CONTINUATION => Opcode::Continuation,
        TEXT => Opcode::Begins(Kind::Text),
        BINARY => Opcode::Begins(Kind::Binary),
        CLOSE => Opcode::Close,
        PING => Opcode::Ping,
        PONG => Opcode::Pong,
        _ => Opcode::Reserved,
    }
}

/// MASK is 1: the payload is masked, and a key of 4 octets stands before it.
pub fn is_masked(second: u8) -> bool
    ensures { result ≡ is_masked second }
{
    second >= 128
}

/// The low seven bits of the second octet: the payload's length, or 126 or 127 where it stands in the 2 or 8 octets
/// behind.
pub fn seven_bits(second: u8) -> u8
    ensures { result ≡ seven_bits second }
{
    second % 128
}

/// The opcode has no meaning yet.
pub fn is_reserved(opcode: Opcode) -> bool
    ensures { result ≡ is_reserved opcode }
{
    match opcode {
        Opcode::Reserved => true,
        Opcode::Continuation | Opcode::Begins(_) | Opcode::Close | Opcode::Ping | Opcode::Pong =>
            false,
    }
}

/// A close, a ping or a pong (RFC 6455, section 5.5).
pub fn is_control(opcode: Opcode) -> bool
    ensures { result ≡ is_control opcode }
{
    match opcode {
        Opcode::Close | Opcode::Ping | Opcode::Pong => true,
        Opcode::Continuation | Opcode::Begins(_) | Opcode::Reserved => false,
    }
}

/// A text or binary frame or a continuation (RFC 6455, sections 5.4 and 5.6).
pub fn is_data(opcode: Opcode) -> bool
    ensures { result ≡ is_data opcode }
{
    match opcode {
        Opcode::Continuation | Opcode::Begins(_) => true,
        Opcode::Close | Opcode::Ping | Opcode::Pong | Opcode::Reserved => false,
    }
}

/// The message is text, which has to be UTF-8.
pub fn is_text(kind: Kind) -> bool
    ensures { result ≡ is_text kind }
{
    match kind {
        Kind::Text => true,
        Kind::Binary => false,
    }
}

/// The number of the opcode, as the low four bits of a frame's first octet have it (RFC 6455, section 11.8); for `Reserved`,
/// which is never sent, 3.
pub fn opcode_number(opcode: Opcode) -> u8
    ensures value { result ≡ opcode_number opcode }
{
    match opcode {
        Opcode::Continuation => CONTINUATION,
        Opcode::Begins(Kind::Text) => TEXT,
        Opcode::Begins(Kind::Binary) => BINARY,
        Opcode::Close => CLOSE,
        Opcode::Ping => PING,
        Opcode::Pong => PONG,
        Opcode::Reserved => 3,
    }
}

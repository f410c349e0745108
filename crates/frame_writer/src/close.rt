//! Payloads of close frames.

ghost use Rattle.std.specs.Prelude.{◌≡◌, ◌↔◌, ◌≤◌, [], length, IsTrue, IsUtf8};
ghost use Rattle.wire_meaning.specs.Event.{closed, closing, is_sendable};
ghost use Rattle.frame_writer.specs.Close.{close_octets, event_of, HasSendableCode};

use arrayvec::ArrayVec;
use wire_meaning::{is_sendable, is_utf8};

/// What the payload of a close frame says (RFC 6455, sections 5.5.1 and 7.4).
#[derive(Clone, Copy, Debug, PartialEq, Eq)]
pub enum Closing {
    /// Nothing: a close without a code, which is told as 1005.
    Empty,
    /// A close with this code, which may be sent. The reason is the payload without its first two octets.
    Code(u16),
    /// A payload that is refused, and the code with which the connection fails: 1002 for one octet or a code that may not
    /// be sent, 1007 for a reason that is not UTF-8.
    Bad(u16),
}

/// The payload of a close frame: the code in network order, and then the reason, UTF-8 of at most 123 octets.
///
/// Whoever reads it is told this code and this reason.
pub fn close_payload(code: u16, reason: &[u8]) -> ArrayVec<u8, 125>
    requires code { IsTrue (is_sendable code) }
    requires text { IsUtf8 reason.now }
    requires short { length reason.now ≤ 123 }
    ensures octets { result.items ≡ close_octets code reason.now }
    ensures said { closing result.items ≡ closed code reason.now }
{
    let mut payload = ArrayVec::new();
    payload.try_extend_from_slice(&code.to_be_bytes()).unwrap();
    payload.try_extend_from_slice(reason).unwrap();
    payload
}

/// What the payload of a close frame says.
///
/// `Empty` is the answer for no octets alone. A payload with a code that may be sent and a UTF-8 reason, also an empty one,
/// is `Code`; every other is `Bad`.
pub fn close_of(payload: &[u8]) -> Closing
    ensures event { closing payload.now ≡ event_of payload.now result }
    ensures empty { (result ≡ Closing.Empty) ↔ (payload.now ≡ []) }
    ensures sendable { HasSendableCode result }
{
    if payload.is_empty() {
        return Closing::Empty;
    }
    if payload.len() == 1 {
        return Closing::Bad(1002);
    }
    let code = u16::from_be_bytes([payload[0], payload[1]]);
    if !is_sendable(code) {
        return Closing::Bad(1002);
    }
    if !is_utf8(&payload[2..]) {
        return Closing::Bad(1007);
    }
    Closing::Code(code)
}

//! Events that own their octets, and what a close frame's payload says.

ghost use Rattle.std.specs.Prelude.{◌≡◌, ◌↔◌, IfOk, IsTrue};
ghost use Rattle.std.specs.Str.{is_utf8};
ghost use Rattle.wire_meaning.specs.Text.{is_text_front};
ghost use Rattle.wire_meaning.specs.Mask.{unmasked};
ghost use Rattle.wire_meaning.specs.Event.{is_sendable, closing, Event};
ghost use Rattle.wire_meaning.specs.View.{event_view};

use std::alloc::{AllocError, Global};
use std::str;
use ws_kinds::Kind;

/// What is told of a client's octets. All octets are unmasked.
#[derive(Debug, Drop)]
pub enum OwnedEvent {
    /// A whole message; a text is UTF-8 (RFC 6455, section 5.6).
    Message(Kind, Vec<u8>),
    /// A ping and its payload of at most 125 octets (section 5.5.2).
    Ping(Vec<u8>),
    /// A pong and its payload of at most 125 octets (section 5.5.3).
    Pong(Vec<u8>),
    /// A close, its code and its UTF-8 reason; code 1005 and no reason where its payload is empty (section 5.5.1).
    /// The last event.
    Close(u16, Vec<u8>),
    /// The connection fails with this code: 1002 protocol error, 1007 no UTF-8, 1009 too big (section 7.4.1). The
    /// last event.
    Failed(u16),
}

/// Whether a close frame may carry this code: 1000 to 1003, 1007 to 1014 and 3000 to 4999.
///
/// These are the codes defined for use in a frame, and those for libraries and private use (RFC 6455, section 7.4). The
/// standard forbids 1005, 1006 and 1015 there and reserves 1004. That codes which nobody has defined yet, as 1016 to 2999,
/// are refused too is the server's choice.
pub fn is_sendable(code: u16) -> bool
    ensures { result ≡ is_sendable code }
{
    matches!(code, 1000..=1003 | 1007..=1014 | 3000..=4999)
}

/// Whether the octets are UTF-8, as a text and the reason of a close have to be (RFC 6455, section 8.1).
#[tactic(auto, using(ws_kinds::proofs::TextLemmas::utf8_tests))]
pub fn is_utf8(octets: &[u8]) -> bool
    ensures { result ≡ is_utf8 octets.now }
{
    match str::from_utf8(octets) {
        Ok(_) => true,
        Err(_) => false,
    }
}

/// Whether some continuation of the octets is UTF-8.
#[tactic(auto, using(crate::proofs::TextLemmas::front_of_text))]
pub fn is_text_front(octets: &[u8]) -> bool
    ensures { result ≡ is_text_front octets.now }
{
    match str::from_utf8(octets) {
        Ok(_) => true,
        Err(error) => error.error_len().is_none(),
    }
}

/// A copy of a payload's octets, unmasked with this key (RFC 6455, section 5.3). An error is want of memory.
pub fn unmasked(alloc: Global, key: &[u8], octets: &[u8]) -> Result<Vec<u8>, AllocError>
    ensures { IfOk result (λ plain. plain.items ≡ unmasked key.now 0 octets.now) }
{
    let mut plain = Vec::new(alloc);
    for (place, octet) in octets.iter().enumerate() {
        let mask = key.get(place % 4).copied().unwrap_or(0);
        plain.push(*octet ^ mask)?;
    }
    Ok(plain)
}

/// What the payload of a close frame says (RFC 6455, section 5.5.1). An error is want of memory.
pub fn closing(alloc: Global, payload: &[u8]) -> Result<OwnedEvent, AllocError>
    ensures { IfOk result (λ event. event_view event ≡ closing payload.now) }
{
    if payload.is_empty() {
        return Ok(OwnedEvent::Close(1005, Vec::new(alloc)));
    }
    if payload.len() == 1 {
        return Ok(OwnedEvent::Failed(1002));
    }
    let code = u16::from_be_bytes([payload[0], payload[1]]);
    if !is_sendable(code) {
        return Ok(OwnedEvent::Failed(1002));
    }
    let reason = &payload[2..];
    if !is_utf8(reason) {
        return Ok(OwnedEvent::Failed(1007));
    }
    Ok(OwnedEvent::Close(code, Vec::from_slice(alloc, reason)?))
}

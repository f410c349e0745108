//! What an echo sends, frame by frame (RFC 6455, sections 5.5 and 7).

ghost use Rattle.std.specs.Prelude.{◌≡◌, true, ◌++◌, IfOk, OnOk};
ghost use Rattle.wire_meaning.specs.Frame.{size_octets, frame};
ghost use Rattle.wire_meaning.specs.Answer.{spelled, all_spelled, close_body, close_item, answers, echoed};
ghost use Rattle.wire_meaning.specs.View.{event_view};

use crate::event::OwnedEvent;
use crate::frame::{Opcode, opcode_number};
use crate::reading::plain_reading;
use arrayvec::ArrayVec;
use std::alloc::{AllocError, Global};

/// Puts the second octet of an unmasked frame, with the octets of the length behind it, behind those that are there.
fn push_size(out: &mut Vec<u8>, size: usize) -> Result<(), AllocError>
    ensures { OnOk result (out.new.items ≡ out.old.items ++ size_octets 0 size) }
{
    if size < 126 {
        out.push(size as u8)?;
        return Ok(());
    }
    if size < 0x1_0000 {
        out.push(126)?;
        out.extend_from_slice(&(size as u16).to_be_bytes())?;
        return Ok(());
    }
    out.push(127)?;
    out.extend_from_slice(&(size as u64).to_be_bytes())?;
    Ok(())
}

/// Puts an unmasked frame with FIN 1 behind the octets that are there.
fn push_frame(out: &mut Vec<u8>, opcode: Opcode, payload: &[u8]) -> Result<(), AllocError>
    ensures { OnOk result (out.new.items ≡ out.old.items ++ frame true opcode payload.now) }
{
    out.push(128 + opcode_number(opcode))?;
    push_size(out, payload.len())?;
    out.extend_from_slice(payload)?;
    Ok(())
}

/// The payload of a close frame with this code and no reason: the code in network order, and nothing for 1005, which may not
/// be sent (RFC 6455, sections 5.5.1 and 7.4.1).
pub fn close_body(code: u16) -> ArrayVec<u8, 2>
    ensures { result.items ≡ close_body code }
{
    let mut body = ArrayVec::new();
    if code == 1005 {
        return body;
    }
    body.try_extend_from_slice(&code.to_be_bytes()).unwrap();
    body
}

/// Puts a close frame with this code alone behind the octets that are there.
fn push_close(out: &mut Vec<u8>, code: u16) -> Result<(), AllocError>
    ensures { OnOk result (out.new.items ≡ out.old.items ++ spelled (close_item code)) }
{
    push_frame(out, Opcode::Close, &close_body(code))
}

/// Puts the frames that answer an event behind the octets that are there.
fn push_answers(out: &mut Vec<u8>, event: &OwnedEvent) -> Result<(), AllocError>
    ensures { OnOk result (out.new.items ≡ out.old.items ++ all_spelled (answers (event_view event.now))) }
{
    match event {
        OwnedEvent::Message(kind, octets) => push_frame(out, Opcode::Begins(*kind), octets),
        OwnedEvent::Ping(payload) => push_frame(out, Opcode::Pong, payload),
        OwnedEvent::Pong(_) => Ok(()),
        OwnedEvent::Close(code, _) => push_close(out, *code),
        OwnedEvent::Failed(code) => push_close(out, *code),
    }
}

/// The frames that an echo sends for all octets that a client sent, where a message has at most `max_message` octets.
///
/// Each message is sent back, each ping is answered by its pong, and a close or a failure by a close frame with its
/// code alone, an empty one for 1005. A pong is not answered. An error is want of memory.
pub fn plain_echo(alloc: Global, max_message: u32, octets: &[u8]) -> Result<Vec<u8>, AllocError>
    ensures { IfOk result (λ out. out.items ≡ echoed max_message octets.now) }
{
    let events = plain_reading(alloc, max_message, octets)?;
    let mut out = Vec::new(alloc);
    for event in &events {
        push_answers(&mut out, event)?;
    }
    Ok(out)
}

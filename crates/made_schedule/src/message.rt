//! The message that a state gives.

ghost use Rattle.std.specs.Prelude.{◌≡◌, ◌<◌, ◌++◌, IfOk, OnOk};
ghost use Rattle.wire_meaning.specs.Mask.{unmasked};
ghost use Rattle.made_schedule.specs.Message.{body_of, hex, hex_digit, key_of, message, octets_of};

use link_trait::Act;
use std::alloc::{AllocError, Global};
use ws_kinds::{Bytes, Conn};

/// The octets of a whole text frame of 16 octets (RFC 6455, section 5.2).
const OCTETS: usize = 22;

/// What stands before its key: FIN and the opcode of text, and the mask's bit with the length.
const HEADER: [u8; 2] = [0x81, 0x90];

/// The act that a state gives: one connection sends one text. An error says that there was too little memory.
pub(crate) fn message(alloc: Global, state: u64) -> Result<Act, AllocError>
    ensures { IfOk result (λ act. act ≡ message state) }
{
    let octets = octets_of(alloc, state)?;
    Ok(Act::Octets {
        conn: Conn(1 + (state >> 58)),
        octets: Bytes::from_vec(octets),
    })
}

fn octets_of(alloc: Global, state: u64) -> Result<Vec<u8>, AllocError>
    ensures { IfOk result (λ frame. frame.items ≡ octets_of state) }
{
    let key = key_of(state);
    let body = body_of(alloc, state)?;
    let mut frame = Vec::with_capacity(alloc, OCTETS)?;
    frame.extend_from_slice(&HEADER)?;
    frame.extend_from_slice(&key)?;
    push_masked(&mut frame, &body, &key)?;
    Ok(frame)
}

/// The four low octets of a state, the highest of them first.
fn key_of(state: u64) -> [u8; 4]
    ensures { result ≡ key_of state }
{
    let [_, _, _, _, first, second, third, fourth] = state.to_be_bytes();
    [first, second, third, fourth]
}

/// A state as sixteen hexadecimal digits.
fn body_of(alloc: Global, state: u64) -> Result<Vec<u8>, AllocError>
    ensures { IfOk result (λ body. body.items ≡ body_of state) }
{
    let mut body = Vec::with_capacity(alloc, 16)?;
    push_digits(&mut body, &state.to_be_bytes())?;
    Ok(body)
}

/// Puts octets as hexadecimal digits at the end.
fn push_digits(text: &mut Vec<u8>, octets: &[u8]) -> Result<(), AllocError>
    ensures { OnOk result (text.new.items ≡ text.old.items ++ hex octets.now) }
{
    'octets: for octet in octets {
        text.push(digit(*octet / 16))?;
        text.push(digit(*octet % 16))?;
    }
    Ok(())
}

/// A number below 16 as a lower-case hexadecimal digit.
fn digit(number: u8) -> u8
    requires { number < 16 }
    ensures { result ≡ hex_digit number }
{
    if number < 10 {
        b'0' + number
    } else {
        b'a' + (number - 10)
    }
}

/// Puts a whole payload at the end, masked with a key (RFC 6455, section 5.3).
fn push_masked(frame: &mut Vec<u8>, payload: &[u8], key: &[u8; 4]) -> Result<(), AllocError>
    ensures { OnOk result (frame.new.items ≡ frame.old.items ++ unmasked key.now 0 payload.now) }
{
    'octets: for (place, octet) in payload.iter().enumerate() {
        frame.push(*octet ^ key[place % 4])?;
    }
    Ok(())
}

//! The parts of the frame at the front of some octets (RFC 6455, section 5.2).

ghost use Rattle.std.specs.Prelude.{◌≡◌, ℕ, List, Option, option_map};
ghost use Rattle.std.specs.Int.{w16, w64};
ghost use Rattle.wire_meaning.specs.Frame.{octets_at, number_at, size_at, key_at, with_key, with_size, opening};
ghost use Rattle.wire_meaning.specs.View.{opening_view};

use crate::frame::{is_masked, seven_bits};

/// What octets tell of their first frame. A part is there where all its octets are.
#[derive(Clone, Copy)]
pub struct Opening<'a> {
    /// FIN, the reserved bits and the opcode.
    pub first: Option<u8>,
    /// MASK and the low seven bits of the length.
    pub second: Option<u8>,
    /// The payload's length.
    pub size: Option<u64>,
    /// The masking key: 4 octets where MASK is 1, none where it is 0.
    pub key: Option<&'a [u8]>,
    /// The payload octets present, still masked.
    pub payload: &'a [u8],
    /// What follows the frame.
    pub rest: &'a [u8],
}

/// So many octets and what follows them, where all of them are there.
fn octets_at(count: usize, octets: &[u8]) -> Option<(&[u8], &[u8])>
    ensures { option_map (λ p. (p.0.now, p.1.now)) result ≡ octets_at count octets.now }
{
    if octets.len() < count {
        return None;
    }
    Some(octets.split_at(count))
}

/// A number of 2 octets and what follows it, where both are there.
fn u16_at(octets: &[u8]) -> Option<(u64, &[u8])>
    ensures { option_map (λ p. (p.0, p.1.now)) result ≡ number_at w16 octets.now }
{
    let (front, rest) = octets.split_first_chunk::<2>()?;
    Some((u64::from(u16::from_be_bytes(*front)), rest))
}

/// A number of 8 octets and what follows it, where all of them are there.
fn u64_at(octets: &[u8]) -> Option<(u64, &[u8])>
    ensures { option_map (λ p. (p.0, p.1.now)) result ≡ number_at w64 octets.now }
{
    let (front, rest) = octets.split_first_chunk::<8>()?;
    Some((u64::from_be_bytes(*front), rest))
}

/// The length of a frame's payload, in octets, and what follows it, by the frame's second octet and the octets behind that
/// (RFC 6455, section 5.2). None where an octet of the length is missing. A length that is spelled longer than needed is
/// taken, and so is one whose top bit is 1.
pub fn size_at(second: u8, octets: &[u8]) -> Option<(u64, &[u8])>
    ensures { option_map (λ p. (p.0, p.1.now)) result ≡ size_at second octets.now }
{
    match seven_bits(second) {
        126 => u16_at(octets),
        127 => u64_at(octets),
        seven => Some((u64::from(seven), octets)),
    }
}

/// The masking key and what follows it, where it is whole: 4 octets where MASK is 1, and none where it is 0.
fn key_at(second: u8, octets: &[u8]) -> Option<(&[u8], &[u8])>
    ensures { option_map (λ p. (p.0.now, p.1.now)) result ≡ key_at second octets.now }
{
    octets_at(if is_masked(second) { 4 } else { 0 }, octets)
}

/// The frame whose header up to the length is this, with the octets behind it.
fn with_key(first: u8, second: u8, size: u64, octets: &[u8]) -> Opening<'_>
    ensures { opening_view result ≡ with_key first second size (key_at second octets.now) }
{
    match key_at(second, octets) {
        None => Opening {
            first: Some(first),
            second: Some(second),
            size: Some(size),
            key: None,
            payload: &[],
            rest: &[],
        },
        Some((key, octets)) => {
            let end = octets.len().min(size as usize);
            let (payload, rest) = octets.split_at(end);
            Opening {
                first: Some(first),
                second: Some(second),
                size: Some(size),
                key: Some(key),
                payload,
                rest,
            }
        }
    }
}

/// The frame whose first two octets are these, with the octets behind them.
fn with_size(first: u8, second: u8, octets: &[u8]) -> Opening<'_>
    ensures { opening_view result ≡ with_size first second (size_at second octets.now) }
{
    match size_at(second, octets) {
        None => Opening {
            first: Some(first),
            second: Some(second),
            size: None,
            key: None,
            payload: &[],
            rest: &[],
        },
        Some((size, octets)) => with_key(first, second, size, octets),
    }
}

/// What these octets tell of their first frame.
pub fn opening_of(octets: &[u8]) -> Opening<'_>
    ensures { opening_view result ≡ opening octets.now }
{
    match octets {
        [] => Opening {
            first: None,
            second: None,
            size: None,
            key: None,
            payload: &[],
            rest: &[],
        },
        [first] => Opening {
            first: Some(*first),
            second: None,
            size: None,
            key: None,
            payload: &[],
            rest: &[],
        },
        [first, second, octets @ ..] => with_size(*first, *second, octets),
    }
}

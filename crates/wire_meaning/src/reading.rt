//! The reading of octets, frame by frame (RFC 6455, sections 5.1 to 5.6 and 8.1).

ghost use Rattle.std.specs.Prelude.{◌≡◌, ℕ, ◌+◌, ◌^◌, IfOk, map, ◌++◌, length, option_map, nat_le};
ghost use Rattle.wire_meaning.specs.Frame.{Opening, opening};
ghost use Rattle.wire_meaning.specs.Reading.{refuses_first, refuses_second, is_out_of_turn, begun_octets, is_over, part_is, parts_are, breach, data_front, frame_front, body_front, front_at, reading};
ghost use Rattle.wire_meaning.specs.View.{event_view, begun_view, opening_view, front_view};

use crate::event::{OwnedEvent, closing, is_text_front, is_utf8, unmasked};
use crate::frame::{
    Opcode, has_reserved_bit, is_control, is_data, is_final, is_masked, is_reserved, is_text,
    opcode_of, seven_bits,
};
use crate::opening::{Opening, opening_of};
use std::alloc::{AllocError, Global};
use ws_kinds::Kind;

/// A message whose last fragment has not come (RFC 6455, section 5.4).
#[derive(Drop)]
pub struct Begun {
    /// What the message is, by its first fragment.
    pub kind: Kind,
    /// The octets of the fragments that came.
    pub octets: Vec<u8>,
}

/// What the frame at the front of some octets gives.
#[derive(Drop)]
pub enum Front<'a> {
    /// Nothing so far.
    More,
    /// The last event.
    Ends(OwnedEvent),
    /// A message that is open behind the frame, and the octets that follow it.
    Opens(Begun, &'a [u8]),
    /// An event, the message that is open behind the frame, and the octets that follow it.
    Gives(OwnedEvent, Option<Begun>, &'a [u8]),
}

/// A continuation where no message is open, or a text or binary frame where one is.
fn is_out_of_turn(begun: &Option<Begun>, opcode: Opcode) -> bool
    ensures { result ≡ is_out_of_turn (option_map begun_view begun.now) opcode }
{
    match opcode {
        Opcode::Continuation => begun.is_none(),
        Opcode::Begins(_) => begun.is_some(),
        Opcode::Close | Opcode::Ping | Opcode::Pong | Opcode::Reserved => false,
    }
}

/// The first octet is refused.
fn refuses_first(begun: &Option<Begun>, first: u8) -> bool
    ensures { result ≡ refuses_first (option_map begun_view begun.now) first }
{
    let opcode = opcode_of(first);
    has_reserved_bit(first)
        || is_reserved(opcode)
        || is_control(opcode) && !is_final(first)
        || is_out_of_turn(begun, opcode)
}

/// The second octet is refused.
fn refuses_second(first: u8, second: u8) -> bool
    ensures { result ≡ refuses_second first second }
{
    !is_masked(second) || is_control(opcode_of(first)) && seven_bits(second) >= 126
}

/// How many octets of the open message came, 0 where none is open.
fn begun_len(begun: &Option<Begun>) -> usize
    ensures { result ≡ length (begun_octets (option_map begun_view begun.now)) }
{
    match begun {
        None => 0,
        Some(begun) => begun.octets.len(),
    }
}

/// With a frame of this size the message would have more than `max_message` octets.
fn is_over(max_message: u32, begun: &Option<Begun>, first: u8, size: u64) -> bool
    ensures { result ≡ is_over max_message (option_map begun_view begun.now) first size }
{
    is_data(opcode_of(first))
        && u128::from(max_message) < begun_len(begun) as u128 + u128::from(size)
}

/// The first octet is there, and is refused.
fn is_first_refused(begun: &Option<Begun>, opening: &Opening<'_>) -> bool
    ensures { result ≡ part_is opening.now.first (refuses_first (option_map begun_view begun.now)) }
{
    match opening.first {
        None => false,
        Some(first) => refuses_first(begun, first),
    }
}

/// The first two octets are there, and the second is refused.
fn is_second_refused(opening: &Opening<'_>) -> bool
    ensures { result ≡ parts_are opening.now.first opening.now.second refuses_second }
{
    match (opening.first, opening.second) {
        (Some(first), Some(second)) => refuses_second(first, second),
        _ => false,
    }
}

/// The length is there, and its top bit is 1.
fn has_top_bit(opening: &Opening<'_>) -> bool
    ensures { result ≡ part_is opening.now.size (nat_le (2 ^ 63)) }
{
    match opening.size {
        None => false,
        Some(size) => size >= 0x8000_0000_0000_0000,
    }
}

/// The length is there, and the message would have more than `max_message` octets.
fn is_size_over(max_message: u32, begun: &Option<Begun>, opening: &Opening<'_>) -> bool
    ensures { result ≡ parts_are opening.now.first opening.now.size (is_over max_message (option_map begun_view begun.now)) }
{
    match (opening.first, opening.size) {
        (Some(first), Some(size)) => is_over(max_message, begun, first, size),
        _ => false,
    }
}

/// The code with which the connection fails at the first part that is there and is refused, if there is one.
pub fn breach(max_message: u32, begun: &Option<Begun>, opening: &Opening<'_>) -> Option<u16>
    ensures { result ≡ breach max_message (option_map begun_view begun.now) (opening_view opening.now) }
{
    if is_first_refused(begun, opening) || is_second_refused(opening) || has_top_bit(opening) {
        return Some(1002);
    }
    if is_size_over(max_message, begun, opening) {
        return Some(1009);
    }
    None
}

/// A data frame with which the message becomes `all`; `is_whole` says that its payload is all there.
fn data_front<'a>(is_last: bool, is_whole: bool, all: Begun, rest: &'a [u8]) -> Front<'a>
    ensures { front_view result ≡ data_front is_last is_whole all.kind all.octets.items rest.now }
{
    if is_text(all.kind) && !is_text_front(&all.octets) {
        return Front::Ends(OwnedEvent::Failed(1007));
    }
    if !is_whole {
        return Front::More;
    }
    if !is_last {
        return Front::Opens(all, rest);
    }
    if is_text(all.kind) && !is_utf8(&all.octets) {
        return Front::Ends(OwnedEvent::Failed(1007));
    }
    Front::Gives(OwnedEvent::Message(all.kind, all.octets), None, rest)
}

/// A copy of the open message. An error is want of memory.
fn begun_copy(alloc: Global, begun: &Option<Begun>) -> Result<Option<Begun>, AllocError>
    ensures { IfOk result (λ copy. option_map begun_view copy ≡ option_map begun_view begun.now) }
{
    match begun {
        None => Ok(None),
        Some(begun) => Ok(Some(Begun {
            kind: begun.kind,
            octets: Vec::from_slice(alloc, &begun.octets)?,
        })),
    }
}

/// The frame with this opcode and these payload octets, unmasked. An error is want of memory.
fn frame_front<'a>(
    alloc: Global,
    begun: &Option<Begun>,
    is_last: bool,
    opcode: Opcode,
    is_whole: bool,
    payload: Vec<u8>,
    rest: &'a [u8],
) -> Result<Front<'a>, AllocError>
    ensures { IfOk result (λ front. front_view front ≡ frame_front (option_map begun_view begun.now) is_last opcode is_whole payload.items rest.now) }
{
    match opcode {
        Opcode::Continuation => {
            let Some(mut all) = begun_copy(alloc, begun)? else {
                return Ok(Front::Ends(OwnedEvent::Failed(1002)));
            };
            all.octets.extend_from_slice(&payload)?;
            Ok(data_front(is_last, is_whole, all, rest))
        }
        Opcode::Begins(kind) => {
            if begun.is_some() {
                return Ok(Front::Ends(OwnedEvent::Failed(1002)));
            }
            let all = Begun {
                kind,
                octets: payload,
            };
            Ok(data_front(is_last, is_whole, all, rest))
        }
        Opcode::Reserved => Ok(Front::Ends(OwnedEvent::Failed(1002))),
        _ if !is_whole => Ok(Front::More),
        Opcode::Ping => Ok(Front::Gives(
            OwnedEvent::Ping(payload),
            begun_copy(alloc, begun)?,
            rest,
        )),
        Opcode::Pong => Ok(Front::Gives(
            OwnedEvent::Pong(payload),
            begun_copy(alloc, begun)?,
            rest,
        )),
        Opcode::Close => Ok(Front::Ends(closing(alloc, &payload)?)),
    }
}

/// The frame whose header is all there; `More` without it. An error is want of memory.
fn body_front<'a>(
    alloc: Global,
    begun: &Option<Begun>,
    opening: Opening<'a>,
) -> Result<Front<'a>, AllocError>
    ensures { IfOk result (λ front. front_view front ≡ body_front (option_map begun_view begun.now)
        opening.entry.first opening.entry.size (option_map (λ k. k.now) opening.entry.key) opening.entry.payload.now opening.entry.rest.now) }
{
    let (Some(first), Some(size), Some(key)) = (opening.first, opening.size, opening.key) else {
        return Ok(Front::More);
    };
    let payload = unmasked(alloc, key, opening.payload)?;
    let is_whole = opening.payload.len() as u64 == size;
    frame_front(
        alloc,
        begun,
        is_final(first),
        opcode_of(first),
        is_whole,
        payload,
        opening.rest,
    )
}

/// What the frame at the front of these octets gives, under a limit on a message's length, while `begun` is open. An
/// error is want of memory.
pub fn front_at<'a>(
    alloc: Global,
    max_message: u32,
    begun: &Option<Begun>,
    octets: &'a [u8],
) -> Result<Front<'a>, AllocError>
    ensures { IfOk result (λ front. front_view front ≡ front_at max_message (option_map begun_view begun.now) octets.now) }
{
    let opening = opening_of(octets);
    if let Some(code) = breach(max_message, begun, &opening) {
        return Ok(Front::Ends(OwnedEvent::Failed(code)));
    }
    body_front(alloc, begun, opening)
}

/// The events of all octets that a client sent from its first frame on, where a message has at most `max_message`
/// octets.
///
/// This is the definition `reading` as a program, plain and slow: it serves to compare a reader in pieces with it.
/// What has come of a frame or a message that isn't whole gives no event, and nothing is read after a `Close` or a
/// `Failed`. An error is want of memory.
pub fn plain_reading(
    alloc: Global,
    max_message: u32,
    octets: &[u8],
) -> Result<Vec<OwnedEvent>, AllocError>
    ensures { IfOk result (λ events. map event_view events.items ≡ reading max_message octets.now) }
{
    let mut events = Vec::new(alloc);
    let mut begun = None;
    let mut rest = octets;
    'frames: loop {
        match front_at(alloc, max_message, &begun, rest)? {
            Front::More => return Ok(events),
            Front::Ends(event) => {
                events.push(event)?;
                return Ok(events);
            }
            Front::Opens(message, after) => {
                begun = Some(message);
                rest = after;
            }
            Front::Gives(event, still, after) => {
                events.push(event)?;
                begun = still;
                rest = after;
            }
        }
    }
}

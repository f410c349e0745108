//! The state between two pieces.

ghost use Rattle.std.specs.Prelude.{◌≡◌, ℕ, ◌<◌, ◌≤◌, List, [], ◌++◌, length, take, flat_map, is_some};
ghost use Rattle.std.specs.Str.{is_utf8};
ghost use Rattle.wire_meaning.specs.Text.{is_text_front};
ghost use Rattle.utf8_stream.specs.Unfinished.{IsUnfinished, IsCarried, carried_octets};
ghost use Rattle.utf8_stream.specs.Stream.{accepts, Follows, is_front};

use crate::front::{long_whole_len, whole_len};
use arrayvec::ArrayVec;
use std::marker::Model;

/// What the pieces so far are together (RFC 6455, section 8.1: an endpoint fails the connection where they are Bad).
#[derive(Clone, Copy, Debug, PartialEq, Eq)]
pub enum Text {
    /// They are UTF-8, or some continuation makes them so.
    Front,
    /// No continuation makes them UTF-8.
    Bad,
}

/// Text that comes in pieces, as the payload of a text message does (RFC 6455, section 5.6). A piece may be empty, and
/// may end within a character. At most three octets are carried from one piece to the next, those of a character that has
/// not ended: they are looked at again with each piece until it ends. No call takes memory.
#[derive(Drop)]
pub struct Utf8 {
    /// The octets of the character that has not ended, and None once no continuation is UTF-8.
    carried: Option<ArrayVec<u8, 3>>,
}

impl Model for Utf8 {
    ghost use Rattle.std.specs.Prelude.{ℕ, List, Option};
    ghost use Rattle.utf8_stream.specs.Unfinished.{IsCarried, carried_octets};

    ghost Value = { Option (List ℕ) };

    ghost view = { λ utf8. carried_octets utf8.carried };

    ghost invariant = { λ utf8. IsCarried (carried_octets utf8.carried) };
}

impl Utf8 {
    /// No piece has come yet.
    pub fn new() -> Utf8
        ensures { Follows result [] }
    {
        Utf8 {
            carried: Some(ArrayVec::new()),
        }
    }

    /// Takes the next piece, of any length. The answer is Bad from the first octet on after which no
    /// continuation is UTF-8.
    pub fn push(&mut self, piece: &[u8]) -> Text
        ensures ahead { (more : List ℕ) → accepts self.new more ≡ accepts self.old (piece.now ++ more) }
        ensures follows { (all : List ℕ) → Follows self.old all → Follows self.new (all ++ piece.now) }
        ensures text { (all : List ℕ) → Follows self.old all → is_front result ≡ is_text_front (all ++ piece.now) }
    {
        let Some(carried) = &self.carried else {
            return Text::Bad;
        };
        self.carried = carried_after(carried, piece);
        text_of(&self.carried)
    }

    /// Whether the pieces so far are UTF-8 together, so that the text may end here. With no piece they are.
    pub fn ends(&self) -> bool
        ensures ahead { result ≡ accepts self.now [] }
        ensures text { (all : List ℕ) → Follows self.now all → result ≡ is_utf8 all }
    {
        match &self.carried {
            None => false,
            Some(carried) => carried.is_empty(),
        }
    }
}

/// Bad where nothing can be carried.
fn text_of(carried: &Option<ArrayVec<u8, 3>>) -> Text
    ensures { is_front result ≡ is_some (carried_octets carried.now) }
{
    match carried {
        Some(_) => Text::Front,
        None => Text::Bad,
    }
}

/// A copy of so few octets.
fn copied(octets: &[u8]) -> ArrayVec<u8, 3>
    requires { length octets.now ≤ 3 }
    ensures { result.items ≡ octets.now }
{
    ArrayVec::try_from(octets).unwrap()
}

/// What is carried behind these octets. None where no continuation is UTF-8.
fn carried_of(octets: &[u8]) -> Option<ArrayVec<u8, 3>>
    ensures carried { IsCarried (carried_octets result) }
    ensures follows { Follows (carried_octets result) octets.now }
{
    let whole = long_whole_len(octets)?;
    Some(copied(&octets[whole..]))
}

/// What was carried, with the first octets of the piece, which hold the rest of its character if the piece has it.
fn joined(carried: &[u8], piece: &[u8]) -> ArrayVec<u8, 6>
    requires { length carried.now ≤ 3 }
    ensures { result.items ≡ carried.now ++ take 3 piece.now }
{
    let mut joined = ArrayVec::new();
    joined.try_extend_from_slice(carried).unwrap();
    joined
        .try_extend_from_slice(&piece[..piece.len().min(3)])
        .unwrap();
    joined
}

/// What is carried behind the piece, where these octets were carried before it.
fn carried_after(carried: &[u8], piece: &[u8]) -> Option<ArrayVec<u8, 3>>
    requires { IsUnfinished carried.now }
    ensures carried { IsCarried (carried_octets result) }
    ensures follows { Follows (carried_octets result) (carried.now ++ piece.now) }
{
    if carried.is_empty() {
        return carried_of(piece);
    }
    let joined = joined(carried, piece);
    match whole_len(&joined)? {
        0 => Some(copied(&joined)),
        whole => carried_of(&piece[whole - carried.len()..]),
    }
}

/// Whether these pieces are UTF-8 together. No piece after the first Bad is read.
pub fn are_utf8(pieces: &[Vec<u8>]) -> bool
    ensures { result ≡ is_utf8 (flat_map (λ piece. piece.items) pieces.now) }
{
    let mut utf8 = Utf8::new();
    'pieces: for piece in pieces {
        if utf8.push(piece) == Text::Bad {
            return false;
        }
    }
    utf8.ends()
}

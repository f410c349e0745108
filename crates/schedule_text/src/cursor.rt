//! A cursor over the text of a schedule.

ghost use Rattle.std.specs.Prelude.{◌≡◌, ◌<◌, not, length, IfSome};
ghost use Rattle.std.specs.Char.{is_ascii_digit};
ghost use Rattle.std.specs.List.{position};
ghost use Rattle.std.specs.Str.Parse.{AllDigits};
ghost use Rattle.schedule_text.specs.Front as front;
ghost use Rattle.schedule_text.specs.Front.{Takes, TakesUnlessMemory};

use link_trait::Act;
use std::alloc::{AllocError, Global};
use std::str;
use ws_kinds::{Bytes, Conn};

/// The most octets of one act.
const MOST_OCTETS: usize = 8_192;

/// The octets that are not read yet. Where a call answers `None`, how far it went is open.
#[derive(Drop)]
pub(crate) struct Cursor<'t> {
    pub(crate) rest: &'t [u8],
}

impl Cursor<'_> {
    /// Takes the line of an act.
    #[tactic(auto, unfolding(crate::specs::Front::act_at))]
    pub(crate) fn act(&mut self, alloc: Global) -> Result<Option<Act>, AllocError>
        ensures { TakesUnlessMemory self.new.rest.now result (front.act_at self.old.rest.now) }
    {
        let [letter, rest @ ..] = self.rest else {
            return Ok(None);
        };
        self.rest = rest;
        match *letter {
            b'a' => Ok(self.arrival()),
            b'r' => self.octets(alloc),
            b'e' => Ok(self.named().map(Act::End)),
            b'f' => Ok(self.named().map(Act::ReadFails)),
            b'w' => Ok(self.room()),
            b'b' => Ok(self.named().map(Act::WriteFails)),
            b't' => Ok(self.octet(b'\n').map(|_| Act::Tick)),
            b'.' => Ok(self.octet(b'\n').map(|_| Act::Turn)),
            _ => Ok(None),
        }
    }

    /// What follows the letter of an arrival: the connection, and its credit.
    #[tactic(auto, unfolding(crate::specs::Front::arrival_at))]
    fn arrival(&mut self) -> Option<Act>
        ensures { Takes self.new.rest.now result (front.arrival_at self.old.rest.now) }
    {
        let conn = self.conn()?;
        self.octet(b' ')?;
        let credit = self.credit()?;
        self.octet(b'\n')?;
        Some(Act::Arrive { conn, credit })
    }

    /// A star for no credit, or a number.
    #[tactic(auto, unfolding(crate::specs::Front::credit_at))]
    fn credit(&mut self) -> Option<Option<u32>>
        ensures { Takes self.new.rest.now result (front.credit_at self.old.rest.now) }
    {
        let [first, rest @ ..] = self.rest else {
            return None;
        };
        if *first == b'*' {
            self.rest = rest;
            return Some(None);
        }
        let number = self.number()?;
        Some(Some(number))
    }

    /// What follows the letter of room: the connection, and a number from 1.
    #[tactic(auto, unfolding(crate::specs::Front::room_at))]
    fn room(&mut self) -> Option<Act>
        ensures { Takes self.new.rest.now result (front.room_at self.old.rest.now) }
    {
        let conn = self.conn()?;
        let more = self.positive()?;
        self.octet(b'\n')?;
        Some(Act::Room { conn, more })
    }

    /// What follows the letter of octets: the connection, and the octets.
    #[tactic(auto, unfolding(crate::specs::Front::octets_at))]
    fn octets(&mut self, alloc: Global) -> Result<Option<Act>, AllocError>
        ensures { TakesUnlessMemory self.new.rest.now result (front.octets_at self.old.rest.now) }
    {
        let Some(conn) = self.conn() else {
            return Ok(None);
        };
        if self.octet(b' ').is_none() {
            return Ok(None);
        }
        let Some(octets) = self.sent(alloc)? else {
            return Ok(None);
        };
        if self.octet(b'\n').is_none() {
            return Ok(None);
        }
        Ok(Some(Act::Octets { conn, octets }))
    }

    /// A connection's number, and the end of the line.
    #[tactic(auto, unfolding(crate::specs::Front::named_at))]
    fn named(&mut self) -> Option<Conn>
        ensures { Takes self.new.rest.now result (front.named_at self.old.rest.now) }
    {
        let conn = self.conn()?;
        self.octet(b'\n')?;
        Some(conn)
    }

    /// A connection's number behind a space.
    #[tactic(auto, unfolding(crate::specs::Front::conn_at))]
    fn conn(&mut self) -> Option<Conn>
        ensures { Takes self.new.rest.now result (front.conn_at self.old.rest.now) }
    {
        let number = self.positive()?;
        Some(Conn(u64::from(number)))
    }

    /// A number from 1 behind a space.
    #[tactic(auto, unfolding(crate::specs::Front::positive_at))]
    fn positive(&mut self) -> Option<u32>
        ensures { Takes self.new.rest.now result (front.positive_at self.old.rest.now) }
    {
        self.octet(b' ')?;
        let number = self.number()?;
        if number == 0 {
            return None;
        }
        Some(number)
    }

    /// A number: decimal digits without a leading zero.
    #[tactic(auto, unfolding(crate::specs::Front::number_at))]
    fn number(&mut self) -> Option<u32>
        ensures { Takes self.new.rest.now result (front.number_at self.old.rest.now) }
    {
        let count = digit_count(self.rest);
        let (digits, rest) = self.rest.split_at(count);
        let number = number_of(digits)?;
        self.rest = rest;
        Some(number)
    }

    /// From 1 to 8,192 octets as pairs of hexadecimal digits, as many as there are.
    #[tactic(auto, unfolding(crate::specs::Front::sent_at))]
    fn sent(&mut self, alloc: Global) -> Result<Option<Bytes>, AllocError>
        ensures { TakesUnlessMemory self.new.rest.now result (front.sent_at self.old.rest.now) }
    {
        let octets = self.pairs(alloc)?;
        if octets.is_empty() || octets.len() > MOST_OCTETS {
            return Ok(None);
        }
        Ok(Some(Bytes::from_vec(octets)))
    }

    /// The octets that pairs of hexadecimal digits write, as many as there are.
    fn pairs(&mut self, alloc: Global) -> Result<Vec<u8>, AllocError>
        ensures { front.PairsUnlessMemory self.new.rest.now result (front.pairs_at self.old.rest.now) }
    {
        let mut octets = Vec::new(alloc);
        'pairs: while let [high, low, rest @ ..] = self.rest {
            let Some(octet) = pair_value(*high, *low) else {
                break;
            };
            octets.push(octet)?;
            self.rest = rest;
        }
        Ok(octets)
    }

    /// This octet.
    fn octet(&mut self, octet: u8) -> Option<()>
        ensures { Takes self.new.rest.now result (front.octet_at octet self.old.rest.now) }
    {
        match self.rest {
            [first, rest @ ..] if *first == octet => {
                self.rest = rest;
                Some(())
            }
            _ => None,
        }
    }
}

/// How many decimal digits stand at the front.
fn digit_count(octets: &[u8]) -> usize
    ensures { result ≡ front.digit_count octets.now }
{
    match first_other(octets) {
        Some(place) => place,
        None => octets.len(),
    }
}

/// The place of the first octet that is no decimal digit.
fn first_other(octets: &[u8]) -> Option<usize>
    ensures { result ≡ position (λ octet. not (is_ascii_digit octet)) octets.now }
{
    octets.iter().position(|octet| !octet.is_ascii_digit())
}

/// The number that decimal digits write, unless it has a leading zero or does not fit.
fn number_of(digits: &[u8]) -> Option<u32>
    requires { AllDigits 10 digits.now }
    ensures { result ≡ front.number_of digits.now }
{
    match digits {
        [] => None,
        [b'0', _, ..] => None,
        _ => value_of(digits),
    }
}

/// The number that decimal digits write, at least one, unless it does not fit.
fn value_of(digits: &[u8]) -> Option<u32>
    requires digits { AllDigits 10 digits.now }
    requires some { 0 < length digits.now }
    ensures { result ≡ front.value_of digits.now }
{
    str::from_utf8(digits).ok()?.parse().ok()
}

/// The octet that two lower-case hexadecimal digits write.
fn pair_value(high: u8, low: u8) -> Option<u8>
    ensures { result ≡ front.pair_value high low }
{
    let high = hex_value(high)?;
    let low = hex_value(low)?;
    Some(16 * high + low)
}

/// The value of a lower-case hexadecimal digit.
fn hex_value(digit: u8) -> Option<u8>
    ensures value { result ≡ front.hex_value digit }
    ensures below { IfSome result (λ value. value < 16) }
{
    match digit {
        b'0'..=b'9' => Some(digit - b'0'),
        b'a'..=b'f' => Some(digit - b'a' + 10),
        _ => None,
    }
}

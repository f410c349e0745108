//! The plain program for one connection and a handler that echoes: slow, and as near to the definitions as can be.

ghost use Rattle.std.specs.Prelude.{◌≡◌, ◌<◌, ◌+◌, ◌++◌, ℕ, List, map, drop, length, IfOk, OnOk};
ghost use Rattle.ws_kinds.specs.NoteValue.{note_value};
ghost use Rattle.wire_meaning.specs.Answer as answer;
ghost use Rattle.upgrade_head.specs.Texts.{refusal_text};
ghost use Rattle.run_meaning.specs.Notes as single;
ghost use Rattle.run_meaning.specs.Lines as lines;
ghost use Rattle.run_meaning.specs.Echo.{echo_server, sent_back, echo_own, echo_after};
ghost use Rattle.run_meaning.specs.View.{item_value, item_list, item_values, line_value};

use std::alloc::{AllocError, Global};
use upgrade_head::refusal;
use wire_meaning::{Opcode, close_body};
use ws_kinds::{Bytes, Conn, Note, Phase, Recorder};

/// What is sent to a connection, piece by piece, with its own octets.
#[derive(Drop)]
pub enum OwnedItem {
    /// The text that answers a request head.
    Reply(Bytes),
    /// One whole frame.
    Whole(Opcode, Bytes),
}

/// A connection, as far as the notes tell it.
#[derive(Drop)]
pub struct PlainLine {
    /// How far it is; None before it was accepted.
    pub phase: Option<Phase>,
    /// The route that it was opened on, 0 before.
    pub route: u8,
    /// What is sent to it, if each item is sent singly and at once.
    pub items: Vec<OwnedItem>,
}

fn is_of(note: &Note<'_>, conn: Conn) -> bool
    ensures { result ≡ single.is_of conn.0 (note_value note.now) }
{
    match *note {
        Note::Turn | Note::Tick => false,
        Note::Accepted(other) => other.0 == conn.0,
        Note::Busy(other) => other.0 == conn.0,
        Note::NoRoom(other) => other.0 == conn.0,
        Note::Given { conn: other, .. } => other.0 == conn.0,
        Note::Head { conn: other, .. } => other.0 == conn.0,
        Note::Opened { conn: other, .. } => other.0 == conn.0,
        Note::Message { conn: other, .. } => other.0 == conn.0,
        Note::PingGot { conn: other, .. } => other.0 == conn.0,
        Note::PongGot { conn: other, .. } => other.0 == conn.0,
        Note::PeerClose { conn: other, .. } => other.0 == conn.0,
        Note::Failed { conn: other, .. } => other.0 == conn.0,
        Note::Took { conn: other, .. } => other.0 == conn.0,
        Note::Dropped { conn: other, .. } => other.0 == conn.0,
        Note::Unserved { conn: other, .. } => other.0 == conn.0,
        Note::Pinged(other) => other.0 == conn.0,
        Note::Told { conn: other, .. } => other.0 == conn.0,
        Note::Closed { conn: other, .. } => other.0 == conn.0,
        Note::Gone { conn: other, .. } => other.0 == conn.0,
    }
}

fn is_event(note: &Note<'_>) -> bool
    ensures { result ≡ single.is_event (note_value note.now) }
{
    match *note {
        Note::Opened { .. } | Note::Message { .. } | Note::Told { .. } | Note::Closed { .. } => {
            true
        }
        _ => false,
    }
}

fn is_naming(note: &Note<'_>, conn: Conn, order: u8) -> bool
    ensures { result ≡ lines.is_naming conn.0 order (note_value note.now) }
{
    match *note {
        Note::Unserved {
            conn: other,
            order: number,
            ..
        } => other.0 == conn.0 && number == order,
        _ => false,
    }
}

/// Whether the notes behind an event's note say that one of its orders was not served.
fn is_refused(notes: &[Note<'_>], conn: Conn, order: u8) -> bool
    ensures { result ≡ lines.is_refused (single.window (map note_value notes.now)) conn.0 order }
{
    'walk: for note in notes {
        if is_event(note) {
            return false;
        }
        if is_naming(note, conn, order) {
            return true;
        }
    }
    false
}

fn moved(phase: Option<Phase>, note: &Note<'_>) -> Option<Phase>
    ensures { result ≡ lines.moved phase (note_value note.now) }
{
    match (phase, *note) {
        (None, Note::Accepted(_)) => Some(Phase::Head),
        (None, _) => None,
        (Some(Phase::Head), Note::Opened { .. }) => Some(Phase::Open),
        (Some(Phase::Head), Note::Head { .. }) => Some(Phase::Ending),
        (Some(Phase::Open), Note::PeerClose { .. }) => Some(Phase::Ending),
        (Some(Phase::Open), Note::Failed { .. }) => Some(Phase::Ending),
        (Some(Phase::Leaving), Note::PeerClose { .. }) => Some(Phase::Ending),
        (Some(Phase::Leaving), Note::Failed { .. }) => Some(Phase::Ending),
        (Some(_), Note::Gone { .. }) => Some(Phase::Gone),
        (_, _) => phase,
    }
}

fn route_after(note: &Note<'_>, old: u8) -> u8
    ensures { result ≡ lines.route_after (note_value note.now) old }
{
    match *note {
        Note::Opened { route, .. } => route,
        _ => old,
    }
}

fn refusal_item(alloc: Global, status: u16) -> Result<OwnedItem, AllocError>
    ensures { IfOk result (λ item. item_value item ≡ answer.reply (refusal_text status)) }
{
    let text = match status {
        400 => refusal(400),
        404 => refusal(404),
        426 => refusal(426),
        _ => refusal(431),
    };
    Ok(OwnedItem::Reply(Bytes::of(alloc, &text)?))
}

fn close_item(alloc: Global, code: u16) -> Result<OwnedItem, AllocError>
    ensures { IfOk result (λ item. item_value item ≡ answer.close_item code) }
{
    Ok(OwnedItem::Whole(Opcode::Close, Bytes::of(alloc, &close_body(code))?))
}

/// What a note appends to its connection, which is in this phase; `reply` is the text that answers its request head.
fn sends(
    alloc: Global,
    phase: Option<Phase>,
    note: &Note<'_>,
    reply: &[u8],
) -> Result<Option<OwnedItem>, AllocError>
    ensures { IfOk result (λ item. item_list item ≡ lines.sends reply.now phase (note_value note.now)) }
{
    match (phase, *note) {
        (_, Note::Opened { .. }) => Ok(Some(OwnedItem::Reply(Bytes::of(alloc, reply)?))),
        (_, Note::Head { status, .. }) => Ok(Some(refusal_item(alloc, status)?)),
        (_, Note::PingGot { body, .. }) => Ok(Some(OwnedItem::Whole(
            Opcode::Pong,
            Bytes::of(alloc, body)?,
        ))),
        (_, Note::Pinged(_)) => Ok(Some(OwnedItem::Whole(Opcode::Ping, Bytes::of(alloc, &[])?))),
        (Some(Phase::Open), Note::PeerClose { code, .. }) => Ok(Some(close_item(alloc, code)?)),
        (Some(Phase::Open), Note::Failed { code, .. }) => Ok(Some(close_item(alloc, code)?)),
        (_, _) => Ok(None),
    }
}

/// The message that is sent back on this route, unless its order is refused.
fn sent_back(
    alloc: Global,
    route: u8,
    refused: bool,
    note: &Note<'_>,
) -> Result<Option<OwnedItem>, AllocError>
    ensures { IfOk result (λ item. item_list item ≡ sent_back route refused (note_value note.now)) }
{
    match *note {
        Note::Message { kind, body, .. } if route == 0 && !refused => Ok(Some(OwnedItem::Whole(
            Opcode::Begins(kind),
            Bytes::of(alloc, body)?,
        ))),
        _ => Ok(None),
    }
}

fn push(items: &mut Vec<OwnedItem>, item: Option<OwnedItem>) -> Result<(), AllocError>
    ensures { OnOk result (item_values items.new.items ≡ item_values items.old.items ++ item_list item) }
{
    if let Some(item) = item {
        items.push(item)?;
    }
    Ok(())
}

impl PlainLine {
    /// Takes in a note of this connection.
    fn take(
        &mut self,
        alloc: Global,
        note: &Note<'_>,
        refused: bool,
        reply: &[u8],
    ) -> Result<(), AllocError>
        ensures { OnOk result (line_value self.new ≡ echo_own reply.now refused (note_value note.now) (line_value self.old)) }
    {
        let item = sends(alloc, self.phase, note, reply)?;
        let route = route_after(note, self.route);
        let back = sent_back(alloc, route, refused, note)?;
        push(&mut self.items, item)?;
        push(&mut self.items, back)?;
        self.phase = moved(self.phase, note);
        self.route = route;
        Ok(())
    }

    /// Takes in any note, which the notes `behind` follow, where this is connection `conn`.
    fn take_any(
        &mut self,
        alloc: Global,
        note: &Note<'_>,
        behind: &[Note<'_>],
        conn: Conn,
        reply: &[u8],
    ) -> Result<(), AllocError>
        ensures { OnOk result (line_value self.new
            ≡ echo_after reply.now conn.0 (note_value note.now) (map note_value behind.now) (line_value self.old)) }
    {
        if !is_of(note, conn) {
            return Ok(());
        }
        self.take(alloc, note, is_refused(behind, conn, 0), reply)
    }
}

/// The notes behind a place.
fn behind<'a, 'n>(notes: &'a [Note<'n>], place: usize) -> &'a [Note<'n>]
    requires { place < length notes.now }
    ensures { result.now ≡ drop (place + 1) notes.now }
{
    &notes[place + 1..]
}

/// The notes that a recorder keeps, lent from it. An error is want of memory.
pub fn recorded_notes<'r>(
    alloc: Global,
    recorder: &'r Recorder,
) -> Result<Vec<Note<'r>>, AllocError>
    ensures { IfOk result (λ notes. map note_value notes.items ≡ recorder.now.notes) }
{
    let mut notes = Vec::new(alloc);
    'walk: for place in 0..recorder.count() {
        notes.push(recorder.at(place))?;
    }
    Ok(notes)
}

/// What the notes of a run say of one connection, where the handler sends each message of route 0 back to its connection,
/// as the same kind. `reply` is the text that answers the connection's request head.
///
/// An error is want of memory.
pub fn plain_line(
    alloc: Global,
    notes: &[Note<'_>],
    conn: Conn,
    reply: &[u8],
) -> Result<PlainLine, AllocError>
    ensures phase { IfOk result (λ line. (replies : ℕ → List ℕ) → line.phase ≡ lines.phase (echo_server replies) (map note_value notes.now) conn.0) }
    ensures items { IfOk result (λ line. (replies : ℕ → List ℕ) → replies conn.0 ≡ reply.now →
        item_values line.items.items ≡ lines.plain (echo_server replies) (map note_value notes.now) conn.0) }
{
    let mut line = PlainLine {
        phase: None,
        route: 0,
        items: Vec::new(alloc),
    };
    'walk: for place in 0..notes.len() {
        line.take_any(alloc, &notes[place], behind(notes, place), conn, reply)?;
    }
    Ok(line)
}

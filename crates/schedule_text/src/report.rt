//! The report of a run.

ghost use Rattle.std.specs.Prelude.{◌≡◌, [], ◌∷◌};
ghost use Rattle.ws_kinds.specs.NoteValue.{note_value};
ghost use Rattle.schedule_text.specs.Line.{line, shown};
ghost use Rattle.schedule_text.specs.Output.{WritesTo, parts};
ghost use Rattle.schedule_text.specs.Report.{IsOneToOne, note_line, link_line, kind_word, why_word, left_word, drained_word};

use crate::output::{write_hex, write_numbers, write_word};
use link_trait::Sink;
use ws_kinds::{Conn, Kind, Left, Note, Why};

/// Writes the line of a note, and answers whether the sink took all of it. It takes no memory.
pub fn report_note<K: Sink>(note: &Note<'_>, sink: &mut K) -> bool
    ensures { WritesTo K.Sink (note_line (note_value note.now)) sink.old sink.new result }
{
    match *note {
        Note::Turn => write_numbers(sink, b"turn", &[]),
        Note::Tick => write_numbers(sink, b"tick", &[]),
        Note::Accepted(conn) => write_numbers(sink, b"accept", &[conn.0]),
        Note::Busy(conn) => write_numbers(sink, b"busy", &[conn.0]),
        Note::NoRoom(conn) => write_numbers(sink, b"noroom", &[conn.0]),
        Note::Given { conn, count } => write_numbers(sink, b"given", &[conn.0, count]),
        Note::Head { conn, status } => write_numbers(sink, b"head", &[conn.0, status.into()]),
        Note::Opened { conn, route, param } => {
            write_shown(sink, b"opened", &[conn.0, route.into()], param)
        }
        Note::Message { conn, kind, body } => {
            write_shown(sink, kind_word(kind), &[conn.0], body)
        }
        Note::PingGot { conn, body } => write_shown(sink, b"ping", &[conn.0], body),
        Note::PongGot { conn, body } => write_shown(sink, b"pong", &[conn.0], body),
        Note::PeerClose { conn, code, reason } => write_end(sink, b"peerclose", conn, code, reason),
        Note::Failed { conn, code } => write_numbers(sink, b"failed", &[conn.0, code.into()]),
        Note::Took {
            conn,
            offered,
            took,
        } => write_numbers(sink, b"took", &[conn.0, offered, took]),
        Note::Dropped { conn, index, held } => {
            write_numbers(sink, b"dropped", &[conn.0, index, held])
        }
        Note::Unserved { conn, order, why } => {
            write_word(sink, b"unserved", &[conn.0, order.into()], why_word(why))
        }
        Note::Pinged(conn) => write_numbers(sink, b"pinged", &[conn.0]),
        Note::Told {
            conn,
            dropped,
            drained,
        } => write_word(sink, b"told", &[conn.0, dropped], drained_word(drained)),
        Note::Closed { conn, code, reason } => write_end(sink, b"closed", conn, code, reason),
        Note::Gone { conn, left } => write_word(sink, b"gone", &[conn.0], left_word(left)),
    }
}

/// Writes the line of a link: the connection, the octets still held back for it, and the octets that the link took. It
/// answers whether the sink took all of the line, and takes no memory.
pub fn report_link<K: Sink>(conn: Conn, held: u64, octets: &[u8], sink: &mut K) -> bool
    ensures { WritesTo K.Sink (link_line conn.0 held octets.now) sink.old sink.new result }
{
    write_shown(sink, b"link", &[conn.0, held], octets)
}

/// The report of a run has the lines of its notes, and then those of its links. Each report is that of one list of notes and
/// one list of links, so that what was noted can be told from the text. This is a law, and calls for nothing to be done.
pub fn one_report()
    ensures { IsOneToOne }
{}

/// Writes a line of a word, a connection, and the code and the reason with which it was closed.
fn write_end<K: Sink>(sink: &mut K, word: &[u8], conn: Conn, code: u16, reason: &[u8]) -> bool
    ensures { WritesTo K.Sink (line (parts word.now (conn.0 ∷ code ∷ []) (shown reason.now ∷ []))) sink.old sink.new result }
{
    write_shown(sink, word, &[conn.0, code.into()], reason)
}

/// Writes a line of a word, numbers, and octets as hexadecimal digits, or `-` for none.
fn write_shown<K: Sink>(sink: &mut K, word: &[u8], numbers: &[u64], octets: &[u8]) -> bool
    ensures { WritesTo K.Sink (line (parts word.now numbers.now (shown octets.now ∷ []))) sink.old sink.new result }
{
    if octets.is_empty() {
        return write_word(sink, word, numbers, b"-");
    }
    write_hex(sink, word, numbers, octets)
}

fn kind_word(kind: Kind) -> &'static [u8]
    ensures { result.now ≡ kind_word kind }
{
    match kind {
        Kind::Text => b"text",
        Kind::Binary => b"binary",
    }
}

fn why_word(why: Why) -> &'static [u8]
    ensures { result.now ≡ why_word why }
{
    match why {
        Why::Absent => b"absent",
        Why::NotOpen => b"notopen",
        Why::TooBig => b"toobig",
        Why::BadText => b"badtext",
        Why::BadTopic => b"badtopic",
        Why::Forbidden => b"forbidden",
        Why::TooMany => b"toomany",
        Why::BadCode => b"badcode",
        Why::Memory => b"memory",
    }
}

fn left_word(left: Left) -> &'static [u8]
    ensures { result.now ≡ left_word left }
{
    match left {
        Left::PeerEnd => b"peerend",
        Left::LinkFailed => b"linkfailed",
        Left::Idle => b"idle",
        Left::Finished => b"finished",
    }
}

fn drained_word(drained: bool) -> &'static [u8]
    ensures { result.now ≡ drained_word drained }
{
    if drained { b"yes" } else { b"no" }
}

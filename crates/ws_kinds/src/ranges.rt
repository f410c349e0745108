//! The ranges of what notes say. Each function says a law, and does nothing.

ghost use Rattle.std.specs.Prelude.{◌<◌, ◌^◌};
ghost use Rattle.std.specs.List.{AllByRecursion};
ghost use Rattle.ws_kinds.specs.NoteValue.{note_value};
ghost use Rattle.ws_kinds.specs.Ranges.{AreOctets, IsNote};

use crate::Note;

/// The numbers of a note are below 2^64, and its octets are octets.
pub(crate) fn in_range(note: &Note<'_>)
    ensures { IsNote (note_value note.now) }
{
    match *note {
        Note::Turn => {}
        Note::Tick => {}
        Note::Accepted(conn) => numbers(&[conn.0]),
        Note::Busy(conn) => numbers(&[conn.0]),
        Note::NoRoom(conn) => numbers(&[conn.0]),
        Note::Given { conn, count } => numbers(&[conn.0, count]),
        Note::Head { conn, status } => numbers(&[conn.0, status.into()]),
        Note::Opened { conn, route, param } => shown(&[conn.0, route.into()], param),
        Note::Message { conn, body, .. } => shown(&[conn.0], body),
        Note::PingGot { conn, body } => shown(&[conn.0], body),
        Note::PongGot { conn, body } => shown(&[conn.0], body),
        Note::PeerClose { conn, code, reason } => shown(&[conn.0, code.into()], reason),
        Note::Failed { conn, code } => numbers(&[conn.0, code.into()]),
        Note::Took {
            conn,
            offered,
            took,
        } => numbers(&[conn.0, offered, took]),
        Note::Dropped { conn, index, held } => numbers(&[conn.0, index, held]),
        Note::Unserved { conn, order, .. } => numbers(&[conn.0, order.into()]),
        Note::Pinged(conn) => numbers(&[conn.0]),
        Note::Told { conn, dropped, .. } => numbers(&[conn.0, dropped]),
        Note::Closed { conn, code, reason } => shown(&[conn.0, code.into()], reason),
        Note::Gone { conn, .. } => numbers(&[conn.0]),
    }
}

/// Numbers are below 2^64.
fn numbers(numbers: &[u64])
    ensures { AllByRecursion (λ number. number < 2 ^ 64) numbers.now }
{}

/// Numbers are below 2^64, and octets are octets.
fn shown(numbers: &[u64], octets: &[u8])
    ensures numbers { AllByRecursion (λ number. number < 2 ^ 64) numbers.now }
    ensures octets { AreOctets octets.now }
{}

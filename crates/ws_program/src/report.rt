//! The report of a run: the lines of its notes, and then those of its links.

ghost use Rattle.std.specs.Prelude.{◌≡◌, length, [], ◌∷◌, IfSome, IfNone};
ghost use Rattle.std.specs.List.{flat_map};
ghost use Rattle.ws_kinds.specs.NoteValue.{note_value};
ghost use Rattle.mem_net.specs.MemNet.{net_state};
ghost use Rattle.schedule_text.specs.Output.{WritesTo};
ghost use Rattle.schedule_text.specs.Report as text;
ghost use Rattle.hub_lines.specs.Calls.{Settled};
ghost use Rattle.run_kept.specs.Ends.{backlog_at};
ghost use Rattle.run_meaning.specs.Counts as noted;
ghost use Rattle.ws_program.specs.Replayed.{links_of, all_link_lines, AreLinks};
ghost use Rattle.schedule_text.specs.Report.{IsLink};

use hub_core::Hub;
use link_trait::Sink;
use mem_net::MemNet;
use schedule_text::{report_link, report_note};
use ws_kinds::{Conn, Note, Phase, Recorder};

/// Writes the line of each note, in order, and then the line of each accepted connection's link, by ascending number. It
/// answers whether the sink took all of it; where it did not, it took a front of it. No memory is taken.
pub(crate) fn report<K: Sink>(hub: &Hub, net: &MemNet, watch: &Recorder, sink: &mut K) -> bool
    requires settled { Settled hub.now }
    ensures { WritesTo K.Sink (text.report watch.now.notes (links_of (backlog_at hub.now) (net_state net.now).taken watch.now.notes)) sink.old sink.new result }
{
    if !report_notes(watch, sink) {
        return false;
    }
    report_links(hub, net, watch, sink)
}

/// Writes the line of each note, in order.
fn report_notes<K: Sink>(watch: &Recorder, sink: &mut K) -> bool
    ensures { WritesTo K.Sink (flat_map text.note_line watch.now.notes) sink.old sink.new result }
{
    'notes: for place in 0..watch.count() {
        if !report_note(&watch.at(place), sink) {
            return false;
        }
    }
    true
}

/// Writes the line of each accepted connection's link. The notes tell them by ascending number.
fn report_links<K: Sink>(hub: &Hub, net: &MemNet, watch: &Recorder, sink: &mut K) -> bool
    requires settled { Settled hub.now }
    ensures { WritesTo K.Sink (all_link_lines (links_of (backlog_at hub.now) (net_state net.now).taken watch.now.notes)) sink.old sink.new result }
{
    'notes: for place in 0..watch.count() {
        if !report_accepted(hub, net, &watch.at(place), sink) {
            return false;
        }
    }
    true
}

/// Writes the line of a link where the note says that its connection was accepted, and nothing otherwise.
fn report_accepted<K: Sink>(hub: &Hub, net: &MemNet, note: &Note<'_>, sink: &mut K) -> bool
    requires settled { Settled hub.now }
    ensures { WritesTo K.Sink (all_link_lines (links_of (backlog_at hub.now) (net_state net.now).taken (note_value note.now ∷ []))) sink.old sink.new result }
{
    match accepted_by(note) {
        Some(conn) => report_link(conn, held_of(hub, conn), net.taken(conn), sink),
        None => true,
    }
}

/// Says that the links of a report are in the ranges of their lines.
pub(crate) fn links_in_range(hub: &Hub, net: &MemNet, watch: &Recorder)
    requires settled { Settled hub.now }
    ensures { AreLinks (links_of (backlog_at hub.now) (net_state net.now).taken watch.now.notes) }
{
    'notes: for place in 0..watch.count() {
        link_in_range(hub, net, &watch.at(place));
    }
}

/// The same of the link of a connection that the note says was accepted, if there is one.
fn link_in_range(hub: &Hub, net: &MemNet, note: &Note<'_>)
    requires settled { Settled hub.now }
    ensures { AreLinks (links_of (backlog_at hub.now) (net_state net.now).taken (note_value note.now ∷ [])) }
{
    if let Some(conn) = accepted_by(note) {
        in_range(conn.0, held_of(hub, conn), net.taken(conn));
    }
}

/// The numbers of a link are in range.
fn in_range(conn: u64, held: u64, octets: &[u8])
    ensures { IsLink (record { conn = conn; held = held; octets = octets.now }) }
{}

/// The connection that the note says was accepted.
pub(crate) fn accepted_by(note: &Note<'_>) -> Option<Conn>
    ensures some { IfSome result (λ conn. noted.accepted_by (note_value note.now) ≡ conn.0 ∷ []) }
    ensures none { IfNone result (noted.accepted_by (note_value note.now) ≡ []) }
{
    match *note {
        Note::Accepted(conn) => Some(conn),
        _ => None,
    }
}

/// How many octets are held for a connection: none for one that is gone, though its Closed event may still be due.
fn held_of(hub: &Hub, conn: Conn) -> u64
    requires settled { Settled hub.now }
    ensures { result ≡ length (backlog_at hub.now conn.0) }
{
    match hub.phase(conn) {
        None => 0,
        Some(Phase::Gone) => 0,
        Some(Phase::Head) => hub.held(conn),
        Some(Phase::Open) => hub.held(conn),
        Some(Phase::Leaving) => hub.held(conn),
        Some(Phase::Ending) => hub.held(conn),
    }
}

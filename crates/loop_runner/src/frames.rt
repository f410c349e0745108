//! The frames of a connection in phase Open or Leaving.

ghost use Rattle.std.specs.Prelude.{◌≡◌, ◌<◌, ℕ, List, [], Bool, true, false, length, Some, None, if◌then◌else◌};
ghost use Rattle.ws_kinds.specs.NoteValue as note;
ghost use Rattle.ws_kinds.specs.EventValue as event;
ghost use Rattle.route_table.specs.Table.{RouteTable};
ghost use Rattle.frame_reader.specs.Reader.{ahead, max_of};
ghost use Rattle.frame_reader.specs.Step.{events_of, is_last, IsMore};
ghost use Rattle.run_meaning.specs.Settled.{is_reading};
ghost use Rattle.hub_lines.specs.State.{phase_at};
ghost use Rattle.hub_lines.specs.Calls.{Ties};
ghost use Rattle.hub_notes.specs.Table.{IsTable, table_of};
ghost use Rattle.hub_core.specs.At.{at};
ghost use Rattle.run_laws.specs.Readers.{ReaderView, IsRead};
ghost use Rattle.topic_guard.specs.Admits.{admits};
ghost use Rattle.loop_runner.specs.Events.{AreSound};
ghost use Rattle.loop_runner.specs.Ready.{IsTaken};
ghost use Rattle.loop_runner.specs.Steps.{Every, Steps, HasFrames};
ghost use Rattle.loop_runner.specs.Keeps.{view_by, view_of};
ghost use Rattle.loop_runner.specs.Moments.{moment, Gives, KeepsView};

use crate::giving::give;
use frame_reader::{Reader, Step};
use hub_core::Hub;
use link_trait::{Net, Outside};
use topic_guard::TopicGuard;
use ws_kinds::{Conn, Event, Handler, Kind, Note, Phase, Watch, What};

/// Takes what a connection's octets tell, as long as they tell more and it is in phase Open or Leaving. The connection was
/// opened on this route and with this parameter.
pub(crate) fn read_frames<N: Net, W: Watch, H: Handler>(
    hub: &mut Hub,
    reader: &mut Reader,
    out: &mut Outside<N, W>,
    handler: &mut H,
    guard: &TopicGuard,
    conn: Conn,
    route: u8,
    param: &[u8],
)
    requires frames { HasFrames (phase_at hub.old conn.0) reader.old }
    requires ties { Ties (at N.Net W.Watch hub.old out.old) }
    ensures steps { Steps Every (at N.Net W.Watch hub.old out.old) (at N.Net W.Watch hub.new out.new) }
    ensures taken { IsTaken (phase_at hub.new conn.0) reader.new }
    ensures max { max_of reader.new ≡ max_of reader.old }
    ensures kept { let seen = moment N.Net W.Watch H.Handler in (table : RouteTable) →
        KeepsView (admits guard.now.rule) table conn.0 (Some conn.0) None (view_of reader.old route param.now) (view_of reader.new route param.now)
        (seen hub.old out.old handler.old) (seen hub.new out.new handler.new) }
{
    'steps: loop {
        if !read_frame(hub, reader, out, handler, guard, conn, route, param) {
            return;
        }
    }
}

/// Takes what is told next, of a connection in phase Open or Leaving. Answers whether something was told.
fn read_frame<N: Net, W: Watch, H: Handler>(
    hub: &mut Hub,
    reader: &mut Reader,
    out: &mut Outside<N, W>,
    handler: &mut H,
    guard: &TopicGuard,
    conn: Conn,
    route: u8,
    param: &[u8],
) -> bool
    requires frames { HasFrames (phase_at hub.old conn.0) reader.old }
    requires ties { Ties (at N.Net W.Watch hub.old out.old) }
    ensures steps { Steps Every (at N.Net W.Watch hub.old out.old) (at N.Net W.Watch hub.new out.new) }
    ensures taken { result ≡ false → IsTaken (phase_at hub.new conn.0) reader.new }
    ensures frames { result ≡ true → HasFrames (phase_at hub.new conn.0) reader.new }
    ensures fewer { result ≡ true → length (ahead reader.new []) < length (ahead reader.old []) }
    ensures max { max_of reader.new ≡ max_of reader.old }
    ensures kept { let seen = moment N.Net W.Watch H.Handler in let to = if result then Some conn.0 else None in (table : RouteTable) →
        KeepsView (admits guard.now.rule) table conn.0 (Some conn.0) to (view_of reader.old route param.now) (view_of reader.new route param.now)
        (seen hub.old out.old handler.old) (seen hub.new out.new handler.new) }
{
    match hub.phase(conn) {
        Some(Phase::Open) => take_open(hub, out, handler, guard, conn, route, param, reader.next()),
        Some(Phase::Leaving) => take_leaving(hub, out, handler, conn, reader.next()),
        Some(Phase::Head) => false,
        Some(Phase::Ending) => false,
        Some(Phase::Gone) => false,
        None => false,
    }
}

/// Takes a step of an open connection. Answers whether it told something.
fn take_open<N: Net, W: Watch, H: Handler>(
    hub: &mut Hub,
    out: &mut Outside<N, W>,
    handler: &mut H,
    guard: &TopicGuard,
    conn: Conn,
    route: u8,
    param: &[u8],
    step: Step<'_>,
) -> bool
    requires phase { phase_at hub.old conn.0 ≡ Some Phase.Open }
    requires sound { AreSound (events_of step) }
    requires ties { Ties (at N.Net W.Watch hub.old out.old) }
    ensures steps { Steps Every (at N.Net W.Watch hub.old out.old) (at N.Net W.Watch hub.new out.new) }
    ensures told { result ≡ true → IsMore step.entry → ⊥ }
    ensures more { result ≡ false → IsMore step.entry }
    ensures last { is_last step.entry ≡ true → is_reading (phase_at hub.new conn.0) ≡ false }
    ensures kept { let seen = moment N.Net W.Watch H.Handler in let to = if result then Some conn.0 else None in
        (table : RouteTable) (before after : ReaderView) → IsRead before (events_of step.entry) after →
        KeepsView (admits guard.now.rule) table conn.0 (Some conn.0) to (view_by before route param.now) (view_by after route param.now)
        (seen hub.old out.old handler.old) (seen hub.new out.new handler.new) }
{
    match step {
        Step::More => false,
        Step::Message(kind, body) => {
            give_message(hub, out, handler, guard, conn, route, param, kind, body);
            true
        }
        Step::Ping(body) => {
            hub.ping_got(out, conn, body);
            true
        }
        Step::Pong(body) => {
            hub.pong_got(out, conn, body);
            true
        }
        Step::Close(code, reason) => {
            hub.peer_close(out, conn, code, reason);
            true
        }
        Step::Failed(code) => {
            hub.failed(out, conn, code);
            true
        }
    }
}

/// Takes a step of a connection that is leaving, of which only a close and a failure count. Answers whether it told something.
/// The handler is not asked: it stands here for what is kept beside its state.
fn take_leaving<N: Net, W: Watch, H: Handler>(
    hub: &mut Hub,
    out: &mut Outside<N, W>,
    handler: &H,
    conn: Conn,
    step: Step<'_>,
) -> bool
    requires phase { phase_at hub.old conn.0 ≡ Some Phase.Leaving }
    requires sound { AreSound (events_of step) }
    requires ties { Ties (at N.Net W.Watch hub.old out.old) }
    ensures steps { Steps Every (at N.Net W.Watch hub.old out.old) (at N.Net W.Watch hub.new out.new) }
    ensures told { result ≡ true → IsMore step.entry → ⊥ }
    ensures more { result ≡ false → IsMore step.entry }
    ensures last { is_last step.entry ≡ true → is_reading (phase_at hub.new conn.0) ≡ false }
    ensures kept { let seen = moment N.Net W.Watch H.Handler in let to = if result then Some conn.0 else None in
        (rule : List ℕ → Bool) (table : RouteTable) (before after : ReaderView) (route : ℕ) (param : List ℕ) → IsRead before (events_of step.entry) after →
        KeepsView rule table conn.0 (Some conn.0) to (view_by before route param) (view_by after route param) (seen hub.old out.old handler.now) (seen hub.new out.new handler.now) }
{
    match step {
        Step::More => false,
        Step::Message(_, _) => true,
        Step::Ping(_) => true,
        Step::Pong(_) => true,
        Step::Close(code, reason) => {
            hub.peer_close(out, conn, code, reason);
            true
        }
        Step::Failed(code) => {
            hub.failed(out, conn, code);
            true
        }
    }
}

/// Notes a message of an open connection, and gives it to the handler.
fn give_message<'m, N: Net, W: Watch, H: Handler>(
    hub: &mut Hub,
    out: &mut Outside<N, W>,
    handler: &mut H,
    guard: &TopicGuard,
    conn: Conn,
    route: u8,
    param: &'m [u8],
    kind: Kind,
    body: &'m [u8],
)
    requires ties { Ties (at N.Net W.Watch hub.old out.old) }
    ensures gives { let seen = moment N.Net W.Watch H.Handler in
        Gives (admits guard.now.rule) (note.message conn.0 kind body.now) (record { conn = conn.0; route = route; param = param.now; what = event.message kind body.now })
        (seen hub.old out.old handler.old) (seen hub.new out.new handler.new) }
    ensures steps { Steps Every (at N.Net W.Watch hub.old out.old) (at N.Net W.Watch hub.new out.new) }
    ensures table { IsTable (table_of hub.new) }
{
    out.watch.note(&Note::Message { conn, kind, body });
    let what = What::Message { kind, body };
    let event = Event {
        conn,
        route,
        param,
        what,
    };
    give(hub, out, handler, guard, event);
}

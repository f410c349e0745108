//! The head of a connection's request (RFC 6455, section 4.2).

ghost use Rattle.std.specs.Prelude.{◌≡◌, ◌<◌, ◌≤◌, ◌++◌, ℕ, List, [], true, false, length, drop, Some, None, if◌then◌else◌};
ghost use Rattle.ws_kinds.specs.declared.note.Phase.TheVariants as phase;
ghost use Rattle.ws_kinds.specs.EventValue as event;
ghost use Rattle.wire_meaning.specs.Reading.{reading};
ghost use Rattle.upgrade_head.specs.Judged.{Judged, IsInRange, protocol_of};
ghost use Rattle.frame_reader.specs.Reader.{raw_of, max_of, ahead, is_unread, has_ended};
ghost use Rattle.run_meaning.specs.Settled.{is_reading};
ghost use Rattle.hub_lines.specs.State.{phase_at};
ghost use Rattle.hub_lines.specs.Calls.{Ties};
ghost use Rattle.hub_notes.specs.Answers.{has_frames};
ghost use Rattle.hub_notes.specs.Table.{IsTable, table_of};
ghost use Rattle.hub_core.specs.At.{at};
ghost use Rattle.run_kept.specs.Giving.{event_for};
ghost use Rattle.topic_guard.specs.Admits.{admits};
ghost use Rattle.loop_runner.specs.Heads.{decision_seen};
ghost use Rattle.loop_runner.specs.Steps.{But, Steps, Takes};
ghost use Rattle.loop_runner.specs.Keeps.{intake_view};
ghost use Rattle.loop_runner.specs.Moments.{moment, Opens, KeepsView};

use crate::frames::read_frames;
use crate::giving::give;
use crate::intakes::Intake;
use hub_core::Hub;
use link_trait::{Net, Outside};
use route_table::Routes;
use topic_guard::TopicGuard;
use upgrade_head::{Head, judge, refusal, reply};
use ws_kinds::{Conn, Event, Handler, Name, Watch, What};

/// A request that is admitted.
#[derive(Drop)]
struct Admission {
    /// How many octets the head has.
    end: usize,
    route: u8,
    param: Name,
    /// The value of the field `Sec-WebSocket-Accept` of the reply.
    accept: [u8; 28],
    /// The reply names the route's subprotocol.
    protocol: bool,
}

/// What is decided of a head.
#[derive(Drop)]
enum Decision {
    /// Nothing as long as no more octets come.
    More,
    /// It is refused with this status.
    Refuse(u16),
    Admit(Admission),
}

/// Judges the octets of a connection in phase Head: more are needed, or it is refused, or it is open and what follows are
/// frames.
pub(crate) fn judge_head<N: Net, W: Watch, H: Handler>(
    hub: &mut Hub,
    intake: &mut Intake,
    routes: &Routes,
    out: &mut Outside<N, W>,
    handler: &mut H,
    guard: &TopicGuard,
    conn: Conn,
)
    requires phase { phase_at hub.old conn.0 ≡ Some phase.Head }
    requires unread { is_unread intake.old.reader ≡ true }
    requires asked { (N.state out.old.net).due conn.0 ≡ false }
    requires ties { Ties (at N.Net W.Watch hub.old out.old) }
    ensures takes { Takes conn.0 intake.old.reader intake.new.reader (at N.Net W.Watch hub.old out.old) (at N.Net W.Watch hub.new out.new) }
    ensures kept { let seen = moment N.Net W.Watch H.Handler in
        KeepsView (admits guard.now.rule) routes.now conn.0 (Some conn.0) None (intake_view intake.old) (intake_view intake.new) (seen hub.old out.old handler.old) (seen hub.new out.new handler.new) }
{
    match decide(intake, routes) {
        Decision::More => {}
        Decision::Refuse(status) => hub.refuse(out, conn, status, &refusal(status)),
        Decision::Admit(admission) => {
            admit(hub, intake, routes, out, handler, guard, conn, admission);
        }
    }
}

/// What is decided of the octets that came.
fn decide(intake: &Intake, routes: &Routes) -> Decision
    ensures judged { Judged routes.now (raw_of intake.now.reader) (decision_seen result) }
    ensures ranges { IsInRange routes.now (length (raw_of intake.now.reader)) (decision_seen result) }
{
    match judge(intake.reader.raw(), routes) {
        Head::More => Decision::More,
        Head::Refuse(status) => Decision::Refuse(status),
        Head::Admit {
            end,
            route,
            param,
            accept,
            protocol,
        } => Decision::Admit(Admission {
            end,
            route,
            param: name_of(param),
            accept,
            protocol,
        }),
    }
}

/// A short name of at most 64 octets.
fn name_of(octets: &[u8]) -> Name
    requires { length octets.now ≤ 64 }
    ensures { result.items ≡ octets.now }
{
    let mut name = Name::new();
    name.try_extend_from_slice(octets).unwrap();
    name
}

/// The name of the route's subprotocol where the reply names it, and else no octets.
fn named(routes: &Routes, route: u8, protocol: bool) -> &[u8]
    requires { route < length routes.now.protocols }
    ensures value { result.now ≡ (if protocol then protocol_of routes.now route else []) }
    ensures short { length result.now ≤ 64 }
{
    if protocol {
        routes.protocol(route)
    } else {
        &[]
    }
}

/// Admits a request: the connection is open, and what follows the head are frames.
fn admit<N: Net, W: Watch, H: Handler>(
    hub: &mut Hub,
    intake: &mut Intake,
    routes: &Routes,
    out: &mut Outside<N, W>,
    handler: &mut H,
    guard: &TopicGuard,
    conn: Conn,
    admission: Admission,
)
    requires phase { phase_at hub.old conn.0 ≡ Some phase.Head }
    requires unread { is_unread intake.old.reader ≡ true }
    requires end { admission.end ≤ length (raw_of intake.old.reader) }
    requires route { admission.route < length routes.now.protocols }
    requires judged { Judged routes.now (raw_of intake.old.reader) (decision_seen (Decision.Admit admission)) }
    requires asked { (N.state out.old.net).due conn.0 ≡ false }
    requires ties { Ties (at N.Net W.Watch hub.old out.old) }
    ensures takes { Takes conn.0 intake.old.reader intake.new.reader (at N.Net W.Watch hub.old out.old) (at N.Net W.Watch hub.new out.new) }
    ensures kept { let seen = moment N.Net W.Watch H.Handler in
        KeepsView (admits guard.now.rule) routes.now conn.0 (Some conn.0) None (intake_view intake.old) (intake_view intake.new) (seen hub.old out.old handler.old) (seen hub.new out.new handler.new) }
{
    let reply = reply(
        &admission.accept,
        named(routes, admission.route, admission.protocol),
    );
    enter(intake, admission.end, admission.route, admission.param);
    open(hub, intake, out, handler, guard, conn, &reply);
    read_frames(
        hub,
        &mut intake.reader,
        out,
        handler,
        guard,
        conn,
        intake.route,
        intake.param.as_slice(),
    );
}

/// The connection is to be open on this route and with this parameter, and its frames begin behind so many octets.
fn enter(intake: &mut Intake, end: usize, route: u8, param: Name)
    requires unread { is_unread intake.old.reader ≡ true }
    requires end { end ≤ length (raw_of intake.old.reader) }
    ensures ahead { (more : List ℕ) → ahead intake.new.reader more ≡ reading (max_of intake.old.reader) (drop end (raw_of intake.old.reader) ++ more) }
    ensures goes_on { has_ended intake.new.reader ≡ false }
    ensures max { max_of intake.new.reader ≡ max_of intake.old.reader }
    ensures route { intake.new.route ≡ route }
    ensures param { intake.new.param.items ≡ param.items }
{
    intake.reader.skip(end);
    intake.route = route;
    intake.param = param;
}

/// The connection is open: the reply is sent, and the handler is given the Opened event.
fn open<N: Net, W: Watch, H: Handler>(
    hub: &mut Hub,
    intake: &Intake,
    out: &mut Outside<N, W>,
    handler: &mut H,
    guard: &TopicGuard,
    conn: Conn,
    reply: &[u8],
)
    requires phase { phase_at hub.old conn.0 ≡ Some phase.Head }
    requires some { 1 ≤ length reply.now }
    requires short { length reply.now ≤ 256 }
    requires ties { Ties (at N.Net W.Watch hub.old out.old) }
    ensures opens { let seen = moment N.Net W.Watch H.Handler in
        Opens (admits guard.now.rule) reply.now (event_for conn.0 (intake_view intake.now) event.opened) (seen hub.old out.old handler.old) (seen hub.new out.new handler.new) }
    ensures steps { Steps (But conn.0) (at N.Net W.Watch hub.old out.old) (at N.Net W.Watch hub.new out.new) }
    ensures due { is_reading (phase_at hub.new conn.0) ≡ true → (N.state out.new.net).due conn.0 ≡ (N.state out.old.net).due conn.0 }
    ensures entered { is_reading (phase_at hub.new conn.0) ≡ true → has_frames (phase_at hub.new conn.0) ≡ true }
    ensures table { IsTable (table_of hub.new) }
{
    let route = intake.route;
    let param = intake.param.as_slice();
    hub.admit(out, conn, route, param, reply);
    let what = What::Opened;
    let event = Event {
        conn,
        route,
        param,
        what,
    };
    give(hub, out, handler, guard, event);
}

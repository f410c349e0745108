//! Reading the octets of a connection.

ghost use Rattle.std.specs.Prelude.{◌≡◌, ◌≤◌, true, false, Some, length, ℕ, None, List, take};
ghost use Rattle.link_trait.specs.NetState.{NetState};
ghost use Rattle.link_trait.specs.Net.{Reads};
ghost use Rattle.route_table.specs.Table.{RouteTable};
ghost use Rattle.frame_reader.specs.Reader.{room_of};
ghost use Rattle.run_meaning.specs.Settled.{is_reading};
ghost use Rattle.hub_lines.specs.State.{phase_at};
ghost use Rattle.hub_lines.specs.Calls.{Ties};
ghost use Rattle.hub_notes.specs.Progress.{due_at};
ghost use Rattle.hub_core.specs.At.{at};
ghost use Rattle.topic_guard.specs.Admits.{admits};
ghost use Rattle.loop_runner.specs.Intakes.{intake_at};
ghost use Rattle.loop_runner.specs.Ready.{IsTaken};
ghost use Rattle.loop_runner.specs.Steps.{Every, But, Steps, Takes, Running, HasFrames};
ghost use Rattle.loop_runner.specs.Keeps.{intake_view};
ghost use Rattle.loop_runner.specs.Moments.{moment, with_net, Keeps, KeepsView};

use crate::admitting::judge_head;
use crate::frames::read_frames;
use crate::intakes::{Intake, Intakes};
use hub_core::Hub;
use link_trait::{Net, NetRead, Outside};
use route_table::Routes;
use topic_guard::TopicGuard;
use ws_kinds::{Conn, Handler, Phase, Watch};

/// The most octets of one read.
const MOST_OCTETS: usize = 8_192;

/// Reads once from a connection in phase Head, Open or Leaving, and takes what the octets say. Of any other nothing is read. No Closed
/// event is due before the read.
pub(crate) fn readable<N: Net, W: Watch, H: Handler>(
    hub: &mut Hub,
    intakes: &mut Intakes,
    routes: &Routes,
    out: &mut Outside<N, W>,
    handler: &mut H,
    guard: &TopicGuard,
    conn: Conn,
)
    requires none { (other : ℕ) → due_at hub.old other ≡ None }
    requires taken { (intake : _) → intake_at intakes.old conn.0 ≡ Some intake → IsTaken (phase_at hub.old conn.0) intake.reader }
    requires running { Running (But conn.0) intakes.old (at N.Net W.Watch hub.old out.old) }
    ensures running { Running Every intakes.new (at N.Net W.Watch hub.new out.new) }
    ensures steps { Steps (But conn.0) (at N.Net W.Watch hub.old out.old) (at N.Net W.Watch hub.new out.new) }
    ensures kept { let seen = moment N.Net W.Watch H.Handler in Keeps (admits guard.now.rule) routes.now intakes.old intakes.new (seen hub.old out.old handler.old) (seen hub.new out.new handler.new) }
{
    if !is_read(hub, conn) {
        return;
    }
    if let Some(intake) = intakes.of(conn) {
        read(hub, intake, routes, out, handler, guard, conn);
    }
}

/// Whether octets of a connection are still to be read.
fn is_read(hub: &Hub, conn: Conn) -> bool
    ensures { result ≡ is_reading (phase_at hub.now conn.0) }
{
    match hub.phase(conn) {
        None => false,
        Some(Phase::Head) => true,
        Some(Phase::Open) => true,
        Some(Phase::Leaving) => true,
        Some(Phase::Ending) => false,
        Some(Phase::Gone) => false,
    }
}

/// Makes one read.
fn read<N: Net, W: Watch, H: Handler>(
    hub: &mut Hub,
    intake: &mut Intake,
    routes: &Routes,
    out: &mut Outside<N, W>,
    handler: &mut H,
    guard: &TopicGuard,
    conn: Conn,
)
    requires none { (other : ℕ) → due_at hub.old other ≡ None }
    requires reading { is_reading (phase_at hub.old conn.0) ≡ true }
    requires taken { IsTaken (phase_at hub.old conn.0) intake.old.reader }
    requires ties { Ties (at N.Net W.Watch hub.old out.old) }
    ensures takes { Takes conn.0 intake.old.reader intake.new.reader (at N.Net W.Watch hub.old out.old) (at N.Net W.Watch hub.new out.new) }
    ensures kept { let seen = moment N.Net W.Watch H.Handler in
        KeepsView (admits guard.now.rule) routes.now conn.0 None None (intake_view intake.old) (intake_view intake.new) (seen hub.old out.old handler.old) (seen hub.new out.new handler.new) }
{
    let mut space = [0; MOST_OCTETS];
    let most = intake.reader.room().min(MOST_OCTETS);
    match out.net.read(conn, &mut space[..most]) {
        NetRead::Octets(count) => take(
            hub,
            intake,
            routes,
            out,
            handler,
            guard,
            conn,
            &space[..count],
        ),
        NetRead::End => hub.ended(out, conn),
        NetRead::Failed => hub.link_failed(out, conn),
        NetRead::Later => {}
    }
}

/// Takes octets that were read: they are noted, and what they say is done.
fn take<N: Net, W: Watch, H: Handler>(
    hub: &mut Hub,
    intake: &mut Intake,
    routes: &Routes,
    out: &mut Outside<N, W>,
    handler: &mut H,
    guard: &TopicGuard,
    conn: Conn,
    octets: &[u8],
)
    requires some { 1 ≤ length octets.now }
    requires room { length octets.now ≤ room_of intake.old.reader }
    requires none { (other : ℕ) → due_at hub.old other ≡ None }
    requires reading { is_reading (phase_at hub.old conn.0) ≡ true }
    requires taken { IsTaken (phase_at hub.old conn.0) intake.old.reader }
    requires asked { (N.state out.old.net).due conn.0 ≡ false }
    requires ties { Ties (at N.Net W.Watch hub.old out.old) }
    ensures takes { Takes conn.0 intake.old.reader intake.new.reader (at N.Net W.Watch hub.old out.old) (at N.Net W.Watch hub.new out.new) }
    ensures kept { let seen = moment N.Net W.Watch H.Handler in
        (space : List ℕ) (before : NetState) → take (length octets.now) space ≡ octets.now → Reads conn.0 space (NetRead.Octets (length octets.now)) before (N.state out.old.net) →
        KeepsView (admits guard.now.rule) routes.now conn.0 None None (intake_view intake.old) (intake_view intake.new)
        (with_net before (seen hub.old out.old handler.old)) (seen hub.new out.new handler.new) }
{
    hub.given(out, conn, octets.len() as u64);
    intake.reader.feed(octets);
    match hub.phase(conn) {
        Some(Phase::Head) => judge_head(hub, intake, routes, out, handler, guard, conn),
        Some(Phase::Open) => go_on(hub, intake, out, handler, guard, conn),
        Some(Phase::Leaving) => go_on(hub, intake, out, handler, guard, conn),
        _ => {}
    }
}

/// Takes the frames of a connection in phase Open or Leaving.
fn go_on<N: Net, W: Watch, H: Handler>(
    hub: &mut Hub,
    intake: &mut Intake,
    out: &mut Outside<N, W>,
    handler: &mut H,
    guard: &TopicGuard,
    conn: Conn,
)
    requires frames { HasFrames (phase_at hub.old conn.0) intake.old.reader }
    requires asked { (N.state out.old.net).due conn.0 ≡ false }
    requires ties { Ties (at N.Net W.Watch hub.old out.old) }
    ensures takes { Takes conn.0 intake.old.reader intake.new.reader (at N.Net W.Watch hub.old out.old) (at N.Net W.Watch hub.new out.new) }
    ensures kept { let seen = moment N.Net W.Watch H.Handler in (table : RouteTable) →
        KeepsView (admits guard.now.rule) table conn.0 (Some conn.0) None (intake_view intake.old) (intake_view intake.new) (seen hub.old out.old handler.old) (seen hub.new out.new handler.new) }
{
    read_frames(
        hub,
        &mut intake.reader,
        out,
        handler,
        guard,
        conn,
        intake.route,
        intake.param.as_slice(),
    );
}

//! Closed events, and the end of intakes.

ghost use Rattle.std.specs.Prelude.{◌≡◌, ◌<◌, ℕ, suc, None, true, false};
ghost use Rattle.route_table.specs.Table.{RouteTable};
ghost use Rattle.hub_lines.specs.State.{HubState, has_entry};
ghost use Rattle.hub_lines.specs.Calls.{Ties};
ghost use Rattle.hub_notes.specs.Progress.{due_at};
ghost use Rattle.hub_notes.specs.Table.{IsTable, table_of};
ghost use Rattle.hub_table.specs.Parting.{parting_value};
ghost use Rattle.hub_core.specs.At.{at};
ghost use Rattle.run_kept.specs.Kept.{IntakeView};
ghost use Rattle.topic_guard.specs.Admits.{admits};
ghost use Rattle.loop_runner.specs.Intakes.{max_of, intake_at, is_admitted};
ghost use Rattle.loop_runner.specs.Steps.{Every, Steps, Running, is_kept_at, weight_below};
ghost use Rattle.loop_runner.specs.Keeps.{AreViews};
ghost use Rattle.loop_runner.specs.Moments.{moment, with_hub, Keeps, KeepsOn, HandsOut};

use crate::giving::give;
use crate::intakes::Intakes;
use hub_core::{Hub, Parting};
use link_trait::{Net, Outside};
use topic_guard::TopicGuard;
use ws_kinds::{Event, Handler, Note, Watch, What};

/// Gives all Closed events that are due, that of the least connection first, until none is due. Then each connection that is
/// no entry has no intake.
pub(crate) fn close_all<N: Net, W: Watch, H: Handler>(
    hub: &mut Hub,
    intakes: &mut Intakes,
    out: &mut Outside<N, W>,
    handler: &mut H,
    guard: &TopicGuard,
)
    requires running { Running Every intakes.old (at N.Net W.Watch hub.old out.old) }
    ensures none { (conn : ℕ) → due_at hub.new conn ≡ None }
    ensures entries { (conn : ℕ) → has_entry hub.new.entries conn ≡ is_admitted intakes.new conn }
    ensures keeps { let seen = moment N.Net W.Watch H.Handler in KeepsOn (admits guard.now.rule) intakes.old intakes.new (seen hub.old out.old handler.old) (seen hub.new out.new handler.new) }
{
    close_due(hub, intakes, out, handler, guard);
    tidy(hub, intakes);
}

/// Gives all Closed events that are due, that of the least connection first, until none is due.
fn close_due<N: Net, W: Watch, H: Handler>(
    hub: &mut Hub,
    intakes: &mut Intakes,
    out: &mut Outside<N, W>,
    handler: &mut H,
    guard: &TopicGuard,
)
    requires running { Running Every intakes.old (at N.Net W.Watch hub.old out.old) }
    ensures none { (conn : ℕ) → due_at hub.new conn ≡ None }
    ensures keeps { let seen = moment N.Net W.Watch H.Handler in KeepsOn (admits guard.now.rule) intakes.old intakes.new (seen hub.old out.old handler.old) (seen hub.new out.new handler.new) }
{
    'closed: loop {
        if !close_next(hub, intakes, out, handler, guard) {
            return;
        }
    }
}

/// Gives the Closed event that is due next. Answers whether one was due.
fn close_next<N: Net, W: Watch, H: Handler>(
    hub: &mut Hub,
    intakes: &mut Intakes,
    out: &mut Outside<N, W>,
    handler: &mut H,
    guard: &TopicGuard,
) -> bool
    requires running { Running Every intakes.old (at N.Net W.Watch hub.old out.old) }
    ensures none { result ≡ false → (conn : ℕ) → due_at hub.new conn ≡ None }
    ensures fewer { result ≡ true → weight_below (suc hub.new.named) hub.new < weight_below (suc hub.old.named) hub.old }
    ensures keeps { let seen = moment N.Net W.Watch H.Handler in KeepsOn (admits guard.now.rule) intakes.old intakes.new (seen hub.old out.old handler.old) (seen hub.new out.new handler.new) }
{
    match hub.next_closed() {
        None => false,
        Some(parting) => {
            close(hub, intakes, out, handler, guard, &parting);
            true
        }
    }
}

/// Notes a Closed event that was handed out, and gives it. The connection's intake is shut where it is no entry any more.
fn close<N: Net, W: Watch, H: Handler>(
    hub: &mut Hub,
    intakes: &mut Intakes,
    out: &mut Outside<N, W>,
    handler: &mut H,
    guard: &TopicGuard,
    parting: &Parting,
)
    requires running { Running Every intakes.old (at N.Net W.Watch hub.old out.old) }
    ensures running { Running Every intakes.new (at N.Net W.Watch hub.new out.new) }
    ensures steps { Steps Every (at N.Net W.Watch hub.old out.old) (at N.Net W.Watch hub.new out.new) }
    ensures kept { let seen = moment N.Net W.Watch H.Handler in
        (before : HubState) → HandsOut (parting_value parting.now) intakes.old before (at N.Net W.Watch hub.old out.old) → (table : RouteTable) →
        Keeps (admits guard.now.rule) table intakes.old intakes.new (with_hub before (seen hub.old out.old handler.old)) (seen hub.new out.new handler.new) }
{
    give_closed(hub, intakes, out, handler, guard, parting);
    if hub.phase(parting.conn).is_none() {
        intakes.shut(parting.conn);
    }
}

/// Notes a Closed event, and gives it with the route and the parameter of the connection's intake.
fn give_closed<N: Net, W: Watch, H: Handler>(
    hub: &mut Hub,
    intakes: &Intakes,
    out: &mut Outside<N, W>,
    handler: &mut H,
    guard: &TopicGuard,
    parting: &Parting,
)
    requires ties { Ties (at N.Net W.Watch hub.old out.old) }
    ensures steps { Steps Every (at N.Net W.Watch hub.old out.old) (at N.Net W.Watch hub.new out.new) }
    ensures kept { let seen = moment N.Net W.Watch H.Handler in
        (before : HubState) → HandsOut (parting_value parting.now) intakes.now before (at N.Net W.Watch hub.old out.old) → (table : RouteTable) →
        Keeps (admits guard.now.rule) table intakes.now intakes.now (with_hub before (seen hub.old out.old handler.old)) (seen hub.new out.new handler.new) }
{
    let conn = parting.conn;
    let code = parting.code;
    let reason = parting.reason.as_slice();
    out.watch.note(&Note::Closed { conn, code, reason });
    if let Some(intake) = intakes.at(conn) {
        let event = Event {
            conn,
            route: intake.route,
            param: intake.param.as_slice(),
            what: What::Closed { code, reason },
        };
        give(hub, out, handler, guard, event);
    }
}

/// Each connection that is no entry has no intake any more. Each entry has one before.
pub(crate) fn tidy(hub: &Hub, intakes: &mut Intakes)
    requires { (conn : ℕ) → is_kept_at hub.now conn ≡ true → is_admitted intakes.old conn ≡ true }
    ensures table { IsTable (table_of hub.now) }
    ensures entries { (conn : ℕ) → has_entry hub.now.entries conn ≡ is_admitted intakes.new conn }
    ensures max { max_of intakes.new ≡ max_of intakes.old }
    ensures kept { (conn : ℕ) → has_entry hub.now.entries conn ≡ true → intake_at intakes.new conn ≡ intake_at intakes.old conn }
    ensures views { (views : ℕ → IntakeView) → AreViews intakes.old views → AreViews intakes.new views }
{
    if intakes.count() == hub.count() {
        return;
    }
    intakes.keep_entries(hub);
}

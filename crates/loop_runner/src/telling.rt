//! Told events, as a turn begins.

ghost use Rattle.std.specs.Prelude.{ℕ};
ghost use Rattle.hub_lines.specs.State.{HubState, Server};
ghost use Rattle.hub_lines.specs.Calls.{Ties};
ghost use Rattle.hub_core.specs.At.{at};
ghost use Rattle.run_told.specs.Pass.{TellsAll, TellsTo};
ghost use Rattle.topic_guard.specs.Admits.{admits};
ghost use Rattle.loop_runner.specs.Steps.{Every, Running};
ghost use Rattle.loop_runner.specs.Moments.{moment, with_hub, HandsTold, KeepsOn, TellsOn, TellsOne};

use crate::giving::give;
use crate::intakes::Intakes;
use hub_core::{Hub, Telling};
use link_trait::{Net, Outside};
use topic_guard::TopicGuard;
use ws_kinds::{Conn, Event, Handler, Note, Watch, What};

/// Gives the Told events, in one ascending pass: of each open connection of which there is something to tell, how many items of it
/// were dropped, and whether what was held for it was taken. Then the handler was told of each that had something to tell as the turn
/// began, or it is open no more.
pub(crate) fn tell_all<N: Net, W: Watch, H: Handler>(
    hub: &mut Hub,
    intakes: &Intakes,
    out: &mut Outside<N, W>,
    handler: &mut H,
    guard: &TopicGuard,
)
    requires running { Running Every intakes.now (at N.Net W.Watch hub.old out.old) }
    ensures keeps { let seen = moment N.Net W.Watch H.Handler in KeepsOn (admits guard.now.rule) intakes.now intakes.now (seen hub.old out.old handler.old) (seen hub.new out.new handler.new) }
    ensures told { (start : Server) → TellsTo 0 start (at N.Net W.Watch hub.old out.old) → TellsAll start (at N.Net W.Watch hub.new out.new) }
{
    let mut after = Conn(0);
    'told: while let Some(conn) = tell_next(hub, intakes, out, handler, guard, after) {
        after = conn;
    }
}

/// Gives the Told event of the least connection above `after` of which there is something to tell. Answers which it is, if there is one.
fn tell_next<N: Net, W: Watch, H: Handler>(
    hub: &mut Hub,
    intakes: &Intakes,
    out: &mut Outside<N, W>,
    handler: &mut H,
    guard: &TopicGuard,
    after: Conn,
) -> Option<Conn>
    requires running { Running Every intakes.now (at N.Net W.Watch hub.old out.old) }
    ensures { let seen = moment N.Net W.Watch H.Handler in TellsOn (admits guard.now.rule) after.0 result intakes.now (seen hub.old out.old handler.old) (seen hub.new out.new handler.new) }
{
    match hub.next_told(after) {
        None => None,
        Some(telling) => {
            tell(hub, intakes, out, handler, guard, &telling);
            Some(telling.conn)
        }
    }
}

/// Notes what was handed out of a connection, and gives it with the route and the parameter of the connection's intake.
fn tell<N: Net, W: Watch, H: Handler>(
    hub: &mut Hub,
    intakes: &Intakes,
    out: &mut Outside<N, W>,
    handler: &mut H,
    guard: &TopicGuard,
    telling: &Telling,
)
    requires ties { Ties (at N.Net W.Watch hub.old out.old) }
    ensures { let seen = moment N.Net W.Watch H.Handler in (after : ℕ) (before : HubState) →
        HandsTold after telling.now.conn.0 telling.now.dropped telling.now.drained intakes.now before (at N.Net W.Watch hub.old out.old) →
        TellsOne (admits guard.now.rule) after telling.now.conn.0 intakes.now (with_hub before (seen hub.old out.old handler.old)) (seen hub.new out.new handler.new) }
{
    let conn = telling.conn;
    let dropped = telling.dropped;
    let drained = telling.drained;
    out.watch.note(&Note::Told {
        conn,
        dropped,
        drained,
    });
    if let Some(intake) = intakes.at(conn) {
        let event = Event {
            conn,
            route: intake.route,
            param: intake.param.as_slice(),
            what: What::Told { dropped, drained },
        };
        give(hub, out, handler, guard, event);
    }
}

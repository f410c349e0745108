//! Turn after turn.

ghost use Rattle.hub_core.specs.At.{at};
ghost use Rattle.topic_guard.specs.Admits.{admits};
ghost use Rattle.loop_runner.specs.Ready.{Ready};
ghost use Rattle.loop_runner.specs.Moments.{moment};
ghost use Rattle.loop_runner.specs.Turning.{MakesRun};

use crate::intakes::Intakes;
use crate::turn::{Turned, run_turn};
use hub_core::Hub;
use link_trait::{Net, Outside};
use route_table::Routes;
use topic_guard::TopicGuard;
use ws_kinds::{Handler, Watch};

/// How a run ended.
#[derive(Clone, Copy, Debug, PartialEq, Eq)]
pub enum Ran {
    /// Nothing will come any more. So many turns were made, the last one with it.
    Stopped(u64),
    /// As many turns were made as were asked for.
    Spent,
    /// The net had a fault, which it counted.
    NetFault,
}

/// Makes turns, until nothing will come any more, the net has a fault, or so many were made. Where `turns` is 0, none is made. The
/// guard says which topics may be subscribed to, as for [`run_turn`].
///
/// Each turn but the last ended with Turn, and the last as the answer says: with Stop, with Turn, or with Failed, where the net tells
/// (`runs`). Where the watch tells, as many Turn notes were added as turns were made (`noted`), also over a net that tells nothing. The
/// answer NetFault comes only where the net counted a fault, as [`run_turn`] says it of Failed (`failed`).
///
/// The hub and the intakes have to be ready, as for [`run_turn`], and are so afterwards. What was kept before the run is kept
/// after it (`kept`), and then the run is right (`right`), as [`run_turn`] says it of one turn; and it was so, of what the handler
/// was given, at the end of each turn (`throughout`). Where a turn was made, all is settled (`settled`), and the notes end with that of
/// the turn (`last`). The net's schedule stays, and notes are only added (`grows`).
pub fn run<N: Net, W: Watch, H: Handler>(
    hub: &mut Hub,
    intakes: &mut Intakes,
    routes: &Routes,
    out: &mut Outside<N, W>,
    handler: &mut H,
    guard: &TopicGuard,
    turns: u64,
) -> Ran
    requires { Ready intakes.old (at N.Net W.Watch hub.old out.old) }
    ensures { let seen = moment N.Net W.Watch H.Handler in
        MakesRun (admits guard.now.rule) routes.now result turns intakes.old intakes.new (seen hub.old out.old handler.old) (seen hub.new out.new handler.new) }
{
    'turns: for turn in 0..turns {
        match run_turn(hub, intakes, routes, out, handler, guard) {
            Turned::Turn => {}
            Turned::Stop => return Ran::Stopped(turn + 1),
            Turned::Failed => return Ran::NetFault,
        }
    }
    Ran::Spent
}

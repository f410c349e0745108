//! One turn.

ghost use Rattle.std.specs.Prelude.{◌≡◌, ℕ, None};
ghost use Rattle.hub_lines.specs.State.{is_present};
ghost use Rattle.hub_lines.specs.Calls.{Ties};
ghost use Rattle.hub_notes.specs.Progress.{due_at};
ghost use Rattle.hub_core.specs.At.{at};
ghost use Rattle.run_told.specs.Pass.{TellsAll};
ghost use Rattle.topic_guard.specs.Admits.{admits};
ghost use Rattle.loop_runner.specs.Ready.{Ready};
ghost use Rattle.loop_runner.specs.Steps.{Every, OffersIfThere, Running};
ghost use Rattle.loop_runner.specs.Moments.{moment, KeepsOn};
ghost use Rattle.loop_runner.specs.Turning.{TakesEvent, EndsEvents, MakesTurn};

use crate::arriving::arrive;
use crate::closing::{close_all, tidy};
use crate::intakes::Intakes;
use crate::reading::readable;
use crate::telling::tell_all;
use hub_core::Hub;
use link_trait::{Net, NetEvent, Outside};
use route_table::Routes;
use topic_guard::TopicGuard;
use ws_kinds::{Conn, Handler, Phase, Watch};

/// How a turn ended.
#[derive(Clone, Copy, Debug, PartialEq, Eq)]
pub enum Turned {
    /// All that was ready has been told.
    Turn,
    /// Nothing will come any more.
    Stop,
    /// The net had a fault, which it counted.
    Failed,
}

/// Makes one turn: takes what the net tells, until it tells that all was told, that nothing will come any more, or that it had
/// a fault.
///
/// First all Closed events that are due are given to the handler, and again after each thing that the net told. After the first ones
/// the handler is told of each connection of which items were dropped, or of which what was held is taken, in ascending order. What
/// the handler orders in answer to an event is done before anything else, and the guard says which topics may be subscribed to
/// ([`Hub::perform`]). What is kept and right is said by the guard's rule, and is so from turn to turn while the rule stays.
///
/// The hub and the intakes have to be ready, as they are when both are new and as this leaves them: they have the same
/// connections and the same limit of a message's octets, the net named each of them, no frame is pending, and what came of each
/// connection was taken. A turn ends as `Failed` only where the net counted a fault in it, and where the watch tells, one fault more
/// than links failed by the notes (`failed`). One Turn note is added, where the watch tells (`turns`).
///
/// What is kept before the turn is kept after it (`kept`), and then the run is right (`right`): what the handler was given is what
/// the octets say, and what each link took, with what is held, is what was sent. Nothing came from outside between a connection's
/// leaving Open and its Closed event. Where at the end of each earlier turn the handler had been given what the octets read until
/// then say, it was so at the end of this one too (`throughout`), with which the notes end (`last`). Where besides each link that
/// was live is that of an entry which is not gone, it is so afterwards (`there`), and all
/// is settled (`settled`): what was ready was read, and the handler was told of each connection that left Open, but for those that
/// left as the turn ended. This is said for nets and watches that tell, and where fewer than 2^64 - 1 answers of the net and items
/// of a connection were counted.
pub fn run_turn<N: Net, W: Watch, H: Handler>(
    hub: &mut Hub,
    intakes: &mut Intakes,
    routes: &Routes,
    out: &mut Outside<N, W>,
    handler: &mut H,
    guard: &TopicGuard,
) -> Turned
    requires { Ready intakes.old (at N.Net W.Watch hub.old out.old) }
    ensures { let seen = moment N.Net W.Watch H.Handler in
        MakesTurn (admits guard.now.rule) routes.now result intakes.old intakes.new (seen hub.old out.old handler.old) (seen hub.new out.new handler.new) }
{
    begin(hub, intakes, out, handler, guard);
    'events: loop {
        match take_event(hub, intakes, routes, out, handler, guard) {
            None => {}
            Some(turned) => return turned,
        }
    }
}

/// Gives the Closed events that are due since the last turn, then the Told events, and the Closed events that are due then. Where nobody
/// is an entry, there are none.
fn begin<N: Net, W: Watch, H: Handler>(
    hub: &mut Hub,
    intakes: &mut Intakes,
    out: &mut Outside<N, W>,
    handler: &mut H,
    guard: &TopicGuard,
)
    requires { Ready intakes.old (at N.Net W.Watch hub.old out.old) }
    ensures none { (conn : ℕ) → due_at hub.new conn ≡ None }
    ensures keeps { let seen = moment N.Net W.Watch H.Handler in KeepsOn (admits guard.now.rule) intakes.old intakes.new (seen hub.old out.old handler.old) (seen hub.new out.new handler.new) }
    ensures told { TellsAll (at N.Net W.Watch hub.old out.old) (at N.Net W.Watch hub.new out.new) }
{
    if hub.count() == 0 {
        return;
    }
    close_all(hub, intakes, out, handler, guard);
    tell_all(hub, intakes, out, handler, guard);
    close_all(hub, intakes, out, handler, guard);
}

/// Takes the next event, and gives the Closed events that are due then. Answers how the turn ended, if it did.
fn take_event<N: Net, W: Watch, H: Handler>(
    hub: &mut Hub,
    intakes: &mut Intakes,
    routes: &Routes,
    out: &mut Outside<N, W>,
    handler: &mut H,
    guard: &TopicGuard,
) -> Option<Turned>
    requires none { (conn : ℕ) → due_at hub.old conn ≡ None }
    requires running { Running Every intakes.old (at N.Net W.Watch hub.old out.old) }
    ensures { let seen = moment N.Net W.Watch H.Handler in
        TakesEvent (admits guard.now.rule) routes.now result intakes.old intakes.new (seen hub.old out.old handler.old) (seen hub.new out.new handler.new) }
{
    match out.net.next() {
        NetEvent::Accept(conn) => {
            arrive(hub, intakes, out, handler, conn);
            close_all(hub, intakes, out, handler, guard);
            None
        }
        NetEvent::Readable(conn) => {
            readable(hub, intakes, routes, out, handler, guard, conn);
            close_all(hub, intakes, out, handler, guard);
            None
        }
        NetEvent::Writable(conn) => {
            offer(hub, out, conn);
            close_all(hub, intakes, out, handler, guard);
            None
        }
        NetEvent::Tick => {
            hub.tick(out);
            close_all(hub, intakes, out, handler, guard);
            None
        }
        NetEvent::Turn => {
            end_turn(hub, intakes, out, handler);
            Some(Turned::Turn)
        }
        NetEvent::Stop => {
            end_turn(hub, intakes, out, handler);
            Some(Turned::Stop)
        }
        NetEvent::Failed => {
            end_turn(hub, intakes, out, handler);
            Some(Turned::Failed)
        }
    }
}

/// Offers what is held for a connection, whose link takes octets again. For one that is not there nothing is done.
fn offer<N: Net, W: Watch>(hub: &mut Hub, out: &mut Outside<N, W>, conn: Conn)
    requires ties { Ties (at N.Net W.Watch hub.old out.old) }
    ensures { OffersIfThere conn.0 (at N.Net W.Watch hub.old out.old) (at N.Net W.Watch hub.new out.new) }
{
    if !is_there(hub, conn) {
        return;
    }
    hub.writable(out, conn);
}

/// Whether a connection is an entry that is not gone.
fn is_there(hub: &Hub, conn: Conn) -> bool
    ensures { result ≡ is_present hub.now conn.0 }
{
    match hub.phase(conn) {
        None => false,
        Some(Phase::Head) => true,
        Some(Phase::Open) => true,
        Some(Phase::Leaving) => true,
        Some(Phase::Ending) => true,
        Some(Phase::Gone) => false,
    }
}

/// Ends the turn. Each connection that is no entry any more has no intake then.
/// The handler is not asked: it stands here for what is kept beside its state.
fn end_turn<N: Net, W: Watch, H: Handler>(
    hub: &mut Hub,
    intakes: &mut Intakes,
    out: &mut Outside<N, W>,
    handler: &H,
)
    requires none { (conn : ℕ) → due_at hub.old conn ≡ None }
    requires running { Running Every intakes.old (at N.Net W.Watch hub.old out.old) }
    ensures { let seen = moment N.Net W.Watch H.Handler in EndsEvents intakes.old intakes.new (seen hub.old out.old handler.now) (seen hub.new out.new handler.now) }
{
    hub.end_turn(out);
    tidy(hub, intakes);
}

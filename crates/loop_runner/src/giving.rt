//! Giving an event to the handler.

ghost use Rattle.std.specs.Prelude.{◌≡◌};
ghost use Rattle.ws_kinds.specs.EventValue.{event_value};
ghost use Rattle.hub_lines.specs.Calls.{Ties};
ghost use Rattle.hub_core.specs.At.{at};
ghost use Rattle.hub_notes.specs.Table.{IsTable, table_of};
ghost use Rattle.topic_guard.specs.Admits.{admits};
ghost use Rattle.loop_runner.specs.Steps.{Every, Steps};
ghost use Rattle.loop_runner.specs.Moments.{ServesOrders};

use hub_core::Hub;
use link_trait::{Net, Outside};
use topic_guard::TopicGuard;
use ws_kinds::{Event, Handler, Orders, Watch};

/// Asks the handler for the orders that answer an event, and serves them. The guard says which topics may be subscribed to.
fn answer<'m, N: Net, W: Watch, H: Handler>(
    hub: &mut Hub,
    out: &mut Outside<N, W>,
    handler: &'m H,
    guard: &TopicGuard,
    event: Event<'m>,
)
    requires ties { Ties (at N.Net W.Watch hub.old out.old) }
    ensures serves { let seen = at N.Net W.Watch in ServesOrders (admits guard.now.rule) event.entry.conn.0 (H.said (H.state handler.now) (event_value event.entry))
        (seen hub.old out.old) (seen hub.new out.new) }
    ensures steps { Steps Every (at N.Net W.Watch hub.old out.old) (at N.Net W.Watch hub.new out.new) }
    ensures table { IsTable (table_of hub.new) }
{
    let mut orders = Orders::new();
    handler.orders(event, &mut orders);
    hub.perform(out, guard, event.conn, &orders);
}

/// Gives an event to the handler, and serves the orders that answer it.
pub(crate) fn give<N: Net, W: Watch, H: Handler>(
    hub: &mut Hub,
    out: &mut Outside<N, W>,
    handler: &mut H,
    guard: &TopicGuard,
    event: Event<'_>,
)
    requires ties { Ties (at N.Net W.Watch hub.old out.old) }
    ensures state { H.state handler.new ≡ H.after (H.state handler.old) (event_value event.entry) }
    ensures serves { let seen = at N.Net W.Watch in ServesOrders (admits guard.now.rule) event.entry.conn.0 (H.said (H.state handler.new) (event_value event.entry))
        (seen hub.old out.old) (seen hub.new out.new) }
    ensures steps { Steps Every (at N.Net W.Watch hub.old out.old) (at N.Net W.Watch hub.new out.new) }
    ensures table { IsTable (table_of hub.new) }
{
    handler.on(event);
    answer(hub, out, handler, guard, event);
}

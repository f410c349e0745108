//! The built-in handler.

ghost use Rattle.std.specs.Prelude.{◌≡◌, ◌<◌, ◌≤◌, false, length, option_map, IfOk, IfErr, OnOk};
ghost use Rattle.ws_kinds.specs.EventValue.{event_value, opened};
ghost use Rattle.ws_kinds.specs.OrderValue.{order_value};
ghost use Rattle.route_table.specs.Table.{is_refused, with_route};
ghost use Rattle.bus_handler.specs.Bus.{bus_order, order_on, message_order, routes_of_bus};

use crate::command::command;
use route_table::{RouteFault, Routes};
use std::alloc::Global;
use ws_kinds::{Event, Handler, Kind, Order, Orders, What};

/// The number of `/echo`.
const ECHO_ROUTE: u8 = 0;

/// The number of `/room/{name}`.
const ROOM_ROUTE: u8 = 1;

/// The number of `/bus`.
const BUS_ROUTE: u8 = 2;

/// The built-in handler. It has no state.
#[derive(Clone, Copy, Debug, PartialEq, Eq)]
pub struct Bus;

impl Bus {
    /// The routes: `/echo` is 0 and has no subprotocol, `/room/{name}` is 1 and has `room.v1`, and `/bus` is 2 and has `bus.v1`.
    /// The only fault is `Memory`.
    pub fn routes(alloc: Global) -> Result<Routes, RouteFault>
        ensures routes { IfOk result (λ routes. routes ≡ routes_of_bus) }
        ensures memory { IfErr result (λ fault. fault ≡ RouteFault.Memory) }
    {
        let mut routes = Routes::new(alloc);
        add(&mut routes, "/echo", b"")?;
        add(&mut routes, "/room/{name}", b"room.v1")?;
        add(&mut routes, "/bus", b"bus.v1")?;
        Ok(routes)
    }

    /// The order that answers an event, if one does:
    ///
    /// - on `/echo` a message is sent back;
    /// - in a room, who comes subscribes to the room's name, and a message is published to it, so that all others get it;
    /// - on `/bus` the message `+t` subscribes to the topic t, `-t` ends that, and `=t body` publishes the body to t, whose name
    ///   ends before the first space; `x` and four decimal digits, and nothing else, closes the connection with the code that
    ///   they say and no reason; every other message is sent back.
    ///
    /// The kind of a message does not matter for what it orders. Neither a topic nor a code is looked at here: whether it is
    /// one, and whether it may be sent, is the server's matter.
    pub fn order<'m>(event: Event<'m>) -> Option<Order<'m>>
        ensures { option_map order_value result ≡ bus_order (event_value event.entry) }
    {
        match event.what {
            What::Opened => opened(event),
            What::Message { kind, body } => on_message(event, kind, body),
            What::Told { .. } => None,
            What::Closed { .. } => None,
        }
    }
}

impl Handler for Bus {
    ghost use Rattle.std.specs.Prelude.{⊤};
    ghost use Rattle.std.proofs.Common.{arith, rules};
    ghost use Rattle.bus_handler.specs.Bus.{bus_said};

    ghost State = { ⊤ };

    ghost state = { λ bus. tt {0} };

    ghost after = { λ state _. state };

    ghost said = { λ _ event. bus_said event };

    ghost said_few = { λ now event. Prim.grind (arith, rules) };

    fn on(&mut self, event: Event<'_>) {
        let _ = event;
    }

    fn orders<'m>(&'m self, event: Event<'m>, out: &mut Orders<'m>) {
        if let Some(order) = Bus::order(event) {
            out.push(order);
        }
    }
}

/// Adds a route for which there is room, and whose pattern reads and conflicts with no other. The only fault is `Memory`.
fn add(routes: &mut Routes, pattern: &str, protocol: &[u8]) -> Result<(), RouteFault>
    requires short { length protocol.now ≤ 64 }
    requires few { length routes.old.protocols < 255 }
    requires fits { is_refused routes.old pattern.now ≡ false }
    ensures added { OnOk result (routes.new ≡ with_route routes.old pattern.now protocol.now) }
    ensures memory { IfErr result (λ fault. fault ≡ RouteFault.Memory) }
{
    match routes.add(pattern, protocol) {
        Ok(_) => Ok(()),
        Err(fault) => Err(fault),
    }
}

/// Who comes into a room subscribes to it.
fn opened<'m>(event: Event<'m>) -> Option<Order<'m>>
    ensures { option_map order_value result ≡ order_on event.entry.route event.entry.conn.0 event.entry.param.now opened }
{
    if event.route == ROOM_ROUTE {
        return Some(Order::Subscribe { topic: event.param });
    }
    None
}

/// What a message orders.
fn on_message<'m>(event: Event<'m>, kind: Kind, body: &'m [u8]) -> Option<Order<'m>>
    ensures { option_map order_value result ≡ message_order event.entry.route event.entry.conn.0 event.entry.param.now kind body.now }
{
    let back = Order::Send {
        to: event.conn,
        kind,
        body,
    };
    match event.route {
        ECHO_ROUTE => Some(back),
        ROOM_ROUTE => Some(Order::Publish {
            topic: event.param,
            kind,
            body,
        }),
        BUS_ROUTE => Some(command(kind, body).unwrap_or(back)),
        _ => None,
    }
}

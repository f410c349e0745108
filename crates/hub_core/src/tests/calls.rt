//! Single calls of a hub, each where its condition holds, and lists of them.

ghost use Rattle.std.specs.Prelude.{◌≡◌, ◌<◌, ◌≤◌, ℕ, [], true, Some, IfSome};
ghost use Rattle.ws_kinds.specs.declared.note.Phase.TheVariants.{Ending, Head, Open};
ghost use Rattle.hub_core.specs.At.{at};
ghost use Rattle.hub_lines.specs.State.{phase_at};
ghost use Rattle.hub_lines.specs.Calls.{Ties};

use super::senders::{send_and_lose, send_to_both};
use crate::Hub;
use link_trait::{Net, NetEvent, Outside};
use socket_core::Kept;
use topic_guard::TopicGuard;
use ws_kinds::{Conn, Kind, Order, Orders, Phase, Watch, Why};

/// An order.
#[derive(Clone, Copy)]
pub enum Deed<'a> {
    Join(&'a [u8]),
    Part(&'a [u8]),
    /// A text to a topic.
    Publish(&'a [u8], &'a [u8]),
    /// A text to a connection.
    Send(Conn, &'a [u8]),
    /// To close the connection, with a code and a reason.
    Close(u16, &'a [u8]),
}

/// A call for one connection.
#[derive(Clone, Copy)]
pub enum Call<'a> {
    Admit,
    Refuse,
    Given,
    Ping,
    Pong,
    Close(u16, &'a [u8]),
    Failed,
    Ended,
    Lost,
    /// The first 16 of these orders.
    Orders(&'a [Deed<'a>]),
    Writable,
    /// 65 orders: to subscribe to what is 1 to 65 times the octet 97. The last one is no topic.
    Topics,
    Tick,
    Turn,
    /// A message, and the answer to it.
    Send(Kind, &'a [u8], Result<Kept, Why>),
    /// A message to a topic, with the connection as its sender where its number is not 0, and the answer to it.
    Publish(&'a [u8], Kind, &'a [u8], Result<u64, Why>),
    /// `send_to_both` serves both.
    Both(Conn),
    /// `send_and_lose` serves it.
    Lose(Conn),
}

/// The connection that comes next, where one does.
fn next_accepted<N: Net>(net: &mut N) -> Option<Conn>
    ensures live { (conn : ℕ) → (N.state net.old).live conn ≡ true → (N.state net.new).live conn ≡ true }
    ensures rises { (N.state net.old).named ≤ (N.state net.new).named }
    ensures came { IfSome result (λ conn. ((N.state net.old).named < conn.0) × ((N.state net.new).named ≡ conn.0) × ((N.state net.new).live conn.0 ≡ true)) }
{
    let event = net.next();
    match event {
        NetEvent::Accept(conn) => Some(conn),
        _ => None,
    }
}

/// Takes in the connection that comes next.
fn arrive<N: Net, W: Watch>(hub: &mut Hub, out: &mut Outside<N, W>)
    requires ties { Ties (at N.Net W.Watch hub.old out.old) }
    requires named { hub.old.named ≤ (N.state out.old.net).named }
    ensures ties { Ties (at N.Net W.Watch hub.new out.new) }
    ensures named { hub.new.named ≤ (N.state out.new.net).named }
{
    match next_accepted(&mut out.net) {
        Some(conn) => {
            hub.accept(out, conn);
        }
        None => {}
    }
}

/// A call for a connection whose request is read.
fn of_head<N: Net, W: Watch>(hub: &mut Hub, out: &mut Outside<N, W>, conn: Conn, call: Call<'_>)
    requires phase { phase_at hub.old conn.0 ≡ Some Head }
    requires ties { Ties (at N.Net W.Watch hub.old out.old) }
    ensures ties { Ties (at N.Net W.Watch hub.new out.new) }
{
    match call {
        Call::Admit => hub.admit(out, conn, 3, b"room", b"reply"),
        Call::Refuse => hub.refuse(out, conn, 404, b"none"),
        Call::Given => hub.given(out, conn, 7),
        _ => {}
    }
}

/// A call for an open connection.
fn of_open<N: Net, W: Watch>(hub: &mut Hub, out: &mut Outside<N, W>, conn: Conn, call: Call<'_>)
    requires phase { phase_at hub.old conn.0 ≡ Some Open }
    requires ties { Ties (at N.Net W.Watch hub.old out.old) }
    ensures ties { Ties (at N.Net W.Watch hub.new out.new) }
{
    match call {
        Call::Ping => hub.ping_got(out, conn, b"hi"),
        Call::Pong => hub.pong_got(out, conn, b"ho"),
        Call::Close(1005, _) => hub.peer_close(out, conn, 1005, &[]),
        Call::Close(_, reason) => close(hub, out, conn, reason),
        Call::Failed => hub.failed(out, conn, 1002),
        Call::Ended => hub.ended(out, conn),
        Call::Lost => hub.link_failed(out, conn),
        Call::Writable => hub.writable(out, conn),
        _ => {}
    }
}

/// A call for a connection that is ending.
fn of_ending<N: Net, W: Watch>(hub: &mut Hub, out: &mut Outside<N, W>, conn: Conn, call: Call<'_>)
    requires phase { phase_at hub.old conn.0 ≡ Some Ending }
    requires ties { Ties (at N.Net W.Watch hub.old out.old) }
    ensures ties { Ties (at N.Net W.Watch hub.new out.new) }
{
    match call {
        Call::Writable => hub.writable(out, conn),
        _ => {}
    }
}

/// A close frame with the code 1001.
fn close<N: Net, W: Watch>(hub: &mut Hub, out: &mut Outside<N, W>, conn: Conn, reason: &[u8])
    requires phase { phase_at hub.old conn.0 ≡ Some Open }
    requires ties { Ties (at N.Net W.Watch hub.old out.old) }
    ensures ties { Ties (at N.Net W.Watch hub.new out.new) }
{
    if reason.len() <= 123 {
        hub.peer_close(out, conn, 1001, reason);
    }
}

fn order_of(deed: Deed<'_>) -> Order<'_> {
    let kind = Kind::Text;
    match deed {
        Deed::Join(topic) => Order::Subscribe { topic },
        Deed::Part(topic) => Order::Unsubscribe { topic },
        Deed::Publish(topic, body) => Order::Publish { topic, kind, body },
        Deed::Send(to, body) => Order::Send { to, kind, body },
        Deed::Close(code, reason) => Order::Close { code, reason },
    }
}

/// The first 16 of these orders.
fn orders_of<'a>(deeds: &[Deed<'a>]) -> Orders<'a> {
    let mut orders = Orders::new();
    for deed in deeds {
        let _ = orders.try_push(order_of(*deed));
    }
    orders
}

/// Serves these orders of a connection.
fn serve<N: Net, W: Watch>(
    hub: &mut Hub,
    out: &mut Outside<N, W>,
    guard: &TopicGuard,
    conn: Conn,
    deeds: &[Deed<'_>],
)
    requires ties { Ties (at N.Net W.Watch hub.old out.old) }
    ensures ties { Ties (at N.Net W.Watch hub.new out.new) }
{
    let orders = orders_of(deeds);
    hub.perform(out, guard, conn, &orders);
}

/// Subscribes a connection to each front of these octets, one after another.
fn subscribe_to_fronts<N: Net, W: Watch>(
    hub: &mut Hub,
    out: &mut Outside<N, W>,
    guard: &TopicGuard,
    conn: Conn,
    octets: &[u8],
)
    requires ties { Ties (at N.Net W.Watch hub.old out.old) }
    ensures ties { Ties (at N.Net W.Watch hub.new out.new) }
{
    'walk: for last in 0..octets.len() {
        let topic = &octets[..=last];
        serve(hub, out, guard, conn, &[Deed::Join(topic)]);
    }
}

/// Makes a call, where its condition holds.
fn make<N: Net, W: Watch>(
    hub: &mut Hub,
    out: &mut Outside<N, W>,
    guard: &TopicGuard,
    conn: Conn,
    call: Call<'_>,
)
    requires ties { Ties (at N.Net W.Watch hub.old out.old) }
    ensures ties { Ties (at N.Net W.Watch hub.new out.new) }
{
    match call {
        Call::Tick => return hub.tick(out),
        Call::Turn => return hub.end_turn(out),
        Call::Orders(orders) => return serve(hub, out, guard, conn, orders),
        Call::Topics => return subscribe_to_fronts(hub, out, guard, conn, &[97; 65]),
        _ => {}
    }
    match hub.phase(conn) {
        Some(Phase::Head) => of_head(hub, out, conn, call),
        Some(Phase::Open) => of_open(hub, out, conn, call),
        Some(Phase::Ending) => of_ending(hub, out, conn, call),
        _ => {}
    }
}

/// Whether a publication was answered so, and left the tally alone where it reached nobody.
fn is_counted(found: Result<u64, Why>, wanted: Result<u64, Why>, stands: bool) -> bool {
    found == wanted && (stands || found.unwrap_or(0) > 0)
}

/// Makes a call. The answer says whether it was answered as it should be.
fn answers<N: Net, W: Watch>(
    hub: &mut Hub,
    out: &mut Outside<N, W>,
    guard: &TopicGuard,
    conn: Conn,
    call: Call<'_>,
) -> bool
    requires ties { Ties (at N.Net W.Watch hub.old out.old) }
    ensures ties { Ties (at N.Net W.Watch hub.new out.new) }
{
    match call {
        Call::Send(kind, body, answer) => hub.send(out, conn, kind, body) == answer,
        Call::Publish(topic, kind, body, answer) => {
            let tally = out.tally;
            let found = hub.publish(out, sender(conn), topic, kind, body);
            is_counted(found, answer, out.tally == tally)
        }
        Call::Both(second) => {
            send_to_both(hub, out, conn, second, Kind::Text, b"hi") == (true, true)
        }
        Call::Lose(lost) => send_and_lose(hub, out, conn, lost, Kind::Binary, b"ho"),
        other => {
            make(hub, out, guard, conn, other);
            true
        }
    }
}

/// A sender, where its number is not 0.
fn sender(conn: Conn) -> Option<Conn> {
    if conn.0 > 0 {
        return Some(conn);
    }
    None
}

/// Six connections come.
fn come<N: Net, W: Watch>(hub: &mut Hub, out: &mut Outside<N, W>)
    requires unnamed { hub.old.named ≡ 0 }
    requires empty { hub.old.entries ≡ [] }
    ensures ties { Ties (at N.Net W.Watch hub.new out.new) }
{
    arrive(hub, out);
    arrive(hub, out);
    arrive(hub, out);
    arrive(hub, out);
    arrive(hub, out);
    arrive(hub, out);
}

/// Makes these calls, with this guard of topics. The answer is the place of the first one that is answered otherwise.
fn make_each<N: Net, W: Watch>(
    hub: &mut Hub,
    out: &mut Outside<N, W>,
    guard: &TopicGuard,
    calls: &[(Conn, Call<'_>)],
) -> Option<usize>
    requires ties { Ties (at N.Net W.Watch hub.old out.old) }
    ensures ties { Ties (at N.Net W.Watch hub.new out.new) }
{
    'walk: for (place, (conn, call)) in calls.iter().enumerate() {
        if !answers(hub, out, guard, *conn, *call) {
            return Some(place);
        }
    }
    None
}

/// Calls, with the guard of topics that is lent to them.
#[derive(Clone, Copy)]
pub struct Part<'a> {
    pub guard: &'a TopicGuard,
    pub calls: &'a [(Conn, Call<'a>)],
}

/// Takes in six connections, and makes the calls of both parts. The answer is the place of the first one, in its part, that is
/// answered otherwise.
pub fn play<N: Net, W: Watch>(
    hub: &mut Hub,
    out: &mut Outside<N, W>,
    first: Part<'_>,
    second: Part<'_>,
) -> Option<usize>
    requires unnamed { hub.old.named ≡ 0 }
    requires empty { hub.old.entries ≡ [] }
    ensures ties { Ties (at N.Net W.Watch hub.new out.new) }
{
    come(hub, out);
    if let Some(place) = make_each(hub, out, first.guard, first.calls) {
        return Some(place);
    }
    make_each(hub, out, second.guard, second.calls)
}

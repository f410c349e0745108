use super::*;
use std::test::*;
use ws_kinds::{Conn, Event, Kind, Order, What};

/// An event of connection 9 on a route with the parameter `lobby`.
fn event<'a>(route: u8, what: What<'a>) -> Event<'a> {
    Event {
        conn: Conn(9),
        route,
        param: b"lobby",
        what,
    }
}

fn sent_back<'a>(kind: Kind, body: &'a [u8]) -> Option<Order<'a>> {
    Some(Order::Send {
        to: Conn(9),
        kind,
        body,
    })
}

/// Messages of the bus that are commands, with what they order.
const COMMANDS: &[(&[u8], Order<'_>)] = &[
    (b"+t", Order::Subscribe { topic: b"t" }),
    (b"+", Order::Subscribe { topic: b"" }),
    (
        b"+two words",
        Order::Subscribe {
            topic: b"two words",
        },
    ),
    (b"++", Order::Subscribe { topic: b"+" }),
    (b"-t", Order::Unsubscribe { topic: b"t" }),
    (b"-", Order::Unsubscribe { topic: b"" }),
    (
        b"x1000",
        Order::Close {
            code: 1000,
            reason: b"",
        },
    ),
    (
        b"x9999",
        Order::Close {
            code: 9999,
            reason: b"",
        },
    ),
    (
        b"x0000",
        Order::Close {
            code: 0,
            reason: b"",
        },
    ),
];

/// Messages of the bus that publish, with the topic and the body.
const PUBLICATIONS: &[(&[u8], &[u8], &[u8])] = &[
    (b"=t body", b"t", b"body"),
    (b"=t ", b"t", b""),
    (b"=t  two words", b"t", b" two words"),
    (b"= x", b"", b"x"),
    (b"= ", b"", b""),
];

/// Messages of the bus that are no commands.
const OTHERS: &[&[u8]] = &[
    b"",
    b"hello",
    b"=",
    b"=abc",
    b" +t",
    b"x",
    b"x100",
    b"x10000",
    b"x1a00",
    b"x+100",
    b"X1000",
    b"\x00\xff",
];

const KINDS: [Kind; 2] = [Kind::Text, Kind::Binary];

/// The place of the first command that is answered otherwise.
fn first_other_command(kind: Kind, rows: &[(&[u8], Order<'_>)]) -> Option<usize> {
    for (place, (body, order)) in rows.iter().enumerate() {
        if Bus::order(event(2, What::Message { kind, body: *body })) != Some(*order) {
            return Some(place);
        }
    }
    None
}

/// The place of the first publication that is answered otherwise.
fn first_other_publication(kind: Kind, rows: &[(&[u8], &[u8], &[u8])]) -> Option<usize> {
    for (place, (octets, topic, body)) in rows.iter().enumerate() {
        let wanted = Order::Publish {
            topic: *topic,
            kind,
            body: *body,
        };
        if Bus::order(event(
            2,
            What::Message {
                kind,
                body: *octets,
            },
        )) != Some(wanted)
        {
            return Some(place);
        }
    }
    None
}

/// The place of the first message that is not sent back on this route.
fn first_kept(route: u8, kind: Kind, rows: &[&[u8]]) -> Option<usize> {
    for (place, body) in rows.iter().enumerate() {
        if Bus::order(event(route, What::Message { kind, body: *body })) != sent_back(kind, *body) {
            return Some(place);
        }
    }
    None
}

#[test]
fn a_message_of_the_bus(rt: HostRuntime) {
    for kind in KINDS {
        assert_eq!(rt; first_other_command(kind, COMMANDS), None);
        assert_eq!(rt; first_other_publication(kind, PUBLICATIONS), None);
        assert_eq!(rt; first_kept(2, kind, OTHERS), None);
        assert_eq!(rt; first_kept(0, kind, OTHERS), None);
    }
}

/// Events with the route and the order that answers.
const EVENTS: &[(u8, What<'_>, Option<Order<'_>>)] = &[
    (0, What::Opened, None),
    (1, What::Opened, Some(Order::Subscribe { topic: b"lobby" })),
    (2, What::Opened, None),
    (3, What::Opened, None),
    (
        0,
        What::Message {
            kind: Kind::Text,
            body: b"+t",
        },
        Some(Order::Send {
            to: Conn(9),
            kind: Kind::Text,
            body: b"+t",
        }),
    ),
    (
        1,
        What::Message {
            kind: Kind::Binary,
            body: b"+t",
        },
        Some(Order::Publish {
            topic: b"lobby",
            kind: Kind::Binary,
            body: b"+t",
        }),
    ),
    (
        3,
        What::Message {
            kind: Kind::Text,
            body: b"+t",
        },
        None,
    ),
    (
        1,
        What::Told {
            dropped: 1,
            drained: true,
        },
        None,
    ),
    (
        1,
        What::Closed {
            code: 1000,
            reason: b"+t",
        },
        None,
    ),
];

/// The place of the first event that is answered otherwise.
fn first_other(rows: &[(u8, What<'_>, Option<Order<'_>>)]) -> Option<usize> {
    for (place, (route, what, order)) in rows.iter().enumerate() {
        if Bus::order(event(*route, *what)) != *order {
            return Some(place);
        }
    }
    None
}

#[test]
fn each_route(rt: HostRuntime) -> Result<(), Fail> {
    assert_eq!(rt; first_other(EVENTS), None);
    let routes = Bus::routes(rt.alloc()).ok().ok_or("memory")?;
    let none: &[u8] = b"";
    assert_eq!(rt; routes.find("/echo"), Some((0, none)));
    assert_eq!(rt; routes.find("/room/lobby"), Some((1, b"lobby".as_slice())));
    assert_eq!(rt; routes.find("/bus"), Some((2, none)));
    assert_eq!(rt; routes.find("/bus/more"), None);
    Ok(())
}

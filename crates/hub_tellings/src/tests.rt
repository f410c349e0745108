ghost use Rattle.std.specs.Prelude.{◌≡◌, ◌<◌, true, false, length};
ghost use Rattle.hub_tellings.specs.Tellings.{has_row};

use super::*;
use std::test::*;
use ws_kinds::Conn;

/// For how many connections there is room in the tests.
const ROOM: usize = 3;

/// The greatest number of a connection in the tests. The numbers begin at 1.
const LAST: u64 = 6;

/// A call for a connection.
#[derive(Clone, Copy, PartialEq, Eq)]
enum Call {
    Hold(u64),
    Dropped(u64),
    Forget(u64),
    Mark(u64),
    /// So many octets are held.
    Settle(u64, u64),
}

use Call::{Dropped, Forget, Hold, Mark, Settle};

/// Calls of which each can be made. All answers are looked at after each of them.
const ROWS: &[&[Call]] = &[
    // drops are counted, also behind a turn and behind a Mark
    &[
        Dropped(2),
        Dropped(2),
        Settle(2, 7),
        Dropped(2),
        Mark(2),
        Dropped(2),
        Settle(2, 0),
        Mark(2),
        Settle(2, 0),
    ],
    // what is held drains, and is told once
    &[
        Hold(4),
        Settle(4, 9),
        Settle(4, 1),
        Settle(4, 0),
        Settle(4, 0),
        Mark(4),
        Settle(4, 0),
        Mark(4),
    ],
    // told while octets are held, and drained later; told between a drop and the end of its turn
    &[
        Hold(1),
        Settle(1, 3),
        Mark(1),
        Settle(1, 0),
        Mark(1),
        Dropped(1),
        Mark(1),
        Settle(1, 0),
        Settle(1, 2),
        Forget(1),
        Hold(1),
        Settle(1, 0),
    ],
    // rows come in front, behind and between; one goes and its room is used again; a row is asked for twice
    &[
        Dropped(3),
        Hold(6),
        Dropped(1),
        Hold(3),
        Dropped(6),
        Forget(3),
        Forget(3),
        Mark(2),
        Hold(4),
        Settle(6, 5),
        Settle(1, 5),
        Settle(4, 0),
        Dropped(5),
        Mark(1),
        Settle(1, 0),
        Mark(6),
        Forget(6),
        Forget(1),
        Forget(5),
    ],
];

/// Whether the connection has a row. `false` may also come for number 0.
fn has(tellings: &Tellings, conn: u64) -> bool
    ensures { result ≡ true → has_row tellings.now.rows conn ≡ true }
{
    if conn == 0 {
        return false;
    }
    match tellings.next(Conn(conn - 1)) {
        Some(next) => next.0 == conn,
        None => false,
    }
}

/// Whether a row for the connection takes no room that is not there.
fn has_room(tellings: &Tellings, conn: u64) -> bool
    requires { tellings.now.room ≡ 3 }
    ensures { result ≡ true → has_row tellings.now.rows conn ≡ false → length tellings.now.rows < tellings.now.room }
{
    if tellings.count() < ROOM {
        return true;
    }
    has(tellings, conn)
}

/// Makes a call. The answer is whether it can be made.
fn make(tellings: &mut Tellings, call: Call) -> bool
    requires { tellings.old.room ≡ 3 }
    ensures { tellings.new.room ≡ 3 }
{
    match call {
        Hold(conn) => {
            if !has_room(tellings, conn) {
                return false;
            }
            tellings.hold(Conn(conn));
        }
        Dropped(conn) => {
            if !has_room(tellings, conn) {
                return false;
            }
            tellings.drop_one(Conn(conn));
        }
        Forget(conn) => tellings.forget(Conn(conn)),
        Mark(conn) => tellings.mark(Conn(conn)),
        Settle(conn, held) => {
            if !has(tellings, conn) {
                return false;
            }
            tellings.settle(Conn(conn), held);
        }
    }
    true
}

/// The calls from the last of this kind on, or all where there is none.
fn since(calls: &[Call], last: Call) -> &[Call] {
    let place = calls.iter().rposition(|call| *call == last);
    calls.get(place.unwrap_or(0)..).unwrap_or(calls)
}

/// The octets that are held as a turn ends, where the call says so of this connection.
fn held_at_turn(call: &Call, conn: u64) -> Option<u64> {
    match *call {
        Settle(other, held) if other == conn => Some(held),
        _ => None,
    }
}

/// The place of the last call that ends a turn for the connection.
fn last_turn(calls: &[Call], conn: u64) -> Option<usize> {
    calls
        .iter()
        .rposition(|call| held_at_turn(call, conn).is_some())
}

/// The plain program: how many items of the connection were dropped since it was told or forgotten last.
fn plain_dropped(calls: &[Call], conn: u64) -> u64 {
    let calls = since(since(calls, Forget(conn)), Mark(conn));
    calls.iter().filter(|call| **call == Dropped(conn)).count() as u64
}

/// The plain program: nothing was held as the last turn ended, it was not told since, and an item was dropped or octets were held
/// since the last turn that ended before it was told.
fn plain_drained(calls: &[Call], conn: u64) -> bool {
    let calls = since(calls, Forget(conn));
    let mark = calls.iter().rposition(|call| *call == Mark(conn));
    let Some(turn) = last_turn(since(calls, Mark(conn)), conn) else {
        return false;
    };
    let turn = turn.saturating_add(mark.unwrap_or(0));
    let before = calls.get(..mark.unwrap_or(0)).unwrap_or(&[]);
    let begin = last_turn(before, conn).unwrap_or(0);
    let between = calls.get(begin..turn).unwrap_or(&[]);
    let busy = between.iter().any(|call| {
        *call == Dropped(conn) || held_at_turn(call, conn).unwrap_or(0) > 0
    });
    let held = match calls.get(turn) {
        Some(call) => held_at_turn(call, conn),
        None => None,
    };
    held == Some(0) && busy
}

/// The plain program: whether the connection has a row.
fn plain_has(calls: &[Call], conn: u64) -> bool {
    let last = calls.iter().rposition(|call| match *call {
        Hold(other) | Dropped(other) | Forget(other) | Settle(other, _) => other == conn,
        Mark(_) => false,
    });
    let Some(place) = last else {
        return false;
    };
    let until = calls.get(..=place).unwrap_or(&[]);
    match calls.get(place) {
        Some(Settle(_, held)) => {
            *held > 0 || plain_dropped(until, conn) > 0 || plain_drained(until, conn)
        }
        Some(Forget(_)) => false,
        _ => true,
    }
}

/// The plain program: the least connection above a number that has a row.
fn plain_next(calls: &[Call], after: u64) -> Option<Conn> {
    for conn in 1..=LAST {
        if conn > after && plain_has(calls, conn) {
            return Some(Conn(conn));
        }
    }
    None
}

/// Whether all answers are those of the plain program.
fn is_plain(tellings: &Tellings, calls: &[Call]) -> bool {
    for conn in 0..=LAST {
        if tellings.dropped(Conn(conn)) != plain_dropped(calls, conn)
            || tellings.drained(Conn(conn)) != plain_drained(calls, conn)
            || tellings.next(Conn(conn)) != plain_next(calls, conn)
        {
            return false;
        }
    }
    true
}

/// The place of the first call that cannot be made, or after which an answer is another.
fn first_other(tellings: &mut Tellings, calls: &[Call]) -> Option<usize>
    requires { tellings.old.room ≡ 3 }
    ensures { tellings.new.room ≡ 3 }
{
    for (place, call) in calls.iter().enumerate() {
        if !make(tellings, *call) {
            return Some(place);
        }
        if !is_plain(tellings, calls.get(..=place).unwrap_or(&[])) {
            return Some(place);
        }
    }
    None
}

#[test]
fn answers_are_those_of_the_plain_program(rt: HostRuntime) -> Result<(), Fail> {
    for (row, calls) in ROWS.iter().enumerate() {
        let mut tellings = Tellings::with_room(rt.alloc(), ROOM).ok().ok_or("memory")?;
        assert_eq!(rt; first_other(&mut tellings, calls), None, "row {row}");
        tellings.rising();
    }
    Ok(())
}

use super::*;
use std::test::*;

/// A call.
#[derive(Clone, Copy)]
enum Call {
    Heard,
    Leaving,
    /// A tick, and whether a ping can be sent.
    Tick(bool),
}

use Call::{Heard, Leaving, Tick};

/// Makes a call, which answers `Nothing` where it is no tick.
fn make(quiet: &mut Quiet, call: Call) -> Due {
    match call {
        Heard => {
            quiet.heard();
            Due::Nothing
        }
        Leaving => {
            quiet.leaving();
            Due::Nothing
        }
        Tick(can_ping) => quiet.tick(can_ping),
    }
}

/// Calls where a ping is due after 2 ticks, the end after 4, or 3 ticks after leaving began; and what each makes due.
const ROWS: &[&[(Call, Due)]] = &[
    // nothing is heard; the counts go on after the end
    &[
        (Tick(true), Due::Nothing),
        (Tick(true), Due::Ping),
        (Tick(true), Due::Nothing),
        (Tick(true), Due::Gone),
        (Tick(true), Due::Nothing),
    ],
    // what is heard begins the count again, behind a ping too
    &[
        (Tick(true), Due::Nothing),
        (Heard, Due::Nothing),
        (Tick(true), Due::Nothing),
        (Tick(true), Due::Ping),
        (Tick(true), Due::Nothing),
        (Heard, Due::Nothing),
        (Tick(true), Due::Nothing),
        (Tick(true), Due::Ping),
    ],
    // no ping can be sent
    &[
        (Tick(false), Due::Nothing),
        (Tick(false), Due::Nothing),
        (Tick(true), Due::Nothing),
        (Tick(false), Due::Gone),
    ],
    // leaving: no ping, a second leaving changes nothing, and what is heard neither
    &[
        (Leaving, Due::Nothing),
        (Tick(true), Due::Nothing),
        (Leaving, Due::Nothing),
        (Tick(true), Due::Nothing),
        (Heard, Due::Nothing),
        (Tick(true), Due::Gone),
        (Tick(true), Due::Gone),
        (Tick(true), Due::Nothing),
    ],
    // leaving late: the quiet ticks become too many first
    &[
        (Tick(true), Due::Nothing),
        (Tick(true), Due::Ping),
        (Leaving, Due::Nothing),
        (Heard, Due::Nothing),
        (Tick(true), Due::Nothing),
        (Tick(true), Due::Gone),
    ],
];

/// The place of the first call that makes something else due.
fn first_other(rows: &[(Call, Due)]) -> Option<usize> {
    let mut quiet = Quiet::new(2, 4, 3);
    for (place, (call, due)) in rows.iter().enumerate() {
        if make(&mut quiet, *call) != *due {
            return Some(place);
        }
    }
    None
}

/// The place of the first list of calls in which something else is due.
fn first_wrong(rows: &[&[(Call, Due)]]) -> Option<usize> {
    rows.iter().position(|row| first_other(row).is_some())
}

#[test]
fn pings_and_ends(rt: HostRuntime) {
    assert_eq!(rt; first_wrong(ROWS), None);
}

/// The plain program: counts the ticks of all calls so far anew.
fn plain_due(calls: &[Call]) -> Due {
    let can_ping = match calls.last() {
        Some(Tick(can_ping)) => *can_ping,
        _ => return Due::Nothing,
    };
    let leaving = calls.iter().position(|call| matches!(call, Leaving));
    let heard = calls[..leaving.unwrap_or(calls.len())]
        .iter()
        .rposition(|call| matches!(call, Heard));
    let quiet_ticks = ticks_in(&calls[heard.unwrap_or(0)..]);
    match leaving {
        Some(place) if ticks_in(&calls[place..]) == 3 => Due::Gone,
        _ if quiet_ticks == 4 => Due::Gone,
        None if can_ping && quiet_ticks == 2 => Due::Ping,
        _ => Due::Nothing,
    }
}

fn ticks_in(calls: &[Call]) -> usize {
    calls.iter().filter(|call| matches!(call, Tick(_))).count()
}

const CALLS: &[Call; 4] = &[Heard, Leaving, Tick(false), Tick(true)];

/// Whether each of these calls makes due what the plain program says.
fn agrees(calls: &[Call]) -> bool {
    let mut quiet = Quiet::new(2, 4, 3);
    for (place, call) in calls.iter().enumerate() {
        if make(&mut quiet, *call) != plain_due(&calls[..place + 1]) {
            return false;
        }
    }
    true
}

/// The first seven calls on which the two differ.
fn first_difference() -> Option<usize> {
    (0..16_384usize).find(|number| {
        let calls = [
            CALLS[*number % 4],
            CALLS[*number / 4 % 4],
            CALLS[*number / 16 % 4],
            CALLS[*number / 64 % 4],
            CALLS[*number / 256 % 4],
            CALLS[*number / 1_024 % 4],
            CALLS[*number / 4_096],
        ];
        !agrees(&calls)
    })
}

#[test]
fn ticks_counted_anew_make_the_same_due(rt: HostRuntime) {
    assert_eq!(rt; first_difference(), None);
}

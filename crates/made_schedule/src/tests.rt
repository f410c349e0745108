use super::*;
use link_trait::Act;
use mem_net::MemNet;
use std::alloc::{AllocError, Global};
use std::test::*;

/// The lines of the request, each ended by CR LF; an empty line follows them.
const LINES: &[&[u8]] = &[
    b"GET /room/m HTTP/1.1",
    b"Host: a",
    b"Upgrade: websocket",
    b"Connection: Upgrade",
    b"Sec-WebSocket-Key: dGhlIHNhbXBsZSBub25jZQ==",
    b"Sec-WebSocket-Version: 13",
    b"",
];

/// An act, as the plain program has it.
#[derive(Clone, Copy)]
enum Plain {
    Arrive(u64),
    Head(u64),
    Message(u64, [u8; 22]),
    Turn,
}

/// Whether these octets are the request: its lines, one after another, and nothing behind them.
fn is_head(octets: &[u8]) -> bool {
    let mut rest = octets;
    'lines: for line in LINES {
        match rest
            .strip_prefix(*line)
            .and_then(|rest| rest.strip_prefix(b"\r\n"))
        {
            Some(behind) => rest = behind,
            None => return false,
        }
    }
    rest.is_empty()
}

fn is_plain(act: &Act, plain: Plain) -> bool {
    match (act, plain) {
        (Act::Arrive { conn, credit }, Plain::Arrive(number)) => {
            conn.0 == number && credit.is_none()
        }
        (Act::Octets { conn, octets }, Plain::Head(number)) => {
            conn.0 == number && is_head(octets.octets())
        }
        (Act::Octets { conn, octets }, Plain::Message(number, sent)) => {
            conn.0 == number && octets.octets() == sent.as_slice()
        }
        (Act::Turn, Plain::Turn) => true,
        _ => false,
    }
}

/// The plain program: so many steps from the seed on, each in numbers that are wide enough.
fn plain_state(seed: u64, steps: usize) -> u64 {
    let mut state = seed;
    'steps: for _ in 0..steps {
        let wide = state as u128 * 6_364_136_223_846_793_005 + 1_442_695_040_888_963_407;
        state = (wide % 18_446_744_073_709_551_616) as u64;
    }
    state
}

/// The plain program: a frame octet by octet.
fn plain_octets(state: u64) -> [u8; 22] {
    let mut octets = [0; 22];
    octets[0] = 0x81;
    octets[1] = 0x90;
    octets[2] = (state / 16_777_216 % 256) as u8;
    octets[3] = (state / 65_536 % 256) as u8;
    octets[4] = (state / 256 % 256) as u8;
    octets[5] = (state % 256) as u8;
    let mut left = state;
    'digits: for place in 0..16usize {
        let digit = b"0123456789abcdef"[(left % 16) as usize];
        octets[21 - place] = digit ^ octets[5 - place % 4];
        left /= 16;
    }
    octets
}

/// The plain program: the act at a place, counted from 0.
fn plain_act(seed: u64, place: usize) -> Plain {
    if place < 128 {
        let number = place as u64 / 2 + 1;
        return if place % 2 == 0 {
            Plain::Arrive(number)
        } else {
            Plain::Head(number)
        };
    }
    if place == 128 || (place - 129) % 17 == 16 {
        return Plain::Turn;
    }
    let before = (place - 129) / 17 * 16 + (place - 129) % 17;
    let state = plain_state(seed, before.saturating_add(1));
    Plain::Message(state / 288_230_376_151_711_744 + 1, plain_octets(state))
}

/// How many acts the seed makes, and the place of the first that is not the plain program's.
fn compared(alloc: Global, seed: u64) -> Result<(usize, Option<usize>), AllocError> {
    let schedule = made(alloc, seed)?;
    let acts = schedule.acts();
    for (place, act) in acts.iter().enumerate() {
        if !is_plain(act, plain_act(seed, place)) {
            return Ok((acts.len(), Some(place)));
        }
    }
    Ok((acts.len(), None))
}

#[test]
fn each_act_is_that_of_the_plain_program(rt: HostRuntime) -> Result<(), Fail> {
    for seed in [0, 7, u64::MAX] {
        assert_eq!(rt; compared(rt.alloc(), seed)?, (8_629, None));
    }
    Ok(())
}

/// Some acts of seed 7, with the octets as another program wrote them.
const OF_SEVEN: &[(usize, Plain)] = &[
    (0, Plain::Arrive(1)),
    (1, Plain::Head(1)),
    (126, Plain::Arrive(64)),
    (127, Plain::Head(64)),
    (128, Plain::Turn),
    (
        129,
        Plain::Message(
            32,
            *b"\x81\x90\x0f\x7d\xfb\x8a\x38\x18\xcf\xb9\x3d\x45\x99\xe9\x3f\x1b\xcc\xee\x69\x1f\xc3\xeb",
        ),
    ),
    (
        130,
        Plain::Message(
            62,
            *b"\x81\x90\x8f\xa8\x2e\x91\xe9\x9c\x4f\xa7\xbe\xc9\x19\xf7\xb7\xce\x4f\xa9\xbd\xcd\x17\xa0",
        ),
    ),
    (145, Plain::Turn),
    (
        8_627,
        Plain::Message(
            7,
            *b"\x81\x90\x52\xaa\x2f\x47\x63\x93\x4a\x74\x63\x9e\x1a\x23\x67\x98\x4e\x26\x60\xcc\x1b\x70",
        ),
    ),
    (8_628, Plain::Turn),
];

/// The first of these rows that is not so.
fn first_other(acts: &[Act], rows: &[(usize, Plain)]) -> Option<usize> {
    rows.iter().position(|(place, plain)| !acts
        .get(*place)
        .is_some_and(|act| is_plain(act, *plain)))
}

#[test]
fn acts_of_seed_7(rt: HostRuntime) -> Result<(), Fail> {
    let schedule = made(rt.alloc(), 7)?;
    assert_eq!(rt; first_other(schedule.acts(), OF_SEVEN), None);
    let net = MemNet::new(rt.alloc(), schedule)?;
    assert!(rt; net.whole());
    Ok(())
}

#[test]
fn a_summary_is_one_line(rt: HostRuntime) -> Result<(), Fail> {
    let summary = Summary {
        turns: 1,
        connections: 20,
        messages: 300,
        items: 4_000,
        octets: 50_000,
        dropped: 0,
        sum: u64::MAX,
    };
    let line = summary.line(rt.alloc(), 7)?;
    assert_eq!(rt;
        line.as_slice(),
        b"made 7: turns 1 connections 20 messages 300 items 4000 octets 50000 dropped 0 sum 18446744073709551615\n".as_slice()
    );
    Ok(())
}

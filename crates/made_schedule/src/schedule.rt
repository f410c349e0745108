//! The acts in order.

ghost use Rattle.std.specs.Prelude.{◌≡◌, ◌++◌, ◌∷◌, [], true, length, IfOk, OnOk};
ghost use Rattle.mem_net.specs.Schedule.{is_sound};
ghost use Rattle.made_schedule.specs.Generator.{state_after};
ghost use Rattle.made_schedule.specs.Made.{made_acts, opening, openings, room_head, round, rounds};

use crate::generator::Generator;
use crate::message::message;
use link_trait::Act;
use mem_net::Schedule;
use std::alloc::{AllocError, Global};
use ws_kinds::{Bytes, Conn};

/// How many connections come.
const CONNECTIONS: u64 = 64;

/// How many rounds there are, and how many messages in each.
const ROUNDS: usize = 500;

const MESSAGES: usize = 16;

const ROOM_HEAD: &[u8; 146] =
    b"GET /room/m HTTP/1.1\r\nHost: a\r\nUpgrade: websocket\r\nConnection: Upgrade\r\nSec-WebSocket-Key: dGhlIHNhbXBsZSBub25jZQ==\r\nSec-WebSocket-Version: 13\r\n\r\n";

/// The schedule of a seed: 64 connections come and ask for the room `m`, a turn ends, and then 500 rounds of sixteen messages
/// and a turn's end follow. Each message is sent by the connection that a linear congruential generator chooses, and says the
/// generator's state.
///
/// A net in memory can follow it. It has 8,629 acts. An error says that there was too little memory.
pub fn made(alloc: Global, seed: u64) -> Result<Schedule, AllocError>
    ensures acts { IfOk result (λ schedule. schedule ≡ made_acts seed) }
    ensures sound { IfOk result (λ schedule. is_sound schedule ≡ true) }
    ensures count { IfOk result (λ schedule. length schedule ≡ 8629) }
{
    let mut schedule = Schedule::new(alloc);
    push_openings(alloc, &mut schedule)?;
    schedule.push(Act::Turn)?;
    push_rounds(alloc, &mut schedule, seed)?;
    Ok(schedule)
}

/// Puts the acts of all connections at the end.
fn push_openings(alloc: Global, schedule: &mut Schedule) -> Result<(), AllocError>
    ensures { OnOk result (schedule.new ≡ schedule.old ++ openings 64) }
{
    'connections: for before in 0..CONNECTIONS {
        push_opening(alloc, schedule, Conn(before + 1))?;
    }
    Ok(())
}

fn push_opening(alloc: Global, schedule: &mut Schedule, conn: Conn) -> Result<(), AllocError>
    ensures { OnOk result (schedule.new ≡ schedule.old ++ opening conn.0) }
{
    schedule.push(Act::Arrive { conn, credit: None })?;
    let octets = Bytes::of(alloc, room_head())?;
    schedule.push(Act::Octets { conn, octets })
}

/// The request for an upgrade in the room `m`.
fn room_head() -> &'static [u8]
    ensures { result.now ≡ room_head }
{
    ROOM_HEAD
}

/// Puts the acts of all rounds at the end.
fn push_rounds(alloc: Global, schedule: &mut Schedule, seed: u64) -> Result<(), AllocError>
    ensures { OnOk result (schedule.new ≡ schedule.old ++ rounds 500 seed) }
{
    let mut generator = Generator { state: seed };
    'rounds: for _ in 0..ROUNDS {
        push_round(alloc, schedule, &mut generator)?;
    }
    Ok(())
}

fn push_round(
    alloc: Global,
    schedule: &mut Schedule,
    generator: &mut Generator,
) -> Result<(), AllocError>
    ensures acts { OnOk result (schedule.new ≡ schedule.old ++ round generator.old.state) }
    ensures state { OnOk result (generator.new.state ≡ state_after 16 generator.old.state) }
{
    'messages: for _ in 0..MESSAGES {
        schedule.push(message(alloc, generator.step())?)?;
    }
    schedule.push(Act::Turn)
}

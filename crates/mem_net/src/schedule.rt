//! What happens on a net in memory, written down beforehand.

ghost use Rattle.std.specs.Prelude.{◌≡◌};
ghost use Rattle.mem_net.specs.Schedule as spec;

use link_trait::Act;
use std::alloc::{AllocError, Global};
use std::marker::Model;

/// The most octets of one act.
const MOST_OCTETS: usize = 8_192;

/// The greatest number of a connection.
const LAST_NUMBER: u64 = 4_294_967_295;

/// A list of acts, in the order in which they happen.
#[derive(Drop)]
pub struct Schedule {
    acts: Vec<Act>,
}

impl Model for Schedule {
    ghost use Rattle.std.specs.Prelude.{List};
    ghost use Rattle.link_trait.specs.declared.act.Act.{Act};

    ghost Value = { List Act };

    ghost view = { λ schedule. schedule.acts.items };
}

impl Schedule {
    ghost use Rattle.std.specs.Prelude.{◌≡◌, [], ◌∷◌, ◌++◌, OnOk, OnErr};
    ghost use Rattle.mem_net.specs.Schedule.{is_sound};

    /// No acts.
    pub fn new(alloc: Global) -> Schedule
        ensures { result ≡ [] }
    {
        Schedule {
            acts: Vec::new(alloc),
        }
    }

    /// Puts an act at the end. An error says that there was too little memory, and leaves the schedule as it was.
    pub fn push(&mut self, act: Act) -> Result<(), AllocError>
        ensures pushed { OnOk result (self.new ≡ self.old ++ act ∷ []) }
        ensures unchanged { OnErr result (self.new ≡ self.old) }
    {
        self.acts.push(act)?;
        Ok(())
    }

    /// Whether a net in memory can follow it:
    ///
    /// - connections have numbers from 1 to 4,294,967,295, and each arrives with a greater one than all before;
    /// - every other act names a connection that arrived before it;
    /// - an act sends from 1 to 8,192 octets, and gives room for at least 1;
    /// - after the end of a connection's octets, or a fault of its reads, come no octets, no end and no fault.
    ///
    /// It takes no memory, and time that grows with the square of the number of acts.
    pub fn sound(&self) -> bool
        ensures { result ≡ is_sound self.now }
    {
        'acts: for place in 0..self.acts.len() {
            if !is_sound_after(&self.acts[..place], &self.acts[place]) {
                return false;
            }
        }
        true
    }

    /// The acts, in order.
    pub fn acts(&self) -> &[Act]
        ensures { result.now ≡ self.now }
    {
        &self.acts
    }
}

fn is_arrival(act: &Act, conn: u64) -> bool
    ensures { result ≡ spec.is_arrival conn act.now }
{
    match act {
        Act::Arrive { conn: other, .. } => other.0 == conn,
        _ => false,
    }
}

fn is_below(act: &Act, conn: u64) -> bool
    ensures { result ≡ spec.is_below conn act.now }
{
    match act {
        Act::Arrive { conn: other, .. } => other.0 < conn,
        _ => true,
    }
}

fn is_ending(act: &Act, conn: u64) -> bool
    ensures { result ≡ spec.is_ending conn act.now }
{
    match act {
        Act::End(other) | Act::ReadFails(other) => other.0 == conn,
        _ => false,
    }
}

fn is_number(conn: u64) -> bool
    ensures { result ≡ spec.is_number conn }
{
    1 <= conn && conn <= LAST_NUMBER
}

fn is_rising(acts: &[Act], conn: u64) -> bool
    ensures { result ≡ spec.is_rising acts.now conn }
{
    acts.iter().all(|act| is_below(act, conn))
}

fn has_arrived(acts: &[Act], conn: u64) -> bool
    ensures { result ≡ spec.has_arrived acts.now conn }
{
    acts.iter().any(|act| is_arrival(act, conn))
}

fn has_ended(acts: &[Act], conn: u64) -> bool
    ensures { result ≡ spec.has_ended acts.now conn }
{
    acts.iter().any(|act| is_ending(act, conn))
}

fn can_send(acts: &[Act], conn: u64) -> bool
    ensures { result ≡ spec.can_send acts.now conn }
{
    has_arrived(acts, conn) && !has_ended(acts, conn)
}

fn is_sound_after(acts: &[Act], act: &Act) -> bool
    ensures { result ≡ spec.is_sound_after acts.now act.now }
{
    match act {
        Act::Arrive { conn, .. } => is_number(conn.0) && is_rising(acts, conn.0),
        Act::Octets { conn, octets } => {
            let count = octets.octets().len();
            is_number(conn.0) && can_send(acts, conn.0) && 1 <= count && count <= MOST_OCTETS
        }
        Act::End(conn) | Act::ReadFails(conn) => is_number(conn.0) && can_send(acts, conn.0),
        Act::Room { conn, more } => is_number(conn.0) && has_arrived(acts, conn.0) && 1 <= *more,
        Act::WriteFails(conn) => is_number(conn.0) && has_arrived(acts, conn.0),
        Act::Tick | Act::Turn => true,
    }
}

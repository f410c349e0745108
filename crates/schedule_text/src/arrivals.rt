//! What is kept of the acts so far.

use crate::fault::Fault;
use link_trait::Act;
use std::alloc::{AllocError, Global};
use std::collections::BTreeMap;
use ws_kinds::Conn;

/// The connections that arrived, and whether the octets of each ended.
#[derive(Drop)]
pub(crate) struct Arrivals {
    last: u64,
    ended: BTreeMap<u64, bool>,
}

impl Arrivals {
    ghost use Rattle.std.specs.Prelude.{◌≡◌, ◌≤◌, ◌++◌, [], ◌∷◌, List, None, OnOk};
    ghost use Rattle.link_trait.specs.declared.act.Act.{Act};
    ghost use Rattle.schedule_text.specs.Spelling.{HasLine};
    ghost use Rattle.schedule_text.specs.Reading.{fault_after, rising_fault, sending_fault, naming_fault};
    ghost use Rattle.schedule_text.specs.Arrivals.{Follows, Arrives, Ends};

    /// None.
    pub(crate) fn new(alloc: Global) -> Arrivals
        ensures { Follows [] result }
    {
        Arrivals {
            last: 0,
            ended: BTreeMap::new(alloc),
        }
    }

    /// The first rule that an act breaks which follows the acts so far.
    pub(crate) fn fault(&self, act: &Act) -> Option<Fault>
        ensures { (acts : List Act) → HasLine act.now → Follows acts self.now → result ≡ fault_after acts act.now }
    {
        match act {
            Act::Arrive { conn, .. } => self.rising_fault(*conn),
            Act::Octets { conn, .. } => self.sending_fault(*conn),
            Act::End(conn) => self.sending_fault(*conn),
            Act::ReadFails(conn) => self.sending_fault(*conn),
            Act::Room { conn, .. } => self.naming_fault(*conn),
            Act::WriteFails(conn) => self.naming_fault(*conn),
            Act::Tick | Act::Turn => None,
        }
    }

    /// Whether the number of a connection that arrives is too small.
    fn rising_fault(&self, conn: Conn) -> Option<Fault>
        ensures { (acts : List Act) → 1 ≤ conn.0 → Follows acts self.now → result ≡ rising_fault acts conn.0 }
    {
        if self.last < conn.0 {
            return None;
        }
        Some(Fault::NotRising)
    }

    /// Whether a connection did not arrive, or its octets ended.
    fn sending_fault(&self, conn: Conn) -> Option<Fault>
        ensures { (acts : List Act) → Follows acts self.now → result ≡ sending_fault acts conn.0 }
    {
        match self.ended.get(&conn.0) {
            None => Some(Fault::UnknownConn),
            Some(true) => Some(Fault::AfterEnd),
            Some(false) => None,
        }
    }

    /// Whether a connection did not arrive.
    fn naming_fault(&self, conn: Conn) -> Option<Fault>
        ensures { (acts : List Act) → Follows acts self.now → result ≡ naming_fault acts conn.0 }
    {
        match self.ended.get(&conn.0) {
            None => Some(Fault::UnknownConn),
            Some(_) => None,
        }
    }

    /// Puts an act behind those so far, which breaks no rule. After an error nothing is known.
    pub(crate) fn add(&mut self, act: &Act) -> Result<(), AllocError>
        ensures { (acts : List Act) → HasLine act.now → Follows acts self.old → fault_after acts act.now ≡ None → OnOk result (Follows (acts ++ act.now ∷ []) self.new) }
    {
        match act {
            Act::Arrive { conn, .. } => self.arrive(*conn),
            Act::End(conn) => self.end(*conn),
            Act::ReadFails(conn) => self.end(*conn),
            Act::Octets { .. } => Ok(()),
            Act::Room { .. } => Ok(()),
            Act::WriteFails(_) => Ok(()),
            Act::Tick => Ok(()),
            Act::Turn => Ok(()),
        }
    }

    /// A connection arrives, with a greater number than all before.
    fn arrive(&mut self, conn: Conn) -> Result<(), AllocError>
        ensures { OnOk result (Arrives conn.0 self.old self.new) }
    {
        self.ended.insert(conn.0, false)?;
        self.last = conn.0;
        Ok(())
    }

    /// Ends the octets of a connection.
    fn end(&mut self, conn: Conn) -> Result<(), AllocError>
        ensures { OnOk result (Ends conn.0 self.old self.new) }
    {
        self.ended.insert(conn.0, true)?;
        Ok(())
    }
}

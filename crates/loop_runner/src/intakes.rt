//! What stands beside the hub for each connection.

ghost use Rattle.std.specs.Prelude.{◌≡◌, ◌≤◌, ℕ, None, if◌then◌else◌, OnOk, OnErr, option_copied};
ghost use Rattle.std.specs.Borrow.{sem};
ghost use Rattle.std.specs.Option.{option_copied_mut};
ghost use Rattle.std.specs.BTreeMap.{btree_map_len};
ghost use Rattle.hub_lines.specs.State.{has_entry};
ghost use Rattle.loop_runner.specs.Intakes.{max_of, intake_at, IsNew, ChangesIntake, SameIntakes, LendsIntake};

use frame_reader::Reader;
use hub_core::Hub;
use std::alloc::{AllocError, Global};
use std::collections::BTreeMap;
use ws_kinds::{Conn, Name};

/// The reader of a connection, and the route that it was opened on.
#[derive(Drop)]
pub struct Intake {
    /// Reads the octets that came.
    pub reader: Reader,
    /// The number of the route, and 0 before the connection is open.
    pub route: u8,
    /// The parameter of the route, and nothing before the connection is open.
    pub param: Name,
}

/// The intakes of the connections that are admitted to it.
#[derive(Drop)]
pub struct Intakes {
    alloc: Global,
    max_message: u32,
    all: BTreeMap<u64, Intake>,
}

impl Intakes {
    /// No intakes. The readers of those that will be admitted read messages of at most `max_message` octets.
    pub fn new(alloc: Global, max_message: u32) -> Intakes
        requires least { 1 ≤ max_message }
        requires most { max_message ≤ 65536 }
        ensures max { max_of result ≡ max_message }
        ensures none { (conn : ℕ) → intake_at result conn ≡ None }
    {
        Intakes {
            alloc,
            max_message,
            all: BTreeMap::new(alloc),
        }
    }

    /// Admits a connection: it has a new intake. An error says that there was too little memory, and leaves all as it was.
    pub fn admit(&mut self, conn: Conn) -> Result<(), AllocError>
        ensures admitted { OnOk result (IsNew (max_of self.old) (intake_at self.new conn.0)) }
        ensures others { OnOk result (ChangesIntake conn.0 self.old self.new) }
        ensures refused { OnErr result (SameIntakes self.old self.new) }
    {
        let reader = Reader::new(self.alloc, self.max_message)?;
        let intake = Intake {
            reader,
            route: 0,
            param: Name::new(),
        };
        match self.all.insert(conn.0, intake) {
            Ok(_) => Ok(()),
            Err(_) => Err(AllocError),
        }
    }

    /// The intake of a connection. None exactly where it is not admitted.
    pub fn of(&mut self, conn: Conn) -> Option<&mut Intake>
        ensures* lent { sem 𝓛 (LendsIntake self.entry conn.0 result) }
        ensures value { option_copied_mut result ≡ intake_at self.old conn.0 }
    {
        self.all.get_mut(&conn.0)
    }

    /// The intake of a connection, to be read. None exactly where it is not admitted.
    pub fn at(&self, conn: Conn) -> Option<&Intake>
        ensures { option_copied result ≡ intake_at self.now conn.0 }
    {
        self.all.get(&conn.0)
    }

    /// How many there are.
    pub fn count(&self) -> usize
        ensures { result ≡ btree_map_len self.now.all }
    {
        self.all.len()
    }

    /// A connection has no intake any more.
    pub fn shut(&mut self, conn: Conn)
        ensures shut { intake_at self.new conn.0 ≡ None }
        ensures others { ChangesIntake conn.0 self.old self.new }
    {
        self.all.remove(&conn.0);
    }

    /// Each connection that is no entry of the hub has no intake any more.
    pub(crate) fn keep_entries(&mut self, hub: &Hub)
        ensures max { max_of self.new ≡ max_of self.old }
        ensures kept { (conn : ℕ) → intake_at self.new conn ≡ (if has_entry hub.now.entries conn then intake_at self.old conn else None) }
    {
        self.all.retain(|conn, _| hub.phase(Conn(*conn)).is_some());
    }
}

//! One connection of a net in memory.

ghost use Rattle.std.specs.Prelude.{◌≡◌, min, take, length};
ghost use Rattle.mem_net.specs.LinkState.{counted, gained, room_for};

use link_trait::{NetRead, NetWrote};
use std::alloc::{AllocError, Global};
use std::marker::Model;

/// What a read answers once all octets that came were read.
#[derive(Clone, Copy, Debug, PartialEq, Eq)]
pub(crate) enum Finish {
    /// More may come.
    Later,
    End,
    Failed,
}

/// What an act changes of the writes of a connection.
#[derive(Clone, Copy, Debug, PartialEq, Eq)]
pub(crate) enum Change {
    /// The link takes so many octets more.
    Gains(u32),
    /// Writes fail from now on.
    Fails,
}

/// What the peer of a connection sends, how far it came and was read, and what the connection's link takes and took.
#[derive(Drop)]
pub(crate) struct MemLink {
    octets: Vec<u8>,
    came: usize,
    read: usize,
    finish: Finish,
    answered: bool,
    live: bool,
    due: bool,
    ended: bool,
    broken: bool,
    credit: Option<u64>,
    failing: bool,
    writable: bool,
    taken: Vec<u8>,
    writes: Vec<(usize, usize)>,
}

impl Model for MemLink {
    ghost use Rattle.std.specs.Prelude.{◌≤◌, length, take, drop};
    ghost use Rattle.mem_net.specs.LinkState.{LinkState};

    ghost Value = { LinkState };

    ghost view = { λ link. record {
      given = take link.read link.octets.items;
      waiting = drop link.read (take link.came link.octets.items);
      coming = drop link.came link.octets.items;
      finish = link.finish;
      answered = link.answered;
      live = link.live;
      due = link.due;
      ended = link.ended;
      broken = link.broken;
      credit = link.credit;
      failing = link.failing;
      writable = link.writable;
      taken = link.taken.items;
      writes = link.writes.items;
    } };

    ghost invariant = { λ link. (link.read ≤ link.came) × (link.came ≤ length link.octets.items) };
}

/// Copies the front of `octets`, as many as fit, to the front of `room`, and answers how many.
fn copy_front(room: &mut [u8], octets: &[u8]) -> usize
    ensures count { result ≡ min (length room.old) (length octets.now) }
    ensures front { take result room.new ≡ take result octets.now }
{
    let count = room.len().min(octets.len());
    room[..count].copy_from_slice(&octets[..count]);
    count
}

/// The credit that an act gives to a link, as the link counts it.
fn counted(credit: Option<u32>) -> Option<u64>
    ensures { result ≡ counted credit }
{
    match credit {
        None => None,
        Some(octets) => Some(u64::from(octets)),
    }
}

/// The credit of a link that gains so much.
fn gain(credit: Option<u64>, more: u32) -> Option<u64>
    ensures { result ≡ gained more credit }
{
    credit.map(|octets| octets.saturating_add(u64::from(more)))
}

/// How many of so many octets a link takes by its credit, once it took so many.
fn room_for(len: usize, credit: Option<u64>, taken: usize) -> usize
    ensures { result ≡ room_for len credit taken }
{
    match credit {
        None => len,
        Some(octets) => len.min(octets.saturating_sub(taken as u64) as usize),
    }
}

impl MemLink {
    ghost use Rattle.std.specs.Prelude.{◌≡◌, ◌≤◌, ◌<◌, ◌^◌, ◌++◌, [], ◌∷◌, true, false, length, take, drop, OnOk, OnErr};
    ghost use Rattle.mem_net.specs.LinkState.{new_link, is_ready, is_untold, arrives, comes, finishes, changes, tells, shuts, LinkReads, LinkWrites};

    /// A connection that has not come yet, and whose peer sends nothing.
    pub(crate) fn new(alloc: Global) -> MemLink
        ensures { result ≡ new_link [] }
    {
        MemLink {
            octets: Vec::new(alloc),
            came: 0,
            read: 0,
            finish: Finish::Later,
            answered: false,
            live: false,
            due: false,
            ended: false,
            broken: false,
            credit: Some(0),
            failing: false,
            writable: true,
            taken: Vec::new(alloc),
            writes: Vec::new(alloc),
        }
    }

    /// The peer will send these octets after those that it sends already.
    pub(crate) fn sends(&mut self, octets: &[u8]) -> Result<(), AllocError>
        ensures sends { OnOk result (self.new ≡ record self.old { coming = self.old.coming ++ octets.now }) }
        ensures unchanged { OnErr result (self.new ≡ self.old) }
    {
        self.octets.extend_from_slice(octets)
    }

    /// The connection comes, and its link takes so many octets.
    pub(crate) fn arrive(&mut self, credit: Option<u32>)
        ensures { self.new ≡ arrives credit self.old }
    {
        self.live = true;
        self.credit = counted(credit);
    }

    /// So many of the octets that are coming have come. Answers whether Readable is to be told.
    pub(crate) fn come(&mut self, count: usize) -> bool
        requires { count ≤ length self.old.coming }
        ensures tells { result ≡ self.old.live }
        ensures came { self.new ≡ comes count self.old }
    {
        self.came += count;
        self.due = self.due | self.live;
        self.live
    }

    /// Nothing comes any more: once all is read, a read answers this. Answers whether Readable is to be told.
    pub(crate) fn finish(&mut self, finish: Finish) -> bool
        ensures tells { result ≡ self.old.live }
        ensures finished { self.new ≡ finishes finish self.old }
    {
        self.finish = finish;
        self.due = self.due | self.live;
        self.live
    }

    /// What it takes changes. Answers whether Writable is to be told.
    pub(crate) fn change(&mut self, change: Change) -> bool
        ensures tells { result ≡ self.old.live }
        ensures changed { self.new ≡ changes change self.old }
    {
        self.writable = self.writable | self.live;
        match change {
            Change::Gains(more) => {
                self.credit = gain(self.credit, more);
                self.live
            }
            Change::Fails => {
                self.failing = true;
                self.live
            }
        }
    }

    /// Whether Accept was told of it and it was not shut.
    pub(crate) fn is_live(&self) -> bool
        ensures { result ≡ self.now.live }
    {
        self.live
    }

    /// Whether a read gives octets, the end or a fault that no read has answered yet.
    pub(crate) fn is_ready(&self) -> bool
        ensures { result ≡ is_ready self.now }
    {
        if self.read < self.came {
            return true;
        }
        !self.answered && self.finish != Finish::Later
    }

    /// Whether Readable is to be told of it.
    pub(crate) fn is_untold(&self) -> bool
        ensures { result ≡ is_untold self.now }
    {
        self.live && self.is_ready() && !self.due
    }

    /// Readable is told of it.
    pub(crate) fn tell(&mut self)
        ensures { self.new ≡ tells self.old }
    {
        self.due = true;
    }

    /// Reads what waits, and then what it finishes with.
    pub(crate) fn read(&mut self, room: &mut [u8]) -> NetRead
        requires { 0 < length room.old }
        ensures { LinkReads room.new result self.old self.new }
    {
        self.due = false;
        if self.read < self.came {
            let count = copy_front(room, &self.octets[self.read..self.came]);
            self.read += count;
            return NetRead::Octets(count);
        }
        match self.finish {
            Finish::Later => NetRead::Later,
            Finish::End => {
                self.answered = true;
                self.ended = true;
                NetRead::End
            }
            Finish::Failed => {
                self.answered = true;
                self.broken = true;
                NetRead::Failed
            }
        }
    }

    /// Whether its writes fail by an act.
    pub(crate) fn is_failing(&self) -> bool
        ensures { result ≡ self.now.failing }
    {
        self.failing
    }

    /// Takes the front of these octets, as many as its credit leaves room for. It fails where an act says so, or where there is too
    /// little memory: nothing was taken.
    pub(crate) fn write(&mut self, octets: &[u8]) -> NetWrote
        ensures writes { LinkWrites octets.now result self.old self.new }
        ensures few { length self.new.taken < 2 ^ 63 }
    {
        if self.failing {
            self.broken = true;
            return NetWrote::Failed;
        }
        let before = self.taken.len();
        let count = room_for(octets.len(), self.credit, before);
        if self.taken.extend_from_slice(&octets[..count]).is_err() {
            self.broken = true;
            return NetWrote::Failed;
        }
        if self.writes.push((octets.len(), count)).is_err() {
            self.taken.truncate(before);
            self.broken = true;
            return NetWrote::Failed;
        }
        self.writable = self.writable & (octets.len() <= count);
        NetWrote::Took(count)
    }

    /// The connection is shut.
    pub(crate) fn shut(&mut self)
        ensures { self.new ≡ shuts self.old }
    {
        self.live = false;
    }

    /// The octets taken.
    pub(crate) fn taken(&self) -> &[u8]
        ensures { result.now ≡ self.now.taken }
    {
        &self.taken
    }
}

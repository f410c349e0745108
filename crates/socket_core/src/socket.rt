//! A connection's socket.

ghost use Rattle.std.specs.Prelude.{◌≡◌, ◌≢◌, ◌≤◌, ◌+◌, [], ◌∷◌, ◌&&◌, true, false, Some, nat_lt, length, IfOk};
ghost use Rattle.idle_close.specs.QuietValue.{is_ping, is_gone as is_end};
ghost use Rattle.run_meaning.specs.Lines.{is_open};
ghost use Rattle.run_meaning.specs.Timely.{is_ping_due, is_end_due};
ghost use Rattle.hub_lines.specs.Told.{WritesAreNoted};
ghost use Rattle.hub_lines.specs.State.{new_entry, most_held, is_gone as is_gone_phase};
ghost use Rattle.socket_core.specs.Items.{octets_of, can_drop, IsPuttable};
ghost use Rattle.socket_core.specs.Phases.{can_enter, entered};
ghost use Rattle.socket_core.specs.Timed.{counts_of, heard_socket, ticked_socket};
ghost use Rattle.socket_core.specs.Puts.{CountsRinged, OffersOnce, PassesOctets, is_drop};

use crate::item::{Item, spell};
use crate::offering::{hand_over, kept, offer_parts};
use backlog::Ring;
use idle_close::{Due, Quiet};
use link_trait::{Net, Outside};
use std::alloc::{AllocError, Global};
use std::marker::Model;
use ws_kinds::{Config, Conn, Note, Phase, Watch};

/// What became of an item that was put.
#[derive(Clone, Copy, Debug, PartialEq, Eq)]
pub enum Kept {
    /// Nothing is held back for the connection.
    Clear,
    /// So many octets are held back, at least 1.
    Backlog(u64),
    /// The item was dropped, while so many octets were held back.
    Dropped(u64),
    /// A write of this call failed.
    Failed,
}

/// One connection: its phase, for how long it is quiet, the octets that its link did not take, and what is put for it. A contract
/// sees it as an entry of a hub.
///
/// An item is offered in one write. What the link did not take waits in a ring of fixed size, and while something waits there, items
/// are put behind it. An item that may be dropped is dropped whole while more waits than the limit.
#[derive(Drop)]
pub struct Socket {
    conn: Conn,
    config: Config,
    phase: Phase,
    quiet: Quiet,
    numbered: u64,
    // The octets of the item that was put last.
    octets: Vec<u8>,
    ring: Ring,
}

impl Model for Socket {
    ghost use Rattle.std.specs.Prelude.{vec_capacity};
    ghost use Rattle.hub_lines.specs.State.{Entry};
    ghost use Rattle.socket_core.specs.Timed.{IsSocket, quiet_of};

    ghost Value = { Entry };

    ghost view = { λ socket. record {
      conn = socket.conn.0;
      config = socket.config;
      phase = socket.phase;
      numbered = socket.numbered;
      ring = socket.ring.octets;
      quiet = quiet_of socket.quiet;
    } };

    ghost invariant = { λ socket. IsSocket socket.config socket.phase (vec_capacity socket.octets) socket.ring socket.quiet };
}

impl Socket {
    /// The socket of a connection that was just accepted: in phase Head, with no item put. It takes memory for one item and
    /// for all that may be held back, and no later call takes any. An error says that there was too little.
    pub fn new(alloc: Global, conn: Conn, config: &Config) -> Result<Socket, AllocError>
        ensures { IfOk result (λ socket. socket ≡ new_entry config.now conn.0) }
    {
        let longest = config.max_message() as usize + 256;
        let most = config.limit() as usize + config.max_message() as usize + 512;
        Ok(Socket {
            conn,
            config: *config,
            phase: Phase::Head,
            quiet: Quiet::new(config.ping_after(), config.idle(), config.leave()),
            numbered: 0,
            octets: Vec::with_capacity(alloc, longest)?,
            ring: Ring::new(alloc, most)?,
        })
    }

    /// Puts an item, which gets the connection's next index, counted from 0.
    ///
    /// One that may be dropped is dropped where more octets are held back than the limit, and this is noted. Else it is offered in
    /// one write where nothing is held back; what the link took is noted, and the rest is held back. Where something is held back,
    /// the item is put behind it, and nothing is offered. An item that may not be dropped fits behind what is held back.
    ///
    /// Where the write fails, the answer is `Failed`, and nothing is noted; the net counted the fault.
    pub fn put_frame<N: Net, W: Watch>(&mut self, out: &mut Outside<N, W>, item: Item<'_>) -> Kept
        requires live { (N.state out.old.net).live self.old.conn ≡ true }
        requires item { IsPuttable self.old.config self.old.numbered item }
        requires room { can_drop item ≡ false → length self.old.ring + length (octets_of item) ≤ most_held self.old.config }
        ensures passes { PassesOctets self.old.conn self.old.config.limit (can_drop item.entry) (octets_of item.entry ∷ []) result self.old self.new
            (N.state out.old.net) (N.state out.new.net) (W.told out.old.watch) (W.told out.new.watch) }

        // Each write that took is noted.
        ensures noted { WritesAreNoted (N.state out.old.net) (W.told out.old.watch) → WritesAreNoted (N.state out.new.net) (W.told out.new.watch) }

        // It is dropped exactly where it may be and more is held back than the limit.
        ensures dropped { is_drop result ≡ (can_drop item.entry && nat_lt self.old.config.limit (length self.old.ring)) }

        // Where nothing is held back, the item is offered in one write, and what that did not take is held back. Else nothing is
        // offered.
        ensures once { self.old.ring ≡ [] → OffersOnce result self.old.conn (octets_of item.entry) self.new.ring
            (N.state out.old.net) (N.state out.new.net) (W.told out.old.watch) (W.told out.new.watch) }
        ensures waits { self.old.ring ≢ [] → N.state out.new.net ≡ N.state out.old.net }

        // What is held back by this call is copied once, and nothing else is.
        ensures tally { CountsRinged self.old.ring self.new.ring out.old.tally out.new.tally }
    {
        let index = self.numbered;
        self.numbered = self.numbered.saturating_add(1);
        let held = self.ring_length();
        if item.can_drop() && self.is_over() {
            out.watch.note(&Note::Dropped {
                conn: self.conn,
                index,
                held,
            });
            return Kept::Dropped(held);
        }
        spell(&mut self.octets, item);
        hand_over(out, self.conn, &self.octets, &mut self.ring)
    }

    /// Offers what is held back, if anything is: the first part of the ring in one write, and the second part in another one where
    /// the first was taken whole. What the link took is noted.
    ///
    /// Where a write fails, the answer is `Failed`, and nothing more is offered; the net counted the fault.
    pub fn writable<N: Net, W: Watch>(&mut self, out: &mut Outside<N, W>) -> Kept
        requires { (N.state out.old.net).live self.old.conn ≡ true }
        ensures passes { PassesOctets self.old.conn self.old.config.limit false [] result self.old self.new
            (N.state out.old.net) (N.state out.new.net) (W.told out.old.watch) (W.told out.new.watch) }
        ensures noted { WritesAreNoted (N.state out.old.net) (W.told out.old.watch) → WritesAreNoted (N.state out.new.net) (W.told out.new.watch) }
        ensures waits { result ≢ Kept.Failed → self.new.ring ≢ [] → (N.state out.new.net).writable self.old.conn ≡ false }
    {
        if self.ring.length() == 0 {
            return Kept::Clear;
        }
        let (front, back) = self.ring.parts();
        match offer_parts(out, self.conn, front, back) {
            Some(count) => self.ring.gone(count),
            None => return Kept::Failed,
        }
        kept(&self.ring)
    }

    /// Whether more octets are held back than the limit.
    fn is_over(&self) -> bool
        ensures { result ≡ nat_lt self.now.config.limit (length self.now.ring) }
    {
        self.ring.length() > self.config.limit() as usize
    }

    /// The number of the connection.
    pub fn conn(&self) -> Conn
        ensures { result.0 ≡ self.now.conn }
    {
        self.conn
    }

    /// The phase of the connection. It is `Head` after `new`.
    pub fn phase(&self) -> Phase
        ensures { result ≡ self.now.phase }
    {
        self.phase
    }

    /// How many items were put, those that were dropped among them. The count stands still at 2^64 - 1.
    pub fn numbered(&self) -> u64
        ensures { result ≡ self.now.numbered }
    {
        self.numbered
    }

    /// How many octets are held back: those that its link did not take.
    pub fn ring_length(&self) -> u64
        ensures { result ≡ length self.now.ring }
    {
        self.ring.length() as u64
    }

    /// The connection goes on to a phase, to which a step leads from the one that it is in: from Head to Open or Ending, from
    /// Open to Leaving or Ending, from Leaving to Ending, and from each to Gone. In Leaving and Ending the ticks are counted since its
    /// leaving. What is held back for one that is gone is discarded.
    pub fn enter(&mut self, phase: Phase)
        requires { can_enter self.old.phase phase ≡ true }
        ensures { self.new ≡ entered phase self.old }
    {
        self.phase = phase;
        match phase {
            Phase::Leaving => self.quiet.leaving(),
            Phase::Ending => self.quiet.leaving(),
            Phase::Gone => self.ring.gone(self.ring.length()),
            Phase::Head => {}
            Phase::Open => {}
        }
    }

    /// Octets of the connection were read: its quiet ticks are counted from 0 again, unless it is leaving.
    pub fn heard(&mut self)
        requires { is_gone_phase self.old.phase ≡ false }
        ensures { self.new ≡ heard_socket self.old }
    {
        self.quiet.heard();
    }

    /// Counts one more tick of the connection, and says what it makes due: a ping where it is open and its quiet ticks become
    /// `ping_after`; its end where these become `idle`, or those since its leaving become `leave`.
    pub fn tick(&mut self) -> Due
        requires { is_gone_phase self.old.phase ≡ false }
        ensures ping { is_ping result ≡ is_ping_due self.old.config (Some self.old.phase) (counts_of self.old) }
        ensures end { is_end result ≡ is_end_due self.old.config (Some self.old.phase) (counts_of self.old) }
        ensures counts { self.new ≡ ticked_socket self.old }
    {
        let can_ping = self.is_open();
        self.quiet.tick(can_ping)
    }

    fn is_open(&self) -> bool
        ensures { result ≡ is_open (Some self.now.phase) }
    {
        match self.phase {
            Phase::Open => true,
            Phase::Head => false,
            Phase::Leaving => false,
            Phase::Ending => false,
            Phase::Gone => false,
        }
    }
}

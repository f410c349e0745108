//! A ring of octets.

ghost use Rattle.std.specs.Prelude.{◌≡◌, ◌≤◌, ◌+◌, ◌++◌, length, IfOk};
ghost use Rattle.backlog.specs.RingValue.{empty_ring, with_octets, without_first, ringed_more};

use circular_buffer::HeapCircularBuffer;
use std::alloc::{AllocError, Global};
use std::marker::Model;
use ws_kinds::Tally;

/// Octets in the order in which they were put, as many as its capacity at most. Contracts see it as their list and the capacity.
///
/// They lie in one block of memory, behind each other from a front that moves on with what is cut, and go on at the block's begin
/// where they reach its end. The front is never set back, also where the ring becomes empty.
#[derive(Drop)]
pub struct Ring {
    held: HeapCircularBuffer<u8>,
}

impl Model for Ring {
    ghost use Rattle.backlog.specs.RingValue.{RingValue};

    ghost Value = { RingValue };

    ghost view = { λ ring. record { octets = ring.held.items; capacity = ring.held.capacity } };
}

impl Ring {
    /// An empty ring that can hold `capacity` octets. An error says that there was too little memory.
    pub fn new(alloc: Global, capacity: usize) -> Result<Ring, AllocError>
        ensures { IfOk result (λ ring. ring ≡ empty_ring capacity) }
    {
        let held = HeapCircularBuffer::with_capacity(alloc, capacity)?;
        Ok(Ring { held })
    }

    /// How many octets there are.
    pub fn length(&self) -> usize
        ensures length { result ≡ length self.now.octets }
        ensures within { result ≤ self.now.capacity }
    {
        self.held.len()
    }

    /// How many octets more it can hold.
    pub fn room(&self) -> usize
        ensures { result + length self.now.octets ≡ self.now.capacity }
    {
        self.held.capacity() - self.held.len()
    }

    /// Appends octets, for which there has to be room, and counts them as copied into a backlog.
    pub fn put(&mut self, octets: &[u8], tally: &mut Tally)
        requires { length self.old.octets + length octets.now ≤ self.old.capacity }
        ensures octets { self.new ≡ with_octets octets.now self.old }
        ensures tally { tally.new ≡ ringed_more (length octets.now) tally.old }
    {
        tally.ringed = tally.ringed.saturating_add(octets.len() as u64);
        self.held.fill_from_slice(octets);
    }

    /// The octets, as two slices that follow each other: those up to the end of the block, and those that go on at its begin.
    pub fn parts(&self) -> (&[u8], &[u8])
        ensures { result.0.now ++ result.1.now ≡ self.now.octets }
    {
        self.held.as_slices()
    }

    /// Cuts the first `count` octets off, of which there are so many. No other octet is moved.
    pub fn gone(&mut self, count: usize)
        requires { count ≤ length self.old.octets }
        ensures { self.new ≡ without_first count self.old }
    {
        let left = self.held.len() - count;
        self.held.truncate_front(left);
    }
}

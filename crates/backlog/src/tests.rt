use super::*;
use std::alloc::{AllocError, Global};
use std::test::*;
use ws_kinds::Tally;

/// How many octets the ring of the tests can hold.
const CAPACITY: usize = 5;

/// The octets that are put, one after another.
const OCTETS: &[u8; 36] = b"abcdefghijklmnopqrstuvwxyz0123456789";

/// A call that puts the next octets, so many of them, or that cuts so many.
#[derive(Clone, Copy)]
enum Call {
    Put(usize),
    Gone(usize),
}

use Call::{Gone, Put};

/// A ring, and how many octets were put and cut so far.
#[derive(Drop)]
struct Run {
    ring: Ring,
    tally: Tally,
    put: usize,
    gone: usize,
}

impl Run {
    fn new(alloc: Global) -> Result<Run, AllocError> {
        let ring = Ring::new(alloc, CAPACITY)?;
        Ok(Run {
            ring,
            tally: Tally::new(),
            put: 0,
            gone: 0,
        })
    }

    /// Makes a call, if its condition holds.
    fn make(&mut self, call: Call) {
        match call {
            Put(count) => {
                let rest = OCTETS.get(self.put..).unwrap_or(&[]);
                let octets = rest.get(..count).unwrap_or(&[]);
                if octets.len() <= self.ring.room() {
                    self.ring.put(octets, &mut self.tally);
                    self.put = self.put.saturating_add(octets.len());
                }
            }
            Gone(count) => {
                if count <= self.ring.length() {
                    self.ring.gone(count);
                    self.gone = self.gone.saturating_add(count);
                }
            }
        }
    }

    /// The plain program: the octets that were put and not cut. The octet that was put as the n-th, counted from 0, lies at the
    /// place n modulo the capacity.
    fn plain_parts(&self) -> (&[u8], &[u8]) {
        let all = OCTETS.get(..self.put).unwrap_or(&[]);
        let held = all.get(self.gone..).unwrap_or(&[]);
        let to_end = CAPACITY - self.gone % CAPACITY;
        held.split_at(to_end.min(held.len()))
    }

    fn is_plain(&self) -> bool {
        let (first, second) = self.plain_parts();
        let held = first.len().saturating_add(second.len());
        self.ring.parts() == (first, second)
            && self.ring.length() == held
            && self.ring.room().saturating_add(held) == CAPACITY
            && self.tally.ringed == self.put as u64
    }
}

/// Calls, with both parts after each of them.
const ROWS: &[(Call, &[u8], &[u8])] = &[
    (Put(0), b"", b""),
    (Gone(0), b"", b""),
    // to capacity
    (Put(2), b"ab", b""),
    (Put(3), b"abcde", b""),
    (Put(0), b"abcde", b""),
    // cut, and wrapped
    (Gone(3), b"de", b""),
    (Put(2), b"de", b"fg"),
    (Put(1), b"de", b"fgh"),
    (Gone(1), b"e", b"fgh"),
    // the front comes to the end of the block, and goes on at its begin
    (Gone(1), b"fgh", b""),
    (Gone(2), b"h", b""),
    (Put(4), b"hij", b"kl"),
    // the front stays where it is when the ring becomes empty
    (Gone(5), b"", b""),
    (Put(4), b"mno", b"p"),
    (Gone(4), b"", b""),
    (Put(5), b"qrst", b"u"),
];

/// The place of the first row that differs.
fn first_other(run: &mut Run, rows: &[(Call, &[u8], &[u8])]) -> Option<usize> {
    for (place, (call, first, second)) in rows.iter().enumerate() {
        run.make(*call);
        if run.ring.parts() != (*first, *second) {
            return Some(place);
        }
    }
    None
}

#[test]
fn parts_follow_each_other(rt: HostRuntime) -> Result<(), Fail> {
    let mut run = Run::new(rt.alloc())?;
    assert_eq!(rt; first_other(&mut run, ROWS), None);
    assert_eq!(rt; run.ring.room(), 0);
    assert_eq!(rt; run.tally.ringed, 21);
    run.tally.ringed = u64::MAX - 1;
    run.make(Gone(3));
    run.make(Put(3));
    assert_eq!(rt; run.tally.ringed, u64::MAX);
    Ok(())
}

const CALLS: &[Call; 6] = &[Put(1), Put(3), Put(5), Gone(1), Gone(2), Gone(5)];

/// Whether the ring has what the plain program has, after each of these calls.
fn agrees(alloc: Global, calls: &[Call]) -> Result<bool, AllocError> {
    let mut run = Run::new(alloc)?;
    for call in calls {
        run.make(*call);
        if !run.is_plain() {
            return Ok(false);
        }
    }
    Ok(true)
}

/// The first six calls on which the two differ.
fn first_difference(alloc: Global) -> Result<Option<usize>, AllocError> {
    for number in 0..46_656usize {
        let calls = [
            CALLS[number % 6],
            CALLS[number / 6 % 6],
            CALLS[number / 36 % 6],
            CALLS[number / 216 % 6],
            CALLS[number / 1_296 % 6],
            CALLS[number / 7_776],
        ];
        if !agrees(alloc, &calls)? {
            return Ok(Some(number));
        }
    }
    Ok(None)
}

#[test]
fn a_plain_list_has_the_same(rt: HostRuntime) -> Result<(), Fail> {
    assert_eq!(rt; first_difference(rt.alloc())?, None);
    Ok(())
}

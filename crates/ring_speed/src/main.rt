//! A program to measure: it passes octets on in pieces, through a ring or by a plain copy. The words are `ring`, `copy` or
//! `none` (only the octets are made), the size of the pieces, `16`, `1000` or `16000`, and the number of MiB that are passed
//! on, at most 4,096: the same 64 KiB again and again, which a processor keeps at hand. It writes how many MiB these were, and
//! the sums of the octets that were read out, modulo 256 for each 64 KiB, all together.
#![tactic(auto)]

ghost use Rattle.std.specs.Prelude.{◌<◌};

use backlog::Ring;
use std::alloc::{AllocError, Global};
use std::process::ExitCode;
use std::{env, io};
use ws_kinds::Tally;

/// How many octets there are, which are passed on again and again.
const MADE: usize = 64 * 1024;

/// How often these octets are passed on for each MiB.
const ROUNDS: usize = 16;

const MAX_MIB: usize = 4_096;

/// The octets that the ring of a connection can hold by the usual configuration.
const CAPACITY: usize = 82_432;

/// The most octets of a piece.
const MAX_PIECE: usize = 16_000;

const SAMPLE: &str = "The quick brown fox jumps over the lazy dog. ";

#[derive(Clone, Copy)]
enum Way {
    Nothing,
    Copy,
    Ring,
}

#[derive(Clone, Copy)]
enum Size {
    Small,
    Middle,
    Large,
}

/// The way that a word names.
fn way_of(word: &str) -> Option<Way> {
    match word {
        "none" => Some(Way::Nothing),
        "copy" => Some(Way::Copy),
        "ring" => Some(Way::Ring),
        _ => None,
    }
}

/// The size of pieces that a word names.
fn size_of(word: &str) -> Option<Size> {
    match word {
        "16" => Some(Size::Small),
        "1000" => Some(Size::Middle),
        "16000" => Some(Size::Large),
        _ => None,
    }
}

/// How many octets a piece has.
fn octets_of(size: Size) -> usize
    ensures { 0 < result }
{
    match size {
        Size::Small => 16,
        Size::Middle => 1_000,
        Size::Large => MAX_PIECE,
    }
}

/// `MADE` octets of whole samples, the last of which is cut.
fn made(alloc: Global) -> Result<Vec<u8>, AllocError> {
    let mut octets = Vec::new(alloc);
    for _ in 0..MADE {
        if octets.len() >= MADE {
            octets.truncate(MADE);
            return Ok(octets);
        }
        octets.extend_from_slice(SAMPLE.as_bytes())?;
    }
    Ok(octets)
}

/// Reads the octets out: their sum and `before`, modulo 256.
fn sum_of(before: u8, octets: &[u8]) -> u8 {
    let mut sum = before;
    for octet in octets {
        sum = sum.wrapping_add(*octet);
    }
    sum
}

/// Copies each piece into a buffer and reads it out.
fn copied(octets: &[u8], size: Size, buffer: &mut [u8]) -> u8 {
    let mut sum = 0;
    for piece in octets.chunks(octets_of(size)) {
        if let Some(place) = buffer.get_mut(..piece.len()) {
            place.copy_from_slice(piece);
            sum = sum_of(sum, place);
        }
    }
    sum
}

/// Puts each piece into a ring, reads it out and cuts it off.
fn ringed(octets: &[u8], size: Size, ring: &mut Ring, tally: &mut Tally) -> u8 {
    let mut sum = 0;
    for piece in octets.chunks(octets_of(size)) {
        if piece.len() <= ring.room() {
            ring.put(piece, tally);
            let (first, second) = ring.parts();
            sum = sum_of(sum_of(sum, first), second);
            ring.gone(ring.length());
        }
    }
    sum
}

/// Passes so many MiB on by this way in pieces of this size, and answers the sums of what was read out, all together.
fn passed(alloc: Global, way: Way, size: Size, mib: usize) -> Result<u64, AllocError> {
    let octets = made(alloc)?;
    let mut buffer = [0; MAX_PIECE];
    let mut ring = Ring::new(alloc, CAPACITY)?;
    let mut tally = Tally::new();
    let mut sums = 0u64;
    for _ in 0..mib.saturating_mul(ROUNDS) {
        let sum = match way {
            Way::Nothing => 0,
            Way::Copy => copied(&octets, size, &mut buffer),
            Way::Ring => ringed(&octets, size, &mut ring, &mut tally),
        };
        sums = sums.saturating_add(u64::from(sum));
    }
    Ok(sums)
}

/// Passes the octets on, and writes what was read out.
fn run(rt: &impl Print, alloc: Global, way: Way, size: Size, mib: usize) -> io::Result<()> {
    let mib = mib.min(MAX_MIB);
    let sums = passed(alloc, way, size, mib)?;
    println!(rt; "{mib} MiB, sums {sums}")
}

/// What the words of the command ask for, if they are three that fit.
fn asked(rt: &HostRuntime) -> Option<(Way, Size, usize)> {
    let mut words = env::args(rt).ok()?.skip(1);
    let way = way_of(words.next()?.as_str())?;
    let size = size_of(words.next()?.as_str())?;
    let mib = words.next()?.as_str().parse::<usize>().ok()?;
    Some((way, size, mib))
}

fn main(rt: HostRuntime) -> ExitCode {
    let Some((way, size, mib)) = asked(&rt) else {
        return ExitCode::from(2);
    };
    match run(&rt, rt.alloc(), way, size, mib) {
        Ok(()) => ExitCode::SUCCESS,
        Err(_) => ExitCode::FAILURE,
    }
}

//! A program to measure: with the word `again` it reads a schedule from standard input and writes it back; with the word
//! `notes` it writes, for each 8,192 octets that came, the report's line of a message with these octets.
#![tactic(auto)]

use link_trait::{Got, Sink, Source, StdSink, StdSource};
use schedule_text::{print, read, report_note};
use std::alloc::{AllocError, Global};
use std::env;
use std::process::ExitCode;
use ws_kinds::{Conn, Kind, Note};

/// The most octets that are read.
const MOST: usize = 1_048_577;

/// The most octets of one read, and of one message.
const PIECE: usize = 8_192;

/// All octets of a source, or the first of them where there are more than are read.
fn all_of<S: Source>(alloc: Global, source: &mut S) -> Result<Vec<u8>, AllocError> {
    let mut octets = Vec::new(alloc);
    let mut piece = [0; PIECE];
    for _ in 0..MOST {
        if octets.len() >= MOST {
            return Ok(octets);
        }
        match source.read(&mut piece) {
            Got::Octets(count) => octets.extend_from_slice(&piece[..count])?,
            Got::End | Got::Failed => return Ok(octets),
        }
    }
    Ok(octets)
}

fn again<K: Sink>(alloc: Global, octets: &[u8], sink: &mut K) -> bool {
    match read(alloc, octets) {
        Ok(schedule) => print(&schedule, sink),
        Err(_) => false,
    }
}

fn notes<K: Sink>(octets: &[u8], sink: &mut K) -> bool {
    for body in octets.chunks(PIECE) {
        let note = Note::Message {
            conn: Conn(1),
            kind: Kind::Binary,
            body,
        };
        if !report_note(&note, sink) {
            return false;
        }
    }
    true
}

fn is_done(rt: &HostRuntime) -> bool {
    let Ok(mut words) = env::args(rt) else {
        return false;
    };
    let Some(word) = words.nth(1) else {
        return false;
    };
    let Ok(octets) = all_of(rt.alloc(), &mut StdSource::new(rt.stdin())) else {
        return false;
    };
    let mut sink = StdSink::new(rt.stdout());
    match word.as_str() {
        "again" => again(rt.alloc(), &octets, &mut sink),
        "notes" => notes(&octets, &mut sink),
        _ => false,
    }
}

fn main(rt: HostRuntime) -> ExitCode {
    if is_done(&rt) {
        ExitCode::SUCCESS
    } else {
        ExitCode::FAILURE
    }
}

//! A program to measure: it checks a text of so many MiB, again and again, as a whole by `simdutf8` or in pieces by
//! `utf8_stream`. The words are `whole`, `pieces` or `none` (only the text is made), `english` or `chinese`, and the number
//! of MiB, at most 1,024. It writes how many of 20 checks found UTF-8.
#![tactic(auto)]

use std::alloc::{AllocError, Global};
use std::process::ExitCode;
use std::{env, io};
use utf8_stream::{Text, Utf8};

const ROUNDS: u32 = 20;

const PIECE: usize = 16 * 1024;

const MIB: usize = 1024 * 1024;

const MAX_MIB: usize = 1024;

#[derive(Clone, Copy)]
enum Way {
    Nothing,
    Whole,
    Pieces,
}

#[derive(Clone, Copy)]
enum Language {
    English,
    Chinese,
}

/// The way that a word names.
fn way_of(word: &str) -> Option<Way> {
    match word {
        "none" => Some(Way::Nothing),
        "whole" => Some(Way::Whole),
        "pieces" => Some(Way::Pieces),
        _ => None,
    }
}

/// The language that a word names.
fn language_of(word: &str) -> Option<Language> {
    match word {
        "english" => Some(Language::English),
        "chinese" => Some(Language::Chinese),
        _ => None,
    }
}

/// A sentence of the language.
fn sample_of(language: Language) -> &'static str {
    match language {
        Language::English => "The quick brown fox jumps over the lazy dog. ",
        Language::Chinese => "服务器把每一条消息原样发回，不多一个字。",
    }
}

/// At least so many octets of whole samples.
fn text_of(alloc: Global, sample: &str, size: usize) -> Result<Vec<u8>, AllocError> {
    let mut octets = Vec::new(alloc);
    for _ in 0..size {
        if octets.len() >= size {
            return Ok(octets);
        }
        octets.extend_from_slice(sample.as_bytes())?;
    }
    Ok(octets)
}

/// Whether the octets are UTF-8, taken in pieces of `PIECE` octets.
fn is_text_in_pieces(octets: &[u8]) -> bool {
    let mut utf8 = Utf8::new();
    for piece in octets.chunks(PIECE) {
        if utf8.push(piece) == Text::Bad {
            return false;
        }
    }
    utf8.ends()
}

/// Whether the octets are UTF-8, by this way. `Way::Nothing` reads none of them.
fn is_text(way: Way, octets: &[u8]) -> bool {
    match way {
        Way::Nothing => true,
        Way::Whole => simdutf8::is_utf8(octets),
        Way::Pieces => is_text_in_pieces(octets),
    }
}

/// Makes the text, checks it `ROUNDS` times, and writes how often it was UTF-8.
fn run(rt: &impl Print, alloc: Global, way: Way, language: Language, mib: usize) -> io::Result<()> {
    let octets = text_of(alloc, sample_of(language), mib.min(MAX_MIB) * MIB)?;
    let mut found = 0u32;
    for _ in 0..ROUNDS {
        if is_text(way, &octets) {
            found = found.saturating_add(1);
        }
    }
    println!(rt; "{found} of {ROUNDS}")
}

/// What the words of the command ask for, if they are three that fit.
fn asked(rt: &HostRuntime) -> Option<(Way, Language, usize)> {
    let mut words = env::args(rt).ok()?.skip(1);
    let way = way_of(words.next()?.as_str())?;
    let language = language_of(words.next()?.as_str())?;
    let mib = words.next()?.as_str().parse::<usize>().ok()?;
    Some((way, language, mib))
}

fn main(rt: HostRuntime) -> ExitCode {
    let Some((way, language, mib)) = asked(&rt) else {
        return ExitCode::from(2);
    };
    match run(&rt, rt.alloc(), way, language, mib) {
        Ok(()) => ExitCode::SUCCESS,
        Err(_) => ExitCode::FAILURE,
    }
}

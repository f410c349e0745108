//! Reading the words of a command line.

ghost use Rattle.std.specs.Prelude.{◌≡◌, map, string_bytes, true, IfErr, IfOk};
ghost use Rattle.std.specs.List.{list_all};
ghost use Rattle.command_words.specs.Meaning.{may_stand, meant};

use crate::command::Command;
use crate::grammar::commands;
use crate::values::command;
use clap::error::ErrorKind;
use std::alloc::{AllocError, Global};

/// Whether a command line may have this word: it has no hyphen in front, or `--` and something behind it.
fn may_stand(word: &[u8]) -> bool
    ensures { result ≡ may_stand word.now }
{
    match word {
        [b'-', b'-', _, ..] => true,
        [b'-', ..] => false,
        _ => true,
    }
}

fn may_all_stand(words: &[String]) -> bool
    ensures { result ≡ list_all (λ word. may_stand (string_bytes word)) words.now }
{
    words.iter().all(|word| may_stand(word.as_bytes()))
}

/// The command that the words mean, without the program's name. None is Usage, and comes exactly where they mean no command.
///
/// An error is want of memory. It comes only where each word may stand in a command line (clause `memory`); whether words that it
/// comes for mean a command is open, since clap does not tell.
pub fn read(alloc: Global, words: &[String]) -> Result<Option<Command>, AllocError>
    ensures meaning { IfOk result (λ command. command ≡ meant (map string_bytes words.now)) }
    ensures memory { IfErr result (λ error. list_all may_stand (map string_bytes words.now) ≡ true) }
{
    if !may_all_stand(words) {
        return Ok(None);
    }
    match commands(alloc)?.try_get_matches_from(words) {
        Ok(matches) => match matches.subcommand() {
            Some((name, inner)) => Ok(command(name, inner)),
            None => unreachable!(),
        },
        Err(error) => match error.kind() {
            ErrorKind::OutOfMemory => Err(AllocError),
            _ => Ok(None),
        },
    }
}

//! The commands and their options, as clap is told of them.

ghost use Rattle.std.specs.Prelude.{◌≡◌, false, map, IfOk};
ghost use Rattle.clap.specs.Simple.{app_of};
ghost use Rattle.clap.specs.Walk.{rule_of};
ghost use Rattle.clap.specs.declared.builder.command.Command.TheViews.{out-Command};
ghost use Rattle.command_words.specs.Grammar as grammar;
ghost use Rattle.command_words.specs.Setting.{setting_of};

use crate::settings::{ECHO_OPTIONS, REPLAY_OPTIONS, SERVE_OPTIONS, Setting};
use clap::{Arg, ArgAction, Command};
use std::alloc::{AllocError, Global};

/// An option with one value.
fn option<'a>(alloc: Global, name: &'a str) -> Arg<'a>
    ensures rule { rule_of result ≡ grammar.option_rule name.now }
    ensures local { result.global ≡ false }
{
    Arg::new(alloc, name).long(name).action(ArgAction::Set)
}

/// The one word behind `made`.
fn seed<'a>(alloc: Global) -> Arg<'a>
    ensures rule { rule_of result ≡ grammar.seed_rule }
    ensures local { result.global ≡ false }
{
    Arg::new(alloc, "seed")
        .required(true)
        .action(ArgAction::Set)
}

/// The command of this name, with these options.
fn command<'a>(alloc: Global, name: &'a str, options: &[Setting]) -> Result<Command<'a>, AllocError>
    ensures app { IfOk result (λ command. app_of command ≡ grammar.option_command name.now (map setting_of options.now)) }
    ensures local { IfOk result (λ command. (out-Command command).has_globals ≡ false) }
{
    let mut command = Command::new(alloc, name);
    for setting in options {
        command = command.arg(option(alloc, setting.name))?;
    }
    Ok(command)
}

fn made<'a>(alloc: Global) -> Result<Command<'a>, AllocError>
    ensures app { IfOk result (λ command. app_of command ≡ grammar.made_command) }
    ensures local { IfOk result (λ command. (out-Command command).has_globals ≡ false) }
{
    Command::new(alloc, "made").arg(seed(alloc))
}

/// What stands above the commands: a first word that names one of them, and no help.
fn bare<'a>(alloc: Global) -> Command<'a>
    ensures app { app_of result ≡ grammar.bare_command }
    ensures local { (out-Command result).has_globals ≡ false }
{
    Command::new(alloc, "wothiqa")
        .no_binary_name(true)
        .disable_help_flag(true)
        .disable_help_subcommand(true)
        .subcommand_required(true)
}

/// The commands that have options.
fn option_commands<'a>(alloc: Global) -> Result<Command<'a>, AllocError>
    ensures app { IfOk result (λ command. app_of command ≡ grammar.option_commands) }
    ensures local { IfOk result (λ command. (out-Command command).has_globals ≡ false) }
{
    bare(alloc)
        .subcommand(command(alloc, "echo", &ECHO_OPTIONS)?)?
        .subcommand(command(alloc, "replay", &REPLAY_OPTIONS)?)?
        .subcommand(command(alloc, "serve", &SERVE_OPTIONS)?)
}

/// All commands.
pub(crate) fn commands<'a>(alloc: Global) -> Result<Command<'a>, AllocError>
    ensures { IfOk result (λ command. app_of command ≡ grammar.commands) }
{
    option_commands(alloc)?.subcommand(made(alloc)?)
}

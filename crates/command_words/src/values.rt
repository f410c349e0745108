//! A command from the texts of its values.

ghost use Rattle.std.specs.Prelude.{◌≡◌, ◌≤◌, ◌<◌, ◌^◌, IfSome};
ghost use Rattle.std.specs.Char.{is_ascii_digit};
ghost use Rattle.std.specs.List.{list_all};
ghost use Rattle.command_words.specs.Meaning as meaning;
ghost use Rattle.command_words.specs.Grammar as grammar;
ghost use Rattle.command_words.specs.Setting.{setting_of};

use crate::command::Command;
use crate::settings::{
    IDLE, LEAVE, LIMIT, MAX_CONNS, MAX_MESSAGE, PING_AFTER, PORT, Setting, TURNS,
};
use clap::ArgMatches;
use ws_kinds::Config;

/// Whether a text is not empty, and does not begin with `0` where more follows.
fn has_no_leading_zero(text: &[u8]) -> bool
    ensures { result ≡ meaning.has_no_leading_zero text.now }
{
    match text {
        [] => false,
        [b'0', _, ..] => false,
        _ => true,
    }
}

fn are_digits(text: &[u8]) -> bool
    ensures { result ≡ list_all is_ascii_digit text.now }
{
    text.iter().all(|octet| octet.is_ascii_digit())
}

/// The number that a text writes in decimal digits, from `least` to `most`.
fn number_in(text: &str, least: u64, most: u64) -> Option<u64>
    ensures value { result ≡ meaning.number_in least most text.now }
    ensures range { IfSome result (λ number. (least ≤ number) × (number ≤ most)) }
{
    let digits = text.as_bytes();
    if !are_digits(digits) || !has_no_leading_zero(digits) {
        return None;
    }
    let number = text.parse::<u64>().ok()?;
    if number < least || number > most {
        return None;
    }
    Some(number)
}

/// The text of the value that an argument was given.
fn given<'a>(matches: &ArgMatches<'a>, name: &str) -> Option<&'a str>
    ensures { grammar.text_of result ≡ grammar.values_of matches.now name.now }
{
    matches.get_str(name)
}

/// The number of an option.
fn number(matches: &ArgMatches, setting: Setting) -> Option<u64>
    requires usual { IfSome setting.usual (λ usual. usual ≤ setting.most) }
    ensures value { result ≡ meaning.number (setting_of setting) (grammar.values_of matches.now) }
    ensures range { IfSome result (λ number. number ≤ setting.most) }
{
    let Some(text) = given(matches, setting.name) else {
        return setting.usual;
    };
    number_in(text, setting.least, setting.most)
}

/// The number of an option whose numbers have 32 bits.
fn short_number(matches: &ArgMatches, setting: Setting) -> Option<u32>
    requires usual { IfSome setting.usual (λ usual. usual ≤ setting.most) }
    requires short { setting.most < 2 ^ 32 }
    ensures value { result ≡ meaning.number (setting_of setting) (grammar.values_of matches.now) }
{
    let number = number(matches, setting)?;
    u32::try_from(number).ok()
}

fn port(matches: &ArgMatches) -> Option<u16>
    ensures { result ≡ meaning.number meaning.port_option (grammar.values_of matches.now) }
{
    let port = number(matches, PORT)?;
    u16::try_from(port).ok()
}

/// The numbers of a server.
fn config(matches: &ArgMatches) -> Option<Config>
    ensures { result ≡ meaning.config_of_values (grammar.values_of matches.now) }
{
    let max_message = short_number(matches, MAX_MESSAGE)?;
    let limit = short_number(matches, LIMIT)?;
    let ping_after = short_number(matches, PING_AFTER)?;
    let idle = short_number(matches, IDLE)?;
    let leave = short_number(matches, LEAVE)?;
    let max_conns = short_number(matches, MAX_CONNS)?;
    Config::checked(max_message, limit, ping_after, idle, leave, max_conns)
}

fn echo(matches: &ArgMatches) -> Option<Command>
    ensures { result ≡ meaning.echo_of (grammar.values_of matches.now) }
{
    let max_message = short_number(matches, MAX_MESSAGE)?;
    Some(Command::Echo { max_message })
}

fn replay(matches: &ArgMatches) -> Option<Command>
    ensures { result ≡ meaning.replay_of (grammar.values_of matches.now) }
{
    let config = config(matches)?;
    Some(Command::Replay(config))
}

fn serve(matches: &ArgMatches) -> Option<Command>
    ensures { result ≡ meaning.serve_of (grammar.values_of matches.now) }
{
    let config = config(matches)?;
    let port = port(matches)?;
    let turns = number(matches, TURNS)?;
    Some(Command::Serve {
        config,
        port,
        turns,
    })
}

fn made(matches: &ArgMatches) -> Option<Command>
    ensures { result ≡ grammar.made_of_values (grammar.values_of matches.now) }
{
    let seed = number_in(given(matches, "seed")?, 0, u64::MAX)?;
    Some(Command::Made { seed })
}

/// The command of this name, by what clap found behind it. None exactly where a value is no number, or out of its range.
pub(crate) fn command(name: &str, matches: &ArgMatches) -> Option<Command>
    ensures { result ≡ grammar.command_of name.now (grammar.values_of matches.now) }
{
    if name == "echo" {
        return echo(matches);
    }
    if name == "replay" {
        return replay(matches);
    }
    if name == "serve" {
        return serve(matches);
    }
    made(matches)
}

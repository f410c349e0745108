use super::*;
use std::alloc::{AllocError, Global};
use std::test::*;
use ws_kinds::Config;

/// The words of a line, which stand between single blanks.
fn words_of(alloc: Global, line: &str) -> Result<Vec<String>, AllocError> {
    let mut words = Vec::new(alloc);
    for word in line.split(' ') {
        words.push(word.to_string(alloc)?)?;
    }
    Ok(words)
}

/// The numbers of a server, in the order of the table of ranges.
fn config_text(alloc: Global, config: Config) -> Result<String, AllocError> {
    let (max_message, limit, max_conns) = (
        config.max_message(),
        config.limit(),
        config.max_conns(),
    );
    let (ping_after, idle, leave) = (config.ping_after(), config.idle(), config.leave());
    format!(in alloc; "{max_message} {limit} {ping_after} {idle} {leave} {max_conns}")
}

/// A command with its numbers.
fn command_text(alloc: Global, command: Command) -> Result<String, AllocError> {
    match command {
        Command::Echo { max_message } => format!(in alloc; "echo {max_message}"),
        Command::Replay(config) => {
            let config = config_text(alloc, config)?;
            format!(in alloc; "replay {config}")
        }
        Command::Serve {
            config,
            port,
            turns,
        } => {
            let config = config_text(alloc, config)?;
            format!(in alloc; "serve {config} {port} {turns}")
        }
        Command::Made { seed } => format!(in alloc; "made {seed}"),
    }
}

/// A command with its numbers, or nothing for Usage.
fn text_of(alloc: Global, command: Option<Command>) -> Result<String, AllocError> {
    match command {
        Some(command) => command_text(alloc, command),
        None => Ok(String::new(alloc)),
    }
}

/// Whether two commands are the same, or both are Usage.
fn is_same(alloc: Global, a: Option<Command>, b: Option<Command>) -> Result<bool, AllocError> {
    let (a, b) = (text_of(alloc, a)?, text_of(alloc, b)?);
    Ok(a == b)
}

/// The number that a text writes, from `least` to `most`: the one whose decimal digits are the text.
fn plain_number(
    alloc: Global,
    text: &str,
    least: u64,
    most: u64,
) -> Result<Option<u64>, AllocError> {
    let Ok(number) = text.parse::<u64>() else {
        return Ok(None);
    };
    let digits = number.to_string(alloc)?;
    if digits.as_str() == text && least <= number && number <= most {
        return Ok(Some(number));
    }
    Ok(None)
}

/// The names and values that words give, or nothing where they are no options.
fn plain_options<'a>(
    alloc: Global,
    words: &'a [String],
) -> Result<Option<Vec<(&'a str, &'a str)>>, AllocError> {
    let mut options = Vec::new(alloc);
    let mut waiting = None;
    for word in words {
        if let Some(name) = waiting {
            options.push((name, word.as_str()))?;
            waiting = None;
            continue;
        }
        let Some(text) = word.as_str().strip_prefix("--") else {
            return Ok(None);
        };
        match text.split_once('=') {
            Some((name, value)) => options.push((name, value))?,
            None => waiting = Some(text),
        }
    }
    if waiting.is_some() {
        return Ok(None);
    }
    Ok(Some(options))
}

/// An option's number: the usual one, if any, where it is not given, and nothing where it is given twice or its value is none
/// from `least` to `most`.
fn plain_long_value(
    alloc: Global,
    options: &[(&str, &str)],
    wanted: &str,
    (least, most, usual): (u64, u64, Option<u64>),
) -> Result<Option<u64>, AllocError> {
    let mut values = Vec::new(alloc);
    for (name, value) in options {
        if *name == wanted {
            values.push(*value)?;
        }
    }
    match values.as_slice() {
        [] => Ok(usual),
        [value] => plain_number(alloc, value, least, most),
        _ => Ok(None),
    }
}

/// The number of an option whose numbers have 32 bits.
fn plain_value(
    alloc: Global,
    options: &[(&str, &str)],
    wanted: &str,
    (least, most, usual): (u32, u32, u32),
) -> Result<Option<u32>, AllocError> {
    let range = (u64::from(least), u64::from(most), Some(u64::from(usual)));
    let number = plain_long_value(alloc, options, wanted, range)?;
    Ok(number.and_then(|number| u32::try_from(number).ok()))
}

/// Whether each option has one of these names.
fn are_known(options: &[(&str, &str)], names: &[&str]) -> bool {
    options
        .iter()
        .all(|(name, _)| names.iter().any(|known| known == name))
}

/// What words behind `echo` mean.
fn plain_echo(alloc: Global, words: &[String]) -> Result<Option<Command>, AllocError> {
    let Some(options) = plain_options(alloc, words)? else {
        return Ok(None);
    };
    if !are_known(options.as_slice(), &["max-message"]) {
        return Ok(None);
    }
    let max_message = plain_value(
        alloc,
        options.as_slice(),
        "max-message",
        (1, 65_536, 16_384),
    )?;
    Ok(max_message.map(|max_message| Command::Echo { max_message }))
}

/// The numbers of a server that options give.
fn plain_config(alloc: Global, options: &[(&str, &str)]) -> Result<Option<Config>, AllocError> {
    let Some(max_message) = plain_value(alloc, options, "max-message", (1, 65_536, 16_384))? else {
        return Ok(None);
    };
    let Some(limit) = plain_value(alloc, options, "limit", (1, 1_048_576, 65_536))? else {
        return Ok(None);
    };
    let Some(ping_after) = plain_value(alloc, options, "ping-after", (1, 999_999, 30))? else {
        return Ok(None);
    };
    let Some(idle) = plain_value(alloc, options, "idle", (0, 1_000_000, 60))? else {
        return Ok(None);
    };
    let Some(leave) = plain_value(alloc, options, "leave", (1, 1_000_000, 10))? else {
        return Ok(None);
    };
    let Some(max_conns) = plain_value(alloc, options, "max-conns", (1, 1_024, 1_024))? else {
        return Ok(None);
    };
    Ok(Config::checked(max_message, limit, ping_after, idle, leave, max_conns))
}

/// What words behind `replay` mean.
fn plain_replay(alloc: Global, words: &[String]) -> Result<Option<Command>, AllocError> {
    let names = [
        "max-message",
        "limit",
        "ping-after",
        "idle",
        "leave",
        "max-conns",
    ];
    let Some(options) = plain_options(alloc, words)? else {
        return Ok(None);
    };
    if !are_known(options.as_slice(), &names) {
        return Ok(None);
    }
    let config = plain_config(alloc, options.as_slice())?;
    Ok(config.map(Command::Replay))
}

/// What words behind `serve` mean.
fn plain_serve(alloc: Global, words: &[String]) -> Result<Option<Command>, AllocError> {
    let names = [
        "max-message",
        "limit",
        "ping-after",
        "idle",
        "leave",
        "max-conns",
        "port",
        "turns",
    ];
    let Some(options) = plain_options(alloc, words)? else {
        return Ok(None);
    };
    let options = options.as_slice();
    if !are_known(options, &names) {
        return Ok(None);
    }
    let Some(config) = plain_config(alloc, options)? else {
        return Ok(None);
    };
    let port = plain_long_value(alloc, options, "port", (1, 65_535, None))?;
    let Some(port) = port.and_then(|port| u16::try_from(port).ok()) else {
        return Ok(None);
    };
    let turns = plain_long_value(alloc, options, "turns", (1, u64::MAX, Some(u64::MAX)))?;
    Ok(turns.map(|turns| Command::Serve {
        config,
        port,
        turns,
    }))
}

/// What words behind `made` mean.
fn plain_made(alloc: Global, words: &[String]) -> Result<Option<Command>, AllocError> {
    let [seed] = words else {
        return Ok(None);
    };
    let seed = plain_number(alloc, seed.as_str(), 0, u64::MAX)?;
    Ok(seed.map(|seed| Command::Made { seed }))
}

/// What words mean, word by word and without clap.
fn plain(alloc: Global, words: &[String]) -> Result<Option<Command>, AllocError> {
    let [command, rest @ ..] = words else {
        return Ok(None);
    };
    match command.as_str() {
        "echo" => plain_echo(alloc, rest),
        "replay" => plain_replay(alloc, rest),
        "serve" => plain_serve(alloc, rest),
        "made" => plain_made(alloc, rest),
        _ => Ok(None),
    }
}

/// The first line that is read otherwise than its row says, or than the plain program says.
fn first_other<'a>(alloc: Global, rows: &[(&'a str, &str)]) -> Result<Option<&'a str>, AllocError> {
    for (line, expected) in rows {
        let words = words_of(alloc, line)?;
        let command = read(alloc, words.as_slice())?;
        let text = text_of(alloc, command)?;
        if text.as_str() != *expected
            || !is_same(alloc, command, plain(alloc, words.as_slice())?)?
        {
            return Ok(Some(*line));
        }
    }
    Ok(None)
}

/// The first line that is not Usage, or that the plain program takes.
fn first_read<'a>(alloc: Global, lines: &[&'a str]) -> Result<Option<&'a str>, AllocError> {
    for line in lines {
        let words = words_of(alloc, line)?;
        if read(alloc, words.as_slice())?.is_some() || plain(alloc, words.as_slice())?.is_some() {
            return Ok(Some(*line));
        }
    }
    Ok(None)
}

/// Lines with the commands that they are.
const COMMANDS: &[(&str, &str)] = &[
    ("echo", "echo 16384"),
    ("echo --max-message 1", "echo 1"),
    ("echo --max-message=65536", "echo 65536"),
    ("replay", "replay 16384 65536 30 60 10 1024"),
    ("replay --max-message 1", "replay 1 65536 30 60 10 1024"),
    (
        "replay --max-message=65536",
        "replay 65536 65536 30 60 10 1024",
    ),
    ("replay --limit=1", "replay 16384 1 30 60 10 1024"),
    (
        "replay --limit 1048576",
        "replay 16384 1048576 30 60 10 1024",
    ),
    ("replay --ping-after 1", "replay 16384 65536 1 60 10 1024"),
    ("replay --ping-after=59", "replay 16384 65536 59 60 10 1024"),
    (
        "replay --idle 1000000 --ping-after 999999",
        "replay 16384 65536 999999 1000000 10 1024",
    ),
    ("replay --idle 31", "replay 16384 65536 30 31 10 1024"),
    (
        "replay --idle=2 --ping-after=1",
        "replay 16384 65536 1 2 10 1024",
    ),
    ("replay --leave 1", "replay 16384 65536 30 60 1 1024"),
    (
        "replay --leave=1000000",
        "replay 16384 65536 30 60 1000000 1024",
    ),
    ("replay --max-conns 1", "replay 16384 65536 30 60 10 1"),
    (
        "replay --max-conns=1024",
        "replay 16384 65536 30 60 10 1024",
    ),
    (
        "replay --max-conns 6 --leave=5 --idle 4 --ping-after=3 --limit 2 --max-message=1",
        "replay 1 2 3 4 5 6",
    ),
    (
        "serve --port 1",
        "serve 16384 65536 30 60 10 1024 1 18446744073709551615",
    ),
    (
        "serve --port=65535",
        "serve 16384 65536 30 60 10 1024 65535 18446744073709551615",
    ),
    (
        "serve --turns 1 --port 80",
        "serve 16384 65536 30 60 10 1024 80 1",
    ),
    (
        "serve --port=80 --turns=18446744073709551615",
        "serve 16384 65536 30 60 10 1024 80 18446744073709551615",
    ),
    (
        "serve --turns=8 --max-conns 6 --leave=5 --port 7 --idle 4 --ping-after=3 --limit 2 --max-message=1",
        "serve 1 2 3 4 5 6 7 8",
    ),
    ("made 0", "made 0"),
    ("made 7", "made 7"),
    ("made 18446744073709551615", "made 18446744073709551615"),
];

/// Lines that are Usage.
const NO_COMMANDS: &[&str] = &[
    // the command
    "",
    " echo",
    "frob",
    "ech",
    "Echo",
    "echo ",
    "echo echo",
    "serv --port 80",
    "Serve --port 80",
    "--max-message 1 echo",
    "--max-message=1 echo",
    // out of the range
    "echo --max-message 0",
    "echo --max-message=65537",
    "replay --max-message=0",
    "replay --max-message 65537",
    "replay --limit 0",
    "replay --limit=1048577",
    "replay --ping-after 0",
    "replay --ping-after 999999",
    "replay --ping-after 1000000 --idle 1000001",
    "replay --idle 1000001",
    "replay --leave 0",
    "replay --leave 1000001",
    "replay --max-conns 0",
    "replay --max-conns 1025",
    "replay --limit 4294967297",
    "replay --limit 18446744073709551616",
    "replay --limit 18446744073709551617",
    "replay --limit 00000000000000000001",
    "replay --limit 99999999999999999999",
    "serve --port 0",
    "serve --port=65536",
    "serve --port 18446744073709551617",
    "serve --port 80 --turns 0",
    "serve --port 80 --turns=0",
    "serve --port 80 --turns 18446744073709551616",
    "serve --port 80 --turns=99999999999999999999",
    "serve --port 80 --max-conns 1025",
    // `idle` is not above `ping-after`
    "replay --idle 30",
    "replay --idle 0",
    "replay --idle 1",
    "replay --ping-after 60",
    "replay --ping-after 200",
    "replay --idle 7 --ping-after 7",
    "replay --idle 7 --ping-after=8",
    "serve --port 80 --idle 30",
    // a value that is no number
    "replay --limit=",
    "replay --limit ",
    "replay --limit 01",
    "replay --limit 00",
    "replay --limit=+1",
    "replay --limit +1",
    "replay --limit -1",
    "replay --limit=-1",
    "replay --limit 1x",
    "replay --limit 1.0",
    "replay --limit 0x10",
    "replay --limit ٣",
    "replay --limit==1",
    "replay --limit --max-message",
    "replay --limit --max-message=1",
    "replay --limit=--max-message=1",
    "serve --port=",
    "serve --port 080",
    "serve --port 80 --turns 01",
    "serve --port --turns 1",
    // options that are not there, or twice
    "replay --limit",
    "replay --limit 1 --limit 2",
    "replay --limit=1 --limit=1",
    "replay --limit=1 --limit 2",
    "replay --lim 3",
    "replay --limits 3",
    "replay --max_message 3",
    "replay --LIMIT 3",
    "replay -limit 3",
    "serve",
    "serve --turns 1",
    "serve --limit 3 --idle 70",
    "serve --port",
    "serve --port 80 --port 80",
    "serve --port=80 --port 81",
    "serve --port 80 --turns 1 --turns=1",
    "serve --port 80 --seed 3",
    "replay --port 80",
    "replay --turns 1",
    "echo --port 80",
    "echo --turns=1",
    "echo --limit 3",
    "echo --max-message 1 --idle 50",
    "made --max-message 1 7",
    "made 7 --max-message 1",
    "made 7 --max-message=1",
    // a word too many, or an empty one
    "echo 1",
    "echo --max-message 1 2",
    "replay 3",
    "serve 80",
    "serve --port 80 3",
    "replay --limit 3 echo",
    "replay  --limit 3",
    // hyphens
    "--",
    "-",
    "-- echo",
    "echo --",
    "echo -",
    "echo -- --max-message 1",
    "echo --max-message 1 --",
    "echo --max-message -- 1",
    "echo --=1",
    "made --",
    "made -- 1",
    "made 1 --",
    "-a",
    "echo -ab",
    "echo -m 1",
    "made -1",
    "made -1 2",
    // help and a version
    "-h",
    "--help",
    "help",
    "help echo",
    "echo -h",
    "echo --help",
    "echo help",
    "made --help",
    "-V",
    "--version",
    "version",
    "echo -V",
    "replay --version",
    // the seed
    "made",
    "made ",
    "made 1 2",
    "made 01",
    "made +1",
    "made x",
    "made 18446744073709551616",
    "made 36893488147419103232",
];

/// Words of which up to three stand behind a command.
const PIECES: &[&str] = &[
    "",
    "--",
    "--help",
    "7",
    "31",
    "07",
    "--limit",
    "--limit=7",
    "--limit=",
    "--idle",
    "--idle=31",
    "--max-message",
    "--max-message=65537",
    "--port=80",
];

/// The command and up to three of the pieces, by a number below 15 * 15 * 15.
fn words_by_number(alloc: Global, command: &str, number: usize) -> Result<Vec<String>, AllocError> {
    let mut words = Vec::new(alloc);
    words.push(command.to_string(alloc)?)?;
    for place in [number % 15, number / 15 % 15, number / 225 % 15] {
        if let Some(piece) = PIECES.get(place) {
            words.push(piece.to_string(alloc)?)?;
        }
    }
    Ok(words)
}

/// The first number whose words the plain program reads otherwise.
fn first_apart(alloc: Global, command: &str) -> Result<Option<usize>, AllocError> {
    for number in 0..3_375 {
        let words = words_by_number(alloc, command, number)?;
        let words = words.as_slice();
        if !is_same(alloc, read(alloc, words)?, plain(alloc, words)?)? {
            return Ok(Some(number));
        }
    }
    Ok(None)
}

#[test]
fn lines(rt: HostRuntime) -> Result<(), Fail> {
    assert_eq!(rt; first_other(rt.alloc(), COMMANDS)?, None);
    assert_eq!(rt; first_read(rt.alloc(), NO_COMMANDS)?, None);
    assert!(rt; read(rt.alloc(), &[])?.is_none());
    assert_eq!(rt; first_apart(rt.alloc(), "echo")?, None);
    assert_eq!(rt; first_apart(rt.alloc(), "replay")?, None);
    assert_eq!(rt; first_apart(rt.alloc(), "serve")?, None);
    assert_eq!(rt; first_apart(rt.alloc(), "made")?, None);
    Ok(())
}

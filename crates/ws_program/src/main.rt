//! The program `corked`: a WebSocket server (RFC 6455) over standard input and output.
#![tactic(auto)]

mod answers;
mod commands;
mod echo;
mod made;
mod reads;
mod replay;
mod report;
mod runs;
mod serve;
mod status;

ghost use Rattle.std.specs.Prelude.{◌≡◌, codes};

use commands::ws_run;
use link_trait::{Outside, StdSink, StdSource};
use mio_net::LiveNet;
use status::Status;
use std::env;
use std::io::ErrorKind;
use std::process::ExitCode;
use topic_guard::{TopicGuard, TopicRule};
use ws_kinds::{Counter, Name, Tally};

#[cfg(test)]
mod tests;

/// The name with which topics begin that no peer may subscribe to.
fn reserved() -> Name
    ensures { result.items ≡ codes "$" }
{
    let mut name = Name::new();
    name.push(b'$');
    name
}

/// Runs the words of the command line over standard input and output, and over the sockets of this machine. Words that are not UTF-8
/// name no command. Topics that begin with `$` are not for peers.
fn status_of(rt: &HostRuntime) -> Status {
    let arguments = match env::args(rt) {
        Ok(arguments) => arguments,
        Err(error) if error.kind() == ErrorKind::OutOfMemory => return Status::OutOfMemory,
        Err(_) => return Status::Usage,
    };
    let Ok(words) = arguments.skip(1).collect::<Vec<String>>(rt.alloc()) else {
        return Status::OutOfMemory;
    };
    let Ok(net) = LiveNet::new(*rt, rt.alloc()) else {
        return Status::OutOfMemory;
    };
    let Ok(test) = Box::new(rt.alloc(), |topic: &[u8]| !topic.starts_with(b"$")) else {
        return Status::OutOfMemory;
    };
    let guard = TopicGuard::new(TopicRule::Except(reserved()), test);
    let mut source = StdSource::new(rt.stdin());
    let mut sink = StdSink::new(rt.stdout());
    let mut out = Outside {
        net,
        watch: Counter::new(),
        tally: Tally::new(),
    };
    ws_run(rt.alloc(), &words, &mut source, &mut sink, &mut out, guard)
}

fn main(rt: HostRuntime) -> ExitCode {
    let status = status_of(&rt);
    if status != Status::Done {
        let _ = eprintln!(rt; "corked: {status}");
    }
    ExitCode::from(status.exit_code())
}

//! The commands of the program.

ghost use Rattle.std.specs.Prelude.{◌≡◌, ℕ};
ghost use Rattle.ws_kinds.specs.ConfigValue.{ConfigValue};
ghost use Rattle.topic_guard.specs.Admits.{admits};
ghost use Rattle.ws_program.specs.Words.{IsEcho, IsMade, IsReplay, IsServe, IsNoCommand, IsNoReader, IsNoServer, RefusesWords};
ghost use Rattle.ws_program.specs.Echo.{EchoEnds};
ghost use Rattle.ws_program.specs.Replay.{ReplayEnds};
ghost use Rattle.ws_program.specs.Made.{MadeEnds};
ghost use Rattle.ws_program.specs.Serve.{Service, ServeEnds, outer, scene};
ghost use Rattle.ws_program.specs.Streams.{streams};

use crate::echo::echo_run;
use crate::made::made_run;
use crate::replay::replay_run;
use crate::serve::serve_run;
use crate::status::Status;
use command_words::{Command, read};
use link_trait::{Net, Outside, Sink, Source};
use std::alloc::Global;
use topic_guard::TopicGuard;
use ws_kinds::Watch;

/// Runs the command that the words mean, which stand without the program's name, over a source, a sink, and what is outside of a
/// server. What words mean is said by `command_words`, [`read`].
///
/// The commands are `echo`, [`echo_run`] with messages of at most `--max-message` octets; `replay`, [`replay_run`] with the
/// numbers of its options; `serve`, [`serve_run`] with the numbers, the port and the turns of its options; and `made`, [`made_run`]
/// with its seed. All other words are `Usage`, and nothing is read or written. Where there is too little memory to read the words, the
/// run ends as `OutOfMemory`, and nothing is read or written either. Faults of the source, the sink and the net are counted by them.
/// What is outside is changed by `serve` alone, and the source is read by `echo` and `replay` alone. By `replay`, `serve` and `made`
/// peers may subscribe to the topics that the guard allows.
pub fn ws_run<S: Source, K: Sink, N: Net, W: Watch>(
    alloc: Global,
    words: &[String],
    source: &mut S,
    sink: &mut K,
    out: &mut Outside<N, W>,
    guard: TopicGuard,
) -> Status
    ensures echo { (max : ℕ) → IsEcho max words.now → EchoEnds max result (streams S.Source K.Sink source.old sink.old) (streams S.Source K.Sink source.new sink.new) }
    ensures replay { (config : ConfigValue) → IsReplay config words.now →
        ReplayEnds (admits guard.rule) config result (streams S.Source K.Sink source.old sink.old) (streams S.Source K.Sink source.new sink.new) }
    ensures serve { let seen = scene N.Net W.Watch K.Sink in (asked : Service) → IsServe asked words.now → ServeEnds (admits guard.rule) asked result (seen out.old sink.old) (seen out.new sink.new) }
    ensures made { (seed : ℕ) → IsMade seed words.now → MadeEnds (admits guard.rule) seed result (K.written sink.old) (K.written sink.new) (K.faults sink.old) (K.faults sink.new) }
    ensures unread { IsNoReader words.now → (S.left source.new ≡ S.left source.old) × (S.faults source.new ≡ S.faults source.old) }
    ensures usage { result ≡ Status.Usage → IsNoCommand words.now }
    ensures no_command { IsNoCommand words.now → RefusesWords words.now result }
    ensures untouched { IsNoCommand words.now → streams S.Source K.Sink source.new sink.new ≡ streams S.Source K.Sink source.old sink.old }
    ensures outside { IsNoServer words.now → outer N.Net W.Watch out.new ≡ outer N.Net W.Watch out.old }
{
    let Ok(command) = read(alloc, words) else {
        return Status::OutOfMemory;
    };
    let Some(command) = command else {
        return Status::Usage;
    };
    match command {
        Command::Echo { max_message } => echo_run(alloc, max_message, source, sink),
        Command::Replay(config) => replay_run(alloc, config, &guard, source, sink),
        Command::Serve {
            config,
            port,
            turns,
        } => serve_run(alloc, config, port, turns, &guard, out, sink),
        Command::Made { seed } => made_run(alloc, seed, &guard, sink),
    }
}

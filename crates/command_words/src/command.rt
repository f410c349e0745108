//! A command.

use ws_kinds::Config;

/// A command, with its numbers.
#[derive(Clone, Copy)]
pub enum Command {
    /// `echo`, with the option `--max-message`.
    Echo {
        /// The octets that one message may have, from 1 to 65,536; 16,384 where the option is not given.
        max_message: u32,
    },
    /// `replay`, with the numbers of its server: the options `--max-message`, `--limit`, `--ping-after`, `--idle`, `--leave` and
    /// `--max-conns`, each by its name in `Config`. Those that are not given are as `Config::usual` has them.
    Replay(Config),
    /// `serve`, with the numbers of its server as `Replay` has them, from the same options.
    Serve {
        /// The numbers of the server.
        config: Config,
        /// The port to listen at, from 1 to 65,535, of the option `--port`, which has to be given.
        port: u16,
        /// The turns after which the server ends, from 1 to 18,446,744,073,709,551,615, of the option `--turns`;
        /// 18,446,744,073,709,551,615 where it is not given.
        turns: u64,
    },
    /// `made`, with the word behind it.
    Made {
        /// The seed, from 0 to 18,446,744,073,709,551,615.
        seed: u64,
    },
}

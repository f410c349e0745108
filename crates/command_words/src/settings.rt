//! The options.

/// An option whose value is a number.
#[derive(Clone, Copy)]
pub(crate) struct Setting {
    /// Its name, without hyphens.
    pub(crate) name: &'static str,
    /// The least number that it takes.
    pub(crate) least: u64,
    /// The greatest number that it takes.
    pub(crate) most: u64,
    /// The number that holds where the option is not given. Where there is none, the option has to be given.
    pub(crate) usual: Option<u64>,
}

/// The octets of one message.
pub(crate) const MAX_MESSAGE: Setting = Setting {
    name: "max-message",
    least: 1,
    most: 65_536,
    usual: Some(16_384),
};

/// The octets held back for a connection over which frames are dropped.
pub(crate) const LIMIT: Setting = Setting {
    name: "limit",
    least: 1,
    most: 1_048_576,
    usual: Some(65_536),
};

/// The quiet ticks after which a ping is sent.
pub(crate) const PING_AFTER: Setting = Setting {
    name: "ping-after",
    least: 1,
    most: 999_999,
    usual: Some(30),
};

/// The quiet ticks after which a connection is ended, which are also more than `PING_AFTER`.
pub(crate) const IDLE: Setting = Setting {
    name: "idle",
    least: 1,
    most: 1_000_000,
    usual: Some(60),
};

/// The ticks after which a closing connection is ended.
pub(crate) const LEAVE: Setting = Setting {
    name: "leave",
    least: 1,
    most: 1_000_000,
    usual: Some(10),
};

/// The connections at one time.
pub(crate) const MAX_CONNS: Setting = Setting {
    name: "max-conns",
    least: 1,
    most: 1_024,
    usual: Some(1_024),
};

/// The port to listen at.
pub(crate) const PORT: Setting = Setting {
    name: "port",
    least: 1,
    most: 65_535,
    usual: None,
};

/// The turns after which a server ends.
pub(crate) const TURNS: Setting = Setting {
    name: "turns",
    least: 1,
    most: u64::MAX,
    usual: Some(u64::MAX),
};

/// The options of `echo`.
pub(crate) const ECHO_OPTIONS: [Setting; 1] = [MAX_MESSAGE];

/// The options of `replay`.
pub(crate) const REPLAY_OPTIONS: [Setting; 6] = [
    MAX_MESSAGE,
    LIMIT,
    PING_AFTER,
    IDLE,
    LEAVE,
    MAX_CONNS,
];

/// The options of `serve`.
pub(crate) const SERVE_OPTIONS: [Setting; 8] = [
    MAX_MESSAGE,
    LIMIT,
    PING_AFTER,
    IDLE,
    LEAVE,
    MAX_CONNS,
    PORT,
    TURNS,
];

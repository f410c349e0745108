//! How a run of the program ends.

ghost use Rattle.std.specs.Prelude.{◌≡◌};
ghost use Rattle.ws_program.specs.Status.{exit_code_of};

use schedule_text::Fault;
use std::fmt;

/// How a run ends. Its text is what the program prints on standard error behind `corked: `, unless it is `Done`.
#[derive(Clone, Copy, Debug, PartialEq, Eq)]
pub enum Status {
    /// The job is finished.
    Done,
    /// The words name no command.
    Usage,
    /// The input breaks this rule first, in this line, counted from 1; 0 where it has more octets than a command reads.
    Refused { line: u64, fault: Fault },
    /// The source had a fault.
    ReadFault,
    /// The sink had a fault.
    WriteFault,
    /// The net had a fault.
    NetFault,
    /// There was too little memory. Nothing was written.
    OutOfMemory,
}

impl Status {
    /// The exit status of the process.
    pub fn exit_code(self) -> u8
        ensures { result ≡ exit_code_of self }
    {
        match self {
            Status::Done => 0,
            Status::Usage => 2,
            Status::Refused { .. } => 3,
            Status::ReadFault => 4,
            Status::WriteFault => 5,
            Status::NetFault => 6,
            Status::OutOfMemory => 7,
        }
    }
}

impl fmt::Display for Status {
    fn fmt<W: fmt::Write>(&self, f: &mut fmt::Formatter<W>) -> fmt::Result {
        match *self {
            Status::Done => write!(f, "done"),
            Status::Usage => write!(f, "usage"),
            Status::Refused { line, fault } => write!(f, "line {line}: {fault}"),
            Status::ReadFault => write!(f, "read fault"),
            Status::WriteFault => write!(f, "write fault"),
            Status::NetFault => write!(f, "network fault"),
            Status::OutOfMemory => write!(f, "out of memory"),
        }
    }
}

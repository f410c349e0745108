//! Why a schedule could not be read.

ghost use Rattle.std.specs.Prelude.{◌≡◌};
ghost use Rattle.schedule_text.specs.declared.fault.ReadFault.TheVariants.{Memory};

use std::alloc::{AllocError, AllocFailed};
use std::fmt;

/// The rule that a line of a schedule breaks. For each line they are tested in this order.
#[derive(Clone, Copy, Debug, PartialEq, Eq)]
pub enum Fault {
    /// The text has more than 1,048,576 octets. It is told of line 0, before anything else.
    TooLong,
    /// Line 1 is not `corked 1` with its line feed, or there is no line 1.
    BadHeader,
    /// The line is none of the forms, or has no line feed.
    BadLine,
    /// A connection arrives with a number that is not greater than all that arrived before.
    NotRising,
    /// An act names a connection that did not arrive before.
    UnknownConn,
    /// The octets of a connection go on, or end, after they ended.
    AfterEnd,
}

impl fmt::Display for Fault {
    ghost use Rattle.std.specs.Prelude.{Some};
    ghost use Rattle.schedule_text.specs.FaultText.{fault_text};

    ghost output = { λ fault. Some (fault_text fault) };

    fn fmt<W: fmt::Write>(&self, f: &mut fmt::Formatter<W>) -> fmt::Result {
        match self {
            Fault::TooLong => f.write_str("too long"),
            Fault::BadHeader => f.write_str("bad header"),
            Fault::BadLine => f.write_str("bad line"),
            Fault::NotRising => f.write_str("number not rising"),
            Fault::UnknownConn => f.write_str("unknown connection"),
            Fault::AfterEnd => f.write_str("after end"),
        }
    }
}

/// Why a schedule was not read.
#[derive(Clone, Copy, Debug, PartialEq, Eq)]
pub enum ReadFault {
    /// The first line that breaks a rule, counted from 1, and the first rule that it breaks. `TooLong` names line 0.
    Refused { line: u64, fault: Fault },
    /// Memory ran out.
    Memory,
}

impl From<AllocError> for ReadFault {
    ghost from_gives = { λ _ fault. fault ≡ Memory };

    fn from(_: AllocError) -> ReadFault {
        ReadFault::Memory
    }
}

impl<T: Drop> From<AllocFailed<T>> for ReadFault {
    ghost from_gives = { λ _ fault. fault ≡ Memory };

    fn from(_: AllocFailed<T>) -> ReadFault {
        ReadFault::Memory
    }
}

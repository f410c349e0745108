//! Schedules read from text.

ghost use Rattle.std.specs.Prelude.{◌≡◌, ◌≤◌, ◌++◌, ℕ, List, Ok, Err, length, IfOk, IfErr};
ghost use Rattle.link_trait.specs.declared.act.Act.{Act};
ghost use Rattle.schedule_text.specs.declared.fault.Fault.{Fault};
ghost use Rattle.schedule_text.specs.Spelling.{header};
ghost use Rattle.schedule_text.specs.Reading.{IsText, IsRefused, IsReading, IsUnlessMemory, RefusesWell};

use crate::arrivals::Arrivals;
use crate::cursor::Cursor;
use crate::fault::{Fault, ReadFault};
use mem_net::Schedule;
use std::alloc::Global;

/// The most octets of a schedule's text.
const MOST_OCTETS: usize = 1_048_576;

/// Reads the text of a schedule.
///
/// `Refused` names the first line that breaks a rule, counted from 1, and the first rule that it breaks, in the order of
/// `Fault`; or line 0 and `TooLong` for a text of more than 1,048,576 octets. `Memory` says that memory ran out. Time and
/// memory grow with the length of the text, the time for each act with the logarithm of the number of connections too.
pub fn read(alloc: Global, octets: &[u8]) -> Result<Schedule, ReadFault>
    // A schedule that is read is spelled so, and it is sound.
    ensures text { IfOk result (λ acts. IsText octets.now acts) }
    // A refusal names the first line that breaks a rule, and the first rule that it breaks.
    ensures refused { IfErr result (λ fault. RefusesWell octets.now fault) }
    // What is spelled so is read, and what breaks a rule is refused, unless memory runs out.
    ensures every_text { (acts : List Act) → IsText octets.now acts → IsUnlessMemory (Ok acts) result }
    ensures every_fault { (line : ℕ) (fault : Fault) → IsRefused octets.now line fault → IsUnlessMemory (Err (ReadFault.Refused line fault)) result }
{
    if octets.len() > MOST_OCTETS {
        return Err(ReadFault::Refused {
            line: 0,
            fault: Fault::TooLong,
        });
    }
    let Some(lines) = octets.strip_prefix(b"corked 1\n") else {
        return Err(ReadFault::Refused {
            line: 1,
            fault: Fault::BadHeader,
        });
    };
    read_acts(alloc, lines)
}

/// Reads the lines of acts, up to the end of the text.
fn read_acts(alloc: Global, lines: &[u8]) -> Result<Schedule, ReadFault>
    ensures { (octets : List ℕ) → length octets ≤ 1048576 → octets ≡ header ++ lines.now → IsReading octets result }
{
    let mut reader = Reader::new(alloc, lines);
    'lines: while !reader.cursor.rest.is_empty() {
        reader.line(alloc)?;
    }
    Ok(reader.schedule)
}

/// What was read of a schedule, and what is left.
#[derive(Drop)]
struct Reader<'t> {
    cursor: Cursor<'t>,
    arrivals: Arrivals,
    schedule: Schedule,
}

impl<'t> Reader<'t> {
    ghost use Rattle.std.specs.Prelude.{◌≡◌, ◌<◌, [], List, ℕ, length, OnOk};
    ghost use Rattle.schedule_text.specs.Arrivals.{Follows};
    ghost use Rattle.schedule_text.specs.Reader.{IsAt, ReadsLine};

    /// Before the first of these lines.
    fn new(alloc: Global, lines: &'t [u8]) -> Reader<'t>
        ensures lines { result.cursor.rest.now ≡ lines.now }
        ensures empty { result.schedule ≡ [] }
        ensures follows { Follows [] result.arrivals }
    {
        Reader {
            cursor: Cursor { rest: lines },
            arrivals: Arrivals::new(alloc),
            schedule: Schedule::new(alloc),
        }
    }

    /// Reads the next line. There is one.
    fn line(&mut self, alloc: Global) -> Result<(), ReadFault>
        requires { 0 < length self.old.cursor.rest.now }
        ensures line { (octets : List ℕ) → IsAt octets self.old → ReadsLine octets self.new result }
        ensures shorter { OnOk result (length self.new.cursor.rest.now < length self.old.cursor.rest.now) }
    {
        let line = self.schedule.acts().len() as u64 + 2;
        let Some(act) = self.cursor.act(alloc)? else {
            return Err(ReadFault::Refused {
                line,
                fault: Fault::BadLine,
            });
        };
        if let Some(fault) = self.arrivals.fault(&act) {
            return Err(ReadFault::Refused { line, fault });
        }
        self.arrivals.add(&act)?;
        self.schedule.push(act)?;
        Ok(())
    }
}

//! One line on a run of a made schedule.

ghost use Rattle.std.specs.Prelude.{◌≡◌, ◌++◌, IfOk, OnOk, decimal};
ghost use Rattle.made_schedule.specs.Summary.{summary_line};

use itoa::Buffer;
use std::alloc::{AllocError, Global};

/// What is told of a run of the schedule that a seed makes.
#[derive(Clone, Copy, Debug, PartialEq, Eq)]
pub struct Summary {
    /// How many turns ended.
    pub turns: u64,
    /// How many connections were accepted.
    pub connections: u64,
    /// How many messages were read.
    pub messages: u64,
    /// How many items all connections are sent where each is sent singly and at once.
    pub items: u64,
    /// How many octets all links took.
    pub octets: u64,
    /// How many items were dropped.
    pub dropped: u64,
    /// The sum of the octets that all links took, each as a number from 0 to 255.
    pub sum: u64,
}

impl Summary {
    /// The line `made SEED: turns T connections C messages M items I octets O dropped D sum S`, with a line feed. An error says that
    /// there was too little memory.
    pub fn line(&self, alloc: Global, seed: u64) -> Result<Vec<u8>, AllocError>
        ensures { IfOk result (λ line. line.items ≡ summary_line seed self.now) }
    {
        let mut line = Vec::new(alloc);
        put(&mut line, b"made ", seed)?;
        put(&mut line, b": turns ", self.turns)?;
        put(&mut line, b" connections ", self.connections)?;
        put(&mut line, b" messages ", self.messages)?;
        put(&mut line, b" items ", self.items)?;
        put(&mut line, b" octets ", self.octets)?;
        put(&mut line, b" dropped ", self.dropped)?;
        put(&mut line, b" sum ", self.sum)?;
        line.push(b'\n')?;
        Ok(line)
    }
}

/// Puts a number in decimal behind its name at the end.
fn put(line: &mut Vec<u8>, name: &[u8], number: u64) -> Result<(), AllocError>
    ensures { OnOk result (line.new.items ≡ line.old.items ++ name.now ++ decimal number) }
{
    let mut digits = Buffer::new();
    line.extend_from_slice(name)?;
    line.extend_from_slice(digits.format(number).as_bytes())
}

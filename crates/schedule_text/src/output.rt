//! Lines on their way to a sink.

ghost use Rattle.std.specs.Prelude.{◌≡◌, ◌<◌, [], ◌∷◌, decimal};
ghost use Rattle.schedule_text.specs.Line.{hex, hex_digit, line};
ghost use Rattle.schedule_text.specs.Output.{Holds, PutsTo, WritesTo, last_part, last_text, numbers_text, parts};

use arrayvec::ArrayVec;
use itoa::Buffer;
use link_trait::{Sink, write_all};

/// The sink had a fault.
#[derive(Clone, Copy, Drop)]
struct SinkFault;

/// The last part of a line.
#[derive(Clone, Copy)]
enum Last<'a> {
    /// None but the numbers.
    Nothing,
    /// A word.
    Word(&'a [u8]),
    /// Octets as hexadecimal digits.
    Hex(&'a [u8]),
}

/// Writes a line of a word and numbers in decimal, with one space before each number. Answers whether the sink took all of it; where
/// it did not, it took a front of it. No memory is taken.
pub fn write_numbers<K: Sink>(sink: &mut K, word: &[u8], numbers: &[u64]) -> bool
    ensures { WritesTo K.Sink (line (parts word.now numbers.now [])) sink.old sink.new result }
{
    write_line(sink, word, numbers, Last::Nothing)
}

/// The same with a word behind the numbers.
pub(crate) fn write_word<K: Sink>(sink: &mut K, word: &[u8], numbers: &[u64], last: &[u8]) -> bool
    ensures { WritesTo K.Sink (line (parts word.now numbers.now (last.now ∷ []))) sink.old sink.new result }
{
    write_line(sink, word, numbers, Last::Word(last))
}

/// The same with octets behind the numbers, as hexadecimal digits.
pub(crate) fn write_hex<K: Sink>(sink: &mut K, word: &[u8], numbers: &[u64], octets: &[u8]) -> bool
    ensures { WritesTo K.Sink (line (parts word.now numbers.now (hex octets.now ∷ []))) sink.old sink.new result }
{
    write_line(sink, word, numbers, Last::Hex(octets))
}

/// Writes one line: a word, numbers in decimal, and a last part. Answers whether the sink took all of it.
fn write_line<K: Sink>(sink: &mut K, word: &[u8], numbers: &[u64], last: Last<'_>) -> bool
    ensures { WritesTo K.Sink (line (parts word.now numbers.now (last_part last.entry))) sink.old sink.new result }
{
    let mut output = Output::new();
    output.line(sink, word, numbers, last).is_ok()
}

/// A buffer before a sink.
#[derive(Drop)]
struct Output {
    held: ArrayVec<u8, 1024>,
}

impl Output {
    fn new() -> Output
        ensures { result.held.items ≡ [] }
    {
        Output {
            held: ArrayVec::new(),
        }
    }

    /// Writes a line, and leaves nothing in the buffer.
    fn line<K: Sink>(
        &mut self,
        sink: &mut K,
        word: &[u8],
        numbers: &[u64],
        last: Last<'_>,
    ) -> Result<(), SinkFault>
        requires { self.old.held.items ≡ [] }
        ensures { PutsTo K.Sink (line (parts word.now numbers.now (last_part last.entry))) [] [] sink.old sink.new result }
    {
        self.put(sink, word)?;
        self.numbers(sink, numbers)?;
        self.last(sink, last)?;
        self.put(sink, b"\n")?;
        self.flush(sink)
    }

    /// Puts each number behind a space.
    fn numbers<K: Sink>(&mut self, sink: &mut K, numbers: &[u64]) -> Result<(), SinkFault>
        ensures { PutsTo K.Sink (numbers_text numbers.now) self.old.held.items self.new.held.items sink.old sink.new result }
    {
        'numbers: for number in numbers {
            self.number(sink, *number)?;
        }
        Ok(())
    }

    /// Puts a number behind a space.
    fn number<K: Sink>(&mut self, sink: &mut K, number: u64) -> Result<(), SinkFault>
        ensures { PutsTo K.Sink (32 ∷ decimal number) self.old.held.items self.new.held.items sink.old sink.new result }
    {
        let mut digits = Buffer::new();
        self.put(sink, b" ")?;
        self.put(sink, digits.format(number).as_bytes())
    }

    /// Puts the last part behind a space, if there is one.
    fn last<K: Sink>(&mut self, sink: &mut K, last: Last<'_>) -> Result<(), SinkFault>
        ensures { PutsTo K.Sink (last_text last.entry) self.old.held.items self.new.held.items sink.old sink.new result }
    {
        match last {
            Last::Nothing => Ok(()),
            Last::Word(word) => {
                self.put(sink, b" ")?;
                self.put(sink, word)
            }
            Last::Hex(octets) => {
                self.put(sink, b" ")?;
                self.hex(sink, octets)
            }
        }
    }

    /// Puts octets as hexadecimal digits.
    fn hex<K: Sink>(&mut self, sink: &mut K, octets: &[u8]) -> Result<(), SinkFault>
        ensures { PutsTo K.Sink (hex octets.now) self.old.held.items self.new.held.items sink.old sink.new result }
    {
        'octets: for octet in octets {
            self.put(sink, &[digit(*octet / 16), digit(*octet % 16)])?;
        }
        Ok(())
    }

    /// Puts octets behind those that are held back. Where the buffer has no room for them, all is written.
    fn put<K: Sink>(&mut self, sink: &mut K, octets: &[u8]) -> Result<(), SinkFault>
        ensures { PutsTo K.Sink octets.now self.old.held.items self.new.held.items sink.old sink.new result }
    {
        if self.hold(octets) {
            return Ok(());
        }
        self.flush(sink)?;
        send(sink, octets)
    }

    /// Holds octets back behind the others, if the buffer has room for them.
    fn hold(&mut self, octets: &[u8]) -> bool
        ensures { Holds octets.now self.old.held.items self.new.held.items result }
    {
        self.held.try_extend_from_slice(octets).is_ok()
    }

    /// Writes what is held back.
    fn flush<K: Sink>(&mut self, sink: &mut K) -> Result<(), SinkFault>
        ensures empty { self.new.held.items ≡ [] }
        ensures written { PutsTo K.Sink [] self.old.held.items [] sink.old sink.new result }
    {
        let result = send(sink, self.held.as_slice());
        self.held.clear();
        result
    }
}

/// Writes octets, with nothing held back before or after.
fn send<K: Sink>(sink: &mut K, octets: &[u8]) -> Result<(), SinkFault>
    ensures { PutsTo K.Sink octets.now [] [] sink.old sink.new result }
{
    if !write_all(sink, octets) {
        return Err(SinkFault);
    }
    Ok(())
}

/// A number below 16 as a lower-case hexadecimal digit.
fn digit(number: u8) -> u8
    requires { number < 16 }
    ensures { result ≡ hex_digit number }
{
    if number < 10 {
        b'0' + number
    } else {
        b'a' + (number - 10)
    }
}

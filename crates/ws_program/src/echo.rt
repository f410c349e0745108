//! The command `echo`: one connection without a handshake, whose messages are sent back.

ghost use Rattle.std.specs.Prelude.{◌≡◌, ◌≤◌, length, [], Some};
ghost use Rattle.link_trait.specs.Link.{TellsAlike};
ghost use Rattle.frame_reader.specs.Reader.{ahead, room_of};
ghost use Rattle.wire_meaning.specs.Bounds.{AreShort};
ghost use Rattle.ws_program.specs.Answers.{AnswersNext, AnswersAll, AnswersOctets, CountsFaults};
ghost use Rattle.ws_program.specs.Echo.{EchoEnds, EndsPast};
ghost use Rattle.ws_program.specs.Streams.{streams};

use crate::answers::{Answered, Answers};
use crate::reads::MAX_READ;
use crate::status::Status;
use frame_reader::Reader;
use link_trait::{Got, Sink, Source};
use schedule_text::Fault;
use std::alloc::Global;

/// The most octets that an echo reads, 64 MiB.
const MAX_INPUT: usize = 67_108_864;

/// Reads the frames of one connection, which has no handshake, from the source, and writes what an echo answers to the
/// sink: every message is sent back, and every ping answered by its pong (RFC 6455, sections 5.5.3 and 5.6).
///
/// A message has at most `max_message` octets, from 1 to 65,536. It ends
///
/// - as `Done` at the source's end, or behind the close frame that answers a close or a failure (section 5.5.1). No read
///   follows one that had the end of the reading: the contract says that without at most the last 8,192 octets that were
///   read the reading had not ended, and a test looks at the source;
/// - as `Refused` with line 0 and `TooLong` where 64 MiB were read, the reading has not ended, and a further read gives
///   octets. These are not answered;
/// - as `ReadFault` or `WriteFault` at the first fault of the source or the sink, which they counted. What was read
///   before a fault of the source is answered; after a fault of the sink a front of the answers is written;
/// - as `OutOfMemory`, before anything is read or written. No memory is taken later.
///
/// A read takes at most 8,192 octets. The answers to it are written together, before the next read.
pub fn echo_run<S: Source, K: Sink>(
    alloc: Global,
    max_message: u32,
    source: &mut S,
    sink: &mut K,
) -> Status
    requires least { 1 ≤ max_message }
    requires most { max_message ≤ 65536 }
    ensures { EchoEnds max_message result (streams S.Source K.Sink source.old sink.old) (streams S.Source K.Sink source.new sink.new) }
{
    let Ok(mut reader) = Reader::new(alloc, max_message) else {
        return Status::OutOfMemory;
    };
    let Ok(mut answers) = Answers::new(alloc) else {
        return Status::OutOfMemory;
    };
    let mut octets = [0; MAX_READ];
    let mut left = MAX_INPUT;
    'reads: while left > 0 {
        let most = MAX_READ.min(left);
        match source.read(&mut octets[..most]) {
            Got::Octets(count) => {
                match answer_octets(&mut reader, &mut answers, &octets[..count], sink) {
                    Answered::One => unreachable!("all events were answered"),
                    Answered::All => left -= count,
                    Answered::Closed => return Status::Done,
                    Answered::Failed => return Status::WriteFault,
                }
            }
            Got::End => return Status::Done,
            Got::Failed => return Status::ReadFault,
        }
    }
    past_the_limit(source)
}

/// How an echo ends that has read all that it may: one more read tells whether the source has more.
fn past_the_limit<S: Source>(source: &mut S) -> Status
    ensures ends { EndsPast result (S.left source.old) (S.left source.new) (S.faults source.old) (S.faults source.new) }
    ensures tells { TellsAlike (S.left source.old) (S.left source.new) }
    ensures later { S.faults source.old ≤ S.faults source.new }
{
    match source.read(&mut [0; 1]) {
        Got::Octets(_) => Status::Refused {
            line: 0,
            fault: Fault::TooLong,
        },
        Got::End => Status::Done,
        Got::Failed => Status::ReadFault,
    }
}

/// Answers the events that these octets tell, and writes the answers.
fn answer_octets<K: Sink>(
    reader: &mut Reader,
    answers: &mut Answers,
    octets: &[u8],
    sink: &mut K,
) -> Answered
    requires room { length octets.now ≤ room_of reader.old }
    requires short { AreShort 65536 (ahead reader.old octets.now) }
    requires empty { answers.old ≡ [] }
    ensures octets { AnswersOctets result reader.old octets.now reader.new (K.written sink.old) (K.written sink.new) }
    ensures empty { result ≡ Answered.All → answers.new ≡ [] }
    ensures tells { TellsAlike (K.written sink.old) (K.written sink.new) }
    ensures later { K.faults sink.old ≤ K.faults sink.new }
    ensures cause { CountsFaults result (K.faults sink.old) (K.faults sink.new) }
{
    reader.feed(octets);
    let answered = answer_events(reader, answers, sink);
    if matches!(answered, Answered::Failed) {
        return Answered::Failed;
    }
    if !answers.write_to(sink) {
        return Answered::Failed;
    }
    answered
}

/// Answers the events that are ahead, up to a close or a failure.
fn answer_events<K: Sink>(reader: &mut Reader, answers: &mut Answers, sink: &mut K) -> Answered
    requires { AreShort 65536 (ahead reader.old []) }
    ensures all { AnswersAll result reader.old reader.new (K.written sink.old) (K.written sink.new) answers.old answers.new }
    ensures tells { TellsAlike (K.written sink.old) (K.written sink.new) }
    ensures later { K.faults sink.old ≤ K.faults sink.new }
    ensures cause { CountsFaults result (K.faults sink.old) (K.faults sink.new) }
{
    'events: loop {
        match answer_next(reader, answers, sink) {
            Answered::One => {}
            Answered::All => return Answered::All,
            Answered::Closed => return Answered::Closed,
            Answered::Failed => return Answered::Failed,
        }
    }
}

/// Answers the next event.
fn answer_next<K: Sink>(reader: &mut Reader, answers: &mut Answers, sink: &mut K) -> Answered
    requires { AreShort 65536 (ahead reader.old []) }
    ensures next { AnswersNext result reader.old reader.new (K.written sink.old) (K.written sink.new) answers.old answers.new }
    ensures tells { TellsAlike (K.written sink.old) (K.written sink.new) }
    ensures later { K.faults sink.old ≤ K.faults sink.new }
    ensures cause { CountsFaults result (K.faults sink.old) (K.faults sink.new) }
{
    answers.answer(reader.next(), sink)
}

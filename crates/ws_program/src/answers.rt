//! What is to be written: the frames that answer events, gathered so that many small ones take one write.

ghost use Rattle.std.specs.Prelude.{◌≡◌, ◌≤◌, ◌+◌, ◌++◌, true, false, length, [], IfOk, IsTrue, Some, None};
ghost use Rattle.std.specs.Io.KnownBytes.{Appends};
ghost use Rattle.link_trait.specs.Link.{TellsAlike, Rose};
ghost use Rattle.link_trait.specs.Sink.{AppendsFront};
ghost use Rattle.wire_meaning.specs.Frame.{frame, opcode_number};
ghost use Rattle.wire_meaning.specs.declared.frame.Opcode.{Opcode};
ghost use Rattle.wire_meaning.specs.Answer.{spelled, close_item};
ghost use Rattle.frame_writer.specs.Header.{is_sent_opcode};
ghost use Rattle.frame_reader.specs.Step.{events_of};
ghost use Rattle.wire_meaning.specs.Bounds.{AreShort};
ghost use Rattle.ws_program.specs.Answers.{Passes, Puts, AnswersStep, CountsFaults};

use frame_reader::Step;
use frame_writer::head_of;
use link_trait::{Sink, write_all};
use std::alloc::{AllocError, Global};
use std::marker::Model;
use wire_meaning::{Opcode, close_body, opcode_number};

/// The most octets that are held. It is more than the longest frame has: 10 of the header and 65,536 of the payload.
const CAPACITY: usize = 131_072;

/// What became of the events that were to be answered.
#[derive(Clone, Copy, Debug, PartialEq, Eq)]
pub(crate) enum Answered {
    /// An event that is not the last one was answered, and more may be ahead.
    One,
    /// None is ahead, and the reading goes on.
    All,
    /// A close or a failure was answered, after which nothing is read.
    Closed,
    /// The sink had a fault. A front of the answers was written.
    Failed,
}

/// The octets of answers that are still to be written. A contract sees them as a list.
#[derive(Drop)]
pub(crate) struct Answers {
    octets: Vec<u8>,
}

impl Model for Answers {
    ghost use Rattle.std.specs.Prelude.{ℕ, List, ◌≤◌, vec_len, vec_capacity};

    ghost Value = { List ℕ };

    ghost view = { λ answers. answers.octets.items };

    ghost invariant = { λ answers. (vec_len answers.octets ≤ 131072) × (131072 ≤ vec_capacity answers.octets) };
}

impl Answers {
    /// No octets. The memory is taken here, and no later call takes any.
    pub(crate) fn new(alloc: Global) -> Result<Answers, AllocError>
        ensures { IfOk result (λ answers. answers ≡ []) }
    {
        Ok(Answers {
            octets: Vec::with_capacity(alloc, CAPACITY)?,
        })
    }

    /// Answers the event of a step; `All` is for `More`, which has none.
    pub(crate) fn answer<K: Sink>(&mut self, step: Step<'_>, sink: &mut K) -> Answered
        requires { AreShort 65536 (events_of step) }
        ensures step { AnswersStep result step.entry (K.written sink.old) (K.written sink.new) self.old self.new }
        ensures tells { TellsAlike (K.written sink.old) (K.written sink.new) }
        ensures later { K.faults sink.old ≤ K.faults sink.new }
        ensures cause { CountsFaults result (K.faults sink.old) (K.faults sink.new) }
    {
        match step {
            Step::More => Answered::All,
            Step::Message(kind, octets) => self.put_event(Opcode::Begins(kind), octets, sink),
            Step::Ping(payload) => self.put_event(Opcode::Pong, payload, sink),
            Step::Pong(_) => Answered::One,
            Step::Close(code, _) => self.put_close(code, sink),
            Step::Failed(code) => self.put_close(code, sink),
        }
    }

    /// Puts the frame that answers an event that is not the last one.
    fn put_event<K: Sink>(&mut self, opcode: Opcode, payload: &[u8], sink: &mut K) -> Answered
        requires opcode { IsTrue (is_sent_opcode (opcode_number opcode)) }
        requires short { length payload.now ≤ 65536 }
        ensures puts { Puts result Answered.One (K.written sink.old) (K.written sink.new) self.old self.new (frame true opcode payload.now) }
        ensures tells { TellsAlike (K.written sink.old) (K.written sink.new) }
        ensures later { K.faults sink.old ≤ K.faults sink.new }
        ensures cause { CountsFaults result (K.faults sink.old) (K.faults sink.new) }
    {
        if self.put(opcode, payload, sink) {
            Answered::One
        } else {
            Answered::Failed
        }
    }

    /// Puts the close frame with this code alone.
    fn put_close<K: Sink>(&mut self, code: u16, sink: &mut K) -> Answered
        ensures puts { Puts result Answered.Closed (K.written sink.old) (K.written sink.new) self.old self.new (spelled (close_item code)) }
        ensures tells { TellsAlike (K.written sink.old) (K.written sink.new) }
        ensures later { K.faults sink.old ≤ K.faults sink.new }
        ensures cause { CountsFaults result (K.faults sink.old) (K.faults sink.new) }
    {
        if self.put(Opcode::Close, &close_body(code), sink) {
            Answered::Closed
        } else {
            Answered::Failed
        }
    }

    /// Puts a frame behind what is held. Where it does not fit there, what is held is written first.
    fn put<K: Sink>(&mut self, opcode: Opcode, payload: &[u8], sink: &mut K) -> bool
        requires opcode { IsTrue (is_sent_opcode (opcode_number opcode)) }
        requires short { length payload.now ≤ 65536 }
        ensures taken { result ≡ true → Passes (K.written sink.old) (K.written sink.new) self.old self.new (frame true opcode payload.now) }
        ensures front { result ≡ false → AppendsFront (K.written sink.old) (K.written sink.new) (self.old ++ frame true opcode payload.now) }
        ensures tells { TellsAlike (K.written sink.old) (K.written sink.new) }
        ensures later { K.faults sink.old ≤ K.faults sink.new }
        ensures unfailing { result ≡ true → K.faults sink.new ≡ K.faults sink.old }
        ensures cause { result ≡ false → Rose (K.faults sink.old) (K.faults sink.new) }
    {
        let head = head_of(opcode_number(opcode), payload.len());
        if !self.make_room(head.len() + payload.len(), sink) {
            return false;
        }
        self.append(&head);
        self.append(payload);
        true
    }

    /// Writes what is held, unless so many octets fit behind it.
    fn make_room<K: Sink>(&mut self, count: usize, sink: &mut K) -> bool
        requires { count ≤ CAPACITY }
        ensures taken { result ≡ true → Passes (K.written sink.old) (K.written sink.new) self.old self.new [] }
        ensures fits { result ≡ true → length self.new + count ≤ CAPACITY }
        ensures front { result ≡ false → AppendsFront (K.written sink.old) (K.written sink.new) self.old }
        ensures tells { TellsAlike (K.written sink.old) (K.written sink.new) }
        ensures later { K.faults sink.old ≤ K.faults sink.new }
        ensures unfailing { result ≡ true → K.faults sink.new ≡ K.faults sink.old }
        ensures cause { result ≡ false → Rose (K.faults sink.old) (K.faults sink.new) }
    {
        if self.octets.len() + count <= CAPACITY {
            return true;
        }
        self.write_to(sink)
    }

    /// Puts octets behind what is held.
    fn append(&mut self, octets: &[u8])
        requires { length self.old + length octets.now ≤ CAPACITY }
        ensures { self.new ≡ self.old ++ octets.now }
    {
        self.octets.extend_from_slice(octets).unwrap();
    }

    /// Writes what is held, and answers whether the sink took it all. Then nothing is held.
    pub(crate) fn write_to<K: Sink>(&mut self, sink: &mut K) -> bool
        ensures taken { result ≡ true → Appends (K.written sink.old) (K.written sink.new) self.old }
        ensures empty { result ≡ true → self.new ≡ [] }
        ensures front { result ≡ false → AppendsFront (K.written sink.old) (K.written sink.new) self.old }
        ensures tells { TellsAlike (K.written sink.old) (K.written sink.new) }
        ensures later { K.faults sink.old ≤ K.faults sink.new }
        ensures unfailing { result ≡ true → K.faults sink.new ≡ K.faults sink.old }
        ensures cause { result ≡ false → Rose (K.faults sink.old) (K.faults sink.new) }
    {
        if !write_all(sink, &self.octets) {
            return false;
        }
        self.octets.clear();
        true
    }
}

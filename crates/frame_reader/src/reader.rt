//! The reader of a connection's octets.

ghost use Rattle.std.specs.Prelude.{◌≡◌, ◌≤◌, ◌⊎◌, ◌+◌, ◌-◌, ◌<◌, ◌++◌, ◌&&◌, not, ℕ, List, [], IfOk, Option, MatchOption, length, vec_len, vec_capacity, drop, take, true, false};
ghost use Rattle.std.specs.Prelude.{None, IsSome, IfSome, IfNone};
ghost use Rattle.utf8_stream.specs.Stream.{Follows, is_front};
ghost use Rattle.std.specs.Borrow.{sem};
ghost use Rattle.std.specs.Str.{is_utf8};
ghost use Rattle.wire_meaning.specs.Text.{is_text_front};
ghost use Rattle.wire_meaning.specs.Mask.{unmasked};
ghost use Rattle.wire_meaning.specs.Reading.{begun_octets, is_control, is_text, reading};
ghost use Rattle.frame_reader.specs.State.{begun_of, is_text_open, left_of};
ghost use Rattle.frame_reader.specs.Header.{kind_in, Describes, IsHeader};
ghost use Rattle.frame_reader.specs.Close.{CloseIs};

use crate::data_frame::DataFrame;
use crate::header::{FrameHeader, Header, MessageState, header_at};
use crate::mask::unmask;
use crate::step::Step;
use frame_writer::{Closing, close_of};
use std::alloc::{AllocError, Global};
use utf8_stream::{Text, Utf8};
use wire_meaning::{Opcode, is_control};
use ws_kinds::Kind;

/// The most octets of one read, which fit beside those of a message.
const LONGEST_READ: usize = 8192;

/// More octets than are left where the octets that came tell nothing more, which are at most 130.
const LEFT: usize = 256;

/// How many raw octets fit beside the octets of a message.
const SPARE: usize = LONGEST_READ + LEFT;

/// What the next raw octet is to a reader.
#[derive(Clone, Copy)]
enum State {
    /// The first of a frame; the kind of the open message, if one is open.
    AtFrameStart(Option<Kind>),
    /// One of the payload of a data frame, or behind it. The frame belongs to a message of this kind.
    InDataFrame(Kind, DataFrame),
    /// Nothing, since a close or a failure was told.
    Ended,
}

/// An event without its octets: a message's are in `message`, and the others' are the last of the raw ones that were
/// taken, so many of them.
#[derive(Clone, Copy, Debug)]
enum EventSpan {
    Message(Kind),
    Ping(usize),
    Pong(usize),
    Close(u16, usize),
    Failed(u16),
}

/// What became of one part of the octets: of a header, a control frame, or payload octets of a data frame.
#[derive(Clone, Copy, Debug)]
enum Parsed {
    /// It has not all come, and the octets that came tell nothing more.
    Incomplete,
    /// It was taken, and told nothing.
    Part,
    /// It was taken, and told this.
    Event(EventSpan),
}

/// Reads the octets of one connection as they come, and tells their events one by one (RFC 6455, sections 5.4, 5.5
/// and 8.1).
///
/// A part of a frame is judged as soon as its octets are there, and the text of a message as its octets come. The octets of a
/// character that has not ended, three at most, are looked at again with each further piece of the text, until it ends. The
/// payload of a data frame is moved once, into its message; the octets that [`Reader::feed`] finds in its way, at most 130
/// where [`Reader::next`] was called until `More`, are moved once more.
#[derive(Drop)]
pub struct Reader {
    max_message: u32,
    state: State,
    /// The octets that came, of which `start` were taken.
    raw: Vec<u8>,
    start: usize,
    /// The octets of the open message, or of the message that was told last.
    message: Vec<u8>,
    /// The check of an open text, behind these octets.
    utf8: Utf8,
    ghost started: { start ≤ vec_len raw },
    ghost raw_fits: { vec_len raw ≤ max_message + 8448 },
    ghost raw_reserved: { max_message + 8448 ≤ vec_capacity raw },
    ghost message_fits: { vec_len message + left_of state ≤ max_message },
    ghost message_reserved: { max_message ≤ vec_capacity message },
    ghost text_checked: { is_text_open state ≡ true → Follows utf8 message.items },
}

/// What the payload of a close frame says, by how many octets its reason has.
fn close_span(payload: &[u8]) -> EventSpan
    ensures { CloseIs result payload.now }
{
    match close_of(payload) {
        Closing::Empty => EventSpan::Close(1005, 0),
        Closing::Code(code) => EventSpan::Close(code, payload.len().saturating_sub(2)),
        Closing::Bad(code) => EventSpan::Failed(code),
    }
}

/// Takes the next octets of an open message, and says whether it can still become what its kind asks for.
fn check_text(kind: Kind, utf8: &mut Utf8, octets: &[u8]) -> Text
    ensures follows { (all : List ℕ) → (is_text kind ≡ true → Follows utf8.old all) → is_text kind ≡ true → Follows utf8.new (all ++ octets.now) }
    ensures text { (all : List ℕ) → (is_text kind ≡ true → Follows utf8.old all) → (is_text kind && not (is_text_front (all ++ octets.now))) ≡ not (is_front result) }
{
    match kind {
        Kind::Binary => Text::Front,
        Kind::Text => utf8.push(octets),
    }
}

/// The whole text is not UTF-8.
fn ends_badly(kind: Kind, utf8: &Utf8) -> bool
    ensures { (all : List ℕ) → (is_text kind ≡ true → Follows utf8.now all) → (is_text kind && not (is_utf8 all)) ≡ result }
{
    match kind {
        Kind::Binary => false,
        Kind::Text => !utf8.ends(),
    }
}

/// The kind of the message that a data frame in its turn belongs to.
fn kind_in(kind: Option<Kind>, opcode: Opcode) -> Option<Kind>
    ensures { result ≡ kind_in kind opcode }
{
    match (opcode, kind) {
        (Opcode::Begins(kind), None) => Some(kind),
        (Opcode::Continuation, Some(kind)) => Some(kind),
        _ => None,
    }
}

/// Puts payload octets behind those of a message, without their mask.
fn append_unmasked(message: &mut Vec<u8>, octets: &[u8], key: [u8; 4], place: usize)
    requires turn { place < 4 }
    requires fits { vec_len message.old + length octets.now ≤ vec_capacity message.old }
    ensures items { message.new.items ≡ message.old.items ++ unmasked key place octets.now }
    ensures len { vec_len message.new ≡ vec_len message.old + length octets.now }
    ensures capacity { vec_capacity message.old ≤ vec_capacity message.new }
{
    let held = message.len();
    message.extend_from_slice(octets).unwrap();
    unmask(&mut message[held..], key, place);
}

/// Takes the mask off a part of the octets, which is a whole payload.
fn unmask_part(octets: &mut Vec<u8>, from: usize, to: usize, key: [u8; 4])
    requires part { from ≤ to }
    requires within { to ≤ vec_len octets.old }
    ensures items { octets.new.items ≡ take from octets.old.items ++ (unmasked key 0 (take (to - from) (drop from octets.old.items)) ++ drop to octets.old.items) }
    ensures len { vec_len octets.new ≡ vec_len octets.old }
    ensures capacity { vec_capacity octets.new ≡ vec_capacity octets.old }
{
    unmask(&mut octets[from..to], key, 0);
}

/// Keeps the octets of the open message and their check, where one is open.
fn go_on_with(message: &mut Vec<u8>, utf8: &mut Utf8, open_kind: Option<Kind>)
    ensures items { message.new.items ≡ begun_octets (begun_of open_kind message.old.items) }
    ensures len { vec_len message.new ≡ length (begun_octets (begun_of open_kind message.old.items)) }
    ensures capacity { vec_capacity message.new ≡ vec_capacity message.old }
    ensures fresh { open_kind ≡ None → Follows utf8.new [] }
    ensures kept { IsSome open_kind → utf8.new ≡ utf8.old }
{
    if open_kind.is_none() {
        message.clear();
        *utf8 = Utf8::new();
    }
}

impl Reader {
    ghost use Rattle.frame_reader.specs.Reader.{raw_of, max_of, ahead, room_of, has_ended, is_unread};
    ghost use Rattle.frame_reader.specs.Parsed.{Tells, ParsedIs, Keeps, AwaitsOctets, HasEvent, last, burden};
    ghost use Rattle.frame_reader.specs.Step.{RestsStepped};

    /// A reader to which no octets came, for messages of at most `max_message` octets, all fragments together.
    ///
    /// It takes `max_message + 8,448` octets of memory for what came and `max_message` for the open message. That there
    /// is no such memory is the one error. No other call takes memory.
    pub fn new(alloc: Global, max_message: u32) -> Result<Reader, AllocError>
        ensures ahead { IfOk result (λ reader. (more : List ℕ) → ahead reader more ≡ reading max_message more) }
        ensures room { IfOk result (λ reader. room_of reader ≡ max_message + 8448) }
        ensures goes_on { IfOk result (λ reader. has_ended reader ≡ false) }
        ensures raw { IfOk result (λ reader. raw_of reader ≡ []) }
        ensures unread { IfOk result (λ reader. is_unread reader ≡ true) }
        ensures max { IfOk result (λ reader. max_of reader ≡ max_message) }
    {
        Ok(Reader {
            max_message,
            state: State::AtFrameStart(None),
            raw: Vec::with_capacity(alloc, max_message as usize + SPARE)?,
            start: 0,
            message: Vec::with_capacity(alloc, max_message as usize)?,
            utf8: Utf8::new(),
        })
    }

    /// How many octets [`Reader::feed`] may take now: `max_message + 8,448`, less those that no event so far has used
    /// and that are not part of the open message.
    pub fn room(&self) -> usize
        ensures { result ≡ room_of self.now }
    {
        self.max_message as usize + SPARE - (self.raw.len() - self.start)
    }

    /// Takes the next octets that came, none or at most as many as there is room for. After a `Close` or `Failed` they
    /// change nothing of what is told.
    pub fn feed(&mut self, octets: &[u8])
        requires { length octets.now ≤ room_of self.old }
        ensures ahead { (more : List ℕ) → ahead self.new more ≡ ahead self.old (octets.now ++ more) }
        ensures room { room_of self.new + length octets.now ≡ room_of self.old }
        ensures same { has_ended self.new ≡ has_ended self.old }
        ensures raw { raw_of self.new ≡ raw_of self.old ++ octets.now }
        ensures unread { is_unread self.new ≡ is_unread self.old }
        ensures max { max_of self.new ≡ max_of self.old }
    {
        if self.raw.len() + octets.len() > self.max_message as usize + SPARE {
            self.settle();
        }
        self.raw.extend_from_slice(octets).unwrap();
    }

    /// The octets that came and were not taken yet.
    ///
    /// Before the first [`Reader::next`] these are all that [`Reader::feed`] took, less those that [`Reader::skip`] took
    /// off. So the head of the request that a connection begins with can be looked for in them (RFC 6455, section 4.1).
    /// After `More` they are at most 130, unless a `Close` or `Failed` was told.
    pub fn raw(&self) -> &[u8]
        ensures raw { result.now ≡ raw_of self.now }
        ensures room { room_of self.now + length (raw_of self.now) ≡ max_of self.now + 8448 }
        ensures unread { is_unread self.now ≡ true → (more : List ℕ) → ahead self.now more ≡ reading (max_of self.now) (raw_of self.now ++ more) }
    {
        &self.raw[self.start..]
    }

    /// Takes the first `count` of the raw octets off, none or at most all of them, without reading them. The frames begin
    /// behind them, as they do behind the head of a request (RFC 6455, section 4.1).
    ///
    /// The reader has to be unread: no frame is begun, no message is open, and no `Close` or `Failed` was told. A new one
    /// is, and stays so while only [`Reader::feed`] and this are called. There is then so much more room.
    pub fn skip(&mut self, count: usize)
        requires unread { is_unread self.old ≡ true }
        requires within { count ≤ length (raw_of self.old) }
        ensures raw { raw_of self.new ≡ drop count (raw_of self.old) }
        ensures ahead { (more : List ℕ) → ahead self.new more ≡ reading (max_of self.old) (drop count (raw_of self.old) ++ more) }
        ensures room { room_of self.new ≡ room_of self.old + count }
        ensures same { has_ended self.new ≡ has_ended self.old }
        ensures unread { is_unread self.new ≡ true }
        ensures max { max_of self.new ≡ max_of self.old }
    {
        self.start += count;
    }

    /// Moves the raw octets that were not taken to the front.
    fn settle(&mut self)
        ensures raw { raw_of self.new ≡ raw_of self.old }
        ensures start { self.new.start ≡ 0 }
        ensures same { (self.new.max_message ≡ self.old.max_message) × (self.new.state ≡ self.old.state) × (self.new.message ≡ self.old.message) }
    {
        let left = self.raw.len() - self.start;
        self.raw.copy_within(self.start.., 0);
        self.raw.truncate(left);
        self.start = 0;
    }

    /// Takes the octets of the frame's payload that came, and goes on in the frame. Says what they are with the
    /// message's octets before them, where it is text.
    fn take_payload(&mut self, kind: Kind, frame: DataFrame) -> (DataFrame, Text)
        requires { self.old.state ≡ State.InDataFrame kind frame }
        ensures state { self.new.state ≡ State.InDataFrame kind result.0 }
        ensures tells { Tells self.old [] self.new }
        ensures kept { Keeps self.old self.new }
        ensures taken { length (raw_of self.new) ≡ 0 ⊎ result.0.left ≡ 0 }
        ensures last { result.0.is_final ≡ frame.is_final }
        ensures text { (is_text kind && not (is_text_front self.new.message.items)) ≡ not (is_front result.1) }
    {
        let from = self.start;
        let count = frame.left.min(self.raw.len() - from);
        let to = from + count;
        let held = self.message.len();
        append_unmasked(
            &mut self.message,
            &self.raw[from..to],
            frame.key,
            frame.place,
        );
        let text = check_text(kind, &mut self.utf8, &self.message[held..]);
        let next = frame.after(count);
        self.start = to;
        self.state = State::InDataFrame(kind, next);
        (next, text)
    }

    /// Ends the frame whose payload octets were taken, if these are all, with which a text can still become UTF-8.
    fn end_payload(&mut self, kind: Kind, frame: DataFrame) -> Parsed
        requires state { self.old.state ≡ State.InDataFrame kind frame }
        requires taken { length (raw_of self.old) ≡ 0 ⊎ frame.left ≡ 0 }
        requires text { (is_text kind && not (is_text_front self.old.message.items)) ≡ false }
        ensures parsed { ParsedIs result self.old self.new }
        ensures kept { Keeps self.old self.new }
    {
        if frame.left > 0 {
            return Parsed::Incomplete;
        }
        if !frame.is_final {
            self.state = State::AtFrameStart(Some(kind));
            return Parsed::Part;
        }
        if ends_badly(kind, &self.utf8) {
            self.state = State::Ended;
            return Parsed::Event(EventSpan::Failed(1007));
        }
        self.state = State::AtFrameStart(None);
        Parsed::Event(EventSpan::Message(kind))
    }

    /// Takes the payload octets that came, and ends the frame if these are all.
    fn parse_payload(&mut self, kind: Kind, frame: DataFrame) -> Parsed
        requires state { self.old.state ≡ State.InDataFrame kind frame }
        ensures parsed { ParsedIs result self.old self.new }
        ensures kept { Keeps self.old self.new }
    {
        let (frame, text) = self.take_payload(kind, frame);
        match text {
            Text::Front => self.end_payload(kind, frame),
            Text::Bad => {
                self.state = State::Ended;
                Parsed::Event(EventSpan::Failed(1007))
            }
        }
    }

    /// Goes into the data frame that this header begins.
    fn enter(&mut self, open_kind: Option<Kind>, kind: Kind, header: FrameHeader)
        requires state { self.old.state ≡ State.AtFrameStart open_kind }
        requires kind { kind_in open_kind header.opcode ≡ Some kind }
        requires header { IsHeader self.old.max_message (begun_of open_kind self.old.message.items) (raw_of self.old) header }
        ensures parsed { ParsedIs Parsed.Part self.old self.new }
        ensures kept { Keeps self.old self.new }
    {
        go_on_with(&mut self.message, &mut self.utf8, open_kind);
        self.start += header.length;
        self.state = State::InDataFrame(kind, DataFrame::new(header));
    }

    /// Takes the control frame that this header begins, once its payload is whole.
    fn parse_control_frame(&mut self, open_kind: Option<Kind>, header: FrameHeader) -> Parsed
        requires state { self.old.state ≡ State.AtFrameStart open_kind }
        requires control { is_control header.opcode ≡ true }
        requires header { IsHeader self.old.max_message (begun_of open_kind self.old.message.items) (raw_of self.old) header }
        ensures parsed { ParsedIs result self.old self.new }
        ensures kept { Keeps self.old self.new }
    {
        let from = self.start + header.length;
        let to = from + header.size;
        if self.raw.len() < to {
            return Parsed::Incomplete;
        }
        unmask_part(&mut self.raw, from, to, header.key);
        self.start = to;
        match header.opcode {
            Opcode::Ping => Parsed::Event(EventSpan::Ping(header.size)),
            Opcode::Pong => Parsed::Event(EventSpan::Pong(header.size)),
            _ => {
                self.state = State::Ended;
                Parsed::Event(close_span(&self.raw[from..to]))
            }
        }
    }

    /// Goes on behind a header that is whole.
    fn parse_frame(&mut self, open_kind: Option<Kind>, header: FrameHeader) -> Parsed
        requires state { self.old.state ≡ State.AtFrameStart open_kind }
        requires header { IsHeader self.old.max_message (begun_of open_kind self.old.message.items) (raw_of self.old) header }
        ensures parsed { ParsedIs result self.old self.new }
        ensures kept { Keeps self.old self.new }
    {
        if is_control(header.opcode) {
            return self.parse_control_frame(open_kind, header);
        }
        match kind_in(open_kind, header.opcode) {
            Some(kind) => {
                self.enter(open_kind, kind, header);
                Parsed::Part
            }
            None => unreachable!(),
        }
    }

    /// Reads the header at the front of the raw octets, and the frame behind it.
    fn parse_header(&mut self, open_kind: Option<Kind>) -> Parsed
        requires state { self.old.state ≡ State.AtFrameStart open_kind }
        ensures parsed { ParsedIs result self.old self.new }
        ensures kept { Keeps self.old self.new }
    {
        let message = self.message_state(open_kind);
        match header_at(message, self.raw()) {
            Header::More => Parsed::Incomplete,
            Header::Refused(code) => {
                self.state = State::Ended;
                Parsed::Event(EventSpan::Failed(code))
            }
            Header::Whole(header) => self.parse_frame(open_kind, header),
        }
    }

    /// What the next frame is checked against, where a message of this kind is open.
    fn message_state(&self, open_kind: Option<Kind>) -> MessageState
        ensures max { result.max_message ≡ self.now.max_message }
        ensures describes { Describes result (begun_of open_kind self.now.message.items) }
    {
        MessageState {
            max_message: self.max_message,
            kind: open_kind,
            held: match open_kind {
                Some(_) => self.message.len(),
                None => 0,
            },
        }
    }

    /// Takes the next part: a header, a control frame, or payload octets of a data frame.
    fn parse_part(&mut self) -> Parsed
        requires { has_ended self.old ≡ false }
        ensures parsed { ParsedIs result self.old self.new }
        ensures kept { Keeps self.old self.new }
    {
        match self.state {
            State::Ended => Parsed::Incomplete,
            State::AtFrameStart(open_kind) => self.parse_header(open_kind),
            State::InDataFrame(kind, frame) => self.parse_payload(kind, frame),
        }
    }

    /// Goes on until an event is told, or the octets that came give no further one.
    fn advance(&mut self) -> Option<EventSpan>
        ensures event { IfSome result (λ event. HasEvent event self.old self.new) }
        ensures tells { IfNone result (Tells self.old [] self.new) }
        ensures all { IfNone result (ahead self.new [] ≡ []) }
        ensures few { IfNone result (has_ended self.old ≡ false → length (raw_of self.new) ≤ 130) }
        ensures same { IfNone result (has_ended self.new ≡ has_ended self.old) }
        ensures went_on { IfSome result (λ event. has_ended self.old ≡ false) }
        ensures kept { Keeps self.old self.new }
    {
        'parts: loop {
            if matches!(self.state, State::Ended) {
                return None;
            }
            match self.parse_part() {
                Parsed::Incomplete => return None,
                Parsed::Part => {}
                Parsed::Event(event) => return Some(event),
            }
        }
    }

    /// The last of the raw octets that were taken.
    fn taken(&self, size: usize) -> &[u8]
        requires { size ≤ self.now.start }
        ensures { result.now ≡ last size self.now.start self.now.raw.items }
    {
        &self.raw[self.start - size..self.start]
    }

    /// The next event of the reading of all octets that came.
    ///
    /// However they were cut, the events are those of `reading`, in order. `More` is the answer exactly where the octets
    /// that came give no further event, and after a `Close` or `Failed`. What is lent is whole and unmasked. No memory is
    /// taken.
    pub fn next(&mut self) -> Step<'_>
        ensures* stepped { sem 𝓛 (RestsStepped self.entry result) }
    {
        match self.advance() {
            None => Step::More,
            Some(EventSpan::Message(kind)) => Step::Message(kind, &self.message),
            Some(EventSpan::Ping(size)) => Step::Ping(self.taken(size)),
            Some(EventSpan::Pong(size)) => Step::Pong(self.taken(size)),
            Some(EventSpan::Close(code, size)) => Step::Close(code, self.taken(size)),
            Some(EventSpan::Failed(code)) => Step::Failed(code),
        }
    }
}

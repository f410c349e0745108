//! Laws of the definitions. Each function has an empty body, and its contract is a law.

ghost use Rattle.std.specs.Prelude.{◌≡◌, ◌↔◌, ℕ, ◌+◌, ◌%◌, ◌^◌, ◌<◌, ◌≤◌, Bool, List, [], ◌∷◌, ◌++◌, length, true, if◌then◌else◌, IsTrue, IsUtf8, Option, slice_get, slice_index, bit_xor, map};
ghost use Rattle.std.specs.Int.{w16, to_be_bytes};
ghost use Rattle.wire_meaning.specs.Mask.{unmasked};
ghost use Rattle.wire_meaning.specs.Frame.{masked_frame};
ghost use Rattle.wire_meaning.specs.Text.{is_text_front};
ghost use Rattle.wire_meaning.specs.Event.{Event, message, ping, pong, closed, failed, closing, is_sendable, is_last};
ghost use Rattle.wire_meaning.specs.Bounds.{IsClose, is_failure};
ghost use Rattle.wire_meaning.specs.Reading.{Begun, front_at, frame_front, events_from, reads, reading, IsAllowed};
ghost use Rattle.wire_meaning.specs.Answer.{Sent, sent_octets, event_of, KeepsRules};
ghost use Rattle.ws_kinds.specs.declared.kind.Kind.{Kind};
ghost use Rattle.ws_kinds.specs.declared.kind.Kind.TheVariants.{Text};
ghost use Rattle.wire_meaning.specs.declared.frame.Opcode.{Opcode};

/// Octet i is XORed with the key's octet at its place modulo 4, and masking twice changes nothing (RFC 6455, section
/// 5.3).
pub fn masking()
    ensures places { (key : List ℕ) (place : ℕ) (octets : List ℕ) (i : ℕ) → i < length octets →
        slice_index (unmasked key place octets) i ≡ bit_xor (slice_index octets i) (slice_index key ((i + place) % 4)) }
    ensures twice { (key : List ℕ) (place : ℕ) (octets : List ℕ) → unmasked key place (unmasked key place octets) ≡ octets }
{}

/// Octets are a front of text exactly where some continuation of them is UTF-8 (RFC 6455, section 8.1).
pub fn text_fronts()
    ensures { (octets : List ℕ) → IsTrue (is_text_front octets) ↔ ((more : List ℕ) × IsUtf8 (octets ++ more)) }
{}

/// The events are those of the frame at the front, and then those of what follows it: the reading has no bound on
/// frames.
pub fn frame_by_frame()
    ensures { (max : ℕ) (begun : Option Begun) (octets : List ℕ) →
        reads max begun octets ≡ events_from (reads max) (front_at max begun octets) }
{}

/// What was read stays read, whatever follows: the events of a front of the octets are the first of all their events.
/// So a reader may tell each event as soon as it is there.
pub fn fronts()
    ensures { (max : ℕ) (xs ys : List ℕ) → (behind : List Event) × (reading max (xs ++ ys) ≡ reading max xs ++ behind) }
{}

/// Nothing is read after a close or a failure.
pub fn nothing_follows()
    ensures { (max : ℕ) (octets : List ℕ) (before after : List Event) (event : Event) →
        reading max octets ≡ before ++ event ∷ after → IsTrue (is_last event) → after ≡ [] }
{}

/// What the events of a reading can be (RFC 6455, sections 5.5, 5.6 and 7.4.1).
///
/// A message has at most `max` octets, and a text is UTF-8. A ping or a pong has at most 125. A close says 1005 and no reason,
/// or a code that may be sent and a UTF-8 reason of at most 123 octets. A failure has the code 1002, 1007 or 1009.
pub fn event_bounds()
    ensures messages { (max : ℕ) (octets : List ℕ) (before after : List Event) (kind : Kind) (body : List ℕ) →
        reading max octets ≡ before ++ message kind body ∷ after → (length body ≤ max) × (kind ≡ Text → IsUtf8 body) }
    ensures pings { (max : ℕ) (octets : List ℕ) (before after : List Event) (payload : List ℕ) →
        reading max octets ≡ before ++ ping payload ∷ after → length payload ≤ 125 }
    ensures pongs { (max : ℕ) (octets : List ℕ) (before after : List Event) (payload : List ℕ) →
        reading max octets ≡ before ++ pong payload ∷ after → length payload ≤ 125 }
    ensures closes { (max : ℕ) (octets : List ℕ) (before after : List Event) (code : ℕ) (reason : List ℕ) →
        reading max octets ≡ before ++ closed code reason ∷ after → IsClose code reason }
    ensures failures { (max : ℕ) (octets : List ℕ) (before after : List Event) (code : ℕ) →
        reading max octets ≡ before ++ failed code ∷ after → IsTrue (is_failure code) }
{}

/// A whole masked frame that keeps the rules, a fragment or not, gives what its opcode and payload say, and what
/// follows it is read after it (RFC 6455, sections 5.2 to 5.5).
pub fn one_frame()
    ensures { (max : ℕ) (begun : Option Begun) (key : List ℕ) (final : Bool) (opcode : Opcode) (payload rest : List ℕ) →
        length key ≡ 4 → IsAllowed max begun final opcode (length payload) →
        reads max begun (masked_frame key final opcode payload ++ rest) ≡ events_from (reads max) (frame_front begun final opcode true payload rest) }
{}

/// A whole message or control frame that a client sends by the rules while no message is open is read as it was sent.
/// What follows is read after it, but for a close, which is the last event.
pub fn sent_is_read()
    ensures { (max : ℕ) (sent : Sent) (rest : List ℕ) → KeepsRules max sent →
        reading max (sent_octets sent ++ rest) ≡ event_of sent.opcode sent.payload ∷ (if is_last (event_of sent.opcode sent.payload) then [] else reading max rest) }
{}

/// The payload of a close frame that is made of a code that may be sent and a UTF-8 reason says these (RFC 6455,
/// section 5.5.1).
pub fn closes()
    ensures { (code : ℕ) (reason : List ℕ) → code < 2 ^ 16 → IsTrue (is_sendable code) → IsUtf8 reason →
        closing (to_be_bytes w16 code ++ reason) ≡ closed code reason }
{}

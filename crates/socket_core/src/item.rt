//! What is put for a connection.

ghost use Rattle.std.specs.Prelude.{◌≡◌, ◌≤◌, ◌+◌, ◌++◌, IsTrue, length, vec_len, vec_capacity};
ghost use Rattle.wire_meaning.specs.Frame.{header};
ghost use Rattle.frame_writer.specs.Header.{is_sent_opcode};
ghost use Rattle.wire_meaning.specs.Answer.{Item as Sent, spelled, can_drop as may_drop};
ghost use Rattle.socket_core.specs.declared.item.Item.{Item as ItemValue};
ghost use Rattle.socket_core.specs.Items.{octets_of, can_drop, IsSent, HasRoom};

use frame_writer::head_of;
use wire_meaning::{Opcode, opcode_number};

/// What is put for a connection: a reply or one whole frame.
#[derive(Clone, Copy, Debug, PartialEq, Eq)]
pub enum Item<'a> {
    /// The reply to the request for the upgrade: its text, of 1 to 256 octets (RFC 6455, section 4.2.2). It comes before all
    /// other items, and is never dropped.
    Reply(&'a [u8]),
    /// A frame that may be dropped, as it is spelled: its header and its payload, from 1 to `max_message` + 10 octets.
    Spelled(&'a [u8]),
    /// A frame, by its opcode's number and its payload (RFC 6455, section 5.2): 1 text or 2 binary with at most `max_message`
    /// octets; 8 close, 9 ping or 10 pong with at most 125. A close frame is never dropped.
    Frame(u8, &'a [u8]),
}

impl Item<'_> {
    ghost use Rattle.socket_core.specs.Items.{can_drop};

    /// Whether it may be dropped: replies and close frames may not.
    pub fn can_drop(&self) -> bool
        ensures { result ≡ can_drop self.now }
    {
        match self {
            Item::Reply(_) => false,
            Item::Spelled(_) => true,
            Item::Frame(opcode, _) => *opcode != opcode_number(Opcode::Close),
        }
    }
}

/// Items are what a server sends: each has the octets of the reply or the frame that it is, and may be dropped where that may
/// be.
pub fn items_are_sent()
    ensures spelling { (item : ItemValue) (sent : Sent) → IsSent item sent → octets_of item ≡ spelled sent }
    ensures drops { (item : ItemValue) (sent : Sent) → IsSent item sent → can_drop item ≡ may_drop sent }
{}

/// Puts the octets of an item in place of those that are there. The room for them was reserved.
pub(crate) fn spell(octets: &mut Vec<u8>, item: Item<'_>)
    requires { HasRoom (vec_capacity octets.old) item }
    ensures octets { octets.new.items ≡ octets_of item.entry }
    ensures room { vec_capacity octets.old ≤ vec_capacity octets.new }
{
    octets.clear();
    match item {
        Item::Reply(text) => append(octets, text),
        Item::Spelled(frame) => append(octets, frame),
        Item::Frame(opcode, payload) => spell_frame(octets, opcode, payload),
    }
}

/// Puts a frame behind the octets that are there. The room for it was reserved.
fn spell_frame(octets: &mut Vec<u8>, opcode: u8, payload: &[u8])
    requires opcode { IsTrue (is_sent_opcode opcode) }
    requires short { length payload.now ≤ 65536 }
    requires room { vec_len octets.old + (10 + length payload.now) ≤ vec_capacity octets.old }
    ensures octets { octets.new.items ≡ octets.old.items ++ (header opcode (length payload.now) ++ payload.now) }
    ensures room { vec_capacity octets.old ≤ vec_capacity octets.new }
{
    let head = head_of(opcode, payload.len());
    append(octets, &head);
    append(octets, payload);
}

/// Puts more octets behind those that are there. The room for them was reserved.
fn append(octets: &mut Vec<u8>, more: &[u8])
    requires { vec_len octets.old + length more.now ≤ vec_capacity octets.old }
    ensures octets { octets.new.items ≡ octets.old.items ++ more.now }
    ensures len { vec_len octets.new ≡ vec_len octets.old + length more.now }
    ensures room { vec_capacity octets.old ≤ vec_capacity octets.new }
{
    octets.extend_from_slice(more).unwrap();
}

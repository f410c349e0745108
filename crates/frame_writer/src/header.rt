//! Headers of frames.

ghost use Rattle.std.specs.Prelude.{◌≡◌, ◌≤◌, IsTrue};
ghost use Rattle.wire_meaning.specs.Frame.{header};
ghost use Rattle.frame_writer.specs.Header.{is_sent_opcode, Heads};

use arrayvec::ArrayVec;

/// The header of an unmasked frame with FIN 1, whose payload has `length` octets (RFC 6455, section 5.2).
///
/// `op` is the number of the opcode, as `wire_meaning::opcode_number` says it, of a text, binary, close, ping or pong. The length, at most 65,536, is spelled as short
/// as it can be, so the header has 2 octets below 126, 4 below 65,536 and 10 above. The payload follows it as it is.
pub fn head_of(op: u8, length: usize) -> ArrayVec<u8, 10>
    requires opcode { IsTrue (is_sent_opcode op) }
    requires short { length ≤ 65536 }
    ensures shortest { result.items ≡ header op length }
    ensures frame { Heads op length result.items }
{
    let mut head = ArrayVec::new();
    head.push(128 + op);
    if length < 126 {
        head.push(length as u8);
    } else if length < 65536 {
        head.push(126);
        head.try_extend_from_slice(&(length as u16).to_be_bytes())
            .unwrap();
    } else {
        head.push(127);
        head.try_extend_from_slice(&(length as u64).to_be_bytes())
            .unwrap();
    }
    head
}

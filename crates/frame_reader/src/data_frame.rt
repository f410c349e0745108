//! Data frames whose payload comes in pieces.

ghost use Rattle.std.specs.Prelude.{◌≡◌, ◌<◌, ◌≤◌, ◌+◌, ◌-◌, ◌%◌};

use crate::header::FrameHeader;

/// A data frame whose payload is coming.
#[derive(Clone, Copy)]
pub(crate) struct DataFrame {
    /// It is the last frame of its message.
    pub is_final: bool,
    /// How many octets of its payload are still to come.
    pub left: usize,
    pub key: [u8; 4],
    /// The place of the next octet in the payload, modulo 4.
    pub place: usize,
    ghost turn: { place < 4 },
}

impl DataFrame {
    /// The frame that this header begins, of whose payload nothing was taken.
    pub fn new(header: FrameHeader) -> DataFrame
        ensures is_final { result.is_final ≡ header.is_final }
        ensures left { result.left ≡ header.size }
        ensures key { result.key ≡ header.key }
        ensures place { result.place ≡ 0 }
    {
        let key = header.key;
        DataFrame {
            is_final: header.is_final,
            left: header.size,
            key,
            place: 0,
        }
    }

    /// The frame when so many more octets of its payload were taken.
    pub fn after(self, count: usize) -> DataFrame
        requires { count ≤ self.left }
        ensures is_final { result.is_final ≡ self.is_final }
        ensures left { result.left ≡ self.left - count }
        ensures key { result.key ≡ self.key }
        ensures place { result.place ≡ (self.place + count) % 4 }
    {
        let key = self.key;
        DataFrame {
            is_final: self.is_final,
            left: self.left - count,
            key,
            place: (self.place + count % 4) % 4,
        }
    }
}

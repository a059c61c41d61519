ghost use Rattle.std.specs.Prelude.{◌≡◌, ◌≤◌, [], ◌∷◌, length, decimal};
ghost use Rattle.lines.specs.Buffers.{filled, fitted};
ghost use Rattle.lines.specs.Texts.{LineText, joined_on};

use arrayvec::ArrayVec;
use itoa::Buffer;
use std::marker::Model;

// A line of text that is being made: the bytes put on it so far, at most 64.
#[derive(Drop)]
pub struct Line {
    bytes: ArrayVec<u8, 64>,
    ghost within: { length bytes.items ≤ 64 },
}

impl Model for Line {
    ghost Value = { LineText };

    ghost view = { λ l. record { bytes = l.bytes.items; few = l.within } };
}

impl Line {
    // A line with nothing on it.
    pub fn new() -> Line
        ensures { result.bytes ≡ [] }
    {
        Line {
            bytes: ArrayVec::new(),
        }
    }

    // More bytes. What the line has no room for is left out.
    pub fn put(&mut self, text: &[u8])
        ensures { self.new.bytes ≡ joined_on self.old.bytes text.now }
    {
        let room = self.bytes.remaining_capacity().min(text.len());
        let _ = self.bytes.try_extend_from_slice(&text[..room]);
    }

    // One byte more.
    #[tactic(auto, using(crate::proofs::Joins::pushed, crate::proofs::Joins::full))]
    pub fn push(&mut self, byte: u8)
        ensures { self.new.bytes ≡ joined_on self.old.bytes (byte ∷ []) }
    {
        let _ = self.bytes.try_push(byte);
    }

    // A number in decimal digits, with no leading zero.
    pub fn put_number(&mut self, n: u64)
        ensures { self.new.bytes ≡ joined_on self.old.bytes (decimal n) }
    {
        if n < 10 {
            self.push(b'0' + n as u8);
        } else {
            self.put(Buffer::new().format(n).as_bytes());
        }
    }

    // The bytes on the line.
    pub fn as_bytes(&self) -> &[u8]
        ensures bytes { result.now ≡ self.now.bytes }
        ensures few { length result.now ≤ 64 }
    {
        self.bytes.as_slice()
    }

    // Copies the line to the front of a buffer and answers its length; none, and nothing copied, where it is too long.
    pub fn copy_to(&self, buffer: &mut [u8]) -> Option<usize>
        ensures answer { result ≡ fitted self.now.bytes buffer.old }
        ensures buffer { buffer.new ≡ filled self.now.bytes buffer.old }
    {
        let bytes = self.as_bytes();
        let len = bytes.len();
        if buffer.len() < len {
            return None;
        }
        buffer[..len].copy_from_slice(bytes);
        Some(len)
    }
}

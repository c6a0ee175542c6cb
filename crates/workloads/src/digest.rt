//! A digest of bytes, as a sink.

use pgn_game::{Sink, WriteFault};
use std::alloc::Global;

/// How many bytes are mixed at a time.
const ROOM: usize = 4096;

/// A digest of all bytes that were taken. How they were cut into calls does not matter.
#[derive(Drop)]
pub struct Digest {
    block: Vec<u8>,
    state: u64,
}

impl Digest {
    pub fn new(alloc: Global) -> Digest {
        Digest {
            block: Vec::new(alloc),
            state: 0xCBF2_9CE4_8422_2325,
        }
    }

    /// Takes a text.
    pub fn add(&mut self, text: &[u8]) {
        if text.len() <= ROOM.saturating_sub(self.block.len()) {
            let _ = self.block.extend_from_slice(text);
            return;
        }
        for byte in text {
            if self.block.len() >= ROOM {
                self.mix();
            }
            let _ = self.block.push(*byte);
        }
    }

    /// Takes a number.
    pub fn add_number(&mut self, number: u32) {
        self.add(&number.to_le_bytes());
    }

    /// The digest of what was taken so far.
    pub fn value(&mut self) -> u64 {
        self.mix();
        self.state
    }

    fn mix(&mut self) {
        let mut state = self.state;
        let (words, rest) = self.block.as_slice().as_chunks::<8>();
        for word in words {
            let mixed = state ^ u64::from_le_bytes(*word);
            state = mixed.wrapping_mul(0x0000_0100_0000_01B3).rotate_left(29);
        }
        for byte in rest {
            state = (state ^ u64::from(*byte)).wrapping_mul(0x0000_0100_0000_01B3);
        }
        self.state = state;
        self.block.clear();
    }
}

impl Sink for Digest {
    ghost use Rattle.std.specs.Prelude.{None};

    ghost taken = { λ _. None };

    ghost failures = { λ _. 0 };

    fn write_some(&mut self, bytes: &[u8]) -> Result<usize, WriteFault> {
        self.add(bytes);
        Ok(bytes.len())
    }

    fn flush(&mut self) -> Result<(), WriteFault> {
        Ok(())
    }
}

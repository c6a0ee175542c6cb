//! The sink over a buffer of the caller's.
ghost use Rattle.std.specs.Prelude.{◌≡◌, ◌<◌, ◌≤◌, ◌+◌, ◌-◌, ◌++◌, Some, length, min, take, drop};

use pgn_layout::{Sink, WriteFault};
use std::marker::{Brand, PhantomData};

/// A buffer that is filled from its front.
#[derive(Drop)]
pub struct Room<'a> {
    pub buffer: &'a mut [u8],
    pub written: usize,
    pub failures: u64,
}

impl<'a> Room<'a> {
    /// The buffer, with nothing written.
    pub fn new(buffer: &'a mut [u8]) -> Room<'a>
        ensures same { result.buffer.ghost_name ≡ buffer.entry.ghost_name }
        ensures now { result.buffer.now ≡ buffer.old }
        ensures written { result.written ≡ 0 }
        ensures failures { result.failures ≡ 0 }
    {
        Room {
            buffer,
            written: 0,
            failures: 0,
        }
    }

    // Copies the bytes as far as there is room, and returns how many.
    fn put(&mut self, bytes: &[u8]) -> usize
        requires within { self.old.written ≤ length self.old.buffer.now }
        ensures same { self.new.buffer.ghost_name ≡ self.old.buffer.ghost_name }
        ensures count { result
            ≡ min (length bytes.now) (length self.old.buffer.now - self.old.written) }
        ensures written { self.new.written ≡ self.old.written + result }
        ensures failures { self.new.failures ≡ self.old.failures }
        ensures now { self.new.buffer.now
            ≡ take self.old.written self.old.buffer.now ++ take result bytes.now
            ++ drop (self.old.written + result) self.old.buffer.now }
    {
        let at = self.written;
        let all = &mut *self.buffer;
        let count = bytes.len().min(all.len() - at);
        all[at..at + count].copy_from_slice(&bytes[..count]);
        self.written = at + count;
        count
    }
}

/// The buffer before the call that fills it: the loan, and its bytes.
pub trait BufferBefore {
    ghost use Rattle.std.specs.Prelude.{ℕ, List};

    ghost name: { ℕ };

    ghost bytes: { List ℕ };
}

impl BufferBefore for Brand {
    ghost use Rattle.std.specs.Prelude.{[]};

    ghost name = { 0 };

    ghost bytes = { [] };
}

/// The sink that fills the buffer from its front. A write fails exactly where the buffer is full.
#[derive(Drop)]
pub struct BufferSink<'a, K: BufferBefore> {
    pub room: Room<'a>,
    pub of: PhantomData<K>,
    ghost same: { room.buffer.ghost_name ≡ K.name },
    ghost within: { room.written ≤ length room.buffer.now },
    ghost long: { length room.buffer.now ≡ length K.bytes },
    ghost behind: { drop room.written room.buffer.now ≡ drop room.written K.bytes },
    ghost full: { 0 < room.failures → room.written ≡ length room.buffer.now },
}

impl<'a, K: BufferBefore> Sink for BufferSink<'a, K> {
    ghost taken = { λ s. Some (take s.room.written s.room.buffer.now) };

    ghost failures = { λ s. s.room.failures };

    fn write_some(&mut self, bytes: &[u8]) -> Result<usize, WriteFault> {
        let count = self.room.put(bytes);
        if count == 0 {
            self.room.failures = self.room.failures.saturating_add(1);
            return Err(WriteFault);
        }
        Ok(count)
    }

    fn flush(&mut self) -> Result<(), WriteFault> {
        Ok(())
    }
}

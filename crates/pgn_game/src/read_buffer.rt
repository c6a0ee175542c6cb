//! The bytes that were read and are not used yet.
ghost use Rattle.std.specs.Prelude.{◌≡◌, ◌<◌, ◌≤◌, length, drop, []};
ghost use Rattle.pgn_layout.specs.Device.{Counts};
ghost use Rattle.pgn_game.specs.steps.GamesSteps.{FillResult};

use crate::source::{ReadFailed, Source};
use std::marker::Model;

/// The most bytes of one read.
const READ_LENGTH: usize = 4096;

/// The bytes that were read and are not used yet.
#[derive(Drop)]
pub struct ReadBuffer {
    bytes: [u8; READ_LENGTH],
    start: usize,
    end: usize,
}

impl Model for ReadBuffer {
    ghost use Rattle.std.specs.Prelude.{◌≡◌, ◌-◌, ◌≤◌, ℕ, List, length, take, drop};

    ghost Value = { List ℕ };

    ghost view = { λ b. take (b.end - b.start) (drop b.start b.bytes) };

    ghost invariant = { λ b. (b.start ≤ b.end) × (b.end ≤ 4096) × (length b.bytes ≡ 4096) };
}

impl ReadBuffer {
    /// Returns a buffer without bytes.
    pub fn new() -> Self
        ensures { result ≡ [] }
    {
        ReadBuffer {
            bytes: [0; READ_LENGTH],
            start: 0,
            end: 0,
        }
    }

    /// Returns the bytes that are not used yet.
    pub fn unused(&self) -> &[u8]
        ensures { result.now ≡ self.now }
    {
        &self.bytes[self.start..self.end]
    }

    /// Counts the first bytes as used.
    pub fn skip(&mut self, used: usize)
        requires { used ≤ length self.old }
        ensures { self.new ≡ drop used self.old }
    {
        self.start += used;
    }

    /// Counts all bytes as used.
    pub fn clear(&mut self)
        ensures { self.new ≡ [] }
    {
        self.start = self.end;
    }

    /// Replaces the bytes by those of one read, and returns whether it gave any. It gives none at
    /// the end of the source.
    pub fn fill<R: Source>(&mut self, source: &mut R) -> Result<bool, ReadFailed>
        ensures fills { FillResult (R.left source.old) (R.left source.new) self.new result }
        ensures fits { length self.new ≤ 4096 }
        ensures counted { Counts result (R.failures source.old) (R.failures source.new) }
        ensures text { R.text source.new ≡ R.text source.old }
    {
        self.start = 0;
        self.end = 0;
        match source.read_some(&mut self.bytes) {
            Err(_) => Err(ReadFailed),
            Ok(0) => Ok(false),
            Ok(count) => {
                self.end = count;
                Ok(true)
            }
        }
    }
}

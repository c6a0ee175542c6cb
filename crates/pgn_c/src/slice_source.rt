//! The source over a text.
ghost use Rattle.std.specs.Prelude.{◌≡◌, Some};

use pgn_game::{ReadFailed, Source};

/// Gives the bytes of a text. No read fails.
#[derive(Drop)]
pub struct SliceSource<'a> {
    pub left: &'a [u8],
}

impl Source for SliceSource<'_> {
    ghost left = { λ s. Some s.left.now };

    ghost failures = { λ s. 0 };

    fn read_some(&mut self, buffer: &mut [u8]) -> Result<usize, ReadFailed> {
        let count = buffer.len().min(self.left.len());
        let (front, rest) = self.left.split_at(count);
        buffer[..count].copy_from_slice(front);
        self.left = rest;
        Ok(count)
    }
}

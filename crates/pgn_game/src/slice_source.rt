//! The source over a text in memory.
ghost use Rattle.std.specs.Prelude.{◌≡◌};

use crate::source::{ReadFailed, Rewinds, Source};
use std::marker::Model;

/// The source over a text in memory. No read fails, and it can be set back.
///
/// # Examples
///
/// ```
/// use pgn_game::{Rewinds, SliceSource, Source};
///
/// let mut source = SliceSource::new(b"1. e4 *");
/// let mut buffer = [0; 3];
/// assert_eq!(source.read_some(&mut buffer), Ok(3));
/// assert_eq!(source.set_to(6), Ok(()));
/// assert_eq!(source.read_some(&mut buffer), Ok(1));
/// assert_eq!(buffer[0], b'*');
/// ```
#[derive(Drop)]
pub struct SliceSource<'a> {
    text: &'a [u8],
    left: &'a [u8],
}

impl<'a> Model for SliceSource<'a> {
    ghost use Rattle.pgn_game.specs.public.SourceCalls.{SliceSource as Seen};

    ghost Value = { Seen };

    ghost view = { λ s. record { text = s.text.now; left = s.left.now } };
}

impl<'a> SliceSource<'a> {
    /// Returns the source that gives this text, from its first byte.
    pub fn new(text: &'a [u8]) -> SliceSource<'a>
        ensures { result ≡ record { text = text.now; left = text.now } }
    {
        SliceSource { text, left: text }
    }
}

impl<'a> Source for SliceSource<'a> {
    ghost use Rattle.std.specs.Prelude.{Some};

    ghost left = { λ s. Some s.left };

    ghost failures = { λ _. 0 };

    ghost text = { λ s. Some s.text };

    fn read_some(&mut self, buffer: &mut [u8]) -> Result<usize, ReadFailed> {
        let count = buffer.len().min(self.left.len());
        let (front, rest) = self.left.split_at(count);
        buffer[..count].copy_from_slice(front);
        self.left = rest;
        Ok(count)
    }
}

impl<'a> Rewinds for SliceSource<'a> {
    fn set_to(&mut self, place: u64) -> Result<(), ReadFailed> {
        let length = self.text.len() as u64;
        self.left = &self.text[place.min(length) as usize..];
        Ok(())
    }
}

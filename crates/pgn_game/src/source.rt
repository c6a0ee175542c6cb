//! Sources: where input comes from.
ghost use Rattle.std.specs.Prelude.{◌≡◌, ℕ, IfOk, List, None, Option};
ghost use Rattle.std.specs.Io.{ReadsAtMost};
ghost use Rattle.std.specs.Io.KnownBytes.{ReadConsumes};
ghost use Rattle.pgn_layout.specs.Device.{Counts};
ghost use Rattle.pgn_game.specs.public.SourceCalls.{IsSetTo};

use std::io::Read;
use std::marker::Model;

/// A read that failed.
#[derive(Clone, Copy, Debug, PartialEq, Eq)]
pub struct ReadFailed;

/// Gives the bytes of an input, in order.
///
/// A call that fails gives no byte and counts one failure. Nothing is tried again.
pub trait Source {
    // The bytes that are left, if the source reports them.
    ghost left: { Self → Option (List ℕ) };

    // How many calls have failed; the count stops at 2^64 - 1.
    ghost failures: { Self → ℕ };

    // The whole text, from its first byte, if the source reports it. Reading keeps it.
    ghost text: { Self → Option (List ℕ) } = { λ _. None };

    /// Reads bytes into the start of the buffer, and returns how many.
    ///
    /// The result is 0 only at the end, or if the buffer is empty.
    ///
    /// # Errors
    ///
    /// `ReadFailed` if the read failed. No byte was given.
    fn read_some(&mut self, buffer: &mut [u8]) -> Result<usize, ReadFailed>
        ensures bound { ReadsAtMost result buffer.new }
        ensures bytes { ReadConsumes (left self.old) (left self.new) result buffer.new }
        ensures failures { Counts result (failures self.old) (failures self.new) }
        ensures text { text self.new ≡ text self.old };
}

/// A source that can be set back, as a file can. A pipe cannot.
pub trait Rewinds: Source {
    /// Sets the source to a place: from there on it gives bytes.
    ///
    /// Places are byte offsets, and count from the first byte of the text. After its last byte the
    /// source gives no more.
    ///
    /// # Errors
    ///
    /// `ReadFailed` if it cannot be set there. Where it is then, is not known.
    fn set_to(&mut self, place: u64) -> Result<(), ReadFailed>
        ensures left { IfOk result (λ _. IsSetTo (Self.text self.old) place (Self.left self.new)) }
        ensures failures { Counts result (Self.failures self.old) (Self.failures self.new) }
        ensures text { Self.text self.new ≡ Self.text self.old };
}

/// The source over any `std::io::Read`.
///
/// A read that was interrupted fails like any other: nothing is tried again.
#[derive(Drop)]
pub struct Inlet<R> {
    pub(crate) reader: R,
    pub(crate) failures: u64,
}

impl<R> Model for Inlet<R> {
    ghost use Rattle.pgn_game.specs.public.Inlet.{Inlet as Seen, inlet_code};

    ghost Value = { Seen R };

    ghost coded = { inlet_code R.code };

    ghost view = { λ i. record { reader = i.reader; failures = i.failures } };
}

impl<R> Inlet<R> {
    /// Returns the source over this reader, with no failure counted.
    pub fn new(reader: R) -> Inlet<R>
        ensures { result ≡ record { reader = reader; failures = 0 } }
    {
        Inlet {
            reader,
            failures: 0,
        }
    }
}

impl<R: Read> Source for Inlet<R> {
    ghost left = { λ i. R.remaining i.reader };

    ghost failures = { λ i. i.failures };

    fn read_some(&mut self, buffer: &mut [u8]) -> Result<usize, ReadFailed> {
        match self.reader.read(buffer) {
            Ok(n) => Ok(n),
            Err(_) => {
                self.failures = self.failures.saturating_add(1);
                Err(ReadFailed)
            }
        }
    }
}

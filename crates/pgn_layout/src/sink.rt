//! Sinks: what takes the output.
ghost use Rattle.std.specs.Prelude.{ℕ, ◌<◌, ◌≤◌, List, length, Option, None, IfOk, OnOk};
ghost use Rattle.std.specs.Io.KnownBytes.{Keeps, WriteAppends};
ghost use Rattle.pgn_layout.specs.Device.{Counts, NoneUnflushed, Writes};

/// A write or a flush that failed.
#[derive(Clone, Copy, Debug, PartialEq, Eq)]
pub struct WriteFault;

/// Takes the bytes of an output, in order.
///
/// A call does its work, or it fails, takes no byte and counts one failure. Nothing is tried again.
pub trait Sink {
    // The bytes taken so far, if the sink reports them.
    ghost taken: { Self → Option (List ℕ) };

    // How many calls have failed; the count stops at 2^64 - 1.
    ghost failures: { Self → ℕ };

    // The bytes taken that a flush has to pass on, if the sink reports them.
    ghost unflushed: { Self → Option (List ℕ) } = { λ _. None };

    /// Takes some of the first bytes, at least one, and returns how many.
    ///
    /// `bytes` must not be empty.
    ///
    /// # Errors
    ///
    /// [`WriteFault`] if no byte was taken.
    fn write_some(&mut self, bytes: &[u8]) -> Result<usize, WriteFault>
        requires { 0 < length bytes.now }
        ensures bytes { WriteAppends (taken self.old) (taken self.new) result bytes.now }
        ensures count { IfOk result (λ n. (0 < n) × (n ≤ length bytes.now)) }
        ensures failures { Counts result (failures self.old) (failures self.new) };

    /// Flushes the bytes taken so far.
    ///
    /// # Errors
    ///
    /// [`WriteFault`] if that failed.
    fn flush(&mut self) -> Result<(), WriteFault>
        ensures bytes { Keeps (taken self.old) (taken self.new) }
        ensures failures { Counts result (failures self.old) (failures self.new) }
        ensures flushed { OnOk result (NoneUnflushed (unflushed self.new)) };
}

/// Writes all the bytes.
///
/// # Errors
///
/// [`WriteFault`] at the first failure of the sink. A prefix of the bytes was taken, and not all.
pub fn write_all<W: Sink>(out: &mut W, bytes: &[u8]) -> Result<(), WriteFault>
    ensures bytes { Writes (W.taken out.old) (W.taken out.new) result bytes.now }
    ensures failures { Counts result (W.failures out.old) (W.failures out.new) }
{
    let mut written = 0;
    while written < bytes.len() {
        written += out.write_some(&bytes[written..])?;
    }
    Ok(())
}

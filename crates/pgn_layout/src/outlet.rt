//! The sink over a writer.
ghost use Rattle.std.specs.Prelude.{◌≡◌};
ghost use Rattle.pgn_layout.specs.Device.{one_more};

use crate::{Sink, WriteFault};
use std::io::Write;
use std::marker::Model;

/// The sink over any `std::io::Write`.
///
/// A write that takes no byte has failed, and so has one that was interrupted: nothing is tried
/// again.
#[derive(Drop)]
pub struct Outlet<W> {
    writer: W,
    failures: u64,
}

impl<W> Model for Outlet<W> {
    ghost use Rattle.pgn_layout.specs.Outlet.{Outlet as Seen, outlet_code};

    ghost Value = { Seen W };

    ghost coded = { outlet_code W.code };

    ghost view = { λ o. record { writer = o.writer; failures = o.failures } };
}

impl<W> Outlet<W> {
    /// Returns the sink over this writer, with no failure counted.
    pub fn new(writer: W) -> Outlet<W>
        ensures { result ≡ record { writer = writer; failures = 0 } }
    {
        Outlet {
            writer,
            failures: 0,
        }
    }

    /// Returns the writer, without flushing it.
    pub fn into_inner(self) -> W
        ensures { result ≡ self.writer }
    {
        self.writer
    }

    fn fail(&mut self) -> WriteFault
        ensures { self.new ≡ record self.old { failures = one_more self.old.failures } }
    {
        self.failures = self.failures.saturating_add(1);
        WriteFault
    }
}

impl<W: Write> Sink for Outlet<W> {
    ghost taken = { λ o. W.contents o.writer };

    ghost failures = { λ o. o.failures };

    fn write_some(&mut self, bytes: &[u8]) -> Result<usize, WriteFault> {
        // Cargo: assert!(!bytes.is_empty(), "write_some takes at least one byte")
        match self.writer.write(bytes) {
            Ok(n) if n > 0 => Ok(n),
            _ => Err(self.fail()),
        }
    }

    fn flush(&mut self) -> Result<(), WriteFault> {
        match self.writer.flush() {
            Ok(()) => Ok(()),
            Err(_) => Err(self.fail()),
        }
    }
}

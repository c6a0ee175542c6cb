//! The sink that keeps nothing.
ghost use Rattle.std.specs.Prelude.{◌≡◌, None, length};

use crate::{Sink, WriteFault};

/// The sink that takes every byte, keeps none and never fails.
#[derive(Clone, Copy, Debug)]
pub struct Nowhere;

impl Sink for Nowhere {
    ghost taken = { λ _. None };

    ghost failures = { λ _. 0 };

    fn write_some(&mut self, bytes: &[u8]) -> Result<usize, WriteFault>
        // Cargo: assert!(!bytes.is_empty(), "write_some takes at least one byte")
        ensures all { result ≡ Ok (length bytes.now) }
    {
        Ok(bytes.len())
    }

    fn flush(&mut self) -> Result<(), WriteFault>
        ensures done { result ≡ Ok tt }
    {
        Ok(())
    }
}

//! The standard streams over any reader and writer, and the file that is read in place of standard
//! input.
ghost use Rattle.std.specs.Prelude.{◌≡◌, ◌+◌, ◌-◌, ◌<◌, ◌≤◌, [], length, drop, min, IfOk, Ok, OnOk, vec_len, vec_capacity};
ghost use Rattle.std.specs.Io.KnownBytes.{Keeps, WriteAppends, append_known};
ghost use Rattle.pgn_layout.specs.Device.{Counts};
ghost use Rattle.pgn_tool.specs.declared.standard.StandardOrFile.TheVariants.{Standard};

use crate::file_system::FileSystem;
use crate::machine::{Input, Output, SystemFault};
use pgn_game::{Inlet, Outlet, ReadFailed, Sink, Source, WriteFault};
use std::alloc::{AllocError, Global};
use std::io::{self, Read, Write};

/// How many bytes of standard output are written at once.
const OUTPUT_BUFFER: usize = 64 * 1024;

/// What is read.
#[derive(Drop)]
pub enum StandardOrFile<R, F> {
    Standard(R),
    Opened(F),
}

impl<R: Read, F: Read> Read for StandardOrFile<R, F> {
    ghost use Rattle.pgn_tool.specs.Standard.{left_in};

    ghost remaining = { left_in R.remaining F.remaining };

    fn read(&mut self, buffer: &mut [u8]) -> io::Result<usize> {
        match self {
            StandardOrFile::Standard(input) => input.read(buffer),
            StandardOrFile::Opened(file) => file.read(buffer),
        }
    }
}

/// Standard input, or a file in its place.
#[derive(Drop)]
pub struct StandardInput<S: FileSystem, R> {
    pub system: S,
    pub inlet: Inlet<StandardOrFile<R, S::File>>,
}

impl<S: FileSystem, R> StandardInput<S, R> {
    /// Standard input, which this reader gives.
    pub fn new(system: S, reader: R) -> StandardInput<S, R>
        ensures system { result.system ≡ system }
        ensures inlet { result.inlet ≡ record { reader = Standard reader; failures = 0 } }
    {
        StandardInput {
            system,
            inlet: Inlet::new(StandardOrFile::Standard(reader)),
        }
    }
}

impl<S: FileSystem, R: Read + Drop> Source for StandardInput<S, R> {
    ghost use Rattle.pgn_tool.specs.Standard.{left_in};

    ghost left = { λ s. left_in R.remaining S.File.remaining s.inlet.reader };

    ghost failures = { λ s. s.inlet.failures };

    fn read_some(&mut self, buffer: &mut [u8]) -> Result<usize, ReadFailed> {
        self.inlet.read_some(buffer)
    }
}

impl<S: FileSystem, R: Read + Drop> Input for StandardInput<S, R> {
    ghost holding = { λ s. S.holding s.system };

    ghost refuses = { λ s. S.refuses s.system };

    fn open(&mut self, name: &str) -> Result<(), SystemFault> {
        let file = self.system.open(name)?;
        self.inlet = Inlet::new(StandardOrFile::Opened(file));
        Ok(())
    }
}

/// Standard output over a writer, without a buffer until there is one. It holds back 64 KiB at
/// most.
#[derive(Drop)]
pub struct StandardOutput<W> {
    pub outlet: Outlet<W>,
    pub buffer: Vec<u8>,
    ghost short: { vec_len buffer ≤ 65536 },
}

impl<W: Write> StandardOutput<W> {
    /// Standard output, which this writer takes.
    pub fn new(alloc: Global, writer: W) -> StandardOutput<W>
        ensures outlet { result.outlet ≡ record { writer = writer; failures = 0 } }
        ensures empty { result.buffer.items ≡ [] }
    {
        StandardOutput {
            outlet: Outlet::new(writer),
            buffer: Vec::new(alloc),
        }
    }

    // How many bytes are still taken before the buffer has to be written out.
    #[inline]
    fn room(&self) -> usize
        ensures { result ≡ min 65536 (vec_capacity self.now.buffer) - vec_len self.now.buffer }
    {
        self.buffer.capacity().min(OUTPUT_BUFFER) - self.buffer.len()
    }

    // Writes the buffer out. What a failure leaves stays in it.
    #[cold]
    #[inline(never)]
    fn write_out(&mut self) -> Result<(), WriteFault>
        ensures bytes { Keeps
            (append_known (W.contents self.old.outlet.writer) self.old.buffer.items)
            (append_known (W.contents self.new.outlet.writer) self.new.buffer.items) }
        ensures failures { Counts result self.old.outlet.failures self.new.outlet.failures }
        ensures empty { OnOk result (self.new.buffer.items ≡ []) }
        ensures capacity { vec_capacity self.new.buffer ≡ vec_capacity self.old.buffer }
    {
        while !self.buffer.is_empty() {
            let count = self.outlet.write_some(self.buffer.as_slice())?;
            remove_front(&mut self.buffer, count);
        }
        Ok(())
    }
}

// Takes the first bytes away.
fn remove_front(buffer: &mut Vec<u8>, count: usize)
    requires { count ≤ vec_len buffer.old }
    ensures items { buffer.new.items ≡ drop count buffer.old.items }
    ensures capacity { vec_capacity buffer.new ≡ vec_capacity buffer.old }
{
    let length = buffer.len();
    buffer.as_mut_slice().copy_within(count..length, 0);
    buffer.truncate(length - count);
}

impl<W: Write> Sink for StandardOutput<W> {
    ghost use Rattle.std.specs.Prelude.{Some};
    ghost use Rattle.std.specs.Io.KnownBytes.{append_known};

    ghost taken = { λ s. append_known (W.contents s.outlet.writer) s.buffer.items };

    ghost failures = { λ s. s.outlet.failures };

    ghost unflushed = { λ s. Some s.buffer.items };

    /// Takes some of the first bytes, at least one, and returns how many. What has room in the
    /// buffer goes to no writer yet.
    #[inline]
    fn write_some(&mut self, bytes: &[u8]) -> Result<usize, WriteFault>
        requires { 0 < length bytes.now }
        ensures bytes { WriteAppends
            (append_known (W.contents self.old.outlet.writer) self.old.buffer.items)
            (append_known (W.contents self.new.outlet.writer) self.new.buffer.items)
            result bytes.now }
        ensures count { IfOk result (λ n. (0 < n) × (n ≤ length bytes.now)) }
        ensures failures { Counts result self.old.outlet.failures self.new.outlet.failures }
        ensures buffered { vec_len self.old.buffer + length bytes.now
            ≤ min 65536 (vec_capacity self.old.buffer)
            → (result ≡ Ok (length bytes.now)) × (self.new.outlet ≡ self.old.outlet) }
        ensures capacity { vec_capacity self.old.buffer ≤ vec_capacity self.new.buffer }
    {
        if bytes.len() > self.room() {
            self.write_out()?;
            if bytes.len() > self.room() {
                return self.outlet.write_some(bytes);
            }
        }
        let Ok(()) = self.buffer.extend_from_slice(bytes) else {
            unreachable!()
        };
        Ok(bytes.len())
    }

    fn flush(&mut self) -> Result<(), WriteFault>
        ensures bytes { Keeps
            (append_known (W.contents self.old.outlet.writer) self.old.buffer.items)
            (append_known (W.contents self.new.outlet.writer) self.new.buffer.items) }
        ensures failures { Counts result self.old.outlet.failures self.new.outlet.failures }
        ensures flushed { OnOk result (self.new.buffer.items ≡ []) }
        ensures capacity { vec_capacity self.new.buffer ≡ vec_capacity self.old.buffer }
    {
        self.write_out()?;
        self.outlet.flush()
    }
}

impl<W: Write> Output for StandardOutput<W> {
    ghost use Rattle.std.specs.Prelude.{refl};
    ghost use Rattle.pgn_tool.specs.Standard.{lacks_room};

    ghost lacks_memory = { λ s. lacks_room s.buffer };

    ghost reports = { λ _. refl };

    fn reserve(&mut self) -> Result<(), AllocError> {
        Ok(self.buffer.try_reserve_exact(OUTPUT_BUFFER)?)
    }
}

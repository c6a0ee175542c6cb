//! Devices in memory, of which one call fails.
ghost use Rattle.std.specs.Prelude.{◌≡◌, IfOk};

use pgn_game::{Inlet, Outlet, ReadFailed, Sink, Source, WriteFault};
use std::io::{self, ErrorKind, Read, Write};

/// What a write does in place of its work.
#[derive(Clone, Copy, Debug, PartialEq, Eq)]
pub enum Trouble {
    Broken,
    Interrupted,
    TakesNone,
}

impl Trouble {
    fn answer(self) -> io::Result<usize>
        ensures { IfOk result (λ n. n ≡ 0) }
    {
        match self {
            Trouble::Broken => Err(io::Error::from(ErrorKind::BrokenPipe)),
            Trouble::Interrupted => Err(io::Error::from(ErrorKind::Interrupted)),
            Trouble::TakesNone => Ok(0),
        }
    }
}

/// The calls of a device, counted from 0, of which one fails.
#[derive(Clone, Copy, Debug)]
pub struct Calls {
    pub made: usize,
    pub fails_at: usize,
}

impl Calls {
    fn fails_next(&mut self) -> bool {
        let call = self.made;
        self.made = call.saturating_add(1);
        call == self.fails_at
    }

    /// Whether the call that fails was made.
    pub fn has_failed(&self) -> bool {
        self.fails_at < self.made
    }
}

/// A writer to memory, which takes at most so many bytes a call.
#[derive(Drop)]
pub struct Page<'a> {
    pub taken: &'a mut Vec<u8>,
    pub calls: Calls,
    pub trouble: Trouble,
    pub most: usize,
    pub flushes: usize,
}

impl<'a> Write for Page<'a> {
    fn write(&mut self, bytes: &[u8]) -> io::Result<usize> {
        if self.calls.fails_next() {
            return self.trouble.answer();
        }
        let count = bytes.len().min(self.most);
        self.taken.write(&bytes[..count])
    }

    fn flush(&mut self) -> io::Result<()> {
        self.flushes = self.flushes.saturating_add(1);
        Err(io::Error::from(ErrorKind::BrokenPipe))
    }
}

/// A reader of a text, which gives at most so many bytes a call.
#[derive(Drop)]
pub struct Tape {
    pub text: &'static [u8],
    pub calls: Calls,
    pub error: ErrorKind,
    pub most: usize,
}

impl Read for Tape {
    fn read(&mut self, buffer: &mut [u8]) -> io::Result<usize> {
        if self.calls.fails_next() {
            return Err(io::Error::from(self.error));
        }
        let count = self.text.len().min(buffer.len()).min(self.most);
        let (given, left) = self.text.split_at(count);
        buffer[..count].copy_from_slice(given);
        self.text = left;
        Ok(count)
    }
}

/// A sink over a page, which shows how often it failed.
#[derive(Drop)]
pub struct Meter<'a> {
    pub outlet: Outlet<Page<'a>>,
    pub failures: u64,
}

impl<'a> Meter<'a> {
    /// The sink over a page with this text, which is emptied first.
    pub fn new(text: &'a mut Vec<u8>, trouble: Trouble, fails_at: usize, most: usize) -> Meter<'a> {
        text.clear();
        Meter {
            outlet: Outlet::new(Page {
                taken: text,
                calls: Calls { made: 0, fails_at },
                trouble,
                most,
                flushes: 0,
            }),
            failures: 0,
        }
    }

    /// The sink of which no call fails.
    pub fn whole(text: &'a mut Vec<u8>) -> Meter<'a> {
        Meter::new(text, Trouble::Broken, usize::MAX, usize::MAX)
    }
}

impl<'a> Sink for Meter<'a> {
    ghost use Rattle.std.specs.Prelude.{None};

    ghost taken = { λ _. None };

    ghost failures = { λ m. m.failures };

    fn write_some(&mut self, bytes: &[u8]) -> Result<usize, WriteFault> {
        let answer = self.outlet.write_some(bytes);
        if answer.is_err() {
            self.failures = self.failures.saturating_add(1);
        }
        answer
    }

    fn flush(&mut self) -> Result<(), WriteFault> {
        let answer = self.outlet.flush();
        if answer.is_err() {
            self.failures = self.failures.saturating_add(1);
        }
        answer
    }
}

/// A source over a tape, which shows how often it failed.
#[derive(Drop)]
pub struct Gauge {
    pub inlet: Inlet<Tape>,
    pub failures: u64,
}

impl Gauge {
    /// The source of this text.
    pub fn new(text: &'static [u8], error: ErrorKind, fails_at: usize, most: usize) -> Gauge {
        Gauge {
            inlet: Inlet::new(Tape {
                text,
                calls: Calls { made: 0, fails_at },
                error,
                most,
            }),
            failures: 0,
        }
    }
}

impl Source for Gauge {
    ghost use Rattle.std.specs.Prelude.{None};

    ghost left = { λ _. None };

    ghost failures = { λ g. g.failures };

    fn read_some(&mut self, buffer: &mut [u8]) -> Result<usize, ReadFailed> {
        let answer = self.inlet.read_some(buffer);
        if answer.is_err() {
            self.failures = self.failures.saturating_add(1);
        }
        answer
    }
}

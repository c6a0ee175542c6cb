//! Devices in memory, of which one call fails.
ghost use Rattle.std.specs.Prelude.{◌≡◌, IfOk};

use std::alloc::Global;
use std::fmt::Debug;
use std::io::{self, ErrorKind, Read, Write};
use std::process::Abort;

/// Ends the test unless this holds, and says of which case.
pub fn holds_at<C: Debug>(rt: &impl Abort, holds: bool, case: &C) {
    assert!(rt; holds, "at {case:?}");
}

/// Whether these bytes are a front of the text, and not the whole of it.
pub fn is_cut_off(taken: &[u8], text: &[u8]) -> bool {
    text.starts_with(taken) && taken.len() < text.len()
}

/// What a call does that does not do its work.
#[derive(Clone, Copy, Debug, PartialEq, Eq)]
pub enum Trouble {
    Broken,
    Interrupted,
    TakesNone,
}

impl Trouble {
    fn answer(self) -> io::Result<usize>
        ensures { IfOk result (λ n. n ≡ 0) }
    {
        match self {
            Trouble::Broken => Err(io::Error::from(ErrorKind::BrokenPipe)),
            Trouble::Interrupted => Err(io::Error::from(ErrorKind::Interrupted)),
            Trouble::TakesNone => Ok(0),
        }
    }
}

/// A writer to memory. One of its writes fails, or each flush.
#[derive(Drop)]
pub struct Page {
    pub alloc: Global,
    pub number: u64,
    pub taken: Vec<u8>,
    pub calls: usize,
    pub fails_at: usize,
    pub trouble: Trouble,
    /// How many bytes a write takes at most.
    pub most: usize,
    pub flushes: usize,
    /// How many bytes had been taken at the last flush.
    pub flushed: usize,
    pub flush_fails: bool,
}

impl Page {
    /// Whether the page has this text, and was flushed once, behind it.
    pub fn has_flushed(&self, text: &[u8]) -> bool {
        self.taken.as_slice() == text && self.flushes == 1 && self.flushed == self.taken.len()
    }
}

impl Write for Page {
    fn write(&mut self, bytes: &[u8]) -> io::Result<usize> {
        let call = self.calls;
        self.calls = call.saturating_add(1);
        if call == self.fails_at {
            return self.trouble.answer();
        }
        let count = bytes.len().min(self.most);
        self.taken.write(&bytes[..count])
    }

    fn flush(&mut self) -> io::Result<()> {
        self.flushes = self.flushes.saturating_add(1);
        self.flushed = self.taken.len();
        if self.flush_fails {
            return Err(io::Error::from(ErrorKind::BrokenPipe));
        }
        Ok(())
    }
}

/// A writer of which no call fails.
pub fn memory(alloc: Global) -> Page {
    Page {
        alloc,
        number: 0,
        taken: Vec::new(alloc),
        calls: 0,
        fails_at: usize::MAX,
        trouble: Trouble::Broken,
        most: usize::MAX,
        flushes: 0,
        flushed: 0,
        flush_fails: false,
    }
}

/// A writer of which this call fails, in this way. It takes so many bytes at most.
pub fn failing_memory(alloc: Global, fails_at: usize, trouble: Trouble, most: usize) -> Page {
    let mut page = memory(alloc);
    page.fails_at = fails_at;
    page.trouble = trouble;
    page.most = most;
    page
}

/// Whether the page has the report of a read that failed at this byte.
pub fn says_unread(page: &Page, byte: usize) -> bool {
    let alloc = page.alloc;
    format!(in alloc; "byte {byte}: input cannot be read\n").is_ok_and(|line| {
        page.taken.as_slice() == line.as_bytes()
    })
}

/// A reader of a text in pieces of so many bytes, which fails at one of its calls.
#[derive(Clone, Copy)]
pub struct TextReader {
    pub text: &'static [u8],
    pub calls: usize,
    pub fails_at: usize,
    pub error: ErrorKind,
    pub most: usize,
}

impl Read for TextReader {
    fn read(&mut self, buffer: &mut [u8]) -> io::Result<usize> {
        let call = self.calls;
        self.calls = call.saturating_add(1);
        if call == self.fails_at {
            return Err(io::Error::from(self.error));
        }
        let count = self.text.len().min(buffer.len()).min(self.most);
        let (front, rest) = self.text.split_at(count);
        buffer[..count].copy_from_slice(front);
        self.text = rest;
        Ok(count)
    }
}

/// A reader of which this call fails with this error. It gives so many bytes at most.
pub fn failing_reader(
    text: &'static [u8],
    fails_at: usize,
    error: ErrorKind,
    most: usize,
) -> TextReader {
    TextReader {
        text,
        calls: 0,
        fails_at,
        error,
        most,
    }
}

/// A reader of which no call fails.
pub fn whole(text: &'static [u8]) -> TextReader {
    failing_reader(text, usize::MAX, ErrorKind::BrokenPipe, usize::MAX)
}

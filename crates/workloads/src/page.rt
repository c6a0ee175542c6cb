//! The text of some games.

use itoa::Buffer;
use std::alloc::Global;

/// From this column on a word of movetext goes to the next line.
const LAST_COLUMN: usize = 74;

/// A text that grows at its end. What there is no memory for is left out.
#[derive(Drop)]
pub struct Page {
    text: Vec<u8>,
    column: usize,
    used: usize,
}

impl Page {
    pub fn new(alloc: Global) -> Page {
        Page {
            text: Vec::new(alloc),
            column: 0,
            used: 0,
        }
    }

    /// Adds a text.
    pub fn add(&mut self, text: &[u8]) {
        let _ = self.text.extend_from_slice(text);
        self.column = self.column.saturating_add(text.len());
    }

    /// Adds a number.
    pub fn add_number(&mut self, number: u64) {
        self.add(Buffer::new().format(number).as_bytes());
    }

    /// Adds a number of two digits.
    pub fn add_two_digits(&mut self, number: u64) {
        if number < 10 {
            self.add(b"0");
        }
        self.add_number(number);
    }

    /// Begins a word of movetext: adds a space, or ends a line that is full.
    pub fn begin_word(&mut self) {
        if self.column >= LAST_COLUMN {
            self.end_line();
        } else if self.column > 0 {
            self.add(b" ");
        }
    }

    /// Adds a word of movetext.
    pub fn add_word(&mut self, word: &[u8]) {
        self.begin_word();
        self.add(word);
    }

    /// Ends the line.
    pub fn end_line(&mut self) {
        self.add(b"\n");
        self.column = 0;
    }

    /// How many bytes are not used yet.
    pub fn length(&self) -> usize {
        self.text.len().saturating_sub(self.used)
    }

    /// The bytes that are not used yet.
    pub fn unused(&self) -> &[u8] {
        match self.text.as_slice().split_at_checked(self.used) {
            Some((_, rest)) => rest,
            None => b"",
        }
    }

    /// Uses some bytes.
    pub fn skip(&mut self, count: usize) {
        self.used = self.used.saturating_add(count);
    }

    /// Leaves nothing.
    pub fn clear(&mut self) {
        self.text.clear();
        self.used = 0;
        self.column = 0;
    }
}

/// The bytes of a text from one place to another.
pub fn part(text: &[u8], begin: usize, end: usize) -> &[u8] {
    if begin <= end && end <= text.len() {
        &text[begin..end]
    } else {
        b""
    }
}

//! A line of a bad game, read byte by byte.
ghost use Rattle.std.specs.Prelude.{◌≡◌, ◌+◌, ◌<◌, ◌≤◌, ◌^◌, IsTrue};
ghost use Rattle.pgn_sections.specs.Line as spec;

use crate::outside::Comment;
use crate::pair::{FrontOfLine, PairProgress};
use crate::tag_line::TagSearch;
use crate::text::Text;
use pgn_lexer::is_space;

/// A byte order mark that is looked for at a place.
#[derive(Clone, Copy)]
pub(crate) enum MarkSearch {
    Begin,
    BehindFirst,
    BehindSecond,
    Whole,
    Missing,
}

/// What the bytes of a line so far have.
#[derive(Clone, Copy)]
pub(crate) struct Line {
    /// Where it begins.
    pub at: usize,
    /// How many bytes of it are read.
    pub length: usize,
    /// Its first byte.
    pub first: Option<u8>,
    /// Its last byte that is no white space.
    pub last: Option<u8>,
    /// The tag that it begins with.
    pub tag: TagSearch,
    /// So many of its bytes are before the place where a byte order mark is looked for.
    pub mark_at: usize,
    /// That mark.
    pub mark: MarkSearch,
    /// Its tag pairs, and the text after them.
    pub front: FrontOfLine,
}

fn mark_with(mark: MarkSearch, byte: u8) -> MarkSearch
    ensures { result ≡ spec.mark_with mark byte }
{
    match mark {
        MarkSearch::Begin => if byte == 0xef {
            MarkSearch::BehindFirst
        } else {
            MarkSearch::Missing
        },
        MarkSearch::BehindFirst => if byte == 0xbb {
            MarkSearch::BehindSecond
        } else {
            MarkSearch::Missing
        },
        MarkSearch::BehindSecond => if byte == 0xbf {
            MarkSearch::Whole
        } else {
            MarkSearch::Missing
        },
        MarkSearch::Whole => MarkSearch::Whole,
        MarkSearch::Missing => MarkSearch::Missing,
    }
}

fn is_whole_mark(mark: MarkSearch) -> bool
    ensures { result ≡ spec.is_whole_mark mark }
{
    match mark {
        MarkSearch::Whole => true,
        _ => false,
    }
}

// The front of a line. In a comment it has no tag pairs.
fn front_in(comment_at: Option<usize>) -> FrontOfLine
    ensures { result ≡ spec.front_in comment_at }
{
    match comment_at {
        None => FrontOfLine {
            pair: PairProgress::Stray,
            has_pair: false,
            text: Text::new(),
        },
        Some(place) => FrontOfLine {
            pair: PairProgress::Missing,
            has_pair: false,
            text: Text::begin_in(Comment::Braces, Some(place)),
        },
    }
}

impl Line {
    // The line at a place, before its first byte.
    pub(crate) fn begin_at(at: usize, mark_at: usize, comment_at: Option<usize>) -> Line
        ensures { result ≡ spec.line_at at mark_at comment_at }
    {
        Line {
            at,
            length: 0,
            first: None,
            last: None,
            tag: TagSearch::new(),
            mark_at,
            mark: MarkSearch::Begin,
            front: front_in(comment_at),
        }
    }

    // With one byte more.
    pub(crate) fn with(self, byte: u8) -> Line
        requires { self.at + self.length + 1 < 2 ^ 64 }
        ensures line { result ≡ spec.line_with self byte }
        ensures tag { self.tag.at ≤ self.length → result.tag.at ≤ result.length }
    {
        Line {
            at: self.at,
            length: self.length + 1,
            first: if self.first.is_some() {
                self.first
            } else {
                Some(byte)
            },
            last: if is_space(byte) {
                self.last
            } else {
                Some(byte)
            },
            tag: self.tag.with(self.length, byte),
            mark_at: self.mark_at,
            mark: if self.length < self.mark_at {
                self.mark
            } else {
                mark_with(self.mark, byte)
            },
            front: self.front.with(self.at + self.length, byte),
        }
    }

    // Whether a byte order mark of the line begins at the place where the game ends.
    pub(crate) fn has_mark_at(&self, at: usize) -> bool
        ensures value { result ≡ spec.has_mark_at self.now at }
        ensures within { IsTrue result → at + 3 ≤ self.now.length }
    {
        if self.length < 3 || self.length - 3 < at {
            return false;
        }
        if at == self.mark_at {
            is_whole_mark(self.mark)
        } else {
            self.tag.is_marked
        }
    }
}

//! A source that makes the games of an archive as they are read.

use crate::movetext::add_move_with_rest;
use crate::page::{Page, part};
use crate::random::Random;
use crate::style::{Style, next_writing};
use crate::tag_pairs::{add_tag, add_tags, begin_tag, end_tag};
use pgn_game::{ReadFailed, Source};
use std::alloc::{AllocError, Global};

/// So many bytes are made before some are read, if there are games left.
const AT_LEAST: usize = 65_536;

/// In so many ways the movetext of a line is written.
const WAYS: usize = 3;

/// One way in which the movetext of a line is written.
#[derive(Clone, Copy)]
struct Text<'a> {
    /// The result, or the first four fields of a FEN.
    head: &'a [u8],
    /// Where it begins, where it may be cut, and where it ends.
    begin: usize,
    cut: usize,
    end: usize,
}

/// An archive: lines of games or of positions, of which each is used for several games.
#[derive(Drop)]
pub struct Archive<'a> {
    style: Style,
    texts: Vec<Text<'a>>,
    written: Page,
    left: u64,
    made: u64,
    random: Random,
    page: Page,
}

impl<'a> Archive<'a> {
    /// An archive of so many games, of which none is made yet.
    pub fn new(
        alloc: Global,
        lines: &[&'a [u8]],
        style: Style,
        count: u64,
        seed: u64,
    ) -> Result<Archive<'a>, AllocError> {
        let mut archive = Archive {
            style,
            texts: Vec::new(alloc),
            written: Page::new(alloc),
            left: count,
            made: 0,
            random: Random::new(seed),
            page: Page::new(alloc),
        };
        for _ in 0..WAYS {
            for line in lines {
                archive.write(line)?;
            }
        }
        Ok(archive)
    }

    /// The bytes that were made and are not read yet: more are made if there are none.
    pub fn text(&mut self) -> &[u8] {
        if self.page.length() == 0 {
            self.page.clear();
            for _ in 0..AT_LEAST {
                if self.left == 0 || self.page.length() >= AT_LEAST {
                    break;
                }
                self.make_game();
            }
        }
        self.page.unused()
    }

    /// Takes so many bytes as read.
    pub fn skip(&mut self, count: usize) {
        self.page.skip(count);
    }

    /// Writes the movetext of a line in another way.
    fn write(&mut self, line: &'a [u8]) -> Result<(), AllocError> {
        let fields = match self.style {
            Style::Puzzles | Style::Stress => 4,
            _ => 1,
        };
        let (head, moves) = cut_behind(line, fields);
        let plies = moves.split(|byte| *byte == b' ').count();
        let (_, side) = cut_behind(head, 1);
        let writing = next_writing(self.style, side.starts_with(b"b"), plies, &mut self.random);
        let begin = self.written.length();
        let mut cut = begin;
        let mut rest = moves;
        for ply in 0..plies {
            add_move_with_rest(rest, ply, writing, &mut self.random, &mut self.written);
            let (_, behind) = cut_behind(rest, 1);
            rest = behind;
            if ply <= writing.cut {
                cut = self.written.length();
            }
        }
        let end = self.written.length();
        self.written.end_line();
        self.texts.push(Text {
            head,
            begin,
            cut,
            end,
        })?;
        Ok(())
    }

    fn make_game(&mut self) {
        self.left = self.left.saturating_sub(1);
        self.made = self.made.saturating_add(1);
        let count = self.texts.len() as u64;
        if count == 0 {
            return;
        }
        let Some(text) = self.texts.get((self.made % count) as usize).copied() else {
            return;
        };
        match self.style {
            Style::Puzzles | Style::Stress => self.make_from(text),
            _ => self.make_whole(text),
        }
    }

    /// Makes a game from the first position.
    fn make_whole(&mut self, text: Text<'a>) {
        add_tags(
            self.style,
            text.head,
            self.made,
            &mut self.random,
            &mut self.page,
        );
        self.page.end_line();
        let end = if self.random.once_in(2) {
            text.cut
        } else {
            text.end
        };
        self.page.add(part(self.written.unused(), text.begin, end));
        self.page.add(b" ");
        self.page.add(text.head);
        self.page.add(b"\n\n");
    }

    /// Makes a game from a position.
    fn make_from(&mut self, text: Text<'a>) {
        add_tags(
            self.style,
            b"*",
            self.made,
            &mut self.random,
            &mut self.page,
        );
        begin_tag(b"FEN", &mut self.page);
        self.page.add(text.head);
        self.page.add(b" ");
        self.page.add_number(self.random.below(40) as u64);
        self.page.add(b" ");
        self.page.add_number(1 + self.random.below(200) as u64);
        end_tag(&mut self.page);
        add_tag(b"SetUp", b"1", &mut self.page);
        self.page.end_line();
        self.page
            .add(part(self.written.unused(), text.begin, text.end));
        self.page.add(b" *\n\n");
    }
}

/// The first words, and what is behind the space after them.
pub fn cut_behind(text: &[u8], words: usize) -> (&[u8], &[u8]) {
    let mut spaces = 0usize;
    for (at, byte) in text.iter().enumerate() {
        if *byte == b' ' {
            spaces = spaces.saturating_add(1);
            if spaces == words {
                return (&text[..at], &text[at + 1..]);
            }
        }
    }
    (text, b"")
}

impl<'a> Source for Archive<'a> {
    ghost use Rattle.std.specs.Prelude.{None};

    ghost left = { λ _. None };

    ghost failures = { λ _. 0 };

    fn read_some(&mut self, buffer: &mut [u8]) -> Result<usize, ReadFailed> {
        let text = self.text();
        let count = text.len().min(buffer.len());
        buffer[..count].copy_from_slice(&text[..count]);
        self.skip(count);
        Ok(count)
    }
}

//! What the lines of a bad game had so far, and what ends it.
ghost use Rattle.std.specs.Prelude.{◌≡◌, ◌+◌, ◌<◌, ◌≤◌, ◌^◌, ℕ, IfSome, length};
ghost use Rattle.pgn_sections.specs.BadGame as spec;
ghost use Rattle.pgn_sections.specs.Line as line_spec;
ghost use Rattle.pgn_sections.specs.Line.{line_begun, line_over};
ghost use Rattle.pgn_sections.specs.LineReaders.{HasEscapesBefore};
ghost use Rattle.pgn_sections.specs.Pieces.{IsSameGame};
ghost use Rattle.pgn_sections.specs.declared.bad_game.Ends.TheVariants.{Anywhere};

use crate::line::Line;
use crate::outside::{OutsideText, is_byte};
use crate::tag_line::TagLine;

/// Which lines can show where a game ends.
#[derive(Clone, Copy, PartialEq, Eq, Debug)]
pub enum Ends {
    /// All lines, as for a bad game.
    Anywhere,
    /// Lines in comments, as for a sound game, of which a comment may hide another one.
    InComments,
    /// None. The lines are read for the comment that is open at their end (`comment_at`).
    Nowhere,
}

/// A bad game whose lines are read in turn, to find where reading goes on after it.
#[derive(Clone, Copy, PartialEq, Eq, Debug)]
pub struct BadGame {
    /// Where the game before it ends.
    pub begin: usize,
    /// The place of its fault.
    pub fault: usize,
    /// Where the next line begins, or reading goes on, if that is found.
    pub at: usize,
    /// Which lines can show where it ends.
    pub ends: Ends,
    /// Whether a line so far had a tag.
    pub has_tags: bool,
    /// Whether a line so far was movetext.
    pub has_movetext: bool,
    /// Whether the line before was empty, or there was none.
    pub is_behind_empty_line: bool,
    /// Where the comment in braces begins that is open, if one is.
    pub comment_at: Option<usize>,
    /// Where the escape lines just before the next line begin, if there are some.
    pub escapes_at: Option<usize>,
}

impl BadGame {
    /// A bad game none of whose lines is read.
    ///
    /// `begin` is where the game before it ends, and `fault` the place of its fault.
    pub fn new(begin: usize, fault: usize) -> BadGame
        ensures { result ≡ spec.unread begin fault }
    {
        BadGame {
            begin,
            fault,
            at: begin,
            ends: Ends::Anywhere,
            has_tags: false,
            has_movetext: false,
            is_behind_empty_line: true,
            comment_at: None,
            escapes_at: None,
        }
    }

    // The next line, which has these bytes.
    pub(crate) fn line_of(&self, bytes: &[u8]) -> Line
        requires { self.now.at + length bytes.now < 2 ^ 64 }
        ensures line { result ≡ line_over (line_begun self.now) bytes.now }
        ensures length { result.length ≡ length bytes.now }
        ensures tag { result.tag.at ≤ result.length }
    {
        let mut line = self.next_line();
        for byte in bytes {
            line = line.with(*byte);
        }
        line
    }

    // The next line, before its first byte.
    pub(crate) fn next_line(&self) -> Line
        ensures { result ≡ line_begun self.now }
    {
        let mark_at = self.before_escapes(self.at).saturating_sub(self.at);
        Line::begin_at(self.at, mark_at, self.comment_at)
    }

    // Where the game ends, if the line shows it.
    fn end_at(&self, line: &Line) -> Option<usize>
        requires { self.now.at + line.now.tag.at < 2 ^ 64 }
        ensures place { result ≡ line_spec.end_at self.now line.now }
        ensures within { HasEscapesBefore self.now → IfSome result
            (λ place. place ≤ self.now.at + line.now.tag.at) }
    {
        match self.ends {
            Ends::Anywhere => self.end_in_or_outside(line),
            Ends::InComments => {
                if self.comment_at.is_some() {
                    self.end_in_comment(line.tag.found())
                } else {
                    None
                }
            }
            Ends::Nowhere => None,
        }
    }

    fn end_in_or_outside(&self, line: &Line) -> Option<usize>
        requires { self.now.at + line.now.tag.at < 2 ^ 64 }
        ensures place { result ≡ line_spec.end_by Anywhere self.now line.now }
        ensures within { HasEscapesBefore self.now → IfSome result
            (λ place. place ≤ self.now.at + line.now.tag.at) }
    {
        if self.comment_at.is_some() {
            self.end_in_comment(line.tag.found())
        } else {
            self.end_outside(is_byte(line.last, b']'), line.tag.found())
        }
    }

    fn end_in_comment(&self, found: Option<TagLine>) -> Option<usize>
        requires { IfSome found (λ tag. self.now.at + tag.at < 2 ^ 64) }
        ensures place { result ≡ spec.end_in_comment self.now found }
        ensures within { (n : ℕ) → IfSome found (λ tag. tag.at ≤ n)
            → IfSome result (λ place. place ≤ self.now.at + n) }
    {
        match found {
            None => None,
            Some(tag) => {
                if tag.is_quoted && (self.has_movetext || self.is_behind_empty_line) {
                    Some(self.at + tag.at)
                } else {
                    None
                }
            }
        }
    }

    // The line is the rest of a tag pair if it ends with a bracket.
    fn end_outside(&self, is_rest: bool, found: Option<TagLine>) -> Option<usize>
        requires { IfSome found (λ tag. self.now.at + tag.at < 2 ^ 64) }
        ensures place { result ≡ line_spec.end_outside self.now is_rest found }
        ensures within { HasEscapesBefore self.now → (n : ℕ) → IfSome found (λ tag. tag.at ≤ n)
            → IfSome result (λ place. place ≤ self.now.at + n) }
    {
        match found {
            None => {
                if self.has_movetext && self.is_behind_empty_line && is_rest {
                    Some(self.before_escapes(self.at))
                } else {
                    None
                }
            }
            Some(tag) => {
                let place = self.at + tag.at;
                if self.has_movetext
                    || (self.has_tags && self.is_behind_empty_line && tag.is_event)
                {
                    Some(self.before_escapes(place))
                } else if !self.has_tags && self.fault <= place {
                    Some(place)
                } else {
                    None
                }
            }
        }
    }

    // Escape lines just before the next game belong to it, if they are after the fault.
    fn before_escapes(&self, place: usize) -> usize
        ensures before { result ≡ spec.before_escapes self.now.fault self.now.escapes_at place }
        ensures within { HasEscapesBefore self.now → self.now.at ≤ place → result ≤ place }
    {
        match self.escapes_at {
            None => place,
            Some(escapes) => {
                if escapes <= self.fault {
                    place
                } else {
                    escapes
                }
            }
        }
    }

    // Where reading goes on after the end: also after a byte order mark that stands there.
    fn behind_mark(&self, line: &Line, end: usize) -> usize
        requires { self.now.at + line.now.length < 2 ^ 64 }
        ensures place { result ≡ line_spec.behind_mark self.now line.now end }
        ensures within { end ≤ self.now.at + line.now.length
            → result ≤ self.now.at + line.now.length }
    {
        if self.at <= end && line.has_mark_at(end - self.at) {
            end + 3
        } else {
            end
        }
    }

    // Where reading goes on, if the line shows it.
    pub(crate) fn place_on(&self, line: &Line) -> Option<usize>
        requires fits { self.now.at + line.now.length < 2 ^ 64 }
        requires tag { line.now.tag.at ≤ line.now.length }
        ensures place { result ≡ line_spec.place_on self.now line.now }
        ensures above { IfSome result (λ place. self.now.begin < place) }
        ensures within { HasEscapesBefore self.now → IfSome result
            (λ place. place ≤ self.now.at + line.now.length) }
    {
        match self.end_at(line) {
            None => None,
            Some(end) => {
                let place = self.behind_mark(line, end);
                if self.begin < place {
                    Some(place)
                } else {
                    None
                }
            }
        }
    }

    // Takes a line of the game.
    pub(crate) fn read_line(&mut self, line: &Line)
        requires { self.old.at + line.now.length < 2 ^ 64 }
        ensures game { self.new ≡ line_spec.behind_line self.old line.now }
        ensures same { IsSameGame self.old self.new }
        ensures at { self.new.at ≡ self.old.at + line.now.length }
        ensures escapes { HasEscapesBefore self.old → HasEscapesBefore self.new }
    {
        if line.last.is_none() {
            self.is_behind_empty_line = true;
        } else if self.comment_at.is_none() && is_byte(line.first, b'%') {
            self.escapes_at = Some(self.first_escape());
        } else {
            let text = &line.front.text;
            self.take(line.front.has_pair, text.open_comment(), text.outside());
        }
        self.at += line.length;
    }

    fn first_escape(&self) -> usize
        ensures { result ≡ spec.first_escape self.now.escapes_at self.now.at }
    {
        match self.escapes_at {
            None => self.at,
            Some(escapes) => escapes,
        }
    }

    fn take(&mut self, has_pair: bool, comment_at: Option<usize>, text: OutsideText)
        ensures { self.new ≡ spec.with_text self.old has_pair comment_at text }
    {
        let is_movetext = text.has_text && (self.is_behind_empty_line || text.is_movetext);
        self.has_tags = self.has_tags || has_pair || text.has_tag;
        self.has_movetext = self.has_movetext || is_movetext;
        self.is_behind_empty_line = false;
        self.comment_at = comment_at;
        self.escapes_at = None;
    }
}

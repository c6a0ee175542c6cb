//! A search for where reading goes on after a bad game, in pieces that are cut anywhere.
ghost use Rattle.std.specs.Prelude.{◌≡◌, ◌+◌, ◌<◌, ◌≤◌, ◌^◌, ◌++◌, [], Bool, IfSome, List, Some, ℕ, true, false, length};
ghost use Rattle.pgn_sections.specs.Search as spec;

use crate::bad_game::BadGame;
use crate::line::Line;
use std::marker::Model;

/// A bad game, and its line so far.
#[derive(Clone, Copy)]
pub(crate) struct LineReader {
    pub game: BadGame,
    pub line: Line,
    /// Whether the last byte is a CR, which an LF may follow.
    pub is_behind_return: bool,
    /// Where reading goes on, if a line showed it.
    pub found: Option<usize>,
}

impl LineReader {
    ghost use Rattle.pgn_sections.specs.LineReaders.{HasEscapesBefore, IsSound, Reads};

    fn new(game: BadGame) -> LineReader
        requires { HasEscapesBefore game }
        ensures reader { result ≡ spec.reader_of game }
        ensures sound { IsSound result }
    {
        LineReader {
            game,
            line: game.next_line(),
            is_behind_return: false,
            found: None,
        }
    }

    fn end_line(self) -> LineReader
        requires { IsSound self }
        ensures reader { result ≡ spec.line_ended self }
        ensures reads { Reads 0 self result }
    {
        match self.game.place_on(&self.line) {
            Some(place) => LineReader {
                found: Some(place),
                ..self
            },
            None => {
                let mut game = self.game;
                game.read_line(&self.line);
                LineReader::new(game)
            }
        }
    }

    // A byte after a CR ends the line, if it is no LF.
    fn end_line_before(self, byte: u8) -> LineReader
        requires { IsSound self }
        ensures reader { result ≡ spec.line_ended_in self.found self byte }
        ensures reads { Reads 0 self result }
    {
        match self.found {
            Some(_) => self,
            None => {
                if self.is_behind_return && byte != b'\n' {
                    self.end_line()
                } else {
                    self
                }
            }
        }
    }

    fn with_byte(self, byte: u8) -> LineReader
        requires sound { IsSound self }
        requires fits { self.line.at + self.line.length + 1 < 2 ^ 64 }
        ensures reader { result ≡ spec.with_byte self byte }
        ensures reads { Reads 1 self result }
    {
        LineReader {
            line: self.line.with(byte),
            is_behind_return: byte == b'\r',
            ..self
        }
    }

    fn take(self, byte: u8) -> LineReader
        requires sound { IsSound self }
        requires fits { self.line.at + self.line.length + 1 < 2 ^ 64 }
        ensures reader { result ≡ spec.byte_taken_if self byte }
        ensures reads { Reads 1 self result }
    {
        match self.found {
            Some(_) => self,
            None => {
                let reader = self.with_byte(byte);
                if byte == b'\n' {
                    reader.end_line()
                } else {
                    reader
                }
            }
        }
    }

    // With one byte more.
    fn with(self, byte: u8) -> LineReader
        requires sound { IsSound self }
        requires fits { self.line.at + self.line.length + 1 < 2 ^ 64 }
        ensures reader { result ≡ spec.reader_with self byte }
        ensures reads { Reads 1 self result }
    {
        self.end_line_before(byte).take(byte)
    }

    // With the bytes of a piece.
    fn over(self, piece: &[u8]) -> LineReader
        requires sound { IsSound self }
        requires fits { self.line.at + self.line.length + length piece.now < 2 ^ 64 }
        ensures reader { result ≡ spec.reader_over self piece.now }
        ensures reads { Reads (length piece.now) self result }
    {
        let mut reader = self;
        for byte in piece {
            reader = reader.with(*byte);
        }
        reader
    }

    fn place_at_end(&self) -> Option<usize>
        requires { IsSound self.now }
        ensures place { result ≡ spec.place_at_end true self.now }
        ensures above { IfSome result (λ place. self.now.game.begin < place) }
        ensures within { IfSome result
            (λ place. place ≤ self.now.line.at + self.now.line.length) }
    {
        match self.found {
            Some(place) => Some(place),
            None => {
                if self.line.length == 0 {
                    None
                } else {
                    self.game.place_on(&self.line)
                }
            }
        }
    }
}

/// Searches a text that comes in pieces for where reading goes on after a bad game, by guess.
///
/// The pieces may be cut anywhere: in a line, or between CR and LF. The search keeps what it needs
/// of a line, and no text. So its size is constant, however long a line is.
///
/// # Examples
///
/// ```
/// use pgn_sections::SectionSearch;
///
/// let mut search = SectionSearch::new(0, 6);
/// assert_eq!(search.feed(b"1. e4 e9 2. d"), None);
/// assert_eq!(search.feed(b"4 *\r"), None);
/// assert_eq!(search.feed(b"\n\r\n[Whi"), None);
/// assert_eq!(search.feed(b"te \"Ada\"]"), None);
/// assert_eq!(search.finish(), Some(20));
/// ```
#[derive(Drop)]
pub struct SectionSearch {
    reader: LineReader,
}

impl Model for SectionSearch {
    ghost use Rattle.pgn_sections.specs.LineReaders.{IsSound};
    ghost use Rattle.pgn_sections.specs.declared.search.LineReader.{LineReader};

    ghost Value = { LineReader };

    ghost view = { λ s. s.reader };

    ghost invariant = { λ s. IsSound s.reader };
}

impl SectionSearch {
    ghost use Rattle.pgn_sections.specs.BadGame.{unread};
    ghost use Rattle.pgn_sections.specs.Lines.{lines_of, place_in};
    ghost use Rattle.pgn_sections.specs.Pieces.{whole_lines};
    ghost use Rattle.pgn_sections.specs.Search.{game_begin, place_behind, place_read};

    /// Returns a search that has read nothing.
    ///
    /// `begin` is where the game before ends, and `fault` the place of the fault. The text that is
    /// fed begins at `begin`. Places are byte offsets in the whole text.
    pub fn new(begin: usize, fault: usize) -> SectionSearch
        ensures at { place_read result ≡ begin }
        ensures begin { game_begin result ≡ begin }
        ensures whole { (text : List ℕ) → place_behind result true text
            ≡ place_in (unread begin fault) (lines_of text) }
        ensures found { (is_last : Bool) (text : List ℕ) → place_behind result is_last text
            ≡ place_in (unread begin fault) (whole_lines is_last (lines_of text)) }
    {
        let game = BadGame::new(begin, fault);
        let reader = LineReader::new(game);
        SectionSearch { reader }
    }

    /// Reads the next piece of the text, and returns where reading goes on, if a whole line shows
    /// it.
    ///
    /// `None` says that the whole lines so far show no place. A line is whole if it ends with an
    /// LF, or with a CR and another byte after it. Once a place is found, each further call
    /// returns it. It lies above `begin`, and at most at the end of the bytes read. `begin` and the
    /// lengths of all pieces must be together below 2^64.
    pub fn feed(&mut self, piece: &[u8]) -> Option<usize>
        requires { place_read self.old + length piece.now < 2 ^ 64 }
        ensures at { place_read self.new ≤ place_read self.old + length piece.now }
        ensures reads { (is_last : Bool) (text : List ℕ) → place_behind self.new is_last text
            ≡ place_behind self.old is_last (piece.now ++ text) }
        ensures place { result ≡ place_behind self.new false [] }
        ensures stays { IfSome result (λ place. (is_last : Bool) (text : List ℕ)
            → place_behind self.new is_last text ≡ Some place) }
        ensures begin { game_begin self.new ≡ game_begin self.old }
        ensures above { IfSome result (λ place. game_begin self.old < place) }
        ensures within { IfSome result (λ place. place ≤ place_read self.new) }
    {
        self.reader = self.reader.over(piece);
        self.reader.found
    }

    /// Returns where reading goes on, if the text ends here. Its last line may have no end.
    ///
    /// `None` says that no line of the text shows it: all the rest belongs to the bad game.
    pub fn finish(&self) -> Option<usize>
        ensures place { result ≡ place_behind self.now true [] }
        ensures above { IfSome result (λ place. game_begin self.now < place) }
        ensures within { IfSome result (λ place. place ≤ place_read self.now) }
    {
        self.reader.place_at_end()
    }
}

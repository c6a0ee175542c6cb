//! A line of play: the plies that a text of moves names, one after another.
ghost use Rattle.std.specs.Prelude.{◌≡◌, ◌<◌, ◌≤◌, ◌+◌, ◌^◌, Some, IfOk, IfSome, length};
ghost use Rattle.chess_rules.specs.Legal.{legal};
ghost use Rattle.pgn_lexer.specs.Bytes.{is_space as is_white_space};
ghost use Rattle.pgn_game.specs.public.LineOfPlay as spec;
ghost use Rattle.pgn_game.specs.public.LineOfPlay.{NextMove, NextPly, move_texts};
ghost use Rattle.pgn_game.specs.steps.LineWords.{FindsFirst, SpaceEnds, WordBegins, WordEnds};
ghost use Rattle.pgn_game.specs.steps.LineWords.{moves_from, words_from};

use crate::notation::{Notation, read_move};
use crate::reason::Fault;
use arrayvec::ArrayVec;
use chess_rules::{Position, Probes};
use chess_text::{Played, write_san};
use std::marker::Model;

/// A ply of a line of play.
#[derive(Drop)]
pub struct Ply {
    /// The place of its text: the byte offset, from 0.
    pub at: usize,
    /// The move, and the position after it.
    pub played: Played,
    /// The move in SAN (PGN 8.2.3), 1 to 7 bytes.
    pub san: ArrayVec<u8, 7>,
}

/// A move of a line of play: a ply without its SAN.
#[derive(Drop)]
pub struct MoveOfLine {
    /// The place of its text: the byte offset, from 0.
    pub at: usize,
    /// The move, and the position after it.
    pub played: Played,
}

/// A line of play: the plies that a text of moves names, from a position on.
///
/// The text has moves in one notation, with white space between them. Move numbers and periods that
/// stand alone, as `1.` and `12...`, are passed; any other word is to be a move. So there are no
/// comments, variations, glyphs or markers. [`LineOfPlay::next`] gives one ply after another, and
/// [`LineOfPlay::next_move`] the same without its SAN, in less time.
///
/// # Examples
///
/// ```
/// use chess_rules::Position;
/// use chess_text::write_uci;
/// use pgn_game::{LineOfPlay, Notation, Reason};
///
/// let mut line = LineOfPlay::new(Position::initial(), b"1. e4 e5 2. Ke3", Notation::San);
/// let first = line.next().unwrap().unwrap();
/// assert_eq!((first.at, first.san.as_slice()), (3, b"e4".as_slice()));
/// assert_eq!(write_uci(&first.played.mv).as_slice(), b"e2e4");
/// assert_eq!(line.next().unwrap().unwrap().san.as_slice(), b"e5");
/// let fault = line.next().err().unwrap();
/// assert_eq!((fault.at, fault.reason), (12, Reason::IllegalMove));
/// ```
#[derive(Drop)]
pub struct LineOfPlay<'a> {
    position: Position,
    text: &'a [u8],
    // The place of the first byte that is not read yet.
    at: usize,
    notation: Notation,
}

impl<'a> Model for LineOfPlay<'a> {
    ghost use Rattle.std.specs.Prelude.{◌≤◌, length};
    ghost use Rattle.pgn_game.specs.public.LineOfPlay.{Ahead};
    ghost use Rattle.pgn_game.specs.steps.LineWords.{moves_from};

    ghost Value = { Ahead };

    ghost view = { λ l. record {
      notation = l.notation;
      position = l.position;
      words = moves_from l.text.now l.at;
    } };

    ghost invariant = { λ l. l.at ≤ length l.text.now };
}

impl<'a> LineOfPlay<'a> {
    /// Returns the line of play of a text, from this position on. No move is read yet.
    pub fn new(position: Position, text: &'a [u8], notation: Notation) -> Self
        ensures { result ≡ record {
          notation = notation;
          position = position;
          words = move_texts 0 text.now;
        } }
    {
        LineOfPlay {
            position,
            text,
            at: 0,
            notation,
        }
    }

    /// Returns the current position: that after the last ply, or the first one.
    pub fn position(&self) -> &Position
        ensures { result.now ≡ self.now.position }
    {
        &self.position
    }

    /// Plays the next move of the text, and returns its ply. `None` if no move is left.
    ///
    /// It is [`LineOfPlay::next_move`] and [`write_san`].
    ///
    /// # Errors
    ///
    /// The first word that names no move, by the place of its first byte and the reason:
    /// `NotAMove`, `IllegalMove`, `AmbiguousMove` or `MoveLimit`, as by [`read_move`]. The line
    /// stays before that word, so each further call returns the same.
    pub fn next(&mut self) -> Result<Option<Ply>, Fault>
        ensures next { NextPly self.old result self.new }
        ensures legal { IfOk result (λ found. IfSome found (λ ply.
            legal self.old.position ply.played.mv ≡ Some ply.played.next)) }
        ensures position { IfOk result (λ found. IfSome found (λ ply.
            self.new.position ≡ ply.played.next)) }
    {
        let position = *self.position();
        let mut probes = Probes::new();
        match self.play(&mut probes) {
            Err(fault) => Err(fault),
            Ok(None) => Ok(None),
            Ok(Some(found)) => {
                let san = write_san(&position, &found.played, &mut probes);
                Ok(Some(Ply {
                    at: found.at,
                    played: found.played,
                    san,
                }))
            }
        }
    }

    /// Plays the next move of the text, and returns it without its SAN. `None` if no move is left.
    ///
    /// # Errors
    ///
    /// Those of [`LineOfPlay::next`].
    ///
    /// # Examples
    ///
    /// ```
    /// use chess_rules::Position;
    /// use chess_text::FenWriter;
    /// use pgn_game::{LineOfPlay, Notation};
    ///
    /// let mut line = LineOfPlay::new(Position::initial(), b"1. e4 e5", Notation::San);
    /// let mut fens = FenWriter::new();
    /// let first = line.next_move().unwrap().unwrap();
    /// let fen = b"rnbqkbnr/pppppppp/8/8/4P3/8/PPPP1PPP/RNBQKBNR b KQkq e3 0 1";
    /// assert_eq!(fens.write(&first.played.next).as_slice(), fen);
    /// assert_eq!(line.next_move().unwrap().unwrap().at, 6);
    /// assert!(line.next_move().unwrap().is_none());
    /// ```
    pub fn next_move(&mut self) -> Result<Option<MoveOfLine>, Fault>
        ensures next { NextMove self.old result self.new }
        ensures legal { IfOk result (λ found. IfSome found (λ x.
            legal self.old.position x.played.mv ≡ Some x.played.next)) }
        ensures position { IfOk result (λ found. IfSome found (λ x.
            self.new.position ≡ x.played.next)) }
    {
        self.play(&mut Probes::new())
    }

    // Plays the next move of the text, as `next_move` does, and counts the pairs that are tried.
    fn play(&mut self, probes: &mut Probes) -> Result<Option<MoveOfLine>, Fault>
        requires { probes.old + 8 < 2 ^ 32 }
        ensures next { NextMove self.old result self.new }
        ensures legal { IfOk result (λ found. IfSome found (λ x.
            legal self.old.position x.played.mv ≡ Some x.played.next)) }
        ensures position { IfOk result (λ found. IfSome found (λ x.
            self.new.position ≡ x.played.next)) }
        ensures bound { probes.new ≤ probes.old + 8 }
    {
        let Some(word) = next_move_text(self.text, self.at) else {
            return Ok(None);
        };
        let text = &self.text[word.begin..word.end];
        match read_move(&self.position, text, self.notation, probes) {
            Err(reason) => Err(Fault {
                at: word.begin as u64,
                reason,
            }),
            Ok(played) => {
                self.position = played.next;
                self.at = word.end;
                Ok(Some(MoveOfLine {
                    at: word.begin,
                    played,
                }))
            }
        }
    }
}

/// Where a word begins, and where it ends.
#[derive(Clone, Copy)]
pub struct Span {
    pub begin: usize,
    pub end: usize,
}

// The first word from a place on that is no move number.
fn next_move_text(text: &[u8], from: usize) -> Option<Span>
    requires { from ≤ length text.now }
    ensures { FindsFirst moves_from text.now from result }
{
    let mut at = from;
    while let Some(word) = next_word(text, at) {
        if !is_move_number(&text[word.begin..word.end]) {
            return Some(word);
        }
        at = word.end;
    }
    None
}

// The first word from a place on.
fn next_word(text: &[u8], from: usize) -> Option<Span>
    requires { from ≤ length text.now }
    ensures { FindsFirst words_from text.now from result }
{
    let begin = behind_space(text, from);
    if begin == text.len() {
        return None;
    }
    let end = word_end(text, begin);
    Some(Span { begin, end })
}

// Where the white space ends that begins at a place.
fn behind_space(text: &[u8], from: usize) -> usize
    requires { from ≤ length text.now }
    ensures { SpaceEnds text.now from result }
{
    let mut at = from;
    while at < text.len() && is_space(text[at]) {
        at += 1;
    }
    at
}

// Where the word ends that begins at a place.
fn word_end(text: &[u8], begin: usize) -> usize
    requires { WordBegins text.now begin }
    ensures { WordEnds text.now begin result }
{
    let mut end = begin + 1;
    while end < text.len() && !is_space(text[end]) {
        end += 1;
    }
    end
}

// Whether the byte is white space (PGN 4.1, 7).
fn is_space(byte: u8) -> bool
    ensures { result ≡ is_white_space byte }
{
    matches!(byte, b'\t'..=b'\r' | b' ')
}

// Whether the text is digits and periods alone (PGN 8.2.2).
fn is_move_number(text: &[u8]) -> bool
    ensures { result ≡ spec.is_move_number text.now }
{
    text.iter()
        .all(|byte| byte.is_ascii_digit() || *byte == b'.')
}

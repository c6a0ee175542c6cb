//! Writes what the tokens of a game mean.
ghost use Rattle.std.specs.Prelude.{◌≡◌, ◌+◌, ◌<◌, ◌≤◌, ◌^◌, [], None, Some, OnOk, codes, decimal, false, true, ◌++◌};
ghost use Rattle.chess_rules.specs.Legal.{legal};
ghost use Rattle.chess_text.specs.San.{disambiguation_pairs};
ghost use Rattle.pgn_layout.specs.Device.{WritesText, device};
ghost use Rattle.pgn_layout.specs.Lines.{IsToken};
ghost use Rattle.pgn_game.specs.declared.mode.Written.TheVariants.{Nothing};
ghost use Rattle.pgn_game.specs.public.MostTried.{CostsToWrite};
ghost use Rattle.pgn_game.specs.public.Written.{is_nothing, written_of_mode};
ghost use Rattle.pgn_game.specs.export.TagSection.{tag_section};
ghost use Rattle.pgn_game.specs.export.Text.{number_before, tokens_at};
ghost use Rattle.pgn_game.specs.games.Chess.{is_black_to_move};
ghost use Rattle.pgn_game.specs.games.Game as games;
ghost use Rattle.pgn_game.specs.games.Markers.{marker_text, missing_of};
ghost use Rattle.pgn_game.specs.games.Pairs.{has_pair};
ghost use Rattle.pgn_game.specs.games.Profile.{known_result};
ghost use Rattle.pgn_game.specs.steps.ItemResult.{ItemCall, PutsAnnotation, PutsMarker, PutsTokens};
ghost use Rattle.pgn_game.specs.steps.GameState.{announced_result, expected_by};

use crate::marker::{Marker, MissingResult, PlacedMarker};
use crate::mode::{Mode, Written};
use crate::number::{put_glyph, put_move_number};
use crate::ordered::OrderedPairs;
use crate::section::write_section;
use chess_rules::{Colour, Move, Position, Probes};
use chess_text::write_san_of;
use pgn_layout::{CurrentLine, Sink, WriteFault};

/// What is written of the games, the line that is not full yet, and what its next token depends on.
#[derive(Drop)]
pub struct Writer {
    pub line: CurrentLine,
    pub written: Written,
    // The marker that a game has to end with from now on, if it was announced.
    pub announced: Option<PlacedMarker>,
    // Whether a move was written last.
    pub is_after_move: bool,
}

impl Writer {
    /// Returns a writer that has written nothing.
    pub fn new(mode: Mode) -> Self
        ensures { result ≡ record {
          line = [];
          written = written_of_mode mode;
          announced = None;
          is_after_move = false;
        } }
    {
        Writer {
            line: CurrentLine::new(),
            written: Written::by(mode),
            announced: None,
            is_after_move: false,
        }
    }

    /// From now on nothing is written.
    pub fn write_nothing(&mut self)
        ensures { self.new ≡ record self.old { written = Nothing } }
    {
        self.written = Written::Nothing;
    }

    /// Announces the marker that a game has to end with from now on. A missing Result that takes it
    /// is written so, where it would be written as nothing.
    pub fn announce_marker(&mut self, marker: PlacedMarker)
        ensures { self.new ≡ record self.old { announced = Some marker } }
    {
        self.announced = Some(marker);
    }

    /// Writes the tag section, with which a game begins. `has_fen` says whether a FEN is among the
    /// pairs.
    ///
    /// # Errors
    ///
    /// `WriteFault` if a write failed, here and below. A prefix of the text was written.
    pub fn put_section<W: Sink>(
        &mut self,
        mode: Mode,
        missing_result: MissingResult,
        pairs: &OrderedPairs<'_>,
        has_fen: bool,
        out: &mut W,
    ) -> Result<(), WriteFault>
        requires { has_fen ≡ has_pair pairs.now (codes "FEN") }
        ensures section { ItemCall self.old.written W.taken W.failures out.old out.new
            (λ by d. WritesText d result (tag_section mode (announced_result
            (missing_of missing_result) self.old.announced) pairs.now)) }
        ensures writer { self.new ≡ record self.old { is_after_move = false } }
    {
        self.is_after_move = false;
        if let Written::Nothing = self.written {
            return Ok(());
        }
        write_section(mode, self.known(missing_result), pairs, has_fen, out)
    }

    // What is known of a missing Result before the marker.
    #[inline(always)]
    fn known(&self, missing_result: MissingResult) -> MissingResult
        ensures { known_result (missing_of result) ≡ announced_result (missing_of missing_result)
            self.now.announced }
    {
        match (missing_result, self.announced) {
            (MissingResult::TakesTheMarker, Some(announced)) => {
                MissingResult::CountsAs(announced.marker)
            }
            (missing, _) => missing,
        }
    }

    /// Returns the marker that the game has to end with, if it was announced to a writer that
    /// writes it for a missing Result.
    #[inline(always)]
    pub fn expected(&self, missing_result: MissingResult) -> Option<PlacedMarker>
        ensures { result ≡ expected_by (is_nothing self.now.written) (missing_of missing_result)
            self.now.announced }
    {
        match (self.written, missing_result) {
            (Written::Nothing, _) => None,
            (_, MissingResult::TakesTheMarker) => self.announced,
            _ => None,
        }
    }

    /// Writes a NAG. Reduced mode leaves it out (PGN 3.2.4).
    #[inline(always)]
    pub fn put_glyph<W: Sink>(&mut self, glyph: u8, out: &mut W) -> Result<(), WriteFault>
        ensures { ItemCall self.old.written W.taken W.failures out.old out.new (λ mode.
            PutsAnnotation mode (codes "$" ++ decimal glyph) self.old self.new result) }
    {
        if self.written != Written::Full {
            return Ok(());
        }
        self.is_after_move = false;
        put_glyph(glyph, &mut self.line, out)
    }

    /// Writes the token of another annotation. Reduced mode leaves it out (PGN 3.2.4).
    #[inline(always)]
    pub fn put_token<W: Sink>(&mut self, token: &[u8], out: &mut W) -> Result<(), WriteFault>
        requires { IsToken token.now }
        ensures { ItemCall self.old.written W.taken W.failures out.old out.new
            (λ mode. PutsAnnotation mode token.now self.old self.new result) }
    {
        if self.written != Written::Full {
            return Ok(());
        }
        self.is_after_move = false;
        self.line.put(token, out)
    }

    /// Writes a legal move, which leads from one position to the next: its number, if it needs one,
    /// and its text. `probes` has the pairs that were tried to find it.
    #[inline(always)]
    pub fn put_move<W: Sink>(
        &mut self,
        mv: &Move,
        before: &Position,
        next: &Position,
        probes: &mut Probes,
        out: &mut W,
    ) -> Result<(), WriteFault>
        requires legal { legal before.now mv.now ≡ Some next.now }
        requires found { disambiguation_pairs before.now mv.now ≤ probes.old }
        requires room { probes.old + 1032 < 2 ^ 32 }
        ensures puts { PutsTokens (tokens_at self.old.is_after_move before.now (games.move mv.now))
            self.old.line self.new.line result (device W.taken W.failures out.old out.new) }
        ensures writer { self.new
            ≡ record self.old { line = self.new.line; is_after_move = self.new.is_after_move } }
        ensures after { OnOk result (self.new.is_after_move ≡ true) }
        ensures tried { CostsToWrite true before.now (games.move mv.now) probes.old probes.new }
        ensures rises { (probes.old ≤ probes.new) × (probes.new ≤ probes.old + 1032) }
    {
        let san = write_san_of(before, mv, next, true, probes);
        self.put_number(before, out)?;
        self.is_after_move = true;
        self.line.put(san.as_slice(), out)
    }

    // Writes the number of the move from this position, if it needs one (PGN 8.2.2.2).
    #[inline(always)]
    fn put_number<W: Sink>(&mut self, before: &Position, out: &mut W) -> Result<(), WriteFault>
        ensures puts { PutsTokens (number_before self.old.is_after_move
            (is_black_to_move before.now) before.now.full) self.old.line self.new.line result
            (device W.taken W.failures out.old out.new) }
        ensures writer { self.new ≡ record self.old { line = self.new.line } }
    {
        match before.side() {
            Colour::White => put_move_number(before.full(), b".", &mut self.line, out),
            Colour::Black => {
                if self.is_after_move {
                    return Ok(());
                }
                put_move_number(before.full(), b"...", &mut self.line, out)
            }
        }
    }

    /// Writes the marker, and ends the game.
    pub fn put_marker<W: Sink>(&mut self, marker: Marker, out: &mut W) -> Result<(), WriteFault>
        ensures { ItemCall self.old.written W.taken W.failures out.old out.new
            (λ mode. PutsMarker mode (marker_text marker) self.old self.new result) }
    {
        if let Written::Nothing = self.written {
            return Ok(());
        }
        self.line.put(marker.text(), out)?;
        self.line.end_game(out)
    }
}

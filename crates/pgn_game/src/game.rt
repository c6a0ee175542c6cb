//! The current game: each token is judged, and then written.
ghost use Rattle.std.specs.Prelude.{◌≡◌, ◌&&◌, ◌+◌, ◌-◌, ◌<◌, ◌≤◌, ◌^◌, ◌↔◌, None, false, codes, decimal, IsTrue, length, ◌++◌};
ghost use Rattle.std.specs.Option.{option_copied};
ghost use Rattle.pgn_layout.specs.Device.{WritesText, device};
ghost use Rattle.pgn_lexer.specs.Tokens.{HasLength};
ghost use Rattle.pgn_lexer.specs.Scanned.{kind_of};
ghost use Rattle.pgn_game.specs.declared.stage.Stage.TheVariants.{Between, InMovetext};
ghost use Rattle.pgn_game.specs.export.TagSection.{exported, tag_section};
ghost use Rattle.pgn_game.specs.games.FaultTable.{result_for};
ghost use Rattle.pgn_game.specs.games.Markers.{marker_text, missing_of};
ghost use Rattle.pgn_game.specs.games.Pairs.{value_of};
ghost use Rattle.pgn_game.specs.public.MostTried.{is_written};
ghost use Rattle.pgn_game.specs.public.Written.{mode_of_written};
ghost use Rattle.chess_rules.specs.declared.position.Move.{Move as MoveSeen};
ghost use Rattle.pgn_game.specs.games.Game as games;
ghost use Rattle.pgn_game.specs.steps.ItemResult.{ItemCall};
ghost use Rattle.pgn_layout.specs.Lines.{IsToken};
ghost use Rattle.pgn_game.specs.declared.event.Event.TheVariants as events;
ghost use Rattle.pgn_game.specs.steps.Judged.{IsAnnotation, IsFound, IsPlayed, TakesMeant, WritesMove, after_move_at, game_by, section_unless};
ghost use Rattle.pgn_game.specs.steps.TokenTaken.{BeginsText, FinishesAtPlace, TakesEntryPlaced, TakesMarker, TakesPlaced};
ghost use Rattle.pgn_game.specs.steps.GameState.{GameCall, expected_of, is_unexpected, known_of, plies_of_finished_games, silenced, unread, with_announced};
ghost use Rattle.pgn_game.specs.steps.TokenInMovetext.{MayTakeMove, has_whole_pairs, may_have_movetext};

use crate::event::Event;
use crate::marker::{Marker, MissingResult, PlacedMarker};
use crate::mode::{Mode, Written};
use crate::reader::Reader;
use crate::reason::Reason;
use crate::section::write_section;
use crate::writer::Writer;
use chess_rules::{Move, Position, Probes};
use pgn_layout::{Sink, WriteFault};
use pgn_lexer::TokenKind;
use std::marker::Model;

/// The callers of `take`: the loop of movetext, the step that takes one token whole, and
/// `take_copied`. The compiler makes a copy of the code for each, and all do the same.
const MOVETEXT: u8 = 0;

pub const WHOLE: u8 = 1;

const COPIED: u8 = 2;

/// The current game of a converter: its reader and its writer.
#[derive(Drop)]
pub struct Game<const T: usize, const L: usize> {
    reader: Reader<T, L>,
    writer: Writer,
}

impl<const T: usize, const L: usize> Model for Game<T, L> {
    ghost use Rattle.std.specs.Prelude.{◌≡◌};
    ghost use Rattle.pgn_game.specs.public.Written.{is_nothing, mode_of_written, mode_unless};
    ghost use Rattle.pgn_game.specs.steps.Judged.{game_by};
    ghost use Rattle.pgn_game.specs.steps.GameState.{GameState};

    ghost Value = { GameState };

    ghost view = { λ g. game_by g.writer g.reader };

    ghost invariant = { λ g. mode_of_written g.writer.written
        ≡ mode_unless (is_nothing g.writer.written) g.reader.profile.mode };
}

impl<const T: usize, const L: usize> Game<T, L> {
    /// Returns a game of which no token was read.
    pub fn new(mode: Mode) -> Self
        requires { 1 ≤ L }
        ensures { result ≡ unread T L mode }
    {
        Game {
            reader: Reader::new(mode),
            writer: Writer::new(mode),
        }
    }

    /// Returns the value of a name in the tag section of the game just finished, defaults included.
    pub fn value(&self, name: &[u8]) -> Option<&[u8]>
        requires { self.now.stage ≡ Between }
        ensures { option_copied result
            ≡ value_of (exported self.now.profile.mode
            (result_for self.now.profile.missing_result self.now.marker) self.now.tags.held)
            name.now }
    {
        self.reader.value(name)
    }

    /// Writes the tag section of the game just finished.
    ///
    /// # Errors
    ///
    /// `WriteFault` if a write failed. A prefix of the section was written.
    pub fn write_section<W: Sink>(&self, out: &mut W) -> Result<(), WriteFault>
        requires { self.now.stage ≡ Between }
        ensures { WritesText (device W.taken W.failures out.old out.new) result
            (tag_section self.now.profile.mode
            (result_for self.now.profile.missing_result self.now.marker) self.now.tags.held) }
    {
        let reader = &self.reader;
        write_section(
            reader.mode(),
            reader.shown_result(),
            &reader.pairs(),
            reader.has_fen(),
            out,
        )
    }

    /// Returns the marker of the game just finished.
    pub fn marker(&self) -> Marker
        ensures { marker_text result ≡ self.now.marker }
    {
        self.reader.marker()
    }

    /// Returns the marker of the game just finished, and its place.
    pub fn placed_marker(&self) -> PlacedMarker
        ensures marker { marker_text result.marker ≡ self.now.marker }
        ensures place { result.at ≡ self.now.marker_at }
    {
        PlacedMarker {
            marker: self.reader.marker(),
            at: self.reader.marker_at(),
        }
    }

    /// Returns the number of moves outside variations that the game has so far, or had.
    pub fn plies(&self) -> u64
        ensures { result ≡ self.now.text.plies }
    {
        self.reader.plies()
    }

    /// Returns the number of moves outside variations of all games finished so far.
    pub fn plies_of_finished_games(&self) -> u64
        requires { self.now.earlier_plies + self.now.text.plies < 2 ^ 64 }
        ensures { result ≡ plies_of_finished_games self.now }
    {
        self.reader.plies_of_finished_games()
    }

    /// Returns the position after the moves so far.
    pub fn position(&self) -> &Position
        ensures { result.now ≡ self.now.text.levels.current.position }
    {
        self.reader.position()
    }

    /// Returns the most pairs that were tried for one move so far.
    ///
    /// If nothing is written, these are the pairs tried to find it.
    pub fn most_probes(&self) -> u32
        ensures value { result ≡ self.now.most_probes }
        ensures bound { result ≤ 1040 }
    {
        self.reader.most_probes()
    }

    /// Whether no game is begun.
    pub fn is_between(&self) -> bool
        ensures { IsTrue result ↔ (self.now.stage ≡ Between) }
    {
        self.reader.is_between()
    }

    /// Whether movetext has begun.
    #[inline(always)]
    pub fn is_in_movetext(&self) -> bool
        ensures { IsTrue result ↔ (self.now.stage ≡ InMovetext) }
    {
        self.reader.is_in_movetext()
    }

    /// From now on a missing Result counts as this.
    pub fn count_missing_result_as(&mut self, missing: MissingResult)
        ensures { self.new ≡ record self.old {
          profile = record self.old.profile { missing_result = missing_of missing };
        } }
    {
        self.reader.count_missing_result_as(missing);
    }

    /// From now on nothing is written.
    pub fn write_nothing(&mut self)
        ensures { self.new ≡ silenced self.old }
    {
        self.writer.write_nothing();
    }

    /// Announces the marker that the next game has to end with: `Writer::announce_marker`.
    pub fn announce_marker(&mut self, marker: PlacedMarker)
        ensures { self.new ≡ with_announced marker self.old }
    {
        self.writer.announce_marker(marker);
    }

    /// Takes the token at this place: judges it, and writes what it adds to the text of its game.
    /// Returns whether it finished the game.
    ///
    /// # Errors
    ///
    /// The row of the fault table that rejects the token, or `Reason::WriteFault` if a write
    /// failed. `Reason::ResultDiffers` if the token is another marker than was announced. Do not
    /// call this again after an error.
    #[inline(always)]
    pub fn take_token<W: Sink, const CALLER: u8>(
        &mut self,
        kind: TokenKind<'_>,
        at: u64,
        out: &mut W,
    ) -> Result<bool, Reason>
        requires few { self.old.earlier_plies + self.old.text.plies < 2 ^ 64 - 1 }
        requires token { HasLength (kind_of kind) }
        ensures { GameCall W.taken W.failures self.old self.new out.old out.new
            (TakesPlaced self.old (kind_of kind.entry) at self.new result) }
    {
        match self.reader.accept_outside(kind) {
            Some(result) => {
                result?;
                Ok(false)
            }
            None => self.take::<W, CALLER>(false, kind, at, out),
        }
    }

    /// Takes a token of movetext as `take_token` does, where movetext has begun.
    ///
    /// # Errors
    ///
    /// As `take_token`.
    #[inline(always)]
    pub fn take_entry<W: Sink>(
        &mut self,
        kind: TokenKind<'_>,
        at: u64,
        out: &mut W,
    ) -> Result<bool, Reason>
        requires few { self.old.earlier_plies + self.old.text.plies < 2 ^ 64 - 1 }
        requires stage { self.old.stage ≡ InMovetext }
        requires token { HasLength (kind_of kind) }
        ensures { GameCall W.taken W.failures self.old self.new out.old out.new
            (TakesPlaced self.old (kind_of kind.entry) at self.new result) }
    {
        self.take::<W, MOVETEXT>(true, kind, at, out)
    }

    /// Takes a token as `take_token` does, and is not inlined. Few tokens come here: those that lie
    /// in no piece as a whole, and those that the end of the text ends.
    ///
    /// # Errors
    ///
    /// As `take_token`.
    #[inline(never)]
    pub fn take_copied<W: Sink>(
        &mut self,
        kind: TokenKind<'_>,
        at: u64,
        out: &mut W,
    ) -> Result<bool, Reason>
        requires few { self.old.earlier_plies + self.old.text.plies < 2 ^ 64 - 1 }
        requires token { HasLength (kind_of kind) }
        ensures { GameCall W.taken W.failures self.old self.new out.old out.new
            (TakesPlaced self.old (kind_of kind.entry) at self.new result) }
    {
        self.take_token::<W, COPIED>(kind, at, out)
    }

    // Takes a token of movetext, or the first one. Each event is written where it is met: so no
    // event is made in memory.
    #[inline(always)]
    fn take<W: Sink, const CALLER: u8>(
        &mut self,
        begun: bool,
        kind: TokenKind<'_>,
        at: u64,
        out: &mut W,
    ) -> Result<bool, Reason>
        requires may { MayTakeMove self.old }
        requires begun { IsTrue begun → self.old.stage ≡ InMovetext }
        requires token { HasLength (kind_of kind) }
        ensures { GameCall W.taken W.failures self.old self.new out.old out.new
            (TakesEntryPlaced self.old (kind_of kind.entry) at self.new result) }
    {
        match self.reader.accept_entry(kind) {
            Err(reason) => Err(reason),
            Ok(Event::Marker(marker)) => self.end_game_at(marker, at, out),
            Ok(Event::Number) => take_number(begun, &mut self.reader, &mut self.writer, out),
            Ok(Event::Move(mv, probes)) => take_move(
                begun,
                mv,
                probes,
                &mut self.reader,
                &mut self.writer,
                out,
            ),
            Ok(Event::Glyph(glyph)) => take_glyph(
                begun,
                glyph,
                &mut self.reader,
                &mut self.writer,
                out,
            ),
            Ok(Event::CommentOpen) => take_annotation(
                begun,
                b"{",
                &mut self.reader,
                &mut self.writer,
                out,
            ),
            Ok(Event::Word(word)) => take_annotation(
                begun,
                word,
                &mut self.reader,
                &mut self.writer,
                out,
            ),
            Ok(Event::CommentClose) => take_annotation(
                begun,
                b"}",
                &mut self.reader,
                &mut self.writer,
                out,
            ),
            Ok(Event::Open) => take_annotation(
                begun,
                b"(",
                &mut self.reader,
                &mut self.writer,
                out,
            ),
            Ok(Event::Close) => take_annotation(
                begun,
                b")",
                &mut self.reader,
                &mut self.writer,
                out,
            ),
        }
    }

    // Ends the game with its marker at this place, and returns `true`, unless another one was
    // announced.
    #[inline(always)]
    fn end_game_at<W: Sink>(&mut self, marker: Marker, at: u64, out: &mut W) -> Result<bool, Reason>
        requires { IsTrue (may_have_movetext self.old.stage) }
        ensures { GameCall W.taken W.failures self.old self.new out.old out.new
            (FinishesAtPlace self.old marker at self.new result) }
    {
        if self.is_unexpected(marker, at) {
            return Err(Reason::ResultDiffers);
        }
        self.end_game(marker, out)?;
        self.reader.place_marker(at);
        Ok(true)
    }

    // Whether the game has to end with another marker, or with this one at another place.
    fn is_unexpected(&self, marker: Marker, at: u64) -> bool
        ensures { result ≡ is_unexpected (expected_of self.now) (marker_text marker) at }
    {
        match self.writer.expected(self.reader.missing_result()) {
            Some(expected) => marker != expected.marker || at != expected.at,
            None => false,
        }
    }

    /// Ends the game with its marker (PGN 8.2.6).
    #[inline(always)]
    fn end_game<W: Sink>(&mut self, marker: Marker, out: &mut W) -> Result<(), Reason>
        requires { IsTrue (may_have_movetext self.old.stage) }
        ensures { GameCall W.taken W.failures self.old self.new out.old out.new
            (TakesMarker self.old marker self.new result) }
    {
        let begun = self.reader.is_in_movetext();
        self.reader.end_game(marker)?;
        complete_section(begun, &self.reader, &mut self.writer, out)?;
        self.writer.put_marker(marker, out)?;
        Ok(())
    }
}

// Takes a move number or a period, which add nothing but the tag section (PGN 8.2.2.1). This and
// the next three return that the game goes on.
#[inline(always)]
fn take_number<const T: usize, const L: usize, W: Sink>(
    begun: bool,
    reader: &mut Reader<T, L>,
    writer: &mut Writer,
    out: &mut W,
) -> Result<bool, Reason>
    requires stage { IsTrue (may_have_movetext reader.old.stage) }
    requires begun { IsTrue begun → reader.old.stage ≡ InMovetext }
    ensures { TakesMeant W.taken W.failures reader.old reader.new writer.old writer.new out.old
        out.new result (λ e. e ≡ events.Number) }
{
    ensure_section(begun, reader, writer, out)?;
    Ok(false)
}

// Takes a move that was judged.
#[inline(always)]
fn take_move<const T: usize, const L: usize, W: Sink>(
    begun: bool,
    mv: Move,
    probes: Probes,
    reader: &mut Reader<T, L>,
    writer: &mut Writer,
    out: &mut W,
) -> Result<bool, Reason>
    requires stage { IsTrue (may_have_movetext reader.old.stage) }
    requires begun { IsTrue begun → reader.old.stage ≡ InMovetext }
    requires played { IsPlayed reader.old mv }
    requires found { IsFound reader.old mv probes }
    requires few { probes ≤ 8 }
    ensures { TakesMeant W.taken W.failures reader.old reader.new writer.old writer.new out.old
        out.new result (λ e. e ≡ events.Move mv probes) }
{
    ensure_section(begun, reader, writer, out)?;
    write_move(&mv, probes, reader, writer, out)?;
    Ok(false)
}

// Takes a NAG that was judged.
#[inline(always)]
fn take_glyph<const T: usize, const L: usize, W: Sink>(
    begun: bool,
    glyph: u8,
    reader: &mut Reader<T, L>,
    writer: &mut Writer,
    out: &mut W,
) -> Result<bool, Reason>
    requires stage { IsTrue (may_have_movetext reader.old.stage) }
    requires begun { IsTrue begun → reader.old.stage ≡ InMovetext }
    ensures { TakesMeant W.taken W.failures reader.old reader.new writer.old writer.new out.old
        out.new result (IsAnnotation (codes "$" ++ decimal glyph)) }
{
    ensure_section(begun, reader, writer, out)?;
    writer.put_glyph(glyph, out)?;
    Ok(false)
}

// Takes another annotation that was judged, which is written as this token.
#[inline(always)]
fn take_annotation<const T: usize, const L: usize, W: Sink>(
    begun: bool,
    token: &[u8],
    reader: &mut Reader<T, L>,
    writer: &mut Writer,
    out: &mut W,
) -> Result<bool, Reason>
    requires stage { IsTrue (may_have_movetext reader.old.stage) }
    requires begun { IsTrue begun → reader.old.stage ≡ InMovetext }
    requires token { IsToken token.now }
    ensures { TakesMeant W.taken W.failures reader.old reader.new writer.old writer.new out.old
        out.new result (IsAnnotation token.now) }
{
    ensure_section(begun, reader, writer, out)?;
    writer.put_token(token, out)?;
    Ok(false)
}

// Writes the tag section, unless movetext has begun. A silent writer writes none.
#[inline(always)]
fn ensure_section<const T: usize, const L: usize, W: Sink>(
    begun: bool,
    reader: &mut Reader<T, L>,
    writer: &mut Writer,
    out: &mut W,
) -> Result<(), WriteFault>
    requires stage { IsTrue (may_have_movetext reader.old.stage) }
    requires begun { IsTrue begun → reader.old.stage ≡ InMovetext }
    ensures section { GameCall W.taken W.failures (game_by writer.old reader.old)
        (game_by writer.new reader.new) out.old out.new
        (BeginsText (game_by writer.old reader.old) (game_by writer.new reader.new) result) }
    ensures reader { reader.new ≡ record reader.old { stage = InMovetext } }
    ensures writer { writer.new ≡ record writer.old {
      is_after_move = after_move_at reader.old.stage writer.old.is_after_move;
    } }
{
    if begun || reader.is_in_movetext() {
        return Ok(());
    }
    let written = write_tag_section(reader, writer, out);
    reader.begin_movetext();
    written
}

// Writes the tag section, unless movetext has begun before the marker.
#[inline(always)]
fn complete_section<const T: usize, const L: usize, W: Sink>(
    begun: bool,
    reader: &Reader<T, L>,
    writer: &mut Writer,
    out: &mut W,
) -> Result<(), WriteFault>
    requires { IsTrue (has_whole_pairs reader.now.stage) }
    ensures section { ItemCall writer.old.written W.taken W.failures out.old out.new
        (λ by d. WritesText d result (section_unless begun (tag_section reader.now.profile.mode
        (known_of (game_by writer.old reader.now)) reader.now.tags.held))) }
    ensures writer { writer.new
        ≡ record writer.old { is_after_move = begun && writer.old.is_after_move } }
{
    if begun {
        return Ok(());
    }
    write_tag_section(reader, writer, out)
}

// Writes the tag section. It is not inlined: a game has one.
#[inline(never)]
fn write_tag_section<const T: usize, const L: usize, W: Sink>(
    reader: &Reader<T, L>,
    writer: &mut Writer,
    out: &mut W,
) -> Result<(), WriteFault>
    requires { IsTrue (has_whole_pairs reader.now.stage) }
    ensures section { ItemCall writer.old.written W.taken W.failures out.old out.new
        (λ by d. WritesText d result (tag_section reader.now.profile.mode
        (known_of (game_by writer.old reader.now)) reader.now.tags.held)) }
    ensures writer { writer.new ≡ record writer.old { is_after_move = false } }
{
    writer.put_section(
        reader.mode(),
        reader.missing_result(),
        &reader.pairs(),
        reader.has_fen(),
        out,
    )
}

// Writes the move just played, unless it is left out, and counts the pairs that were tried for it.
#[inline(always)]
fn write_move<const T: usize, const L: usize, W: Sink>(
    mv: &Move,
    probes: Probes,
    reader: &mut Reader<T, L>,
    writer: &mut Writer,
    out: &mut W,
) -> Result<(), WriteFault>
    requires played { IsPlayed reader.old mv.now }
    requires found { IsFound reader.old mv.now probes }
    requires few { probes ≤ 8 }
    ensures { WritesMove W.taken W.failures mv.now probes reader.old reader.new writer.old
        writer.new out.old out.new result }
{
    if !writes_move(reader, writer) {
        return Ok(());
    }
    let mut probes = probes;
    let put = writer.put_move(
        mv,
        reader.position_before(),
        reader.position(),
        &mut probes,
        out,
    );
    reader.count_probes(&probes);
    put
}

// Whether a move is written here: reduced mode writes it only outside variations.
#[inline(always)]
fn writes_move<const T: usize, const L: usize>(reader: &Reader<T, L>, writer: &Writer) -> bool
    ensures { (m : MoveSeen) → result ≡ is_written (mode_of_written writer.now.written)
        (length reader.now.text.levels.around) (games.move m) }
{
    match writer.written {
        Written::Full => true,
        Written::Reduced => reader.depth() == 0,
        Written::Nothing => false,
    }
}

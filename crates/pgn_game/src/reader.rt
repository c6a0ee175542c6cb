//! Reads games token by token, stage by stage.
ghost use Rattle.std.specs.Prelude.{◌≡◌, ◌+◌, ◌-◌, ◌≤◌, ◌<◌, ◌^◌, ◌&&◌, ◌||◌, [], false, not};
ghost use Rattle.std.specs.Prelude.{None, Some, IsSome, IsTrue, option_map, ◌↔◌, bytes_eq, codes, max};
ghost use Rattle.std.specs.Option.{option_copied};
ghost use Rattle.pgn_lexer.specs.Tokens.{HasLength, left_paren, right_paren, symbol};
ghost use Rattle.pgn_lexer.specs.Scanned.{kind_of};
ghost use Rattle.pgn_game.specs.games.Pairs.{has_pair, value_of};
ghost use Rattle.pgn_game.specs.export.TagSection.{exported};
ghost use Rattle.pgn_game.specs.declared.stage.Stage.TheVariants.{Between, AfterLeftBracket, AfterName};
ghost use Rattle.pgn_game.specs.declared.stage.Stage.TheVariants.{AfterValue, AfterTags, InMovetext};
ghost use Rattle.pgn_game.specs.games.Profile.{known_result};
ghost use Rattle.pgn_game.specs.games.Markers.{marker_text, missing_of};
ghost use Rattle.pgn_game.specs.declared.writer.Writer.{Writer};
ghost use Rattle.pgn_game.specs.steps.Accepted.{Accepts, AcceptsEntry};
ghost use Rattle.pgn_game.specs.steps.Judged.{game_at, Judges, JudgesBefore, JudgesInPair, JudgesMarker, JudgesOutside};
ghost use Rattle.pgn_game.specs.steps.Movetext.{IsDepth};
ghost use Rattle.pgn_game.specs.steps.GameState.{plies_of_finished_games, restarted, unread};
ghost use Rattle.pgn_game.specs.steps.TokenInMovetext.{MayTakeMove, has_whole_pairs, may_have_movetext};
ghost use Rattle.pgn_game.specs.steps.TokenInMovetext.{fen_position as position_in_fen};
ghost use Rattle.pgn_game.specs.steps.TokenTaken.{CountsMove, Finds, at_game_start, continued};
ghost use Rattle.pgn_game.specs.games.FaultTable as spec;
ghost use Rattle.pgn_game.specs.games.FaultTable.{is_reduced, result_for};

use crate::event::Event;
use crate::find::named_move;
use crate::levels::Levels;
use crate::marker::{Marker, MissingResult};
use crate::mode::Mode;
use crate::ordered::OrderedPairs;
use crate::pair::NAME_OR_VALUE_LENGTH;
use crate::reason::Reason;
use crate::section::exported_value;
use crate::stage::Stage;
use crate::tags::TagPairs;
use crate::token_tests::{
    is_comment, is_end, is_number, is_result, is_score_or_number, is_tag_name,
    may_be_score_or_number,
};
use chess_rules::{Move, Position, Probes};
use chess_text::read_fen;
use pgn_layout::fits_tag_line;
use pgn_lexer::TokenKind;
use std::marker::Model;

/// What was read of the current game: at most `T` tag pairs, and at most `L` levels of movetext.
#[derive(Drop)]
pub struct Reader<const T: usize, const L: usize> {
    // The large fields come first: with a gap of small ones before them, the toolchain makes them
    // somewhere else, and copies them into their place.
    tags: TagPairs<T>,
    levels: Levels<L>,
    earlier_plies: u64,
    most_probes: u32,
    mode: Mode,
    missing_result: MissingResult,
    marker: Marker,
    marker_at: u64,
    stage: Stage,
}

impl<const T: usize, const L: usize> Model for Reader<T, L> {
    ghost use Rattle.std.specs.Prelude.{◌-◌, ◌≤◌, [], None, false};
    ghost use Rattle.pgn_game.specs.games.Markers.{marker_text, missing_of};
    ghost use Rattle.pgn_game.specs.steps.GameState.{GameState, AreSound};

    ghost Value = { GameState };

    ghost view = { λ r. record {
      profile = record {
        tags = T;
        depth = L - 1;
        mode = r.mode;
        missing_result = missing_of r.missing_result;
      };
      writing = record { announced = None; is_silent = false };
      stage = r.stage;
      tags = r.tags;
      text = r.levels;
      earlier_plies = r.earlier_plies;
      most_probes = r.most_probes;
      line = [];
      marker = marker_text r.marker;
      marker_at = r.marker_at;
    } };

    ghost invariant = { λ r. AreSound T r.stage r.tags × (r.most_probes ≤ 1040) };
}

impl<const T: usize, const L: usize> Reader<T, L> {
    /// Returns a reader that has read no token.
    pub fn new(mode: Mode) -> Self
        requires { 1 ≤ L }
        ensures { result ≡ unread T L mode }
    {
        Reader {
            mode,
            missing_result: MissingResult::CountsAs(Marker::Unknown),
            marker: Marker::Unknown,
            marker_at: 0,
            stage: Stage::Between,
            tags: TagPairs::new(),
            levels: Levels::new(),
            earlier_plies: 0,
            most_probes: 0,
        }
    }

    /// Returns the value of a name in the tag section of the game just finished, defaults included.
    pub fn value(&self, name: &[u8]) -> Option<&[u8]>
        requires { self.now.stage ≡ Between }
        ensures { option_copied result
            ≡ value_of (exported self.now.profile.mode
            (result_for self.now.profile.missing_result self.now.marker) self.now.tags.held)
            name.now }
    {
        exported_value(
            self.mode,
            self.shown_result(),
            &self.tags.pairs(),
            self.has_fen(),
            name,
        )
    }

    /// Returns the value of a name in the tag section of the current game, defaults included, if a
    /// missing Result is this.
    pub fn value_with(&self, missing_result: MissingResult, name: &[u8]) -> Option<&[u8]>
        requires { IsTrue (has_whole_pairs self.now.stage) }
        ensures { option_copied result
            ≡ value_of (exported self.now.profile.mode
            (known_result (missing_of missing_result)) self.now.tags.held) name.now }
    {
        exported_value(
            self.mode,
            missing_result,
            &self.tags.pairs(),
            self.has_fen(),
            name,
        )
    }

    /// Returns the tag pairs of the current game, or of the game just finished, in the order of
    /// their names.
    pub fn pairs(&self) -> OrderedPairs<'_>
        requires { IsTrue (has_whole_pairs self.now.stage) }
        ensures { result ≡ self.now.tags.held }
    {
        self.tags.pairs()
    }

    /// Whether a FEN is among them.
    pub fn has_fen(&self) -> bool
        ensures { result ≡ has_pair self.now.tags.held (codes "FEN") }
    {
        self.tags.has_fen()
    }

    /// Returns which parts of a game are written.
    pub fn mode(&self) -> Mode
        ensures { result ≡ self.now.profile.mode }
    {
        self.mode
    }

    /// Returns what a missing Result counts as.
    pub fn missing_result(&self) -> MissingResult
        ensures { missing_of result ≡ self.now.profile.missing_result }
    {
        self.missing_result
    }

    /// Returns what a missing Result is in the game just finished.
    pub fn shown_result(&self) -> MissingResult
        ensures { known_result (missing_of result)
            ≡ result_for self.now.profile.missing_result self.now.marker }
    {
        self.missing_result.with_marker(self.marker)
    }

    /// Returns the marker of the game just finished.
    pub fn marker(&self) -> Marker
        ensures { marker_text result ≡ self.now.marker }
    {
        self.marker
    }

    /// Returns the number of moves outside variations that the game has so far, or had.
    pub fn plies(&self) -> u64
        ensures { result ≡ self.now.text.plies }
    {
        self.levels.plies()
    }

    /// Returns the number of moves outside variations of all games finished so far.
    pub fn plies_of_finished_games(&self) -> u64
        requires { self.now.earlier_plies + self.now.text.plies < 2 ^ 64 }
        ensures { result ≡ plies_of_finished_games self.now }
    {
        if self.is_between() {
            return self.earlier_plies + self.levels.plies();
        }
        self.earlier_plies
    }

    /// Returns the position after the moves so far.
    pub fn position(&self) -> &Position
        ensures { result.now ≡ self.now.text.levels.current.position }
    {
        self.levels.position()
    }

    /// Returns the most probes for one move so far.
    ///
    /// If nothing is written, these are the probes that find it.
    pub fn most_probes(&self) -> u32
        ensures value { result ≡ self.now.most_probes }
        ensures bound { result ≤ 1040 }
    {
        self.most_probes
    }

    /// Whether no game is begun.
    pub fn is_between(&self) -> bool
        ensures { IsTrue result ↔ (self.now.stage ≡ Between) }
    {
        self.stage == Stage::Between
    }

    /// From now on a missing Result counts as this.
    pub fn count_missing_result_as(&mut self, missing: MissingResult)
        ensures { self.new ≡ record self.old {
          profile = record self.old.profile { missing_result = missing_of missing };
        } }
    {
        self.missing_result = missing;
    }

    /// Forgets the current game and those before it. It keeps what a missing Result counts
    /// as.
    pub fn restart(&mut self)
        ensures { self.new ≡ restarted self.old }
    {
        self.tags.clear();
        self.levels.begin(Position::initial());
        self.earlier_plies = 0;
        self.most_probes = 0;
        let between = Stage::Between;
        self.stage = between;
    }

    /// Takes a token outside movetext. `None` if it belongs to movetext, which begins or goes on.
    #[inline(always)]
    pub fn accept_outside(&mut self, kind: TokenKind<'_>) -> Option<Result<(), Reason>>
        requires { self.old.earlier_plies + self.old.text.plies < 2 ^ 64 - 1 }
        ensures { JudgesOutside self.old (kind_of kind.entry) self.new
            (option_map continued result) }
    {
        match self.stage {
            Stage::InMovetext => None,
            Stage::AfterLeftBracket => Some(self.accept_name(kind)),
            Stage::AfterName => Some(self.accept_value(kind)),
            Stage::AfterValue => Some(self.accept_right_bracket(kind)),
            Stage::AfterTags => self.accept_after_tags(kind),
            Stage::Between => self.accept_between(kind),
        }
    }

    // Takes a token between games. A game without tag pairs is one whose tag pairs are complete, so
    // the stage of its first token is the one after them.
    fn accept_between(&mut self, kind: TokenKind<'_>) -> Option<Result<(), Reason>>
        requires few { self.old.earlier_plies + self.old.text.plies < 2 ^ 64 - 1 }
        requires stage { self.old.stage ≡ Between }
        ensures { JudgesBefore self.old (kind_of kind.entry) self.new
            (option_map continued result) }
    {
        if is_comment(kind) || is_end(kind) {
            return Some(Ok(()));
        }
        self.begin_game();
        self.accept_after_tags(kind)
    }

    // Begins a game. It is not inlined: most tokens begin none.
    #[inline(never)]
    fn begin_game(&mut self)
        requires { self.old.earlier_plies + self.old.text.plies < 2 ^ 64 }
        ensures { self.new ≡ at_game_start self.old }
    {
        self.earlier_plies += self.levels.plies();
        self.tags.clear();
        self.levels.begin(Position::initial());
        self.stage = Stage::AfterTags;
    }

    // Takes the name of a pair, or a comment before it.
    fn accept_name(&mut self, kind: TokenKind<'_>) -> Result<(), Reason>
        requires stage { self.old.stage ≡ AfterLeftBracket }
        ensures { JudgesInPair self.old (kind_of kind.entry) self.new
            (continued result) }
    {
        if is_comment(kind) {
            return Ok(());
        }
        let TokenKind::Symbol(name) = kind else {
            return Err(Reason::ExpectedName);
        };
        if !is_tag_name(name) {
            return Err(Reason::BadTagName);
        }
        let place = match self.tags.find(name) {
            Ok(_) => return Err(Reason::DuplicateTag),
            Err(place) => place,
        };
        if name.len() > NAME_OR_VALUE_LENGTH {
            return Err(Reason::TagLineTooLong);
        }
        if is_reduced_fen(self.mode, name) {
            return Err(Reason::ReducedFen);
        }
        self.tags.begin(name, place);
        self.stage = Stage::AfterName;
        Ok(())
    }

    // Takes the value of a pair, or a comment before it.
    fn accept_value(&mut self, kind: TokenKind<'_>) -> Result<(), Reason>
        requires stage { self.old.stage ≡ AfterName }
        ensures { JudgesInPair self.old (kind_of kind.entry) self.new
            (continued result) }
    {
        if is_comment(kind) {
            return Ok(());
        }
        let TokenKind::Str(value) = kind else {
            return Err(Reason::ExpectedValue);
        };
        let name = self.tags.pending_name();
        if is_bad_result(name, value) {
            return Err(Reason::BadResult);
        }
        let start = match fen_position(name, value) {
            Err(field) => return Err(Reason::BadFen(field)),
            Ok(start) => start,
        };
        if !fits_tag_line(name, value) {
            return Err(Reason::TagLineTooLong);
        }
        self.tags.complete(value, start.is_some());
        self.levels.begin_at(start);
        self.stage = Stage::AfterValue;
        Ok(())
    }

    // Takes the `]` of a pair, or a comment before it.
    fn accept_right_bracket(&mut self, kind: TokenKind<'_>) -> Result<(), Reason>
        requires stage { self.old.stage ≡ AfterValue }
        ensures { JudgesInPair self.old (kind_of kind.entry) self.new
            (continued result) }
    {
        if is_comment(kind) {
            return Ok(());
        }
        match kind {
            TokenKind::RightBracket => {
                self.stage = Stage::AfterTags;
                Ok(())
            }
            _ => Err(Reason::ExpectedBracket),
        }
    }

    // Takes a token after a whole tag pair, or before the first. `None` if movetext begins with it.
    fn accept_after_tags(&mut self, kind: TokenKind<'_>) -> Option<Result<(), Reason>>
        requires { self.old.stage ≡ AfterTags }
        ensures { JudgesBefore self.old (kind_of kind.entry) self.new
            (option_map continued result) }
    {
        match kind {
            TokenKind::LeftBracket => {
                if self.tags.is_full() {
                    return Some(Err(Reason::TooManyTags));
                }
                self.stage = Stage::AfterLeftBracket;
                Some(Ok(()))
            }
            TokenKind::End => Some(Err(Reason::UnexpectedEnd)),
            _ => {
                if self.lacks_fen() {
                    self.count_move(kind);
                    return Some(Err(Reason::SetUpWithoutFen));
                }
                None
            }
        }
    }

    // Whether SetUp says 1, and there is no FEN (PGN 9.7).
    fn lacks_fen(&self) -> bool
        requires { IsTrue (may_have_movetext self.now.stage) }
        ensures { result ≡ spec.lacks_fen self.now.tags.held }
    {
        self.tags.value(b"SetUp").unwrap_or(b"") == b"1".as_slice() && !self.has_fen()
    }

    // Counts the probes that find the move of a token which SetUp rejects.
    fn count_move(&mut self, kind: TokenKind<'_>)
        requires { self.old.stage ≡ AfterTags }
        ensures { (w : Writer) → CountsMove (game_at false w self.old) (kind_of kind.entry)
            (game_at false w self.new) }
    {
        let TokenKind::Symbol(text) = kind else {
            return;
        };
        if is_score_or_number(text) {
            return;
        }
        let mut probes = Probes::new();
        let _ = self.find(text, &mut probes);
    }

    /// Judges a token of movetext, or the first one, and moves the levels. Returns what it means. A
    /// marker is only returned, and `end_game` takes it. A `[` after the tags does not come here:
    /// it begins another pair (`accept_outside`).
    ///
    /// # Errors
    ///
    /// The row of the fault table that rejects the token.
    #[inline(always)]
    pub fn accept_entry<'a>(&mut self, kind: TokenKind<'a>) -> Result<Event<'a>, Reason>
        requires may { MayTakeMove self.old }
        requires token { HasLength (kind_of kind) }
        ensures { Judges self.old (kind_of kind.entry) self.new result }
    {
        match kind {
            TokenKind::Symbol(text) => self.accept_symbol(text),
            TokenKind::Asterisk => Ok(Event::Marker(Marker::Unknown)),
            TokenKind::Period => Ok(Event::Number),
            TokenKind::Word(word) => Ok(Event::Word(word)),
            TokenKind::CommentOpen => Ok(Event::CommentOpen),
            TokenKind::CommentClose => Ok(Event::CommentClose),
            TokenKind::Glyph(glyph) => Ok(Event::Glyph(glyph)),
            TokenKind::LeftParen => self.open_variation(),
            TokenKind::RightParen => self.close_variation(),
            TokenKind::End => Err(Reason::UnexpectedEnd),
            TokenKind::LeftBracket => Err(Reason::TagInMovetext),
            TokenKind::RightBracket => Err(Reason::NotAMove),
            TokenKind::Str(_) => Err(Reason::NotAMove),
        }
    }

    /// Takes one token of a game that is read alone. Returns what it means in movetext, or `None`
    /// outside movetext. A marker ends the game.
    ///
    /// # Errors
    ///
    /// The row of the fault table that rejects the token.
    pub fn accept<'a>(&mut self, kind: TokenKind<'a>) -> Result<Option<Event<'a>>, Reason>
        requires few { self.old.earlier_plies + self.old.text.plies < 2 ^ 64 - 1 }
        requires token { HasLength (kind_of kind) }
        ensures { Accepts self.old (kind_of kind.entry) self.new result }
    {
        match self.accept_outside(kind) {
            Some(Err(reason)) => Err(reason),
            Some(Ok(())) => Ok(None),
            None => match self.accept_in_movetext(kind) {
                Err(reason) => Err(reason),
                Ok(event) => Ok(Some(event)),
            },
        }
    }

    // Takes a token of movetext, or the first one.
    fn accept_in_movetext<'a>(&mut self, kind: TokenKind<'a>) -> Result<Event<'a>, Reason>
        requires may { MayTakeMove self.old }
        requires token { HasLength (kind_of kind) }
        ensures { AcceptsEntry self.old (kind_of kind.entry) self.new result }
    {
        match self.accept_entry(kind) {
            Err(reason) => Err(reason),
            Ok(event) => match event {
                Event::Marker(marker) => match self.end_game(marker) {
                    Err(reason) => Err(reason),
                    Ok(()) => Ok(event),
                },
                _ => {
                    self.begin_movetext();
                    Ok(event)
                }
            },
        }
    }

    // Judges a symbol in movetext: a move number (PGN 8.2.2.1), a marker or a move.
    #[inline(always)]
    fn accept_symbol<'a>(&mut self, text: &[u8]) -> Result<Event<'a>, Reason>
        requires { MayTakeMove self.old }
        ensures { Judges self.old (symbol text.now) self.new result }
    {
        if may_be_score_or_number(text) {
            if is_number(text) {
                return Ok(Event::Number);
            }
            if let Some(marker) = Marker::of_symbol(text) {
                return Ok(Event::Marker(marker));
            }
        }
        self.accept_move(text)
    }

    // Finds the move that a symbol names, and plays it (PGN 8.2.3).
    #[inline(always)]
    fn accept_move<'a>(&mut self, text: &[u8]) -> Result<Event<'a>, Reason>
        requires may { MayTakeMove self.old }
        requires is_move { (spec.is_score text.now || spec.is_number text.now) ≡ false }
        ensures { Judges self.old (symbol text.now) self.new result }
    {
        let mut probes = Probes::new();
        match self.find(text, &mut probes) {
            Err(reason) => Err(reason),
            Ok(mv) => {
                self.levels.play(&mv);
                Ok(Event::Move(mv, probes))
            }
        }
    }

    // Finds the move that a symbol names, and counts the pairs that were tried.
    #[inline(always)]
    fn find(&mut self, text: &[u8], probes: &mut Probes) -> Result<Move, Reason>
        requires none { probes.old ≡ 0 }
        ensures { Finds self.old text.now self.new result probes.new }
    {
        let named = named_move(self.levels.position(), text, probes);
        self.count_probes(probes);
        named
    }

    /// Keeps the higher of two numbers of probes: those of this move, and the most so far.
    #[inline(always)]
    pub fn count_probes(&mut self, probes: &Probes)
        requires few { probes.now ≤ 1040 }
        ensures { self.new ≡ record self.old { most_probes = max self.old.most_probes probes.now } }
    {
        if self.most_probes < probes.count() {
            self.most_probes = probes.count();
        }
    }

    // Judges a `(`, which begins a variation (PGN 8.2.5).
    fn open_variation<'a>(&mut self) -> Result<Event<'a>, Reason>
        ensures { Judges self.old left_paren self.new result }
    {
        if !self.levels.has_own_move() {
            return Err(Reason::NoMoveBefore);
        }
        if self.levels.depth() + 1 >= L {
            return Err(Reason::TooDeep);
        }
        self.levels.open();
        Ok(Event::Open)
    }

    // Judges a `)`, which ends a variation (PGN 8.2.5).
    fn close_variation<'a>(&mut self) -> Result<Event<'a>, Reason>
        ensures { Judges self.old right_paren self.new result }
    {
        if self.levels.depth() == 0 {
            return Err(Reason::UnmatchedClose);
        }
        self.levels.close();
        Ok(Event::Close)
    }

    /// Ends the game with its marker, which `accept_entry` has returned (PGN 8.2.6).
    ///
    /// # Errors
    ///
    /// The row of the fault table that rejects the marker.
    pub fn end_game(&mut self, marker: Marker) -> Result<(), Reason>
        requires { IsTrue (may_have_movetext self.old.stage) }
        ensures { JudgesMarker self.old marker self.new result }
    {
        if self.levels.depth() > 0 {
            return Err(Reason::MarkerInVariation);
        }
        let missing = self.missing_result.text_at(marker);
        if marker.text() != self.tags.value(b"Result").unwrap_or(missing) {
            return Err(Reason::ResultDiffers);
        }
        self.stage = Stage::Between;
        self.marker = marker;
        Ok(())
    }

    /// Stores the place of the marker that has ended the game.
    #[inline(always)]
    pub fn place_marker(&mut self, at: u64)
        ensures { self.new ≡ record self.old { marker_at = at } }
    {
        self.marker_at = at;
    }

    /// Returns the place of the marker that has ended the game before.
    pub fn marker_at(&self) -> u64
        ensures { result ≡ self.now.marker_at }
    {
        self.marker_at
    }

    /// From now on the game is in movetext: its first token there was judged.
    #[inline(always)]
    pub fn begin_movetext(&mut self)
        requires { IsTrue (may_have_movetext self.old.stage) }
        ensures { self.new ≡ record self.old { stage = InMovetext } }
    {
        self.stage = Stage::InMovetext;
    }

    /// Returns the position before the move just played.
    #[inline(always)]
    pub fn position_before(&self) -> &Position
        requires { IsSome self.now.text.levels.current.before }
        ensures { self.now.text.levels.current.before ≡ Some result.now }
    {
        self.levels.before()
    }

    /// Returns the number of variations that are open.
    #[inline(always)]
    pub fn depth(&self) -> usize
        ensures { IsDepth L self.now.text.levels.around result }
    {
        self.levels.depth()
    }

    /// Whether movetext has begun.
    #[inline(always)]
    pub fn is_in_movetext(&self) -> bool
        ensures { IsTrue result ↔ (self.now.stage ≡ InMovetext) }
    {
        self.stage == Stage::InMovetext
    }
}

// Parses the value of a FEN tag, or returns the number of its bad field. Returns `None` for
// another tag (PGN 9.7.2).
fn fen_position(name: &[u8], value: &[u8]) -> Result<Option<Position>, u8>
    ensures { result ≡ position_in_fen name.now value.now }
{
    if name != b"FEN".as_slice() {
        return Ok(None);
    }
    match read_fen(value) {
        Ok(start) => Ok(Some(start)),
        Err(fault) => Err(fault.field),
    }
}

// Whether this is the FEN tag, in reduced format.
fn is_reduced_fen(mode: Mode, name: &[u8]) -> bool
    ensures { result ≡ (is_reduced mode && bytes_eq name.now (codes "FEN")) }
{
    mode == Mode::Reduced && name == b"FEN".as_slice()
}

// Whether this is the Result tag with a value that is no marker (PGN 8.1.1.7).
fn is_bad_result(name: &[u8], value: &[u8]) -> bool
    ensures { result ≡ (bytes_eq name.now (codes "Result") && not (spec.is_result value.now)) }
{
    name == b"Result".as_slice() && !is_result(value)
}

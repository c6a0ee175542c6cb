//! Converts games in pieces of any length.
ghost use Rattle.std.specs.Prelude.{◌≡◌, ◌+◌, ◌-◌, ◌*◌, ◌≤◌, ◌<◌, ◌^◌, [], false};
ghost use Rattle.std.specs.Prelude.{None, Some, Ok, Err, IsTrue, option_map, is_ok, IfOk, OnErr, length, take};
ghost use Rattle.std.specs.Option.{option_copied};
ghost use Rattle.pgn_layout.specs.Device.{WritesText, device};
ghost use Rattle.pgn_game.specs.games.Markers.{marker_text};
ghost use Rattle.pgn_game.specs.public.ConverterCalls.{finished_game_marker, finished_game_section};
ghost use Rattle.pgn_lexer.specs.WhiteSpace.{white_space};
ghost use Rattle.pgn_game.specs.declared.converter.Fed.TheVariants as fed;
ghost use Rattle.pgn_game.specs.declared.reason.Reason.TheVariants.{InputTooLong, Lexical, ReadFault};
ghost use Rattle.pgn_game.specs.declared.stage.Stage.TheVariants.{InMovetext};
ghost use Rattle.pgn_game.specs.steps.ConverterSteps.{IsBeforePiece, IsGoing};
ghost use Rattle.pgn_game.specs.steps.ConverterSteps.{GoesToEndOfPiece};
ghost use Rattle.pgn_game.specs.steps.ConverterSteps.{letting_missing_result_take_marker, announcing};
ghost use Rattle.pgn_game.specs.steps.Flow.{settled, taken_at};
ghost use Rattle.pgn_game.specs.steps.Flow.{FeedsPiece, FinishesLeft, GoesAtEnd, HasTakenToken, ReadsIn, ReadsOn, StepsIn};
ghost use Rattle.pgn_game.specs.public.ConverterCalls.{Stands, Feeds, KeepsGames, FeedsAll, Ends};
ghost use Rattle.pgn_game.specs.public.ConverterCalls.{Again, KeepsFault, CountsFault, Advances, profile_of};
ghost use Rattle.pgn_game.specs.public.ConverterCalls.{used_of, finished_game_value};
ghost use Rattle.pgn_game.specs.public.ConverterCalls.{finished_game_plies, finished_game_position};
ghost use Rattle.pgn_game.specs.public.ConverterCalls.{refused_position};
ghost use Rattle.pgn_game.specs.public.ConverterCalls.{CountsMissingAs, counting_missing_as};
ghost use Rattle.pgn_game.specs.steps.GameState.{KeepsSilence, sink_of, plies_of_finished_games};
ghost use Rattle.pgn_game.specs.public.ConverterCalls.{NoWriteFails, StillStands, writing_nothing};
ghost use Rattle.pgn_game.specs.public.ConverterCalls.{ReadsByMarker, reading_by_marker};

use crate::game::{Game, WHOLE};
use crate::marker::{Marker, MissingResult, PlacedMarker};
use crate::mode::Mode;
use crate::reason::{Fault, Reason};
use crate::token_tests::is_end;
use chess_rules::Position;
use pgn_layout::{Sink, WriteFault};
use pgn_lexer::{LexFault, Lexer, Outcome};
use std::marker::Model;

/// The most bytes of an input, and so the first place that no byte may have.
pub const MAX_INPUT_LENGTH: u64 = 1 << 62;

/// The shortest piece in which whole tokens are looked for first.
const SHORTEST_PIECE: usize = 16;

/// What `Converter::feed` did with a piece.
#[derive(Clone, Copy, Debug, PartialEq, Eq)]
pub enum Fed {
    /// The whole piece was used, and it finished no game.
    All,
    /// The piece finished a game, and this many of its bytes were used.
    Game(usize),
}

/// One step in a piece: how many of its bytes were used, and whether they finished a game.
#[derive(Clone, Copy)]
struct Step {
    used: usize,
    outcome: Result<bool, Fault>,
}

/// Converts games from import format to export format (PGN 3), in pieces of any length.
///
/// A game has at most `T` tag pairs, and its variations are at most `L - 1` deep. `L` is at least
/// 1.
///
/// # Examples
///
/// ```
/// use pgn_game::{Converter, Fed, Mode, Outlet};
///
/// let mut out = Outlet::new(Vec::new());
/// let mut converter = Converter::<64, 33>::new(Mode::Full);
/// let text = b"1. e4 e5 * 1. d4";
/// assert_eq!(converter.feed(text, &mut out).unwrap(), Fed::Game(10));
/// assert_eq!(converter.plies(), 2);
/// assert_eq!(converter.tag(b"Result"), Some(b"*".as_slice()));
/// assert_eq!(converter.feed(&text[10..], &mut out).unwrap(), Fed::All);
/// // The second game has no marker.
/// assert_eq!(converter.finish(&mut out).err().unwrap().at, 16);
/// ```
#[derive(Drop)]
pub struct Converter<const T: usize, const L: usize> {
    lexer: Lexer,
    game: Game<T, L>,
    games: u64,
    has_finished_game: bool,
    is_finished: bool,
    fault: Option<Fault>,
}

impl<const T: usize, const L: usize> Model for Converter<T, L> {
    ghost use Rattle.pgn_game.specs.public.ConverterCalls.{Converter as Seen};
    ghost use Rattle.pgn_game.specs.public.ConverterCalls.{game_in_reader_if, IsSound};

    ghost Value = { Seen };

    ghost view = { λ c. record {
      lexer = c.lexer;
      reading = c.game;
      games = c.games;
      just_finished = game_in_reader_if c.has_finished_game c.game;
      is_finished = c.is_finished;
      fault = c.fault;
    } };

    ghost invariant = { λ c. IsSound c.lexer c.game c.games c.has_finished_game c.is_finished
        c.fault };
}

impl<const T: usize, const L: usize> Converter<T, L> {
    /// Returns a converter that has read nothing.
    pub fn new(mode: Mode) -> Self
        // Cargo: assert!(L >= 1, "the number of levels L is at least 1")
        requires { 1 ≤ L }
        ensures stands { Stands (profile_of T (L - 1) mode) result [] None [] }
        ensures not_finished { result.is_finished ≡ false }
        ensures writes { result.reading.writing.is_silent ≡ false }
    {
        Converter::begin_at(mode, 0, true)
    }

    /// Returns a converter that converts the rest of a text, from the byte at this place on.
    ///
    /// It takes the bytes before for white space. So the place must be outside all tokens, comments
    /// and escape lines, and between two games. It is at most 2^62. Places count from the first
    /// byte of the text, and so does `place`; `games` counts those finished from here on. A byte
    /// order mark is skipped at place 0 alone.
    ///
    /// `in_first_column` says whether the place is in the first column, where a percent sign begins
    /// an escape line (PGN 6): after a carriage return or a line feed, or after a byte order
    /// mark. Place 0 always is. Just after a game's marker it is false. The games, the output and
    /// the verdict of the whole text then follow from those of the rest (`laws::games_restart`).
    ///
    /// # Examples
    ///
    /// ```
    /// use pgn_game::{Converter, Fed, Mode, Nowhere};
    ///
    /// let text = b"1. e4 * 1. d5 *";
    /// let mut converter = Converter::<64, 33>::begin_at(Mode::Full, 7, false);
    /// let fault = converter.feed(&text[7..], &mut Nowhere).err().unwrap();
    /// assert_eq!(fault.at, 11);
    /// ```
    pub fn begin_at(mode: Mode, place: u64, in_first_column: bool) -> Self
        // Cargo: assert!(L >= 1 && place <= MAX_INPUT_LENGTH,
        // "the number of levels L is at least 1, and the place at most 2^62")
        requires levels { 1 ≤ L }
        requires place { place ≤ 2 ^ 62 }
        ensures stands { Stands (profile_of T (L - 1) mode) result
            (white_space place in_first_column) None [] }
        ensures count { result.lexer.count ≡ place }
        ensures not_finished { result.is_finished ≡ false }
        ensures writes { result.reading.writing.is_silent ≡ false }
    {
        Converter {
            lexer: Lexer::begin_at(place, in_first_column),
            game: Game::new(mode),
            games: 0,
            has_finished_game: false,
            is_finished: false,
            fault: None,
        }
    }

    /// From now on a game without a Result pair counts as having this one.
    ///
    /// A new converter counts a missing Result as `*`. Call this before the first byte is fed: once
    /// a token was read, nothing is ensured of the games, later ones among them.
    ///
    /// # Examples
    ///
    /// ```
    /// use pgn_game::{Converter, Fed, Marker, Mode, Nowhere};
    ///
    /// let mut converter = Converter::<64, 33>::new(Mode::Full);
    /// converter.count_missing_result_as(Marker::WhiteWins);
    /// assert_eq!(converter.feed(b"1. e4 1-0 ", &mut Nowhere).unwrap(), Fed::Game(9));
    /// ```
    pub fn count_missing_result_as(&mut self, marker: Marker)
        ensures only_profile { self.new ≡ counting_missing_as marker self.old }
        ensures stands { CountsMissingAs marker self.old self.new }
    {
        self.game
            .count_missing_result_as(MissingResult::CountsAs(marker));
    }

    /// From now on no call of `feed` or `finish` touches its sink.
    ///
    /// Games, plies, tags, positions and faults with their places are those of a converter that
    /// writes. But no call returns `Reason::WriteFault`, unless one did before. `most_probes`
    /// counts only the pairs that are tried to find moves, at most 8 for each. Call this before the
    /// first byte is fed: once a token was read, nothing else is ensured of the games, later ones
    /// among them.
    ///
    /// # Examples
    ///
    /// ```
    /// use pgn_game::{Converter, Fed, Mode, Outlet};
    ///
    /// let mut out = Outlet::new(Vec::new());
    /// let mut converter = Converter::<64, 33>::new(Mode::Full);
    /// converter.write_nothing();
    /// assert_eq!(converter.feed(b"1. e4 *", &mut out).unwrap(), Fed::Game(7));
    /// assert_eq!(converter.plies(), 1);
    /// assert!(out.into_inner().is_empty());
    /// ```
    pub fn write_nothing(&mut self)
        ensures only_switch { self.new ≡ writing_nothing self.old }
        ensures stands { StillStands self.old self.new }
    {
        self.game.write_nothing();
    }

    /// From now on a missing Result takes the marker that ends its game, and nothing is written.
    ///
    /// A tag section is written before its game's marker is known, so this is also a
    /// `write_nothing`. `tag` and `write_tags` give such a Result once the game is finished. Call
    /// this before the first byte is fed: once a token was read, nothing else is ensured of the
    /// games, later ones among them.
    ///
    /// # Examples
    ///
    /// ```
    /// use pgn_game::{Converter, Fed, Mode, Nowhere};
    ///
    /// let mut converter = Converter::<64, 33>::new(Mode::Full);
    /// converter.take_marker_for_missing_result();
    /// assert_eq!(converter.feed(b"1. e4 1-0 ", &mut Nowhere).unwrap(), Fed::Game(9));
    /// assert_eq!(converter.tag(b"Result"), Some(b"1-0".as_slice()));
    /// ```
    pub fn take_marker_for_missing_result(&mut self)
        ensures only_switch { self.new ≡ reading_by_marker self.old }
        ensures stands { ReadsByMarker self.old self.new }
    {
        self.let_missing_result_take_marker();
        self.write_nothing();
    }

    /// From now on a missing Result takes the marker that ends its game. A converter that writes
    /// needs that marker before the game (`announce_marker`).
    pub(crate) fn let_missing_result_take_marker(&mut self)
        ensures { self.new ≡ letting_missing_result_take_marker self.old }
    {
        self.game
            .count_missing_result_as(MissingResult::TakesTheMarker);
    }

    /// Announces the marker that a game has to end with from now on, at its place. It counts where
    /// a missing Result takes the marker and the game is written: the Result is written so, and
    /// another marker is rejected.
    pub(crate) fn announce_marker(&mut self, marker: PlacedMarker)
        ensures { self.new ≡ announcing marker self.old }
    {
        self.game.announce_marker(marker);
    }

    /// Converts the piece up to the end of the next game, and reports how much of it was used.
    ///
    /// After `Game(used)` the next piece that is not empty has to begin with the rest of this one.
    /// A marker that is a symbol is known only at the byte after it, so `Game(0)` is possible. This
    /// requires that `finish` has not returned `Ok` (`is_finished`).
    ///
    /// # Errors
    ///
    /// - The fault of the first token that is rejected, as soon as the bytes decide it.
    /// - `Reason::InputTooLong` if the input has a byte at place 2^62.
    /// - `Reason::WriteFault` if a write failed, at the first token with text missing.
    ///
    /// After the first two the output is complete up to the token before. Each later call reports
    /// the same fault and writes nothing.
    pub fn feed<W: Sink>(&mut self, piece: &[u8], out: &mut W) -> Result<Fed, Fault>
        // Cargo: assert!(!self.is_finished, "feed comes before finish has returned Ok")
        requires not_finished { self.old.is_finished ≡ false }
        ensures used { IfOk result (λ fed. used_of fed piece.now ≤ length piece.now) }
        ensures feeds { Feeds self.old piece.now self.new result
            (sink_of self.old.reading W.taken W.failures out.old out.new) }
        ensures empty { piece.now ≡ [] → self.old.fault ≡ None → result ≡ Ok fed.All }
        ensures count { IfOk result (λ fed.
            self.new.lexer.count ≡ self.old.lexer.count + used_of fed piece.now) }
        ensures grows { self.old.lexer.count ≤ self.new.lexer.count }
        ensures within { self.new.lexer.count ≤ self.old.lexer.count + length piece.now }
        ensures short { self.new.lexer.count ≤ 2 ^ 62 }
        ensures advances { IfOk result (λ fed. Advances self.old.lexer self.new.lexer fed) }
        ensures not_finished { self.new.is_finished ≡ false }
        ensures fault { KeepsFault self.new result }
        ensures games { KeepsGames self.old self.new result }
        ensures probes { self.old.reading.most_probes ≤ self.new.reading.most_probes }
        ensures again { Again self.old self.new result out.old out.new }
        ensures counted { self.old.fault ≡ None
            → CountsFault result (sink_of self.old.reading W.taken W.failures out.old out.new) }
        ensures silent { KeepsSilence self.old.reading self.new.reading out.old out.new }
        ensures no_write_fails { IsTrue self.old.reading.writing.is_silent → self.old.fault ≡ None
            → NoWriteFails result }
    {
        if let Some(fault) = self.fault {
            return Err(fault);
        }
        self.feed_piece(piece, out)
    }

    /// Converts the whole piece, however many games are finished in it.
    pub(crate) fn feed_all<W: Sink>(&mut self, piece: &[u8], out: &mut W) -> Result<(), Fault>
        requires { IsGoing self.old }
        ensures feeds { FeedsAll self.old piece.now self.new result
            (sink_of self.old.reading W.taken W.failures out.old out.new) }
        ensures goes { GoesToEndOfPiece self.old piece.now self.new result
            (sink_of self.old.reading W.taken W.failures out.old out.new) }
        ensures silent { KeepsSilence self.old.reading self.new.reading out.old out.new }
    {
        let mut at = 0;
        loop {
            match self.feed(&piece[at..], out)? {
                Fed::All => return Ok(()),
                Fed::Game(used) => at += used,
            }
        }
    }

    /// Ends the input: converts what is left, and reports whether that finished a game.
    ///
    /// This requires that it has not returned `Ok` before (`is_finished`).
    ///
    /// # Errors
    ///
    /// As `feed`. An input that ends in movetext or after a tag pair is `Reason::UnexpectedEnd`;
    /// one that ends inside a tag pair is `Reason::ExpectedName`, `Reason::ExpectedValue` or
    /// `Reason::ExpectedBracket`.
    pub fn finish<W: Sink>(&mut self, out: &mut W) -> Result<bool, Fault>
        // Cargo: assert!(!self.is_finished, "finish returns Ok once")
        requires not_finished { self.old.is_finished ≡ false }
        ensures ends { Ends self.old self.new result (sink_of self.old.reading W.taken W.failures
            out.old out.new) }
        ensures finished { self.new.is_finished ≡ is_ok result }
        ensures count { self.new.lexer.count ≡ self.old.lexer.count }
        ensures probes { self.old.reading.most_probes ≤ self.new.reading.most_probes }
        ensures fault { KeepsFault self.new result }
        ensures none_just_finished { OnErr result (self.new.just_finished ≡ None) }
        ensures again { Again self.old self.new result out.old out.new }
        ensures counted { self.old.fault ≡ None
            → CountsFault result (sink_of self.old.reading W.taken W.failures out.old out.new) }
        ensures silent { KeepsSilence self.old.reading self.new.reading out.old out.new }
        ensures no_write_fails { IsTrue self.old.reading.writing.is_silent → self.old.fault ≡ None
            → NoWriteFails result }
    {
        if let Some(fault) = self.fault {
            return Err(fault);
        }
        self.finish_left(false, out)
    }

    /// Ends the time in which a game counts as just finished.
    pub(crate) fn forget_game(&mut self)
        ensures { self.new ≡ record self.old { just_finished = None } }
    {
        self.has_finished_game = false;
    }

    /// Keeps the fault of a read that failed: each later call reports it.
    pub(crate) fn keep_failed_read(&mut self) -> Fault
        ensures fault { result ≡ record { at = self.old.lexer.count; reason = ReadFault } }
        ensures kept { self.new
            ≡ record self.old { just_finished = None; fault = Some result } }
    {
        let fault = Fault {
            at: self.lexer.place(),
            reason: Reason::ReadFault,
        };
        self.has_finished_game = false;
        self.fault = Some(fault);
        fault
    }

    /// Returns the fault that each call reports from now on, if there is one.
    pub(crate) fn fault(&self) -> Option<Fault>
        ensures { result ≡ self.now.fault }
    {
        self.fault
    }

    /// Returns the value of a tag of the game just finished, roster defaults included.
    ///
    /// A game counts as just finished from the call that finished it to the next call of `feed` or
    /// `finish`. At any other time the result is `None`.
    pub fn tag(&self, name: &[u8]) -> Option<&[u8]>
        ensures { option_copied result ≡ finished_game_value self.now name.now }
    {
        if self.has_finished_game {
            return self.game.value(name);
        }
        None
    }

    /// Returns the number of plies of the game just finished, without its variations.
    ///
    /// It is 0 at any other time.
    pub fn plies(&self) -> u64
        ensures { result ≡ finished_game_plies self.now }
    {
        if self.has_finished_game {
            return self.game.plies();
        }
        0
    }

    /// Returns the position at the end of the game just finished.
    ///
    /// It is the one after all moves outside variations. At any other time the result is `None`.
    pub fn position(&self) -> Option<&Position>
        ensures { option_copied result ≡ finished_game_position self.now }
    {
        if self.has_finished_game {
            return Some(self.game.position());
        }
        None
    }

    /// Returns the marker of the game just finished.
    ///
    /// At any other time the result is `None`.
    pub fn marker(&self) -> Option<Marker>
        ensures { option_map marker_text result ≡ finished_game_marker self.now }
    {
        if self.has_finished_game {
            return Some(self.game.marker());
        }
        None
    }

    /// Returns the marker of the last game that was finished, and its place.
    pub(crate) fn placed_marker(&self) -> PlacedMarker
        ensures marker { marker_text result.marker ≡ self.now.reading.marker }
        ensures place { result.at ≡ self.now.reading.marker_at }
    {
        self.game.placed_marker()
    }

    /// Writes the tag section of the game just finished, with the empty line after it (PGN 8.1).
    ///
    /// This writes also after `write_nothing`. At any other time nothing is written.
    ///
    /// # Errors
    ///
    /// `WriteFault` if a write failed. A prefix of the section was written.
    ///
    /// # Examples
    ///
    /// ```
    /// use pgn_game::{Converter, Mode, Nowhere, Outlet};
    ///
    /// let mut converter = Converter::<64, 33>::new(Mode::Full);
    /// converter.write_nothing();
    /// converter.feed(b"[White \"Ada\"] 1. e4 *", &mut Nowhere).unwrap();
    /// let mut out = Outlet::new(Vec::new());
    /// converter.write_tags(&mut out).unwrap();
    /// let tags = String::from_utf8(out.into_inner()).unwrap();
    /// assert!(tags.contains("[White \"Ada\"]\n") && tags.ends_with("]\n\n"));
    /// ```
    pub fn write_tags<W: Sink>(&self, out: &mut W) -> Result<(), WriteFault>
        ensures { WritesText (device W.taken W.failures out.old out.new) result
            (finished_game_section self.now) }
    {
        if self.has_finished_game {
            return self.game.write_section(out);
        }
        Ok(())
    }

    /// Returns the position in which a move was rejected.
    ///
    /// It is the one before the move, also inside a variation. The result is `None` unless the
    /// fault is `Reason::IllegalMove`, `Reason::AmbiguousMove` or `Reason::MoveLimit`.
    pub fn refused_position(&self) -> Option<&Position>
        ensures { option_copied result ≡ refused_position self.now }
    {
        match self.fault?.reason {
            Reason::IllegalMove | Reason::AmbiguousMove | Reason::MoveLimit => {
                Some(self.game.position())
            }
            _ => None,
        }
    }

    /// Returns the most pairs of an origin and a target that were tried for one move so far.
    ///
    /// The number is at most 1,040, and at least 1 once a move was played.
    ///
    /// Pairs are tried to find a move, also one that is rejected, and to write the SAN of an
    /// accepted one with its mark. In reduced mode the moves of variations are not written. After
    /// `write_nothing` no move is: only pairs tried to find moves count, at most 8 for each move.
    pub fn most_probes(&self) -> u32
        ensures value { result ≡ self.now.reading.most_probes }
        ensures bound { result ≤ 1040 }
    {
        self.game.most_probes()
    }

    // Returns the number of moves outside variations of all finished games.
    pub(crate) fn plies_of_finished_games(&self) -> u64
        requires { self.now.fault ≡ None }
        ensures { result ≡ plies_of_finished_games self.now.reading }
    {
        self.game.plies_of_finished_games()
    }

    /// Returns the place of the next byte: where this began, plus the bytes used since.
    ///
    /// `feed` raises it by the bytes that it used. On an error these are at most the whole piece.
    /// `finish` leaves it as it is, also on an error.
    pub fn place(&self) -> u64
        ensures { result ≡ self.now.lexer.count }
    {
        self.lexer.place()
    }

    /// Returns the number of games finished so far.
    pub fn games(&self) -> u64
        ensures { result ≡ self.now.games }
    {
        self.games
    }

    /// Whether `finish` has returned `Ok`.
    pub fn is_finished(&self) -> bool
        ensures { result ≡ self.now.is_finished }
    {
        self.is_finished
    }

    /// Converts what is left at the end of the input: all of it, as `finish` does, or up to the end
    /// of the next game, if `to_game`. Returns whether a game was finished. The converter has met
    /// no fault.
    pub(crate) fn finish_left<W: Sink>(&mut self, to_game: bool, out: &mut W) -> Result<bool, Fault>
        requires { IsGoing self.old }
        ensures finishes { FinishesLeft to_game self.old self.new result
            (sink_of self.old.reading W.taken W.failures out.old out.new) }
        ensures few { self.old.games < 2 ^ 64 }
        ensures silent { KeepsSilence self.old.reading self.new.reading out.old out.new }
    {
        self.has_finished_game = false;
        let games = self.games;
        while !self.is_finished {
            if self.step_at_end(out)? && to_game {
                return Ok(true);
            }
        }
        Ok(games < self.games)
    }

    /// Does what `feed` does, of a converter that has met no fault.
    pub(crate) fn feed_piece<W: Sink>(&mut self, piece: &[u8], out: &mut W) -> Result<Fed, Fault>
        requires { IsGoing self.old }
        ensures feeds { FeedsPiece self.old piece.now self.new result
            (sink_of self.old.reading W.taken W.failures out.old out.new) }
        ensures silent { KeepsSilence self.old.reading self.new.reading out.old out.new }
    {
        self.has_finished_game = false;
        let front = within_limit(self.lexer.place(), piece);
        if front.is_empty() {
            if piece.is_empty() {
                return Ok(Fed::All);
            }
            return Err(too_long(&mut self.fault));
        }
        let step = self.feed_front(front, out);
        match step.outcome {
            Err(fault) => Err(fault),
            Ok(finished) => {
                if finished {
                    return Ok(Fed::Game(step.used));
                }
                if front.len() < piece.len() {
                    return Err(too_long(&mut self.fault));
                }
                Ok(Fed::All)
            }
        }
    }

    /// Converts a piece that ends before place 2^62, up to the end of the next game.
    fn feed_front<W: Sink>(&mut self, piece: &[u8], out: &mut W) -> Step
        requires { IsBeforePiece self.old piece.now }
        ensures reads { ReadsIn self.old piece.now self.new result.used result.outcome
            (sink_of self.old.reading W.taken W.failures out.old out.new) }
        ensures all { result.outcome ≡ Ok false → result.used ≡ length piece.now }
        ensures silent { KeepsSilence self.old.reading self.new.reading out.old out.new }
    {
        let mut at = 0;
        while at < piece.len() {
            let step = self.step(&piece[at..], out);
            at += step.used;
            match step.outcome {
                Err(fault) => {
                    return Step {
                        used: at,
                        outcome: Err(fault),
                    };
                }
                Ok(finished) => {
                    if finished {
                        return Step {
                            used: at,
                            outcome: Ok(true),
                        };
                    }
                }
            }
        }
        Step {
            used: at,
            outcome: Ok(false),
        }
    }

    /// Takes tokens of the piece, up to the end of a game. In movetext it takes as many as lie
    /// whole in the piece, but one alone of a short piece: most of its tokens go on after it, and
    /// would be looked at twice.
    #[inline(always)]
    fn step<W: Sink>(&mut self, piece: &[u8], out: &mut W) -> Step
        requires { IsBeforePiece self.old piece.now }
        ensures steps { StepsIn self.old piece.now self.new result.used result.outcome
            (sink_of self.old.reading W.taken W.failures out.old out.new) }
        ensures silent { KeepsSilence self.old.reading self.new.reading out.old out.new }
    {
        if piece.len() < SHORTEST_PIECE || !self.game.is_in_movetext() {
            return self.step_token(piece, out);
        }
        self.step_movetext(piece, out)
    }

    /// What `run_movetext` does. Its result is taken apart, so that it needs room in memory here
    /// alone, and the other steps need none.
    #[inline(always)]
    fn step_movetext<W: Sink>(&mut self, piece: &[u8], out: &mut W) -> Step
        requires stage { self.old.reading.stage ≡ InMovetext }
        requires piece { IsBeforePiece self.old piece.now }
        ensures steps { StepsIn self.old piece.now self.new result.used result.outcome
            (sink_of self.old.reading W.taken W.failures out.old out.new) }
        ensures silent { KeepsSilence self.old.reading self.new.reading out.old out.new }
    {
        let Step { used, outcome } = self.run_movetext(piece, out);
        Step { used, outcome }
    }

    /// In movetext, takes one token after another while they lie whole in the piece, and the one
    /// after them. It passes numbers and periods, which add nothing in movetext. It is not
    /// inlined, so that it has the registers to itself.
    #[inline(never)]
    fn run_movetext<W: Sink>(&mut self, piece: &[u8], out: &mut W) -> Step
        requires stage { self.old.reading.stage ≡ InMovetext }
        requires piece { IsBeforePiece self.old piece.now }
        ensures steps { StepsIn self.old piece.now self.new result.used result.outcome
            (sink_of self.old.reading W.taken W.failures out.old out.new) }
        ensures silent { KeepsSilence self.old.reading self.new.reading out.old out.new }
    {
        let mut used = 0;
        while used < piece.len() {
            let (count, token) = self.lexer.whole_token(&piece[used..], true);
            used += count;
            let Some(token) = token else { break };
            match self.game.take_entry(token.kind, token.at, out) {
                Err(reason) => {
                    let outcome = self.settle(token.at, Err(reason));
                    return Step { used, outcome };
                }
                Ok(finished) => {
                    if finished {
                        let outcome = self.settle(token.at, Ok(true));
                        return Step { used, outcome };
                    }
                }
            }
        }
        if used == piece.len() {
            return Step {
                used,
                outcome: Ok(false),
            };
        }
        let step = self.step_on(&piece[used..], out);
        Step {
            used: used + step.used,
            outcome: step.outcome,
        }
    }

    /// Takes the next token of the piece.
    #[inline(always)]
    fn step_token<W: Sink>(&mut self, piece: &[u8], out: &mut W) -> Step
        requires { IsBeforePiece self.old piece.now }
        ensures steps { StepsIn self.old piece.now self.new result.used result.outcome
            (sink_of self.old.reading W.taken W.failures out.old out.new) }
        ensures silent { KeepsSilence self.old.reading self.new.reading out.old out.new }
    {
        let (used, token) = self.lexer.whole_token(piece, false);
        let Some(token) = token else {
            // Mostly a token goes on that began in an earlier piece.
            if used == 0 {
                return self.step_on(piece, out);
            }
            if used == piece.len() {
                return Step {
                    used,
                    outcome: Ok(false),
                };
            }
            let rest = self.step_on(&piece[used..], out);
            return Step {
                used: used + rest.used,
                outcome: rest.outcome,
            };
        };
        match self.game.take_token::<W, WHOLE>(token.kind, token.at, out) {
            Err(reason) => {
                let outcome = self.settle(token.at, Err(reason));
                Step { used, outcome }
            }
            Ok(finished) => {
                if finished {
                    let outcome = self.settle(token.at, Ok(true));
                    return Step { used, outcome };
                }
                Step {
                    used,
                    outcome: Ok(false),
                }
            }
        }
    }

    /// Takes the next token of the piece as `step_token` does, but lets the lexer copy it.
    #[inline(always)]
    fn step_on<W: Sink>(&mut self, piece: &[u8], out: &mut W) -> Step
        requires { IsBeforePiece self.old piece.now }
        ensures steps { StepsIn self.old piece.now self.new result.used result.outcome
            (sink_of self.old.reading W.taken W.failures out.old out.new) }
        ensures silent { KeepsSilence self.old.reading self.new.reading out.old out.new }
    {
        let scan = self.lexer.next(piece);
        let used = scan.used;
        match scan.outcome {
            Outcome::NeedMore => Step {
                used,
                outcome: Ok(false),
            },
            Outcome::Token(token) => {
                let at = token.at;
                let taken = self.game.take_copied(token.kind, at, out);
                Step {
                    used,
                    outcome: self.settle(at, taken),
                }
            }
            Outcome::Fault(fault) => {
                let fault = lexical(fault);
                self.fault = Some(fault);
                Step {
                    used,
                    outcome: Err(fault),
                }
            }
        }
    }

    /// Takes the next of the tokens that are left after the last piece. The last is the end.
    fn step_at_end<W: Sink>(&mut self, out: &mut W) -> Result<bool, Fault>
        requires { IsGoing self.old }
        ensures reads { ReadsOn self.old None self.new result
            (sink_of self.old.reading W.taken W.failures out.old out.new) }
        ensures goes { GoesAtEnd self.old self.new result
            (sink_of self.old.reading W.taken W.failures out.old out.new) }
        ensures silent { KeepsSilence self.old.reading self.new.reading out.old out.new }
    {
        match self.lexer.finish() {
            // Never: `finish` gives a token or a fault.
            Outcome::NeedMore => Ok(false),
            Outcome::Token(token) => {
                let at = token.at;
                let is_end = is_end(token.kind);
                match self.game.take_copied(token.kind, at, out) {
                    Err(reason) => {
                        let fault = Fault { at, reason };
                        self.has_finished_game = false;
                        self.fault = Some(fault);
                        Err(fault)
                    }
                    Ok(finished) => {
                        if finished {
                            self.games += 1;
                            self.has_finished_game = true;
                        } else {
                            self.is_finished = is_end;
                            self.has_finished_game &= self.game.is_between();
                        }
                        Ok(finished)
                    }
                }
            }
            Outcome::Fault(fault) => {
                let fault = lexical(fault);
                self.has_finished_game = false;
                self.fault = Some(fault);
                Err(fault)
            }
        }
    }

    // Counts a game that a token finished, and keeps a fault.
    fn settle(&mut self, at: u64, taken: Result<bool, Reason>) -> Result<bool, Fault>
        requires { HasTakenToken self.old taken }
        ensures outcome { result ≡ taken_at at taken }
        ensures settled { self.new ≡ settled at taken self.old }
    {
        match taken {
            Err(reason) => {
                let fault = Fault { at, reason };
                self.fault = Some(fault);
                Err(fault)
            }
            Ok(finished) => {
                if finished {
                    self.games += 1;
                    self.has_finished_game = true;
                }
                Ok(finished)
            }
        }
    }
}

// Returns the bytes of the piece that are before place 2^62; `count` bytes came before the piece.
pub fn within_limit(count: u64, piece: &[u8]) -> &[u8]
    requires { count ≤ 2 ^ 62 }
    ensures { result.now ≡ take (2 ^ 62 - count) piece.now }
{
    let room = MAX_INPUT_LENGTH - count;
    if piece.len() as u64 <= room {
        return piece;
    }
    &piece[..room as usize]
}

// Keeps the fault of an input that goes on past its last place.
pub fn too_long(kept: &mut Option<Fault>) -> Fault
    ensures fault { result ≡ record { at = 2 ^ 62; reason = InputTooLong } }
    ensures kept { kept.new ≡ Some result }
{
    let at = MAX_INPUT_LENGTH;
    let reason = Reason::InputTooLong;
    *kept = Some(Fault { at, reason });
    Fault { at, reason }
}

// Makes a fault of the converter from one of the lexer.
pub fn lexical(fault: LexFault) -> Fault
    ensures { result ≡ record { at = fault.at; reason = Lexical fault.reason } }
{
    Fault {
        at: fault.at,
        reason: Reason::Lexical(fault.reason),
    }
}

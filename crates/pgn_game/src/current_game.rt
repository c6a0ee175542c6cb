//! The game whose items are given.
ghost use Rattle.std.specs.Prelude.{◌≡◌, ◌+◌, ◌-◌, ◌<◌, ◌≤◌, ◌^◌, ◌↔◌, None, [], IsTrue, length, option_map, true};
ghost use Rattle.pgn_lexer.specs.Tokens.{HasLength};
ghost use Rattle.pgn_lexer.specs.Scanned.{kind_of};
ghost use Rattle.pgn_layout.specs.Device.{WritesText, device};
ghost use Rattle.std.specs.Option.{option_copied};
ghost use Rattle.pgn_game.specs.public.ItemsCalls.{CountsSan, IsLegalIfMove, position_before_move};
ghost use Rattle.pgn_game.specs.public.ItemsCalls.{shown_depth, shown_games, shown_move};
ghost use Rattle.pgn_game.specs.public.ItemsCalls.{shown_position, shown_san, shown_section};
ghost use Rattle.pgn_game.specs.public.ItemsCalls.{shown_uci, shown_value, shown_word};
ghost use Rattle.pgn_game.specs.public.ItemsCalls.{current_by_marker, shown_pair};
ghost use Rattle.pgn_game.specs.public.NameAndValue.{pair_of};
ghost use Rattle.pgn_game.specs.public.ItemsCalls.{shown_result};
ghost use Rattle.pgn_game.specs.games.Markers.{missing_of};
ghost use Rattle.pgn_game.specs.games.Profile.{known_result};
ghost use Rattle.pgn_game.specs.declared.mode.Mode.TheVariants.{Full};
ghost use Rattle.pgn_game.specs.declared.stage.Stage.TheVariants.{InMovetext};
ghost use Rattle.pgn_game.specs.steps.Accepted.{without_writer};
ghost use Rattle.pgn_game.specs.steps.GameState.{unread};
ghost use Rattle.pgn_game.specs.steps.TokenInMovetext.{has_whole_pairs};
ghost use Rattle.pgn_game.specs.steps.ItemsSteps.{IsPlayedItem, TakesItem, given_first};
ghost use Rattle.pgn_game.specs.steps.ItemsSteps.{given_second, giving_next, item_meant};
ghost use Rattle.pgn_game.specs.steps.ItemsSteps.{restarted_game};

use crate::event::Event;
use crate::item::Item;
use crate::marker::MissingResult;
use crate::mode::Mode;
use crate::reader::Reader;
use crate::reason::Reason;
use crate::section::{exported_pair, write_section};
use arrayvec::ArrayVec;
use chess_rules::{Move, Position, Probes};
use chess_text::{write_san_of, write_uci};
use pgn_layout::{Sink, WriteFault};
use pgn_lexer::TokenKind;
use std::marker::Model;

/// The most bytes of a word (PGN 8.2.1).
const WORD_LENGTH: usize = 79;

/// The current game of `Items`.
#[derive(Drop)]
pub struct CurrentGame<const T: usize, const L: usize> {
    reader: Reader<T, L>,
    word: ArrayVec<u8, WORD_LENGTH>,
    games: u64,
    last: Option<Item>,
    // The item after the tags, which the same token gives.
    pending: Option<Item>,
}

impl<const T: usize, const L: usize> Model for CurrentGame<T, L> {
    ghost use Rattle.pgn_game.specs.public.ItemsCalls.{Current};
    ghost use Rattle.pgn_game.specs.steps.Accepted.{without_writer};
    ghost use Rattle.pgn_game.specs.steps.ItemsSteps.{IsSoundGame};

    ghost Value = { Current };

    ghost view = { λ c. record {
      reading = without_writer c.reader;
      games = c.games;
      word = c.word.items;
      last = c.last;
      pending = c.pending;
    } };

    ghost invariant = { λ c. IsSoundGame (record {
      reading = without_writer c.reader;
      games = c.games;
      word = c.word.items;
      last = c.last;
      pending = c.pending;
    }) };
}

impl<const T: usize, const L: usize> CurrentGame<T, L> {
    /// Returns a game of which nothing was read.
    pub fn new() -> Self
        requires { 1 ≤ L }
        ensures { result ≡ record {
          reading = without_writer (unread T L Full);
          games = 0;
          word = [];
          last = None;
          pending = None;
        } }
    {
        CurrentGame {
            reader: Reader::new(Mode::Full),
            word: ArrayVec::new(),
            games: 0,
            last: None,
            pending: None,
        }
    }

    /// Forgets the game and those before it. What a missing Result counts as stays.
    pub fn restart(&mut self)
        ensures game { self.new ≡ restarted_game self.old }
        ensures line { self.new.reading.line ≡ [] }
        ensures silent { self.new.reading.writing.is_silent ≡ true }
    {
        self.reader.restart();
        self.games = 0;
        self.last = None;
        self.pending = None;
    }

    /// Returns the value of a name in the tag section, defaults included.
    pub fn tag(&self, name: &[u8]) -> Option<&[u8]>
        ensures { option_copied result ≡ shown_value self.now name.now }
    {
        self.last?;
        self.reader.value_with(self.shown_result(), name)
    }

    /// Returns the pair of the tag section that has so many before it, if there is one.
    pub fn pair(&self, index: usize) -> Option<(&[u8], &[u8])>
        ensures { option_map pair_of result ≡ shown_pair self.now index }
    {
        self.last?;
        let reader = &self.reader;
        exported_pair(
            reader.mode(),
            self.shown_result(),
            &reader.pairs(),
            reader.has_fen(),
            index,
        )
    }

    // Returns what a missing Result is after the item given last.
    fn shown_result(&self) -> MissingResult
        ensures { known_result (missing_of result) ≡ shown_result self.now }
    {
        let missing = self.reader.missing_result();
        match self.last {
            Some(Item::Marker(marker)) => missing.with_marker(marker),
            _ => missing,
        }
    }

    /// From now on a missing Result takes the marker that ends its game.
    pub fn take_marker_for_missing_result(&mut self)
        ensures only_switch { self.new ≡ current_by_marker self.old }
        ensures silent { self.old.reading.writing.is_silent ≡ true }
    {
        self.reader
            .count_missing_result_as(MissingResult::TakesTheMarker);
    }

    /// Writes the tag section.
    pub fn write_tags<W: Sink>(&self, out: &mut W) -> Result<(), WriteFault>
        ensures { WritesText (device W.taken W.failures out.old out.new) result
            (shown_section self.now) }
    {
        if self.last.is_none() {
            return Ok(());
        }
        let reader = &self.reader;
        write_section(
            reader.mode(),
            self.shown_result(),
            &reader.pairs(),
            reader.has_fen(),
            out,
        )
    }

    /// Returns the position after the items given.
    pub fn position(&self) -> Option<&Position>
        ensures { option_copied result ≡ shown_position self.now }
    {
        self.last?;
        match move_of(self.pending) {
            Some(_) => Some(self.reader.position_before()),
            None => Some(self.reader.position()),
        }
    }

    /// Returns the position after the moves that were read.
    pub fn last_position(&self) -> &Position
        ensures { result.now ≡ self.now.reading.text.levels.current.position }
    {
        self.reader.position()
    }

    /// Returns the position before the move just given.
    pub fn position_before(&self) -> Option<&Position>
        ensures position { option_copied result ≡ position_before_move self.now }
        ensures legal { IsLegalIfMove self.now }
    {
        match move_of(self.last) {
            Some(_) => Some(self.reader.position_before()),
            None => None,
        }
    }

    /// Returns the number of variations that are open after the items given.
    pub fn depth(&self) -> usize
        ensures { result ≡ shown_depth self.now }
    {
        if self.last.is_none() || self.pending.is_some() {
            return 0;
        }
        self.reader.depth()
    }

    /// Returns the move just given in SAN.
    pub fn san(&self, probes: &mut Probes) -> Option<ArrayVec<u8, 7>>
        requires { probes.old + 1032 < 2 ^ 32 }
        ensures text { option_map (λ text. text.items) result ≡ shown_san self.now }
        ensures pairs { CountsSan self.now probes.old probes.new }
        ensures bound { probes.new ≤ probes.old + 1032 }
    {
        match move_of(self.last) {
            Some(mv) => {
                let before = self.reader.position_before();
                Some(write_san_of(before, &mv, self.reader.position(), false, probes))
            }
            None => None,
        }
    }

    /// Returns the move just given in UCI notation.
    pub fn uci(&self) -> Option<ArrayVec<u8, 5>>
        ensures { option_map (λ text. text.items) result ≡ shown_uci self.now }
    {
        match move_of(self.last) {
            Some(mv) => Some(write_uci(&mv)),
            None => None,
        }
    }

    /// Returns the text of the word just given.
    pub fn word(&self) -> &[u8]
        ensures { result.now ≡ shown_word self.now }
    {
        match self.last {
            Some(Item::Word) => self.word.as_slice(),
            _ => &[],
        }
    }

    /// Returns the number of games whose marker was given.
    pub fn games(&self) -> u64
        ensures { result ≡ shown_games self.now }
    {
        match self.pending {
            Some(Item::Marker(_)) => self.games.saturating_sub(1),
            _ => self.games,
        }
    }

    /// Whether movetext has begun.
    #[inline(always)]
    pub fn is_in_movetext(&self) -> bool
        ensures { IsTrue result ↔ (self.now.reading.stage ≡ InMovetext) }
    {
        self.reader.is_in_movetext()
    }

    /// Takes a token, and returns the item that it gives, if it gives one.
    ///
    /// # Errors
    ///
    /// The row of the fault table that rejects the token.
    pub fn take(&mut self, kind: TokenKind<'_>) -> Result<Option<Item>, Reason>
        requires pending { self.old.pending ≡ None }
        requires plies { self.old.reading.earlier_plies + self.old.reading.text.plies < 2 ^ 64 - 1 }
        requires games { self.old.games < 2 ^ 64 - 1 }
        requires token { HasLength (kind_of kind) }
        ensures { TakesItem self.old (kind_of kind.entry) self.new result }
    {
        let begun = self.reader.is_in_movetext();
        self.last = None;
        self.pending = None;
        match self.reader.accept(kind) {
            Err(reason) => Err(reason),
            Ok(None) => Ok(None),
            Ok(Some(event)) => match event {
                Event::Word(text) => {
                    self.keep_word(text);
                    Ok(self.give(begun, Some(Item::Word)))
                }
                Event::Marker(marker) => {
                    self.games += 1;
                    Ok(self.give(begun, Some(Item::Marker(marker))))
                }
                _ => Ok(self.give(begun, item_of(&event))),
            },
        }
    }

    // Gives an item, and where movetext begins with it first the tags.
    fn give(&mut self, begun: bool, item: Option<Item>) -> Option<Item>
        requires played { IsPlayedItem self.old.reading item }
        requires whole { IsTrue (has_whole_pairs self.old.reading.stage) }
        ensures result { result ≡ given_first begun item }
        ensures current { self.new ≡ record self.old {
          last = given_first begun item;
          pending = given_second begun item;
        } }
    {
        let again = item;
        if begun {
            self.last = item;
            self.pending = None;
            return again;
        }
        self.pending = item;
        self.last = Some(Item::Tags);
        Some(Item::Tags)
    }

    /// Gives the item that was read and is given next, if there is one.
    pub fn give_next(&mut self) -> Option<Item>
        ensures item { result ≡ self.old.pending }
        ensures current { self.new ≡ giving_next self.old }
    {
        let next = self.pending;
        if next.is_some() {
            self.last = self.pending;
            self.pending = None;
        }
        next
    }

    /// From now on no item was given last.
    pub fn forget_last(&mut self)
        requires { self.old.pending ≡ None }
        ensures { self.new ≡ record self.old { last = None } }
    {
        self.last = None;
    }

    // Keeps the text of a word.
    fn keep_word(&mut self, text: &[u8])
        requires { length text.now ≤ 79 }
        ensures { self.new ≡ record self.old { word = text.now } }
    {
        self.word.clear();
        let _ = self.word.try_extend_from_slice(text);
    }
}

// Returns the move, if the item is one.
fn move_of(item: Option<Item>) -> Option<Move>
    ensures { result ≡ shown_move item }
{
    match item? {
        Item::Move(mv) => Some(mv),
        _ => None,
    }
}

// Returns the item that an event gives, if it gives one.
fn item_of(event: &Event<'_>) -> Option<Item>
    ensures { result ≡ item_meant event.now }
{
    match *event {
        Event::Number => None,
        Event::Move(mv, _) => Some(Item::Move(mv)),
        Event::Glyph(glyph) => Some(Item::Glyph(glyph)),
        Event::CommentOpen => Some(Item::CommentOpen),
        Event::Word(_) => Some(Item::Word),
        Event::CommentClose => Some(Item::CommentClose),
        Event::Open => Some(Item::Open),
        Event::Close => Some(Item::Close),
        Event::Marker(marker) => Some(Item::Marker(marker)),
    }
}

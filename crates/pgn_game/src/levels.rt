//! The levels of movetext: the game's own, and those of the variations that are open.
ghost use Rattle.std.specs.Prelude.{◌≡◌, ◌+◌, ◌-◌, ◌^◌, ◌<◌, ◌≤◌, None, Some, IsSome, IsTrue, is_some, length};
ghost use Rattle.chess_rules.specs.Legal.{is_legal};
ghost use Rattle.pgn_game.specs.declared.event.Event.TheVariants as events;
ghost use Rattle.pgn_game.specs.games.Chess.{first_position};
ghost use Rattle.pgn_game.specs.steps.ItemResult.{Annotates, Plays};
ghost use Rattle.pgn_game.specs.steps.Movetext.{level_of, movetext_after_fen, movetext_from, IsDepth};

use arrayvec::ArrayVec;
use chess_rules::{Move, Position, position_after};
use std::marker::Model;

/// A level: the current position, and the one before its last move, if it has a move.
#[derive(Clone, Copy)]
struct Level {
    position: Position,
    before: Option<Position>,
}

impl Level {
    // A level at this position, without a move.
    fn at(position: Position) -> Level
        ensures { result ≡ record { position = position; before = None } }
    {
        Level {
            position,
            before: None,
        }
    }
}

/// The levels of the current game: at least one and at most `L`.
#[derive(Drop)]
pub struct Levels<const L: usize> {
    // The main line first, the current level last. Each is `Some`: so the blank places of the
    // vector are zeros, and the toolchain makes a new one by a single call of `memset`.
    levels: ArrayVec<Option<Level>, L>,
    // The number of moves outside variations.
    plies: u64,
}

impl<const L: usize> Model for Levels<L> {
    ghost use Rattle.std.specs.Prelude.{false};
    ghost use Rattle.pgn_game.specs.steps.Movetext.{Movetext, FitsLevelStore, code_levels};

    ghost Value = { Movetext };

    ghost view = { λ l. record {
      levels = code_levels l.levels.items;
      plies = l.plies;
      is_after_move = false;
    } };

    ghost invariant = { λ l. FitsLevelStore L l.levels.items };
}

impl<const L: usize> Levels<L> {
    /// Returns the main line alone, at the usual first position.
    pub fn new() -> Self
        requires { 1 ≤ L }
        ensures { result ≡ movetext_from first_position }
    {
        let mut levels = ArrayVec::new();
        levels.push(Some(Level::at(Position::initial())));
        Levels { levels, plies: 0 }
    }

    /// Begins a game: the main line alone, at this position.
    pub fn begin(&mut self, start: Position)
        ensures { self.new ≡ movetext_from start }
    {
        self.levels.clear();
        self.levels.push(Some(Level::at(start)));
        self.plies = 0;
    }

    /// Begins a game at the position of a FEN. Without one nothing changes.
    pub fn begin_at(&mut self, start: Option<Position>)
        ensures { self.new ≡ movetext_after_fen start self.old }
    {
        match start {
            Some(start) => self.begin(start),
            None => {}
        }
    }

    // The current level.
    #[inline(always)]
    fn current(&self) -> &Level
        ensures { level_of result.now ≡ self.now.levels.current }
    {
        let levels = self.levels.as_slice();
        match &levels[levels.len() - 1] {
            Some(level) => level,
            None => unreachable!(),
        }
    }

    /// Returns the position of the current level.
    #[inline(always)]
    pub fn position(&self) -> &Position
        ensures { result.now ≡ self.now.levels.current.position }
    {
        &self.current().position
    }

    /// Returns the position before the last move of the current level.
    #[inline(always)]
    pub fn before(&self) -> &Position
        requires { IsSome self.now.levels.current.before }
        ensures { self.now.levels.current.before ≡ Some result.now }
    {
        match &self.current().before {
            Some(before) => before,
            None => unreachable!(),
        }
    }

    /// Returns the number of moves outside variations.
    pub fn plies(&self) -> u64
        ensures { result ≡ self.now.plies }
    {
        self.plies
    }

    /// Returns how many variations are open.
    #[inline(always)]
    pub fn depth(&self) -> usize
        ensures { IsDepth L self.now.levels.around result }
    {
        self.levels.len() - 1
    }

    /// Whether a move was played at the current level.
    #[inline(always)]
    pub fn has_own_move(&self) -> bool
        ensures { result ≡ is_some self.now.levels.current.before }
    {
        self.current().before.is_some()
    }

    /// Plays a legal move, and counts it outside variations.
    #[inline(always)]
    pub fn play(&mut self, mv: &Move)
        requires legal { IsTrue (is_legal self.old.levels.current.position mv.now) }
        requires few { self.old.plies < 2 ^ 64 - 1 }
        ensures { Plays mv.now self.old self.new }
    {
        let next = position_after(self.position(), mv);
        self.step(next);
        if self.depth() == 0 {
            self.plies += 1;
        }
    }

    // Goes on with the current level at this position.
    #[inline(always)]
    fn step(&mut self, next: Position)
        ensures { self.new ≡ record self.old {
          levels = record {
            current = record { position = next; before = Some self.old.levels.current.position };
            around = self.old.levels.around;
          };
        } }
    {
        let last = self.levels.len() - 1;
        let Some(level) = &mut self.levels[last] else {
            unreachable!()
        };
        level.before = Some(level.position);
        level.position = next;
    }

    /// Opens a variation, which begins before the last move of the current level.
    pub fn open(&mut self)
        requires before { IsSome self.old.levels.current.before }
        requires room { length self.old.levels.around + 1 < L }
        ensures { Annotates events.Open self.old self.new }
    {
        if let Some(start) = self.current().before {
            self.levels.push(Some(Level::at(start)));
        }
    }

    /// Closes the current variation: the level around it goes on.
    pub fn close(&mut self)
        requires { 0 < length self.old.levels.around }
        ensures { Annotates events.Close self.old self.new }
    {
        let _ = self.levels.pop();
    }
}

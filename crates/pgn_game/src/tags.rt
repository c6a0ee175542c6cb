//! The tag pairs of one game, and the order of their names.
ghost use Rattle.std.specs.Prelude.{◌≡◌, ◌+◌, ◌≤◌, ◌↔◌, [], IsTrue, IfSome, IsSome, IsSomeAnd, Some, None, bytes_eq, codes, length};
ghost use Rattle.pgn_layout.specs.TagLine.{escaped};
ghost use Rattle.pgn_game.specs.games.Pairs.{has_pair, insert_pair};
ghost use Rattle.pgn_game.specs.steps.StoredPairs.{FindResult, MayBegin, ValueResult};

use crate::ordered::{OrderedPairs, find, value_in};
use crate::pair::TagPair;
use arrayvec::ArrayVec;
use std::marker::Model;

/// The tag pairs of one game, at most `T`. One more has a name and no value yet, if there is room.
#[derive(Drop)]
pub struct TagPairs<const T: usize> {
    // As they were read. Those after the pairs of the game are of earlier games, and are written
    // over.
    stored: ArrayVec<TagPair, T>,
    // Where the pairs of the game are stored, in the order of their names. So a new one moves no
    // other pair.
    order: ArrayVec<usize, T>,
    // How many pairs come before the name that has no value yet, which is stored after them.
    place: usize,
    has_pending_name: bool,
    has_fen: bool,
}

impl<const T: usize> Model for TagPairs<T> {
    ghost use Rattle.std.specs.Prelude.{length};
    ghost use Rattle.pgn_game.specs.steps.StoredPairs.{TagPairs as Seen};
    ghost use Rattle.pgn_game.specs.steps.StoredPairs.{pairs_seen, placed, pair_at, FitsPairStore};

    ghost Value = { Seen };

    ghost view = { λ t. pairs_seen (placed t.stored.items t.order.items)
        (pair_at t.stored.items (length t.order.items)) t.has_pending_name };

    ghost invariant = { λ t. FitsPairStore T t.stored.items t.order.items t.place
        t.has_pending_name t.has_fen };
}

impl<const T: usize> TagPairs<T> {
    /// Returns no pairs.
    pub fn new() -> Self
        ensures { result ≡ record { held = []; pending_name = None } }
    {
        TagPairs {
            stored: ArrayVec::new(),
            order: ArrayVec::new(),
            place: 0,
            has_pending_name: false,
            has_fen: false,
        }
    }

    /// Whether there are `T` pairs.
    pub fn is_full(&self) -> bool
        requires { self.now.pending_name ≡ None }
        ensures full { IsTrue result ↔ (length self.now.held ≡ T) }
        ensures room { length self.now.held ≤ T }
    {
        self.order.len() == T
    }

    /// Whether there is a FEN.
    pub fn has_fen(&self) -> bool
        ensures { result ≡ has_pair self.now.held (codes "FEN") }
    {
        self.has_fen
    }

    /// Returns the value of a name, if it has one.
    pub fn value(&self, name: &[u8]) -> Option<&[u8]>
        requires { self.now.pending_name ≡ None }
        ensures { ValueResult self.now.held name.now result }
    {
        value_in(&self.pairs(), name)
    }

    /// Returns the pairs, in the order of their names.
    pub fn pairs(&self) -> OrderedPairs<'_>
        requires { self.now.pending_name ≡ None }
        ensures { result ≡ self.now.held }
    {
        OrderedPairs::new(self.stored.as_slice(), self.order.as_slice())
    }

    /// Returns the index of the pair of a name. If there is none, the error is how many pairs come
    /// before the name.
    pub fn find(&self, name: &[u8]) -> Result<usize, usize>
        requires { self.now.pending_name ≡ None }
        ensures { FindResult self.now.held name.now result }
    {
        find(&self.pairs(), name)
    }

    /// Adds a name that has no value yet, and that so many pairs come before.
    pub fn begin(&mut self, name: &[u8], place: usize)
        requires { MayBegin T self.old name.now place }
        ensures { self.new ≡ record { held = self.old.held; pending_name = Some name.now } }
    {
        let count = self.order.len();
        if count == self.stored.len() {
            self.stored.push(TagPair::default());
        }
        let stored = self.stored.as_mut_slice();
        stored[count].set_name(name);
        self.place = place;
        self.has_pending_name = true;
    }

    /// Returns the name that has no value yet.
    pub fn pending_name(&self) -> &[u8]
        requires { IsSome self.now.pending_name }
        ensures { self.now.pending_name ≡ Some result.now }
    {
        self.stored.as_slice()[self.order.len()].name()
    }

    /// Adds the value of the name that has none yet. `is_fen` says whether that name is FEN.
    pub fn complete(&mut self, value: &[u8], is_fen: bool)
        requires fits { IsSomeAnd self.old.pending_name
            (λ name. length name + length (escaped value.now) ≤ 249) }
        requires fen { IfSome self.old.pending_name (λ name. is_fen ≡ bytes_eq name (codes "FEN")) }
        ensures { IfSome self.old.pending_name (λ name. self.new
            ≡ record {
              held = insert_pair (record { name = name; value = value.now }) self.old.held;
              pending_name = None;
            }) }
    {
        let count = self.order.len();
        let stored = self.stored.as_mut_slice();
        stored[count].set_value(value);
        self.order.insert(self.place, count);
        self.has_pending_name = false;
        self.has_fen |= is_fen;
    }

    /// Leaves no pairs. Their room is kept, and later pairs use it again.
    pub fn clear(&mut self)
        ensures { self.new ≡ record { held = []; pending_name = None } }
    {
        self.order.clear();
        self.has_pending_name = false;
        self.has_fen = false;
    }
}

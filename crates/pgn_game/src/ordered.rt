//! Tag pairs in the order of their names, which need not be stored so.
ghost use Rattle.std.specs.Prelude.{◌≡◌, ◌<◌, ◌≤◌, drop, length, slice_index_or, take};
ghost use Rattle.pgn_game.specs.games.Pairs.{comes_before};
ghost use Rattle.pgn_game.specs.steps.StoredPairs.{AreInOrder, FindResult, InOrder, IndexResult};
ghost use Rattle.pgn_game.specs.steps.StoredPairs.{ValueResult, placed};

use crate::pair::TagPair;
use std::marker::Model;

/// The tag pairs of one game, in the order of their names. No two have the same name.
#[derive(Drop)]
pub struct OrderedPairs<'a> {
    stored: &'a [TagPair],
    // Where each pair is stored.
    order: &'a [usize],
}

impl<'a> Model for OrderedPairs<'a> {
    ghost use Rattle.std.specs.Prelude.{List};
    ghost use Rattle.pgn_game.specs.games.Pairs.{Pair};
    ghost use Rattle.pgn_game.specs.steps.StoredPairs.{AreInOrder, placed};

    ghost Value = { List Pair };

    ghost view = { λ p. placed p.stored.now p.order.now };

    ghost invariant = { λ p. AreInOrder p.stored.now p.order.now };
}

impl<'a> OrderedPairs<'a> {
    /// Returns the pairs that are stored at these places.
    #[inline(always)]
    pub fn new(stored: &'a [TagPair], order: &'a [usize]) -> Self
        requires { AreInOrder stored.now order.now }
        ensures { result ≡ placed stored.now order.now }
    {
        OrderedPairs { stored, order }
    }

    /// Returns how many pairs there are.
    #[inline(always)]
    pub fn len(&self) -> usize
        ensures length { result ≡ length self.now }
        ensures order { InOrder self.now }
    {
        self.order.len()
    }

    /// Returns the pair that has this many before it.
    #[inline(always)]
    pub fn at(&self, index: usize) -> &'a TagPair
        requires { index < length self.now }
        ensures { result.now ≡ slice_index_or self.now index result.now }
    {
        let order = self.order;
        &self.stored[order[index]]
    }

    /// Returns the first so many pairs, and those after them.
    pub fn split_at(&self, index: usize) -> (OrderedPairs<'a>, OrderedPairs<'a>)
        requires { index ≤ length self.now }
        ensures front { result.0 ≡ take index self.now }
        ensures back { result.1 ≡ drop index self.now }
    {
        let (front, back) = self.order.split_at(index);
        (
            OrderedPairs::new(self.stored, front),
            OrderedPairs::new(self.stored, back),
        )
    }
}

/// Returns the value of a name among pairs, if it has one.
pub fn value_in<'a>(pairs: &OrderedPairs<'a>, name: &[u8]) -> Option<&'a [u8]>
    ensures { ValueResult pairs.now name.now result }
{
    for index in 0..pairs.len() {
        let pair = pairs.at(index);
        if pair.name() == name {
            return Some(pair.value());
        }
    }
    None
}

/// Returns the index of the pair of a name. If there is none, the error is how many pairs come
/// before the name.
pub fn find(pairs: &OrderedPairs<'_>, name: &[u8]) -> Result<usize, usize>
    ensures { FindResult pairs.now name.now result }
{
    let behind = index_of(pairs, name);
    if behind == 0 {
        return Err(0);
    }
    if pairs.at(behind - 1).name() == name {
        return Ok(behind - 1);
    }
    Err(behind)
}

/// Returns how many pairs come before a name in their order, or have it.
pub fn index_of(pairs: &OrderedPairs<'_>, name: &[u8]) -> usize
    ensures { IndexResult pairs.now name.now result }
{
    let mut low = 0;
    let mut high = pairs.len();
    while low < high {
        let middle = low + (high - low) / 2;
        if is_before(name, pairs.at(middle).name()) {
            high = middle;
        } else {
            low = middle + 1;
        }
    }
    low
}

// Whether a name comes before another in the order of ASCII.
fn is_before(name: &[u8], other: &[u8]) -> bool
    ensures { result ≡ comes_before name.now other.now }
{
    name < other
}

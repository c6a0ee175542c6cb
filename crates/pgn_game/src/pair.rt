//! One tag pair.
ghost use Rattle.std.specs.Prelude.{◌≡◌, ◌+◌, ◌≤◌, [], length};
ghost use Rattle.pgn_layout.specs.TagLine.{escaped};

use arrayvec::ArrayVec;
use std::marker::Model;

/// The most bytes of a name and its value together: their line has no room for more (PGN 4.3).
pub const NAME_OR_VALUE_LENGTH: usize = 249;

/// A tag pair that fits on its line: the bytes of its name, then those of its value.
#[derive(Drop)]
pub struct TagPair {
    text: ArrayVec<u8, NAME_OR_VALUE_LENGTH>,
    name_length: usize,
}

impl Model for TagPair {
    ghost use Rattle.std.specs.Prelude.{◌+◌, ◌≤◌, length, take, drop};
    ghost use Rattle.pgn_layout.specs.TagLine.{escaped};
    ghost use Rattle.pgn_game.specs.games.Pairs.{Pair};
    ghost use Rattle.pgn_game.specs.steps.StoredPairs.{FitsOnLine};

    ghost Value = { Pair };

    ghost view = { λ p. record {
      name = take p.name_length p.text.items;
      value = drop p.name_length p.text.items;
    } };

    ghost invariant = { λ p. FitsOnLine p.name_length p.text.items };
}

impl TagPair {
    /// Puts this name in place of the pair's, and empties its value.
    pub fn set_name(&mut self, name: &[u8])
        requires { length name.now ≤ 249 }
        ensures { self.new ≡ record { name = name.now; value = [] } }
    {
        self.text.clear();
        let _ = self.text.try_extend_from_slice(name);
        self.name_length = name.len();
    }

    /// Puts this value in place of the pair's.
    pub fn set_value(&mut self, value: &[u8])
        requires { length self.old.name + length (escaped value.now) ≤ 249 }
        ensures { self.new ≡ record { name = self.old.name; value = value.now } }
    {
        self.text.truncate(self.name_length);
        let _ = self.text.try_extend_from_slice(value);
    }

    /// Returns the name.
    #[inline(always)]
    pub fn name(&self) -> &[u8]
        ensures name { result.now ≡ self.now.name }
    {
        &self.text.as_slice()[..self.name_length]
    }

    /// Returns the value.
    #[inline(always)]
    pub fn value(&self) -> &[u8]
        ensures value { result.now ≡ self.now.value }
        ensures fits { length self.now.name + length (escaped self.now.value) ≤ 249 }
    {
        &self.text.as_slice()[self.name_length..]
    }
}

impl Default for TagPair {
    fn default() -> Self {
        TagPair {
            text: ArrayVec::new(),
            name_length: 0,
        }
    }
}

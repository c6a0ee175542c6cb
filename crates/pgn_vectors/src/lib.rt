//! Worked inputs of the converter with their outputs, and tests over them.
//!
//! A [`Vector`] is an input in a mode, its whole output, and its verdict: how many games and plies
//! are converted, or where and why the input is rejected. Its values come from the rules of the
//! format, never from a run: `bin/write_vectors` writes `themes` from the data in `vectors/`. All
//! vectors are for a converter with room for T = 64 tag pairs a game and variations to depth
//! D = 32, that is for `convert_slice::<64, 33, _>`.
//!
//! The tests convert each vector as a slice, from a reader, byte by byte, ended at each byte and
//! cut at each byte, and make its export of its items. They also try what no table says: other
//! limits, and the game just finished.
//! Devices that fail are tried by the tests of `pgn_device_tests`, for which this crate exports
//! its tables and its runs. `rt test` proves and runs them; `rt try --test` only runs them.
#![tactic(auto)]

mod runs;
mod themes;
mod vector;

pub use runs::{
    HEAD, LONE_MARKER, Usual, agrees, converted, feed, feed_once, finish, finish_once, verdict_of,
};
pub use themes::tables;
pub use vector::{Vector, Verdict};

#[cfg(test)]
mod tests;

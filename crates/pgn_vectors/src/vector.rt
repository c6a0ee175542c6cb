//! Vectors: inputs with their outputs and verdicts.
use pgn_game::{Mode, Reason};

/// How a conversion ends.
#[derive(Clone, Copy, Debug, PartialEq, Eq)]
pub enum Verdict {
    /// All games are converted: the number of games, and of their plies outside variations.
    Converted { games: u64, plies: u64 },
    /// The input is rejected at this place, for this reason.
    Refused(u64, Reason),
}

/// An input, its output and its verdict.
#[derive(Clone, Copy, Debug)]
pub struct Vector {
    /// The name: what the vector shows.
    pub name: &'static str,
    /// Which parts of the games are written.
    pub mode: Mode,
    /// The whole input.
    pub input: &'static str,
    /// The whole output; for an input that is rejected, the output before its fault.
    pub output: &'static str,
    /// How the conversion ends.
    pub verdict: Verdict,
}

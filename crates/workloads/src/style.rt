//! What the games of an archive look like.

use crate::random::Random;

/// A kind of archive.
#[derive(Clone, Copy, PartialEq, Eq)]
pub enum Style {
    /// The roster, up to ten more tags, and a main line.
    Plain,
    /// A server's dump: 18 tags, and a clock at each ply.
    Server,
    /// Studies and books: comments, NAGs and variations.
    Annotated,
    /// A FEN, and a few plies.
    Puzzles,
    /// Many tags with escaped values, variations in variations, and long words.
    Stress,
}

/// How a game of an archive is written.
#[derive(Clone, Copy)]
pub struct Writing {
    pub style: Style,
    /// Black has the first move.
    pub is_black_first: bool,
    /// Behind a number there is no space.
    pub is_compact: bool,
    /// A number stands before each move.
    pub numbers_all: bool,
    /// No move has a mark for check.
    pub drops_marks: bool,
    /// A single step of a pawn is written with its origin.
    pub names_origins: bool,
    /// There are evaluations beside the clocks.
    pub has_scores: bool,
    /// The last ply of a game that is cut.
    pub cut: usize,
}

/// How the next game of an archive is written, of so many plies.
pub fn next_writing(
    style: Style,
    is_black_first: bool,
    plies: usize,
    random: &mut Random,
) -> Writing {
    Writing {
        style,
        is_black_first,
        is_compact: random.once_in(3),
        numbers_all: style == Style::Server || random.once_in(6),
        drops_marks: random.once_in(8),
        names_origins: random.once_in(8),
        has_scores: random.once_in(4),
        cut: plies.saturating_sub(random.below(plies / 2)),
    }
}

//! Where reading goes on after a bad game.
//!
//! A bad game says nothing sure of its end, so its end is a guess: before the next line that begins
//! a tag section. [`next_section`] reads a whole text, a [`BadGame`] the whole lines of a text in
//! pieces, and a [`SectionSearch`] pieces that are cut anywhere. They never allocate, and claim
//! nothing of what stands at the place that they return.
#![tactic(auto)]

ghost use Rattle.std.specs.Prelude.{◌≡◌, ◌<◌, IfSome};
ghost use Rattle.pgn_sections.specs.Lines.{next_place};

mod bad_game;
mod bytes;
mod line;
mod lines;
mod outside;
mod pair;
mod search;
mod tag_line;
mod text;

pub use crate::bad_game::{BadGame, Ends};
pub use crate::search::SectionSearch;

/// Returns where reading goes on after a bad game, by guess.
///
/// `begin` is where the game before ends, and `fault` the place of the fault. Places are byte
/// offsets in the text. The result lies above `begin`. It is `None` if no line of the text shows
/// where the bad game ends: then all the rest belongs to it.
///
/// # Examples
///
/// ```
/// use pgn_sections::next_section;
///
/// let text = b"1. e4 e9 2. d4 *\n\n[White \"Ada\"]\n\n1. d4 *\n";
/// assert_eq!(next_section(text, 0, 6), Some(18));
/// assert_eq!(next_section(text, 18, 34), None);
/// ```
pub fn next_section(text: &[u8], begin: usize, fault: usize) -> Option<usize>
    ensures place { result ≡ next_place text.now begin fault }
    ensures above { IfSome result (λ place. begin < place) }
{
    if text.len() < begin {
        return None;
    }
    BadGame::new(begin, fault).next_section(&text[begin..], true)
}

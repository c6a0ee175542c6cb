//! The notations of moves, and the move that a text in one of them names.
ghost use Rattle.std.specs.Prelude.{◌≡◌, ◌<◌, ◌≤◌, ◌+◌, ◌^◌, Some, IfOk};
ghost use Rattle.chess_rules.specs.Legal.{legal};
ghost use Rattle.chess_text.specs.Uci.{move_of_uci};
ghost use Rattle.pgn_game.specs.public.FoundMove.{found_in};
ghost use Rattle.pgn_game.specs.public.Notations as spec;
ghost use Rattle.pgn_game.specs.public.Tried.{AddsPairs};
ghost use Rattle.pgn_game.specs.declared.notation.Notation.TheVariants.{Uci};

use crate::find::{find_move, is_at_limit};
use crate::reason::Reason;
use chess_rules::{Position, Probes};
use chess_text::{Played, UciFault, read_uci};

/// How the text of a move is written.
#[derive(Clone, Copy, Debug, PartialEq, Eq)]
pub enum Notation {
    /// Standard algebraic notation, as a PGN has it: `Nf3` (PGN 8.2.3). Longer texts such as
    /// `Ng1f3` and `e2e4` are read too.
    San,
    /// That of engines, read exactly: `g1f3`, `a7a8q` (Universal Chess Interface, "Move format").
    Uci,
}

/// Returns the one legal move that a text in this notation names, with the position after it.
///
/// This adds the pairs that it tries to the count of `probes`, also on an error. In SAN they are
/// those of [`find_move`]. In UCI it is one, or none for a text of no move. They are at most 8, and
/// the count must have room for 8.
///
/// # Errors
///
/// - `Reason::NotAMove` if the text is that of no move in this notation.
/// - `Reason::IllegalMove` if no legal move has this text.
/// - `Reason::AmbiguousMove` if more than one has it. Never in UCI.
/// - `Reason::MoveLimit` if the number of the next move would be above 99,999.
///
/// # Examples
///
/// ```
/// use chess_rules::{Position, Probes};
/// use pgn_game::{Notation, Reason, read_move};
///
/// let position = Position::initial();
/// let mut probes = Probes::new();
/// let mut read = |text: &[u8], notation| {
///     read_move(&position, text, notation, &mut probes).map(|played| played.next.half())
/// };
/// assert_eq!(read(b"Nf3", Notation::San), Ok(1));
/// assert_eq!(read(b"g1f3", Notation::Uci), Ok(1));
/// assert_eq!(read(b"g1f3", Notation::San), Err(Reason::IllegalMove));
/// assert_eq!(read(b"Nf3", Notation::Uci), Err(Reason::NotAMove));
/// assert_eq!(probes.count(), 5);
/// ```
pub fn read_move(
    position: &Position,
    text: &[u8],
    notation: Notation,
    probes: &mut Probes,
) -> Result<Played, Reason>
    // Cargo: assert!(u32::MAX - probes.count() >= 8, "the count of Probes has room for 8 more")
    requires { probes.old + 8 < 2 ^ 32 }
    ensures named { result ≡ spec.named_in notation position.now text.now }
    ensures legal { IfOk result (λ played. legal position.now played.mv ≡ Some played.next) }
    ensures tried { AddsPairs (spec.CostsIn notation position.now text.now) probes.old probes.new }
    ensures bound { probes.new ≤ probes.old + 8 }
{
    match notation {
        Notation::San => find_move(position, text, probes),
        Notation::Uci => find_uci(position, text, probes),
    }
}

// Returns the legal move with this text in UCI, with the position after it.
fn find_uci(position: &Position, text: &[u8], probes: &mut Probes) -> Result<Played, Reason>
    requires { probes.old + 8 < 2 ^ 32 }
    ensures found { result
        ≡ found_in position.now (spec.meaning_of (move_of_uci position.now text.now)) }
    ensures legal { IfOk result (λ played. legal position.now played.mv ≡ Some played.next) }
    ensures count { probes.new ≡ probes.old + spec.uci_pairs (move_of_uci position.now text.now) }
    ensures bound { probes.new ≤ probes.old + 8 }
{
    match read_uci(position, text, probes) {
        Err(UciFault::NotAMove) => Err(Reason::NotAMove),
        Err(UciFault::IllegalMove) => Err(Reason::IllegalMove),
        Ok(played) => {
            if is_at_limit(position) {
                return Err(Reason::MoveLimit);
            }
            Ok(played)
        }
    }
}

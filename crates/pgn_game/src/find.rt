//! The move that a symbol in movetext names.
ghost use Rattle.std.specs.Prelude.{◌≡◌, ◌<◌, ◌≤◌, ◌+◌, ◌^◌, Some, IfOk, OnOk};
ghost use Rattle.chess_rules.specs.Legal.{legal};
ghost use Rattle.pgn_game.specs.games.Chess.{move_of};
ghost use Rattle.pgn_game.specs.games.FaultTable as spec;
ghost use Rattle.pgn_game.specs.public.FoundMove.{found_in};
ghost use Rattle.pgn_game.specs.public.Tried.{AddsPairs, Costs};
ghost use Rattle.pgn_game.specs.steps.TokenTaken.{NamesMove};

use crate::reason::Reason;
use chess_rules::{Colour, Move, Position, Probes, position_after};
use chess_text::{Played, SanFault, read_form, resolve_move};

/// Returns the one legal move that the text names in this position (PGN 8.2.3).
///
/// This adds the pairs that it tries to the count of `probes`, also on an error. They are at most
/// 8, and the count must have room for 8.
///
/// # Errors
///
/// - `Reason::NotAMove` if the text is no form of a move.
/// - `Reason::IllegalMove` if no legal move has this form.
/// - `Reason::AmbiguousMove` if more than one has it.
/// - `Reason::MoveLimit` if the number of the next move would be above 99,999.
///
/// # Examples
///
/// ```
/// use chess_rules::{Position, Probes};
/// use pgn_game::{Reason, find_move};
///
/// let position = Position::initial();
/// let mut probes = Probes::new();
/// assert!(find_move(&position, b"Nf3", &mut probes).is_ok());
/// assert_eq!(probes.count(), 1);
/// let fault = find_move(&position, b"Nd2", &mut probes).err();
/// assert_eq!(fault, Some(Reason::IllegalMove));
/// assert_eq!(probes.count(), 2);
/// ```
pub fn find_move(position: &Position, text: &[u8], probes: &mut Probes) -> Result<Played, Reason>
    // Cargo: assert!(u32::MAX - probes.count() >= 8, "the count of Probes has room for 8 more")
    requires { probes.old + 8 < 2 ^ 32 }
    ensures found { result ≡ found_in position.now (move_of position.now text.now) }
    ensures legal { IfOk result (λ played. legal position.now played.mv ≡ Some played.next) }
    ensures tried { AddsPairs (Costs position.now text.now) probes.old probes.new }
    ensures bound { probes.new ≤ probes.old + 8 }
    ensures some { OnOk result (probes.old < probes.new) }
{
    match named_move(position, text, probes) {
        Err(reason) => Err(reason),
        Ok(mv) => {
            let next = position_after(position, &mv);
            Ok(Played { mv, next })
        }
    }
}

/// Returns the one legal move that the text names, as [`find_move`] does, without the position
/// after it (PGN 8.2.3).
///
/// # Errors
///
/// Those of [`find_move`].
pub(crate) fn named_move(
    position: &Position,
    text: &[u8],
    probes: &mut Probes,
) -> Result<Move, Reason>
    requires { probes.old + 8 < 2 ^ 32 }
    ensures { NamesMove position.now text.now result probes.old probes.new }
{
    let Some(form) = read_form(text) else {
        return Err(Reason::NotAMove);
    };
    let mv = match resolve_move(position, &form, probes) {
        Ok(mv) => mv,
        Err(SanFault::NoMove) => return Err(Reason::IllegalMove),
        Err(SanFault::Ambiguous) => return Err(Reason::AmbiguousMove),
    };
    if is_at_limit(position) {
        return Err(Reason::MoveLimit);
    }
    Ok(mv)
}

/// Whether a move from here would lead to a number above 99,999.
pub(crate) fn is_at_limit(position: &Position) -> bool
    ensures { result ≡ spec.is_at_limit position.now }
{
    position.side() == Colour::Black && position.full() == 99_999
}

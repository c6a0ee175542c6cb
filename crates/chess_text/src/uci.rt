//! Moves in UCI, the Universal Chess Interface, in which engines and test sets write moves. (Its
//! protocol, "Move format")

ghost use Rattle.std.specs.Prelude.{◌≡◌, ◌≢◌, ◌+◌, ◌<◌, ◌≤◌, ◌^◌, [], ◌∷◌, Err, IfOk, Some, length};
ghost use Rattle.chess_rules.specs.Legal.{legal};
ghost use Rattle.chess_text.specs.MoveOfForm.{with_next};
ghost use Rattle.chess_text.specs.Uci as spec;
ghost use Rattle.chess_text.specs.declared.uci.UciFault.TheVariants.{NotAMove};

use crate::form::square_of;
use crate::letter::push_square;
use crate::resolution::play;
use arrayvec::ArrayVec;
use chess_rules::{Move, Played, Position, Probes, Promotion, Square, try_pair};

/// Why a text in UCI names no legal move.
#[derive(Clone, Copy, PartialEq, Eq, Debug)]
pub enum UciFault {
    /// The text is not that of any move.
    NotAMove,
    /// The text is that of a move which is not legal in the position.
    IllegalMove,
}

/// Writes UCI: returns the text of a move, 4 or 5 bytes, as `e2e4` or `a7a8q`. (UCI, Move format)
///
/// That is the origin, the target, and for a promotion `q`, `r`, `b` or `n`. Castling is the king's
/// move, as `e1g1`. A capture, a check and mate have no sign.
///
/// Two different legal moves of a position have different texts. [`read_uci`] reads the text of a
/// legal move as this move. The laws [`uci_texts_differ`](crate::laws::uci_texts_differ) and
/// [`a_written_uci_is_read_as_itself`](crate::laws::a_written_uci_is_read_as_itself) say so.
///
/// # Examples
///
/// ```
/// use chess_rules::{Move, Promotion, Square};
/// use chess_text::write_uci;
///
/// let mv = Move {
///     from: Square::new(0, 6).unwrap(),
///     to: Square::new(0, 7).unwrap(),
///     promotion: Some(Promotion::Queen),
/// };
/// assert_eq!(write_uci(&mv).as_slice(), b"a7a8q");
/// ```
pub fn write_uci(mv: &Move) -> ArrayVec<u8, 5>
    ensures text { result.items ≡ spec.uci mv.now }
    ensures least { 4 ≤ length result.items }
    ensures most { length result.items ≤ 5 }
{
    let mut text = ArrayVec::new();
    push_square(&mut text, mv.from);
    push_square(&mut text, mv.to);
    if let Some(promotion) = mv.promotion {
        text.push(small_letter(promotion));
    }
    text
}

fn small_letter(promotion: Promotion) -> u8
    ensures { spec.uci_promotion (Some promotion) ≡ result ∷ [] }
{
    match promotion {
        Promotion::Queen => b'q',
        Promotion::Rook => b'r',
        Promotion::Bishop => b'b',
        Promotion::Knight => b'n',
    }
}

/// Reads UCI: returns the legal move with this text, and the position after it. (UCI, Move format)
///
/// The text is exactly that of [`write_uci`]: the origin, the target, and the letter of a
/// promotion. All letters are small. Castling is the king's move, as `e1g1`. With another piece on
/// e1, that text is the move of this piece. The law [`uci_is_exact`](crate::laws::uci_is_exact)
/// says of each text what is returned.
///
/// This counts the pair that it tries: one, or none if the text is not that of a move. The count
/// must have room for one.
///
/// # Errors
///
/// - `NotAMove` exactly if the text is not that of any move. `E2E4`, `a7a8k`, `e2e`, `O-O` and the
///   null move `0000` are such texts.
/// - `IllegalMove` exactly if it is the text of a move that is not legal in the position. So it is
///   reported of a promotion without its letter, and of another move with one.
///
/// # Examples
///
/// ```
/// use chess_rules::{Position, Probes};
/// use chess_text::{UciFault, read_uci, write_san};
///
/// let position = Position::initial();
/// let mut probes = Probes::new();
/// let played = read_uci(&position, b"g1f3", &mut probes).unwrap();
/// assert_eq!(write_san(&position, &played, &mut probes).as_slice(), b"Nf3");
/// let fault = |text: &[u8]| read_uci(&position, text, &mut Probes::new()).err();
/// assert_eq!(fault(b"e2e4q"), Some(UciFault::IllegalMove));
/// assert_eq!(fault(b"Nf3"), Some(UciFault::NotAMove));
/// ```
pub fn read_uci(position: &Position, text: &[u8], probes: &mut Probes) -> Result<Played, UciFault>
    // Cargo: assert!(u32::MAX - probes.count() >= 1, "the count of Probes has room for 1 more")
    requires { probes.old + 1 < 2 ^ 32 }
    ensures answer { result ≡ spec.move_of_uci position.now text.now }
    ensures legal { IfOk result (λ played. legal position.now played.mv ≡ Some played.next) }
    ensures none { result ≡ Err NotAMove → probes.new ≡ probes.old }
    ensures one { result ≢ Err NotAMove → probes.new ≡ probes.old + 1 }
    ensures bound { probes.new ≤ probes.old + 1 }
{
    match move_of(text) {
        None => Err(UciFault::NotAMove),
        Some(mv) => play_if_legal(position, &mv, probes).ok_or(UciFault::IllegalMove),
    }
}

// The move with the position after it, if it is legal.
fn play_if_legal(position: &Position, mv: &Move, probes: &mut Probes) -> Option<Played>
    requires { probes.old + 1 < 2 ^ 32 }
    ensures played { result ≡ with_next mv.now (legal position.now mv.now) }
    ensures count { probes.new ≡ probes.old + 1 }
{
    if try_pair(position, *mv, probes).is_some() {
        Some(play(position, *mv))
    } else {
        None
    }
}

// The move with this text.
fn move_of(text: &[u8]) -> Option<Move>
    ensures { result ≡ spec.move_with_text text.now }
{
    if text.len() < 4 {
        return None;
    }
    let from = square_named(text[0], text[1])?;
    let to = square_named(text[2], text[3])?;
    let promotion = promotion_named(&text[4..])?;
    Some(Move {
        from,
        to,
        promotion,
    })
}

// The square with this text.
#[tactic(auto, using(crate::proofs::names::UciToMove::square_by_bytes))]
fn square_named(file: u8, rank: u8) -> Option<Square>
    ensures { result ≡ spec.square_named file rank }
{
    square_of(file, rank)
}

// The promotion with this text, or none.
fn promotion_named(text: &[u8]) -> Option<Option<Promotion>>
    ensures { result ≡ spec.promotion_named text.now }
{
    match *text {
        [] => Some(None),
        [b'q'] => Some(Some(Promotion::Queen)),
        [b'r'] => Some(Some(Promotion::Rook)),
        [b'b'] => Some(Some(Promotion::Bishop)),
        [b'n'] => Some(Some(Promotion::Knight)),
        _ => None,
    }
}

//! What a move's text means in a position, as C gets it.
ghost use Rattle.std.specs.Prelude.{◌≡◌, map};
ghost use Rattle.chess_text.specs.Form.{form_of};
ghost use Rattle.chess_text.specs.Letter.{letter as letter_of};
ghost use Rattle.pgn_c.specs.Explanation as spec;

use crate::pgn_result::{FAULT, OK};
use chess_rules::{Kind, Position, Probes, Square};
use chess_text::{Form, OriginKind, origins_of_form, read_form};

/// What a move's text means in a position, `struct pgn_explanation` in C.
#[repr(C)]
#[derive(Clone, Copy)]
pub struct PgnExplanation {
    /// 0: the text is a form of a move. 1: there is a fault.
    pub status: u32,
    /// The number of the fault, 26 or 33; 0 where there is none.
    pub fault: u32,
    /// The field of the FEN that is at fault, 1 to 7; 0 where none is.
    pub field: u32,
    /// 1: the move of a piece or a pawn. 2: castling to the king's side, 3: to the queen's.
    pub form: u32,
    /// The piece's letter: `K`, `Q`, `R`, `B`, `N` or `P`.
    pub piece: u32,
    /// The target, 8 times its rank and its file, both from 0.
    pub target: u32,
    /// By square: 0 no step, 1 a step after which the king would be in check, 2 a legal move.
    pub origins: [u8; 64],
}

/// The explanation of the text in this position.
pub fn explain(position: &Position, text: &[u8]) -> PgnExplanation
    ensures { result ≡ spec.explanation_in position.now (form_of text.now) }
{
    match read_form(text) {
        Some(form) => explain_form(position, &form),
        None => no_explanation(33, 0),
    }
}

// The explanation of the form.
fn explain_form(position: &Position, form: &Form) -> PgnExplanation
    ensures { result ≡ spec.form_result position.now form.now }
{
    let kinds = origins_of_form(position, form, &mut Probes::new());
    PgnExplanation {
        status: OK,
        fault: 0,
        field: 0,
        form: form_number(form),
        piece: letter(form.kind()) as u32,
        target: square_number(form.target(position.side())),
        origins: origin_numbers(&kinds),
    }
}

fn form_number(form: &Form) -> u32
    ensures { result ≡ spec.form_number form.now }
{
    match *form {
        Form::Man { .. } => 1,
        Form::Castle { long } => { if long { 3 } else { 2 } }
    }
}

fn letter(kind: Kind) -> u8
    ensures { result ≡ letter_of kind }
{
    match kind {
        Kind::King => b'K',
        Kind::Queen => b'Q',
        Kind::Rook => b'R',
        Kind::Bishop => b'B',
        Kind::Knight => b'N',
        Kind::Pawn => b'P',
    }
}

fn square_number(square: Square) -> u32
    ensures { result ≡ spec.square_number square }
{
    8 * square.rank() as u32 + square.file() as u32
}

fn origin_numbers(kinds: &[OriginKind; 64]) -> [u8; 64]
    ensures { result ≡ map spec.origin_number kinds.now }
{
    let mut numbers = [0; 64];
    for index in 0..64 {
        numbers[index] = origin_number(kinds[index]);
    }
    numbers
}

fn origin_number(kind: OriginKind) -> u8
    ensures { result ≡ spec.origin_number kind }
{
    match kind {
        OriginKind::NoStep => 0,
        OriginKind::Unsafe => 1,
        OriginKind::Legal => 2,
    }
}

/// The result for a fault: of the FEN, in this field, or of the text.
pub fn no_explanation(fault: u32, field: u8) -> PgnExplanation
    ensures { result ≡ spec.fault_result fault field }
{
    PgnExplanation {
        status: FAULT,
        fault,
        field: field as u32,
        form: 0,
        piece: 0,
        target: 0,
        origins: [0; 64],
    }
}

//! Side, castling rights, en passant target and numbers, as fields of a FEN. (PGN 16.1.3.2 to
//! 16.1.3.6)

ghost use Rattle.std.specs.Prelude.{◌≡◌, ◌≤◌, ◌+◌, ◌++◌, ◌∷◌, [], length};
ghost use Rattle.chess_text.specs.Field as spec;

use arrayvec::ArrayVec;
use chess_rules::{Colour, Rights, Square};

// Reads a side: `w` or `b`. (PGN 16.1.3.2)
pub(crate) fn read_side(text: &[u8]) -> Option<Colour>
    ensures { result ≡ spec.side_of text.now }
{
    if text == b"w".as_slice() {
        Some(Colour::White)
    } else if text == b"b".as_slice() {
        Some(Colour::Black)
    } else {
        None
    }
}

// The letter of a side. (PGN 16.1.3.2)
pub(crate) fn side_letter(side: Colour) -> u8
    ensures { spec.side_text side ≡ result ∷ [] }
{
    match side {
        Colour::White => b'w',
        Colour::Black => b'b',
    }
}

// Reads castling rights: their letters in the order `KQkq`, or a dash for none. (PGN 16.1.3.3)
pub(crate) fn read_rights(text: &[u8]) -> Option<Rights>
    ensures { result ≡ spec.rights_of text.now }
{
    // The most common text needs no look for letters.
    if text == b"-".as_slice() {
        return Some(Rights {
            white_short: false,
            white_long: false,
            black_short: false,
            black_long: false,
        });
    }
    let rights = Rights {
        white_short: text.contains(&b'K'),
        white_long: text.contains(&b'Q'),
        black_short: text.contains(&b'k'),
        black_long: text.contains(&b'q'),
    };
    if text == rights_text(rights).as_slice() {
        Some(rights)
    } else {
        None
    }
}

// The letters of the rights, or a dash. (PGN 16.1.3.3)
pub(crate) fn rights_text(rights: Rights) -> ArrayVec<u8, 4>
    ensures { result.items ≡ spec.rights_text rights }
{
    let mut text = ArrayVec::new();
    if rights.white_short {
        text.push(b'K');
    }
    if rights.white_long {
        text.push(b'Q');
    }
    if rights.black_short {
        text.push(b'k');
    }
    if rights.black_long {
        text.push(b'q');
    }
    if text.is_empty() {
        text.push(b'-');
    }
    text
}

// Reads an en passant target: a square of rank 3 or 6, or a dash for none. (PGN 16.1.3.4)
pub(crate) fn read_target(text: &[u8]) -> Option<Option<Square>>
    ensures { result ≡ spec.target_of text.now }
{
    match *text {
        [b'-'] => Some(None),
        [file @ b'a'..=b'h', rank @ (b'3' | b'6')] => Some(Square::new(file - b'a', rank - b'1')),
        _ => None,
    }
}

// Adds the target's square, or a dash. (PGN 16.1.3.4)
pub(crate) fn push_target(text: &mut ArrayVec<u8, 93>, target: Option<Square>)
    requires { length text.old.items + 2 ≤ 93 }
    ensures { text.new.items ≡ text.old.items ++ spec.target_text target }
{
    match target {
        None => text.push(b'-'),
        Some(square) => {
            text.push(b'a' + square.file());
            text.push(b'1' + square.rank());
        }
    }
}

// Reads a number of 1 to 5 digits. (PGN 16.1.3.5, 16.1.3.6)
pub(crate) fn read_number(text: &[u8]) -> Option<u32>
    ensures { result ≡ spec.number_of text.now }
{
    if text.is_empty() || text.len() > 5 {
        return None;
    }
    let mut number = 0u32;
    for &byte in text {
        if !byte.is_ascii_digit() {
            return None;
        }
        number = 10 * number + u32::from(byte - b'0');
    }
    Some(number)
}

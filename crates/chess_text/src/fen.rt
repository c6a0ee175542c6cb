//! Positions as text: Forsyth-Edwards notation. (PGN 16.1)

ghost use Rattle.std.specs.Prelude.{◌≡◌, ◌≤◌, ◌+◌, ◌++◌, ◌∷◌, Some, length, decimal};
ghost use Rattle.std.specs.List.{before_first, after_first, position_or_len};
ghost use Rattle.chess_text.specs.Fen.{is_space, field, rest, read, if_position, parts_or_fault, fen_text};
ghost use Rattle.chess_text.specs.Field.{side_of, rights_of, target_of, number_of};
ghost use Rattle.chess_text.specs.Placement.{placement_text};

use crate::field::{
    push_target, read_number, read_rights, read_side, read_target, rights_text, side_letter,
};
use crate::placement::{push_board, read_placement};
use arrayvec::ArrayVec;
use chess_rules::{Board, Position};
use itoa::Buffer;

/// Why a text spells no position.
#[derive(Clone, Copy, PartialEq, Eq, Debug)]
pub struct FenFault {
    /// The lowest field that is no spelling, 1 to 6.
    ///
    /// It is 7 if all six are spellings, and the position breaks a rule.
    pub field: u8,
}

/// Reads a FEN: returns the position that the text spells. (PGN 16.1.3)
///
/// The text has six fields with one space between them; what follows the fifth space is the sixth.
/// Two spellings are accepted beside the standard's. Digits may be side by side in the first field.
/// The numbers have 1 to 5 digits, leading zeros included.
///
/// # Errors
///
/// The lowest field that is no spelling, or 7 if the six fields make no position
/// (`Position::build`).
///
/// # Examples
///
/// ```
/// use chess_text::{FenFault, read_fen};
///
/// let position = read_fen(b"8/8/8/8/8/k7/p7/K7 w - - 12 83").unwrap();
/// assert_eq!(position.half(), 12);
/// assert_eq!(position.full(), 83);
/// // The fourth field is the en passant target.
/// assert_eq!(read_fen(b"8/8/8/8/8/k7/p7/K7 w - e9 0 1").err(), Some(FenFault { field: 4 }));
/// ```
pub fn read_fen(text: &[u8]) -> Result<Position, FenFault>
    ensures { result ≡ read text.now }
{
    let mut board = Board::empty();
    let Some(end) = read_placement(text, &mut board) else {
        return Err(FenFault { field: 1 });
    };
    read_on_board(board, text_behind(text, end))
}

// Reads the five fields behind the first one, which spells the board.
fn read_on_board(board: Board, text: &[u8]) -> Result<Position, FenFault>
    ensures { result ≡ if_position (parts_or_fault (Some board) (side_of (field 1 text.now))
        (rights_of (field 2 text.now)) (target_of (field 3 text.now)) (number_of (field 4 text.now))
        (number_of (rest 4 text.now))) }
{
    let Some(side) = read_side(first_field(text)) else {
        return Err(FenFault { field: 2 });
    };
    let text = other_fields(text);
    let Some(rights) = read_rights(first_field(text)) else {
        return Err(FenFault { field: 3 });
    };
    let text = other_fields(text);
    let Some(target) = read_target(first_field(text)) else {
        return Err(FenFault { field: 4 });
    };
    let text = other_fields(text);
    let Some(half) = read_number(first_field(text)) else {
        return Err(FenFault { field: 5 });
    };
    let Some(full) = read_number(other_fields(text)) else {
        return Err(FenFault { field: 6 });
    };
    match Position::build_on(board, side, rights, target, half, full) {
        Ok(position) => Ok(position),
        Err(_) => Err(FenFault { field: 7 }),
    }
}

// The text before the first space.
fn first_field(text: &[u8]) -> &[u8]
    ensures { result.now ≡ before_first is_space text.now }
{
    &text[..field_length(text)]
}

// The text after the first space; empty if there is none.
fn other_fields(text: &[u8]) -> &[u8]
    ensures { result.now ≡ after_first is_space text.now }
{
    text_behind(text, field_length(text))
}

// The same, where it is known that the first space is there, or that the text ends there.
fn text_behind(text: &[u8], end: usize) -> &[u8]
    requires value { end ≡ position_or_len is_space text.now }
    requires within { end ≤ length text.now }
    ensures { result.now ≡ after_first is_space text.now }
{
    if end == text.len() {
        &[]
    } else {
        &text[end + 1..]
    }
}

// How many bytes come before the first space.
fn field_length(text: &[u8]) -> usize
    ensures value { result ≡ position_or_len is_space text.now }
    ensures within { result ≤ length text.now }
{
    for (i, byte) in text.iter().enumerate() {
        if *byte == b' ' {
            return i;
        }
    }
    text.len()
}

/// Writes a FEN: returns the canonical text of the position. (PGN 16.1.3)
///
/// It has the longest runs of empty squares, no leading zeros, and at most 93 bytes.
///
/// # Examples
///
/// ```
/// use chess_rules::Position;
/// use chess_text::write_fen;
///
/// let text = write_fen(&Position::initial());
/// assert_eq!(text.as_slice(), b"rnbqkbnr/pppppppp/8/8/8/8/PPPPPPPP/RNBQKBNR w KQkq - 0 1");
/// ```
pub fn write_fen(position: &Position) -> ArrayVec<u8, 93>
    ensures text { result.items ≡ fen_text position.now }
    ensures short { length result.items ≤ 93 }
{
    let mut text = ArrayVec::new();
    push_board(&mut text, position);
    push_other_fields(&mut text, position);
    text
}

// Adds the other fields to the text of the board.
pub(crate) fn push_other_fields(text: &mut ArrayVec<u8, 93>, position: &Position)
    requires { text.old.items ≡ placement_text position.now.board }
    ensures text { text.new.items ≡ fen_text position.now }
    ensures short { length text.new.items ≤ 93 }
{
    push_all_but_full(text, position);
    push_field(text, Buffer::new().format(position.full()).as_bytes());
}

// Adds all fields but the last to the text of the board.
fn push_all_but_full(text: &mut ArrayVec<u8, 93>, position: &Position)
    requires { text.old.items ≡ placement_text position.now.board }
    ensures text { text.new.items ++ 32 ∷ decimal position.now.full ≡ fen_text position.now }
    ensures short { length text.new.items ≤ 87 }
{
    text.push(b' ');
    text.push(side_letter(position.side()));
    push_field(text, rights_text(position.rights()).as_slice());
    text.push(b' ');
    push_target(text, position.target());
    push_field(text, Buffer::new().format(position.half()).as_bytes());
}

// Adds a space and the field.
pub(crate) fn push_field(text: &mut ArrayVec<u8, 93>, field: &[u8])
    requires { length text.old.items + 1 + length field.now ≤ 93 }
    ensures { text.new.items ≡ text.old.items ++ 32 ∷ field.now }
{
    text.push(b' ');
    let _ = text.try_extend_from_slice(field);
}

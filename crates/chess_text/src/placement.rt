//! The board as the first field of a FEN. (PGN 16.1.3.1)

ghost use Rattle.std.specs.Prelude.{ℕ, ◌≡◌, ◌<◌, ◌≤◌, ◌+◌, ◌++◌, [], take, IfSome, is_some, replicate, length, if◌then◌else◌, Some, None};
ghost use Rattle.std.specs.List.{before_first, position_or_len};
ghost use Rattle.chess_text.specs.Fen.{is_space};
ghost use Rattle.chess_text.specs.Letter as spec;
ghost use Rattle.chess_text.specs.Placement.{placement_of, placement_text, rank_text, row};
ghost use Rattle.chess_rules.specs.RankNumbers.{number_of_piece, rank_numbers};
ghost use Rattle.chess_rules.specs.declared.piece.Piece.{Piece};

use crate::item::item_of;
use arrayvec::ArrayVec;
use chess_rules::{Board, Position};

// Reads the content of each square onto an empty board. The text begins with the first field of a
// FEN, which ends at the first space. Returns where it ends.
pub(crate) fn read_placement(text: &[u8], board: &mut Board) -> Option<usize>
    requires empty { board.old ≡ replicate 64 None }
    ensures board { placement_of (before_first is_space text.now)
        ≡ (if is_some result then Some board.new else None) }
    ensures end { IfSome result (λ n. n ≡ position_or_len is_space text.now) }
    ensures within { IfSome result (λ n. n ≤ length text.now) }
{
    // How many ranks are left below, how many squares of the rank are read, and what is on them.
    let mut below = 7u8;
    let mut file = 0u8;
    let mut lanes = 0u32;
    for (i, &byte) in text.iter().enumerate() {
        let item = item_of(byte);
        if file + item.width <= 8 {
            lanes += item.lanes << file;
            file += item.width;
        } else if byte == b'/' && file == 8 && below > 0 {
            board.push_rank(lanes);
            below -= 1;
            file = 0;
            lanes = 0;
        } else if byte == b' ' && file == 8 && below == 0 {
            board.push_rank(lanes);
            return Some(i);
        } else {
            return None;
        }
    }
    if file == 8 && below == 0 {
        board.push_rank(lanes);
        Some(text.len())
    } else {
        None
    }
}

// Adds the canonical text of the board to an empty text.
pub(crate) fn push_board(text: &mut ArrayVec<u8, 93>, position: &Position)
    requires { text.old.items ≡ [] }
    ensures text { text.new.items ≡ placement_text position.now.board }
    ensures short { length text.new.items ≤ 71 }
{
    // It is written over zeros, of which those behind it go at the end.
    let _ = text.try_extend_from_slice(&[0; 72]);
    let numbers = position.rank_numbers(7);
    let mut end = write_rank(text.as_mut_slice(), 0, numbers, position, 7);
    for below in 0..7 {
        text.as_mut_slice()[end] = b'/';
        let rank = 6 - below;
        let numbers = position.rank_numbers(rank);
        end = write_rank(text.as_mut_slice(), end + 1, numbers, position, rank);
    }
    text.truncate(end);
}

// Writes the canonical text of the rank that has these numbers, from this place on. Returns where
// it ends.
//
// No branch depends on what is on the squares, since it would mostly be mispredicted. Each square
// writes a byte. That of an empty one is the digit of the run so far, and stands where the digit of
// the shorter run was.
//
// It is inlined, so that the compiler unrolls its loop, and reads the board once for all ranks.
#[inline(always)]
pub(crate) fn write_rank(
    text: &mut [u8],
    start: usize,
    numbers: u64,
    position: &Position,
    rank: u8,
) -> usize
    requires numbers { numbers ≡ rank_numbers position.now.board rank }
    requires rank { rank < 8 }
    requires room { start + 8 ≤ length text.old }
    ensures text { take result text.new
        ≡ take start text.old ++ rank_text 0 (row position.now.board rank) }
    ensures short { result ≤ start + 8 }
    ensures long { length text.new ≡ length text.old }
{
    let mut numbers = numbers;
    let mut end = start;
    for _ in 0u8..8 {
        let number = (numbers % 256) as usize;
        numbers /= 256;
        // From the second square of a run on, no byte is added.
        end += usize::from(number <= 16);
        text[end - 1] = byte_of_number(number);
    }
    end
}

// The byte for each number of a square, as `Position::rank_numbers` has it. No square has 0, 7, 8
// or 15.
static BYTES_OF_NUMBERS: [u8; 24] = [
    b'-', b'R', b'B', b'Q', b'P', b'N', b'K', b'-', b'-', b'r', b'b', b'q', b'p', b'n', b'k', b'-',
    b'1', b'2', b'3', b'4', b'5', b'6', b'7', b'8',
];

// The letter of a piece, or the digit of the run of empty squares that ends there.
fn byte_of_number(number: usize) -> u8
    requires { number < 24 }
    ensures piece { (x : Piece) → number ≡ number_of_piece x → result ≡ spec.piece_letter x }
    ensures run { (n : ℕ) → n < 8 → number ≡ 16 + n → result ≡ 49 + n }
{
    BYTES_OF_NUMBERS[number]
}

//! Positions as FENs, one after another.

ghost use Rattle.std.specs.Prelude.{◌≡◌, ◌<◌, ◌≤◌, ◌+◌, ◌++◌, ◌∷◌, [], length, take};
ghost use Rattle.chess_rules.specs.RankNumbers.{rank_numbers};
ghost use Rattle.chess_text.specs.Fen.{fen_text};
ghost use Rattle.chess_text.specs.Placement.{placement_text, rank_text, row};

use crate::fen::push_other_fields;
use crate::placement::write_rank;
use arrayvec::ArrayVec;
use chess_rules::Position;
use std::marker::Model;

/// Writes the FENs of positions one after another.
///
/// It keeps the text of each rank, and writes only those anew that changed: mostly two of the
/// eight, where the positions are those of a line of play. For one position there is
/// [`write_fen`](crate::write_fen).
///
/// # Examples
///
/// ```
/// use chess_text::{FenWriter, read_fen, write_fen};
///
/// let mut writer = FenWriter::new();
/// for text in [b"8/8/8/8/8/k7/p7/K7 w - - 12 83", b"8/8/8/8/k7/8/p7/K7 w - - 14 84"] {
///     let position = read_fen(text).unwrap();
///     assert_eq!(writer.write(&position).as_slice(), text);
///     assert_eq!(writer.write(&position), write_fen(&position));
/// }
/// ```
#[derive(Drop)]
pub struct FenWriter {
    // The ranks of the last position, from rank 1 on.
    ranks: [WrittenRank; 8],
}

impl Model for FenWriter {
    ghost use Rattle.chess_text.specs.WrittenRank.{AreTexts};

    // What it keeps changes no text that it writes.
    ghost Value = { Unit {0} };

    ghost view = { λ _. tt };

    ghost invariant = { λ w. AreTexts w.ranks };
}

impl FenWriter {
    /// Returns a writer that has written no position yet.
    pub fn new() -> FenWriter {
        FenWriter {
            ranks: [WrittenRank::of_empty_rank(); 8],
        }
    }

    /// Writes a FEN: returns the canonical text of the position, as
    /// [`write_fen`](crate::write_fen) does. (PGN 16.1.3)
    ///
    /// It has at most 93 bytes.
    pub fn write(&mut self, position: &Position) -> ArrayVec<u8, 93>
        ensures text { result.items ≡ fen_text position.now }
        ensures short { length result.items ≤ 93 }
    {
        let mut text = ArrayVec::new();
        self.push_board(&mut text, position);
        push_other_fields(&mut text, position);
        text
    }

    // Adds the canonical text of the board to an empty text.
    fn push_board(&mut self, text: &mut ArrayVec<u8, 93>, position: &Position)
        requires { text.old.items ≡ [] }
        ensures { text.new.items ≡ placement_text position.now.board }
    {
        // It is written over zeros, of which those behind it go at the end.
        let _ = text.try_extend_from_slice(&[0; 72]);
        let bytes = text.as_mut_slice();
        let end = self.copy_rank(bytes, 0, position, 7);
        let end = self.copy_next_rank(bytes, end, position, 6);
        let end = self.copy_next_rank(bytes, end, position, 5);
        let end = self.copy_next_rank(bytes, end, position, 4);
        let end = self.copy_next_rank(bytes, end, position, 3);
        let end = self.copy_next_rank(bytes, end, position, 2);
        let end = self.copy_next_rank(bytes, end, position, 1);
        let end = self.copy_next_rank(bytes, end, position, 0);
        text.truncate(end);
    }

    // Copies a slash and the text of a rank to this place. Returns where they end.
    #[inline(always)]
    fn copy_next_rank(
        &mut self,
        text: &mut [u8],
        start: usize,
        position: &Position,
        rank: u8,
    ) -> usize
        requires long { length text.old ≡ 72 }
        requires rank { rank < 8 }
        requires room { start + 9 ≤ 72 }
        ensures text { take result text.new
            ≡ (take start text.old ++ 47 ∷ []) ++ rank_text 0 (row position.now.board rank) }
        ensures short { result ≤ start + 9 }
        ensures long { length text.new ≡ 72 }
    {
        text[start] = b'/';
        self.copy_rank(text, start + 1, position, rank)
    }

    // Copies the text of a rank to this place. Returns where it ends.
    #[inline(always)]
    fn copy_rank(&mut self, text: &mut [u8], start: usize, position: &Position, rank: u8) -> usize
        requires long { length text.old ≡ 72 }
        requires rank { rank < 8 }
        requires room { start + 8 ≤ 72 }
        ensures text { take result text.new
            ≡ take start text.old ++ rank_text 0 (row position.now.board rank) }
        ensures short { result ≤ start + 8 }
        ensures long { length text.new ≡ 72 }
    {
        let written = &mut self.ranks[rank as usize];
        written.update(position, rank);
        // All eight bytes are copied, since a copy of a known length is short.
        text[start..start + 8].copy_from_slice(&written.bytes);
        start + written.length
    }
}

// The text of a rank.
#[derive(Clone, Copy)]
struct WrittenRank {
    // The numbers of its squares, as `Position::rank_numbers` has them.
    numbers: u64,
    // The text, and any bytes behind it.
    bytes: [u8; 8],
    length: usize,
}

impl WrittenRank {
    ghost use Rattle.chess_text.specs.WrittenRank.{IsTextOf, IsTextOfRank};

    // The text of an empty rank.
    fn of_empty_rank() -> WrittenRank
        ensures { IsTextOfRank result }
    {
        WrittenRank {
            numbers: 0x1716_1514_1312_1110,
            bytes: [b'8'; 8],
            length: 1,
        }
    }

    // Makes it the text of this rank. It is written only if the rank has other numbers.
    #[inline(always)]
    fn update(&mut self, position: &Position, rank: u8)
        requires rank { rank < 8 }
        requires text { IsTextOfRank self.old }
        ensures { IsTextOf (row position.now.board rank) self.new }
    {
        let numbers = position.rank_numbers(rank);
        if self.numbers == numbers {
            return;
        }
        self.rewrite(numbers, position, rank);
    }

    // Writes the text of the rank that has these numbers.
    #[inline(never)]
    fn rewrite(&mut self, numbers: u64, position: &Position, rank: u8)
        requires rank { rank < 8 }
        requires numbers { numbers ≡ rank_numbers position.now.board rank }
        requires long { length self.old.bytes ≡ 8 }
        ensures { IsTextOf (row position.now.board rank) self.new }
    {
        self.numbers = numbers;
        self.length = write_rank(&mut self.bytes, 0, numbers, position, rank);
    }
}

//! Numbers in movetext.
ghost use Rattle.std.specs.Prelude.{◌≤◌, [], ◌++◌, ◌∷◌, codes, decimal, length};
ghost use Rattle.pgn_layout.specs.Device.{device};
ghost use Rattle.pgn_game.specs.steps.ItemResult.{PutsTokens};

use itoa::Buffer;
use pgn_layout::{CurrentLine, Sink, WriteFault};

/// Puts a move number on the line: its digits, and at most three periods (PGN 8.2.2.2).
#[inline(always)]
pub fn put_move_number<W: Sink>(
    number: u32,
    periods: &[u8],
    line: &mut CurrentLine,
    out: &mut W,
) -> Result<(), WriteFault>
    requires { length periods.now ≤ 3 }
    ensures { PutsTokens ((decimal number ++ periods.now) ∷ []) line.old line.new result
        (device W.taken W.failures out.old out.new) }
{
    let mut buffer = Buffer::new();
    line.put_parts(buffer.format(number).as_bytes(), periods, out)
}

/// Puts the text of a NAG on the line: `$n` (PGN 8.2.4).
pub fn put_glyph<W: Sink>(glyph: u8, line: &mut CurrentLine, out: &mut W) -> Result<(), WriteFault>
    ensures { PutsTokens ((codes "$" ++ decimal glyph) ∷ []) line.old line.new result
        (device W.taken W.failures out.old out.new) }
{
    let mut buffer = Buffer::new();
    line.put_parts(b"$", buffer.format(glyph).as_bytes(), out)
}

//! The lines of a text, and where reading goes on in them after a bad game.
ghost use Rattle.std.specs.Prelude.{◌≡◌, ◌+◌, ◌-◌, ◌<◌, ◌≤◌, ◌^◌, IfSome, Some, None, drop, length, take};
ghost use Rattle.pgn_sections.specs.FirstLine.{line_from, line_to_return as line_to_return_of};
ghost use Rattle.pgn_sections.specs.Pieces.{FindsPlace, IsSameGame};

use crate::bad_game::BadGame;

impl BadGame {
    /// Reads the next piece of the text, and returns where reading goes on after the game.
    ///
    /// The piece begins at the byte `at` of the text. If it `is_last`, nothing follows it. `at` and
    /// the length of the piece are together below 2^64. The result lies above `begin`.
    ///
    /// With `None` the game has read the whole lines of the piece, and `at` is after them. The
    /// bytes from there on are the front of the next piece. After the last piece `None` says that
    /// the place is not in this text. `comment_at` is then the comment that is open at its end.
    ///
    /// With a place, `at` is this place. The game has read the lines before the one that shows it.
    ///
    /// # Examples
    ///
    /// ```
    /// use pgn_sections::BadGame;
    ///
    /// let text = b"1. e4 e9 *\n\n[White \"Ada\"]\n";
    /// let mut game = BadGame::new(0, 6);
    /// assert_eq!(game.next_section(&text[..14], false), None);
    /// assert_eq!(game.at, 12);
    /// assert_eq!(game.next_section(&text[12..], true), Some(12));
    /// ```
    pub fn next_section(&mut self, piece: &[u8], is_last: bool) -> Option<usize>
        // Cargo: assert!(piece.len() <= usize::MAX - self.at,
        // "the pieces of a text have less than 2^64 bytes")
        requires { self.old.at + length piece.now < 2 ^ 64 }
        ensures same { IsSameGame self.old self.new }
        ensures place { FindsPlace self.old piece.now is_last result self.new }
        ensures above { IfSome result (λ place. self.old.begin < place) }
    {
        let mut rest = piece;
        while let Some(length) = line_length(rest, is_last) {
            let line = self.line_of(text_to(rest, length));
            if let Some(place) = self.place_on(&line) {
                self.at = place;
                return Some(place);
            }
            self.read_line(&line);
            rest = text_from(rest, length);
        }
        None
    }
}

// The length of the first whole line, with its end.
fn line_length(text: &[u8], is_last: bool) -> Option<usize>
    ensures length { result ≡ line_from is_last 0 text.now }
    ensures within { IfSome result (λ n. (0 < n) × (n ≤ length text.now)) }
{
    for (index, byte) in text.iter().enumerate() {
        if *byte == b'\n' {
            return Some(index + 1);
        }
        if *byte == b'\r' {
            return line_to_return(index, text_from(text, index + 1), is_last);
        }
    }
    if is_last && !text.is_empty() {
        Some(text.len())
    } else {
        None
    }
}

// The length of a line that a CR ends, with this text after it.
fn line_to_return(before: usize, text: &[u8], is_last: bool) -> Option<usize>
    requires { before + 1 + length text.now < 2 ^ 64 }
    ensures length { result ≡ line_to_return_of is_last before text.now }
    ensures within { IfSome result (λ n. (0 < n) × (n ≤ before + 1 + length text.now)) }
{
    match *text {
        [] => { if is_last { Some(before + 1) } else { None } }
        [next, ..] => Some(if next == b'\n' {
            before + 1 + 1
        } else {
            before + 1
        }),
    }
}

// The text from this place on.
fn text_from(text: &[u8], at: usize) -> &[u8]
    requires { at ≤ length text.now }
    ensures { result.now ≡ drop at text.now }
{
    &text[at..]
}

// The text up to this place.
fn text_to(text: &[u8], end: usize) -> &[u8]
    requires { end ≤ length text.now }
    ensures { result.now ≡ take end text.now }
{
    &text[..end]
}

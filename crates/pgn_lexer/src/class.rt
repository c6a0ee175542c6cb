//! The sets that a byte is in, by one table, and runs of the bytes of a set.

ghost use Rattle.std.specs.Prelude.{◌≡◌, ℕ, true, false, ◌<◌, ◌≤◌, ◌^◌, length, get_or, MatchOption};
ghost use Rattle.pgn_lexer.specs.Bytes as of_bytes;
ghost use Rattle.pgn_lexer.specs.Lexes as lexes;
ghost use Rattle.pgn_lexer.specs.Runs as runs;
ghost use Rattle.pgn_lexer.specs.Sets as sets;

/// A set of bytes, as its bit in the table below. White space has two.
#[derive(Clone, Copy)]
pub(crate) enum Set {
    /// A symbol begins with these: letters and digits.
    SymbolStart = 1,
    /// A symbol continues with these.
    Symbol = 2,
    Digit = 4,
    /// The bytes `!` and `?`.
    Suffix = 8,
    /// The data of a string that are no escape.
    Data = 16,
    /// The bytes of a word of a comment.
    Word = 32,
    /// White space within a line.
    Blank = 64,
    LineEnd = 128,
    /// White space.
    Space = 192,
}

// The table below has names of three letters: LET is a letter, DIG a digit, JOI another byte with
// which a symbol continues, SUF is `!` or `?`, ESC is `"` or a backslash, CLO is `}`, SPA is the
// space, TAB is other white space within a line, END is the end of a line, CTL is a control byte,
// and OTH is any other byte.
const LET: u8 = Set::SymbolStart as u8 | JOI;

const DIG: u8 = Set::Digit as u8 | LET;

const JOI: u8 = Set::Symbol as u8 | OTH;

const SUF: u8 = Set::Suffix as u8 | OTH;

const ESC: u8 = Set::Word as u8;

const CLO: u8 = Set::Data as u8;

const SPA: u8 = Set::Blank as u8 | Set::Data as u8;

const TAB: u8 = Set::Blank as u8;

const END: u8 = Set::LineEnd as u8;

const CTL: u8 = 0;

const OTH: u8 = Set::Data as u8 | Set::Word as u8;

/// The sets of each byte, from byte 0 on.
static SETS: [u8; 256] = [
    CTL, CTL, CTL, CTL, CTL, CTL, CTL, CTL, CTL, TAB, END, TAB, TAB, END, CTL, CTL, CTL, CTL, CTL,
    CTL, CTL, CTL, CTL, CTL, CTL, CTL, CTL, CTL, CTL, CTL, CTL, CTL, SPA, SUF, ESC, JOI, OTH, OTH,
    OTH, OTH, OTH, OTH, OTH, JOI, OTH, JOI, OTH, JOI, DIG, DIG, DIG, DIG, DIG, DIG, DIG, DIG, DIG,
    DIG, JOI, OTH, OTH, JOI, OTH, SUF, OTH, LET, LET, LET, LET, LET, LET, LET, LET, LET, LET, LET,
    LET, LET, LET, LET, LET, LET, LET, LET, LET, LET, LET, LET, LET, LET, LET, OTH, ESC, OTH, OTH,
    JOI, OTH, LET, LET, LET, LET, LET, LET, LET, LET, LET, LET, LET, LET, LET, LET, LET, LET, LET,
    LET, LET, LET, LET, LET, LET, LET, LET, LET, OTH, OTH, CLO, OTH, CTL, OTH, OTH, OTH, OTH, OTH,
    OTH, OTH, OTH, OTH, OTH, OTH, OTH, OTH, OTH, OTH, OTH, OTH, OTH, OTH, OTH, OTH, OTH, OTH, OTH,
    OTH, OTH, OTH, OTH, OTH, OTH, OTH, OTH, OTH, OTH, OTH, OTH, OTH, OTH, OTH, OTH, OTH, OTH, OTH,
    OTH, OTH, OTH, OTH, OTH, OTH, OTH, OTH, OTH, OTH, OTH, OTH, OTH, OTH, OTH, OTH, OTH, OTH, OTH,
    OTH, OTH, OTH, OTH, OTH, OTH, OTH, OTH, OTH, OTH, OTH, OTH, OTH, OTH, OTH, OTH, OTH, OTH, OTH,
    OTH, OTH, OTH, OTH, OTH, OTH, OTH, OTH, OTH, OTH, OTH, OTH, OTH, OTH, OTH, OTH, OTH, OTH, OTH,
    OTH, OTH, OTH, OTH, OTH, OTH, OTH, OTH, OTH, OTH, OTH, OTH, OTH, OTH, OTH, OTH, OTH, OTH, OTH,
    OTH, OTH, OTH, OTH, OTH, OTH, OTH, OTH, OTH,
];

/// Whether the byte is in the set.
#[inline(always)]
pub(crate) fn is_in(byte: u8, set: Set) -> bool
    ensures { result ≡ sets.is_in set byte }
{
    SETS[byte as usize] & set as u8 != 0
}

/// Whether the byte ends a line: a line feed (PGN 3.2.2), or a carriage return.
pub fn is_line_end(byte: u8) -> bool
    ensures { result ≡ of_bytes.is_line_end byte }
{
    is_in(byte, Set::LineEnd)
}

/// Whether the byte is white space (PGN 4.1, 7): a line end, a tabulator, a form feed or a space.
pub fn is_space(byte: u8) -> bool
    ensures { result ≡ of_bytes.is_space byte }
{
    is_in(byte, Set::Space)
}

/// Whether the byte is a digit, 0 to 9.
pub fn is_digit(byte: u8) -> bool
    ensures { result ≡ of_bytes.is_digit byte }
{
    is_in(byte, Set::Digit)
}

/// The index of the first byte, from this one on, that is not in the set. It is the length of the
/// bytes if there is none.
#[inline(always)]
pub(crate) fn run_end(bytes: &[u8], from: usize, set: Set) -> usize
    requires { from ≤ length bytes.now }
    ensures from { from ≤ result }
    ensures within { result ≤ length bytes.now }
    ensures all { (i : ℕ) → from ≤ i → i < result → sets.is_in set (get_or bytes.now i 0) ≡ true }
    ensures ends { result < length bytes.now → sets.is_in set (get_or bytes.now result 0) ≡ false }
{
    let mut end = from;
    while end < bytes.len() && is_in(bytes[end], set) {
        end += 1;
    }
    end
}

/// How many bytes a run has that begins with the first of these, and goes on with bytes of the set.
/// `None` if it may go on after these bytes, or is longer than the longest.
#[inline(always)]
pub(crate) fn run_length(bytes: &[u8], set: Set, longest: usize) -> Option<usize>
    requires some { 0 < length bytes.now }
    requires few { longest < 2 ^ 63 }
    ensures { MatchOption result ((n : ℕ) → runs.IsRunIn set longest bytes.now n → ⊥)
        (λ n. runs.IsRunIn set longest bytes.now n) }
{
    let limit = bytes.len().min(longest + 1);
    let length = run_end(&bytes[..limit], 1, set);
    (length < limit).then_some(length)
}

/// Whether a backslash before the byte escapes it.
pub(crate) fn is_escaped(byte: u8) -> bool
    ensures { result ≡ lexes.is_escaped byte }
{
    byte == b'"' || byte == b'\\'
}

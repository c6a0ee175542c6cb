//! The first move number of a game that does not run, as C gets it.
ghost use Rattle.std.specs.Prelude.{◌≡◌, ◌+◌, ◌<◌, ◌≤◌, ◌^◌, IsTrue, None, drop, false, length};
ghost use Rattle.std.specs.List.{prefix_len};
ghost use Rattle.pgn_lexer.specs.Bytes as of_bytes;
ghost use Rattle.pgn_lexer.specs.TokensOf as tokens;
ghost use Rattle.pgn_c.specs.MoveNumbers as spec;
ghost use Rattle.pgn_c.specs.MoveNumberSteps as steps;
ghost use Rattle.pgn_c.specs.UnusualParts as parts;

use pgn_lexer::{is_digit, is_line_end, is_space};

/// What the move numbers of a game are, `struct pgn_number` in C.
#[repr(C)]
#[derive(Clone, Copy)]
pub struct PgnNumber {
    /// 0: each number runs. 1: one does not.
    pub status: u32,
    /// 1 if one does not, or if the game has a part that may mean something else than what is read,
    /// as `pgn_check_numbers` says. Else 0.
    pub unusual: u32,
    /// The place of the first number that does not run: the offset of a byte, from 0. 0 if each
    /// number runs, as the numbers below are.
    pub place: usize,
    /// That number, and the one before it. 4,294,967,295 stands for larger numbers too.
    pub number: u64,
    pub before: u64,
}

// A comment is read by so many bytes at once.
const STEP: usize = 16;

// Stands for larger numbers too.
const LARGEST: u64 = 4_294_967_295;

/// A symbol of digits: its place, and its number.
#[derive(Clone, Copy)]
pub struct Digits {
    pub at: usize,
    pub number: u64,
}

/// A number that does not run, and the one before it in the main line.
#[derive(Clone, Copy)]
pub struct WrongNumber {
    pub at: usize,
    pub number: u64,
    pub before: u64,
}

/// What is found in a game. What is after a wrong number is not looked at.
#[derive(Clone, Copy)]
pub struct Findings {
    pub wrong: Option<WrongNumber>,
    pub is_unusual: bool,
}

/// What was read of a game so far.
#[derive(Clone, Copy)]
pub struct Numbering {
    /// How many variations are open.
    pub depth: usize,
    /// How many plies of the main line are after its last number.
    pub plies: usize,
    /// The last number of the main line.
    pub before: Option<u64>,
    /// The last token, if it is a symbol of digits.
    pub digits: Option<Digits>,
}

/// Finds the first move number of a game that does not run, and whether it has what is unusual.
pub fn check_numbers(text: &[u8]) -> PgnNumber
    ensures { spec.AreAccepted (tokens.tokens_of text.now)
        → result ≡ spec.number_result (spec.wrong_number (tokens.tokens_of text.now))
        (parts.is_unusual text.now) }
{
    let found = read_numbers(text);
    match found.wrong {
        Some(wrong) => PgnNumber {
            status: 1,
            unusual: 1,
            place: wrong.at,
            number: wrong.number,
            before: wrong.before,
        },
        None => PgnNumber {
            status: 0,
            unusual: found.is_unusual as u32,
            place: 0,
            number: 0,
            before: 0,
        },
    }
}

// The first number that does not run, and what is unusual if there is none.
fn read_numbers(text: &[u8]) -> Findings
    ensures wrong { spec.AreAccepted (tokens.tokens_of text.now)
        → result.wrong ≡ spec.wrong_number (tokens.tokens_of text.now) }
    ensures unusual { result.wrong ≡ None → result.is_unusual ≡ parts.is_unusual text.now }
{
    let mut numbering = Numbering {
        depth: 0,
        plies: 0,
        before: None,
        digits: None,
    };
    let mut is_unusual = false;
    let mut at = if has_mark(text) { 3 } else { 0 };
    while at < text.len() {
        let byte = text[at];
        if is_letter(byte) {
            is_unusual |= is_unusual_letter(byte);
            numbering = with_ply(numbering);
            at += symbol_length(&text[at..]);
        } else if is_space(byte) {
            at += 1;
        } else if is_digit(byte) {
            let length = symbol_length(&text[at..]);
            is_unusual |= is_unusual_number(byte, length);
            numbering = with_symbol(numbering, at, &text[at..at + length]);
            at += length;
        } else if byte == b'.' {
            if let Some(wrong) = wrong_at_period(&numbering) {
                return Findings {
                    wrong: Some(wrong),
                    is_unusual,
                };
            }
            numbering = with_period(numbering);
            at += 1;
        } else {
            is_unusual |= is_unusual_other(byte, &text[at + 1..]);
            numbering = with_other(numbering, byte);
            at += 1 + skipped_length(byte, &text[at + 1..]);
        }
    }
    Findings {
        wrong: None,
        is_unusual,
    }
}

// Whether no move of PGN begins with the letter, but some write a pawn's with it.
#[inline(always)]
fn is_unusual_letter(byte: u8) -> bool
    ensures { result ≡ parts.unusual_letter byte }
{
    byte == b'P'
}

// Whether a symbol of so many bytes may be 0000, as some write a null move.
#[inline(always)]
fn is_unusual_number(byte: u8, length: usize) -> bool
    ensures { result ≡ parts.unusual_number byte length }
{
    byte == b'0' && length == 4
}

// Whether a comment to the end of a line, an escape line, or a variation of suffixes begins.
#[inline(always)]
fn is_unusual_other(byte: u8, behind: &[u8]) -> bool
    ensures { result ≡ parts.unusual_other byte behind.now }
{
    byte == b';' || byte == b'%' || byte == b'(' && begins_glyph(behind)
}

// Whether a NAG or a suffix comes next.
fn begins_glyph(text: &[u8]) -> bool
    ensures { result ≡ parts.begins_glyph text.now }
{
    for byte in text {
        if !is_space(*byte) {
            return *byte == b'!' || *byte == b'?' || *byte == b'$';
        }
    }
    false
}

// What is known after a symbol that begins with a letter, and so is no number.
#[inline(always)]
fn with_ply(numbering: Numbering) -> Numbering
    requires { numbering.plies < 2 ^ 63 }
    ensures { result ≡ steps.with_ply numbering }
{
    let Numbering {
        depth,
        plies,
        before,
        ..
    } = numbering;
    Numbering {
        depth,
        plies: if depth == 0 { plies + 1 } else { plies },
        before,
        digits: None,
    }
}

// What is known after a symbol.
#[inline(always)]
fn with_symbol(numbering: Numbering, at: usize, text: &[u8]) -> Numbering
    requires { numbering.plies < 2 ^ 63 }
    ensures { result ≡ steps.with_symbol numbering at text.now }
{
    match number_in(text) {
        Some(number) => Numbering {
            depth: numbering.depth,
            plies: numbering.plies,
            before: numbering.before,
            digits: Some(Digits { at, number }),
        },
        None => with_ply(numbering),
    }
}

// The number before a period, if it does not run.
#[inline(always)]
fn wrong_at_period(numbering: &Numbering) -> Option<WrongNumber>
    requires { numbering.now.plies < 2 ^ 63 }
    ensures { result ≡ steps.wrong_at_period numbering.now }
{
    let digits = numbering.digits?;
    let before = numbering.before?;
    if numbering.depth != 0 || runs(before, numbering.plies, digits.number) {
        return None;
    }
    Some(WrongNumber {
        at: digits.at,
        number: digits.number,
        before,
    })
}

// Whether a number runs after the one before it, with so many plies between them.
fn runs(before: u64, plies: usize, number: u64) -> bool
    requires { plies < 2 ^ 63 }
    ensures { result ≡ spec.runs before plies number }
{
    // A ply is half a move, and half a move counts as one.
    let rounded = plies as u64 + 1;
    before <= number && number - before <= rounded / 2
}

// What is known after a period.
#[inline(always)]
fn with_period(numbering: Numbering) -> Numbering
    ensures { result ≡ steps.with_period numbering }
{
    let Numbering {
        depth,
        plies,
        before,
        digits,
    } = numbering;
    match digits {
        Some(Digits { number, .. }) if depth == 0 => Numbering {
            depth,
            plies: 0,
            before: Some(number),
            digits: None,
        },
        _ => Numbering {
            depth,
            plies,
            before,
            digits: None,
        },
    }
}

// What is known after another byte, and what belongs to it.
#[inline(always)]
fn with_other(numbering: Numbering, byte: u8) -> Numbering
    requires { numbering.depth < 2 ^ 63 }
    ensures { result ≡ steps.with_other numbering byte }
{
    if is_space(byte) || byte == b'%' {
        return numbering;
    }
    let Numbering {
        depth,
        plies,
        before,
        ..
    } = numbering;
    let depth = match byte {
        b'(' => depth + 1,
        b')' => depth.saturating_sub(1),
        _ => depth,
    };
    Numbering {
        depth,
        plies,
        before,
        digits: None,
    }
}

// The number of a text, if it is digits alone.
fn number_in(text: &[u8]) -> Option<u64>
    ensures { result ≡ spec.number_in text.now }
{
    let mut number = 0;
    for &byte in text {
        if !is_digit(byte) {
            return None;
        }
        number = (10 * number + (byte - b'0') as u64).min(LARGEST);
    }
    Some(number)
}

// Whether the byte is a letter, with which a symbol begins (PGN 7).
#[inline(always)]
fn is_letter(byte: u8) -> bool
    ensures { result ≡ of_bytes.is_letter byte }
{
    byte.is_ascii_alphabetic()
}

// For each byte, whether a symbol goes on with it.
static CONTINUES_SYMBOL: [bool; 256] = [
    false, false, false, false, false, false, false, false, false, false, false, false, false,
    false, false, false, false, false, false, false, false, false, false, false, false, false,
    false, false, false, false, false, false, false, false, false, true, false, false, false,
    false, false, false, false, true, false, true, false, true, true, true, true, true, true, true,
    true, true, true, true, true, false, false, true, false, false, false, true, true, true, true,
    true, true, true, true, true, true, true, true, true, true, true, true, true, true, true, true,
    true, true, true, true, true, true, false, false, false, false, true, false, true, true, true,
    true, true, true, true, true, true, true, true, true, true, true, true, true, true, true, true,
    true, true, true, true, true, true, true, false, false, false, false, false, false, false,
    false, false, false, false, false, false, false, false, false, false, false, false, false,
    false, false, false, false, false, false, false, false, false, false, false, false, false,
    false, false, false, false, false, false, false, false, false, false, false, false, false,
    false, false, false, false, false, false, false, false, false, false, false, false, false,
    false, false, false, false, false, false, false, false, false, false, false, false, false,
    false, false, false, false, false, false, false, false, false, false, false, false, false,
    false, false, false, false, false, false, false, false, false, false, false, false, false,
    false, false, false, false, false, false, false, false, false, false, false, false, false,
    false, false, false, false, false, false, false, false, false, false, false, false, false,
    false, false, false, false, false, false, false, false, false,
];

// Whether a symbol goes on with the byte (PGN 7).
#[inline(always)]
fn continues_symbol(byte: u8) -> bool
    ensures { result ≡ of_bytes.continues_symbol byte }
{
    CONTINUES_SYMBOL[byte as usize]
}

// How many bytes at the front are those of a symbol.
#[inline(always)]
fn symbol_length(text: &[u8]) -> usize
    ensures value { result ≡ prefix_len of_bytes.continues_symbol text.now }
    ensures within { result ≤ length text.now }
{
    let mut end = 0;
    while end < text.len() && continues_symbol(text[end]) {
        end += 1;
    }
    end
}

// How many bytes after this one belong to it, as a comment to its brace.
fn skipped_length(byte: u8, behind: &[u8]) -> usize
    ensures value { result ≡ parts.skipped byte behind.now }
    ensures within { result ≤ length behind.now }
{
    match byte {
        b'{' => comment_length(behind),
        b';' | b'%' => line_length(behind),
        b'"' => string_length(behind),
        b'$' => digits_length(behind),
        b'!' | b'?' => suffix_length(behind),
        _ => 0,
    }
}

// How many bytes there are up to the brace that closes a comment, with it (PGN 5).
#[inline(always)]
fn comment_length(text: &[u8]) -> usize
    ensures value { result ≡ parts.to_brace text.now }
    ensures within { result ≤ length text.now }
{
    let at = length_before_brace(text);
    at + length_to_brace(&text[at..])
}

// A multiple of a step: so many bytes at the front have no closing brace.
//
// The bytes of a step are compared at once.
#[inline(always)]
fn length_before_brace(text: &[u8]) -> usize
    ensures value { parts.to_brace text.now ≡ result + parts.to_brace (drop result text.now) }
    ensures within { result ≤ length text.now }
{
    let mut at = 0;
    while STEP <= text.len() - at && !has_brace(&text[at..at + STEP]) {
        at += STEP;
    }
    at
}

// How many bytes there are up to the first closing brace, with it.
#[inline(always)]
fn length_to_brace(text: &[u8]) -> usize
    ensures value { result ≡ parts.to_brace text.now }
    ensures within { result ≤ length text.now }
{
    for (index, byte) in text.iter().enumerate() {
        if *byte == b'}' {
            return index + 1;
        }
    }
    text.len()
}

// Whether a closing brace is among the bytes.
#[inline(always)]
fn has_brace(bytes: &[u8]) -> bool
    ensures { result ≡ steps.has_brace bytes.now }
{
    let mut found = false;
    for byte in bytes {
        found |= *byte == b'}';
    }
    found
}

// How many bytes are before the end of the line.
fn line_length(text: &[u8]) -> usize
    ensures value { result ≡ parts.to_line_end text.now }
    ensures within { result ≤ length text.now }
{
    for (index, byte) in text.iter().enumerate() {
        if is_line_end(*byte) {
            return index;
        }
    }
    text.len()
}

// How many bytes there are up to the quote that closes a string, with it (PGN 7).
fn string_length(text: &[u8]) -> usize
    ensures value { result ≡ parts.to_quote false text.now }
    ensures within { result ≤ length text.now }
{
    let mut is_behind_backslash = false;
    for (index, byte) in text.iter().enumerate() {
        if *byte == b'"' && !is_behind_backslash {
            return index + 1;
        }
        is_behind_backslash = *byte == b'\\' && !is_behind_backslash;
    }
    text.len()
}

// How many digits are at the front.
fn digits_length(text: &[u8]) -> usize
    ensures value { result ≡ prefix_len of_bytes.is_digit text.now }
    ensures within { result ≤ length text.now }
{
    for (index, byte) in text.iter().enumerate() {
        if !is_digit(*byte) {
            return index;
        }
    }
    text.len()
}

// How many bytes at the front are `!` or `?`.
fn suffix_length(text: &[u8]) -> usize
    ensures value { result ≡ prefix_len of_bytes.is_suffix text.now }
    ensures within { result ≤ length text.now }
{
    for (index, byte) in text.iter().enumerate() {
        if *byte != b'!' && *byte != b'?' {
            return index;
        }
    }
    text.len()
}

// Whether the text begins with a byte order mark.
fn has_mark(text: &[u8]) -> bool
    ensures value { result ≡ tokens.has_mark text.now }
    ensures within { IsTrue result → 3 ≤ length text.now }
{
    match *text {
        [first, second, third, ..] => first == 0xef && second == 0xbb && third == 0xbf,
        _ => false,
    }
}

//! Each text is read whole, byte by byte, and in two pieces at every cut. All this is done in three
//! ways: by `next` alone, and by `whole_token` where that gives a token, past numbers or not.
use TokenKind::{
    Asterisk, CommentClose, CommentOpen, End, Glyph, LeftBracket, LeftParen, Period, RightBracket,
    RightParen, Str, Symbol, Word,
};
use pgn_lexer::{LexFault, LexReason, Lexer, Outcome, Token, TokenKind};
use std::process::Abort;

const LONGEST: usize = 1 << 32;

fn at(at: u64, kind: TokenKind<'_>) -> Outcome<'_> {
    Outcome::Token(Token { at, kind })
}

fn refused(at: u64, reason: LexReason) -> Outcome<'static> {
    Outcome::Fault(LexFault { at, reason })
}

/// An outcome: the place of a token and its kind, or of a fault and its reason.
macro_rules! outcome {
    ($at:literal fault $reason:ident) => { refused($at, LexReason::$reason) };
    ($at:literal $kind:expr) => { at($at, $kind) };
}

macro_rules! outcomes {
    ($($at:literal $kind:ident $(($value:expr))? $($reason:ident)?),*) => {
        &[$(outcome!($at $kind $(($value))? $($reason)?)),*]
    };
}

/// A call for each row, which has the call's arguments, and then the outcomes.
macro_rules! each {
    ($call:ident $rt:expr; $(
        $($argument:literal)+ => $($at:literal $kind:ident $(($value:expr))? $($reason:ident)?),*;
    )*) => {
        $($call($rt, $($argument),+, outcomes!($($at $kind $(($value))? $($reason)?),*));)*
    };
}

/// How outcomes are asked for.
#[derive(Clone, Copy, PartialEq, Eq)]
enum Way {
    Next,
    /// By `whole_token` where that gives a token, else by `next`.
    Whole,
    /// By `whole_token` past numbers where that gives a token, else by `next`.
    PastNumbers,
}

const WAYS: [Way; 3] = [Way::Next, Way::Whole, Way::PastNumbers];

/// How many of the outcomes are seen where the numbers and periods between the places were passed.
fn passed(outcomes: &[Outcome<'_>], seen: usize, begin: u64, end: u64) -> Option<usize> {
    let mut seen = seen;
    for _ in 0..LONGEST {
        let is_passed = match outcomes.get(seen) {
            Some(Outcome::Token(token)) => {
                begin <= token.at
                    && token.at < end
                    && match token.kind {
                        Period => true,
                        Symbol(text) => text.iter().all(|byte| byte.is_ascii_digit()),
                        _ => false,
                    }
            }
            _ => false,
        };
        if !is_passed {
            return Some(seen);
        }
        seen = seen.checked_add(1)?;
    }
    None
}

/// Hands in the piece. Gives how many of the outcomes came so far, or None where another came.
fn feed(
    way: Way,
    lexer: &mut Lexer,
    piece: &[u8],
    outcomes: &[Outcome<'_>],
    seen: usize,
) -> Option<usize> {
    let mut from = 0;
    let mut seen = seen;
    for _ in 0..LONGEST {
        let rest = piece.get(from..)?;
        if lexer.place() > LONGEST as u64 || rest.len() > LONGEST {
            return None;
        }
        if way != Way::Next {
            let begin = lexer.place();
            let (used, token) = lexer.whole_token(rest, way == Way::PastNumbers);
            from = from.checked_add(used)?;
            if way == Way::PastNumbers {
                let end = token.map_or(lexer.place(), |token| token.at);
                seen = passed(outcomes, seen, begin, end)?;
            }
            if let Some(token) = token {
                if *outcomes.get(seen)? != Outcome::Token(token) {
                    return None;
                }
                seen = seen.checked_add(1)?;
                continue;
            }
        }
        let rest = piece.get(from..)?;
        if lexer.place() > LONGEST as u64 || rest.len() > LONGEST {
            return None;
        }
        let scan = lexer.next(rest);
        if scan.outcome == Outcome::NeedMore {
            return if scan.used == rest.len() {
                Some(seen)
            } else {
                None
            };
        }
        if let Outcome::Fault(_) = scan.outcome {
            let told = seen == outcomes.len();
            let place = if told { seen.checked_sub(1)? } else { seen };
            let same = *outcomes.get(place)? == scan.outcome && (!told || scan.used == 0);
            return if same { Some(outcomes.len()) } else { None };
        }
        if *outcomes.get(seen)? != scan.outcome {
            return None;
        }
        seen = seen.checked_add(1)?;
        from = from.checked_add(scan.used)?;
    }
    None
}

/// Whether the end of the text gives the outcomes that are left, and then the last of them again
/// and again.
fn finishes(lexer: &mut Lexer, outcomes: &[Outcome<'_>], seen: usize) -> Option<bool> {
    let last = outcomes.len().checked_sub(1)?;
    let mut next = if seen < last { seen } else { last };
    for _ in 0..6 {
        if lexer.finish() != *outcomes.get(next)? {
            return Some(false);
        }
        if next < last {
            next += 1;
        }
    }
    Some(next == last)
}

/// Whether the text, cut at the place, gives the outcomes. An empty piece stands at the cut.
fn holds_cut(way: Way, text: &[u8], outcomes: &[Outcome<'_>], cut: usize) -> Option<bool> {
    let mut lexer = Lexer::new();
    let seen = feed(way, &mut lexer, text.get(..cut)?, outcomes, 0)?;
    let seen = feed(way, &mut lexer, &[], outcomes, seen)?;
    let seen = feed(way, &mut lexer, text.get(cut..)?, outcomes, seen)?;
    finishes(&mut lexer, outcomes, seen)
}

/// Whether the text, byte by byte, gives the outcomes.
fn holds_bytes(way: Way, text: &[u8], outcomes: &[Outcome<'_>]) -> Option<bool> {
    let mut lexer = Lexer::new();
    let mut seen = 0;
    for byte in text {
        seen = feed(way, &mut lexer, &[*byte], outcomes, seen)?;
    }
    finishes(&mut lexer, outcomes, seen)
}

fn holds(text: &[u8], outcomes: &[Outcome<'_>]) -> bool {
    for way in WAYS {
        for cut in 0..=text.len() {
            if holds_cut(way, text, outcomes, cut) != Some(true) {
                return false;
            }
        }
        if holds_bytes(way, text, outcomes) != Some(true) {
            return false;
        }
    }
    true
}

fn reads(rt: &impl Abort, text: &[u8], outcomes: &[Outcome<'_>]) {
    assert!(rt; holds(text, outcomes), "at {text:?}");
}

/// Whether a lexer that begins at the place of the text gives the outcomes, byte by byte and whole.
fn begins_by(
    way: Way,
    text: &[u8],
    place: usize,
    in_first_column: bool,
    outcomes: &[Outcome<'_>],
) -> Option<bool> {
    let rest = text.get(place..)?;
    let mut whole = Lexer::begin_at(place as u64, in_first_column);
    let seen = feed(way, &mut whole, rest, outcomes, 0)?;
    let mut lexer = Lexer::begin_at(place as u64, in_first_column);
    let mut count = 0;
    for byte in rest {
        count = feed(way, &mut lexer, &[*byte], outcomes, count)?;
    }
    Some(finishes(&mut whole, outcomes, seen)? && finishes(&mut lexer, outcomes, count)?)
}

fn begins(
    rt: &impl Abort,
    text: &[u8],
    place: usize,
    in_first_column: bool,
    outcomes: &[Outcome<'_>],
) {
    for way in WAYS {
        let is_right = begins_by(way, text, place, in_first_column, outcomes) == Some(true);
        assert!(rt; is_right, "at {place} of {text:?}");
    }
}

/// Whether `whole_token` uses so many bytes of the piece, and gives this. The lexer has read `{` or
/// `;` before, or is outside comments.
fn gives(
    before: &[u8],
    piece: &[u8],
    skips_numbers: bool,
    used: usize,
    given: Option<Token<'_>>,
) -> bool {
    let mut lexer = Lexer::begin_at(10, false);
    if before.len() > 1 || piece.len() > LONGEST {
        return false;
    }
    let opened = lexer.whole_token(before, false);
    if opened.0 != before.len() || lexer.place() > LONGEST as u64 {
        return false;
    }
    let (passed, token) = lexer.whole_token(piece, skips_numbers);
    let end = (10 + before.len() as u64).checked_add(used as u64);
    passed == used && token == given && Some(lexer.place()) == end
}

/// Whether `whole_token` uses no byte of the piece, and gives no token.
fn gives_nothing(lexer: &mut Lexer, piece: &[u8]) -> bool {
    if lexer.place() > LONGEST as u64 || piece.len() > LONGEST {
        return false;
    }
    let (used, token) = lexer.whole_token(piece, true);
    used == 0 && token == None
}

fn token(at: u64, kind: TokenKind<'_>) -> Option<Token<'_>> {
    Some(Token { at, kind })
}

#[test]
fn tokens_of_texts(rt: HostRuntime) {
    each! { reads &rt;
        b"" => 0 End;
        b"1.e4!$3" => 0 Symbol(b"1"), 1 Period, 2 Symbol(b"e4"), 4 Glyph(1), 5 Glyph(3), 7 End;
        b"1-0*" => 0 Symbol(b"1-0"), 3 Asterisk, 4 End;
        b"1/2-1/2" => 0 Symbol(b"1/2-1/2"), 7 End;
        b"(1/2-1/2)" => 0 LeftParen, 1 Symbol(b"1/2-1/2"), 8 RightParen, 9 End;
        b"$255 $007" => 0 Glyph(255), 5 Glyph(7), 9 End;
        b"! ? !! ?? !? ?!" => 0 Glyph(1), 2 Glyph(2), 4 Glyph(3), 7 Glyph(4), 10 Glyph(5),
            13 Glyph(6), 15 End;
        b"[A \"x\\\"y\\\\z\\q\"]" => 0 LeftBracket, 1 Symbol(b"A"), 3 Str(b"x\"y\\z\\q"),
            14 RightBracket, 15 End;
        b"\"\"\"\\\\\"" => 0 Str(b""), 2 Str(b"\\"), 6 End;
        b"% *" => 3 End;
        b"%a\r\n%b\n*\r%c" => 7 Asterisk, 11 End;
        b"{a b}c{}" => 0 CommentOpen, 1 Word(b"a"), 3 Word(b"b"), 4 CommentClose, 5 Symbol(b"c"),
            6 CommentOpen, 7 CommentClose, 8 End;
        b"{a\n%b}*" => 0 CommentOpen, 1 Word(b"a"), 3 Word(b"%b"), 5 CommentClose, 6 Asterisk,
            7 End;
        b";a {b;%\t\r\n%x" => 0 CommentOpen, 1 Word(b"a"), 3 Word(b"{b;%"), 8 CommentClose, 12 End;
        b";x" => 0 CommentOpen, 1 Word(b"x"), 2 CommentClose, 2 End;
        b";" => 0 CommentOpen, 1 CommentClose, 1 End;
        b"{\xC8\xFF}" => 0 CommentOpen, 1 Word(b"\xC8\xFF"), 3 CommentClose, 4 End;
        b"\xEF\xBB\xBF" => 3 End;
        b"\xEF\xBB\xBF%x\r\n;c\r\n[White \"A\"]" => 7 CommentOpen, 8 Word(b"c"), 9 CommentClose,
            11 LeftBracket, 12 Symbol(b"White"), 18 Str(b"A"), 21 RightBracket, 22 End;
        b"\t\x0B\x0C\r\n *" => 6 Asterisk, 7 End;
        b"e8=Q+ O-O-O# a_b:c" => 0 Symbol(b"e8=Q+"), 6 Symbol(b"O-O-O#"), 13 Symbol(b"a_b:c"),
            18 End;
    }
    reads(
        &rt,
        &[b'a'; 255],
        outcomes! { 0 Symbol(&[b'a'; 255]), 255 End },
    );
}

#[test]
fn refusals_of_texts(rt: HostRuntime) {
    each! { reads &rt;
        b"e4 & *" => 0 Symbol(b"e4"), 3 fault StrayByte;
        b" % *" => 1 fault StrayByte;
        b"\xEF\xBB*" => 0 fault StrayByte;
        b"\xEF" => 0 fault StrayByte;
        b"e4 \x01" => 0 Symbol(b"e4"), 3 fault ControlByte;
        b"\"a\tb\"" => 2 fault ControlByte;
        b"{ab\x7F" => 0 CommentOpen, 1 Word(b"ab"), 3 fault ControlByte;
        b"<1> *" => 0 fault Reserved;
        b"*>" => 0 Asterisk, 1 fault Reserved;
        b"e4 $ *" => 0 Symbol(b"e4"), 3 fault LoneDollar;
        b"*$" => 0 Asterisk, 1 fault LoneDollar;
        b"e4 $256 *" => 0 Symbol(b"e4"), 3 fault GlyphRange;
        b"e4!!! *" => 0 Symbol(b"e4"), 2 fault BadSuffix;
        b"e4 ;a}\n*" => 0 Symbol(b"e4"), 3 CommentOpen, 4 Word(b"a"), 5 fault BraceInLineComment;
        b"[A \"x\n" => 0 LeftBracket, 1 Symbol(b"A"), 3 fault UnclosedString;
        b"*\"a\\\r" => 0 Asterisk, 1 fault UnclosedString;
        b"\"\\" => 0 fault UnclosedString;
        b"e4 {x" => 0 Symbol(b"e4"), 3 CommentOpen, 4 Word(b"x"), 5 fault UnclosedComment;
        b"{a" => 0 CommentOpen, 1 Word(b"a"), 2 fault UnclosedComment;
    }
    reads(&rt, &[b'a'; 256], outcomes! { 0 fault SymbolTooLong });
}

#[test]
fn long_words_and_strings(rt: HostRuntime) {
    let mut word = [b'w'; 82];
    word[0] = b'{';
    word[80] = b'}';
    word[81] = b'*';
    let full =
        outcomes! { 0 CommentOpen, 1 Word(&[b'w'; 79]), 80 CommentClose, 81 Asterisk, 82 End };
    reads(&rt, &word, full);
    word[80] = b'w';
    reads(&rt, &word, outcomes! { 0 CommentOpen, 1 fault WordTooLong });

    let mut string = [b'x'; 258];
    string[0] = b'"';
    string[256] = b'"';
    string[257] = b'*';
    reads(
        &rt,
        &string,
        outcomes! { 0 Str(&[b'x'; 255]), 257 Asterisk, 258 End },
    );
    string[256] = b'x';
    reads(&rt, &string, outcomes! { 0 fault StringTooLong });
    string[256] = b'\\';
    reads(&rt, &string, outcomes! { 0 fault StringTooLong });
    string[256] = b'\n';
    reads(&rt, &string, outcomes! { 0 fault UnclosedString });
    string[256] = b'\t';
    reads(&rt, &string, outcomes! { 256 fault ControlByte });
}

#[test]
fn begins_at_a_later_place(rt: HostRuntime) {
    each! { begins &rt;
        // behind a marker: places count from the first byte of the text
        b"1-0 e4" 3 false => 4 Symbol(b"e4"), 6 End;
        b"**" 1 false => 1 Asterisk, 2 End;
        b"1-0" 3 false => 3 End;
        // a percent sign begins an escape line in the first column alone
        b"*%x\n*" 1 false => 1 fault StrayByte;
        b"*\n%x\n*" 2 true => 5 Asterisk, 6 End;
        b"*\n%x\n*" 1 false => 5 Asterisk, 6 End;
        // a byte order mark is skipped at place 0 alone
        b"\xEF\xBB\xBF*" 0 true => 3 Asterisk, 4 End;
        b"\xEF\xBB\xBF%x\n*" 3 true => 6 Asterisk, 7 End;
        b"\n\xEF\xBB\xBF*" 1 true => 1 fault StrayByte;
    }
}

#[test]
fn numbers_markers_and_escapes(rt: HostRuntime) {
    each! { reads &rt;
        b"12. e4 12... e5 1-0" => 0 Symbol(b"12"), 2 Period, 4 Symbol(b"e4"), 7 Symbol(b"12"),
            9 Period, 10 Period, 11 Period, 13 Symbol(b"e5"), 16 Symbol(b"1-0"), 19 End;
        b"1.1/2-1/2 0-1" => 0 Symbol(b"1"), 1 Period, 2 Symbol(b"1/2-1/2"), 10 Symbol(b"0-1"),
            13 End;
        b"12e4 7-" => 0 Symbol(b"12e4"), 5 Symbol(b"7-"), 7 End;
        // behind a number or a period a percent sign is in no first column
        b"*\n1%x\n*" => 0 Asterisk, 2 Symbol(b"1"), 3 fault StrayByte;
        b"*\n.%x\n*" => 0 Asterisk, 2 Period, 3 fault StrayByte;
        b"*\n %x\n*" => 0 Asterisk, 3 fault StrayByte;
        b"1.\n%1.\n2.\r%x\r\n*" => 0 Symbol(b"1"), 1 Period, 7 Symbol(b"2"), 8 Period, 14 Asterisk,
            15 End;
        // an escape in a string behind a number
        b"1.\"a\\\"b\" *" => 0 Symbol(b"1"), 1 Period, 2 Str(b"a\"b"), 9 Asterisk, 10 End;
        b"\"a\\\"" => 0 fault UnclosedString;
    }
}

#[test]
fn glyphs_suffixes_and_tabs(rt: HostRuntime) {
    each! { reads &rt;
        b"$" => 0 fault LoneDollar;
        b"$-1" => 0 fault LoneDollar;
        b"$0000255$1" => 0 Glyph(255), 8 Glyph(1), 10 End;
        b"$2550" => 0 fault GlyphRange;
        b"$25e4" => 0 Glyph(25), 3 Symbol(b"e4"), 5 End;
        b"!?)" => 0 Glyph(5), 2 RightParen, 3 End;
        b"?\n!!" => 0 Glyph(2), 2 Glyph(3), 4 End;
        b"!?!" => 0 fault BadSuffix;
        b"??\x01" => 0 Glyph(4), 2 fault ControlByte;
        b"\te4\x0Be5\x0C$1\t!\t" => 1 Symbol(b"e4"), 4 Symbol(b"e5"), 7 Glyph(1), 10 Glyph(1),
            12 End;
    }
}

#[test]
fn comments_to_the_end_of_a_line(rt: HostRuntime) {
    each! { reads &rt;
        b";a\t b\r%x\n*" => 0 CommentOpen, 1 Word(b"a"), 4 Word(b"b"), 5 CommentClose, 9 Asterisk,
            10 End;
        b"e4; \t\n;\"1.\n" => 0 Symbol(b"e4"), 2 CommentOpen, 5 CommentClose, 6 CommentOpen,
            7 Word(b"\"1."), 10 CommentClose, 11 End;
        b"{1.\r\n2.\t;}" => 0 CommentOpen, 1 Word(b"1."), 5 Word(b"2."), 8 Word(b";"),
            9 CommentClose, 10 End;
        b";a\x01\n" => 0 CommentOpen, 1 Word(b"a"), 2 fault ControlByte;
    }
}

#[test]
fn longest_texts(rt: HostRuntime) {
    let mut line = [b'w'; 81];
    line[0] = b';';
    reads(&rt, &line, outcomes! { 0 CommentOpen, 1 fault WordTooLong });
    line[80] = b'\n';
    reads(
        &rt,
        &line,
        outcomes! { 0 CommentOpen, 1 Word(&[b'w'; 79]), 80 CommentClose, 81 End },
    );

    let mut number = [b'1'; 256];
    reads(&rt, &number, outcomes! { 0 fault SymbolTooLong });
    number[255] = b'-';
    reads(&rt, &number, outcomes! { 0 fault SymbolTooLong });
    number[255] = b'.';
    reads(
        &rt,
        &number,
        outcomes! { 0 Symbol(&[b'1'; 255]), 255 Period, 256 End },
    );

    // 253 bytes and a backslash that stands for itself are 255 data, and one byte more is too many
    let mut string = [b'x'; 257];
    string[0] = b'"';
    string[254] = b'\\';
    string[256] = b'"';
    let mut data = [b'x'; 255];
    data[253] = b'\\';
    reads(&rt, &string, outcomes! { 0 Str(&data), 257 End });
    string[254] = b'x';
    string[255] = b'\\';
    reads(&rt, &string, outcomes! { 0 fault UnclosedString });
    string[256] = b'q';
    reads(&rt, &string, outcomes! { 0 fault StringTooLong });
}

#[test]
fn whole_tokens_outside_comments(rt: HostRuntime) {
    // the byte behind a symbol, a NAG or a suffix shows where it ends
    assert!(rt; gives(b"", b" e4 ", false, 3, token(11, Symbol(b"e4"))));
    assert!(rt; gives(b"", b" e4", false, 1, None));
    assert!(rt; gives(b"", b"$12)", false, 3, token(10, Glyph(12))));
    assert!(rt; gives(b"", b"$12", false, 0, None));
    assert!(rt; gives(b"", b"$", false, 0, None));
    assert!(rt; gives(b"", b"!e4", false, 1, token(10, Glyph(1))));
    assert!(rt; gives(b"", b"!", false, 0, None));
    assert!(rt; gives(b"", b"!! ", false, 2, token(10, Glyph(3))));
    assert!(rt; gives(b"", b"!!", false, 0, None));
    // the end of these is in the bytes themselves
    assert!(rt; gives(b"", b"\t\"ab\"", false, 5, token(11, Str(b"ab"))));
    assert!(rt; gives(b"", b"\"ab", false, 0, None));
    assert!(rt; gives(b"", b"\"a\\\"\" ", false, 0, None));
    assert!(rt; gives(b"", b"\n[", false, 2, token(11, LeftBracket)));
    assert!(rt; gives(b"", b"*", true, 1, token(10, Asterisk)));
    assert!(rt; gives(b"", b"{", true, 1, token(10, CommentOpen)));
    assert!(rt; gives(b"", b";", true, 1, token(10, CommentOpen)));
    // numbers and periods, passed or given; a marker is no number
    assert!(rt; gives(b"", b"12. e4 ", false, 2, token(10, Symbol(b"12"))));
    assert!(rt; gives(b"", b". e4 ", false, 1, token(10, Period)));
    assert!(rt; gives(b"", b"12. e4 ", true, 6, token(14, Symbol(b"e4"))));
    assert!(rt; gives(b"", b"1. 1-0 ", true, 6, token(13, Symbol(b"1-0"))));
    assert!(rt; gives(b"", b"1. 1-0", true, 3, None));
    assert!(rt; gives(b"", b"1. 1", true, 3, None));
    assert!(rt; gives(b"", b"1.\n%", true, 3, None));
    assert!(rt; gives(b"", b"1.%", true, 2, None));
    assert!(rt; gives(b"", b"", true, 0, None));
}

#[test]
fn no_whole_token_at_the_start_or_inside_another(rt: HostRuntime) {
    let outcomes = [at(0, Symbol(b"1-0"))];
    let mut lexer = Lexer::new();
    assert!(rt; gives_nothing(&mut lexer, b"e4 "));
    assert!(rt; feed(Way::Next, &mut lexer, b"1-", &outcomes, 0) == Some(0));
    assert!(rt; gives_nothing(&mut lexer, b"0 "));
    assert!(rt; feed(Way::Next, &mut lexer, b"0 ", &outcomes, 0) == Some(1));
}

#[test]
fn whole_tokens_in_comments(rt: HostRuntime) {
    assert!(rt; gives(b"{", b" ab}", false, 3, token(12, Word(b"ab"))));
    assert!(rt; gives(b"{", b" ab", false, 1, None));
    assert!(rt; gives(b"{", b"1. e4", true, 2, token(11, Word(b"1."))));
    assert!(rt; gives(b"{", b"\r\n}", false, 3, token(13, CommentClose)));
    assert!(rt; gives(b"{", b"\t\x01", false, 1, None));
    assert!(rt; gives(b";", b"\tab\n", false, 3, token(12, Word(b"ab"))));
    assert!(rt; gives(b";", b"\tab", false, 1, None));
    assert!(rt; gives(b";", b" \n", false, 2, token(12, CommentClose)));
    assert!(rt; gives(b";", b" }", false, 1, None));
}

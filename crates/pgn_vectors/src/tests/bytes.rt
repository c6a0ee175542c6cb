//! Each byte as the whole input.
use crate::{HEAD, LONE_MARKER, Verdict, converted, verdict_of};
use pgn_game::{LexReason, Mode, Reason};
use std::test::Fail;

/// The verdict of a byte as the whole input, and its output.
fn expected(byte: u8) -> (Verdict, &'static [u8]) {
    match byte {
        9..=13 | b' ' | b'%' | b';' => (Verdict::Converted { games: 0, plies: 0 }, b""),
        b'*' => (Verdict::Converted { games: 1, plies: 0 }, LONE_MARKER),
        b'0'..=b'9' | b'.' | b'!' | b'?' => (Verdict::Refused(1, Reason::UnexpectedEnd), HEAD),
        b'a'..=b'z' | b'A'..=b'Z' | b']' => (Verdict::Refused(0, Reason::NotAMove), b""),
        b'"' => (lexical(0, LexReason::UnclosedString), b""),
        b'$' => (lexical(0, LexReason::LoneDollar), b""),
        b'<' | b'>' => (lexical(0, LexReason::Reserved), b""),
        b'{' => (lexical(1, LexReason::UnclosedComment), b""),
        b'[' => (Verdict::Refused(1, Reason::ExpectedName), b""),
        b'(' => (Verdict::Refused(0, Reason::NoMoveBefore), b""),
        b')' => (Verdict::Refused(0, Reason::UnmatchedClose), b""),
        0..=31 | 127 => (lexical(0, LexReason::ControlByte), b""),
        _ => (lexical(0, LexReason::StrayByte), b""),
    }
}

fn lexical(at: u64, reason: LexReason) -> Verdict {
    Verdict::Refused(at, Reason::Lexical(reason))
}

#[test]
fn takes_each_byte_alone(rt: HostRuntime) {
    let mut text = Vec::new(rt.alloc());
    for byte in 0..=255u8 {
        let result = converted(&[byte], Mode::Full, &mut text);
        let (verdict, output) = expected(byte);
        assert_eq!(rt; verdict_of(result), verdict, "byte {byte}");
        assert!(rt; text.as_slice() == output, "byte {byte}");
    }
}

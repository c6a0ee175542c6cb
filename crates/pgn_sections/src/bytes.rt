//! What a byte is in a bad game.
ghost use Rattle.std.specs.Prelude.{◌≡◌};
ghost use Rattle.pgn_sections.specs.Bytes as spec;
ghost use Rattle.pgn_sections.specs.TagLine.{is_stray_or_mark as is_stray_or_mark_byte};

use pgn_lexer::is_digit;

// White space, control bytes and delete.
pub(crate) fn is_stray(byte: u8) -> bool
    ensures { result ≡ spec.is_stray byte }
{
    byte <= 32 || byte == 127
}

// White space, control bytes, delete, and the bytes of byte order marks.
pub(crate) fn is_stray_or_mark(byte: u8) -> bool
    ensures { result ≡ is_stray_or_mark_byte byte }
{
    is_stray(byte) || byte == 0xef || byte == 0xbb || byte == 0xbf
}

// The bytes of a tag's name.
pub(crate) fn is_name_byte(byte: u8) -> bool
    ensures { result ≡ spec.is_name_byte byte }
{
    (b'A' <= byte && byte <= b'Z')
        || (b'a' <= byte && byte <= b'z')
        || is_digit(byte)
        || byte == b'_'
}

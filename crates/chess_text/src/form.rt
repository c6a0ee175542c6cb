//! The text of a move by itself: standard algebraic notation before a position gives it a meaning.

ghost use Rattle.std.specs.Prelude.{◌≡◌, [], ◌∷◌, IfSome, None, Some};
ghost use Rattle.chess_text.specs.Form as spec;

use chess_rules::{Kind, Promotion, Square};

/// What the text of a move says by itself, without a position. (PGN 8.2.3)
#[derive(Clone, Copy, Debug, PartialEq, Eq)]
pub enum Form {
    /// Castling, to the queen's side if it is long.
    Castle {
        long: bool,
    },
    /// A move of one piece.
    Man {
        kind: Kind,
        /// The origin's file, 0 to 7, if it is given.
        file: Option<u8>,
        /// The origin's rank, 0 to 7, if it is given.
        rank: Option<u8>,
        to: Square,
        promotion: Option<Promotion>,
    },
}

/// Returns the form that the text of a move spells, or `None` if it spells none. (PGN 8.2.3)
///
/// The pattern is `[KQRBNP]? [a-h]? [1-8]? x? [a-h][1-8] (=?[QRBN])? [+#]*`, without spaces. The
/// parts are the piece (none is a pawn), the origin's file and rank, the capture, the target, the
/// promotion and the marks. Or it is `O-O`, `O-O-O`, `0-0` or `0-0-0`, and marks.
///
/// # Examples
///
/// ```
/// use chess_text::{Form, read_form};
///
/// assert_eq!(read_form(b"O-O+"), Some(Form::Castle { long: false }));
/// assert!(read_form(b"Nbxd7").is_some());
/// assert_eq!(read_form(b"castles"), None);
/// ```
#[inline(always)]
pub fn read_form(text: &[u8]) -> Option<Form>
    ensures { result ≡ spec.form_of text.now }
{
    match common_form(text) {
        Some(form) => Some(form),
        None => read_other(text),
    }
}

// The form of a text with one of the most common shapes: `e4`, `Nf3`, `Nxf3` or `exd5`. For any
// other text it is `None`.
#[inline(always)]
fn common_form(text: &[u8]) -> Option<Form>
    ensures { IfSome result (λ form. spec.form_of text.now ≡ Some form) }
{
    match *text {
        [file, rank] => move_form(Kind::Pawn, None, file, rank),
        [letter, file, rank] => move_form(kind_of_letter(letter)?, None, file, rank),
        [first, b'x', file, rank] => capture_form(first, file, rank),
        _ => None,
    }
}

// The form of a capture without a promotion: the first byte is a piece's letter or a pawn's file.
fn capture_form(first: u8, file: u8, rank: u8) -> Option<Form>
    ensures { IfSome result (λ form. spec.form_of (first ∷ 120 ∷ file ∷ rank ∷ []) ≡ Some form) }
{
    match kind_of_letter(first) {
        Some(kind) => move_form(kind, None, file, rank),
        None => move_form(Kind::Pawn, Some(file_of(first)?), file, rank),
    }
}

// The form of a move to the square that the two bytes name. The origin's file may be given.
fn move_form(kind: Kind, origin_file: Option<u8>, file: u8, rank: u8) -> Option<Form>
    ensures { result ≡ spec.piece_move_if (Some kind) origin_file None
        (spec.square_of (spec.file_of file) (spec.rank_of rank)) None }
{
    let to = square_of(file, rank)?;
    Some(Form::Man {
        kind,
        file: origin_file,
        rank: None,
        to,
        promotion: None,
    })
}

// The form of any text. Few texts need it, so it is not inlined.
#[inline(never)]
fn read_other(text: &[u8]) -> Option<Form>
    ensures { result ≡ spec.form_of text.now }
{
    let bare = before_marks(text);
    match castle_of(bare) {
        Some(long) => Some(Form::Castle { long }),
        None => read_piece_move(bare),
    }
}

// The text before the marks at the end. (PGN 8.2.3.5)
fn before_marks(text: &[u8]) -> &[u8]
    ensures { result.now ≡ spec.before_marks text.now }
{
    let mut end = text.len();
    while end > 0 && is_mark(text[end - 1]) {
        end -= 1;
    }
    &text[..end]
}

fn is_mark(byte: u8) -> bool
    ensures { result ≡ spec.is_mark byte }
{
    matches!(byte, b'+' | b'#')
}

// The castling that the text names: whether it is the long one. (PGN 8.2.3.3)
fn castle_of(text: &[u8]) -> Option<bool>
    ensures { result ≡ spec.castle_of text.now }
{
    // Most texts end otherwise.
    if !matches!(last_byte(text), b'O' | b'0') {
        return None;
    }
    if text == b"O-O".as_slice() || text == b"0-0".as_slice() {
        Some(false)
    } else if text == b"O-O-O".as_slice() || text == b"0-0-0".as_slice() {
        Some(true)
    } else {
        None
    }
}

// The move of one piece that the text names, read from its end.
fn read_piece_move(text: &[u8]) -> Option<Form>
    ensures { result ≡ spec.piece_move_of text.now }
{
    let promotion = promotion_at_end(text);
    let text = before_promotion(text);
    let to = target_at_end(text)?;
    let text = before_target(text);
    let rank = rank_of(last_byte(text));
    let text = before_rank(text);
    let file = file_of(last_byte(text));
    let kind = kind_of_text(before_file(text))?;
    Some(Form::Man {
        kind,
        file,
        rank,
        to,
        promotion,
    })
}

// The last byte, or 0 if there is none.
fn last_byte(text: &[u8]) -> u8
    ensures { result ≡ spec.last_byte text.now }
{
    if text.is_empty() {
        0
    } else {
        text[text.len() - 1]
    }
}

// The text before the last byte.
fn front(text: &[u8]) -> &[u8]
    ensures { result.now ≡ spec.front text.now }
{
    &text[..text.len().saturating_sub(1)]
}

fn file_of(byte: u8) -> Option<u8>
    ensures { result ≡ spec.file_of byte }
{
    match byte {
        b'a'..=b'h' => Some(byte - b'a'),
        _ => None,
    }
}

fn rank_of(byte: u8) -> Option<u8>
    ensures { result ≡ spec.rank_of byte }
{
    match byte {
        b'1'..=b'8' => Some(byte - b'1'),
        _ => None,
    }
}

// What a pawn becomes, by the end of the text.
fn promotion_at_end(text: &[u8]) -> Option<Promotion>
    ensures { result ≡ spec.promotion_at_end text.now }
{
    match last_byte(text) {
        b'Q' => Some(Promotion::Queen),
        b'R' => Some(Promotion::Rook),
        b'B' => Some(Promotion::Bishop),
        b'N' => Some(Promotion::Knight),
        _ => None,
    }
}

fn before_promotion(text: &[u8]) -> &[u8]
    ensures { result.now ≡ spec.before_promotion text.now }
{
    if promotion_at_end(text).is_none() {
        return text;
    }
    let text = front(text);
    if last_byte(text) == b'=' {
        front(text)
    } else {
        text
    }
}

// The square of the last two bytes.
fn target_at_end(text: &[u8]) -> Option<Square>
    ensures { result ≡ spec.target_at_end text.now }
{
    square_of(last_byte(front(text)), last_byte(text))
}

// The square that a file's letter and a rank's digit name.
pub(crate) fn square_of(file: u8, rank: u8) -> Option<Square>
    ensures { result ≡ spec.square_of (spec.file_of file) (spec.rank_of rank) }
{
    let file = file_of(file)?;
    let rank = rank_of(rank)?;
    Square::new(file, rank)
}

// The text before the target and the `x`.
fn before_target(text: &[u8]) -> &[u8]
    ensures { result.now ≡ spec.before_target text.now }
{
    let text = front(front(text));
    if last_byte(text) == b'x' {
        front(text)
    } else {
        text
    }
}

fn before_rank(text: &[u8]) -> &[u8]
    ensures { result.now ≡ spec.before_rank text.now }
{
    if rank_of(last_byte(text)).is_some() {
        front(text)
    } else {
        text
    }
}

fn before_file(text: &[u8]) -> &[u8]
    ensures { result.now ≡ spec.before_file text.now }
{
    if file_of(last_byte(text)).is_some() {
        front(text)
    } else {
        text
    }
}

// The kind with this letter; a pawn if the text is empty.
fn kind_of_text(text: &[u8]) -> Option<Kind>
    ensures { result ≡ spec.kind_of_text text.now }
{
    match *text {
        [] => Some(Kind::Pawn),
        [byte] => kind_of_letter(byte),
        _ => None,
    }
}

fn kind_of_letter(byte: u8) -> Option<Kind>
    ensures { result ≡ spec.kind_of_text (byte ∷ []) }
{
    match byte {
        b'K' => Some(Kind::King),
        b'Q' => Some(Kind::Queen),
        b'R' => Some(Kind::Rook),
        b'B' => Some(Kind::Bishop),
        b'N' => Some(Kind::Knight),
        b'P' => Some(Kind::Pawn),
        _ => None,
    }
}

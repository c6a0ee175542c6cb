//! Moves as they are written: standard algebraic notation. (PGN 8.2.3)

ghost use Rattle.std.specs.Prelude.{◌≡◌, ◌+◌, ◌<◌, ◌≤◌, ◌^◌, [], ◌++◌, ◌&&◌, ◌||◌, ◌==◌, not, true, length, Some, IsTrue};
ghost use Rattle.std.specs.List.{list_any};
ghost use Rattle.chess_rules.specs.declared.piece.Kind.TheVariants.{King, Pawn};
ghost use Rattle.chess_rules.specs.Candidate.{candidates};
ghost use Rattle.chess_rules.specs.Legal.{legal, is_legal};
ghost use Rattle.chess_rules.specs.Step.{own};
ghost use Rattle.chess_text.specs.Form.{promotion_letter as letter_of};
ghost use Rattle.chess_text.specs.San as spec;
ghost use Rattle.chess_text.specs.San.{MarkPairs};

use crate::letter::{letter, push_square};
use crate::resolution::is_castling;
use arrayvec::ArrayVec;
use chess_rules::laws::candidates_are_complete;
use chess_rules::{
    Kind, Move, OriginSearch, Played, Position, Probes, Promotion, Square, has_legal_move,
    in_check, may_have_two_origins, try_pair,
};

/// Writes SAN: returns the text of a legal move, 1 to 7 bytes. (PGN 8.2.3)
///
/// - Castling is `O-O` or `O-O-O`.
/// - A pawn's move is its target. A capture has the origin's file and `x` before it, a promotion
///   `=` and the piece after it.
/// - Another piece's move is its letter, the least disambiguation among the pieces that may legally
///   go there, `x` for a capture, and the target.
/// - Mate has `#` at the end, any other check `+`.
///
/// `played.mv` must be legal, and `played.next` the position after it. This counts the pairs that
/// it tries, at most 1,032, and the count must have room for them. For a queen, a rook, a bishop or
/// a knight it tries one for each member of `origins`. If `played.next` is in check, it adds those
/// of one `has_legal_move`.
///
/// # Examples
///
/// ```
/// use chess_rules::Probes;
/// use chess_text::{read_fen, read_form, resolve, write_san};
///
/// let fen = b"rnbqkbnr/pppp1ppp/8/4p3/6P1/5P2/PPPPP2P/RNBQKBNR b KQkq g3 0 2";
/// let position = read_fen(fen).unwrap();
/// let mut probes = Probes::new();
/// let form = read_form(b"Qd8h4").unwrap();
/// let played = resolve(&position, &form, &mut probes).unwrap();
/// assert_eq!(write_san(&position, &played, &mut probes).as_slice(), b"Qh4#");
/// ```
pub fn write_san(position: &Position, played: &Played, probes: &mut Probes) -> ArrayVec<u8, 7>
    // Cargo: debug_assert!(crate::traits::is_played(position, played),
    // "write_san takes a legal move and the position after it")
    requires legal { legal position.now played.now.mv ≡ Some played.now.next }
    requires room { probes.old + 1032 < 2 ^ 32 }
    ensures text { result.items ≡ spec.san position.now played.now.mv }
    ensures some { 0 < length result.items }
    ensures short { length result.items ≤ 7 }
    ensures pairs { MarkPairs played.now.next
        (probes.old + spec.disambiguation_pairs position.now played.now.mv) probes.new }
    ensures bound { probes.new ≤ probes.old + 1032 }
{
    write_san_of(position, &played.mv, &played.next, false, probes)
}

/// Writes SAN as [`write_san`] does, of a legal move and the position after it.
///
/// If `is_found`, `probes` has at least the pairs that [`resolve_move`](crate::resolve_move) tries
/// for the move. If it has one alone, the move has no rival, and none is looked for.
#[inline(never)]
pub fn write_san_of(
    position: &Position,
    mv: &Move,
    next: &Position,
    is_found: bool,
    probes: &mut Probes,
) -> ArrayVec<u8, 7>
    // Cargo: assert!(u32::MAX - probes.count() >= 1032,
    // "the count of Probes has room for 1,032 more")
    requires legal { legal position.now mv.now ≡ Some next.now }
    requires found { IsTrue is_found
        → spec.disambiguation_pairs position.now mv.now ≤ probes.old }
    requires room { probes.old + 1032 < 2 ^ 32 }
    ensures text { result.items ≡ spec.san position.now mv.now }
    ensures some { 0 < length result.items }
    ensures short { length result.items ≤ 7 }
    ensures pairs { MarkPairs next.now
        (probes.old + spec.disambiguation_pairs position.now mv.now) probes.new }
    ensures bound { probes.new ≤ probes.old + 1032 }
{
    let mut text = ArrayVec::new();
    push_unmarked(&mut text, position, mv, is_found, probes);
    push_mark(&mut text, next, probes);
    text
}

// Adds the mark of a move that leads to this position. (PGN 8.2.3.5)
fn push_mark(text: &mut ArrayVec<u8, 7>, next: &Position, probes: &mut Probes)
    requires space { length text.old.items ≤ 6 }
    requires room { probes.old + 1024 < 2 ^ 32 }
    ensures text { text.new.items ≡ text.old.items ++ spec.mark_after next.now }
    ensures pairs { MarkPairs next.now probes.old probes.new }
{
    if !in_check(next) {
        return;
    }
    if has_legal_move(next, probes) {
        text.push(b'+');
    } else {
        text.push(b'#');
    }
}

// Pushes the text of the move without its mark. `text` is empty before.
//
// The caller passes the vector, since each return of one would copy its bytes.
fn push_unmarked(
    text: &mut ArrayVec<u8, 7>,
    position: &Position,
    mv: &Move,
    is_found: bool,
    probes: &mut Probes,
)
    requires empty { text.old.items ≡ [] }
    requires legal { IsTrue (is_legal position.now mv.now) }
    requires found { IsTrue is_found
        → spec.disambiguation_pairs position.now mv.now ≤ probes.old }
    requires room { probes.old + 8 < 2 ^ 32 }
    ensures text { text.new.items ≡ spec.unmarked position.now mv.now }
    ensures some { 0 < length text.new.items }
    ensures short { length text.new.items ≤ 6 }
    ensures pairs { probes.new ≡ probes.old + spec.disambiguation_pairs position.now mv.now }
    ensures few { probes.new ≤ probes.old + 8 }
{
    let Some(piece) = position.at(mv.from) else {
        // No legal move begins on an empty square.
        return;
    };
    match piece.kind {
        Kind::King => push_king_text(text, position, mv),
        Kind::Pawn => push_pawn_text(text, position, mv),
        kind => push_disambiguated_text(text, position, kind, mv, is_found, probes),
    }
}

// Pushes the text of a king's move. `text` is empty before. (PGN 8.2.3.3)
fn push_king_text(text: &mut ArrayVec<u8, 7>, position: &Position, mv: &Move)
    requires empty { text.old.items ≡ [] }
    requires legal { IsTrue (is_legal position.now mv.now) }
    requires king { IsTrue (own position.now King mv.now.from) }
    ensures text { text.new.items ≡ spec.king_text position.now mv.now }
    ensures some { 0 < length text.new.items }
    ensures short { length text.new.items ≤ 6 }
{
    if is_castling(position, mv) {
        push_part(text, castling_text(mv.to.file() == 2));
        return;
    }
    text.push(b'K');
    push_capture(text, position.at(mv.to).is_some());
    push_square(text, mv.to);
}

// Adds the part.
fn push_part(text: &mut ArrayVec<u8, 7>, part: &[u8])
    requires { length text.old.items + length part.now ≤ 7 }
    ensures { text.new.items ≡ text.old.items ++ part.now }
{
    let _ = text.try_extend_from_slice(part);
}

fn castling_text(long: bool) -> &'static [u8]
    ensures text { result.now ≡ spec.castling_text long }
    ensures some { 0 < length result.now }
    ensures short { length result.now ≤ 5 }
{
    if long { b"O-O-O" } else { b"O-O" }
}

// Pushes the text of a pawn's move, which takes exactly if it changes its file. `text` is empty
// before. (PGN 8.2.3.3)
fn push_pawn_text(text: &mut ArrayVec<u8, 7>, position: &Position, mv: &Move)
    requires empty { text.old.items ≡ [] }
    requires legal { IsTrue (is_legal position.now mv.now) }
    requires pawn { IsTrue (own position.now Pawn mv.now.from) }
    ensures text { text.new.items ≡ spec.pawn_text position.now mv.now }
    ensures some { 0 < length text.new.items }
    ensures short { length text.new.items ≤ 6 }
{
    push_pawn_capture(text, mv);
    push_square(text, mv.to);
    push_promotion(text, mv.promotion);
}

// Adds the origin's file and `x` of a pawn that changes its file. (PGN 8.2.3.3)
fn push_pawn_capture(text: &mut ArrayVec<u8, 7>, mv: &Move)
    requires { length text.old.items ≤ 5 }
    ensures text { text.new.items ≡ text.old.items
        ++ spec.pawn_capture (not (mv.now.from.file == mv.now.to.file)) mv.now }
    ensures short { length text.new.items ≤ length text.old.items + 2 }
{
    if mv.from.file() != mv.to.file() {
        text.push(b'a' + mv.from.file());
        push_capture(text, true);
    }
}

// Adds `=` and the letter of what the pawn becomes. (PGN 8.2.3.3)
fn push_promotion(text: &mut ArrayVec<u8, 7>, promotion: Option<Promotion>)
    requires { length text.old.items ≤ 5 }
    ensures text { text.new.items ≡ text.old.items ++ spec.promotion_text promotion }
    ensures short { length text.new.items ≤ length text.old.items + 2 }
{
    if let Some(promotion) = promotion {
        text.push(b'=');
        text.push(promotion_letter(promotion));
    }
}

// Pushes the text of a queen's, a rook's, a bishop's or a knight's move. `text` is empty before.
// (PGN 8.2.3.4)
fn push_disambiguated_text(
    text: &mut ArrayVec<u8, 7>,
    position: &Position,
    kind: Kind,
    mv: &Move,
    is_found: bool,
    probes: &mut Probes,
)
    requires empty { text.old.items ≡ [] }
    requires legal { IsTrue (is_legal position.now mv.now) }
    requires own { IsTrue (own position.now kind mv.now.from) }
    requires may_have_rivals { IsTrue (spec.has_rivals kind) }
    requires found { IsTrue is_found
        → length (candidates position.now kind mv.now.to) ≤ probes.old }
    requires room { probes.old + 8 < 2 ^ 32 }
    ensures text { text.new.items ≡ spec.disambiguated_text kind position.now mv.now }
    ensures some { 0 < length text.new.items }
    ensures short { length text.new.items ≤ 6 }
    ensures pairs { probes.new ≡ probes.old + length (candidates position.now kind mv.now.to) }
    ensures few { probes.new ≤ probes.old + 8 }
{
    let rivals = rivals_of(position, kind, mv, is_found, probes);
    text.push(letter(kind));
    push_disambiguation(text, mv.from, rivals);
    push_capture(text, position.at(mv.to).is_some());
    push_square(text, mv.to);
}

// The other squares from which such a move is legal (disambiguation).
#[derive(Clone, Copy)]
struct Rivals {
    any: bool,
    // One of them is on the origin's file, on its rank.
    on_file: bool,
    on_rank: bool,
}

impl Rivals {
    // With the other square, if it is a rival's.
    fn with(self, from: Square, other: Square, is_rival: bool) -> Rivals
        ensures any { result.any ≡ (self.any || is_rival) }
        ensures file { result.on_file ≡ (self.on_file || (is_rival && (other.file == from.file))) }
        ensures rank { result.on_rank ≡ (self.on_rank || (is_rival && (other.rank == from.rank))) }
    {
        if !is_rival {
            return self;
        }
        Rivals {
            any: true,
            on_file: self.on_file || other.file() == from.file(),
            on_rank: self.on_rank || other.rank() == from.rank(),
        }
    }
}

// The rivals of the move. Mostly there is one candidate alone, the move's own origin.
fn rivals_of(
    position: &Position,
    kind: Kind,
    mv: &Move,
    is_found: bool,
    probes: &mut Probes,
) -> Rivals
    requires legal { IsTrue (is_legal position.now mv.now) }
    requires own { IsTrue (own position.now kind mv.now.from) }
    requires found { IsTrue is_found
        → length (candidates position.now kind mv.now.to) ≤ probes.old }
    requires room { probes.old + 8 < 2 ^ 32 }
    ensures any { result.any ≡ list_any (λ s. true) (spec.rivals position.now kind mv.now) }
    ensures file { result.on_file ≡ spec.on_file mv.now.from
        (spec.rivals position.now kind mv.now) }
    ensures rank { result.on_rank ≡ spec.on_rank mv.now.from
        (spec.rivals position.now kind mv.now) }
    ensures pairs { probes.new ≡ probes.old + length (candidates position.now kind mv.now.to) }
    ensures few { probes.new ≤ probes.old + 8 }
{
    candidates_are_complete();
    let mut found = Rivals {
        any: false,
        on_file: false,
        on_rank: false,
    };
    if is_lone(position, kind, mv.to, is_found, probes) {
        count_own_pair(position, mv, probes);
        return found;
    }
    let mut origins = OriginSearch::new(position, kind, mv.to);
    while let Some(origin) = origins.next() {
        let is_rival = is_rival(position, mv, origin, probes);
        found = found.with(mv.from, origin, is_rival);
    }
    found
}

// Whether the move is known to have no rival: one pair found it, or no other piece of its kind may
// go to the target.
#[inline(always)]
fn is_lone(position: &Position, kind: Kind, to: Square, is_found: bool, probes: &Probes) -> bool
    // Cargo: debug_assert!(!is_found || chess_rules::origins(position, kind, to).len() as u32
    // <= probes.count(), "write_san_of takes the count of a move that was found")
    requires { IsTrue is_found → length (candidates position.now kind to) ≤ probes.now }
    ensures { IsTrue result → length (candidates position.now kind to) ≤ 1 }
{
    (is_found && probes.count() == 1) || !may_have_two_origins(position, kind, to)
}

// Counts the pair of a legal move: the compiler drops the rest of the call.
fn count_own_pair(position: &Position, mv: &Move, probes: &mut Probes)
    requires { probes.old + 1 < 2 ^ 32 }
    ensures { probes.new ≡ probes.old + 1 }
{
    let _next = try_pair(position, *mv, probes);
}

// Whether the same move is legal from that square, and it is another than the move's own. Each pair
// is tried.
fn is_rival(position: &Position, mv: &Move, origin: Square, probes: &mut Probes) -> bool
    requires { probes.old + 1 < 2 ^ 32 }
    ensures rival { result ≡ spec.is_rival position.now mv.now origin }
    ensures pairs { probes.new ≡ probes.old + 1 }
{
    let other = Move {
        from: origin,
        to: mv.to,
        promotion: mv.promotion,
    };
    let is_own = origin.file() == mv.from.file() && origin.rank() == mv.from.rank();
    if is_own {
        count_own_pair(position, mv, probes);
        return false;
    }
    try_pair(position, other, probes).is_some()
}

// Adds the least disambiguation of the origin from the rivals. (PGN 8.2.3.4)
fn push_disambiguation(text: &mut ArrayVec<u8, 7>, from: Square, rivals: Rivals)
    requires { length text.old.items ≤ 5 }
    ensures text { text.new.items ≡ text.old.items
        ++ spec.disambiguation_by from rivals.any rivals.on_file rivals.on_rank }
    ensures short { length text.new.items ≤ length text.old.items + 2 }
{
    if rivals.any && (!rivals.on_file || rivals.on_rank) {
        text.push(b'a' + from.file());
    }
    if rivals.any && rivals.on_file {
        text.push(b'1' + from.rank());
    }
}

fn push_capture(text: &mut ArrayVec<u8, 7>, takes: bool)
    requires { length text.old.items ≤ 6 }
    ensures { text.new.items ≡ text.old.items ++ spec.capture_if takes }
{
    if takes {
        text.push(b'x');
    }
}

fn promotion_letter(promotion: Promotion) -> u8
    ensures { result ≡ letter_of promotion }
{
    letter(match promotion {
        Promotion::Queen => Kind::Queen,
        Promotion::Rook => Kind::Rook,
        Promotion::Bishop => Kind::Bishop,
        Promotion::Knight => Kind::Knight,
    })
}

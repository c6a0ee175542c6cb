//! Laws of the definitions of texts: what they promise for all texts and positions. The functions
//! do nothing.

ghost use Rattle.chess_text.specs.Laws.{CanonicalFits, CanonicalIsShortest, CanonicalSpells, FaultIsLowest, FenOnce, FieldsAreSpellings, FormOnce, NoMoveIsRead, ReadingAFormIsSpelling, ReadingIsSpelling, ShorterIsAmbiguous, SingleReading, TheOneMoveIsRead, TwoMovesAreAmbiguous};
ghost use Rattle.chess_text.specs.FormOrigins.{LegalOriginsDecide};
ghost use Rattle.chess_text.specs.Key.{KeysTell, SameMovesLegal};
ghost use Rattle.chess_text.specs.Uci.{UciIsExact, UciTextsDiffer, WrittenUciIsRead};
ghost use Rattle.chess_text.specs.WrittenMove.{WrittenMoveIsRead, WrittenMoveIsSymbol};

use chess_rules::laws::one_king_a_side;

/// Reading a FEN gives the position that it spells.
///
/// A FEN spells a position if it is six texts, joined by single spaces, that spell the six parts.
pub fn reading_is_spelling()
    ensures { ReadingIsSpelling }
{}

/// Each text spells at most one position.
pub fn one_position_a_text()
    ensures { FenOnce }
{}

/// Each of the six parts of a FEN is read from exactly the texts that spell it.
#[tactic(auto, using(crate::proofs::positions::FenLaws::fields))]
pub fn fields_are_spellings()
    ensures { FieldsAreSpellings }
{}

/// The field that is reported is the lowest that is no spelling, or 7 if all six are.
pub fn fault_is_lowest()
    ensures { FaultIsLowest }
{}

/// The canonical text of each position spells it.
#[tactic(auto, using(crate::proofs::positions::CanonicalText::canonical_spells))]
pub fn canonical_text_spells_its_position()
    ensures { CanonicalSpells }
{}

/// The canonical text of each position has at most 93 bytes.
#[tactic(auto, using(crate::proofs::positions::FenLaws::fits))]
pub fn canonical_text_is_short()
    ensures { CanonicalFits }
{}

/// No text of a position is shorter than its canonical text.
pub fn canonical_text_is_shortest()
    ensures { CanonicalIsShortest }
{}

/// Reading the text of a move gives the form that it spells by the pattern.
///
/// Its target and its hints are on the board.
pub fn reading_a_form_is_spelling()
    ensures { ReadingAFormIsSpelling }
{}

/// Each text spells at most one form.
pub fn one_form_a_text()
    ensures { FormOnce }
{}

/// A form is read as the one legal move that agrees with it, with the position after it.
pub fn the_one_move_is_read()
    ensures { TheOneMoveIsRead }
{}

/// The error is `NoMove` exactly if no legal move agrees with the form.
#[tactic(auto, using(crate::proofs::forms::AgreeingAreFound::no_move_is_read))]
pub fn no_move_is_read()
    ensures { NoMoveIsRead }
{}

/// The error is `Ambiguous` exactly if two different legal moves agree with the form.
#[tactic(auto, using(crate::proofs::forms::AgreeingAreFound::two_moves_are_ambiguous))]
pub fn two_moves_are_ambiguous()
    ensures { TwoMovesAreAmbiguous }
{}

/// A form names a move exactly if `origins_of_form` says `Legal` of one square.
///
/// If it says so of none, the error of `resolve` is `NoMove`. If it says so of several, the error
/// is `Ambiguous`.
#[tactic(auto, using(crate::proofs::forms::FormOriginKinds::legal_origins_decide))]
pub fn legal_origins_decide()
    ensures { LegalOriginsDecide }
{}

/// The SAN of a legal move names this move and no other.
pub fn a_written_move_is_read_again()
    ensures { SingleReading }
{
    one_king_a_side();
}

/// Less disambiguation than `write_san` writes is ambiguous.
///
/// Disambiguation is none, a file, a rank or a square, in this order. With an earlier one than is
/// written, the text names another move too.
pub fn less_is_ambiguous()
    ensures { ShorterIsAmbiguous }
{}

/// The SAN of a legal move is a symbol of 1 to 7 bytes that begins with a letter (PGN 7, 8.2.3).
///
/// It is no move number and no termination marker (PGN 8.2.2, 8.2.6).
pub fn a_written_move_is_a_symbol()
    ensures { WrittenMoveIsSymbol }
{}

/// The SAN of a legal move is read as this move, with the position after it.
pub fn a_written_move_is_read_as_itself()
    ensures { WrittenMoveIsRead }
{
    one_king_a_side();
}

/// Reading UCI gives the legal move whose text it is, with the position after it.
///
/// The error is `IllegalMove` exactly if it is the text of a move that is not legal, and `NotAMove`
/// exactly if it is that of no move.
#[tactic(auto, using(crate::proofs::names::UciToMove::uci_is_exact))]
pub fn uci_is_exact()
    ensures { UciIsExact }
{}

/// Two different legal moves of a position have different texts in UCI.
#[tactic(auto, using(crate::proofs::names::UciToMove::uci_texts_differ))]
pub fn uci_texts_differ()
    ensures { UciTextsDiffer }
{}

/// The text of a legal move in UCI is read as this move, with the position after it.
pub fn a_written_uci_is_read_as_itself()
    ensures { WrittenUciIsRead }
{}

/// Two positions have the same key exactly if they are the same (FIDE Laws 9.2.3).
///
/// They are if the same pieces are on the same squares, the same side is to move, and castling and
/// en passant are possible in the same ways.
#[tactic(auto, using(crate::proofs::keys::KeyToPosition::keys_tell))]
pub fn keys_tell_positions_apart()
    ensures { KeysTell }
{}

/// In two positions that are the same the same moves are legal (FIDE Laws 9.2.3).
#[tactic(auto, using(crate::proofs::keys::SameMoves::same_moves_legal))]
pub fn same_moves_are_legal()
    ensures { SameMovesLegal }
{}

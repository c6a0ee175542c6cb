//! Laws of the definitions of play: what they promise for all positions, or even for all parts. The
//! functions do nothing: their contracts are the laws.

ghost use Rattle.chess_rules.specs.Laws.{CandidatesComplete, CasesApart, FewCandidates, LeavesPosition, OneAfter, OneKing, PromotionsAlike, StepsFromCandidates};

/// No move is a step in two of the five ways.
///
/// The ways are a piece's step, a pawn's step, en passant, and castling on either wing.
#[tactic(auto, using(crate::proofs::moves::OneWayToStep::cases_apart))]
pub fn cases_are_apart()
    ensures { CasesApart }
{}

/// For a position and a move there is at most one position after it.
pub fn one_position_after()
    ensures { OneAfter }
{}

/// A legal move in a position leads to a position.
///
/// No king is captured, each side keeps one, and no pawn is left on rank 1 or 8.
#[tactic(auto, using(crate::proofs::moves::LegalToPosition::leaves_position))]
pub fn a_legal_move_leaves_a_position()
    ensures { LeavesPosition }
{}

/// The origin of each legal move is a candidate of its kind for its target: `origins` lists it.
///
/// Castling, en passant, double steps and promotions are included.
pub fn candidates_are_complete()
    ensures { CandidatesComplete }
{}

/// The origin of each step (pseudo-legal move) is a candidate of its kind for its target.
///
/// So what is no candidate has no step. Castling, en passant, double steps and promotions are
/// included.
pub fn steps_are_from_candidates()
    ensures { StepsFromCandidates }
{}

/// No square has more than eight candidates of one kind.
#[tactic(auto, using(crate::proofs::trying::CandidatesAreFew::few_candidates))]
pub fn candidates_are_few()
    ensures { FewCandidates }
{}

/// In a position, an origin and a target are legal with all four promotions or with none.
#[tactic(auto, using(crate::proofs::trying::PromotionsAlike::promotions_alike))]
pub fn promotions_are_alike()
    ensures { PromotionsAlike }
{}

/// In a position, each side has its king on one square only.
pub fn one_king_a_side()
    ensures { OneKing }
{}

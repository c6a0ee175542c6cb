//! The rules of play: squares, pieces, positions, attacks and legality, by the FIDE Laws of Chess.
//!
//! No call allocates.
#![tactic(auto)]

mod after;
mod attack;
mod board;
mod candidates;
mod geometry;
pub mod laws;
mod legal;
mod legal_moves;
mod pairs;
mod piece;
mod position;
mod probes;
pub mod rank_words;
mod square;
mod squares;
mod step;
mod tables;

pub use board::Board;
pub use candidates::{OriginSearch, may_have_two_origins, only_origin, origins};
pub use legal::{has_legal_move, in_check, position_after, try_pair};
pub use legal_moves::LegalMoves;
pub use piece::{Colour, Kind, Piece, Promotion};
pub use position::{Move, Parts, Played, Position, PositionFault, Rights};
pub use probes::Probes;
pub use square::Square;
pub use step::is_step;

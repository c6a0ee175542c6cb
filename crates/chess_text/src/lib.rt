//! Positions and moves as text: FEN, standard algebraic notation and UCI, read and written.
//!
//! No call allocates.
#![tactic(auto)]

mod fen;
mod fen_writer;
mod field;
mod form;
mod form_origins;
mod item;
mod key;
pub mod laws;
mod letter;
mod placement;
mod resolution;
mod san;
mod uci;

pub use chess_rules::Played;
pub use fen::{FenFault, read_fen, write_fen};
pub use fen_writer::FenWriter;
pub use form::{Form, read_form};
pub use form_origins::{OriginKind, origins_of_form};
pub use key::write_position_key;
pub use resolution::{SanFault, resolve, resolve_move};
pub use san::{write_san, write_san_of};
pub use uci::{UciFault, read_uci, write_uci};

//! Games of Portable Game Notation, from bytes to bytes.
//!
//! [`convert`] reads games from a [`Source`] and writes their export format to a [`Sink`].
//! [`Games`] does it one game at a time, and a [`Converter`] in pieces of any length.
//! [`convert_checked`] reads its input twice, so that a missing Result takes the marker. No call
//! allocates.
#![tactic(auto)]

mod archive_items;
mod checked;
mod conversion;
mod converter;
mod current_game;
mod event;
mod find;
mod game;
mod games;
mod item;
mod items;
pub mod laws;
mod levels;
mod line_of_play;
mod marker;
mod mode;
mod notation;
mod number;
mod ordered;
mod pair;
mod read_buffer;
mod reader;
mod reason;
mod section;
mod skipping;
mod slice_source;
mod source;
mod stage;
mod tags;
mod token_tests;
mod writer;

pub use archive_items::ArchiveItems;
pub use checked::convert_checked;
pub use conversion::{Totals, check, check_slice, convert, convert_slice};
pub use converter::{Converter, Fed};
pub use find::find_move;
pub use games::Games;
pub use item::Item;
pub use items::Items;
pub use line_of_play::{LineOfPlay, MoveOfLine, Ply};
pub use marker::Marker;
pub use mode::Mode;
pub use notation::{Notation, read_move};
pub use pgn_layout::{Nowhere, Outlet, Sink, WriteFault};
pub use pgn_lexer::LexReason;
pub use reason::{Fault, Reason};
pub use slice_source::SliceSource;
pub use source::{Inlet, ReadFailed, Rewinds, Source};

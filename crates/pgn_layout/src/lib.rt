//! Lines of PGN export format and the sinks they go to.
//!
//! A [`Layout`] writes tag pairs, each on a line of its own (PGN 8.1). It sets movetext tokens on
//! lines of at most 79 bytes (PGN 8.2.1). It keeps one line, never allocates, and writes to any
//! [`Sink`]: an [`Outlet`] over a `std::io::Write`, or [`Nowhere`]. After a failed write each call
//! fails again.
//!
//! A caller that stops at the first failed write itself needs less: [`write_tag`], [`end_tags`] and
//! a [`CurrentLine`].
#![tactic(auto)]

mod current_line;
pub mod laws;
mod layout;
mod nowhere;
mod outlet;
mod sink;
mod tag_line;

pub use current_line::CurrentLine;
pub use layout::Layout;
pub use nowhere::Nowhere;
pub use outlet::Outlet;
pub use sink::{Sink, WriteFault, write_all};
pub use tag_line::{end_tags, fits_tag_line, write_tag};

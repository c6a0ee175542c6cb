//! The tokens of a Portable Game Notation text (PGN 7), in pieces of any length.
//!
//! A [`Lexer`] gives one token a call, and no call allocates. The text of a token is borrowed from
//! the lexer's one buffer of 255 bytes. `whole_token` alone borrows it from the piece: it gives a
//! token that lies there as a whole. White space (PGN 7), escape lines (PGN 6) and comments (PGN 5)
//! are recognised. What the tokens mean is left to the caller.
#![tactic(auto)]

mod class;
pub mod laws;
mod lexer;
mod partial_token;
mod token;

pub use class::{is_digit, is_line_end, is_space};
pub use lexer::Lexer;
pub use token::{LexFault, LexReason, Outcome, Scan, Token, TokenKind};

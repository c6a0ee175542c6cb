//! Tests of `pgn_lexer`, `pgn_layout`, `pgn_sections` and `pgn_arguments`.
//!
//! They are a crate of their own to save the prover's time: tests are proved with their whole
//! crate.
#![tactic(auto)]

#[cfg(test)]
mod arguments;
#[cfg(test)]
mod layout;
#[cfg(test)]
mod lexer;
#[cfg(test)]
mod sections;

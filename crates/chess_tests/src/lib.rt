//! Tests of `chess_rules` and `chess_text`, over values from outside.
//!
//! They are a crate of their own to save the prover's time: tests are proved with their whole
//! crate.
#![tactic(auto)]

#[cfg(test)]
mod rules;
#[cfg(test)]
mod text;

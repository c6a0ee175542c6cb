//! Tests of the converter on devices: sources and sinks of which each call fails in turn.
//!
//! The vectors are those of `pgn_vectors`. A test says for each place of a failure what is written
//! and where the fault is reported. Inputs that are read twice are tried here too, since they need
//! two sources. `rt test` proves and runs the tests; `rt try --test` only runs them.
//!
//! They are a crate of their own to save the prover's time: tests are proved with their whole
//! crate.
#![tactic(auto)]

#[cfg(test)]
mod tests;

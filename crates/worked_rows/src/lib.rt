//! Worked rows: inputs, games and positions of which the prover computes what the definitions say.
//!
//! The crate has no code. Each row of `proofs/` is a statement that the definitions of `pgn_game`,
//! `chess_text` and `chess_rules` have to make true, such as the text that an input is converted
//! to. The values come from the rules of the format and of chess, never from a run.
//!
//! They are a crate of their own to save the prover's time: no other proof waits for them.
#![tactic(auto)]

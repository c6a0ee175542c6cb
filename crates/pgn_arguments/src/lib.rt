//! The command line of `pgn_tool`: which task its words ask for, or what is replied to them.
#![tactic(auto)]

mod arguments;

pub use arguments::{ParseFault, Task, parse};

//! The conformance tests: each vector in each way to convert it, and what no table says.
mod bad_games;
mod bytes;
mod counts;
mod cuts;
mod finished_games;
mod item_tags;
mod items;
mod limits;
mod lines_of_play;
mod reasons;
mod refused_moves;
mod runs;
mod silent;
mod tables;

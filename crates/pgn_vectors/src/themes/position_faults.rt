// Written by bin/write_vectors from vectors/position_faults.toml.
//! Inputs that are rejected at the first move from a FEN, or at the FEN.
use crate::{Vector, Verdict};
use pgn_game::{Mode, Reason};

/// Moves that are ambiguous or not legal.
#[rattlefmt::skip]
pub fn moves() -> &'static [Vector] {
    &[
        Vector { name: "35, three-queens", mode: Mode::Full, input: "[FEN \"1k6/8/8/8/4Q2Q/8/8/K6Q w - - 0 1\"]\nQe1 *",
            output: "", verdict: Verdict::Refused(41, Reason::AmbiguousMove) },
        Vector { name: "35, three-queens, a file", mode: Mode::Full, input: "[FEN \"1k6/8/8/8/4Q2Q/8/8/K6Q w - - 0 1\"]\nQhe1 *",
            output: "", verdict: Verdict::Refused(41, Reason::AmbiguousMove) },
        Vector { name: "35, three-queens, a rank", mode: Mode::Full, input: "[FEN \"1k6/8/8/8/4Q2Q/8/8/K6Q w - - 0 1\"]\nQ4e1 *",
            output: "", verdict: Verdict::Refused(41, Reason::AmbiguousMove) },
        Vector { name: "34, en-passant-discovers", mode: Mode::Full, input: "[FEN \"8/8/8/K2pP2r/8/8/8/7k w - d6 0 1\"]\nexd6 *",
            output: "", verdict: Verdict::Refused(41, Reason::IllegalMove) },
        Vector { name: "34, castling through an attack", mode: Mode::Full, input: "[FEN \"4k3/8/8/8/8/5r2/8/4K2R w K - 0 1\"]\nO-O *",
            output: "", verdict: Verdict::Refused(41, Reason::IllegalMove) },
        Vector { name: "34, castling as a king's move", mode: Mode::Full, input: "[FEN \"r3k2r/8/8/8/8/8/8/R3K2R w KQkq - 0 1\"]\nKg1 *",
            output: "", verdict: Verdict::Refused(45, Reason::IllegalMove) },
        Vector { name: "34, bare-promotion", mode: Mode::Full, input: "[FEN \"8/P6k/8/8/8/8/8/K7 w - - 0 1\"]\na8 *",
            output: "", verdict: Verdict::Refused(37, Reason::IllegalMove) },
        Vector { name: "33, promotion to a king", mode: Mode::Full, input: "[FEN \"8/P6k/8/8/8/8/8/K7 w - - 0 1\"]\na8=K *",
            output: "", verdict: Verdict::Refused(37, Reason::NotAMove) },
    ]
}

/// Other faults at a move, and after the tag pairs.
#[rattlefmt::skip]
pub fn other_faults() -> &'static [Vector] {
    &[
        Vector { name: "36, number-limit", mode: Mode::Full, input: "[FEN \"4k3/8/8/8/8/8/8/4K3 b - - 0 99999\"]\nKd8 *",
            output: "", verdict: Verdict::Refused(42, Reason::MoveLimit) },
        Vector { name: "34, no such move at the limit", mode: Mode::Full, input: "[FEN \"4k3/8/8/8/8/8/8/4K3 b - - 0 99999\"]\nKd6 *",
            output: "", verdict: Verdict::Refused(42, Reason::IllegalMove) },
        Vector { name: "34, the side not to move", mode: Mode::Full, input: "[FEN \"4k3/8/8/8/8/8/8/4K3 w - - 0 1\"]\nKd8 *",
            output: "", verdict: Verdict::Refused(38, Reason::IllegalMove) },
        Vector { name: "34, a king beside a king", mode: Mode::Full, input: "[FEN \"4k3/4p3/4K3/8/8/8/8/8 w - - 0 1\"]\nKe7 *",
            output: "", verdict: Verdict::Refused(40, Reason::IllegalMove) },
        Vector { name: "37, no move before", mode: Mode::Full, input: "[FEN \"4k3/8/8/8/8/8/8/4K3 w - - 0 1\"]\n(Kd1) *",
            output: "", verdict: Verdict::Refused(38, Reason::NoMoveBefore) },
        Vector { name: "41, a marker that differs", mode: Mode::Full, input: "[FEN \"4k3/8/8/8/8/8/8/4K3 w - - 0 1\"]\n1-0",
            output: "", verdict: Verdict::Refused(38, Reason::ResultDiffers) },
        Vector { name: "42, the end after the pairs", mode: Mode::Full, input: "[FEN \"4k3/8/8/8/8/8/8/4K3 w - - 0 1\"]\n",
            output: "", verdict: Verdict::Refused(38, Reason::UnexpectedEnd) },
    ]
}

/// FEN texts with a bad field.
#[rattlefmt::skip]
pub fn fields() -> &'static [Vector] {
    &[
        Vector { name: "26, field 1: ", mode: Mode::Full, input: "[FEN \"\"] *",
            output: "", verdict: Verdict::Refused(5, Reason::BadFen(1)) },
        Vector { name: "26, field 1: 9/8/8/8/8/8/8/8 w - - 0 1", mode: Mode::Full, input: "[FEN \"9/8/8/8/8/8/8/8 w - - 0 1\"] *",
            output: "", verdict: Verdict::Refused(5, Reason::BadFen(1)) },
        Vector { name: "26, field 2: 4k3/8/8/8/8/8/8/4K3 x - - 0 1", mode: Mode::Full, input: "[FEN \"4k3/8/8/8/8/8/8/4K3 x - - 0 1\"] *",
            output: "", verdict: Verdict::Refused(5, Reason::BadFen(2)) },
        Vector { name: "26, field 3: 4k3/8/8/8/8/8/8/4K3 w", mode: Mode::Full, input: "[FEN \"4k3/8/8/8/8/8/8/4K3 w\"] *",
            output: "", verdict: Verdict::Refused(5, Reason::BadFen(3)) },
        Vector { name: "26, field 3: 4k3/8/8/8/8/8/8/4K3 w qK - 0 1", mode: Mode::Full, input: "[FEN \"4k3/8/8/8/8/8/8/4K3 w qK - 0 1\"] *",
            output: "", verdict: Verdict::Refused(5, Reason::BadFen(3)) },
        Vector { name: "26, field 4: 4k3/8/8/8/8/8/8/4K3 w - e4 0 1", mode: Mode::Full, input: "[FEN \"4k3/8/8/8/8/8/8/4K3 w - e4 0 1\"] *",
            output: "", verdict: Verdict::Refused(5, Reason::BadFen(4)) },
        Vector { name: "26, field 5: 4k3/8/8/8/8/8/8/4K3 w - - 100000 1", mode: Mode::Full, input: "[FEN \"4k3/8/8/8/8/8/8/4K3 w - - 100000 1\"] *",
            output: "", verdict: Verdict::Refused(5, Reason::BadFen(5)) },
    ]
}

/// FEN texts with a bad last field, or whose fields make no position.
#[rattlefmt::skip]
pub fn whole_positions() -> &'static [Vector] {
    &[
        Vector { name: "26, field 6: 4k3/8/8/8/8/8/8/4K3 w - - 0", mode: Mode::Full, input: "[FEN \"4k3/8/8/8/8/8/8/4K3 w - - 0\"] *",
            output: "", verdict: Verdict::Refused(5, Reason::BadFen(6)) },
        Vector { name: "26, field 6: 4k3/8/8/8/8/8/8/4K3 w - - 0 1 ", mode: Mode::Full, input: "[FEN \"4k3/8/8/8/8/8/8/4K3 w - - 0 1 \"] *",
            output: "", verdict: Verdict::Refused(5, Reason::BadFen(6)) },
        Vector { name: "26, field 7: 8/8/8/8/8/8/8/8 w - - 0 1", mode: Mode::Full, input: "[FEN \"8/8/8/8/8/8/8/8 w - - 0 1\"] *",
            output: "", verdict: Verdict::Refused(5, Reason::BadFen(7)) },
        Vector { name: "26, field 7: 4k3/8/8/8/8/8/8/4K2P w - - 0 1", mode: Mode::Full, input: "[FEN \"4k3/8/8/8/8/8/8/4K2P w - - 0 1\"] *",
            output: "", verdict: Verdict::Refused(5, Reason::BadFen(7)) },
        Vector { name: "26, field 7: 4k3/8/8/8/4R3/8/8/4K3 w - - 0 1", mode: Mode::Full, input: "[FEN \"4k3/8/8/8/4R3/8/8/4K3 w - - 0 1\"] *",
            output: "", verdict: Verdict::Refused(5, Reason::BadFen(7)) },
        Vector { name: "26, field 7: 4k3/8/8/8/8/8/8/4K3 w - e3 0 1", mode: Mode::Full, input: "[FEN \"4k3/8/8/8/8/8/8/4K3 w - e3 0 1\"] *",
            output: "", verdict: Verdict::Refused(5, Reason::BadFen(7)) },
    ]
}

// Written by bin/write_vectors from vectors/main_lines.toml.
//! Games from the usual first position, without variations, and inputs of no game.
use crate::{Vector, Verdict};
use pgn_game::Mode;

/// The sample game of the standard (PGN 2.3).
#[rattlefmt::skip]
pub fn sample_game() -> &'static [Vector] {
    &[
        Vector { name: "sample-game", mode: Mode::Full, input: "[Event \"F/S Return Match\"]\n[Site \"Belgrade, Serbia JUG\"]\n[Date \"1992.11.04\"]\n[Round \"29\"]\n[White \"Fischer, Robert J.\"]\n[Black \"Spassky, Boris V.\"]\n[Result \"1/2-1/2\"]\n\ne4\ne5\nNf3\nNc6\nBb5\na6\nBa4\nNf6\nO-O\nBe7\nRe1\nb5\nBb3\nd6\nc3\nO-O\nh3\nNb8\nd4\nNbd7\nc4\nc6\ncxb5\naxb5\nNc3\nBb7\nBg5\nb4\nNb1\nh6\nBh4\nc5\ndxe5\nNxe4\nBxe7\nQxe7\nexd6\nQf6\nNbd2\nNxd6\nNc4\nNxc4\nBxc4\nNb6\nNe5\nRae8\nBxf7+\nRxf7\nNxf7\nRxe1+\nQxe1\nKxf7\nQe3\nQg5\nQxg5\nhxg5\nb3\nKe6\na3\nKd6\naxb4\ncxb4\nRa5\nNd5\nf3\nBc8\nKf2\nBf5\nRa7\ng6\nRa6+\nKc5\nKe1\nNf4\ng3\nNxh3\nKd2\nKb5\nRd6\nKc5\nRa6\nNf2\ng4\nBd3\nRe6\n1/2-1/2\n",
            output: "[Event \"F/S Return Match\"]\n[Site \"Belgrade, Serbia JUG\"]\n[Date \"1992.11.04\"]\n[Round \"29\"]\n[White \"Fischer, Robert J.\"]\n[Black \"Spassky, Boris V.\"]\n[Result \"1/2-1/2\"]\n\n1. e4 e5 2. Nf3 Nc6 3. Bb5 a6 4. Ba4 Nf6 5. O-O Be7 6. Re1 b5 7. Bb3 d6 8. c3\nO-O 9. h3 Nb8 10. d4 Nbd7 11. c4 c6 12. cxb5 axb5 13. Nc3 Bb7 14. Bg5 b4 15.\nNb1 h6 16. Bh4 c5 17. dxe5 Nxe4 18. Bxe7 Qxe7 19. exd6 Qf6 20. Nbd2 Nxd6 21.\nNc4 Nxc4 22. Bxc4 Nb6 23. Ne5 Rae8 24. Bxf7+ Rxf7 25. Nxf7 Rxe1+ 26. Qxe1 Kxf7\n27. Qe3 Qg5 28. Qxg5 hxg5 29. b3 Ke6 30. a3 Kd6 31. axb4 cxb4 32. Ra5 Nd5 33.\nf3 Bc8 34. Kf2 Bf5 35. Ra7 g6 36. Ra6+ Kc5 37. Ke1 Nf4 38. g3 Nxh3 39. Kd2 Kb5\n40. Rd6 Kc5 41. Ra6 Nf2 42. g4 Bd3 43. Re6 1/2-1/2\n\n", verdict: Verdict::Converted { games: 1, plies: 85 } },
    ]
}

/// Inputs of a few tokens, and none.
#[rattlefmt::skip]
pub fn few_tokens() -> &'static [Vector] {
    &[
        Vector { name: "empty-input", mode: Mode::Full, input: "",
            output: "", verdict: Verdict::Converted { games: 0, plies: 0 } },
        Vector { name: "an escape alone", mode: Mode::Full, input: "% *",
            output: "", verdict: Verdict::Converted { games: 0, plies: 0 } },
        Vector { name: "comments alone", mode: Mode::Full, input: " {a}\r\n;b",
            output: "", verdict: Verdict::Converted { games: 0, plies: 0 } },
        Vector { name: "marker-alone", mode: Mode::Full, input: "*",
            output: "[Event \"?\"]\n[Site \"?\"]\n[Date \"????.??.??\"]\n[Round \"?\"]\n[White \"?\"]\n[Black \"?\"]\n[Result \"*\"]\n\n*\n\n", verdict: Verdict::Converted { games: 1, plies: 0 } },
        Vector { name: "split-two", mode: Mode::Full, input: "* *",
            output: "[Event \"?\"]\n[Site \"?\"]\n[Date \"????.??.??\"]\n[Round \"?\"]\n[White \"?\"]\n[Black \"?\"]\n[Result \"*\"]\n\n*\n\n[Event \"?\"]\n[Site \"?\"]\n[Date \"????.??.??\"]\n[Round \"?\"]\n[White \"?\"]\n[Black \"?\"]\n[Result \"*\"]\n\n*\n\n", verdict: Verdict::Converted { games: 2, plies: 0 } },
        Vector { name: "two games", mode: Mode::Full, input: "1. e4 *1. d4 d5 *",
            output: "[Event \"?\"]\n[Site \"?\"]\n[Date \"????.??.??\"]\n[Round \"?\"]\n[White \"?\"]\n[Black \"?\"]\n[Result \"*\"]\n\n1. e4 *\n\n[Event \"?\"]\n[Site \"?\"]\n[Date \"????.??.??\"]\n[Round \"?\"]\n[White \"?\"]\n[Black \"?\"]\n[Result \"*\"]\n\n1. d4 d5 *\n\n", verdict: Verdict::Converted { games: 2, plies: 3 } },
        Vector { name: "one move", mode: Mode::Full, input: "1. e4 *",
            output: "[Event \"?\"]\n[Site \"?\"]\n[Date \"????.??.??\"]\n[Round \"?\"]\n[White \"?\"]\n[Black \"?\"]\n[Result \"*\"]\n\n1. e4 *\n\n", verdict: Verdict::Converted { games: 1, plies: 1 } },
    ]
}

/// Suffixes, NAGs and move numbers.
#[rattlefmt::skip]
pub fn glyphs_and_numbers() -> &'static [Vector] {
    &[
        Vector { name: "suffix-glyph", mode: Mode::Full, input: "1.e4! e5 *",
            output: "[Event \"?\"]\n[Site \"?\"]\n[Date \"????.??.??\"]\n[Round \"?\"]\n[White \"?\"]\n[Black \"?\"]\n[Result \"*\"]\n\n1. e4 $1 1... e5 *\n\n", verdict: Verdict::Converted { games: 1, plies: 2 } },
        Vector { name: "all suffixes", mode: Mode::Full, input: "e4! e5? d4!! d5?? c4!? c5?! *",
            output: "[Event \"?\"]\n[Site \"?\"]\n[Date \"????.??.??\"]\n[Round \"?\"]\n[White \"?\"]\n[Black \"?\"]\n[Result \"*\"]\n\n1. e4 $1 1... e5 $2 2. d4 $3 2... d5 $4 3. c4 $5 3... c5 $6 *\n\n", verdict: Verdict::Converted { games: 1, plies: 6 } },
        Vector { name: "an empty comment", mode: Mode::Full, input: "1. e4 {} e5 *",
            output: "[Event \"?\"]\n[Site \"?\"]\n[Date \"????.??.??\"]\n[Round \"?\"]\n[White \"?\"]\n[Black \"?\"]\n[Result \"*\"]\n\n1. e4 { } 1... e5 *\n\n", verdict: Verdict::Converted { games: 1, plies: 2 } },
        Vector { name: "a glyph before a move", mode: Mode::Full, input: "$7 e4 *",
            output: "[Event \"?\"]\n[Site \"?\"]\n[Date \"????.??.??\"]\n[Round \"?\"]\n[White \"?\"]\n[Black \"?\"]\n[Result \"*\"]\n\n$7 1. e4 *\n\n", verdict: Verdict::Converted { games: 1, plies: 1 } },
        Vector { name: "clock comments", mode: Mode::Full, input: "1. e4 {[%clk 0:03:00]} 1... e5 {[%clk 0:03:00]} *",
            output: "[Event \"?\"]\n[Site \"?\"]\n[Date \"????.??.??\"]\n[Round \"?\"]\n[White \"?\"]\n[Black \"?\"]\n[Result \"*\"]\n\n1. e4 { [%clk 0:03:00] } 1... e5 { [%clk 0:03:00] } *\n\n", verdict: Verdict::Converted { games: 1, plies: 2 } },
        Vector { name: "noisy-numbers", mode: Mode::Full, input: "7. e4 ... d5 9 ed5 *",
            output: "[Event \"?\"]\n[Site \"?\"]\n[Date \"????.??.??\"]\n[Round \"?\"]\n[White \"?\"]\n[Black \"?\"]\n[Result \"*\"]\n\n1. e4 d5 2. exd5 *\n\n", verdict: Verdict::Converted { games: 1, plies: 3 } },
        Vector { name: "digits and periods alone", mode: Mode::Full, input: "1 ... . 22 *",
            output: "[Event \"?\"]\n[Site \"?\"]\n[Date \"????.??.??\"]\n[Round \"?\"]\n[White \"?\"]\n[Black \"?\"]\n[Result \"*\"]\n\n*\n\n", verdict: Verdict::Converted { games: 1, plies: 0 } },
    ]
}

/// Moves and marks that are spelled in another way than they are written.
#[rattlefmt::skip]
pub fn spellings() -> &'static [Vector] {
    &[
        Vector { name: "a rank joined to a move", mode: Mode::Full, input: "2e4 *",
            output: "[Event \"?\"]\n[Site \"?\"]\n[Date \"????.??.??\"]\n[Round \"?\"]\n[White \"?\"]\n[Black \"?\"]\n[Result \"*\"]\n\n1. e4 *\n\n", verdict: Verdict::Converted { games: 1, plies: 1 } },
        Vector { name: "a letter for pawns", mode: Mode::Full, input: "Pe4 e7e5 Ng1f3 *",
            output: "[Event \"?\"]\n[Site \"?\"]\n[Date \"????.??.??\"]\n[Round \"?\"]\n[White \"?\"]\n[Black \"?\"]\n[Result \"*\"]\n\n1. e4 e5 2. Nf3 *\n\n", verdict: Verdict::Converted { games: 1, plies: 3 } },
        Vector { name: "marks decide nothing", mode: Mode::Full, input: "exe4+# e5# *",
            output: "[Event \"?\"]\n[Site \"?\"]\n[Date \"????.??.??\"]\n[Round \"?\"]\n[White \"?\"]\n[Black \"?\"]\n[Result \"*\"]\n\n1. e4 e5 *\n\n", verdict: Verdict::Converted { games: 1, plies: 2 } },
        Vector { name: "a glyph with zeros in front", mode: Mode::Full, input: "e4 $00255 *",
            output: "[Event \"?\"]\n[Site \"?\"]\n[Date \"????.??.??\"]\n[Round \"?\"]\n[White \"?\"]\n[Black \"?\"]\n[Result \"*\"]\n\n1. e4 $255 *\n\n", verdict: Verdict::Converted { games: 1, plies: 1 } },
    ]
}

/// Comments, and a game that ends in mate.
#[rattlefmt::skip]
pub fn comments() -> &'static [Vector] {
    &[
        Vector { name: "a comment to the end of a line", mode: Mode::Full, input: "e4 ;a b\r\n e5 *",
            output: "[Event \"?\"]\n[Site \"?\"]\n[Date \"????.??.??\"]\n[Round \"?\"]\n[White \"?\"]\n[Black \"?\"]\n[Result \"*\"]\n\n1. e4 { a b } 1... e5 *\n\n", verdict: Verdict::Converted { games: 1, plies: 2 } },
        Vector { name: "no move stands in a comment", mode: Mode::Full, input: "e4 {Nf3 (d4) 1-0 [A]} e5 *",
            output: "[Event \"?\"]\n[Site \"?\"]\n[Date \"????.??.??\"]\n[Round \"?\"]\n[White \"?\"]\n[Black \"?\"]\n[Result \"*\"]\n\n1. e4 { Nf3 (d4) 1-0 [A] } 1... e5 *\n\n", verdict: Verdict::Converted { games: 1, plies: 2 } },
        Vector { name: "bytes from 128 in a comment", mode: Mode::Full, input: "e4 {schön} *",
            output: "[Event \"?\"]\n[Site \"?\"]\n[Date \"????.??.??\"]\n[Round \"?\"]\n[White \"?\"]\n[Black \"?\"]\n[Result \"*\"]\n\n1. e4 { schön } *\n\n", verdict: Verdict::Converted { games: 1, plies: 1 } },
        Vector { name: "comments about a game", mode: Mode::Full, input: "; a comment between games\n{ another } e4 { w } *",
            output: "[Event \"?\"]\n[Site \"?\"]\n[Date \"????.??.??\"]\n[Round \"?\"]\n[White \"?\"]\n[Black \"?\"]\n[Result \"*\"]\n\n1. e4 { w } *\n\n", verdict: Verdict::Converted { games: 1, plies: 1 } },
        Vector { name: "scholar's mate", mode: Mode::Full, input: "1. e4 e5 2. Bc4 Nc6 3. Qh5 Nf6 4. Qxf7 *",
            output: "[Event \"?\"]\n[Site \"?\"]\n[Date \"????.??.??\"]\n[Round \"?\"]\n[White \"?\"]\n[Black \"?\"]\n[Result \"*\"]\n\n1. e4 e5 2. Bc4 Nc6 3. Qh5 Nf6 4. Qxf7# *\n\n", verdict: Verdict::Converted { games: 1, plies: 7 } },
    ]
}

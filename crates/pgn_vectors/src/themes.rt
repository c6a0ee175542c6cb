// Written by bin/write_vectors from vectors/*.toml.
//! The tables of all themes.
use crate::Vector;

mod faults;
mod limits;
mod main_lines;
mod position_faults;
mod positions;
mod tag_pairs;
mod variations;

/// Returns every table, theme by theme.
pub fn tables() -> [&'static [Vector]; 42] {
    [
        faults::tokens(),
        faults::tag_pairs(),
        faults::moves(),
        faults::ends_and_order(),
        faults::tokens_in_movetext(),
        faults::misplaced_in_movetext(),
        faults::ends_in_movetext(),
        faults::second_games(),
        limits::symbols_and_names(),
        limits::values(),
        limits::escaped_values(),
        limits::pairs(),
        limits::more_pairs(),
        limits::depth(),
        limits::words(),
        main_lines::sample_game(),
        main_lines::few_tokens(),
        main_lines::glyphs_and_numbers(),
        main_lines::spellings(),
        main_lines::comments(),
        position_faults::moves(),
        position_faults::other_faults(),
        position_faults::fields(),
        position_faults::whole_positions(),
        positions::disambiguation(),
        positions::en_passant(),
        positions::castling_and_promotion(),
        positions::numbers(),
        positions::boards(),
        positions::set_up(),
        positions::names_like_set_up(),
        tag_pairs::results(),
        tag_pairs::order_and_escapes(),
        tag_pairs::comments(),
        tag_pairs::beginnings(),
        tag_pairs::set_up(),
        variations::one_variation(),
        variations::nested(),
        variations::contents(),
        variations::games(),
        variations::unfinished(),
        variations::misplaced(),
    ]
}

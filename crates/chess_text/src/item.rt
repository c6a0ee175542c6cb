//! What each byte of the first field of a FEN means. (PGN 16.1.3.1)

ghost use Rattle.std.specs.Prelude.{◌≡◌};
ghost use Rattle.chess_text.specs.Items as spec;

use chess_rules::rank_words;

// What a byte means: the first square, and how many squares there are. Those behind the first are
// empty. The word for the first one is that of a rank with it on file a alone.
#[derive(Clone, Copy)]
pub(crate) struct Item {
    pub(crate) lanes: u32,
    pub(crate) width: u8,
}

// A digit of a run of empty squares.
macro_rules! run {
    ($width:literal) => {
        Item {
            lanes: 0,
            width: $width,
        }
    };
}

// The letter of a piece.
macro_rules! piece {
    ($lanes:expr) => {
        Item {
            lanes: $lanes,
            width: 1,
        }
    };
}

// The table below has names of three letters. Names with RU are runs. Those of pieces have the
// colour first. BAD is any other byte: more squares than a rank has.
const RU1: Item = run!(1);

const RU2: Item = run!(2);

const RU3: Item = run!(3);

const RU4: Item = run!(4);

const RU5: Item = run!(5);

const RU6: Item = run!(6);

const RU7: Item = run!(7);

const RU8: Item = run!(8);

const WKI: Item = piece!(rank_words::WHITE_KING);

const WQU: Item = piece!(rank_words::WHITE_QUEEN);

const WRO: Item = piece!(rank_words::WHITE_ROOK);

const WBI: Item = piece!(rank_words::WHITE_BISHOP);

const WKN: Item = piece!(rank_words::WHITE_KNIGHT);

const WPA: Item = piece!(rank_words::WHITE_PAWN);

const BKI: Item = piece!(rank_words::BLACK_KING);

const BQU: Item = piece!(rank_words::BLACK_QUEEN);

const BRO: Item = piece!(rank_words::BLACK_ROOK);

const BBI: Item = piece!(rank_words::BLACK_BISHOP);

const BKN: Item = piece!(rank_words::BLACK_KNIGHT);

const BPA: Item = piece!(rank_words::BLACK_PAWN);

const BAD: Item = run!(9);

// What each byte means, from byte 0 on.
static ITEMS: [Item; 256] = [
    BAD, BAD, BAD, BAD, BAD, BAD, BAD, BAD, BAD, BAD, BAD, BAD, BAD, BAD, BAD, BAD, BAD, BAD, BAD,
    BAD, BAD, BAD, BAD, BAD, BAD, BAD, BAD, BAD, BAD, BAD, BAD, BAD, BAD, BAD, BAD, BAD, BAD, BAD,
    BAD, BAD, BAD, BAD, BAD, BAD, BAD, BAD, BAD, BAD, BAD, RU1, RU2, RU3, RU4, RU5, RU6, RU7, RU8,
    BAD, BAD, BAD, BAD, BAD, BAD, BAD, BAD, BAD, WBI, BAD, BAD, BAD, BAD, BAD, BAD, BAD, BAD, WKI,
    BAD, BAD, WKN, BAD, WPA, WQU, WRO, BAD, BAD, BAD, BAD, BAD, BAD, BAD, BAD, BAD, BAD, BAD, BAD,
    BAD, BAD, BAD, BBI, BAD, BAD, BAD, BAD, BAD, BAD, BAD, BAD, BKI, BAD, BAD, BKN, BAD, BPA, BQU,
    BRO, BAD, BAD, BAD, BAD, BAD, BAD, BAD, BAD, BAD, BAD, BAD, BAD, BAD, BAD, BAD, BAD, BAD, BAD,
    BAD, BAD, BAD, BAD, BAD, BAD, BAD, BAD, BAD, BAD, BAD, BAD, BAD, BAD, BAD, BAD, BAD, BAD, BAD,
    BAD, BAD, BAD, BAD, BAD, BAD, BAD, BAD, BAD, BAD, BAD, BAD, BAD, BAD, BAD, BAD, BAD, BAD, BAD,
    BAD, BAD, BAD, BAD, BAD, BAD, BAD, BAD, BAD, BAD, BAD, BAD, BAD, BAD, BAD, BAD, BAD, BAD, BAD,
    BAD, BAD, BAD, BAD, BAD, BAD, BAD, BAD, BAD, BAD, BAD, BAD, BAD, BAD, BAD, BAD, BAD, BAD, BAD,
    BAD, BAD, BAD, BAD, BAD, BAD, BAD, BAD, BAD, BAD, BAD, BAD, BAD, BAD, BAD, BAD, BAD, BAD, BAD,
    BAD, BAD, BAD, BAD, BAD, BAD, BAD, BAD, BAD, BAD, BAD, BAD, BAD, BAD, BAD, BAD, BAD, BAD, BAD,
    BAD, BAD, BAD, BAD, BAD, BAD, BAD, BAD, BAD,
];

// What the byte means.
//
// It comes from a table. A branch for each byte would mostly be mispredicted.
pub(crate) fn item_of(byte: u8) -> Item
    ensures { result ≡ spec.item byte }
{
    ITEMS[byte as usize]
}

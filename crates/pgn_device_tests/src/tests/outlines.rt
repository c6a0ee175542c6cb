//! Vectors whose output is told part by part: which token writes it, and which bytes decide that.
use pgn_game::{Fault, Totals};
use pgn_vectors::{Vector, Verdict, agrees, tables};
use std::process::Abort;

/// A part of an output.
#[derive(Clone, Copy, Debug)]
pub struct Part {
    /// The place of the token that writes it.
    pub at: u64,
    /// It has to be written when so many bytes were read: they decide that token.
    pub read: usize,
    /// It ends with this byte of the output, counted from 1.
    pub end: usize,
}

/// A vector with the parts of its output.
#[derive(Clone, Copy, Debug)]
pub struct Outline {
    /// The name of the vector.
    pub name: &'static str,
    /// The parts, in order.
    pub parts: &'static [Part],
    /// The verdict is known when so many bytes were read.
    pub read: usize,
}

/// What only the end of the input decides.
const END: usize = usize::MAX;

/// A part: the place of its token, the bytes that decide it, and its end.
macro_rules! part {
    ($at:expr, $read:expr, $end:expr) => {
        Part { at: $at, read: $read, end: $end }
    };
}

const OUTLINES: &[Outline] = &[
    Outline {
        name: "empty-input",
        parts: &[],
        read: END,
    },
    Outline {
        name: "marker-alone",
        parts: &[part!(0, 1, 96)],
        read: END,
    },
    Outline {
        name: "split-two",
        parts: &[part!(0, 1, 96), part!(2, 3, 192)],
        read: END,
    },
    // Each tag section at the move number, and the moves at the marker.
    Outline {
        name: "two games",
        parts: &[
            part!(0, 2, 93),
            part!(6, 7, 102),
            part!(7, 9, 195),
            part!(16, 17, 207),
        ],
        read: END,
    },
    // The marker may go on until the input ends.
    Outline {
        name: "fools-mate",
        parts: &[part!(15, 18, 95), part!(28, END, 120)],
        read: END,
    },
    // Each line at the move that begins the next one, with its number.
    Outline {
        name: "sample-game",
        parts: &[
            part!(167, 170, 167),
            part!(221, 225, 245),
            part!(271, 275, 322),
            part!(324, 328, 399),
            part!(383, 387, 478),
            part!(433, 436, 556),
            part!(488, 492, 635),
            part!(515, 523, 687),
        ],
        read: END,
    },
    Outline {
        name: "sibling-variations, reduced",
        parts: &[part!(0, 2, 93), part!(28, 29, 105)],
        read: END,
    },
    Outline {
        name: "32 variations",
        parts: &[
            part!(0, 3, 93),
            part!(40, 43, 173),
            part!(80, 83, 253),
            part!(120, 123, 333),
            part!(159, 160, 413),
            part!(163, 164, 422),
        ],
        read: END,
    },
    // The brace after the word decides the word and itself.
    Outline {
        name: "long-word",
        parts: &[
            part!(0, 2, 93),
            part!(7, 87, 101),
            part!(86, 87, 181),
            part!(88, 89, 186),
        ],
        read: END,
    },
    Outline {
        name: "64 pairs",
        parts: &[part!(577, 578, 736)],
        read: END,
    },
    Outline {
        name: "a line that is full before the fault",
        parts: &[part!(0, 3, 93), part!(4, 77, 101), part!(80, 83, 178)],
        read: 87,
    },
    Outline {
        name: "a word that ends with the input",
        parts: &[part!(0, 2, 93), part!(7, END, 101)],
        read: END,
    },
];

/// The outlines, behind a call, so that no proof of a loop sees them all.
pub fn outlines() -> &'static [Outline] {
    OUTLINES
}

fn vector_in(table: &'static [Vector], name: &str) -> Option<&'static Vector> {
    for vector in table {
        if vector.name == name {
            return Some(vector);
        }
    }
    None
}

impl Outline {
    /// The vector of that name.
    pub fn vector(&self) -> Option<&'static Vector> {
        for table in tables() {
            let found = vector_in(table, self.name);
            if found.is_some() {
                return found;
            }
        }
        None
    }

    /// The place of the token that writes the byte after so many of the output.
    pub fn place(&self, written: usize) -> Option<u64> {
        for part in self.parts {
            if written < part.end {
                return Some(part.at);
            }
        }
        None
    }

    /// How many bytes of output have to be written when so many of the input were read.
    pub fn due(&self, read: usize) -> usize {
        let mut end = 0;
        for part in self.parts {
            if part.read <= read {
                end = part.end;
            }
        }
        end
    }
}

impl Part {
    /// Whether the part is behind the other one.
    fn is_behind(&self, other: &Part) -> bool {
        other.end < self.end && other.read <= self.read && other.at <= self.at
    }
}

/// The run gave the vector's verdict and output.
pub fn assert_agrees(rt: &impl Abort, vector: &Vector, run: Result<Totals, Fault>, text: &[u8]) {
    assert!(rt; agrees(vector, run, text), "{}: {run:?}", vector.name);
}

// The parts are in order. Returns the last one.
fn last_part(rt: &impl Abort, outline: &Outline) -> Part {
    let mut last = part!(0, 0, 0);
    for part in outline.parts {
        assert!(rt; part.is_behind(&last), "{}: {part:?}", outline.name);
        last = *part;
    }
    last
}

// The last part ends with the output.
fn fits(rt: &impl Abort, outline: &Outline, vector: &Vector) {
    let last = last_part(rt, outline);
    assert_eq!(rt; last.end, vector.output.len(), "{}", outline.name);
    assert!(rt; last.read <= outline.read, "{}", outline.name);
    if let Verdict::Refused(at, _) = vector.verdict {
        assert!(rt; last.at <= at, "{}", outline.name);
    }
}

#[test]
fn outlines_vectors(rt: HostRuntime) {
    for outline in outlines() {
        match outline.vector() {
            Some(vector) => fits(&rt, outline, vector),
            None => assert!(rt; false, "{}: no vector", outline.name),
        }
    }
}

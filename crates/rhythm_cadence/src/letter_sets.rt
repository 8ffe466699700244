//! For each letter and slot, the bar shapes that have it there.

ghost use Rattle.std.specs.Prelude.{◌≡◌, ◌<◌};
ghost use Rattle.fux_grid.specs.Shapes.{letter_of, shapes_in};
ghost use Rattle.rhythm_cadence.specs.Parts as parts;

use fux_grid::{Cell, HOLD, REST, START};

/// Sets of bar shapes, one for each slot: those where a note starts there, where one is held, and
/// where the voice rests. Bit k of a set is shape k of its species and bar, in the order of
/// `fux_grid::shapes_of`.
#[derive(Clone, Copy, Debug, PartialEq, Eq)]
pub struct LetterSets {
    pub starts: [u16; 8],
    pub holds: [u16; 8],
    pub rests: [u16; 8],
}

/// A note for the whole bar.
const WHOLE: LetterSets = LetterSets {
    starts: [1, 0, 0, 0, 0, 0, 0, 0],
    holds: [0, 1, 1, 1, 1, 1, 1, 1],
    rests: [0; 8],
};

/// Species 2.
const SECOND: LetterSets = LetterSets {
    starts: [1, 0, 0, 0, 1, 0, 0, 0],
    holds: [0, 1, 1, 1, 0, 1, 1, 1],
    rests: [0; 8],
};

/// Species 2 in the first bar.
const SECOND_FIRST: LetterSets = LetterSets {
    starts: [0b01, 0, 0, 0, 0b11, 0, 0, 0],
    holds: [0, 0b01, 0b01, 0b01, 0, 0b11, 0b11, 0b11],
    rests: [0b10, 0b10, 0b10, 0b10, 0, 0, 0, 0],
};

/// Species 3.
const THIRD: LetterSets = LetterSets {
    starts: [1, 0, 1, 0, 1, 0, 1, 0],
    holds: [0, 1, 0, 1, 0, 1, 0, 1],
    rests: [0; 8],
};

/// Species 3 in the first bar.
const THIRD_FIRST: LetterSets = LetterSets {
    starts: [0b01, 0, 0b11, 0, 0b11, 0, 0b11, 0],
    holds: [0, 0b01, 0, 0b11, 0, 0b11, 0, 0b11],
    rests: [0b10, 0b10, 0, 0, 0, 0, 0, 0],
};

/// Species 4.
const FOURTH: LetterSets = LetterSets {
    starts: [0b10, 0, 0, 0, 0b11, 0, 0, 0],
    holds: [0b01, 0b11, 0b11, 0b11, 0, 0b11, 0b11, 0b11],
    rests: [0; 8],
};

/// Species 4 in the first bar.
const FOURTH_FIRST: LetterSets = LetterSets {
    starts: [0, 0, 0, 0, 1, 0, 0, 0],
    holds: [0, 0, 0, 0, 0, 1, 1, 1],
    rests: [1, 1, 1, 1, 0, 0, 0, 0],
};

/// Species 5.
const FIFTH: LetterSets = LetterSets {
    starts: [
        0b000_0000_1111_1111,
        0,
        0b111_1000_1111_1000,
        0b001_1000_1100_0000,
        0b111_1111_1111_1011,
        0,
        0b010_1110_0111_0110,
        0b000_0100_0010_0000,
    ],
    holds: [
        0b111_1111_0000_0000,
        0b111_1111_1111_1111,
        0b000_0111_0000_0111,
        0b110_0111_0011_1111,
        0b000_0000_0000_0100,
        0b111_1111_1111_1111,
        0b101_0001_1000_1001,
        0b111_1011_1101_1111,
    ],
    rests: [0; 8],
};

/// Species 5 in the first bar.
const FIFTH_FIRST: LetterSets = LetterSets {
    starts: [
        0b0_1111_1111,
        0,
        0b0_1111_1000,
        0b0_1100_0000,
        0b1_1111_1011,
        0,
        0b0_0111_0110,
        0b0_0010_0000,
    ],
    holds: [
        0,
        0b0_1111_1111,
        0b0_0000_0111,
        0b0_0011_1111,
        0b0_0000_0100,
        0b1_1111_1111,
        0b1_1000_1001,
        0b1_1101_1111,
    ],
    rests: [
        0b1_0000_0000,
        0b1_0000_0000,
        0b1_0000_0000,
        0b1_0000_0000,
        0,
        0,
        0,
        0,
    ],
};

/// The sets for a species in a bar of an exercise of so many bars.
fn letter_sets(species: u8, bar: u8, bars: u8) -> &'static LetterSets
    ensures { parts.AreSetsOf (shapes_in species bar bars) result.now }
{
    if species == 1 || bar == bars {
        return &WHOLE;
    }
    match species {
        2 if bar == 1 => &SECOND_FIRST,
        2 => &SECOND,
        3 if bar == 1 => &THIRD_FIRST,
        3 => &THIRD,
        4 if bar == 1 => &FOURTH_FIRST,
        4 => &FOURTH,
        _ if bar == 1 => &FIFTH_FIRST,
        _ => &FIFTH,
    }
}

/// The shapes of a species in a bar that have the letter of a cell at a slot.
#[inline]
pub fn fitting_shapes(species: u8, bar: u8, bars: u8, slot: usize, cell: Cell) -> u16
    requires { slot < 8 }
    ensures { result ≡ parts.shapes_with slot (letter_of cell) (shapes_in species bar bars) }
{
    let sets = letter_sets(species, bar, bars);
    match cell {
        Cell::Start(_) => sets.starts[slot],
        Cell::Hold(_) => sets.holds[slot],
        Cell::Rest => sets.rests[slot],
    }
}

/// Whether each of these shapes has a letter at a slot.
pub fn all_have(shapes: &[[u8; 8]], slot: usize, letter: u8) -> bool
    requires { slot < 8 }
    ensures { result ≡ parts.all_have slot letter shapes.now }
{
    shapes.iter().all(|shape| shape[slot] == letter)
}

/// Whether they have one letter there, whichever it is.
pub fn are_alike(shapes: &[[u8; 8]], slot: usize) -> bool
    requires { slot < 8 }
    ensures { result ≡ parts.are_alike slot shapes.now }
{
    all_have(shapes, slot, HOLD) || all_have(shapes, slot, START) || all_have(shapes, slot, REST)
}

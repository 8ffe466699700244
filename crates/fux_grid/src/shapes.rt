//! Bar shapes: which slots of a bar rest, hold or start.

ghost use Rattle.std.specs.Prelude.{◌≡◌, ◌<◌};
ghost use Rattle.fux_grid.specs.Shapes.{allows as allows_letter, shapes_in};

/// The letter of a slot where the voice rests.
pub const REST: u8 = b'R';
/// The letter of a slot where the voice goes on with what sounds.
pub const HOLD: u8 = b'H';
/// The letter of a slot where a note starts.
pub const START: u8 = b'S';

const WHOLE: [[u8; 8]; 1] = [*b"SHHHHHHH"];

const SECOND: [[u8; 8]; 1] = [*b"SHHHSHHH"];

const SECOND_FIRST: [[u8; 8]; 2] = [*b"SHHHSHHH", *b"RRRRSHHH"];

const THIRD: [[u8; 8]; 1] = [*b"SHSHSHSH"];

const THIRD_FIRST: [[u8; 8]; 2] = [*b"SHSHSHSH", *b"RRSHSHSH"];

const FOURTH: [[u8; 8]; 2] = [*b"HHHHSHHH", *b"SHHHSHHH"];

const FOURTH_FIRST: [[u8; 8]; 1] = [*b"RRRRSHHH"];

const FIFTH: [[u8; 8]; 15] = [
    *b"SHHHSHHH",
    *b"SHHHSHSH",
    *b"SHHHHHSH",
    *b"SHSHSHHH",
    *b"SHSHSHSH",
    *b"SHSHSHSS",
    *b"SHSSSHSH",
    *b"SHSSSHHH",
    *b"HHHHSHHH",
    *b"HHHHSHSH",
    *b"HHHHSHSS",
    *b"HHSSSHSH",
    *b"HHSSSHHH",
    *b"HHSHSHSH",
    *b"HHSHSHHH",
];

const FIFTH_FIRST: [[u8; 8]; 9] = [
    *b"SHHHSHHH",
    *b"SHHHSHSH",
    *b"SHHHHHSH",
    *b"SHSHSHHH",
    *b"SHSHSHSH",
    *b"SHSHSHSS",
    *b"SHSSSHSH",
    *b"SHSSSHHH",
    *b"RRRRSHHH",
];

/// The shapes of a species in a bar of an exercise of so many bars.
pub fn shapes_of(species: u8, bar: u8, bars: u8) -> &'static [[u8; 8]]
    ensures { result.now ≡ shapes_in species bar bars }
{
    if species == 1 || bar == bars {
        return &WHOLE;
    }
    match species {
        2 if bar == 1 => &SECOND_FIRST,
        2 => &SECOND,
        3 if bar == 1 => &THIRD_FIRST,
        3 => &THIRD,
        4 if bar == 1 => &FOURTH_FIRST,
        4 => &FOURTH,
        _ if bar == 1 => &FIFTH_FIRST,
        _ => &FIFTH,
    }
}

/// Whether some shape has this letter at a slot.
pub fn allows(shapes: &[[u8; 8]], slot: usize, letter: u8) -> bool
    requires { slot < 8 }
    ensures { result ≡ allows_letter shapes.now slot letter }
{
    shapes.iter().any(|shape| shape[slot] == letter)
}

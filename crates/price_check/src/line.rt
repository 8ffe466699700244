//! The lines of lists of prices.

ghost use Rattle.std.specs.Prelude.{◌≡◌};
ghost use Rattle.price_check.specs.PriceLines.{nothing_before};

use arrayvec::ArrayVec;
use fux_pitch::Pitch;

/// The keys that part the cases of a list, from the greatest on.
pub type Keys = ArrayVec<u8, 15>;

/// A line of the lists of prices of a certificate.
#[derive(Drop)]
pub enum PriceLine {
    /// A list begins: turning notes and runs are kept, or aren't. The line `keeps`.
    Keeps {
        turns: bool,
        runs: bool,
    },
    /// The voice by whose greatest key the list's cases go, and the keys that part them. The line
    /// `cases V K1 K2 ..`.
    Cases {
        voice: u8,
        keys: Keys,
    },
    /// In a case, each note of the voice that starts on the pitch is charged so many parts. The
    /// line `price C V PITCH N`.
    Price {
        case: u8,
        voice: u8,
        pitch: Pitch,
        number: u32,
    },
    /// The line `claims`, behind the last list.
    Claims,
}

/// What stands before a line: how many lists were begun, whether the line before says what the last
/// of them keeps, how many cases that list has, none before they are told, and the place of its
/// last price among all.
#[derive(Clone, Copy, Debug, PartialEq, Eq)]
pub struct Before {
    pub lists: u8,
    pub kept: bool,
    pub cases: u8,
    pub last: u32,
}

impl Before {
    /// Nothing stands before.
    pub fn nothing() -> Before
        ensures { result ≡ nothing_before }
    {
        Before {
            lists: 0,
            kept: false,
            cases: 0,
            last: 0,
        }
    }
}

//! The turning notes of the species voice that still matter behind a column: the next turning note
//! decides of them. A step after which S8 would be strictly broken is refused.

ghost use Rattle.std.specs.Prelude.{◌≡◌};
ghost use Rattle.open_ends.specs.Notes as notes;
ghost use Rattle.open_ends.specs.Turns as words;

use crate::asked::is_asked;
use crate::keeps::Keeps;
use crate::keys::mixed;
use crate::notes::{OpenTurns, Way, noted, turn_key, turns_badly};
use crate::part::OpenPart;
use fux_grid::{Cell, Exercise, cell_of};

/// Whether turning notes are followed, and S8 is asked.
fn is_read(ex: &Exercise, keeps: Keeps) -> bool
    ensures { result ≡ words.is_read ex.now keeps }
{
    keeps.turns && is_asked(ex, 8)
}

impl OpenPart for OpenTurns {
    ghost nothing = { notes.none };

    ghost open_in = { words.open_in };

    ghost open_after = { words.open_after };

    fn none() -> OpenTurns {
        OpenTurns {
            newest: None,
            way: Way::Level,
            turning: None,
        }
    }

    fn is_same(&self, other: &OpenTurns) -> bool {
        *self == *other
    }

    fn key(&self, before: u64) -> u64 {
        mixed(before, turn_key(self))
    }

    fn after(
        ex: &Exercise,
        keeps: Keeps,
        i: usize,
        kept: &OpenTurns,
        _before: &[Cell],
        now: &[Cell],
    ) -> Option<OpenTurns> {
        if !is_read(ex, keeps) {
            return Some(OpenTurns::none());
        }
        let cell = cell_of(now, ex.species_voice as usize);
        if turns_badly(kept, cell) {
            return None;
        }
        Some(noted(ex, i, kept, cell))
    }

    fn lawful_steps_go_on() {}
}

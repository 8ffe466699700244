//! The perfect intervals of the species voice at the beginning of a bar that are still open behind
//! a column: the beginning of the next bar decides of them. A step after which S18 would be
//! strictly broken is refused.

ghost use Rattle.std.specs.Prelude.{◌≡◌};
ghost use Rattle.open_ends.specs.Parallels as words;

use crate::bar_lines::{arrives, bar_line_after, is_read};
use crate::keeps::Keeps;
use crate::keys::{key_of, mixed};
use crate::part::OpenPart;
use fux_grid::{Cell, Exercise};
use fux_pitch::Pitch;

/// The perfect intervals of the species voice at the beginning of the newest bar, while each note
/// that the voice started since stays within two degrees of its pitch there: the pitch of each
/// voice that takes part in one, and none of any voice otherwise.
#[derive(Clone, Copy, Debug, PartialEq, Eq)]
pub struct OpenParallels {
    pub pitches: [Option<Pitch>; 4],
}

/// Whether perfect intervals are followed, and S18 is asked.
fn is_followed(ex: &Exercise, keeps: Keeps) -> bool
    ensures { result ≡ words.is_followed ex.now keeps }
{
    keeps.parallels && is_read(ex)
}

impl OpenPart for OpenParallels {
    ghost nothing = { words.nothing };

    ghost open_in = { words.open_in };

    ghost open_after = { words.open_after };

    fn none() -> OpenParallels {
        OpenParallels { pitches: [None; 4] }
    }

    fn is_same(&self, other: &OpenParallels) -> bool {
        self.pitches == other.pitches
    }

    fn key(&self, before: u64) -> u64 {
        let [first, second, third, fourth] = self.pitches;
        let own = 29_791 * key_of(first) + 961 * key_of(second) + 31 * key_of(third);
        mixed(before, own + key_of(fourth))
    }

    fn after(
        ex: &Exercise,
        keeps: Keeps,
        i: usize,
        kept: &OpenParallels,
        _before: &[Cell],
        now: &[Cell],
    ) -> Option<OpenParallels> {
        if !is_followed(ex, keeps) {
            return Some(OpenParallels::none());
        }
        if arrives(ex, i, &kept.pitches, now) {
            return None;
        }
        Some(OpenParallels {
            pitches: bar_line_after(ex, i, &kept.pitches, now),
        })
    }

    fn lawful_steps_go_on() {}
}

//! The voices that may still show their cadence behind a column of the last bar but one: the
//! beginning of the last bar decides of them. A step after which S22 would be strictly broken is
//! refused.

ghost use Rattle.open_ends.specs.Cadences as words;

use crate::keeps::Keeps;
use crate::keys::mixed;
use crate::leads::{is_read, lacks_all, leads_after};
use crate::part::OpenPart;
use fux_grid::{Cell, Exercise};

/// The voices that may still show their cadence.
#[derive(Clone, Copy, Debug, PartialEq, Eq)]
pub struct OpenCadences {
    /// For each voice, behind a column of the last bar but one, whether all that came of that bar
    /// leads to its cadence, but for octaves. No voice is marked behind any other column, nor where
    /// S22 isn't asked.
    pub leads: [bool; 4],
}

impl OpenPart for OpenCadences {
    ghost nothing = { words.nothing };

    ghost open_in = { words.open_in };

    ghost open_after = { words.open_after };

    fn none() -> OpenCadences {
        OpenCadences { leads: [false; 4] }
    }

    fn is_same(&self, other: &OpenCadences) -> bool {
        self.leads == other.leads
    }

    fn key(&self, before: u64) -> u64 {
        let [first, second, third, fourth] = self.leads;
        let own = 8 * u64::from(first) + 4 * u64::from(second) + 2 * u64::from(third);
        mixed(before, own + u64::from(fourth))
    }

    fn after(
        ex: &Exercise,
        _keeps: Keeps,
        i: usize,
        kept: &OpenCadences,
        _before: &[Cell],
        now: &[Cell],
    ) -> Option<OpenCadences> {
        if !is_read(ex) {
            return Some(OpenCadences::none());
        }
        if lacks_all(ex, i, &kept.leads, now) {
            return None;
        }
        Some(OpenCadences {
            leads: leads_after(ex, i, &kept.leads, now),
        })
    }

    fn lawful_steps_go_on() {}
}

//! Whether the species voice may still hold its note over the next bar line in a clash: what the
//! note's preparation in the bar before tells. A step after which S19 or S21 would be strictly
//! broken is refused.

ghost use Rattle.std.specs.Prelude.{◌≡◌};
ghost use Rattle.open_ends.specs.Suspensions as words;

use crate::asked::is_asked;
use crate::keeps::Keeps;
use crate::keys::mixed;
use crate::part::OpenPart;
use crate::suspended::{is_bad_at, is_read, is_unprepared_at, starts_late_after};
use fux_grid::{Cell, Exercise};

/// What the next bar line asks of the note that the species voice sounds.
#[derive(Clone, Copy, Debug, PartialEq, Eq)]
pub struct OpenSuspensions {
    /// Whether the voice started a note at slot 5, 6 or 7 of the newest bar: held over the bar
    /// line, it may not clash there.
    pub late_start: bool,
}

/// Whether S19 is strictly broken in every setting that goes on so.
fn breaks_preparation(
    ex: &Exercise,
    i: usize,
    kept: &OpenSuspensions,
    before: &[Cell],
    now: &[Cell],
) -> bool
    ensures { result ≡ words.breaks_preparation ex.now i kept.now before.now now.now }
{
    is_read(ex) && is_unprepared_at(i, kept.late_start, before, now, ex.species_voice as usize)
}

/// Whether S21 is.
fn breaks_size(ex: &Exercise, i: usize, now: &[Cell]) -> bool
    ensures { result ≡ words.breaks_size ex.now i now.now }
{
    is_asked(ex, 21) && is_bad_at(i, now, ex.species_voice as usize)
}

/// What is kept.
fn still_open(ex: &Exercise, i: usize, kept: &OpenSuspensions, now: &[Cell]) -> OpenSuspensions
    ensures { result ≡ words.still_open ex.now i kept.now now.now }
{
    let v = ex.species_voice as usize;
    OpenSuspensions {
        late_start: is_read(ex) && starts_late_after(i, kept.late_start, now, v),
    }
}

impl OpenPart for OpenSuspensions {
    ghost nothing = { words.nothing };

    ghost open_in = { words.open_in };

    ghost open_after = { words.open_after };

    fn none() -> OpenSuspensions {
        OpenSuspensions { late_start: false }
    }

    fn is_same(&self, other: &OpenSuspensions) -> bool {
        self.late_start == other.late_start
    }

    fn key(&self, before: u64) -> u64 {
        mixed(before, u64::from(self.late_start))
    }

    fn after(
        ex: &Exercise,
        _keeps: Keeps,
        i: usize,
        kept: &OpenSuspensions,
        before: &[Cell],
        now: &[Cell],
    ) -> Option<OpenSuspensions> {
        if breaks_preparation(ex, i, kept, before, now) || breaks_size(ex, i, now) {
            return None;
        }
        Some(still_open(ex, i, kept, now))
    }

    fn lawful_steps_go_on() {}
}

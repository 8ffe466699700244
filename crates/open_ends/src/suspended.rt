//! Notes that the species voice holds over a bar line.

ghost use Rattle.std.specs.Prelude.{◌≡◌};
ghost use Rattle.open_ends.specs.Suspended as words;

use crate::asked::is_asked;
use dissonance_rules::is_bad_suspension;
use fux_grid::{Cell, Exercise, cell_of, slot_of, species_of};
use rule_law::{begins_bar, is_clean, starts};

/// Whether S19 is asked of the species voice.
pub(crate) fn is_read(ex: &Exercise) -> bool
    ensures { result ≡ words.is_read ex.now }
{
    is_asked(ex, 19) && matches!(species_of(ex, ex.species_voice), 4 | 5)
}

/// Whether column `i` stands at slot 5, 6 or 7, and a note of the voice started at one of these up
/// to it, where `late` tells so of those before.
pub(crate) fn starts_late_after(i: usize, late: bool, now: &[Cell], v: usize) -> bool
    ensures { result ≡ words.starts_late_after i late now.now v }
{
    slot_of(i) > 4 && (starts(cell_of(now, v)) || late)
}

/// Whether at the beginning of a bar the voice holds a note and clashes, and it started the note
/// late or wasn't clean in the column before.
pub(crate) fn is_unprepared_at(
    i: usize,
    late: bool,
    before: &[Cell],
    now: &[Cell],
    v: usize,
) -> bool
    ensures { result ≡ words.is_unprepared_at i late before.now now.now v }
{
    begins_bar(i)
        && cell_of(now, v).is_hold()
        && !is_clean(now, v)
        && (late || !is_clean(before, v))
}

/// Whether the voice is suspended against another one at a bad size.
pub(crate) fn is_bad_at(i: usize, now: &[Cell], v: usize) -> bool
    ensures { result ≡ words.is_bad_at i now.now v }
{
    [0, 1, 2, 3]
        .iter()
        .any(|w| is_bad_suspension(i, now, v, *w))
}

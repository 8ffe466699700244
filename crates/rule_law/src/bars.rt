//! Where in a setting a column stands.

ghost use Rattle.std.specs.Prelude.{◌≡◌};
ghost use Rattle.std.specs.List.{list_any};
ghost use Rattle.rule_law.specs.Bars as bars;
ghost use Rattle.rule_law.specs.Quiet as quiet;
ghost use Rattle.rule_law.specs.Terms as terms;

use crate::terms::starts;
use fux_grid::{Cell, Exercise, slot_of};

/// Whether column `i` begins a bar.
#[inline]
pub fn begins_bar(i: usize) -> bool
    ensures { result ≡ bars.begins_bar i }
{
    slot_of(i) == 0
}

/// Whether column `i` begins a bar that is neither the first nor the last.
#[inline]
pub fn begins_inner_bar(ex: &Exercise, i: usize) -> bool
    ensures { result ≡ bars.begins_inner_bar ex.now i }
{
    begins_bar(i) && i >= 8 && i / 8 + 1 < usize::from(ex.bars)
}

/// Whether a note starts in some voice.
#[inline]
fn some_start(column: &[Cell]) -> bool
    ensures { result ≡ list_any terms.starts column.now }
{
    column.iter().any(|cell| starts(*cell))
}

/// Whether at column `i` no bar begins, and no note starts in it.
#[inline]
pub fn is_quiet(i: usize, column: &[Cell]) -> bool
    ensures { result ≡ quiet.is_quiet i column.now }
{
    !begins_bar(i) && !some_start(column)
}

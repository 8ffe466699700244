//! Where in a setting a column stands.

ghost use Rattle.std.specs.Prelude.{◌≡◌, ◌<◌};
ghost use Rattle.fux_grid.specs.Exercises as words;

use crate::exercise::Place;

/// The bar of a column, counted from 1.
#[inline]
pub fn bar_of(i: usize) -> u8
    requires { i < 2040 }
    ensures { result ≡ words.bar_of i }
{
    (i / 8 + 1) as u8
}

/// The slot of a column within its bar, counted from 0.
#[inline]
pub fn slot_of(i: usize) -> usize
    ensures value { result ≡ words.slot_of i }
    ensures bound { result < 8 }
{
    i % 8
}

/// The place of a column.
#[inline]
pub fn place_of(i: usize) -> Place
    requires { i < 2040 }
    ensures bar { result.bar ≡ words.bar_of i }
    ensures slot { result.slot ≡ words.slot_of i }
{
    Place {
        bar: bar_of(i),
        slot: slot_of(i) as u8,
    }
}

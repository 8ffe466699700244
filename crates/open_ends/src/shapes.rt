//! The bar shapes that the species voice may still have behind a column, in the fifth species: the
//! rest of the bar decides of them. A step after which no shape is left is refused.

ghost use Rattle.std.specs.Prelude.{◌≡◌, ◌<◌};
ghost use Rattle.open_ends.specs.Shapes as words;

use crate::keeps::Keeps;
use crate::keys::mixed;
use crate::part::OpenPart;
use fux_grid::{Cell, Exercise, bar_of, cell_of, slot_of, species_of};
use rhythm_cadence::fitting_shapes;
use rule_law::begins_bar;

/// The shapes that the species voice may still have in a bar that isn't whole.
#[derive(Clone, Copy, Debug, PartialEq, Eq)]
pub struct OpenShapes {
    /// Bit k is shape k of the voice's species in the bar, in the order of `fux_grid::shapes_of`.
    /// No bit stands between two bars, nor where shapes aren't followed.
    pub possible: u16,
}

/// Whether shapes are followed: the species voice goes by the fifth species.
fn is_florid(ex: &Exercise) -> bool
    ensures { result ≡ words.is_florid ex.now }
{
    species_of(ex, ex.species_voice) == 5
}

/// The shapes that the species voice may still have with a column, where these were possible before
/// it in its bar.
fn shapes_left(ex: &Exercise, i: usize, before: &OpenShapes, column: &[Cell]) -> u16
    requires { i < 2040 }
    ensures { result ≡ words.shapes_left ex.now i before.now column.now }
{
    let v = ex.species_voice;
    let cell = cell_of(column, v as usize);
    let fitting = fitting_shapes(species_of(ex, v), bar_of(i), ex.bars, slot_of(i), cell);
    if begins_bar(i) {
        fitting
    } else {
        before.possible & fitting
    }
}

impl OpenPart for OpenShapes {
    ghost nothing = { words.nothing };

    ghost open_in = { words.open_in };

    ghost open_after = { words.open_after };

    fn none() -> OpenShapes {
        OpenShapes { possible: 0 }
    }

    fn is_same(&self, other: &OpenShapes) -> bool {
        self.possible == other.possible
    }

    fn key(&self, before: u64) -> u64 {
        mixed(before, u64::from(self.possible))
    }

    fn after(
        ex: &Exercise,
        _keeps: Keeps,
        i: usize,
        kept: &OpenShapes,
        _before: &[Cell],
        now: &[Cell],
    ) -> Option<OpenShapes> {
        if !is_florid(ex) {
            return Some(OpenShapes::none());
        }
        let left = shapes_left(ex, i, kept, now);
        if left == 0 {
            return None;
        }
        let possible = if begins_bar(i + 1) { 0 } else { left };
        Some(OpenShapes { possible })
    }

    fn lawful_steps_go_on() {}
}

//! What a part of the open ends has.

ghost use Rattle.std.specs.Prelude.{◌≡◌, ◌↔◌, ◌<◌, IsTrue};
ghost use Rattle.fux_grid.specs.declared.exercise.Exercise.{Exercise as AnExercise};
ghost use Rattle.open_ends.specs.declared.keeps.Keeps.{Keeps as WhatIsKept};
ghost use Rattle.open_ends.specs.Parts.{FollowsLawful, HasVoices, Step, Waits};

use crate::keeps::Keeps;
use fux_grid::{Cell, Exercise};

/// What waits behind a column for later ones, as far as some rules or tolls ask for it.
pub trait OpenPart: Copy {
    /// Nothing waits.
    ghost nothing: { Self };

    /// What waits behind some columns.
    ghost open_in: { Waits Self };

    /// What waits behind one column more.
    ghost open_after: { Step Self };

    /// Nothing waits.
    fn none() -> Self
        ensures { result ≡ nothing };

    /// Whether both wait for the same.
    fn is_same(&self, other: &Self) -> bool
        ensures { IsTrue result ↔ (self.now ≡ other.now) };

    /// A number by which it may be looked up together with what has this number.
    fn key(&self, before: u64) -> u64;

    /// What waits behind column `i`, where this waited before it; none where no lawful setting goes
    /// on so.
    fn after(
        ex: &Exercise,
        keeps: Keeps,
        i: usize,
        kept: &Self,
        before: &[Cell],
        now: &[Cell],
    ) -> Option<Self>
        requires { i < 2040 }
        ensures { result ≡ open_after ex.now keeps i kept.now before.now now.now };

    /// From prefix to prefix of a lawful setting no step is refused, and each leads to what waits
    /// behind its column: a theorem, which costs nothing when it's called.
    fn lawful_steps_go_on()
        ensures { (ex : AnExercise) (keeps : WhatIsKept) → HasVoices ex
            → FollowsLawful ex nothing (open_in ex keeps) (open_after ex keeps) };
}

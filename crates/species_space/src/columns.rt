//! The settings at the ends of paths.

ghost use Rattle.std.specs.Prelude.{◌≡◌, ◌<◌, ◌≤◌, true, [], IfOk, length, slice_index_or};
ghost use Rattle.fux_grid.specs.declared.exercise.Exercise.{Exercise};
ghost use Rattle.fux_grid.specs.Exercises.{IsValid, columns_in};
ghost use Rattle.fux_grid.specs.Menus.{menu_of};
ghost use Rattle.species_space.specs.Paths.{prefix_at, is_alive_path};

use fux_grid::{Column, Score};
use fux_pitch::Memory;
use std::alloc::Global;

/// A space whose numbers choose columns of an exercise's menus.
pub trait MenuColumns {
    /// The exercise.
    ghost exercise: { Self → Exercise };

    /// How many voices there are.
    fn voices(&self) -> u8
        ensures value { result ≡ (exercise self.now).voices }
        ensures fewest { 2 ≤ result }
        ensures most { result ≤ 4 }
        ensures short { columns_in (exercise self.now) ≤ 192 }
        ensures valid { IsValid (exercise self.now) };

    /// The column of a number in the menu of a place.
    fn column(&self, i: usize, k: usize) -> &Column
        requires place { i < columns_in (exercise self.now) }
        requires within { k < length (menu_of (exercise self.now) i) }
        ensures { result.now.items ≡ slice_index_or (menu_of (exercise self.now) i) k [] };
}

/// The columns that a live path of the space leads to.
pub fn score_of<S: MenuColumns>(alloc: Global, space: &S, path: &[u16]) -> Result<Score, Memory>
    requires { is_alive_path (S.exercise space.now) path.now ≡ true }
    ensures { IfOk result (λ score. score ≡ record {
      voices = (S.exercise space.now).voices;
      columns
          = prefix_at (S.exercise space.now) path.now;
    }) }
{
    let mut score = Score::new(alloc, space.voices())?;
    for (i, number) in path.iter().enumerate() {
        let column = space.column(i, *number as usize);
        let Ok(()) = score.push(column.clone()?) else {
            unreachable!()
        };
    }
    Ok(score)
}

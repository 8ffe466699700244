//! The canon at the end of a path.

ghost use Rattle.std.specs.Prelude.{◌≡◌, ◌<◌, ◌≤◌, ◌+◌, ◌*◌, ◌++◌, ◌∷◌, [], IfOk, IsSome, length};
ghost use Rattle.fux_grid.specs.Columns.{FollowsLast};
ghost use Rattle.canon_space.specs.Paths.{bars_at, live_at, numbered_bar};
ghost use Rattle.canon_space.specs.Rules as rules;
ghost use Rattle.canon_space.specs.Rules.{columns_of, columns_of_bar};

use crate::bars::numbered_bar;
use crate::space::CanonSpace;
use fux_grid::{Cell, Column, Score, cell_of};
use fux_pitch::Memory;
use std::alloc::Global;

/// A column of two voices.
fn column_of(lower: Cell, upper: Cell) -> Column
    ensures { result.items ≡ lower ∷ upper ∷ [] }
{
    let mut column = Column::new();
    column.push(lower);
    column.push(upper);
    column
}

/// What a voice does within a bar that it begins so.
fn goes_on(cell: Cell) -> Cell
    ensures { result ≡ rules.goes_on cell }
{
    match cell {
        Cell::Rest => Cell::Rest,
        Cell::Hold(pitch) | Cell::Start(pitch) => Cell::Hold(pitch),
    }
}

/// Appends a column that may come next.
fn put_column(score: &mut Score, lower: Cell, upper: Cell)
    requires voices { score.old.voices ≡ 2 }
    requires room { length score.old.columns < 192 }
    requires follows { FollowsLast score.old.columns (lower ∷ upper ∷ []) }
    ensures { score.new ≡ record score.old {
      columns = score.old.columns ++ (lower ∷ upper ∷ [])
          ∷ [];
    } }
{
    let Ok(()) = score.push(column_of(lower, upper)) else {
        unreachable!()
    };
}

/// Appends the bar of a child's number.
fn put_bar(score: &mut Score, k: usize)
    requires number { k < 5476 }
    requires voices { score.old.voices ≡ 2 }
    requires room { length score.old.columns + 8 ≤ 192 }
    ensures { score.new ≡ record score.old {
      columns = score.old.columns
          ++ columns_of_bar (numbered_bar k);
    } }
{
    let bar = numbered_bar(k);
    let lower = cell_of(&bar.cells, 0);
    let upper = cell_of(&bar.cells, 1);
    put_column(score, lower, upper);
    for _ in 0..7_usize {
        put_column(score, goes_on(lower), goes_on(upper));
    }
}

/// The columns of the bars that a live path of the space leads to.
#[tactic(auto, using(crate::proofs::ScoreSteps::eight_a_number))]
pub fn canon_score(alloc: Global, space: &CanonSpace, path: &[u16]) -> Result<Score, Memory>
    requires { IsSome (live_at space.now.canon space.now.sheet path.now) }
    ensures value { IfOk result (λ score. score ≡ record {
      voices = 2;
      columns = columns_of (bars_at path.now);
    }) }
    ensures counted { length (columns_of (bars_at path.now)) ≡ 8 * length path.now }
{
    let _ = space.canon();
    let mut score = Score::new(alloc, 2)?;
    for k in path {
        put_bar(&mut score, usize::from(*k));
    }
    Ok(score)
}

//! Best first, for the first leaf of least value.
ghost use Rattle.std.specs.Prelude.{◌≡◌, ◌+◌, ◌↔◌, IfOk};
ghost use Rattle.tree_search.specs.Answer.{IsFirstLeast, HasNoLeaf, BoundsLeaves, Many, AtMost, IsLoaded, IsLiveBelowRoot, AreLowerLoadsWithin, IsOverBudget};
ghost use Rattle.tree_search.specs.Outcomes.{IfFound, OnNothing, IfSpent, IsSpent};
ghost use Rattle.tree_search.specs.Numbered.{first_of};

use crate::front::search_nth;
use crate::outcome::{Numbered, Outcome};
use crate::space::Space;
use fux_pitch::Memory;
use std::alloc::Global;

/// What is told where the leaf of the number 1 was asked for.
fn first_of(numbered: Numbered) -> Outcome
    ensures { result ≡ first_of numbered }
{
    match numbered {
        Numbered::Found { path, value } => Outcome::Found { path, value },
        Numbered::Only { count: _ } => Outcome::Nothing,
        Numbered::Spent { bound } => Outcome::Spent { bound },
    }
}

/// The first leaf of least value, if a budget is enough for its load: the live nodes below the root
/// whose parent's floor is at most that value. Where there is no leaf the budget has to be enough
/// for all live nodes below the root. Where it is not, the bound is the least floor whose load is
/// above it. The memory is that of the search for the leaf of a number.
pub fn search_front<S: Space>(alloc: Global, space: &S, budget: u32) -> Result<Outcome, Memory>
    ensures found { IfOk result (λ outcome. IfFound outcome (IsFirstLeast (S.live space.now)
        (S.height space.now))) }
    ensures nothing { IfOk result
        (λ outcome. OnNothing outcome (HasNoLeaf (S.live space.now) (S.height space.now))) }

    // The budget is spent exactly where the load of the least value, or of all where there is no
    // leaf, is above it.
    ensures over { IfOk result (λ outcome. IsSpent outcome ↔ IsOverBudget (S.live space.now)
        (S.height space.now) budget) }
    ensures found_load { IfOk result (λ outcome. IfFound outcome (λ _ value.
        AtMost (IsLoaded (S.live space.now) value) budget)) }
    ensures nothing_load { IfOk result (λ outcome. OnNothing outcome (AtMost (IsLiveBelowRoot (S.live space.now))
        budget)) }

    // The bound is the least floor whose load is above the budget, and no leaf's value is lower.
    ensures spent { IfOk result (λ outcome. IfSpent outcome (λ bound.
        Many (IsLoaded (S.live space.now) bound) (budget + 1))) }
    ensures least { IfOk result (λ outcome. IfSpent outcome (AreLowerLoadsWithin (S.live space.now) budget)) }
    ensures bound { IfOk result (λ outcome. IfSpent outcome (BoundsLeaves (S.live space.now)
        (S.height space.now))) }
{
    let numbered = search_nth(alloc, space, 1, budget)?;
    Ok(first_of(numbered))
}

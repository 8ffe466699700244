//! The search of a sharpened space, told of the space itself.

ghost use Rattle.std.specs.Prelude.{◌-◌, ◌≤◌, IfOk, min};
ghost use Rattle.tree_search.specs.Answer.{IsFirstLeast, HasNoLeaf, BoundsLeaves, IsOverBudget};
ghost use Rattle.tree_search.specs.Outcomes.{IfFound, OnNothing, IfSpent, IsSpent};
ghost use Rattle.floor_graphs.specs.Sameness.{AgreesWithAnswers};
ghost use Rattle.floor_graphs.specs.Sharper.{sharpened};
ghost use Rattle.floor_graphs.specs.declared.bounds.TheConstants.{FIRST_BUDGET};

use crate::bounds::{search_by_bounds, try_by_bounds};
use crate::guide::Guide;
use crate::purse::Purse;
use crate::sharpened::Sharpened;
use fux_pitch::Memory;
use std::alloc::Global;
use tree_search::Outcome;

/// A try for the first leaf of least value of the guide's space, by bounds over its sharpened
/// floors (`try_by_bounds`). It may be spent where a front with that budget isn't. A bound of all
/// leaves may be known already.
pub fn try_sharpened<G: Guide>(
    alloc: Global,
    guide: &G,
    known: u64,
    budget: u32,
    purse: &mut Purse,
) -> Result<Outcome, Memory>
    requires { BoundsLeaves (G.Tree.live (G.tree guide.now)) (G.Tree.height (G.tree guide.now))
        known }
    ensures found { IfOk result (λ outcome. IfFound outcome (IsFirstLeast (G.Tree.live (G.tree guide.now))
        (G.Tree.height (G.tree guide.now)))) }
    ensures nothing { IfOk result (λ outcome. OnNothing outcome (HasNoLeaf (G.Tree.live (G.tree guide.now))
        (G.Tree.height (G.tree guide.now)))) }
    ensures bound { IfOk result (λ outcome. IfSpent outcome (BoundsLeaves (G.Tree.live (G.tree guide.now))
        (G.Tree.height (G.tree guide.now)))) }
    ensures kept { IfOk result (λ outcome. IfSpent outcome (λ least. known ≤ least)) }
    ensures agrees { IfOk result (AgreesWithAnswers (G.Tree.live (G.tree guide.now))
        (G.Tree.height (G.tree guide.now))) }
    ensures paid { purse.new.left ≤ purse.old.left - min budget FIRST_BUDGET }
{
    try_by_bounds(alloc, &Sharpened { guide }, known, budget, purse)
}

/// The first leaf of least value of the guide's space, by bounds over its sharpened floors
/// (`search_by_bounds`). Where the budget is enough the answer is that of any search of the space
/// itself; where it isn't, each leaf has at least the bound for a value. A bound of all leaves may
/// be known already.
pub fn search_sharpened<G: Guide>(
    alloc: Global,
    guide: &G,
    known: u64,
    budget: u32,
    purse: &mut Purse,
) -> Result<Outcome, Memory>
    requires { BoundsLeaves (G.Tree.live (G.tree guide.now)) (G.Tree.height (G.tree guide.now))
        known }
    ensures found { IfOk result (λ outcome. IfFound outcome (IsFirstLeast (G.Tree.live (G.tree guide.now))
        (G.Tree.height (G.tree guide.now)))) }
    ensures nothing { IfOk result (λ outcome. OnNothing outcome (HasNoLeaf (G.Tree.live (G.tree guide.now))
        (G.Tree.height (G.tree guide.now)))) }
    ensures bound { IfOk result (λ outcome. IfSpent outcome (BoundsLeaves (G.Tree.live (G.tree guide.now))
        (G.Tree.height (G.tree guide.now)))) }
    ensures kept { IfOk result (λ outcome. IfSpent outcome (λ least. known ≤ least)) }

    // It ends wherever a front over the sharpened floors does, and so wherever one over the space's
    // own floors does.
    ensures sharp { IfOk result (λ outcome. IsSpent outcome
        → IsOverBudget (sharpened (G.Tree.live (G.tree guide.now)) (G.sum guide.now))
        (G.Tree.height (G.tree guide.now)) budget) }
    ensures over { IfOk result (λ outcome. IsSpent outcome
        → IsOverBudget (G.Tree.live (G.tree guide.now)) (G.Tree.height (G.tree guide.now)) budget) }
    ensures agrees { IfOk result (AgreesWithAnswers (G.Tree.live (G.tree guide.now))
        (G.Tree.height (G.tree guide.now))) }
    ensures paid { purse.new.left ≤ purse.old.left - min budget FIRST_BUDGET }
{
    search_by_bounds(alloc, &Sharpened { guide }, known, budget, purse)
}

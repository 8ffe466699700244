//! The search of a tree whose steps are charged beforehand.

ghost use Rattle.std.specs.Prelude.{◌≡◌, ◌-◌, ◌≤◌, [], IfOk, IfSome, OnOk, length, min};
ghost use Rattle.tree_search.specs.Answer.{IsFirstLeast, HasNoLeaf, BoundsLeaves, IsOverBudget};
ghost use Rattle.tree_search.specs.Outcomes.{IfFound, OnNothing, IfSpent, IsSpent};
ghost use Rattle.floor_graphs.specs.Sameness.{AgreesWithAnswers};
ghost use Rattle.floor_graphs.specs.declared.bounds.TheConstants.{FIRST_BUDGET};
ghost use Rattle.priced_paths.specs.Webs.{IsWeb};

use crate::build::weave;
use crate::guide::{PricedGuide, case_numbers};
use crate::pricing::Pricing;
use crate::web::{Web, is_web};
use floor_graphs::{Purse, search_sharpened, try_sharpened};
use fux_pitch::Memory;
use std::alloc::Global;
use tree_search::{Outcome, Space, search_front};

/// The first leaf of least value, by the front over the tree's own floors. A bound of all leaves
/// that is known already is kept.
pub fn search_unpriced<S: Space>(
    alloc: Global,
    space: &S,
    known: u64,
    budget: u32,
) -> Result<Outcome, Memory>
    requires { BoundsLeaves (S.live space.now) (S.height space.now) known }
    ensures found { IfOk result (λ outcome. IfFound outcome (IsFirstLeast (S.live space.now)
        (S.height space.now))) }
    ensures nothing { IfOk result
        (λ outcome. OnNothing outcome (HasNoLeaf (S.live space.now) (S.height space.now))) }
    ensures bound { IfOk result (λ outcome. IfSpent outcome (BoundsLeaves (S.live space.now)
        (S.height space.now))) }
    ensures kept { IfOk result (λ outcome. IfSpent outcome (λ least. known ≤ least)) }
    ensures over { IfOk result (λ outcome. IsSpent outcome → IsOverBudget (S.live space.now)
        (S.height space.now) budget) }
    ensures agrees { IfOk result (AgreesWithAnswers (S.live space.now) (S.height space.now)) }
{
    match search_front(alloc, space, budget)? {
        Outcome::Spent { bound } => Ok(Outcome::Spent {
            bound: bound.max(known),
        }),
        answer => Ok(answer),
    }
}

/// The web of what a pricing keeps, unless it is too big, or would have more edges than these. It
/// tells nothing of charges, so that pricings which keep the same, and differ in what they charge,
/// have one web.
pub fn web_of<P: Pricing>(
    alloc: Global,
    pricing: &P,
    most: usize,
) -> Result<Option<Web<P::Kept>>, Memory>
    ensures web { IfOk result
        (λ web. IfSome web (IsWeb (P.kept_of pricing.now []) (P.Tree.height (P.tree pricing.now))
        (P.breadth pricing.now) (P.step_at pricing.now))) }
    ensures within { IfOk result (λ web. IfSome web (λ web. length web.edges.items ≤ most)) }
{
    let Some(web) = weave(alloc, pricing, most)? else {
        return Ok(None);
    };
    if web.edges.len() > most || !is_web(pricing, &web) {
        return Ok(None);
    }
    Ok(Some(web))
}

/// A try for the first leaf of least value, by the floors of a pricing, by its web. It may be spent
/// where a front with that budget isn't; then each leaf has at least the bound for a value. A bound
/// of all leaves that is known already is kept, and the try begins there at least. It is paid out of
/// a purse.
pub fn try_web<P: Pricing>(
    alloc: Global,
    pricing: &P,
    web: &Web<P::Kept>,
    known: u64,
    budget: u32,
    purse: &mut Purse,
) -> Result<Outcome, Memory>
    requires web { IsWeb (P.kept_of pricing.now []) (P.Tree.height (P.tree pricing.now))
        (P.breadth pricing.now) (P.step_at pricing.now) web.now }
    requires known { BoundsLeaves (P.Tree.live (P.tree pricing.now))
        (P.Tree.height (P.tree pricing.now)) known }
    ensures found { IfOk result (λ outcome. IfFound outcome (IsFirstLeast (P.Tree.live (P.tree pricing.now))
        (P.Tree.height (P.tree pricing.now)))) }
    ensures nothing { IfOk result (λ outcome. OnNothing outcome (HasNoLeaf (P.Tree.live (P.tree pricing.now))
        (P.Tree.height (P.tree pricing.now)))) }
    ensures bound { IfOk result (λ outcome. IfSpent outcome (BoundsLeaves (P.Tree.live (P.tree pricing.now))
        (P.Tree.height (P.tree pricing.now)))) }
    ensures kept { IfOk result (λ outcome. IfSpent outcome (λ least. known ≤ least)) }
    ensures agrees { IfOk result (AgreesWithAnswers (P.Tree.live (P.tree pricing.now))
        (P.Tree.height (P.tree pricing.now))) }
    ensures paid { OnOk result (purse.new.left ≤ purse.old.left - min budget FIRST_BUDGET) }
{
    let numbers = case_numbers(alloc, pricing, web)?;
    let guide = PricedGuide {
        pricing,
        web,
        numbers: &numbers,
    };
    try_sharpened(alloc, &guide, known, budget, purse)
}

/// The first leaf of least value, by the front over the floors of a pricing, by its web. Where the
/// budget is enough the answer is that of any search of the tree; where it isn't, each leaf has at
/// least the bound for a value. A bound of all leaves that is known already is kept, and the search
/// begins there at least. What comes before its last front is paid out of a purse.
pub fn search_web<P: Pricing>(
    alloc: Global,
    pricing: &P,
    web: &Web<P::Kept>,
    known: u64,
    budget: u32,
    purse: &mut Purse,
) -> Result<Outcome, Memory>
    requires web { IsWeb (P.kept_of pricing.now []) (P.Tree.height (P.tree pricing.now))
        (P.breadth pricing.now) (P.step_at pricing.now) web.now }
    requires known { BoundsLeaves (P.Tree.live (P.tree pricing.now))
        (P.Tree.height (P.tree pricing.now)) known }
    ensures found { IfOk result (λ outcome. IfFound outcome (IsFirstLeast (P.Tree.live (P.tree pricing.now))
        (P.Tree.height (P.tree pricing.now)))) }
    ensures nothing { IfOk result (λ outcome. OnNothing outcome (HasNoLeaf (P.Tree.live (P.tree pricing.now))
        (P.Tree.height (P.tree pricing.now)))) }
    ensures bound { IfOk result (λ outcome. IfSpent outcome (BoundsLeaves (P.Tree.live (P.tree pricing.now))
        (P.Tree.height (P.tree pricing.now)))) }
    ensures kept { IfOk result (λ outcome. IfSpent outcome (λ least. known ≤ least)) }
    ensures over { IfOk result (λ outcome. IsSpent outcome → IsOverBudget (P.Tree.live (P.tree pricing.now))
        (P.Tree.height (P.tree pricing.now)) budget) }
    ensures agrees { IfOk result (AgreesWithAnswers (P.Tree.live (P.tree pricing.now))
        (P.Tree.height (P.tree pricing.now))) }
    ensures paid { OnOk result (purse.new.left ≤ purse.old.left - min budget FIRST_BUDGET) }
{
    let numbers = case_numbers(alloc, pricing, web)?;
    let guide = PricedGuide {
        pricing,
        web,
        numbers: &numbers,
    };
    search_sharpened(alloc, &guide, known, budget, purse)
}

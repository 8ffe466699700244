//! The search in depth below caps that are guessed and raised.
ghost use Rattle.std.specs.Prelude.{◌-◌, ◌<◌, ◌≤◌, IfOk, min};
ghost use Rattle.tree_search.specs.Answer.{IsFirstLeast, HasNoLeaf, BoundsLeaves, IsOverBudget};
ghost use Rattle.tree_search.specs.Outcomes.{IfFound, OnNothing, IfSpent, IsSpent};
ghost use Rattle.floor_graphs.specs.Sameness.{AgreesWithAnswers};

use crate::capped::Capped;
use crate::purse::{Purse, depth_of, front_of};
use fux_pitch::Memory;
use std::alloc::Global;
use tree_search::{Outcome, Space, search_front};

/// How many of its budgets the rounds of a try may spend together, out of a purse that has more.
const BUDGETS: u64 = 8;

/// The budget of the front that goes before the rounds.
pub const FIRST_BUDGET: u32 = 1_024;

/// How many rounds there are at most.
const ROUNDS: usize = 32;

/// How many rounds look for one value each. From then on each looks for twice as many as the round
/// before.
const SINGLE_ROUNDS: usize = 16;

/// How many values a round looks for beyond the least.
fn more_values(round: usize) -> u64
    requires { round < ROUNDS }
{
    if round < SINGLE_ROUNDS {
        return 0;
    }
    (2u64 << (round - SINGLE_ROUNDS)) - 1
}

/// Searches in depth below a cap, where that finds nothing below a higher one, and so on: the bound
/// of all leaves then lies above the cap before, and never falls. A round has the budget, or what is
/// left in a purse, out of which each prefix is paid that a round opens. The outcome is never
/// `Nothing`.
fn search_rounds<S: Space>(
    alloc: Global,
    space: &S,
    bound: u64,
    budget: u32,
    purse: &mut Purse,
) -> Result<Outcome, Memory>
    requires { BoundsLeaves (S.live space.now) (S.height space.now) bound }
    ensures found { IfOk result (λ outcome. IfFound outcome (IsFirstLeast (S.live space.now)
        (S.height space.now))) }
    ensures nothing { IfOk result
        (λ outcome. OnNothing outcome (HasNoLeaf (S.live space.now) (S.height space.now))) }
    ensures bound { IfOk result (λ outcome. IfSpent outcome (BoundsLeaves (S.live space.now)
        (S.height space.now))) }
    ensures kept { IfOk result (λ outcome. IfSpent outcome (λ least. bound ≤ least)) }
    ensures paid { purse.new.left ≤ purse.old.left }
{
    let mut low = bound;
    for round in 0..ROUNDS {
        let high = low.saturating_add(more_values(round));
        match depth_of(alloc, &Capped { space, low, high }, budget, purse)? {
            Outcome::Found { path, value } => return Ok(Outcome::Found { path, value }),
            Outcome::Spent { bound: _ } => break,
            Outcome::Nothing => {}
        }
        match high.checked_add(1) {
            Some(above) => low = above,
            None => break,
        }
    }
    Ok(Outcome::Spent { bound: low })
}

/// A try for the first leaf of least value. A front opens each node whose floor is at most that
/// value, and where floors are sharp there may be very many of the very same floor. So here a front
/// has a small part of the budget at first, for a bound of all leaves. Then come rounds in depth,
/// which leave out what is above a cap: where the bound is the least value, a round is done with the
/// first leaf that it meets. They look for one value after another at first, and for more and more
/// at once later on, so that a tree without leaves doesn't take too many of them. Each may spend the
/// whole budget, and all together may spend eight, as long as a purse has so much, out of which the
/// front and the rounds are paid. A bound that is known of all leaves already is where the rounds
/// begin at least.
/// A try may be spent where a front with that budget isn't.
pub fn try_by_bounds<S: Space>(
    alloc: Global,
    space: &S,
    known: u64,
    budget: u32,
    purse: &mut Purse,
) -> Result<Outcome, Memory>
    requires { BoundsLeaves (S.live space.now) (S.height space.now) known }
    ensures found { IfOk result (λ outcome. IfFound outcome (IsFirstLeast (S.live space.now)
        (S.height space.now))) }
    ensures nothing { IfOk result
        (λ outcome. OnNothing outcome (HasNoLeaf (S.live space.now) (S.height space.now))) }
    ensures bound { IfOk result (λ outcome. IfSpent outcome (BoundsLeaves (S.live space.now)
        (S.height space.now))) }
    ensures kept { IfOk result (λ outcome. IfSpent outcome (λ least. known ≤ least)) }
    ensures agrees { IfOk result (AgreesWithAnswers (S.live space.now) (S.height space.now)) }
    ensures paid { purse.new.left ≤ purse.old.left - min budget FIRST_BUDGET }
{
    let bound = match front_of(alloc, space, budget.min(FIRST_BUDGET), purse)? {
        Outcome::Spent { bound } => bound.max(known),
        answer => return Ok(answer),
    };
    let mut share = purse.share(BUDGETS * u64::from(budget));
    let outcome = search_rounds(alloc, space, bound, budget, &mut share)?;
    purse.put_back(share);
    Ok(outcome)
}

/// The first leaf of least value: a try, and where that comes to nothing, a front with the whole
/// budget, which has the last word, whatever a purse has left for tries.
pub fn search_by_bounds<S: Space>(
    alloc: Global,
    space: &S,
    known: u64,
    budget: u32,
    purse: &mut Purse,
) -> Result<Outcome, Memory>
    requires { BoundsLeaves (S.live space.now) (S.height space.now) known }
    ensures found { IfOk result (λ outcome. IfFound outcome (IsFirstLeast (S.live space.now)
        (S.height space.now))) }
    ensures nothing { IfOk result
        (λ outcome. OnNothing outcome (HasNoLeaf (S.live space.now) (S.height space.now))) }
    ensures bound { IfOk result (λ outcome. IfSpent outcome (BoundsLeaves (S.live space.now)
        (S.height space.now))) }
    ensures kept { IfOk result (λ outcome. IfSpent outcome (λ least. known ≤ least)) }

    // It ends wherever the front does.
    ensures over { IfOk result (λ outcome. IsSpent outcome → IsOverBudget (S.live space.now)
        (S.height space.now) budget) }
    ensures agrees { IfOk result (AgreesWithAnswers (S.live space.now) (S.height space.now)) }
    ensures paid { purse.new.left ≤ purse.old.left - min budget FIRST_BUDGET }
{
    let bound = match try_by_bounds(alloc, space, known, budget, purse)? {
        Outcome::Spent { bound } => bound,
        answer => return Ok(answer),
    };
    match search_front(alloc, space, budget)? {
        Outcome::Spent { bound: other } => Ok(Outcome::Spent {
            bound: bound.max(other),
        }),
        answer => Ok(answer),
    }
}

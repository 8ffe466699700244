//! The search for the best setting of an exercise by sharper floors.

ghost use Rattle.std.specs.Prelude.{◌≡◌, ◌-◌, ◌≤◌, IfOk, IfSome, OnOk, length, min};
ghost use Rattle.fux_grid.specs.Exercises.{IsValid, columns_in};
ghost use Rattle.floor_graphs.specs.Sameness.{AgreesWithAnswers};
ghost use Rattle.floor_graphs.specs.declared.bounds.TheConstants.{FIRST_BUDGET};
ghost use Rattle.priced_floors.specs.Charges.{AreFairCharges, AreSmallCharges};
ghost use Rattle.priced_floors.specs.declared.charges.TheConstants.{CASES, MOST_CHARGE, SCALE};
ghost use Rattle.price_rounds.specs.Woven.{IsSearch, IsTry, IsWoven};
ghost use Rattle.species_space.specs.Paths.{live_at};
ghost use Rattle.tree_search.specs.Answer.{BoundsLeaves, HasNoLeaf, IsFirstLeast, IsOverBudget};
ghost use Rattle.tree_search.specs.Outcomes.{IfFound, IfSpent, IsSpent, OnNothing};

use crate::choices::forgets_more;
use crate::keys::summit_keys;
use crate::rounds::Bids;
use crate::woven::{Woven, weave, weave_most};
use floor_graphs::{Purse, front_of};
use fux_pitch::Memory;
use open_ends::Keeps;
use priced_floors::{Charges, PricedSpace, Prices};
use priced_paths::{search_unpriced, search_web, try_web};
use species_space::SpeciesSpace;
use std::alloc::Global;
use tree_search::Outcome;

/// How many prefixes are opened at most before any price is sought: many an exercise needs no more.
/// With each voice more webs take longer, and so there are twice as many.
const FIRST_OF_TWO: u32 = 32_768;

const FIRST_OF_THREE: u32 = 65_536;

const FIRST_OF_FOUR: u32 = 196_608;

/// How many are at most by the floors that keep least. These are made soonest, and often are
/// enough.
const LEAST_BUDGET: u32 = 196_608;

/// How many are at most by the floors that keep most, before prices are raised, which takes longer.
const MOST_BUDGET: u32 = 65_536;

/// How many are at most by floors whose prices are raised. Where many prefixes have the floor of
/// the best setting, these tell sooner which of them lead to none.
const RAISED_BUDGET: u32 = 131_072;

/// How many edges a web may have whatever the budget is, and how many more for each prefix that may
/// be opened.
const EDGES: usize = 500_000;

const EDGES_OF_A_PREFIX: usize = 6;

/// How many prefixes are opened at most of a space before any price is sought.
fn first_part(space: &SpeciesSpace<'_>) -> u32
    ensures { FIRST_OF_TWO ≤ result }
{
    match space.exercise().voices {
        4 => FIRST_OF_FOUR,
        3 => FIRST_OF_THREE,
        _ => FIRST_OF_TWO,
    }
}

/// How many edges a web may have, which cost a part of what a prefix does each: so the budget bounds
/// the webs as well.
pub(crate) fn room_for(budget: u32) -> usize {
    EDGES + EDGES_OF_A_PREFIX * budget as usize
}

/// The charges without prices, by which webs are made and prices are sought.
pub(crate) fn plain_charges(alloc: Global, space: &SpeciesSpace<'_>) -> Result<Charges, Memory>
    ensures fair { IfOk result (λ charges. AreFairCharges charges space.now.sheet) }
    ensures small { IfOk result (λ charges. AreSmallCharges MOST_CHARGE charges) }
    ensures scale { IfOk result (λ charges. charges.scale ≡ SCALE) }
    ensures few { IfOk result (λ charges. length charges.summits.items ≤ CASES) }
{
    let voice = space.exercise().species_voice;
    let keys = summit_keys(alloc, space, voice)?;
    Charges::new(alloc, space.sheet(), &[], voice, &keys)
}

/// A try for the first leaf of least value, by floors over a web with these prices. It may be spent
/// where a front with that budget isn't.
fn try_woven(
    alloc: Global,
    space: &SpeciesSpace<'_>,
    woven: &Woven,
    voice: u8,
    prices: &[Prices],
    known: u64,
    budget: u32,
    purse: &mut Purse,
) -> Result<Outcome, Memory>
    requires valid { IsValid space.now.exercise }
    requires known { BoundsLeaves (live_at space.now.exercise space.now.sheet)
        (columns_in space.now.exercise) known }
    requires web { IsWoven space.now.exercise space.now.sheet woven.now.keeps woven.now.web }
    ensures tried { IfOk result (IsTry space.now.exercise space.now.sheet known) }
    ensures paid { OnOk result (purse.new.left ≤ purse.old.left - min budget FIRST_BUDGET) }
{
    let keys = summit_keys(alloc, space, voice)?;
    let charges = Charges::new(alloc, space.sheet(), prices, voice, &keys)?;
    let priced = PricedSpace::new(alloc, space, woven.keeps, &charges)?;
    try_web(alloc, &priced, &woven.web, known, budget, purse)
}

/// The first leaf of least value, by floors over a web with these prices.
fn search_woven(
    alloc: Global,
    space: &SpeciesSpace<'_>,
    woven: &Woven,
    voice: u8,
    prices: &[Prices],
    known: u64,
    budget: u32,
    purse: &mut Purse,
) -> Result<Outcome, Memory>
    requires valid { IsValid space.now.exercise }
    requires known { BoundsLeaves (live_at space.now.exercise space.now.sheet)
        (columns_in space.now.exercise) known }
    requires web { IsWoven space.now.exercise space.now.sheet woven.now.keeps woven.now.web }
    ensures searched { IfOk result (IsSearch space.now.exercise space.now.sheet known budget) }
    ensures paid { OnOk result (purse.new.left ≤ purse.old.left - min budget FIRST_BUDGET) }
{
    let keys = summit_keys(alloc, space, voice)?;
    let charges = Charges::new(alloc, space.sheet(), prices, voice, &keys)?;
    let priced = PricedSpace::new(alloc, space, woven.keeps, &charges)?;
    search_web(alloc, &priced, &woven.web, known, budget, purse)
}

/// The first leaf of least value within a part of the budget, by floors that keep least. None where
/// their web can't be made. The web is let go before a larger one is made.
fn search_least(
    alloc: Global,
    space: &SpeciesSpace<'_>,
    plain: &Charges,
    bids: &mut Bids,
    known: u64,
    budget: u32,
    purse: &mut Purse,
) -> Result<Option<Outcome>, Memory>
    requires valid { IsValid space.now.exercise }
    requires known { BoundsLeaves (live_at space.now.exercise space.now.sheet)
        (columns_in space.now.exercise) known }
    requires fair { AreFairCharges plain.now space.now.sheet }
    requires small { AreSmallCharges MOST_CHARGE plain.now }
    requires scale { plain.now.scale ≡ SCALE }
    requires few { length plain.now.summits.items ≤ CASES }
    ensures tried { IfOk result
        (λ tried. IfSome tried (IsTry space.now.exercise space.now.sheet known)) }
    ensures paid { OnOk result (purse.new.left ≤ purse.old.left) }

    // A try pays for its first front at least.
    ensures all_paid { IfOk result (λ tried. IfSome tried (λ _. purse.new.left
        ≤ purse.old.left - min budget FIRST_BUDGET)) }
{
    let Some(least) = weave(alloc, space, Keeps::least(), plain, room_for(budget))? else {
        return Ok(None);
    };
    least.seek(alloc, plain, bids, budget)?;
    let prices = bids.prices(alloc)?;
    let part = budget.min(LEAST_BUDGET);
    let outcome = try_woven(
        alloc,
        space,
        &least,
        plain.voice,
        &prices,
        known,
        part,
        purse,
    )?;
    Ok(Some(outcome))
}

/// The first leaf of least value, by floors over a web, at first with raised prices, and then with
/// these.
fn search_raised(
    alloc: Global,
    space: &SpeciesSpace<'_>,
    woven: &Woven,
    voice: u8,
    raised: &[Prices],
    prices: &[Prices],
    known: u64,
    budget: u32,
    purse: &mut Purse,
) -> Result<Outcome, Memory>
    requires valid { IsValid space.now.exercise }
    requires known { BoundsLeaves (live_at space.now.exercise space.now.sheet)
        (columns_in space.now.exercise) known }
    requires web { IsWoven space.now.exercise space.now.sheet woven.now.keeps woven.now.web }
    ensures searched { IfOk result (IsSearch space.now.exercise space.now.sheet known budget) }
    ensures paid { OnOk result (purse.new.left ≤ purse.old.left - min budget FIRST_BUDGET) }
{
    let part = budget.min(RAISED_BUDGET);
    match try_woven(alloc, space, woven, voice, raised, known, part, purse)? {
        Outcome::Spent { bound } => {
            search_woven(alloc, space, woven, voice, prices, bound, budget, purse)
        }
        outcome => Ok(outcome),
    }
}

/// The first leaf of least value, by floors that keep as much as there is room for: at first with
/// the prices that are found soonest, from those of the smaller web on. All go over one web.
fn search_most(
    alloc: Global,
    space: &SpeciesSpace<'_>,
    plain: &Charges,
    bids: &mut Bids,
    known: u64,
    budget: u32,
    purse: &mut Purse,
) -> Result<Outcome, Memory>
    requires valid { IsValid space.now.exercise }
    requires known { BoundsLeaves (live_at space.now.exercise space.now.sheet)
        (columns_in space.now.exercise) known }
    requires fair { AreFairCharges plain.now space.now.sheet }
    requires small { AreSmallCharges MOST_CHARGE plain.now }
    requires scale { plain.now.scale ≡ SCALE }
    requires few { length plain.now.summits.items ≤ CASES }
    ensures searched { IfOk result (IsSearch space.now.exercise space.now.sheet known budget) }
    ensures paid { OnOk result (purse.new.left ≤ purse.old.left) }
{
    let Some(woven) = weave_most(alloc, space, plain, room_for(budget))? else {
        return search_unpriced(alloc, space, known, budget);
    };
    woven.seek_on(alloc, plain, bids, budget)?;
    let prices = bids.prices(alloc)?;
    let part = budget.min(MOST_BUDGET);
    match try_woven(
        alloc,
        space,
        &woven,
        plain.voice,
        &prices,
        known,
        part,
        purse,
    )? {
        Outcome::Spent { bound } => {
            woven.raise(alloc, plain, bids, budget)?;
            let raised = bids.prices(alloc)?;
            search_raised(
                alloc,
                space,
                &woven,
                plain.voice,
                &raised,
                &prices,
                bound,
                budget,
                purse,
            )
        }
        outcome => Ok(outcome),
    }
}

/// The first leaf of least value where there is no room for the least web: by floors that keep less
/// still, and where that is the same or has no room either, by the space's own.
fn search_barest(
    alloc: Global,
    space: &SpeciesSpace<'_>,
    plain: &Charges,
    bids: &mut Bids,
    known: u64,
    budget: u32,
    purse: &mut Purse,
) -> Result<Outcome, Memory>
    requires valid { IsValid space.now.exercise }
    requires known { BoundsLeaves (live_at space.now.exercise space.now.sheet)
        (columns_in space.now.exercise) known }
    requires fair { AreFairCharges plain.now space.now.sheet }
    requires small { AreSmallCharges MOST_CHARGE plain.now }
    requires scale { plain.now.scale ≡ SCALE }
    requires few { length plain.now.summits.items ≤ CASES }
    ensures searched { IfOk result (IsSearch space.now.exercise space.now.sheet known budget) }
    ensures paid { OnOk result (purse.new.left ≤ purse.old.left) }
{
    if !forgets_more(space.exercise()) {
        return search_unpriced(alloc, space, known, budget);
    }
    let Some(barest) = weave(alloc, space, Keeps::barest(), plain, room_for(budget))? else {
        return search_unpriced(alloc, space, known, budget);
    };
    barest.seek(alloc, plain, bids, budget)?;
    let prices = bids.prices(alloc)?;
    search_woven(
        alloc,
        space,
        &barest,
        plain.voice,
        &prices,
        known,
        budget,
        purse,
    )
}

/// What a try found; where it was spent, what the floors that keep most find.
fn search_after(
    alloc: Global,
    space: &SpeciesSpace<'_>,
    tried: Outcome,
    plain: &Charges,
    bids: &mut Bids,
    known: u64,
    budget: u32,
    purse: &mut Purse,
) -> Result<Outcome, Memory>
    requires valid { IsValid space.now.exercise }
    requires known { BoundsLeaves (live_at space.now.exercise space.now.sheet)
        (columns_in space.now.exercise) known }
    requires tried { IsTry space.now.exercise space.now.sheet known tried }
    requires fair { AreFairCharges plain.now space.now.sheet }
    requires small { AreSmallCharges MOST_CHARGE plain.now }
    requires scale { plain.now.scale ≡ SCALE }
    requires few { length plain.now.summits.items ≤ CASES }
    ensures searched { IfOk result (IsSearch space.now.exercise space.now.sheet known budget) }
    ensures paid { OnOk result (purse.new.left ≤ purse.old.left) }
{
    match tried {
        Outcome::Spent { bound } => search_most(alloc, space, plain, bids, bound, budget, purse),
        outcome => Ok(outcome),
    }
}

/// The first leaf of least value, by floors that keep least, and then by those that keep most.
/// Where the least web can't be made no larger one can, and floors that keep less still, or the
/// space's own, have the whole budget at once.
fn search_by_prices(
    alloc: Global,
    space: &SpeciesSpace<'_>,
    known: u64,
    budget: u32,
    purse: &mut Purse,
) -> Result<Outcome, Memory>
    requires valid { IsValid space.now.exercise }
    requires known { BoundsLeaves (live_at space.now.exercise space.now.sheet)
        (columns_in space.now.exercise) known }
    ensures searched { IfOk result (IsSearch space.now.exercise space.now.sheet known budget) }
    ensures paid { OnOk result (purse.new.left ≤ purse.old.left) }
{
    let plain = plain_charges(alloc, space)?;
    let mut bids = Bids::new(alloc, space.sheet(), &plain)?;
    match search_least(alloc, space, &plain, &mut bids, known, budget, purse)? {
        Some(tried) => {
            search_after(alloc, space, tried, &plain, &mut bids, known, budget, purse)
        }
        None => search_barest(alloc, space, &plain, &mut bids, known, budget, purse),
    }
}

/// The first leaf of least value: at first by the space's own floors with a part of the budget, and
/// then by prices. All tries are paid out of a purse. Whatever that has left, a front that comes
/// last has the whole budget.
fn search_in(
    alloc: Global,
    space: &SpeciesSpace<'_>,
    budget: u32,
    purse: &mut Purse,
) -> Result<Outcome, Memory>
    requires { IsValid space.now.exercise }
    ensures found { IfOk result
        (λ outcome. IfFound outcome (IsFirstLeast (live_at space.now.exercise space.now.sheet)
        (columns_in space.now.exercise))) }
    ensures nothing { IfOk result
        (λ outcome. OnNothing outcome (HasNoLeaf (live_at space.now.exercise space.now.sheet)
        (columns_in space.now.exercise))) }
    ensures bound { IfOk result
        (λ outcome. IfSpent outcome (BoundsLeaves (live_at space.now.exercise space.now.sheet)
        (columns_in space.now.exercise))) }
    ensures over { IfOk result (λ outcome. IsSpent outcome
        → IsOverBudget (live_at space.now.exercise space.now.sheet) (columns_in space.now.exercise)
        budget) }
    ensures agrees { IfOk result (AgreesWithAnswers (live_at space.now.exercise space.now.sheet)
        (columns_in space.now.exercise)) }
    ensures paid { OnOk result (purse.new.left ≤ purse.old.left - min budget FIRST_OF_TWO) }
{
    match front_of(alloc, space, budget.min(first_part(space)), purse)? {
        Outcome::Spent { bound } => search_by_prices(alloc, space, bound, budget, purse),
        outcome => Ok(outcome),
    }
}

/// The first leaf of least value, by floors that know of gauges beforehand: of a pitch that is
/// struck often, and of a climax that is struck again. Where the budget is enough the answer is
/// that of any search; where it isn't, each leaf has at least the bound for a value. All tries
/// together open at most nine times the budget, and the front that comes last opens it once more.
pub fn search_best(alloc: Global, space: &SpeciesSpace<'_>, budget: u32) -> Result<Outcome, Memory>
    requires { IsValid space.now.exercise }
    ensures found { IfOk result
        (λ outcome. IfFound outcome (IsFirstLeast (live_at space.now.exercise space.now.sheet)
        (columns_in space.now.exercise))) }
    ensures nothing { IfOk result
        (λ outcome. OnNothing outcome (HasNoLeaf (live_at space.now.exercise space.now.sheet)
        (columns_in space.now.exercise))) }
    ensures bound { IfOk result
        (λ outcome. IfSpent outcome (BoundsLeaves (live_at space.now.exercise space.now.sheet)
        (columns_in space.now.exercise))) }

    // It ends wherever a front over the space's own floors does.
    ensures over { IfOk result (λ outcome. IsSpent outcome
        → IsOverBudget (live_at space.now.exercise space.now.sheet) (columns_in space.now.exercise)
        budget) }
    ensures agrees { IfOk result (AgreesWithAnswers (live_at space.now.exercise space.now.sheet)
        (columns_in space.now.exercise)) }
{
    let mut purse = Purse::of(budget);
    search_in(alloc, space, budget, &mut purse)
}

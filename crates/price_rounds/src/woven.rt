//! The web of what is kept, and prices by it.

ghost use Rattle.std.specs.Prelude.{◌≡◌, ◌≤◌, IfOk, IfSome, length};
ghost use Rattle.priced_floors.specs.Charges.{AreFairCharges, AreSmallCharges};
ghost use Rattle.priced_floors.specs.declared.charges.TheConstants.{CASES, MOST_CHARGE, SCALE};
ghost use Rattle.price_rounds.specs.Woven.{IsWoven};

use crate::choices::{finer_choices, stated_choices};
use crate::rounds::{Bids, MORE_ROUNDS, ROUNDS};
use crate::ways::{Ways, ways_of};
use fux_pitch::Memory;
use open_ends::Keeps;
use priced_floors::{Charges, Kept, PricedSpace, Prices};
use priced_paths::{Web, web_of};
use species_space::SpeciesSpace;
use std::alloc::Global;

/// What is kept, the web of it, and the ways through the web, unless there are too many.
#[derive(Drop)]
pub struct Woven {
    pub keeps: Keeps,
    pub web: Web<Kept>,
    pub ways: Option<Ways>,
}

/// The web of the settings of a space's exercise where so much is kept, unless it is too big or has
/// more edges than there is room for.
pub fn weave(
    alloc: Global,
    space: &SpeciesSpace<'_>,
    keeps: Keeps,
    plain: &Charges,
    room: usize,
) -> Result<Option<Woven>, Memory>
    requires fair { AreFairCharges plain.now space.now.sheet }
    requires small { AreSmallCharges MOST_CHARGE plain.now }
    requires scale { plain.now.scale ≡ SCALE }
    requires few { length plain.now.summits.items ≤ CASES }
    ensures { IfOk result (λ made. IfSome made (λ woven.
        IsWoven space.now.exercise space.now.sheet woven.keeps woven.web)) }
{
    let priced = PricedSpace::new(alloc, space, keeps, plain)?;
    let Some(web) = web_of(alloc, &priced, room)? else {
        return Ok(None);
    };
    let ways = ways_of(alloc, space, &web, plain.voice)?;
    Ok(Some(Woven { keeps, web, ways }))
}

/// How many labels the spots of a web have.
fn labels_of(web: &Web<Kept>) -> usize {
    let mut labels = 0usize;
    for spot in web.spots.iter() {
        labels = labels.saturating_add(spot.labels);
    }
    labels
}

/// What keeps more than is always kept has so many parts of the room. Larger webs were measured to
/// bring next to nothing, and took longer than all else.
const PARTS_OF_ROOM: usize = 3;

/// The web of the first of these choices of what is kept where there aren't too many ways, nor more
/// labels than these, in a part of the room, or of what is always kept.
pub fn weave_first(
    alloc: Global,
    space: &SpeciesSpace<'_>,
    choices: &[Keeps],
    plain: &Charges,
    room: usize,
    labels: usize,
) -> Result<Option<Woven>, Memory>
    requires fair { AreFairCharges plain.now space.now.sheet }
    requires small { AreSmallCharges MOST_CHARGE plain.now }
    requires scale { plain.now.scale ≡ SCALE }
    requires few { length plain.now.summits.items ≤ CASES }
    ensures { IfOk result (λ made. IfSome made (λ woven.
        IsWoven space.now.exercise space.now.sheet woven.keeps woven.web)) }
{
    let part = room / PARTS_OF_ROOM;
    for keeps in choices {
        if let Some(woven) = weave(alloc, space, *keeps, plain, part)? {
            if woven.ways.is_some() && labels_of(&woven.web) <= labels {
                return Ok(Some(woven));
            }
        }
    }
    weave(alloc, space, Keeps::least(), plain, room)
}

/// The web of as much as there is room for, by steps from what keeps most on.
pub fn weave_most(
    alloc: Global,
    space: &SpeciesSpace<'_>,
    plain: &Charges,
    room: usize,
) -> Result<Option<Woven>, Memory>
    requires fair { AreFairCharges plain.now space.now.sheet }
    requires small { AreSmallCharges MOST_CHARGE plain.now }
    requires scale { plain.now.scale ≡ SCALE }
    requires few { length plain.now.summits.items ≤ CASES }
    ensures { IfOk result (λ made. IfSome made (λ woven.
        IsWoven space.now.exercise space.now.sheet woven.keeps woven.web)) }
{
    let ex = space.exercise();
    if ex.voices < 3 {
        let most = stated_choices();
        return weave_first(alloc, space, &most, plain, room, usize::MAX);
    }
    let most = finer_choices(ex);
    weave_first(alloc, space, &most, plain, room, usize::MAX)
}

/// How many steps all rounds over a web may work whatever the budget is, and how many more for each
/// prefix that may be opened.
const STEPS: usize = 8_000_000;

const STEPS_OF_A_PREFIX: usize = 450;

/// How many rounds there are at most over a web with these ways, of so many.
fn rounds_for(ways: &Ways, budget: u32, most: usize) -> usize {
    let steps = STEPS + STEPS_OF_A_PREFIX * budget as usize;
    most.min(steps / ways.steps.len().max(1))
}

impl Woven {
    /// Seeks prices by the ways through the web, unless there are too many, in as many rounds as
    /// the budget allows.
    pub fn seek(
        &self,
        alloc: Global,
        charges: &Charges,
        bids: &mut Bids,
        budget: u32,
    ) -> Result<(), Memory> {
        match &self.ways {
            Some(ways) => bids.seek(alloc, ways, charges, rounds_for(ways, budget, ROUNDS)),
            None => Ok(()),
        }
    }

    /// Seeks them from those on that were found by a smaller web.
    pub fn seek_on(
        &self,
        alloc: Global,
        charges: &Charges,
        bids: &mut Bids,
        budget: u32,
    ) -> Result<(), Memory> {
        bids.begin_again();
        match &self.ways {
            Some(ways) => bids.seek(alloc, ways, charges, rounds_for(ways, budget, MORE_ROUNDS)),
            None => Ok(()),
        }
    }

    /// Raises them for the later part of the exercise, where the budget allows all rounds.
    pub fn raise(
        &self,
        alloc: Global,
        charges: &Charges,
        bids: &mut Bids,
        budget: u32,
    ) -> Result<(), Memory> {
        match &self.ways {
            Some(ways) if rounds_for(ways, budget, ROUNDS) == ROUNDS => {
                bids.raise(alloc, ways, charges)
            }
            _ => Ok(()),
        }
    }

    /// The prices for what comes behind so many quarters of the least way, unless there are too
    /// many ways.
    pub fn later(
        &self,
        alloc: Global,
        charges: &Charges,
        bids: &Bids,
        quarters: usize,
    ) -> Result<Option<Vec<Prices>>, Memory> {
        let Some(ways) = &self.ways else {
            return Ok(None);
        };
        let steps = ways.depth.wrapping_mul(quarters) / 4;
        let prices = bids.later_prices(alloc, ways, charges, steps)?;
        Ok(Some(prices))
    }
}

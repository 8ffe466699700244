//! Prices for several lists at once. No clause speaks of them.

ghost use Rattle.std.specs.Prelude.{◌≡◌, ◌≤◌, length};
ghost use Rattle.priced_floors.specs.Charges.{AreFairCharges, AreSmallCharges};
ghost use Rattle.priced_floors.specs.declared.charges.TheConstants.{CASES, MOST_CHARGE, SCALE};

use crate::choices::stated_choices;
use crate::keys::summit_keys;
use crate::rounds::Bids;
use crate::search::{plain_charges, room_for};
use crate::woven::{Woven, weave, weave_first};
use fux_pitch::Memory;
use open_ends::Keeps;
use priced_floors::{Charges, Prices};
use priced_paths::MOST_LABELS;
use species_space::SpeciesSpace;
use std::alloc::Global;

/// Whether turning notes and runs are kept, the voice by whose greatest key cases go, and the keys
/// that a line of it may start, from the greatest on; and for each list what strikes are charged,
/// case by case, four voices each.
#[derive(Drop)]
pub struct Tuned {
    pub turns: bool,
    pub runs: bool,
    pub voice: u8,
    pub keys: Vec<u8>,
    pub lists: Vec<Vec<Prices>>,
}

/// Appends the prices that are found over the web that keeps least, from which others are sought.
/// There are none where it can't be made, or has too many ways.
fn put_first(
    lists: &mut Vec<Vec<Prices>>,
    alloc: Global,
    space: &SpeciesSpace<'_>,
    plain: &Charges,
    bids: &mut Bids,
    budget: u32,
) -> Result<(), Memory>
    requires fair { AreFairCharges plain.now space.now.sheet }
    requires small { AreSmallCharges MOST_CHARGE plain.now }
    requires scale { plain.now.scale ≡ SCALE }
    requires few { length plain.now.summits.items ≤ CASES }
{
    let Some(least) = weave(alloc, space, Keeps::least(), plain, room_for(budget))? else {
        return Ok(());
    };
    if least.ways.is_some() {
        least.seek(alloc, plain, bids, budget)?;
        lists.push(bids.prices(alloc)?)?;
    }
    Ok(())
}

/// Appends the prices for the beginning, those for what comes behind a quarter, a half and three
/// quarters of the least way, and those that are raised for the later part. There are none where
/// there are too many ways.
fn put_lists(
    lists: &mut Vec<Vec<Prices>>,
    alloc: Global,
    woven: &Woven,
    plain: &Charges,
    bids: &mut Bids,
    budget: u32,
) -> Result<(), Memory> {
    if woven.ways.is_none() {
        return Ok(());
    }
    lists.push(bids.prices(alloc)?)?;
    for quarters in 1..4usize {
        if let Some(prices) = woven.later(alloc, plain, bids, quarters)? {
            lists.push(prices)?;
        }
    }
    woven.raise(alloc, plain, bids, budget)?;
    lists.push(bids.prices(alloc)?)?;
    Ok(())
}

/// Prices for lists that keep as much as there is room for, of what a certificate can state, sought
/// in as many rounds as the budget allows: those of each try of `best`, so that a certificate by
/// them need not claim much more than such a try opens. None where no web can be made.
pub fn tuned_prices(
    alloc: Global,
    space: &SpeciesSpace<'_>,
    budget: u32,
) -> Result<Option<Tuned>, Memory> {
    let plain = plain_charges(alloc, space)?;
    let mut bids = Bids::new(alloc, space.sheet(), &plain)?;
    let mut lists = Vec::new(alloc);
    put_first(&mut lists, alloc, space, &plain, &mut bids, budget)?;
    let most = stated_choices();
    let room = room_for(budget);
    let Some(woven) = weave_first(alloc, space, &most, &plain, room, MOST_LABELS)? else {
        return Ok(None);
    };
    woven.seek_on(alloc, &plain, &mut bids, budget)?;
    put_lists(&mut lists, alloc, &woven, &plain, &mut bids, budget)?;
    Ok(Some(Tuned {
        turns: woven.keeps.turns,
        runs: woven.keeps.runs.are_all(),
        voice: plain.voice,
        keys: summit_keys(alloc, space, plain.voice)?,
        lists,
    }))
}

//! Lists with the settings that they price, the webs of what they keep, and the numbers worked there.

ghost use Rattle.std.specs.Prelude.{◌≡◌, ◌≢◌, ◌+◌, ◌*◌, ◌<◌, ◌≤◌, ℕ, Some, None, Err, length, map, slice_get, IfOk, IfSome, OnOk};
ghost use Rattle.std.specs.List.{AllByRecursion};
ghost use Rattle.price_check.specs.Floors.{AreFor, list_of as list_of_floor};
ghost use Rattle.price_check.specs.Woven.{AreCaseNumbers, AreEachNumbers, AreNumbersAt, AreNumbersIn, AreNumbersOver, AreOf, AreOfOne, AreWebs, FitsFor, HasLargeWeb, HasWeb, IsWebFor, IsWebOf, list_priced};
ghost use Rattle.price_check.specs.Woven as words;
ghost use Rattle.price_check.specs.declared.priced_list.PricedList.{PricedList as APriced};
ghost use Rattle.floor_tables.specs.Tables.{Task};
ghost use Rattle.price_check.specs.Owned.{IsFit, list_owned};
ghost use Rattle.priced_paths.specs.declared.states.WebFault.TheVariants.{TooLarge as too_large};

use crate::floors::ListFloor;
use crate::priced_list::PricedList;
use crate::stated::OwnList;
use fux_pitch::{List as Numbers, Memory};
use open_ends::{Keeps, Pairs};
use priced_floors::{Kept, PricedSpace};
use priced_paths::{PathSums, Pricing, Web, WebFault, numbers_in, whole_web};
use rayon::prelude::*;
use species_space::SpeciesSpace;
use std::alloc::Global;
use std::thread::Threads;
use tree_search::Space;

/// A list with the settings of a space.
fn priced_list<'a>(
    alloc: Global,
    space: &'a SpeciesSpace<'a>,
    own: &'a OwnList,
) -> Result<PricedList<'a>, Memory>
    requires { IsFit space.now.sheet (list_owned own.now) }
    ensures list { IfOk result (λ it. list_priced it ≡ list_owned own.entry.now) }
    ensures space { IfOk result (λ it. it.space.space.now ≡ space.entry.now) }
{
    let priced = PricedSpace::new(alloc, space, own.keeps, &own.charges)?;
    Ok(PricedList {
        space: priced,
        keeps: own.keeps,
        plain: own.plain,
    })
}

/// Lists with the settings of a space.
pub fn priced_lists<'a>(
    alloc: Global,
    space: &'a SpeciesSpace<'a>,
    own: &'a [OwnList],
) -> Result<Vec<PricedList<'a>>, Memory>
    requires { AllByRecursion (IsFit space.now.sheet) (map list_owned own.now) }
    ensures lists { IfOk result (λ lists. map list_priced lists.items ≡ map list_owned own.entry.now) }
    ensures space { IfOk result (λ lists. AreOf space.entry.now lists.items) }
{
    let mut lists = Vec::with_capacity(alloc, own.len())?;
    for k in 0..own.len() {
        let list = priced_list(alloc, space, &own[k])?;
        lists.push_reserved(list);
    }
    Ok(lists)
}

/// A number with a bit more.
fn with_bit(bit: bool, number: usize) -> usize
    requires { number < 128 }
    ensures value { result ≡ words.with_bit bit number }
    ensures few { result ≤ 2 * number + 1 }
{
    let low = if bit { 1 } else { 0 };
    2 * number + low
}

/// The number of some pairs of voices, among all choices of them.
fn pairs_number(pairs: Pairs) -> usize
    ensures value { result ≡ words.pairs_number pairs }
    ensures few { result < 64 }
{
    let fifth_on = with_bit(pairs.v13, with_bit(pairs.v23, 0));
    let third_on = with_bit(pairs.v03, with_bit(pairs.v12, fifth_on));
    with_bit(pairs.v01, with_bit(pairs.v02, third_on))
}

/// The number of what is kept, among all that may be.
fn keeps_number(keeps: Keeps) -> usize
    ensures value { result ≡ words.keeps_number keeps }
    ensures few { result < 256 }
{
    with_bit(
        keeps.turns,
        with_bit(keeps.parallels, pairs_number(keeps.runs)),
    )
}

/// The first list that keeps what has this number.
fn first_with(lists: &[PricedList<'_>], number: usize) -> Option<usize>
    ensures some { IfSome result (λ k. k < length lists.now) }
    ensures there { IfSome result (λ k. (it : APriced) → slice_get lists.now k ≡ Some it
        → words.keeps_number it.space.keeps ≡ number) }
    ensures none { result ≡ None → (k : ℕ) → (it : APriced) → slice_get lists.now k
        ≡ Some it → words.keeps_number it.space.keeps ≢ number }
{
    for k in 0..lists.len() {
        if keeps_number(lists[k].keeps) == number {
            return Some(k);
        }
    }
    None
}

/// The web of what the lists keep that has this number, where one of them does.
fn web_with(
    alloc: Global,
    lists: &[PricedList<'_>],
    number: usize,
) -> Result<Option<Web<Kept>>, WebFault>
    requires { AreOfOne lists.now }
    ensures web { IfOk result (IsWebFor lists.now number) }
    ensures fits { OnOk result (FitsFor lists.now number) }
    ensures large { result ≡ Err too_large → (task : Task) → AreOf task lists.now
        → HasLargeWeb task.exercise task.sheet (map list_priced lists.now) }
{
    let Some(k) = first_with(lists, number) else {
        return Ok(None);
    };
    match whole_web(alloc, &lists[k].space) {
        Ok(web) => Ok(Some(web)),
        Err(fault) => Err(fault),
    }
}

/// The webs of what lists keep, each under its number.
pub fn webs_of(alloc: Global, lists: &[PricedList<'_>]) -> Result<Vec<Option<Web<Kept>>>, WebFault>
    requires { AreOfOne lists.now }
    ensures webs { IfOk result (λ webs. AreWebs lists.now webs.items) }

    // There are webs wherever none is too large, unless memory is short.
    ensures fits { OnOk result ((task : Task) → AreOf task lists.now
        → HasLargeWeb task.exercise task.sheet (map list_priced lists.now) → ⊥) }
    ensures large { result ≡ Err too_large → (task : Task) → AreOf task lists.now
        → HasLargeWeb task.exercise task.sheet (map list_priced lists.now) }
{
    let Ok(mut webs) = Vec::with_capacity(alloc, 256) else {
        return Err(WebFault::Memory);
    };
    for number in 0..256 {
        let web = web_with(alloc, lists, number)?;
        webs.push_reserved(web);
    }
    Ok(webs)
}

/// The web of a list.
fn web_in<'a>(webs: &'a [Option<Web<Kept>>], list: &PricedList<'_>) -> &'a Web<Kept>
    requires { HasWeb webs.now list.now }
    ensures { words.web_under webs.now list.now.space.keeps ≡ Some result.now }
{
    match &webs[keeps_number(list.keeps)] {
        Some(web) => web,
        None => unreachable!(),
    }
}

/// The numbers of settings in a case, over their web.
fn numbers_of_case(
    alloc: Global,
    space: &PricedSpace<'_>,
    web: &Web<Kept>,
    case: usize,
) -> Result<Numbers<Option<u64>>, Memory>
    requires web { IsWebOf space.now web.now }
    requires case { case < length space.now.charges.now.summits.items }
    ensures { IfOk result (AreCaseNumbers space.now web.now case) }
{
    let height = space.space().depth();
    numbers_in(alloc, space, web, height, case)
}

/// The numbers of each case, worked side by side.
fn numbers_over<R: Threads + Sync>(
    rt: &R,
    alloc: Global,
    space: &PricedSpace<'_>,
    web: &Web<Kept>,
) -> Result<Vec<Numbers<Option<u64>>>, Memory>
    requires { IsWebOf space.now web.now }
    ensures { IfOk result (λ numbers. AreNumbersOver space.now web.now numbers.items) }
{
    let numbers = (0..space.cases())
        .into_par_iter()
        .map(
            |case: usize| -> Result<Numbers<Option<u64>>, Memory>
                requires web { IsWebOf space.now web.now }
                requires case { case < length space.now.charges.now.summits.items }
                ensures { IfOk result (AreCaseNumbers space.entry.now web.entry.now case) }
            { numbers_of_case(alloc, space, web, case) },
        )
        .collect::<Result<Vec<Numbers<Option<u64>>>, Memory>>(rt, alloc)?;
    numbers
}

/// The numbers of the list at a place, case by case.
fn numbers_at<R: Threads + Sync>(
    rt: &R,
    alloc: Global,
    lists: &[PricedList<'_>],
    webs: &[Option<Web<Kept>>],
    j: usize,
) -> Result<Vec<Numbers<Option<u64>>>, Memory>
    requires webs { AreWebs lists.now webs.now }
    requires within { j < length lists.now }
    ensures { IfOk result (AreNumbersAt lists.now webs.now j) }
{
    let list = &lists[j];
    let web = web_in(webs, list);
    numbers_over(rt, alloc, &list.space, web)
}

/// The numbers of each list, the lists and the cases of each worked side by side. They don't depend
/// on how the work is divided.
pub fn list_numbers<R: Threads + Sync>(
    rt: &R,
    alloc: Global,
    lists: &[PricedList<'_>],
    webs: &[Option<Web<Kept>>],
) -> Result<Vec<Vec<Numbers<Option<u64>>>>, Memory>
    requires { AreWebs lists.now webs.now }
    ensures { IfOk result (λ numbers. AreEachNumbers lists.now webs.now numbers.items) }
{
    let numbers = (0..lists.len())
        .into_par_iter()
        .map(
            |j: usize| -> Result<Vec<Numbers<Option<u64>>>, Memory>
                requires webs { AreWebs lists.now webs.now }
                requires within { j < length lists.now }
                ensures { IfOk result (AreNumbersAt lists.entry.now webs.entry.now j) }
            { numbers_at(rt, alloc, lists, webs, j) },
        )
        .collect::<Result<Vec<Vec<Numbers<Option<u64>>>>, Memory>>(rt, alloc)?;
    numbers
}

/// A list with its web and its numbers.
fn floor_of<'a>(
    list: &'a PricedList<'a>,
    webs: &'a [Option<Web<Kept>>],
    numbers: &'a [Numbers<Option<u64>>],
) -> ListFloor<'a>
    requires web { HasWeb webs.now list.now }
    requires numbers { AreNumbersIn webs.now list.now numbers.now }
    ensures list { list_of_floor result ≡ list_priced list.entry.now }
    ensures space { result.sums.guide.pricing.now.space.now ≡ list.entry.now.space.space.now }
{
    let web = web_in(webs, list);
    let sums = PathSums::new(&list.space, web, numbers);
    ListFloor {
        sums,
        plain: list.plain,
    }
}

/// Each list with its web and its numbers.
pub fn list_floors<'a>(
    alloc: Global,
    lists: &'a [PricedList<'a>],
    webs: &'a [Option<Web<Kept>>],
    numbers: &'a [Vec<Numbers<Option<u64>>>],
) -> Result<Vec<ListFloor<'a>>, Memory>
    requires webs { AreWebs lists.now webs.now }
    requires numbers { AreEachNumbers lists.now webs.now numbers.now }
    ensures lists { IfOk result (λ floors. map list_of_floor floors.items
        ≡ map list_priced lists.entry.now) }
    ensures space { IfOk result (λ floors. (task : Task) → AreOf task lists.entry.now
        → AreFor task.exercise task.sheet floors.items) }
{
    let mut floors = Vec::with_capacity(alloc, lists.len())?;
    for j in 0..lists.len() {
        let list = &lists[j];
        let own = numbers[j].as_slice();
        floors.push_reserved(floor_of(list, webs, own));
    }
    Ok(floors)
}

//! Lists of prices, and where prefixes stand in their webs.

ghost use Rattle.std.specs.Prelude.{◌≡◌, ◌<◌, ◌≤◌, ◌++◌, ◌∷◌, ◌^◌, [], ℕ, List, length, map};
ghost use Rattle.cert_law.specs.Cases.{Matter};
ghost use Rattle.cert_law.specs.Prefixes.{IsJudged, IsSmall};
ghost use Rattle.fux_grid.specs.declared.cell.Cell.{Cell as ACell};
ghost use Rattle.floor_graphs.specs.Sharper as sharper;
ghost use Rattle.fux_judge.specs.Gauges.{least_of};
ghost use Rattle.fux_judge.specs.Penalties as penalties;
ghost use Rattle.price_check.specs.Floors.{AreFor, ArePlaces, HasPath, HavePath, StandsIn, exercise_of, list_of, sheet_of};
ghost use Rattle.price_check.specs.PriceLists as words;
ghost use Rattle.price_check.specs.PriceLists.{list_sum, path_of, sharp_tail};
ghost use Rattle.rule_law.specs.Prefixes.{IsPrefix};

use cert_law::Judged;
use priced_floors::PricedSpace;
use priced_paths::{PathSums, Place};

/// How many lists there are at most.
pub const MOST_LISTS: usize = 8;

/// A list of prices, with the web in which its numbers were worked. A plain one charges nothing,
/// and counts what the lines cost at least.
#[derive(Drop)]
pub struct ListFloor<'a> {
    pub sums: PathSums<'a, PricedSpace<'a>>,
    pub plain: bool,
}

/// What is spent of a prefix: what is paid of it, and in a plain list what its lines cost at least.
fn spent_by(plain: bool, paid: u64, least: u64) -> u64
    requires paid { paid ≤ 2 ^ 40 }
    requires least { least ≤ 2 ^ 40 }
    ensures value { result ≡ words.spent_by plain paid least }
    ensures small { result < 2 ^ 48 }
{
    if plain { paid + least } else { paid }
}

impl<'a> ListFloor<'a> {
    /// Where the empty prefix stands.
    fn start(&self) -> Option<Place>
        ensures { StandsIn self.now result [] }
    {
        self.sums.start()
    }

    /// Where a prefix stands with the column of a number more.
    fn follow(&self, place: &Option<Place>, number: usize) -> Option<Place>
        requires { HasPath self.now place.now }
        ensures { (path : List ℕ) → StandsIn self.now place.now path
            → StandsIn self.now result (path ++ number ∷ []) }
    {
        self.sums.follow(place, number)
    }

    /// The list's sum of a prefix of which so much is paid, and whose lines cost so much at least.
    fn sum(&self, place: &Option<Place>, paid: u64, least: u64) -> Option<u64>
        requires place { HasPath self.now place.now }
        requires paid { paid ≤ 2 ^ 40 }
        requires least { least ≤ 2 ^ 40 }
        ensures { (p : List (List ACell)) → IsPrefix (exercise_of self.now) p
            → StandsIn self.now place.now (path_of (exercise_of self.now) p)
            → paid ≡ penalties.paid (exercise_of self.now) (sheet_of self.now) p
            → least ≡ least_of (exercise_of self.now) (sheet_of self.now) p
            → result ≡ list_sum (exercise_of self.now) (sheet_of self.now) (list_of self.now) p }
    {
        let spent = spent_by(self.plain, paid, least);
        self.sums.sum(place, spent)
    }
}

/// The greater of two sums; none where one of them is none.
fn greater(one: Option<u64>, other: Option<u64>) -> Option<u64>
    ensures { result ≡ sharper.greater one other }
{
    let one = one?;
    let other = other?;
    Some(one.max(other))
}

/// Where the empty prefix stands in the web of each list.
pub fn first_places(floors: &[ListFloor<'_>]) -> [Option<Place>; MOST_LISTS]
    requires { length floors.now ≤ MOST_LISTS }
    ensures { ArePlaces floors.now result [] }
{
    let mut places = [None; MOST_LISTS];
    for j in 0..floors.len() {
        places[j] = floors[j].start();
    }
    places
}

/// Where a prefix stands in the web of each list with the column of a number more.
pub fn next_places(
    floors: &[ListFloor<'_>],
    places: &[Option<Place>; MOST_LISTS],
    number: usize,
) -> [Option<Place>; MOST_LISTS]
    requires few { length floors.now ≤ MOST_LISTS }
    requires some { HavePath floors.now places.now }
    ensures { (path : List ℕ) → ArePlaces floors.now places.now path
        → ArePlaces floors.now result (path ++ number ∷ []) }
{
    let mut next = [None; MOST_LISTS];
    for j in 0..floors.len() {
        next[j] = floors[j].follow(&places[j], number);
    }
    next
}

/// The tail of a prefix by lists: what its floor is above what is paid of it and its lines cost at
/// least.
pub fn tail_by(
    floors: &[ListFloor<'_>],
    places: &[Option<Place>; MOST_LISTS],
    judged: &Judged,
) -> Option<u64>
    requires few { length floors.now ≤ MOST_LISTS }
    requires some { HavePath floors.now places.now }
    requires small { IsSmall judged.now }
    ensures { (t : Matter) (p : List (List ACell)) → AreFor t.exercise t.sheet floors.now
        → IsJudged t p judged.now → ArePlaces floors.now places.now (path_of t.exercise p)
        → result ≡ sharp_tail t.exercise t.sheet (map list_of floors.now) p }
{
    let spent = judged.paid + judged.least;
    let mut greatest = Some(spent);
    for turn in 0..floors.len() {
        let j = floors.len() - 1 - turn;
        let sum = floors[j].sum(&places[j], judged.paid, judged.least);
        greatest = greater(sum, greatest);
    }
    Some(greatest?.saturating_sub(spent))
}

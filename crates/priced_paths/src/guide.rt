//! The floors of a pricing.
ghost use Rattle.std.specs.Prelude.{◌≡◌, ◌<◌, ◌≤◌, ℕ, false, IfOk, length};
ghost use Rattle.std.proofs.Props.{props};
ghost use Rattle.floor_graphs.specs.Graphs.{AreFloors};
ghost use Rattle.floor_graphs.specs.Numbers.{AreSmall};
ghost use Rattle.priced_paths.specs.Webs.{IsSound};
ghost use Rattle.priced_paths.specs.declared.pricing.TheConstants.{MOST_CASES};
ghost use Rattle.priced_paths.specs.CaseGraphs.{case_of, nodes_of};
ghost use Rattle.priced_paths.specs.Places.{AreNumbersOf, IsPlaceOf, numbers_of, priced_sum, standing, standing_in};

use crate::case::{CaseGraph, node_of};
use crate::pricing::{MOST_CASES, Pricing};
use crate::web::Web;
use floor_graphs::{Guide, least_numbers, lesser};
use fux_pitch::{List, Memory};
use std::alloc::Global;
use tree_search::Space;

/// What a case has charged a path, and whether the path has reached what the case asks for.
#[derive(Clone, Copy)]
pub struct Standing {
    pub charged: u32,
    pub reached: bool,
}

/// A path's spot, and how the path stands in each case that has all of its steps.
#[derive(Clone, Copy)]
pub struct Place {
    pub at: u32,
    pub standings: [Option<Standing>; MOST_CASES],
}

/// The place of the empty path.
pub fn first_place() -> Place
    ensures at { result.at ≡ 0 }
    ensures standings { (k : ℕ) → k < MOST_CASES → standing_in result k ≡ Some (standing false 0) }
{
    let standing = Standing {
        charged: 0,
        reached: false,
    };
    Place {
        at: 0,
        standings: [Some(standing); MOST_CASES],
    }
}

/// A web that was checked, and for each case the least sums from its spots to the ends.
#[derive(Drop)]
pub struct PricedGuide<'a, P: Pricing> {
    pub pricing: &'a P,
    pub web: &'a Web<P::Kept>,
    pub numbers: &'a [List<Option<u64>>],
    ghost sound: { IsSound (P.Tree.height (P.tree pricing.now)) (P.breadth pricing.now) web.now },
    ghost short: { P.Tree.height (P.tree pricing.now) ≤ 192 },
    ghost few: { P.count pricing.now ≤ MOST_CASES },
    ghost each: { length numbers.now ≡ P.count pricing.now },
    ghost small: { (k : ℕ) → k < P.count pricing.now → AreSmall (numbers_of numbers.now k) },
    ghost whole: { (k : ℕ) → k < P.count pricing.now → length (numbers_of numbers.now k) ≡ nodes_of web.now },
    ghost floors: { AreFloors (P.Tree.live (P.tree pricing.now)) (P.Tree.height (P.tree pricing.now))
        (priced_sum web.now (case_of (P.toll_at pricing.now)
        (P.reaches_at pricing.now) (P.rate_of pricing.now)) (P.count pricing.now) (P.settled_by pricing.now) numbers.now) } by { Prim.hlevel props },
}

/// The numbers of a case.
pub fn numbers_in<P: Pricing>(
    alloc: Global,
    pricing: &P,
    web: &Web<P::Kept>,
    height: usize,
    case: usize,
) -> Result<List<Option<u64>>, Memory>
    requires sound { IsSound (P.Tree.height (P.tree pricing.now)) (P.breadth pricing.now) web.now }
    requires height { height ≡ P.Tree.height (P.tree pricing.now) }
    requires case { case < P.count pricing.now }
    ensures { IfOk result (AreNumbersOf web.now (P.Tree.height (P.tree pricing.now))
        (case_of (P.toll_at pricing.now) (P.reaches_at pricing.now) (P.rate_of pricing.now) case)) }
{
    let (scale, _debt) = pricing.rate(case);
    let graph = CaseGraph {
        pricing,
        web,
        case,
        scale,
        height,
    };
    let numbers = least_numbers(alloc, &graph)?;
    Ok(List::new(numbers))
}

/// The numbers of each case.
pub fn case_numbers<P: Pricing>(
    alloc: Global,
    pricing: &P,
    web: &Web<P::Kept>,
) -> Result<Vec<List<Option<u64>>>, Memory>
    requires { IsSound (P.Tree.height (P.tree pricing.now)) (P.breadth pricing.now) web.now }
    ensures few { P.count pricing.now ≤ MOST_CASES }
    ensures short { P.Tree.height (P.tree pricing.now) ≤ 192 }
    ensures each { IfOk result (λ numbers. length numbers.items ≡ P.count pricing.now) }
    ensures numbers { IfOk result (λ numbers. (k : ℕ) → k < P.count pricing.now
        → AreNumbersOf web.now (P.Tree.height (P.tree pricing.now)) (case_of (P.toll_at pricing.now)
        (P.reaches_at pricing.now) (P.rate_of pricing.now) k) (numbers_of numbers.items k)) }
{
    let height = pricing.space().depth();
    let count = pricing.cases();
    let mut numbers = Vec::with_capacity(alloc, count)?;
    for case in 0..count {
        let own = numbers_in(alloc, pricing, web, height, case)?;
        numbers.push_reserved(own);
    }
    Ok(numbers)
}

impl<'a, P: Pricing> PricedGuide<'a, P> {
    ghost use Rattle.std.specs.Prelude.{◌^◌, ◌+◌, IfSome};
    ghost use Rattle.floor_graphs.specs.Numbers.{number_in};
    ghost use Rattle.priced_paths.specs.Places.{sum_by, standing_by, IsCheap, least_at};

    /// The number of a node in a case.
    #[inline]
    fn number(&self, case: usize, node: usize) -> Option<u64>
        requires case { case < P.count self.now.pricing.now }
        requires node { node < nodes_of self.now.web.now }
        ensures value { result ≡ number_in (numbers_of self.now.numbers.now case) node }
        ensures small { IfSome result (λ own. own ≤ 2 ^ 55) }
    {
        self.numbers[case].as_slice()[node]
    }

    /// The sum of a path in a case, by what it has settled.
    #[inline]
    fn sum_in(&self, case: usize, at: u32, standing: Option<Standing>, settled: u64) -> Option<u64>
        requires case { case < P.count self.now.pricing.now }
        requires at { at < length self.now.web.now.spots.items }
        requires settled { settled < 2 ^ 48 }
        ensures { result ≡ sum_by self.now.web.now (P.rate_of self.now.pricing.now case)
            (numbers_of self.now.numbers.now case) settled at standing }
    {
        let standing = standing?;
        let node = node_of(self.web.spots.len(), at as usize, standing.reached);
        let number = self.number(case, node)?;
        let (scale, debt) = self.pricing.rate(case);
        let paid = u64::from(scale) * settled + u64::from(standing.charged) + number;
        Some((paid.saturating_sub(debt) + u64::from(scale - 1)) / u64::from(scale))
    }

    /// The least of the sums of all cases.
    pub fn least_sum(&self, place: &Place, settled: u64) -> Option<u64>
        requires at { place.now.at < length self.now.web.now.spots.items }
        requires settled { settled < 2 ^ 48 }
        ensures { result ≡ least_at self.now.web.now (case_of (P.toll_at self.now.pricing.now)
            (P.reaches_at self.now.pricing.now) (P.rate_of self.now.pricing.now))
            (P.count self.now.pricing.now) self.now.numbers.now settled place.now }
    {
        let mut least = None;
        for case in 0..self.pricing.cases() {
            let own = self.sum_in(case, place.at, place.standings[case], settled);
            least = lesser(least, own);
        }
        least
    }

    /// How a path stands in a case after a step.
    #[inline]
    fn standing_after(
        &self,
        case: usize,
        depth: usize,
        label: usize,
        standing: Option<Standing>,
    ) -> Option<Standing>
        requires case { case < P.count self.now.pricing.now }
        requires above { depth < P.Tree.height (P.tree self.now.pricing.now) }
        requires label { label < P.breadth self.now.pricing.now depth }
        requires cheap { IsCheap depth standing }
        ensures value { result ≡ standing_by (P.toll_at self.now.pricing.now case depth label)
            (P.reaches_at self.now.pricing.now case depth label) standing }
        ensures cheap { IsCheap (depth + 1) result }
    {
        let standing = standing?;
        let charge = self.pricing.toll(case, depth, label)?;
        Some(Standing {
            charged: standing.charged + charge,
            reached: standing.reached || self.pricing.reaches(case, depth, label),
        })
    }

    /// The place behind a step to a spot.
    pub fn place_after(&self, place: &Place, depth: usize, label: usize, to: u32) -> Place
        requires above { depth < P.Tree.height (P.tree self.now.pricing.now) }
        requires label { label < P.breadth self.now.pricing.now depth }
        requires cheap { (k : ℕ) → k < P.count self.now.pricing.now
            → IsCheap depth (standing_in place.now k) }
        ensures at { result.at ≡ to }
        ensures standings { (k : ℕ) → k < P.count self.now.pricing.now → standing_in result k
            ≡ standing_by (P.toll_at self.now.pricing.now k depth label)
            (P.reaches_at self.now.pricing.now k depth label) (standing_in place.now k) }
        ensures cheap { (k : ℕ) → k < P.count self.now.pricing.now → IsCheap (depth + 1)
            (standing_in result k) }
    {
        let mut next = Place {
            at: to,
            standings: [None; MOST_CASES],
        };
        for case in 0..self.pricing.cases() {
            next.standings[case] = self.standing_after(case, depth, label, place.standings[case]);
        }
        next
    }
}

impl<'a, P: Pricing> Guide for PricedGuide<'a, P> {
    ghost tree = { λ guide. P.tree guide.pricing.now };

    ghost sum = { λ guide. priced_sum guide.web.now (case_of (P.toll_at guide.pricing.now)
        (P.reaches_at guide.pricing.now) (P.rate_of guide.pricing.now)) (P.count guide.pricing.now) (P.settled_by guide.pricing.now) guide.numbers.now };

    ghost stands = { λ guide. IsPlaceOf guide.web.now (case_of (P.toll_at guide.pricing.now)
        (P.reaches_at guide.pricing.now) (P.rate_of guide.pricing.now)) (P.count guide.pricing.now) };

    ghost floors = { λ guide. guide.floors };

    type Tree = P::Tree;

    type Place = Place;

    fn space(&self) -> &P::Tree {
        self.pricing.space()
    }

    fn start(&self) -> Option<(Place, u64)> {
        let place = first_place();
        let sum = self.least_sum(&place, 0)?;
        Some((place, sum))
    }

    fn follow(
        &self,
        place: &Place,
        k: usize,
        child: &<P::Tree as Space>::Node,
    ) -> Option<(Place, u64)> {
        let edge = self.web.edge(place.at as usize, k)?;
        let depth = self.web.depth(place.at as usize);
        let next = self.place_after(place, depth, k, edge.to);
        let sum = self.least_sum(&next, self.pricing.settled(child))?;
        Some((next, sum))
    }
}

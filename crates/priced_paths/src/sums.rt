//! Going along paths of a web, and their sums.

ghost use Rattle.std.specs.Prelude.{◌≡◌, ◌<◌, ◌≤◌, ◌++◌, ◌∷◌, ◌^◌, [], ℕ, List, length};
ghost use Rattle.priced_paths.specs.LeastRests as rests;
ghost use Rattle.priced_paths.specs.Stands.{AreExact, StandsAt, StandsSomewhere};
ghost use Rattle.priced_paths.specs.CaseGraphs.{case_of};
ghost use Rattle.priced_paths.specs.Places.{AreNumbersOf, numbers_of};
ghost use Rattle.priced_paths.specs.Webs.{IsWeb};
ghost use Rattle.priced_paths.specs.declared.pricing.TheConstants.{MOST_CASES};

use crate::guide::{Place, PricedGuide, first_place};
use crate::pricing::Pricing;
use crate::web::Web;
use fux_pitch::List as Numbers;
use tree_search::Space;

/// A web that was checked, with the least numbers of each case.
#[derive(Drop)]
pub struct PathSums<'a, P: Pricing> {
    pub guide: PricedGuide<'a, P>,
    ghost exact: { AreExact guide.web.now (case_of (P.toll_at guide.pricing.now)
        (P.reaches_at guide.pricing.now) (P.rate_of guide.pricing.now)) (P.count guide.pricing.now)
        guide.numbers.now (P.Tree.height (P.tree guide.pricing.now))
        (P.kept_of guide.pricing.now []) (P.breadth guide.pricing.now)
        (P.step_at guide.pricing.now) },
}

impl<'a, P: Pricing> PathSums<'a, P> {
    /// The sums by a web and the numbers of its cases.
    pub fn new(
        pricing: &'a P,
        web: &'a Web<P::Kept>,
        numbers: &'a [Numbers<Option<u64>>],
    ) -> PathSums<'a, P>
        requires web { IsWeb (P.kept_of pricing.now []) (P.Tree.height (P.tree pricing.now))
            (P.breadth pricing.now) (P.step_at pricing.now) web.now }
        requires few { P.count pricing.now ≤ MOST_CASES }
        requires short { P.Tree.height (P.tree pricing.now) ≤ 192 }
        requires each { length numbers.now ≡ P.count pricing.now }
        requires numbers { (k : ℕ) → k < P.count pricing.now → AreNumbersOf web.now
            (P.Tree.height (P.tree pricing.now)) (case_of (P.toll_at pricing.now)
            (P.reaches_at pricing.now) (P.rate_of pricing.now) k) (numbers_of numbers.now k) }
        ensures pricing { result.guide.pricing.now ≡ pricing.entry.now }
        ensures web { result.guide.web.now ≡ web.entry.now }
    {
        let guide = PricedGuide {
            pricing,
            web,
            numbers,
        };
        PathSums { guide }
    }

    /// Where the empty path stands.
    pub fn start(&self) -> Option<Place>
        ensures { StandsAt self.now.guide.web.now (case_of (P.toll_at self.now.guide.pricing.now)
            (P.reaches_at self.now.guide.pricing.now) (P.rate_of self.now.guide.pricing.now))
            (P.count self.now.guide.pricing.now) result [] }
    {
        Some(first_place())
    }

    /// Where a path stands with a step more.
    pub fn follow(&self, place: &Option<Place>, label: usize) -> Option<Place>
        requires { StandsSomewhere self.now.guide.web.now
            (case_of (P.toll_at self.now.guide.pricing.now)
            (P.reaches_at self.now.guide.pricing.now) (P.rate_of self.now.guide.pricing.now))
            (P.count self.now.guide.pricing.now) place.now }
        ensures { (path : List ℕ) → StandsAt self.now.guide.web.now
            (case_of (P.toll_at self.now.guide.pricing.now)
            (P.reaches_at self.now.guide.pricing.now) (P.rate_of self.now.guide.pricing.now))
            (P.count self.now.guide.pricing.now) place.now path → StandsAt self.now.guide.web.now
            (case_of (P.toll_at self.now.guide.pricing.now)
            (P.reaches_at self.now.guide.pricing.now) (P.rate_of self.now.guide.pricing.now))
            (P.count self.now.guide.pricing.now) result (path ++ label ∷ []) }
    {
        let Some(here) = place else {
            return None;
        };
        let edge = self.guide.web.edge(here.at as usize, label)?;
        let depth = self.guide.web.depth(here.at as usize);
        Some(self.guide.place_after(here, depth, label, edge.to))
    }

    /// The sum of a path that stands there and has settled so much.
    pub fn sum(&self, place: &Option<Place>, settled: u64) -> Option<u64>
        requires place { StandsSomewhere self.now.guide.web.now
            (case_of (P.toll_at self.now.guide.pricing.now)
            (P.reaches_at self.now.guide.pricing.now) (P.rate_of self.now.guide.pricing.now))
            (P.count self.now.guide.pricing.now) place.now }
        requires settled { settled < 2 ^ 48 }
        ensures { (path : List ℕ) → StandsAt self.now.guide.web.now
            (case_of (P.toll_at self.now.guide.pricing.now)
            (P.reaches_at self.now.guide.pricing.now) (P.rate_of self.now.guide.pricing.now))
            (P.count self.now.guide.pricing.now) place.now path
            → length path ≤ P.Tree.height (P.tree self.now.guide.pricing.now)
            → result ≡ rests.least_sum (P.Tree.height (P.tree self.now.guide.pricing.now))
            (P.kept_of self.now.guide.pricing.now []) (P.breadth self.now.guide.pricing.now)
            (P.step_at self.now.guide.pricing.now) (case_of (P.toll_at self.now.guide.pricing.now)
            (P.reaches_at self.now.guide.pricing.now) (P.rate_of self.now.guide.pricing.now))
            (P.count self.now.guide.pricing.now) settled path }
    {
        let Some(here) = place else {
            return None;
        };
        self.guide.least_sum(here, settled)
    }
}

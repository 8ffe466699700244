//! What stands for a path while a search is there.

ghost use Rattle.std.specs.Prelude.{◌≡◌, ◌+◌, ◌<◌, ◌≤◌, ◌^◌, [], ◌∷◌, MatchOption, false, length, take};
ghost use Rattle.penalty_sheet.specs.declared.sheet.Sheet.{Sheet as ASheet};
ghost use Rattle.canon_space.specs.Canons.{Bars, IsCanon};
ghost use Rattle.canon_space.specs.Nodes.{HasBars, IsNodeOf};
ghost use Rattle.canon_space.specs.Rules as rules;

use crate::bars::{Bar, is_canon_bar, opens_on_final};
use crate::canon::Canon;
use crate::costs::{pair_cost, voice_cost};
use crate::pairs::breaks_pair;
use crate::voices::breaks_voice;
use fux_grid::cell_of;
use melody_rules::{VoiceNotes, noted, silent};
use penalty_sheet::Sheet;

/// Bars that begin a canon and break no rule, the notes of both voices in them, and what they cost.
#[derive(Clone, Copy, Debug, PartialEq, Eq)]
pub struct CanonNode {
    pub(crate) len: usize,
    pub(crate) bars: [Bar; 24],
    pub(crate) lower: VoiceNotes,
    pub(crate) upper: VoiceNotes,
    pub(crate) paid: u64,
}

impl CanonNode {
    /// No bars.
    pub(crate) fn start() -> CanonNode
        ensures bars { HasBars [] result }
        ensures paid { result.paid ≡ 0 }
    {
        CanonNode {
            len: 0,
            bars: [Bar::RESTS; 24],
            lower: silent(),
            upper: silent(),
            paid: 0,
        }
    }

    /// Its bars, from the oldest to the newest.
    pub(crate) fn bars(&self) -> &[Bar]
        requires { self.now.len ≤ 24 }
        ensures { result.now ≡ take self.now.len self.now.bars }
    {
        &self.bars[..self.len]
    }

    /// Whether a rule is broken in a bar after these.
    fn breaks(&self, canon: &Canon, now: &Bar) -> bool
        requires canon { IsCanon canon.now }
        requires room { self.now.len < canon.now.bars }
        ensures { (behind : Bars) → HasBars behind self.now → result ≡ rules.breaks_some_rule
            canon.now behind now.now.cells }
    {
        breaks_voice(&self.lower, cell_of(&now.cells, 0))
            || breaks_voice(&self.upper, cell_of(&now.cells, 1))
            || breaks_pair(canon, self.bars(), now)
    }

    /// Whether a bar may come after these.
    fn may_go_on(&self, canon: &Canon, now: &Bar) -> bool
        requires canon { IsCanon canon.now }
        requires two { length now.now.cells ≡ 2 }
        requires room { self.now.len < canon.now.bars }
        ensures { (behind : Bars) → HasBars behind self.now → result ≡ rules.may_come canon.now
            behind now.now.cells }
    {
        let behind = self.bars();
        is_canon_bar(canon, behind, now)
            && opens_on_final(canon, behind, now)
            && !self.breaks(canon, now)
    }

    /// What a bar after these costs.
    fn cost(&self, canon: &Canon, sheet: &Sheet, now: &Bar) -> u64
        requires canon { IsCanon canon.now }
        requires room { self.now.len < canon.now.bars }
        ensures value { (behind : Bars) → HasBars behind self.now → result
            ≡ rules.bar_cost canon.now sheet.now behind now.now.cells }
        ensures bound { result ≤ 458745 }
    {
        voice_cost(sheet, &self.lower, cell_of(&now.cells, 0))
            + voice_cost(sheet, &self.upper, cell_of(&now.cells, 1))
            + pair_cost(canon, sheet, self.bars(), &now.cells)
    }

    /// These bars and one more, which costs so much.
    fn with(&self, now: Bar, cost: u64) -> CanonNode
        requires room { self.now.len < 24 }
        requires cost { self.now.paid + cost < 2 ^ 64 }
        ensures bars { (behind : Bars) → HasBars behind self.now → HasBars (now.cells ∷ behind)
            result }
        ensures paid { result.paid ≡ self.now.paid + cost }
    {
        let mut next = *self;
        next.bars[self.len] = now;
        next.len = self.len + 1;
        next.lower = noted(&self.lower, cell_of(&now.cells, 0));
        next.upper = noted(&self.upper, cell_of(&now.cells, 1));
        next.paid = self.paid + cost;
        next
    }

    /// These bars and one more, where it may come next.
    pub(crate) fn after(&self, canon: &Canon, sheet: &Sheet, now: &Bar) -> Option<CanonNode>
        requires canon { IsCanon canon.now }
        requires two { length now.now.cells ≡ 2 }
        requires room { self.now.len < canon.now.bars }
        requires paid { self.now.paid < 2 ^ 63 }
        ensures { (behind : Bars) → IsNodeOf canon.now sheet.now behind self.now →
            MatchOption result (rules.is_live canon.now (now.now.cells ∷ behind) ≡ false)
            (IsNodeOf canon.now sheet.now (now.now.cells ∷ behind)) }
    {
        if !self.may_go_on(canon, now) {
            return None;
        }
        Some(self.with(*now, self.cost(canon, sheet, now)))
    }
}

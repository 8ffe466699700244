//! New cantus as a tree.

ghost use Rattle.std.specs.Prelude.{◌≡◌, ◌≤◌, ◌≤ℤ◌};
ghost use Rattle.fux_pitch.specs.Pitch.{key_of};
ghost use Rattle.cantus_space.specs.Cantus.{IsPlan};

use crate::ahead::starts_ahead;
use crate::node::CantusNode;
use crate::notes::broken_after;
use crate::plan::CantusPlan;
use crate::pools::{PITCHES, next_of_pool, numbered_pitch};
use crate::prices::CantusPrices;
use fux_pitch::{Mode, Pitch, in_gamut};
use penalty_sheet::Sheet;
use rule_law::RuleSet;
use std::marker::Model;
use tree_search::{QuestSpace, Space};

/// The cantus that are as is asked, as a tree: a child adds the pitch of its number. It is dead
/// where the pitch isn't of its bar's pool, or a rule is broken by it.
#[derive(Drop)]
pub struct CantusSpace {
    plan: CantusPlan,
    /// For each number of bars, in how many of those after them a note may start.
    ahead: [u8; 25],
}

impl Model for CantusSpace {
    ghost use Rattle.cantus_space.specs.declared.plan.CantusPlan.{CantusPlan};
    ghost use Rattle.cantus_space.specs.Kept.{IsKept};

    ghost Value = { CantusPlan };

    ghost view = { λ s. s.plan };

    ghost invariant = { λ s. IsKept s.plan s.ahead };
}

impl CantusSpace {
    /// The space of the cantus of so many bars in a mode, from a low pitch to a high one, by a
    /// sheet and by prices. It takes no memory.
    pub fn new(
        mode: Mode,
        bars: u8,
        low: Pitch,
        high: Pitch,
        sheet: &Sheet,
        prices: &CantusPrices,
    ) -> CantusSpace
        requires fewest { 3 ≤ bars }
        requires most { bars ≤ 24 }
        requires rise { key_of low ≤ℤ key_of high }
        ensures { result ≡ record {
          mode = mode;
          bars = bars;
          low = low;
          high = high;
          sheet
              = sheet.now;
          prices
              = prices.now;
        } }
    {
        let plan = CantusPlan {
            mode,
            bars,
            low,
            high,
            sheet: *sheet,
            prices: *prices,
        };
        CantusSpace {
            ahead: starts_ahead(&plan),
            plan,
        }
    }

    /// What is asked of its cantus.
    pub fn plan(&self) -> &CantusPlan
        ensures value { result.now ≡ self.now }
        ensures valid { IsPlan self.now }
    {
        &self.plan
    }
}

impl Space for CantusSpace {
    ghost use Rattle.cantus_space.specs.Grows.{floors_grow};
    ghost use Rattle.cantus_space.specs.Numbers.{WIDTH};
    ghost use Rattle.cantus_space.specs.Paths.{IsNodeAt, live_at};

    type Node = CantusNode;

    ghost live = { λ space. live_at space };

    ghost width = { λ _ _. WIDTH };

    ghost height = { λ space. space.bars };

    ghost is_at = { λ space. IsNodeAt space };

    ghost floors_grow = { λ space. floors_grow space };

    fn depth(&self) -> usize {
        self.plan.bars as usize
    }

    fn root(&self) -> Option<(CantusNode, u64)> {
        Some((CantusNode::start(&self.plan), 0))
    }

    fn count(&self, _node: &CantusNode) -> usize {
        PITCHES
    }

    fn child(&self, node: &CantusNode, k: usize) -> Option<(CantusNode, u64)> {
        match node.after(&self.plan, numbered_pitch(&self.plan, k)) {
            Some(next) => Some((next, next.floor(&self.plan, self.ahead[next.len]))),
            None => None,
        }
    }

    /// Only pitches of the next pool may come, so those between them may be passed.
    fn next_child(&self, node: &CantusNode, from: usize, _best: Option<u64>) -> usize {
        next_of_pool(&self.plan, node.len + 1, from)
    }
}

/// Its live paths are exactly the pitches of their bars' pools that break no rule, with children in
/// reading order, and its leaves exactly the lawful cantus, with their penalties as values.
impl QuestSpace for CantusSpace {
    ghost use Rattle.fux_pitch.specs.declared.pitch.Pitch.{Pitch as APitch};
    ghost use Rattle.cantus_space.specs.Lawful.{quest_of};
    ghost use Rattle.cantus_space.specs.Paths.{pitches_at};

    ghost Step = { APitch };

    ghost quest = { λ space. quest_of space };

    ghost there = { λ space. pitches_at space };

    fn is_tree(&self) {
        let _ = self.plan();
    }
}

/// What a judge of claims needs of pitches, also where a rule is broken in them.
impl CantusSpace {
    ghost use Rattle.std.specs.Prelude.{◌≡◌, ◌||◌, ◌+◌, ◌≤◌, ℕ, [], ◌∷◌, List, length};
    ghost use Rattle.fux_pitch.specs.declared.pitch.Pitch.{Pitch as APitch};
    ghost use Rattle.rule_law.specs.Voices.{has_rule};
    ghost use Rattle.cantus_space.specs.Broken.{is_broken_by};
    ghost use Rattle.cantus_space.specs.Known.{HasRoom, IsKnown, IsKnownOf, IsNextOfPool};
    ghost use Rattle.cantus_space.specs.Rules as rules;

    /// What is known of no pitches.
    pub fn no_pitches(&self) -> CantusNode
        ensures { IsKnownOf self.now [] result }
    {
        CantusNode::start(&self.plan)
    }

    /// What is known of pitches and one more, of any pool and whatever it breaks.
    pub fn longer(&self, node: &CantusNode, pitch: Pitch) -> CantusNode
        requires { HasRoom self.now node.now }
        ensures { (behind : List APitch) → IsKnownOf self.now behind node.now → IsKnownOf self.now
            (pitch ∷ behind) result }
    {
        node.with(
            pitch,
            node.cost(&self.plan.sheet, pitch),
            node.charge(&self.plan.prices, pitch),
        )
    }

    /// What pitches cost at least, however they go on.
    pub fn floor(&self, node: &CantusNode) -> u64
        requires { IsKnown self.now node.now }
        ensures { (behind : List APitch) → IsKnownOf self.now behind node.now → result
            ≡ rules.floor_of self.now behind }
    {
        node.floor(&self.plan, self.ahead[node.len])
    }

    /// These rules, and those of S2, S4 and S6 to S9 that one more pitch breaks.
    pub fn broken_with(&self, broken: RuleSet, node: &CantusNode, pitch: Pitch) -> RuleSet
        requires { HasRoom self.now node.now }
        ensures { (behind : List APitch) → IsKnownOf self.now behind node.now → (rule : ℕ)
            → has_rule result.bits rule ≡ (has_rule broken.bits rule || is_broken_by self.now behind
            pitch rule) }
    {
        let bar = node.len as u8 + 1;
        let outside = !in_gamut(self.plan.mode, bar, self.plan.bars, pitch);
        broken_after(broken.with(2, outside), &node.notes, pitch)
    }

    /// The first pitch of the next pool, from a number on, and its number.
    pub fn next_of_pool(&self, node: &CantusNode, from: usize) -> Option<(usize, Pitch)>
        requires { HasRoom self.now node.now }
        ensures { (behind : List APitch) → IsKnownOf self.now behind node.now →
            IsNextOfPool self.now (length behind + 1) from result }
    {
        if from >= PITCHES {
            return None;
        }
        let number = next_of_pool(&self.plan, node.len + 1, from);
        if number >= PITCHES {
            return None;
        }
        Some((number, numbered_pitch(&self.plan, number)))
    }
}

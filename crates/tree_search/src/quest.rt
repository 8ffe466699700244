//! What is sought in a tree, and the search for the best of it.

ghost use Rattle.std.specs.Prelude.{ℕ, ◌<◌, List, IfOk};
ghost use Rattle.tree_search.specs.Answer.{IsFirstLeast};
ghost use Rattle.tree_search.specs.Outcomes.{IfFound};
ghost use Rattle.tree_search.specs.Quests.{IsExact, IsTreeOf, Quest};
ghost use Rattle.tree_search.specs.Nth.{IsNthLeaf};
ghost use Rattle.tree_search.specs.NthQuests.{IsExactNth};
ghost use Rattle.tree_search.specs.Numbered as numbered;

use crate::first::search_front;
use crate::front::search_nth;
use crate::outcome::{Numbered, Outcome};
use crate::space::Space;
use fux_pitch::Memory;
use std::alloc::Global;

/// A space whose leaves are exactly what is lawful of that which is sought, in order, each with its
/// penalty.
pub trait QuestSpace: Space {
    /// What a number of a path adds to what is there.
    ghost Step: { Type 0 };

    /// What is sought.
    ghost quest: { Self → Quest Step };

    /// What a path leads to.
    ghost there: { Self → List ℕ → List Step };

    /// Does nothing, and tells that the space is the tree of what is sought.
    fn is_tree(&self)
        ensures { IsTreeOf (quest self.now) (Self.live self.now) (Self.height self.now)
            (there self.now) };
}

/// A path to the best of what is sought with its penalty, that nothing is lawful, or a bound: the
/// budget is spent exactly where the load of the least penalty is above it, or with nothing lawful
/// the number of all that is live.
pub fn search_quest<S: QuestSpace>(alloc: Global, space: &S, budget: u32) -> Result<Outcome, Memory>
    ensures exact { IfOk result
        (IsExact (S.quest space.now) (S.live space.now) (S.there space.now) budget) }
    ensures first { IfOk result
        (λ outcome. IfFound outcome (IsFirstLeast (S.live space.now) (S.height space.now))) }
{
    space.is_tree();
    search_front(alloc, space, budget)
}

/// A path to the one of a number, from 1 on, in order of penalty and then as one comes before
/// another, with its penalty; how many there are where these are fewer; or a bound: the budget is
/// spent exactly where the load of its penalty is above it, or where there are fewer the number of
/// all that is live.
pub fn search_nth_quest<S: QuestSpace>(
    alloc: Global,
    space: &S,
    nth: u32,
    budget: u32,
) -> Result<Numbered, Memory>
    requires { 0 < nth }
    ensures exact { IfOk result
        (IsExactNth (S.quest space.now) (S.live space.now) (S.there space.now) nth budget) }
    ensures nth { IfOk result (λ outcome. numbered.IfFound outcome
        (IsNthLeaf (S.live space.now) (S.height space.now) nth)) }
{
    space.is_tree();
    search_nth(alloc, space, nth, budget)
}

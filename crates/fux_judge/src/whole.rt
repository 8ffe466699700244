//! Rules and tolls, read in a whole list of columns.

ghost use Rattle.std.specs.Prelude.{◌≡◌, ◌≤◌, ◌<◌, length};
ghost use Rattle.fux_grid.specs.Exercises.{IsValid, columns_in};
ghost use Rattle.fux_judge.specs.Rules as rules;

use crate::all_rules::AllRules;
use fux_grid::{Exercise, Score, VoiceSet};
use rule_law::RuleCrate;

/// Whether a rule is broken at column `i` for a set of voices. A number that no crate has is never
/// broken.
#[tactic(auto, unfolding(crate::specs::Rules::rule_at))]
pub fn is_broken_in(rule: u8, ex: &Exercise, score: &Score, i: usize, voices: VoiceSet) -> bool
    requires valid { IsValid ex.now }
    requires voices { score.now.voices ≡ ex.now.voices }
    requires few { length score.now.columns ≤ columns_in ex.now }
    requires place { i < length score.now.columns }
    ensures { result ≡ rules.is_broken rule ex.now voices.bits score.now.columns i }
{
    AllRules::broken_in(rule, ex, score, i, voices)
}

/// Whether that is settled.
#[tactic(auto, unfolding(crate::specs::Rules::rule_at))]
pub fn is_settled_in(rule: u8, ex: &Exercise, prefix: &Score, i: usize, voices: VoiceSet) -> bool
    requires valid { IsValid ex.now }
    requires voices { prefix.now.voices ≡ ex.now.voices }
    requires few { length prefix.now.columns ≤ columns_in ex.now }
    requires place { i < length prefix.now.columns }
    ensures { result ≡ rules.is_settled rule ex.now voices.bits prefix.now.columns i }
{
    AllRules::settled_in(rule, ex, prefix, i, voices)
}

/// What a toll costs at column `i`, without its weight. A number that no crate has costs nothing.
#[tactic(auto, unfolding(crate::specs::Rules::toll_at))]
pub fn cost_in(toll: u8, ex: &Exercise, score: &Score, i: usize) -> u32
    requires valid { IsValid ex.now }
    requires voices { score.now.voices ≡ ex.now.voices }
    requires few { length score.now.columns ≤ columns_in ex.now }
    requires place { i < length score.now.columns }
    ensures { result ≡ rules.cost_at toll ex.now score.now.columns i }
{
    AllRules::cost_in(toll, ex, score, i)
}

/// Whether that is settled.
#[tactic(auto, unfolding(crate::specs::Rules::toll_at))]
pub fn is_cost_settled_in(toll: u8, ex: &Exercise, prefix: &Score, i: usize) -> bool
    requires valid { IsValid ex.now }
    requires voices { prefix.now.voices ≡ ex.now.voices }
    requires few { length prefix.now.columns ≤ columns_in ex.now }
    requires place { i < length prefix.now.columns }
    ensures { result ≡ rules.is_cost_settled toll ex.now prefix.now.columns i }
{
    AllRules::cost_settled_in(toll, ex, prefix, i)
}

//! The rules and tolls that need the column before, each by its number and each set of voices by
//! its bits: where both are known, no table is looked up, and of a pair of columns only the cells
//! are read that the rule or toll is of.

ghost use Rattle.std.specs.Prelude.{◌≡◌, ◌≤◌, ◌^◌, true};
ghost use Rattle.std.specs.List.{list_any, sum_by};
ghost use Rattle.rule_law.specs.declared.table.Form.TheVariants as forms;
ghost use Rattle.rule_law.specs.Voices.{pair_sets, voice_sets};
ghost use Rattle.fux_judge.specs.Links as links;
ghost use Rattle.fux_judge.specs.Links.{is_rule_between};
ghost use Rattle.fux_judge.specs.Moves as moves;
ghost use Rattle.fux_judge.specs.Neighbors.{IsLink, breaks_strictly_at_link, charge_at_link, is_strict_for};
ghost use Rattle.fux_judge.specs.Rules.{rule_at};

use crate::link::{Link, charge, is_strictly_broken};
use fux_grid::VoiceSet;
use penalty_sheet::Sheet;

/// Whether a rule is strictly broken there for a set of one voice.
#[inline(always)]
fn is_broken_for_a_voice(rule: u8, link: &Link<'_>) -> bool
    requires rule { is_rule_between rule ≡ true }
    requires link { IsLink link.now }
    ensures { result ≡ is_strict_for link.now rule voice_sets }
{
    is_strictly_broken(rule, VoiceSet { bits: 1 }, link)
        || is_strictly_broken(rule, VoiceSet { bits: 2 }, link)
        || is_strictly_broken(rule, VoiceSet { bits: 4 }, link)
        || is_strictly_broken(rule, VoiceSet { bits: 8 }, link)
}

/// Whether a rule is strictly broken there for a set of two voices.
#[inline(always)]
fn is_broken_for_a_pair(rule: u8, link: &Link<'_>) -> bool
    requires rule { is_rule_between rule ≡ true }
    requires link { IsLink link.now }
    ensures { result ≡ is_strict_for link.now rule pair_sets }
{
    is_strictly_broken(rule, VoiceSet { bits: 3 }, link)
        || is_strictly_broken(rule, VoiceSet { bits: 5 }, link)
        || is_strictly_broken(rule, VoiceSet { bits: 6 }, link)
        || is_strictly_broken(rule, VoiceSet { bits: 9 }, link)
        || is_strictly_broken(rule, VoiceSet { bits: 10 }, link)
        || is_strictly_broken(rule, VoiceSet { bits: 12 }, link)
}

/// Whether a rule of single voices is strictly broken there.
#[inline(always)]
fn breaks_rule_of_voices(rule: u8, link: &Link<'_>) -> bool
    requires rule { is_rule_between rule ≡ true }
    requires form { (rule_at rule).form ≡ forms.OneVoice }
    requires link { IsLink link.now }
    ensures { result ≡ breaks_strictly_at_link link.now rule }
{
    is_broken_for_a_voice(rule, link)
}

/// Whether a rule of two voices is strictly broken there.
#[inline(always)]
fn breaks_rule_of_pairs(rule: u8, link: &Link<'_>) -> bool
    requires rule { is_rule_between rule ≡ true }
    requires form { (rule_at rule).form ≡ forms.TwoVoices }
    requires link { IsLink link.now }
    ensures { result ≡ breaks_strictly_at_link link.now rule }
{
    is_broken_for_a_pair(rule, link)
}

/// Whether a rule that needs the column before, and isn't of melody, is strictly broken there.
#[inline(always)]
#[tactic(auto, unfolding(crate::specs::Moves::joint_rules, crate::specs::Links::pair_rules, crate::specs::Rules::rules_read, crate::specs::Rules::rule_at))]
pub(crate) fn breaks_joint_rule(link: &Link<'_>) -> bool
    requires link { IsLink link.now }
    ensures { result ≡ list_any (breaks_strictly_at_link link.now) moves.joint_rules }
{
    breaks_rule_of_voices(12, link)
        || breaks_rule_of_pairs(16, link)
        || breaks_rule_of_pairs(17, link)
}

/// What the tolls that need the column before, and aren't of melody, cost there together, by
/// weight.
#[inline(always)]
#[tactic(auto, unfolding(crate::specs::Moves::joint_tolls, crate::specs::Links::pair_tolls, crate::specs::Rules::tolls_read, crate::specs::Rules::toll_at))]
pub(crate) fn joint_charges(sheet: &Sheet, link: &Link<'_>) -> u64
    requires link { IsLink link.now }
    ensures value { result ≡ sum_by (charge_at_link sheet.now link.now) moves.joint_tolls }
    ensures bound { result ≤ 2 ^ 20 }
{
    charge(11, sheet, link) + charge(12, sheet, link)
}

/// Whether a rule that needs the column before is strictly broken there.
#[inline(always)]
#[tactic(auto, unfolding(crate::specs::Moves::joint_rules, crate::specs::Links::pair_rules, crate::specs::Rules::rules_read, crate::specs::Rules::rule_at))]
pub(crate) fn breaks_pair_rule(link: &Link<'_>) -> bool
    requires link { IsLink link.now }
    ensures { result ≡ list_any (breaks_strictly_at_link link.now) links.pair_rules }
{
    breaks_rule_of_voices(4, link)
        || breaks_rule_of_voices(5, link)
        || breaks_joint_rule(link)
        || breaks_rule_of_voices(26, link)
}

/// What the tolls that need the column before cost there together, by weight.
#[inline(always)]
#[tactic(auto, unfolding(crate::specs::Moves::joint_tolls, crate::specs::Links::pair_tolls, crate::specs::Rules::tolls_read, crate::specs::Rules::toll_at))]
pub(crate) fn pair_charges(sheet: &Sheet, link: &Link<'_>) -> u64
    requires link { IsLink link.now }
    ensures value { result ≡ sum_by (charge_at_link sheet.now link.now) links.pair_tolls }
    ensures bound { result ≤ 2 ^ 24 }
{
    charge(7, sheet, link)
        + charge(8, sheet, link)
        + charge(9, sheet, link)
        + charge(10, sheet, link)
        + joint_charges(sheet, link)
}

//! The numbers of rules and tolls: which there are, which are settled at once and which are late,
//! and which are left to read where a test tells of the others. Each list is the table's, by its
//! clause.

ghost use Rattle.std.specs.Prelude.{◌≡◌, ◌≤◌, ◌&&◌, not, nat_le, nat_lt, ℕ, IsTrue, length};
ghost use Rattle.std.specs.List.{filter, list_all, range_with_len};
ghost use Rattle.fux_grid.specs.Exercises.{greatest_mixed_rule};
ghost use Rattle.fux_judge.specs.Links as links;
ghost use Rattle.fux_judge.specs.Links.{is_rule_between, is_toll_between};
ghost use Rattle.fux_judge.specs.Kept.{rules_at_a_bar, rules_at_the_end, rules_within_bars};
ghost use Rattle.fux_judge.specs.Rules as rules;
ghost use Rattle.fux_judge.specs.Rules.{all_rules, all_sets, is_late, late_rules, rules_at_once, rules_read, tolls_read};
ghost use Rattle.penalty_sheet.specs.Weights.{greatest_toll};

use fux_grid::GREATEST_MIXED_RULE;

/// All rules that are read.
const RULES: [u8; GREATEST_MIXED_RULE as usize] = [
    1, 2, 3, 4, 5, 6, 7, 8, 9, 10, 11, 12, 13, 14, 15, 16, 17, 18, 19, 20, 21, 22, 23, 24, 25, 26,
    27, 28,
];

/// The sets of voices, of four at most, by their bits.
const VOICE_SETS: [u8; 15] = [1, 2, 3, 4, 5, 6, 7, 8, 9, 10, 11, 12, 13, 14, 15];

/// The rules that may be settled later than at their own column.
const LATE_RULES: [u8; 11] = [3, 15, 18, 19, 20, 21, 22, 23, 25, 27, 28];

/// The rules that are settled at once.
const RULES_AT_ONCE: [u8; 17] = [1, 2, 4, 5, 6, 7, 8, 9, 10, 11, 12, 13, 14, 16, 17, 24, 26];

/// Those of them that are left where a column is smooth, clear and in place: they are of the last
/// bar's beginning, or of any bar's.
const AT_THE_END: [u8; 4] = [11, 13, 14, 24];

/// Those of these that are of any bar's beginning.
const AT_A_BAR: [u8; 2] = [11, 14];

/// Within a bar there is none of these, nor where no two voices sound the same key or clash.
const WITHIN_BARS: [u8; 0] = [];

/// The rules that a column decides by itself.
const COLUMN_RULES: [u8; 6] = [10, 11, 13, 14, 23, 24];

/// All tolls that are read.
const TOLLS: [u8; 17] = [1, 2, 3, 4, 5, 6, 7, 8, 9, 10, 11, 12, 13, 14, 15, 16, 21];

/// The tolls that a column decides by itself.
const COLUMN_TOLLS: [u8; 7] = [1, 2, 3, 4, 5, 6, 15];

/// All rules that are read, by ascending numbers: those of all crates.
#[tactic(auto, unfolding(crate::specs::Rules::rules_read))]
pub fn every_rule() -> &'static [u8]
    ensures value { result.now ≡ rules_read }
    ensures table { result.now ≡ filter all_rules.has_rule (range_with_len 1 greatest_mixed_rule) }
    ensures count { length result.now ≡ greatest_mixed_rule }
{
    &RULES
}

/// Every set of voices, of four at most, by ascending bits.
pub fn every_set() -> &'static [u8]
    ensures value { result.now ≡ all_sets }
    ensures count { length result.now ≡ 15 }
{
    &VOICE_SETS
}

/// The rules that are late.
#[tactic(auto, unfolding(crate::specs::Rules::late_rules, crate::specs::Rules::rules_read, crate::specs::Rules::rule_at))]
pub(crate) fn every_late_rule() -> &'static [u8]
    ensures value { result.now ≡ late_rules }
    ensures numbers { IsTrue (list_all (λ rule. nat_lt rule 32 && is_late rule) result.now) }
    ensures few { length result.now ≤ 12 }
{
    &LATE_RULES
}

/// The rules that are settled at once.
#[tactic(auto, unfolding(crate::specs::Rules::rules_at_once, crate::specs::Rules::rules_read, crate::specs::Rules::rule_at))]
pub(crate) fn all_at_once() -> &'static [u8]
    ensures value { result.now ≡ rules_at_once }
    ensures numbers { IsTrue (list_all (λ rule. nat_lt rule 32 && not (is_late rule)) result.now) }
    ensures few { length result.now ≤ 32 }
{
    &RULES_AT_ONCE
}

/// Those of them that are left where a column is smooth, clear and in place.
#[tactic(auto, unfolding(crate::specs::Rules::rule_at))]
pub(crate) fn left_at_the_end() -> &'static [u8]
    ensures value { result.now ≡ rules_at_the_end }
    ensures numbers { IsTrue (list_all (λ rule. nat_lt rule 32 && not (is_late rule)) result.now) }
{
    &AT_THE_END
}

/// Those that are left before the last bar.
#[tactic(auto, unfolding(crate::specs::Rules::rule_at))]
pub(crate) fn left_at_a_bar() -> &'static [u8]
    ensures value { result.now ≡ rules_at_a_bar }
    ensures numbers { IsTrue (list_all (λ rule. nat_lt rule 32 && not (is_late rule)) result.now) }
{
    &AT_A_BAR
}

/// Those that are left within a bar, and where no two voices come close.
#[tactic(auto, unfolding(crate::specs::Rules::rule_at))]
pub(crate) fn left_within_bars() -> &'static [u8]
    ensures value { result.now ≡ rules_within_bars }
    ensures numbers { IsTrue (list_all (λ rule. nat_lt rule 32 && not (is_late rule)) result.now) }
{
    &WITHIN_BARS
}

/// The rules that a column decides by itself.
#[tactic(auto, unfolding(crate::specs::Links::column_rules, crate::specs::Rules::rules_read, crate::specs::Rules::rule_at))]
pub(crate) fn column_rules() -> &'static [u8]
    ensures value { result.now ≡ links.column_rules }
    ensures kinds { IsTrue (list_all is_rule_between result.now) }
{
    &COLUMN_RULES
}

/// All tolls that are read, by ascending numbers: those of all crates.
#[tactic(auto, unfolding(crate::specs::Rules::tolls_read))]
pub fn every_toll() -> &'static [u8]
    ensures value { result.now ≡ tolls_read }
    ensures table { result.now ≡ filter all_rules.has_toll (range_with_len 1 greatest_toll) }
    ensures numbers { IsTrue (list_all (λ toll. nat_le 1 toll && nat_le toll greatest_toll)
        result.now) }
    ensures few { length result.now ≤ 20 }
{
    &TOLLS
}

/// The tolls that a column decides by itself.
#[tactic(auto, unfolding(crate::specs::Links::column_tolls, crate::specs::Rules::tolls_read, crate::specs::Rules::toll_at))]
pub(crate) fn column_tolls() -> &'static [u8]
    ensures value { result.now ≡ links.column_tolls }
    ensures kinds { IsTrue (list_all is_toll_between result.now) }
    ensures numbers { IsTrue (list_all (λ toll. nat_le 1 toll && nat_le toll greatest_toll)
        result.now) }
    ensures few { length result.now ≤ greatest_toll }
{
    &COLUMN_TOLLS
}

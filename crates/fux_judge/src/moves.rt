//! What the move of one voice costs, and what two columns cost where that is known of each voice.

ghost use Rattle.std.specs.Prelude.{◌≡◌, ◌≤◌, ◌<◌, ◌^◌, ℕ, true, List, IfSome, IsSomeAnd, Some};
ghost use Rattle.std.specs.List.{list_any};
ghost use Rattle.fux_grid.specs.declared.cell.Cell.{Cell as ACell};
ghost use Rattle.fux_grid.specs.declared.exercise.Exercise.{Exercise as AnExercise};
ghost use Rattle.fux_grid.specs.Exercises.{IsValid, columns_in};
ghost use Rattle.melody_rules.specs.Rows.{voice_rule};
ghost use Rattle.penalty_sheet.specs.declared.sheet.Sheet.{Sheet as ASheet};
ghost use Rattle.penalty_sheet.specs.Weights.{weight_of};
ghost use Rattle.rule_law.specs.Voices as voices;
ghost use Rattle.fux_judge.specs.Links.{pair_of};
ghost use Rattle.fux_judge.specs.Moves as moving;
ghost use Rattle.fux_judge.specs.Moves.{move_of, moves_of};

use crate::link::link_between;
use crate::pairs::{breaks_joint_rule, joint_charges};
use crate::tolls::charge_of_move;
use fux_grid::{Cell, Column, Exercise, VoiceSet, bar_of, species_of};
use fux_pitch::Pitch;
use melody_rules::{leaves_sharp, moves_unmelodically, repeats};
use penalty_sheet::{Sheet, price_at, weight};
use rule_law::{is_free, is_quiet};

/// The set of one voice.
#[inline(always)]
pub(crate) fn set_of(v: u8) -> VoiceSet
    requires { v < 4 }
    ensures { result.bits ≡ 2 ^ v }
{
    VoiceSet { bits: 1 << v }
}

/// Whether a voice's move breaks S4, S5 or S26.
#[inline(always)]
fn breaks_rule(rule: u8, species: u8, previous: Option<Pitch>, next: Cell) -> bool
    ensures { result ≡ voice_rule rule species previous next }
{
    match rule {
        4 => moves_unmelodically(previous, next),
        5 => repeats(species, previous, next),
        _ => leaves_sharp(previous, next),
    }
}

/// Whether it does so strictly. A relax line is looked for only where the rule is broken.
#[inline(always)]
fn breaks_strictly(rule: u8, ex: &Exercise, i: usize, v: u8, before: Cell, next: Cell) -> bool
    requires valid { IsValid ex.now }
    requires place { i < columns_in ex.now }
    requires voice { v < ex.now.voices }
    requires free { voices.is_free ex.now v ≡ true }
    ensures { result ≡ moving.breaks_by_move ex.now i v before next rule }
{
    if !breaks_rule(rule, species_of(ex, v), before.pitch(), next) {
        return false;
    }
    price_at(ex, rule, set_of(v), bar_of(i)).is_strict()
}

/// Whether a voice's move makes a strict break.
#[inline]
#[tactic(auto, unfolding(crate::specs::Moves::move_rules, crate::specs::Links::pair_rules, crate::specs::Rules::rules_read, crate::specs::Rules::rule_at))]
fn breaks_one(ex: &Exercise, i: usize, v: u8, before: Cell, next: Cell) -> bool
    requires valid { IsValid ex.now }
    requires place { i < columns_in ex.now }
    requires free { voices.is_free ex.now v ≡ true }
    ensures { result ≡ list_any (moving.breaks_by_move ex.now i v before next) moving.move_rules }
{
    if v >= ex.voices {
        return false;
    }
    breaks_strictly(4, ex, i, v, before, next)
        || breaks_strictly(5, ex, i, v, before, next)
        || breaks_strictly(26, ex, i, v, before, next)
}

/// What the move of a voice costs at place `i`, from its cell in the column before to its cell
/// there: the rules S4, S5 and S26 and the tolls Q7 to Q10 read nothing else. None exactly where it
/// makes a strict break of one of these rules. The cantus pays nothing.
#[inline]
pub fn move_cost(
    ex: &Exercise,
    sheet: &Sheet,
    i: usize,
    v: u8,
    before: Cell,
    next: Cell,
) -> Option<u64>
    requires valid { IsValid ex.now }
    requires place { i < columns_in ex.now }
    ensures value { result ≡ move_of ex.now sheet.now i v before next }
    ensures bound { IfSome result (λ cost. cost ≤ 2 ^ 18) }
{
    if !is_free(ex, v) {
        return Some(0);
    }
    if breaks_one(ex, i, v, before, next) {
        return None;
    }
    Some(charge_of_move(sheet, before.pitch(), next))
}

/// No weight of a toll of moves is greater than a weight may be: a theorem, which costs nothing
/// when it's called.
#[inline(always)]
fn weighs_little(sheet: &Sheet)
    ensures repetition { weight_of sheet.now 7 ≤ 65535 }
    ensures third { weight_of sheet.now 8 ≤ 65535 }
    ensures fifth { weight_of sheet.now 9 ≤ 65535 }
    ensures leap { weight_of sheet.now 10 ≤ 65535 }
{
    let _repetition = weight(sheet, 7);
    let _third = weight(sheet, 8);
    let _fifth = weight(sheet, 9);
    let _leap = weight(sheet, 10);
}

/// What a column costs at place `i` behind `prev`, by the rules and tolls of pairs alone, where it
/// is known what the voices' moves cost: the rules and tolls of melody are not read again. None
/// exactly where the two make a strict break of one of these rules.
#[inline]
pub fn pair_cost_from<'a>(
    ex: &'a Exercise<'a>,
    sheet: &Sheet,
    i: usize,
    prev: &'a Column,
    next: &'a Column,
    moves: u64,
) -> Option<u64>
    requires valid { IsValid ex.now }
    requires place { i < columns_in ex.now }
    requires known { moves_of ex.now sheet.now i prev.now.items next.now.items ≡ Some moves }
    ensures value { result ≡ pair_of ex.now sheet.now i (Some prev.now.items) next.now.items }
    ensures bound { IfSome result (λ cost. cost ≤ 2 ^ 24) }
{
    if is_quiet(i, next.as_slice()) {
        return Some(0);
    }
    let link = link_between(ex, i, Some(prev), next);
    if breaks_joint_rule(&link) {
        return None;
    }
    weighs_little(sheet);
    Some(moves + joint_charges(sheet, &link))
}

/// Where two columns may follow one another, what the moves of the voices cost is told, and is no
/// more than what the two cost: a theorem, which costs nothing when it's called.
#[tactic(auto, using(crate::proofs::MoveLinks::moves_are_least))]
pub fn moves_are_least()
    ensures { (ex : AnExercise) (sheet : ASheet) (i : ℕ) (before next : List ACell) (x : ℕ)
        → pair_of ex sheet i (Some before) next ≡ Some x
        → IsSomeAnd (moves_of ex sheet i before next) (λ y. y ≤ x) }
{}

//! Rules that a column breaks, told without judging all of it.

ghost use Rattle.std.specs.Prelude.{◌≡◌, ◌<◌, ◌&&◌, ◌∷◌, ◌++◌, [], Some, true, not, nat_lt, IfSome, IsTrue, length};
ghost use Rattle.std.specs.Bool.{OnTrue};
ghost use Rattle.std.specs.List.{find, list_all};
ghost use Rattle.fux_grid.specs.Cells.{cell_in};
ghost use Rattle.fux_grid.specs.Columns.{Columns};
ghost use Rattle.fux_grid.specs.Exercises.{IsValid, columns_in};
ghost use Rattle.fux_judge.specs.Moments.{IsAfter, IsReadable, is_strict_break_then, is_strictly_broken_then};
ghost use Rattle.fux_judge.specs.Penalties.{newly_broken};
ghost use Rattle.fux_judge.specs.Rules.{all_sets, is_late, is_read};
ghost use Rattle.fux_judge.specs.States.{IsStateOf};
ghost use Rattle.fux_judge.specs.Told.{TellsLine, is_early, joint_rules, least_alone, least_by_cell, least_newly_broken, line_rules, next_rules};
ghost use Rattle.fux_judge.specs.Verdicts.{GoingOn};

use crate::kept::opens_well;
use crate::late::is_broken_late;
use crate::moment::Moment;
use crate::moves::set_of;
use crate::numbers::{all_at_once, every_late_rule};
use crate::reading::{is_strictly_broken, is_strictly_broken_now};
use crate::state::State;
use crate::verdict::moment_of;
use fux_grid::{Column, Exercise, VoiceSet, cell_of};
use melody_rules::is_smooth_in;
use rhythm_cadence::leaves_by_cell;
use rule_law::is_quiet;

/// The rules S4 to S9, which are those of melody.
const LINE_RULES: [u8; 6] = [4, 5, 6, 7, 8, 9];

/// Those from S10 to S14, which several voices break together.
const JOINT_RULES: [u8; 5] = [10, 11, 12, 13, 14];

/// S16 and S17, which voices break by moving together.
const MOVING_RULES: [u8; 2] = [16, 17];

/// Those of melody, as a list.
#[tactic(auto, unfolding(crate::specs::Rules::rule_at))]
fn told_of_lines() -> &'static [u8]
    ensures value { result.now ≡ line_rules }
    ensures numbers { IsTrue (list_all (λ rule. nat_lt rule 32 && not (is_late rule)) result.now) }
{
    &LINE_RULES
}

/// Those of several voices, as a list.
#[tactic(auto, unfolding(crate::specs::Rules::rule_at))]
fn told_jointly() -> &'static [u8]
    ensures value { result.now ≡ joint_rules }
    ensures numbers { IsTrue (list_all (λ rule. nat_lt rule 32 && not (is_late rule)) result.now) }
{
    &JOINT_RULES
}

/// Those of moves, as a list.
#[tactic(auto, unfolding(crate::specs::Rules::rule_at))]
fn told_of_moves() -> &'static [u8]
    ensures value { result.now ≡ 16 ∷ 17 ∷ [] }
    ensures numbers { IsTrue (list_all (λ rule. nat_lt rule 32 && not (is_late rule)) result.now) }
{
    &MOVING_RULES
}

/// The first of these rules that is strictly broken for a set of voices.
fn first_for(rules: &[u8], voices: VoiceSet, m: &Moment<'_>) -> Option<u8>
    requires numbers { IsTrue (list_all (λ rule. nat_lt rule 32 && not (is_late rule)) rules.now) }
    requires readable { IsReadable m.now }
    ensures { (p : Columns) → IsAfter p m.now
        → result ≡ find (λ rule. is_strict_break_then rule voices.bits p m.now) rules.now }
{
    for rule in rules {
        if is_strictly_broken(*rule, voices, m) {
            return Some(*rule);
        }
    }
    None
}

/// The least of S3 to S9 that a voice of a column that comes after a prefix breaks strictly, by its
/// cell alone. Most voices have a shape left and are smooth: they break none.
pub fn line_break(ex: &Exercise, state: &State, col: &Column, v: u8) -> Option<u8>
    requires valid { IsValid ex.now }
    requires room { state.now.newest.len < columns_in ex.now }
    requires voice { v < 4 }
    ensures { (p : Columns) → IsStateOf ex.now p state.now → result ≡ least_by_cell ex.now p v
        (cell_in col.now.items v) }
{
    let shapes = &state.past.parts.second.second.second.first;
    let cell = cell_of(col.as_slice(), v as usize);
    if leaves_by_cell(shapes, ex, state.newest.len, cell, v) {
        return Some(3);
    }
    if is_smooth_in(ex, &state.past.parts.first, col.as_slice(), v) {
        return None;
    }
    let moment = moment_of(ex, state, col);
    first_for(told_of_lines(), set_of(v), &moment)
}

/// The first of these rules that is strictly broken.
fn first_broken(rules: &[u8], m: &Moment<'_>) -> Option<u8>
    requires numbers { IsTrue (list_all (λ rule. nat_lt rule 32 && not (is_late rule)) rules.now) }
    requires readable { IsReadable m.now }
    ensures { (p : Columns) → IsAfter p m.now
        → result ≡ find (λ rule. is_strictly_broken_then all_sets rule p m.now) rules.now }
{
    for rule in rules {
        if is_strictly_broken_now(*rule, m) {
            return Some(*rule);
        }
    }
    None
}

/// Whether a rule that may be lacking is S10 or S11.
fn is_early(least: Option<u8>) -> bool
    ensures { result ≡ is_early least }
{
    match least {
        Some(rule) => rule < 12,
        None => false,
    }
}

/// The first of S10 to S14 that is strictly broken, where the least one is known that the column
/// breaks by itself: no more than S12 is asked.
fn first_with(m: &Moment<'_>, least: Option<u8>) -> Option<u8>
    requires readable { IsReadable m.now }
    requires least { least ≡ least_alone m.now.exercise.now m.now.state.now.newest.len
        m.now.column.now }
    ensures { (p : Columns) → IsAfter p m.now
        → result ≡ find (λ rule. is_strictly_broken_then all_sets rule p m.now) joint_rules }
{
    if is_early(least) {
        return least;
    }
    if opens_well(m) {
        return least;
    }
    Some(12)
}

/// The first of S10 to S14 that is strictly broken, where that one may be known.
fn first_jointly(m: &Moment<'_>, alone: Option<Option<u8>>) -> Option<u8>
    requires readable { IsReadable m.now }
    requires alone { IfSome alone (λ least. least ≡ least_alone m.now.exercise.now
        m.now.state.now.newest.len m.now.column.now) }
    ensures { (p : Columns) → IsAfter p m.now
        → result ≡ find (λ rule. is_strictly_broken_then all_sets rule p m.now) joint_rules }
{
    match alone {
        Some(least) => first_with(m, least),
        None => first_broken(told_jointly(), m),
    }
}

/// The least of S15 to S17 of which a column settles a strict break, where it settles one.
fn next_rule(ex: &Exercise, state: &State, col: &Column) -> Option<u8>
    requires valid { IsValid ex.now }
    requires room { state.now.newest.len < columns_in ex.now }
    requires full { length col.now.items ≡ ex.now.voices }
    ensures { IfSome result (λ rule. GoingOn ex.now state.now col.now.items (λ p added. Some rule
        ≡ find (newly_broken ex.now p added) next_rules)) }
{
    if breaks_late_rule(ex, state, col, 15) {
        return Some(15);
    }
    let moment = moment_of(ex, state, col);
    let rule = first_broken(told_of_moves(), &moment)?;
    Some(rule)
}

/// The least of S10 to S17 of which a column settles a strict break, where it settles one. Where
/// nothing begins in it, it isn't told.
fn joint_rule(ex: &Exercise, state: &State, col: &Column, alone: Option<Option<u8>>) -> Option<u8>
    requires valid { IsValid ex.now }
    requires room { state.now.newest.len < columns_in ex.now }
    requires full { length col.now.items ≡ ex.now.voices }
    requires alone { IfSome alone (λ least. least ≡ least_alone ex.now state.now.newest.len
        col.now.items) }
    ensures { IfSome result (λ rule. GoingOn ex.now state.now col.now.items (λ p added. Some rule
        ≡ find (newly_broken ex.now p added) (joint_rules ++ next_rules))) }
{
    if is_quiet(state.newest.len, col.as_slice()) {
        return None;
    }
    let moment = moment_of(ex, state, col);
    match first_jointly(&moment, alone) {
        Some(rule) => Some(rule),
        None => next_rule(ex, state, col),
    }
}

/// The least rule of which a column settles a strict break, where it is one of S3 to S17: most
/// columns that break a rule break one of these. None where it isn't told. The least of S3 to S9 is
/// given, and the least of S10, S11, S13 and S14 may be: then no more than S12 is asked of these.
pub fn told_rule(
    ex: &Exercise,
    state: &State,
    col: &Column,
    alone: Option<Option<u8>>,
    line: Option<u8>,
) -> Option<u8>
    requires valid { IsValid ex.now }
    requires room { state.now.newest.len < columns_in ex.now }
    requires full { length col.now.items ≡ ex.now.voices }
    requires alone { IfSome alone (λ least. least ≡ least_alone ex.now state.now.newest.len
        col.now.items) }
    requires line { TellsLine ex.now state.now col.now.items line }
    ensures { IfSome result (λ rule. GoingOn ex.now state.now col.now.items
        (λ p added. least_newly_broken ex.now p added ≡ Some rule)) }
{
    match line {
        Some(rule) => Some(rule),
        None => joint_rule(ex, state, col, alone),
    }
}

/// Whether a column settles a strict break of a late rule: the state of the longer prefix is made
/// for it.
fn breaks_late_rule(ex: &Exercise, state: &State, col: &Column, rule: u8) -> bool
    requires valid { IsValid ex.now }
    requires room { state.now.newest.len < columns_in ex.now }
    requires full { length col.now.items ≡ ex.now.voices }
    requires late { is_late rule ≡ true }
    ensures { GoingOn ex.now state.now col.now.items (λ p added. result ≡ newly_broken ex.now p
        added rule) }
{
    let mut next = *state;
    next.add(ex, col);
    is_broken_late(rule, ex, &next)
}

/// Whether a column settles a strict break of a rule, which alone is asked.
fn breaks_rule(ex: &Exercise, state: &State, col: &Column, rule: u8) -> bool
    requires valid { IsValid ex.now }
    requires room { state.now.newest.len < columns_in ex.now }
    requires full { length col.now.items ≡ ex.now.voices }
    ensures { OnTrue result (GoingOn ex.now state.now col.now.items
        (λ p added. (is_read rule && newly_broken ex.now p added rule) ≡ true)) }
{
    if every_late_rule().contains(&rule) {
        return breaks_late_rule(ex, state, col, rule);
    }
    if !all_at_once().contains(&rule) {
        return false;
    }
    let moment = moment_of(ex, state, col);
    is_strictly_broken_now(rule, &moment)
}

/// Whether a rule is the one that is told.
#[inline]
pub fn is_rule(told: Option<u8>, rule: u8) -> bool
    ensures { OnTrue result (told ≡ Some rule) }
{
    match told {
        Some(least) => least == rule,
        None => false,
    }
}

/// Whether it is the one that may be known.
fn is_least(alone: Option<Option<u8>>, rule: u8) -> bool
    ensures { OnTrue result (alone ≡ Some (Some rule)) }
{
    match alone {
        Some(least) => is_rule(least, rule),
        None => false,
    }
}

/// Whether a column is told to settle a strict break of a rule. It is told at once where that is
/// the rule given as the least that the column breaks by itself; else that rule alone is asked.
pub fn is_told_broken(
    ex: &Exercise,
    state: &State,
    col: &Column,
    rule: u8,
    alone: Option<Option<u8>>,
) -> bool
    requires valid { IsValid ex.now }
    requires room { state.now.newest.len < columns_in ex.now }
    requires full { length col.now.items ≡ ex.now.voices }
    requires alone { IfSome alone (λ least. least ≡ least_alone ex.now state.now.newest.len
        col.now.items) }
    ensures { OnTrue result (GoingOn ex.now state.now col.now.items
        (λ p added. (is_read rule && newly_broken ex.now p added rule) ≡ true)) }
{
    if is_least(alone, rule) {
        return true;
    }
    breaks_rule(ex, state, col, rule)
}

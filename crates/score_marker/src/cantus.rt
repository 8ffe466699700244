//! The marks of a cantus firmus.

ghost use Rattle.std.specs.Prelude.{◌≡◌, ◌<◌, ◌++◌, IfOk, OnOk};
ghost use Rattle.fux_grid.specs.Exercises.{IsValid, columns_in};
ghost use Rattle.score_marker.specs.Cantus as rows;
ghost use Rattle.score_marker.specs.Cantus.{AreCantusMarks, OfEachLine, cantus_marks_at, cantus_rule, cantus_rules};

use crate::mark::{Mark, mark_if};
use fux_grid::{Cell, Exercise, VoiceSet};
use fux_pitch::{Memory, Pitch};
use melody_rules::{VoiceNotes, breaks_after, moves_unmelodically, noted, silent};
use rhythm_cadence::{begins_last_bar, is_final, leaves_gamut};
use rule_law::{falls, is_step, move_from};
use std::alloc::Global;

/// The rules of a cantus firmus: S2, S4 and S6 to S9, then K1, K2 and K3.
const CANTUS_RULES: [u8; 9] = [2, 4, 6, 7, 8, 9, 31, 32, 33];

fn rules() -> &'static [u8]
    ensures { result.now ≡ cantus_rules }
{
    &CANTUS_RULES
}

/// Whether a cell isn't the mode's final.
fn is_not_final(ex: &Exercise, now: Cell) -> bool
    ensures { result ≡ rows.is_not_final ex.now now }
{
    match now.pitch() {
        Some(p) => !is_final(ex, p),
        None => true,
    }
}

/// K1: the cantus doesn't begin on the final.
fn begins_elsewhere(ex: &Exercise, i: usize, now: Cell) -> bool
    ensures { result ≡ rows.begins_elsewhere ex.now i now }
{
    i == 0 && is_not_final(ex, now)
}

/// K2: it doesn't end there.
fn ends_elsewhere(ex: &Exercise, i: usize, now: Cell) -> bool
    ensures { result ≡ rows.ends_elsewhere ex.now i now }
{
    begins_last_bar(ex, i) && is_not_final(ex, now)
}

/// K3: its last move isn't a step that falls.
fn ends_without_step(ex: &Exercise, i: usize, previous: Option<Pitch>, now: Cell) -> bool
    ensures { result ≡ rows.ends_without_step ex.now i previous now }
{
    if !begins_last_bar(ex, i) {
        return false;
    }
    match move_from(previous, now) {
        Some(last) => !(is_step(last) && falls(last)),
        None => true,
    }
}

/// Whether the cantus breaks a rule at column `i`, after these notes.
fn is_broken(rule: u8, ex: &Exercise, i: usize, notes: &VoiceNotes, now: Cell) -> bool
    requires valid { IsValid ex.now }
    requires place { i < columns_in ex.now }
    ensures { OfEachLine notes.now (λ cells. result ≡ cantus_rule rule ex.now i cells now) }
{
    match rule {
        2 => leaves_gamut(ex, i, now),
        4 => moves_unmelodically(notes.last, now),
        31 => begins_elsewhere(ex, i, now),
        32 => ends_elsewhere(ex, i, now),
        33 => ends_without_step(ex, i, notes.last, now),
        _ => breaks_after(rule, notes, now),
    }
}

/// Appends the marks of the cantus at column `i`, after these notes.
fn mark_place(
    marks: &mut Vec<Mark>,
    ex: &Exercise,
    i: usize,
    notes: &VoiceNotes,
    now: Cell,
) -> Result<(), Memory>
    requires valid { IsValid ex.now }
    requires place { i < columns_in ex.now }
    ensures { OnOk result (OfEachLine notes.now (λ cells.
        marks.new.items ≡ marks.old.items ++ cantus_marks_at ex.now i cells now)) }
{
    let cantus = VoiceSet {
        bits: 1 << ex.cantus_voice,
    };
    for rule in rules() {
        mark_if(is_broken(*rule, ex, i, notes, now), marks, i, *rule, cantus)?;
    }
    Ok(())
}

/// Every rule that the cantus breaks, read as a voice of species 1 by itself: S2, S4 and S6 to S9,
/// and K1, K2 and K3. They stand by bar and rule, all at slot 0.
pub fn cantus_marks(alloc: Global, ex: &Exercise) -> Result<Vec<Mark>, Memory>
    requires { IsValid ex.now }
    ensures { IfOk result (λ marks. AreCantusMarks ex.now marks.items) }
{
    let mut marks = Vec::new(alloc);
    let mut notes = silent();
    for (bar, pitch) in ex.cantus.as_slice().iter().enumerate() {
        let now = Cell::Start(*pitch);
        mark_place(&mut marks, ex, 8 * bar, &notes, now)?;
        notes = noted(&notes, now);
    }
    Ok(marks)
}

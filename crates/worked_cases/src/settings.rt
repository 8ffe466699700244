//! Settings that are judged column by column, and what is paid of them.
//!
//! For two, three and four voices alike, the tables have each species in each voice, and the cantus
//! firmus in each voice with the species in each of the others. Of each rule from S4 on they have,
//! for each voice or each two that it may stand for, a relaxed break with a price, and of each toll
//! a cost. Where the two voices play different parts, as in S15 and in S18 to S21, that is so for
//! either order of them. S21 can't stand for two voices above voice 0, since neither is the lowest
//! one where a bar begins with a tie.

ghost use Rattle.std.specs.Prelude.{◌≡◌};
ghost use Rattle.fux_grid.specs.Exercises.{IsValid};

use crate::agree::holds;
use crate::parts::parts;
use crate::{four_voices, tables, three_voices, two_voices};
use fux_grid::{Exercise, Score};
use fux_judge::{State, step};
use penalty_sheet::default_sheet;
use short_scores::case_of;
use std::alloc::Global;
use std::process::Abort;

/// What is paid as a score is judged column by column.
fn paid_of(ex: &Exercise, score: &Score) -> Option<u64>
    requires valid { IsValid ex.now }
    requires voices { score.now.voices ≡ ex.now.voices }
{
    let sheet = default_sheet();
    let mut state = State::start(ex);
    let mut paid = 0u64;
    for i in 0..score.len() {
        if state.newest.len >= 8 * usize::from(ex.bars) {
            return None;
        }
        let verdict = step(ex, &sheet, &state, score.column(i));
        paid = paid.saturating_add(verdict.paid);
        state = verdict.state;
    }
    Some(paid)
}

/// Whether that is paid of a setting which is wanted.
fn is_paid(alloc: Global, text: &str) -> Option<bool> {
    let (text, wanted) = parts(text)?;
    let case = case_of(alloc, text)?;
    let wanted = wanted.trim().parse::<u64>().ok()?;
    Some(paid_of(&case.exercise, &case.score)? == wanted)
}

fn judge_all(rt: &impl Abort, alloc: Global, table: &str) {
    for text in table.split("\n\n") {
        holds(rt, text, is_paid(alloc, text).unwrap_or(false));
    }
}

#[test]
fn that_is_paid_of_settings_which_is_wanted(rt: HostRuntime) {
    judge_all(&rt, rt.alloc(), tables::JUDGED);
    judge_all(&rt, rt.alloc(), two_voices::JUDGED);
    judge_all(&rt, rt.alloc(), three_voices::JUDGED);
    judge_all(&rt, rt.alloc(), four_voices::JUDGED);
}

//! What the crates of rules keep of the columns of a list.

ghost use Rattle.std.specs.Prelude.{◌≡◌, ◌<◌, ◌≤◌, ◌∷◌, ◌++◌, [], length, reverse, take};
ghost use Rattle.fux_grid.specs.declared.exercise.Exercise.{Exercise as AnExercise};
ghost use Rattle.fux_grid.specs.Columns.{Columns};
ghost use Rattle.fux_grid.specs.Exercises.{IsValid, columns_in};
ghost use Rattle.rule_law.specs.Nearby.{previous_pitches};
ghost use Rattle.fux_judge.specs.Rules as rules;
ghost use Rattle.fux_judge.specs.States.{IsPastOf};

use crate::all_rules::AllRules;
use fux_grid::{Cell, Exercise, Score, VoiceSet};
use melody_rules::latest_of_notes;
use rule_law::{Latest, RuleCrate};

/// What the crates of rules keep of the columns of a list, beside the newest ones, enough to read
/// each rule that is settled at once in the column that follows. It has a fixed size and takes no
/// memory.
#[derive(Clone, Copy, Debug, PartialEq, Eq)]
pub struct Past {
    /// The parts of the crates, in the order of `AllRules`: that of melody is `parts.first`.
    pub(crate) parts: <AllRules as RuleCrate>::Part,
}

impl Past {
    /// Of no columns.
    pub fn none() -> Past
        ensures { (ex : AnExercise) → IsPastOf ex [] result }
    {
        Past {
            parts: AllRules::start(),
        }
    }

    /// Takes in one column more, column `i`.
    #[inline]
    pub fn note(&mut self, ex: &Exercise, i: usize, column: &[Cell])
        requires valid { IsValid ex.now }
        requires place { i < columns_in ex.now }
        ensures { (p : Columns) → length p ≡ i → IsPastOf ex.now p self.old
            → IsPastOf ex.now (p ++ column.now ∷ []) self.new }
    {
        AllRules::note(&mut self.parts, ex, i, column);
    }

    /// The pitch of each voice's latest note.
    pub fn latest(&self) -> Latest
        ensures { (ex : AnExercise) (p : Columns) → IsPastOf ex p self.now → result.pitches
            ≡ previous_pitches (reverse p) }
    {
        latest_of_notes(&self.parts.first)
    }

    /// Whether a rule is broken at column `i` of a score for a set of voices, where this is kept of
    /// the columns before: no voice's notes are looked for anew.
    pub fn breaks(
        &self,
        rule: u8,
        ex: &Exercise,
        score: &Score,
        i: usize,
        latest: &Latest,
        voices: VoiceSet,
    ) -> bool
        requires valid { IsValid ex.now }
        requires voices { score.now.voices ≡ ex.now.voices }
        requires few { length score.now.columns ≤ columns_in ex.now }
        requires place { i < length score.now.columns }
        requires past { IsPastOf ex.now (take i score.now.columns) self.now }
        requires latest { latest.now.pitches ≡ previous_pitches
            (reverse (take i score.now.columns)) }
        ensures { result ≡ rules.is_broken rule ex.now voices.bits score.now.columns i }
    {
        if AllRules::is_late(rule) {
            return AllRules::broken_in(rule, ex, score, i, voices);
        }
        let behind = score.before(i);
        AllRules::breaks_at_once(
            &self.parts,
            rule,
            ex,
            voices,
            i,
            behind,
            latest,
            score.column(i).as_slice(),
        )
    }
}

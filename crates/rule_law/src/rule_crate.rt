//! Crates of rules and tolls, as they are read by number.

ghost use Rattle.std.specs.Prelude.{◌≡◌, ◌+◌, ◌-◌, ◌<◌, ◌≤◌, [], ℕ, Bool, true, false, length};
ghost use Rattle.std.specs.List.{list_all, list_any};
ghost use Rattle.fux_grid.specs.declared.exercise.Exercise.{Exercise as AnExercise};
ghost use Rattle.fux_grid.specs.Columns.{Columns};
ghost use Rattle.fux_grid.specs.Exercises.{IsValid, columns_in};
ghost use Rattle.rule_law.specs.Late.{TellsCost};
ghost use Rattle.rule_law.specs.Places.{reading_of, settled_by};
ghost use Rattle.rule_law.specs.RuleCrates.{KeptWith, SettlesNoOther, TellsAtOnce, TellsBetween, TellsBreakBy, is_of_neighbors};
ghost use Rattle.rule_law.specs.Rulebooks.{Rulebook};

use crate::latest::Latest;
use crate::newest::NewestColumns;
use crate::question::LateQuestion;
use crate::table::{Form, LatePlaces};
use fux_grid::{Cell, Exercise, Score, VoiceSet};

/// What a crate of rules and tolls has: each of those of its book by its number, read from a whole
/// score, from the newest columns where it is late, from what is kept of the columns before where
/// it is settled at once, and from two neighboring columns where these decide it.
pub trait RuleCrate {
    /// What is kept of a prefix for the crate, beside the newest columns.
    type Part;

    /// The crate's rules and tolls.
    ghost book: { Rulebook };

    /// It is kept of these columns of an exercise.
    ghost is_part: { AnExercise → Columns → Self.Part → Type 0 };

    /// What is kept of the empty prefix.
    fn start() -> Self::Part
        ensures { (ex : AnExercise) → is_part ex [] result };

    /// Takes in one column more, column `i`.
    fn note(part: &mut Self::Part, ex: &Exercise, i: usize, column: &[Cell])
        requires valid { IsValid ex.now }
        requires place { i < columns_in ex.now }
        ensures { KeptWith (is_part ex.now) i column.now part.old part.new };

    /// Whether the book has a rule of this number.
    fn has_rule(rule: u8) -> bool
        ensures { result ≡ book.has_rule rule };

    /// Whether it has a toll of this number.
    fn has_toll(toll: u8) -> bool
        ensures { result ≡ book.has_toll toll };

    /// Which sets of voices a rule speaks of.
    fn form(rule: u8) -> Form
        ensures { result ≡ (book.rule rule).form };

    /// Whether a rule is read among the newest columns, since it may be settled later than at its
    /// own.
    fn is_late(rule: u8) -> bool
        ensures { result ≡ (book.rule rule).late };

    /// The places at which column `i` may settle a break of a late rule.
    fn places_settled(rule: u8, ex: &Exercise, i: usize) -> LatePlaces
        requires valid { IsValid ex.now }
        requires place { i < columns_in ex.now }
        ensures first { (book.rule rule).late ≡ true → result.first ≡ (book.rule rule).first ex.now
            i }
        ensures count { (book.rule rule).late ≡ true → result.count ≡ (book.rule rule).count ex.now
            i }
        ensures few { result.count ≤ 24 };

    /// Those of the newest column's places at which, as what is kept and the newest columns tell,
    /// it may settle a break of a late rule.
    fn places_left(part: &Self::Part, newest: &NewestColumns, rule: u8, ex: &Exercise) -> LatePlaces
        requires valid { IsValid ex.now }
        requires begun { 0 < newest.now.len }
        requires room { newest.now.len ≤ columns_in ex.now }
        ensures from { (book.rule rule).late ≡ true → (book.rule rule).first ex.now
            (newest.now.len - 1) ≤ result.first }
        ensures to { (book.rule rule).late ≡ true → result.first + result.count
            ≤ (book.rule rule).first ex.now (newest.now.len - 1) + (book.rule rule).count ex.now
            (newest.now.len - 1) }
        ensures left { (book.rule rule).late ≡ true → SettlesNoOther (is_part ex.now)
            (book.rule rule) ex.now part.now newest.now result.first result.count }
    {
        Self::places_settled(rule, ex, newest.len - 1)
    }

    /// Whether the newest column settles a break of a late rule at one of its places.
    fn breaks_late(
        part: &Self::Part,
        newest: &NewestColumns,
        rule: u8,
        ex: &Exercise,
        voices: VoiceSet,
        place: usize,
    ) -> bool
        requires valid { IsValid ex.now }
        requires begun { 0 < newest.now.len }
        requires room { newest.now.len ≤ columns_in ex.now }
        ensures { (book.rule rule).late ≡ true → TellsBreakBy (is_part ex.now) (book.rule rule)
            ex.now voices.bits part.now newest.now place result };

    /// Whether a question is answered by yes for some late rule. Each is asked by its own number,
    /// so that what depends on the number alone is settled before the program runs.
    fn asks_some<Q: LateQuestion>(question: &Q) -> bool
        requires ready { Q.is_ready question.now }
        requires rules { list_all (Q.may_ask question.now) book.late_rules ≡ true }
        ensures { (test : ℕ → Bool) → Q.is_answered_by question.now test →
            result ≡ list_any test book.late_rules };

    /// The places at which column `i` may settle what a late toll costs.
    fn toll_places(toll: u8, ex: &Exercise, i: usize) -> LatePlaces
        requires valid { IsValid ex.now }
        requires place { i < columns_in ex.now }
        ensures first { (book.toll toll).late ≡ true → result.first ≡ (book.toll toll).first ex.now
            i }
        ensures count { (book.toll toll).late ≡ true → result.count ≡ (book.toll toll).count ex.now
            i }
        ensures few { result.count ≤ 24 };

    /// What the newest column settles of a late toll at one of its places, without the weight.
    fn cost_late(newest: &NewestColumns, toll: u8, ex: &Exercise, place: usize) -> u32
        requires valid { IsValid ex.now }
        requires begun { 0 < newest.now.len }
        requires room { newest.now.len ≤ columns_in ex.now }
        ensures value { (book.toll toll).late ≡ true → TellsCost (book.toll toll) ex.now newest.now
            place result }
        ensures bound { result ≤ 6 };

    /// Whether a rule that is settled at once is broken in column `i`: `before` is the column
    /// before it, and `latest` has the pitch of each voice's latest note there.
    fn breaks_at_once(
        part: &Self::Part,
        rule: u8,
        ex: &Exercise,
        voices: VoiceSet,
        i: usize,
        before: &[Cell],
        latest: &Latest,
        now: &[Cell],
    ) -> bool
        requires valid { IsValid ex.now }
        requires place { i < columns_in ex.now }
        ensures { (book.rule rule).late ≡ false → TellsAtOnce (is_part ex.now)
            ((book.rule rule).broken ex.now voices.bits) part.now i before.now latest.now.pitches
            now.now result };

    /// What a toll that is settled at once costs there, without its weight.
    fn cost_at_once(
        part: &Self::Part,
        toll: u8,
        ex: &Exercise,
        i: usize,
        before: &[Cell],
        latest: &Latest,
        now: &[Cell],
    ) -> u32
        requires valid { IsValid ex.now }
        requires place { i < columns_in ex.now }
        ensures value { (book.toll toll).late ≡ false → TellsAtOnce (is_part ex.now)
            ((book.toll toll).cost ex.now) part.now i before.now latest.now.pitches now.now result }
        ensures bound { result ≤ 6 };

    /// Whether a rule that two neighboring columns decide is broken in column `i`.
    fn breaks_between(
        rule: u8,
        ex: &Exercise,
        voices: VoiceSet,
        i: usize,
        before: &[Cell],
        latest: &Latest,
        now: &[Cell],
    ) -> bool
        requires valid { IsValid ex.now }
        requires place { i < columns_in ex.now }
        ensures { is_of_neighbors (book.rule rule).kind ≡ true
            → TellsBetween ((book.rule rule).broken ex.now voices.bits) i before.now
            latest.now.pitches now.now result };

    /// What a toll that two neighboring columns decide costs there, without its weight.
    fn cost_between(
        toll: u8,
        ex: &Exercise,
        i: usize,
        before: &[Cell],
        latest: &Latest,
        now: &[Cell],
    ) -> u32
        requires valid { IsValid ex.now }
        requires place { i < columns_in ex.now }
        ensures value { is_of_neighbors (book.toll toll).kind ≡ true → TellsBetween
            ((book.toll toll).cost ex.now) i before.now latest.now.pitches now.now result }
        ensures bound { result ≤ 6 };

    /// Whether a rule is broken at a place of a whole score.
    fn broken_in(rule: u8, ex: &Exercise, score: &Score, i: usize, voices: VoiceSet) -> bool
        requires valid { IsValid ex.now }
        requires voices { score.now.voices ≡ ex.now.voices }
        requires few { length score.now.columns ≤ columns_in ex.now }
        requires place { i < length score.now.columns }
        ensures { result ≡ reading_of ((book.rule rule).broken ex.now voices.bits) score.now.columns
            i };

    /// Whether that is settled.
    fn settled_in(rule: u8, ex: &Exercise, prefix: &Score, i: usize, voices: VoiceSet) -> bool
        requires valid { IsValid ex.now }
        requires voices { prefix.now.voices ≡ ex.now.voices }
        requires few { length prefix.now.columns ≤ columns_in ex.now }
        requires place { i < length prefix.now.columns }
        ensures { result ≡ settled_by ((book.rule rule).enough ex.now voices.bits)
            prefix.now.columns i };

    /// What a toll costs at a place of a whole score, without its weight.
    fn cost_in(toll: u8, ex: &Exercise, score: &Score, i: usize) -> u32
        requires valid { IsValid ex.now }
        requires voices { score.now.voices ≡ ex.now.voices }
        requires few { length score.now.columns ≤ columns_in ex.now }
        requires place { i < length score.now.columns }
        ensures { result ≡ reading_of ((book.toll toll).cost ex.now) score.now.columns i };

    /// Whether that is settled.
    fn cost_settled_in(toll: u8, ex: &Exercise, prefix: &Score, i: usize) -> bool
        requires valid { IsValid ex.now }
        requires voices { prefix.now.voices ≡ ex.now.voices }
        requires few { length prefix.now.columns ≤ columns_in ex.now }
        requires place { i < length prefix.now.columns }
        ensures { result ≡ settled_by ((book.toll toll).enough ex.now) prefix.now.columns i };
}

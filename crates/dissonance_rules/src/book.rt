//! The crate's rules and tolls by their numbers.

ghost use Rattle.rule_law.specs.Rulebooks.{KeepsLaws};
ghost use Rattle.dissonance_rules.specs.Book as books;
ghost use Rattle.dissonance_rules.specs.Starts.{AreStartsOf};

use crate::clashes::{breaks_clash, is_clash_settled};
use crate::closing::breaks_told;
use crate::dissonance::Dissonance;
use crate::held::{held_left, suspension_places};
use crate::late::{is_late, is_told_later, passing_places, settles_passing};
use crate::passing::reaches_last_bar;
use crate::rows::{breaks, cost};
use crate::starts::{LatestStarts, no_starts, note_starts};
use crate::told::passing_left;
use fux_grid::{Cell, Exercise, Score, VoiceSet};
use rule_law::{Form, LatePlaces, LateQuestion, Latest, NewestColumns, RuleCrate};

/// The crate's rules and tolls keep the laws of a book: a theorem, which costs nothing when it's
/// called.
#[tactic(auto, using(crate::proofs::BookLaws::keeps_laws))]
pub fn book_is_lawful()
    ensures { KeepsLaws books.book }
{}

/// S15, S19, S20, S21, S27 and S28 are late, and no toll is.
impl RuleCrate for Dissonance {
    type Part = [LatestStarts; 4];

    ghost book = { books.book };

    ghost is_part = { AreStartsOf };

    fn start() -> [LatestStarts; 4] {
        [no_starts(), no_starts(), no_starts(), no_starts()]
    }

    #[inline]
    fn note(part: &mut [LatestStarts; 4], ex: &Exercise, i: usize, column: &[Cell]) {
        note_starts(part, ex, i, column);
    }

    #[inline(always)]
    fn has_rule(rule: u8) -> bool {
        rule == 11 || rule == 14 || is_late(rule)
    }

    #[inline(always)]
    fn has_toll(toll: u8) -> bool {
        toll == 1 || toll == 2
    }

    #[inline(always)]
    fn form(_rule: u8) -> Form {
        Form::TwoVoices
    }

    #[inline(always)]
    fn is_late(rule: u8) -> bool {
        is_late(rule)
    }

    fn places_settled(rule: u8, ex: &Exercise, i: usize) -> LatePlaces {
        if is_told_later(rule) {
            return passing_places(rule, ex, i);
        }
        suspension_places(rule, ex, i)
    }

    /// Of those of S15 and S27 the places of the notes that the newest column tells of; of the
    /// other rules' those at which a free voice holds a note.
    #[inline(always)]
    fn places_left(
        part: &[LatestStarts; 4],
        newest: &NewestColumns,
        rule: u8,
        ex: &Exercise,
    ) -> LatePlaces {
        if !is_told_later(rule) {
            return held_left(newest, rule, ex);
        }
        passing_left(part, newest, rule, ex)
    }

    fn breaks_late(
        part: &[LatestStarts; 4],
        newest: &NewestColumns,
        rule: u8,
        ex: &Exercise,
        voices: VoiceSet,
        place: usize,
    ) -> bool {
        if place >= newest.len {
            return false;
        }
        if !is_told_later(rule) {
            return breaks_clash(newest, rule, ex, place, voices);
        }
        if !reaches_last_bar(ex, newest.len) {
            return breaks_told(part, newest, rule, ex, place, voices);
        }
        if !settles_passing(newest, ex, voices, place) {
            return false;
        }
        breaks_clash(newest, rule, ex, place, voices)
    }

    #[inline(always)]
    fn toll_places(_toll: u8, _ex: &Exercise, i: usize) -> LatePlaces {
        LatePlaces { first: i, count: 1 }
    }

    fn cost_late(_newest: &NewestColumns, _toll: u8, _ex: &Exercise, _place: usize) -> u32 {
        0
    }

    #[inline(always)]
    fn asks_some<Q: LateQuestion>(question: &Q) -> bool {
        question.ask(15)
            || question.ask(19)
            || question.ask(20)
            || question.ask(21)
            || question.ask(27)
            || question.ask(28)
    }

    #[inline(always)]
    fn breaks_at_once(
        _part: &[LatestStarts; 4],
        rule: u8,
        ex: &Exercise,
        voices: VoiceSet,
        i: usize,
        before: &[Cell],
        latest: &Latest,
        now: &[Cell],
    ) -> bool {
        breaks(rule, ex, voices, i, before, latest, now)
    }

    #[inline(always)]
    fn cost_at_once(
        _part: &[LatestStarts; 4],
        toll: u8,
        ex: &Exercise,
        i: usize,
        before: &[Cell],
        latest: &Latest,
        now: &[Cell],
    ) -> u32 {
        cost(toll, ex, i, before, latest, now)
    }

    #[inline(always)]
    fn breaks_between(
        rule: u8,
        ex: &Exercise,
        voices: VoiceSet,
        i: usize,
        before: &[Cell],
        latest: &Latest,
        now: &[Cell],
    ) -> bool {
        breaks(rule, ex, voices, i, before, latest, now)
    }

    #[inline(always)]
    fn cost_between(
        toll: u8,
        ex: &Exercise,
        i: usize,
        before: &[Cell],
        latest: &Latest,
        now: &[Cell],
    ) -> u32 {
        cost(toll, ex, i, before, latest, now)
    }

    fn broken_in(rule: u8, ex: &Exercise, score: &Score, i: usize, voices: VoiceSet) -> bool {
        if is_late(rule) {
            score.kept();
            return breaks_clash(score, rule, ex, i, voices);
        }
        breaks(
            rule,
            ex,
            voices,
            i,
            score.before(i),
            &Latest::NONE,
            score.column(i).as_slice(),
        )
    }

    fn settled_in(rule: u8, ex: &Exercise, prefix: &Score, i: usize, voices: VoiceSet) -> bool {
        !is_late(rule) || is_clash_settled(rule, ex, prefix, i, voices)
    }

    fn cost_in(toll: u8, ex: &Exercise, score: &Score, i: usize) -> u32 {
        cost(
            toll,
            ex,
            i,
            score.before(i),
            &Latest::NONE,
            score.column(i).as_slice(),
        )
    }

    fn cost_settled_in(_toll: u8, _ex: &Exercise, _prefix: &Score, _i: usize) -> bool {
        true
    }
}

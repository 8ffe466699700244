//! The crate's rules and tolls by their numbers.

ghost use Rattle.rule_law.specs.Rulebooks.{KeepsLaws};
ghost use Rattle.rhythm_cadence.specs.Book as books;
ghost use Rattle.rhythm_cadence.specs.Parts.{IsShapesOf};

use crate::cadence::breaks_cadence;
use crate::inflections::inflection_cost;
use crate::late::quaver_places;
use crate::part::{BarShapes, breaks_shapes, note, unbegun};
use crate::patterns::{is_pattern_settled, missing_ligatures, pattern_cost, settles_pattern};
use crate::quavers::{breaks_quaver, is_quaver_settled};
use crate::rhythm::{Rhythm, breaks, is_open, leaves_shapes};
use crate::rows::begins_last_bar;
use fux_grid::{Cell, Exercise, Score, VoiceSet};
use rule_law::{
    ColumnsAround, Form, LatePlaces, LateQuestion, Latest, NewestColumns, RuleCrate,
    begins_inner_bar, latest_before,
};

/// The crate's rules and tolls keep the laws of a book: a theorem, which costs nothing when it's
/// called.
#[tactic(auto, using(crate::proofs::BookLaws::keeps_laws))]
pub fn book_is_lawful()
    ensures { KeepsLaws books.book }
{}

/// S3, S22, S25 and the tolls are late.
impl RuleCrate for Rhythm {
    type Part = BarShapes;

    ghost book = { books.book };

    ghost is_part = { IsShapesOf };

    fn start() -> BarShapes {
        unbegun()
    }

    #[inline]
    fn note(part: &mut BarShapes, ex: &Exercise, i: usize, column: &[Cell]) {
        note(part, ex, i, column);
    }

    #[inline(always)]
    fn has_rule(rule: u8) -> bool {
        matches!(rule, 1 | 2 | 3 | 12 | 13 | 22 | 24 | 25)
    }

    #[inline(always)]
    fn has_toll(toll: u8) -> bool {
        toll == 15 || toll == 16 || toll == 21
    }

    #[inline(always)]
    fn form(rule: u8) -> Form {
        match rule {
            13 => Form::TwoVoices,
            22 => Form::AllVoices,
            _ => Form::OneVoice,
        }
    }

    #[inline(always)]
    fn is_late(rule: u8) -> bool {
        rule == 3 || rule == 22 || rule == 25
    }

    fn places_settled(rule: u8, ex: &Exercise, i: usize) -> LatePlaces {
        match rule {
            3 => LatePlaces {
                first: 8 * (i / 8),
                count: 1,
            },
            22 => LatePlaces::own(begins_last_bar(ex, i), i),
            _ => quaver_places(ex, i),
        }
    }

    /// S3 at the beginning of the column's bar, S22 at the column itself, S25 at the column before
    /// it or itself.
    #[inline(always)]
    fn breaks_late(
        part: &BarShapes,
        newest: &NewestColumns,
        rule: u8,
        ex: &Exercise,
        voices: VoiceSet,
        place: usize,
    ) -> bool {
        if rule == 3 {
            return breaks_shapes(part, ex, voices);
        }
        if rule == 22 {
            return breaks_cadence(newest, ex, voices, place);
        }
        place < newest.len && breaks_quaver(newest, ex, voices, place)
    }

    fn toll_places(toll: u8, ex: &Exercise, i: usize) -> LatePlaces {
        if toll == 15 {
            return LatePlaces::own(begins_inner_bar(ex, i), i);
        }
        if toll == 21 {
            return LatePlaces::own(true, i);
        }
        LatePlaces::own(settles_pattern(i), i.saturating_sub(7))
    }

    /// Q15 and Q21 at the column itself, Q16 at the beginning of the bar that it ends.
    fn cost_late(newest: &NewestColumns, toll: u8, ex: &Exercise, place: usize) -> u32 {
        if toll == 15 {
            return missing_ligatures(ex, place, newest.cells(ex, place));
        }
        if place >= newest.len {
            return 0;
        }
        if toll == 21 {
            return inflection_cost(newest, ex, place);
        }
        pattern_cost(newest, ex, place)
    }

    #[inline(always)]
    fn asks_some<Q: LateQuestion>(question: &Q) -> bool {
        question.ask(3) || question.ask(25) || question.ask(22)
    }

    #[inline(always)]
    fn breaks_at_once(
        _part: &BarShapes,
        rule: u8,
        ex: &Exercise,
        voices: VoiceSet,
        i: usize,
        before: &[Cell],
        latest: &Latest,
        now: &[Cell],
    ) -> bool {
        breaks(rule, ex, voices, i, before, latest, now)
    }

    #[inline(always)]
    fn cost_at_once(
        _part: &BarShapes,
        _toll: u8,
        _ex: &Exercise,
        _i: usize,
        _before: &[Cell],
        _latest: &Latest,
        _now: &[Cell],
    ) -> u32 {
        0
    }

    #[inline(always)]
    fn breaks_between(
        rule: u8,
        ex: &Exercise,
        voices: VoiceSet,
        i: usize,
        before: &[Cell],
        latest: &Latest,
        now: &[Cell],
    ) -> bool {
        breaks(rule, ex, voices, i, before, latest, now)
    }

    #[inline(always)]
    fn cost_between(
        toll: u8,
        ex: &Exercise,
        i: usize,
        _before: &[Cell],
        _latest: &Latest,
        now: &[Cell],
    ) -> u32 {
        if toll == 15 {
            return missing_ligatures(ex, i, now);
        }
        0
    }

    fn broken_in(rule: u8, ex: &Exercise, score: &Score, i: usize, voices: VoiceSet) -> bool {
        score.kept();
        match rule {
            3 => leaves_shapes(ex, score, i, voices),
            22 => breaks_cadence(score, ex, voices, i),
            25 => breaks_quaver(score, ex, voices, i),
            _ => breaks(
                rule,
                ex,
                voices,
                i,
                score.before(i),
                &latest_before(score, i),
                score.column(i).as_slice(),
            ),
        }
    }

    fn settled_in(rule: u8, ex: &Exercise, prefix: &Score, i: usize, voices: VoiceSet) -> bool {
        match rule {
            3 => !is_open(ex, prefix, i, voices),
            25 => is_quaver_settled(ex, prefix, i, voices),
            _ => true,
        }
    }

    fn cost_in(toll: u8, ex: &Exercise, score: &Score, i: usize) -> u32 {
        score.kept();
        match toll {
            15 => missing_ligatures(ex, i, score.column(i).as_slice()),
            16 => pattern_cost(score, ex, i),
            21 => inflection_cost(score, ex, i),
            _ => 0,
        }
    }

    fn cost_settled_in(toll: u8, ex: &Exercise, prefix: &Score, i: usize) -> bool {
        toll != 16 || is_pattern_settled(ex, prefix, i)
    }
}

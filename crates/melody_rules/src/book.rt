//! The crate's rules and tolls by their numbers.

ghost use Rattle.std.specs.Prelude.{reverse};
ghost use Rattle.melody_rules.specs.Book as books;
ghost use Rattle.melody_rules.specs.Notes.{AreNotesOf};

use crate::melody::{Melody, breaks, breaks_in_score, looks_back};
use crate::notes::VoiceNotes;
use crate::tolls::{cost, cost_in_score, open_leaps_in_score};
use crate::voices::{all_silent, breaks_looking_back, note_all, open_leaps};
use fux_grid::{Cell, Exercise, Score, VoiceSet};
use rule_law::{Form, LatePlaces, LateQuestion, Latest, NewestColumns, RuleCrate, latest_before};

/// No rule and no toll of melody is late.
impl RuleCrate for Melody {
    type Part = [VoiceNotes; 4];

    ghost book = { books.book };

    ghost is_part = { λ ex p notes. AreNotesOf (reverse p) notes };

    fn start() -> [VoiceNotes; 4] {
        all_silent()
    }

    #[inline]
    fn note(part: &mut [VoiceNotes; 4], _ex: &Exercise, _i: usize, column: &[Cell]) {
        note_all(part, column);
    }

    #[inline(always)]
    fn has_rule(rule: u8) -> bool {
        rule == 4 || rule == 5 || rule == 6 || rule == 7 || rule == 8 || rule == 9 || rule == 26
    }

    #[inline(always)]
    fn has_toll(toll: u8) -> bool {
        toll == 7 || toll == 8 || toll == 9 || toll == 10 || toll == 13
    }

    #[inline(always)]
    fn form(_rule: u8) -> Form {
        Form::OneVoice
    }

    #[inline(always)]
    fn is_late(_rule: u8) -> bool {
        false
    }

    #[inline(always)]
    fn places_settled(_rule: u8, _ex: &Exercise, i: usize) -> LatePlaces {
        LatePlaces { first: i, count: 1 }
    }

    fn breaks_late(
        _part: &[VoiceNotes; 4],
        _newest: &NewestColumns,
        _rule: u8,
        _ex: &Exercise,
        _voices: VoiceSet,
        _place: usize,
    ) -> bool {
        false
    }

    #[inline(always)]
    fn toll_places(_toll: u8, _ex: &Exercise, i: usize) -> LatePlaces {
        LatePlaces { first: i, count: 1 }
    }

    fn cost_late(_newest: &NewestColumns, _toll: u8, _ex: &Exercise, _place: usize) -> u32 {
        0
    }

    #[inline(always)]
    fn asks_some<Q: LateQuestion>(_question: &Q) -> bool {
        false
    }

    fn breaks_at_once(
        part: &[VoiceNotes; 4],
        rule: u8,
        ex: &Exercise,
        voices: VoiceSet,
        i: usize,
        before: &[Cell],
        latest: &Latest,
        now: &[Cell],
    ) -> bool {
        if looks_back(rule) {
            return breaks_looking_back(rule, ex, voices, part, now);
        }
        breaks(rule, ex, voices, i, before, latest, now)
    }

    fn cost_at_once(
        part: &[VoiceNotes; 4],
        toll: u8,
        ex: &Exercise,
        i: usize,
        before: &[Cell],
        latest: &Latest,
        now: &[Cell],
    ) -> u32 {
        if toll == 13 {
            return open_leaps(ex, part, now);
        }
        cost(toll, ex, i, before, latest, now)
    }

    #[inline(always)]
    fn breaks_between(
        rule: u8,
        ex: &Exercise,
        voices: VoiceSet,
        i: usize,
        before: &[Cell],
        latest: &Latest,
        now: &[Cell],
    ) -> bool {
        breaks(rule, ex, voices, i, before, latest, now)
    }

    #[inline(always)]
    fn cost_between(
        toll: u8,
        ex: &Exercise,
        i: usize,
        before: &[Cell],
        latest: &Latest,
        now: &[Cell],
    ) -> u32 {
        cost(toll, ex, i, before, latest, now)
    }

    fn broken_in(rule: u8, ex: &Exercise, score: &Score, i: usize, voices: VoiceSet) -> bool {
        if looks_back(rule) {
            return breaks_in_score(rule, ex, score, i, voices);
        }
        breaks(
            rule,
            ex,
            voices,
            i,
            score.before(i),
            &latest_before(score, i),
            score.column(i).as_slice(),
        )
    }

    fn settled_in(
        _rule: u8,
        _ex: &Exercise,
        _prefix: &Score,
        _i: usize,
        _voices: VoiceSet,
    ) -> bool {
        true
    }

    fn cost_in(toll: u8, ex: &Exercise, score: &Score, i: usize) -> u32 {
        if toll == 13 {
            return open_leaps_in_score(ex, score, i);
        }
        cost_in_score(toll, ex, score, i)
    }

    fn cost_settled_in(_toll: u8, _ex: &Exercise, _prefix: &Score, _i: usize) -> bool {
        true
    }
}

//! A crate of rules as the last one.

ghost use Rattle.rule_law.specs.Rulebooks.{joined, nothing};

use crate::latest::Latest;
use crate::newest::NewestColumns;
use crate::question::LateQuestion;
use crate::rule_crate::RuleCrate;
use crate::table::{Form, LatePlaces};
use fux_grid::{Cell, Exercise, Score, VoiceSet};
use std::marker::PhantomData;

/// The rules and tolls of one crate: any other number is of a rule that is never broken, and of a
/// toll that costs nothing.
pub struct Alone<A> {
    rules: PhantomData<A>,
}

impl<A: RuleCrate> RuleCrate for Alone<A> {
    type Part = A::Part;

    ghost book = { joined A.book nothing };

    ghost is_part = { λ ex p part. A.is_part ex p part };

    fn start() -> A::Part {
        A::start()
    }

    #[inline(always)]
    fn note(part: &mut A::Part, ex: &Exercise, i: usize, column: &[Cell]) {
        A::note(part, ex, i, column);
    }

    #[inline(always)]
    fn has_rule(rule: u8) -> bool {
        A::has_rule(rule)
    }

    #[inline(always)]
    fn has_toll(toll: u8) -> bool {
        A::has_toll(toll)
    }

    #[inline(always)]
    fn form(rule: u8) -> Form {
        if A::has_rule(rule) {
            A::form(rule)
        } else {
            Form::OneVoice
        }
    }

    #[inline(always)]
    fn is_late(rule: u8) -> bool {
        A::has_rule(rule) && A::is_late(rule)
    }

    #[inline(always)]
    fn places_settled(rule: u8, ex: &Exercise, i: usize) -> LatePlaces {
        if A::has_rule(rule) {
            A::places_settled(rule, ex, i)
        } else {
            LatePlaces { first: i, count: 1 }
        }
    }

    #[inline(always)]
    fn places_left(part: &A::Part, newest: &NewestColumns, rule: u8, ex: &Exercise) -> LatePlaces {
        if A::has_rule(rule) {
            A::places_left(part, newest, rule, ex)
        } else {
            LatePlaces { first: 0, count: 0 }
        }
    }

    #[inline(always)]
    fn breaks_late(
        part: &A::Part,
        newest: &NewestColumns,
        rule: u8,
        ex: &Exercise,
        voices: VoiceSet,
        place: usize,
    ) -> bool {
        if A::has_rule(rule) {
            A::breaks_late(part, newest, rule, ex, voices, place)
        } else {
            false
        }
    }

    #[inline(always)]
    fn asks_some<Q: LateQuestion>(question: &Q) -> bool {
        A::asks_some(question)
    }

    #[inline(always)]
    fn toll_places(toll: u8, ex: &Exercise, i: usize) -> LatePlaces {
        if A::has_toll(toll) {
            A::toll_places(toll, ex, i)
        } else {
            LatePlaces { first: i, count: 1 }
        }
    }

    #[inline(always)]
    fn cost_late(newest: &NewestColumns, toll: u8, ex: &Exercise, place: usize) -> u32 {
        if A::has_toll(toll) {
            A::cost_late(newest, toll, ex, place)
        } else {
            0
        }
    }

    #[inline(always)]
    fn breaks_at_once(
        part: &A::Part,
        rule: u8,
        ex: &Exercise,
        voices: VoiceSet,
        i: usize,
        before: &[Cell],
        latest: &Latest,
        now: &[Cell],
    ) -> bool {
        if A::has_rule(rule) {
            A::breaks_at_once(part, rule, ex, voices, i, before, latest, now)
        } else {
            false
        }
    }

    #[inline(always)]
    fn cost_at_once(
        part: &A::Part,
        toll: u8,
        ex: &Exercise,
        i: usize,
        before: &[Cell],
        latest: &Latest,
        now: &[Cell],
    ) -> u32 {
        if A::has_toll(toll) {
            A::cost_at_once(part, toll, ex, i, before, latest, now)
        } else {
            0
        }
    }

    #[inline(always)]
    fn breaks_between(
        rule: u8,
        ex: &Exercise,
        voices: VoiceSet,
        i: usize,
        before: &[Cell],
        latest: &Latest,
        now: &[Cell],
    ) -> bool {
        if A::has_rule(rule) {
            A::breaks_between(rule, ex, voices, i, before, latest, now)
        } else {
            false
        }
    }

    #[inline(always)]
    fn cost_between(
        toll: u8,
        ex: &Exercise,
        i: usize,
        before: &[Cell],
        latest: &Latest,
        now: &[Cell],
    ) -> u32 {
        if A::has_toll(toll) {
            A::cost_between(toll, ex, i, before, latest, now)
        } else {
            0
        }
    }

    #[inline(always)]
    fn broken_in(rule: u8, ex: &Exercise, score: &Score, i: usize, voices: VoiceSet) -> bool {
        if A::has_rule(rule) {
            A::broken_in(rule, ex, score, i, voices)
        } else {
            false
        }
    }

    #[inline(always)]
    fn settled_in(rule: u8, ex: &Exercise, prefix: &Score, i: usize, voices: VoiceSet) -> bool {
        if A::has_rule(rule) {
            A::settled_in(rule, ex, prefix, i, voices)
        } else {
            true
        }
    }

    #[inline(always)]
    fn cost_in(toll: u8, ex: &Exercise, score: &Score, i: usize) -> u32 {
        if A::has_toll(toll) {
            A::cost_in(toll, ex, score, i)
        } else {
            0
        }
    }

    #[inline(always)]
    fn cost_settled_in(toll: u8, ex: &Exercise, prefix: &Score, i: usize) -> bool {
        if A::has_toll(toll) {
            A::cost_settled_in(toll, ex, prefix, i)
        } else {
            true
        }
    }
}

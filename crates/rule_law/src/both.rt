//! Two crates of rules as one.

ghost use Rattle.rule_law.specs.Rulebooks.{joined};

use crate::latest::Latest;
use crate::newest::NewestColumns;
use crate::question::LateQuestion;
use crate::rule_crate::RuleCrate;
use crate::table::{Form, LatePlaces};
use fux_grid::{Cell, Exercise, Score, VoiceSet};
use std::marker::PhantomData;

/// The rules and tolls of both crates: those that the first has are read as it reads them, and all
/// others as the second does.
pub struct Both<A, B> {
    rules: PhantomData<(A, B)>,
}

/// What is kept for two crates of rules.
#[derive(Clone, Copy, Debug, PartialEq, Eq)]
pub struct Parts<P, Q> {
    pub first: P,
    pub second: Q,
}

impl<A: RuleCrate, B: RuleCrate> RuleCrate for Both<A, B> {
    type Part = Parts<A::Part, B::Part>;

    ghost book = { joined A.book B.book };

    ghost is_part = { λ ex p part. A.is_part ex p part.first × B.is_part ex p part.second };

    fn start() -> Parts<A::Part, B::Part> {
        Parts {
            first: A::start(),
            second: B::start(),
        }
    }

    #[inline(always)]
    fn note(part: &mut Parts<A::Part, B::Part>, ex: &Exercise, i: usize, column: &[Cell]) {
        A::note(&mut part.first, ex, i, column);
        B::note(&mut part.second, ex, i, column);
    }

    #[inline(always)]
    fn has_rule(rule: u8) -> bool {
        A::has_rule(rule) || B::has_rule(rule)
    }

    #[inline(always)]
    fn has_toll(toll: u8) -> bool {
        A::has_toll(toll) || B::has_toll(toll)
    }

    #[inline(always)]
    fn form(rule: u8) -> Form {
        if A::has_rule(rule) {
            A::form(rule)
        } else {
            B::form(rule)
        }
    }

    #[inline(always)]
    fn is_late(rule: u8) -> bool {
        if A::has_rule(rule) {
            A::is_late(rule)
        } else {
            B::is_late(rule)
        }
    }

    #[inline(always)]
    fn places_settled(rule: u8, ex: &Exercise, i: usize) -> LatePlaces {
        if A::has_rule(rule) {
            A::places_settled(rule, ex, i)
        } else {
            B::places_settled(rule, ex, i)
        }
    }

    #[inline(always)]
    fn places_left(
        part: &Parts<A::Part, B::Part>,
        newest: &NewestColumns,
        rule: u8,
        ex: &Exercise,
    ) -> LatePlaces {
        if A::has_rule(rule) {
            A::places_left(&part.first, newest, rule, ex)
        } else {
            B::places_left(&part.second, newest, rule, ex)
        }
    }

    #[inline(always)]
    fn breaks_late(
        part: &Parts<A::Part, B::Part>,
        newest: &NewestColumns,
        rule: u8,
        ex: &Exercise,
        voices: VoiceSet,
        place: usize,
    ) -> bool {
        if A::has_rule(rule) {
            A::breaks_late(&part.first, newest, rule, ex, voices, place)
        } else {
            B::breaks_late(&part.second, newest, rule, ex, voices, place)
        }
    }

    #[inline(always)]
    fn asks_some<Q: LateQuestion>(question: &Q) -> bool {
        B::asks_some(question) || A::asks_some(question)
    }

    #[inline(always)]
    fn toll_places(toll: u8, ex: &Exercise, i: usize) -> LatePlaces {
        if A::has_toll(toll) {
            A::toll_places(toll, ex, i)
        } else {
            B::toll_places(toll, ex, i)
        }
    }

    #[inline(always)]
    fn cost_late(newest: &NewestColumns, toll: u8, ex: &Exercise, place: usize) -> u32 {
        if A::has_toll(toll) {
            A::cost_late(newest, toll, ex, place)
        } else {
            B::cost_late(newest, toll, ex, place)
        }
    }

    #[inline(always)]
    fn breaks_at_once(
        part: &Parts<A::Part, B::Part>,
        rule: u8,
        ex: &Exercise,
        voices: VoiceSet,
        i: usize,
        before: &[Cell],
        latest: &Latest,
        now: &[Cell],
    ) -> bool {
        if A::has_rule(rule) {
            A::breaks_at_once(&part.first, rule, ex, voices, i, before, latest, now)
        } else {
            B::breaks_at_once(&part.second, rule, ex, voices, i, before, latest, now)
        }
    }

    #[inline(always)]
    fn cost_at_once(
        part: &Parts<A::Part, B::Part>,
        toll: u8,
        ex: &Exercise,
        i: usize,
        before: &[Cell],
        latest: &Latest,
        now: &[Cell],
    ) -> u32 {
        if A::has_toll(toll) {
            A::cost_at_once(&part.first, toll, ex, i, before, latest, now)
        } else {
            B::cost_at_once(&part.second, toll, ex, i, before, latest, now)
        }
    }

    #[inline(always)]
    fn breaks_between(
        rule: u8,
        ex: &Exercise,
        voices: VoiceSet,
        i: usize,
        before: &[Cell],
        latest: &Latest,
        now: &[Cell],
    ) -> bool {
        if A::has_rule(rule) {
            A::breaks_between(rule, ex, voices, i, before, latest, now)
        } else {
            B::breaks_between(rule, ex, voices, i, before, latest, now)
        }
    }

    #[inline(always)]
    fn cost_between(
        toll: u8,
        ex: &Exercise,
        i: usize,
        before: &[Cell],
        latest: &Latest,
        now: &[Cell],
    ) -> u32 {
        if A::has_toll(toll) {
            A::cost_between(toll, ex, i, before, latest, now)
        } else {
            B::cost_between(toll, ex, i, before, latest, now)
        }
    }

    #[inline(always)]
    fn broken_in(rule: u8, ex: &Exercise, score: &Score, i: usize, voices: VoiceSet) -> bool {
        if A::has_rule(rule) {
            A::broken_in(rule, ex, score, i, voices)
        } else {
            B::broken_in(rule, ex, score, i, voices)
        }
    }

    #[inline(always)]
    fn settled_in(rule: u8, ex: &Exercise, prefix: &Score, i: usize, voices: VoiceSet) -> bool {
        if A::has_rule(rule) {
            A::settled_in(rule, ex, prefix, i, voices)
        } else {
            B::settled_in(rule, ex, prefix, i, voices)
        }
    }

    #[inline(always)]
    fn cost_in(toll: u8, ex: &Exercise, score: &Score, i: usize) -> u32 {
        if A::has_toll(toll) {
            A::cost_in(toll, ex, score, i)
        } else {
            B::cost_in(toll, ex, score, i)
        }
    }

    #[inline(always)]
    fn cost_settled_in(toll: u8, ex: &Exercise, prefix: &Score, i: usize) -> bool {
        if A::has_toll(toll) {
            A::cost_settled_in(toll, ex, prefix, i)
        } else {
            B::cost_settled_in(toll, ex, prefix, i)
        }
    }
}

//! The crate's rule and tolls by their numbers.

ghost use Rattle.std.specs.Prelude.{◌≡◌, ⊤};
ghost use Rattle.rule_law.specs.Rulebooks.{KeepsLaws};
ghost use Rattle.doubling_rules.specs.Book as books;

use crate::doubling::Doubling;
use crate::rows::{doubling_breaks, doubling_cost, is_before_last_bar};
use fux_grid::{Cell, Exercise, Score, VoiceSet};
use rule_law::{
    Form, LatePlaces, LateQuestion, Latest, NewestColumns, RuleCrate, begins_bar, begins_inner_bar,
};

/// The crate's rules and tolls keep the laws of a book: a theorem, which costs nothing when it's
/// called.
#[tactic(auto, using(crate::proofs::BookLaws::keeps_laws))]
pub fn book_is_lawful()
    ensures { KeepsLaws books.book }
{}

/// Whether a toll may cost something at column `i`.
fn may_cost(toll: u8, ex: &Exercise, i: usize) -> bool
    ensures { result ≡ books.may_cost toll ex.now i }
{
    match toll {
        3 => ex.voices >= 3 && begins_inner_bar(ex, i),
        4 => begins_bar(i),
        5 => ex.voices >= 3 && begins_bar(i),
        _ => true,
    }
}

/// S23 and all the tolls are late.
impl RuleCrate for Doubling {
    type Part = ();

    ghost book = { books.book };

    ghost is_part = { λ ex p part. ⊤ };

    fn start() {}

    fn note(_part: &mut (), _ex: &Exercise, _i: usize, _column: &[Cell]) {}

    #[inline(always)]
    fn has_rule(rule: u8) -> bool {
        rule == 23
    }

    #[inline(always)]
    fn has_toll(toll: u8) -> bool {
        toll == 3 || toll == 4 || toll == 5 || toll == 6
    }

    #[inline(always)]
    fn form(_rule: u8) -> Form {
        Form::TwoVoices
    }

    #[inline(always)]
    fn is_late(_rule: u8) -> bool {
        true
    }

    /// The column itself, in the bar before the last.
    fn places_settled(_rule: u8, ex: &Exercise, i: usize) -> LatePlaces {
        LatePlaces::own(is_before_last_bar(ex, i), i)
    }

    fn breaks_late(
        _part: &(),
        newest: &NewestColumns,
        _rule: u8,
        ex: &Exercise,
        voices: VoiceSet,
        place: usize,
    ) -> bool {
        doubling_breaks(ex, voices, place, newest.at(place, ex.voices as usize))
    }

    /// The column itself, where the toll may cost something.
    fn toll_places(toll: u8, ex: &Exercise, i: usize) -> LatePlaces {
        LatePlaces::own(may_cost(toll, ex, i), i)
    }

    fn cost_late(newest: &NewestColumns, toll: u8, ex: &Exercise, place: usize) -> u32 {
        if place >= newest.len {
            return 0;
        }
        doubling_cost(toll, ex, place, newest.at(place, ex.voices as usize))
    }

    #[inline(always)]
    fn asks_some<Q: LateQuestion>(question: &Q) -> bool {
        question.ask(23)
    }

    #[inline(always)]
    fn breaks_at_once(
        _part: &(),
        _rule: u8,
        _ex: &Exercise,
        _voices: VoiceSet,
        _i: usize,
        _before: &[Cell],
        _latest: &Latest,
        _now: &[Cell],
    ) -> bool {
        false
    }

    #[inline(always)]
    fn cost_at_once(
        _part: &(),
        _toll: u8,
        _ex: &Exercise,
        _i: usize,
        _before: &[Cell],
        _latest: &Latest,
        _now: &[Cell],
    ) -> u32 {
        0
    }

    #[inline(always)]
    fn breaks_between(
        _rule: u8,
        ex: &Exercise,
        voices: VoiceSet,
        i: usize,
        _before: &[Cell],
        _latest: &Latest,
        now: &[Cell],
    ) -> bool {
        doubling_breaks(ex, voices, i, now)
    }

    #[inline(always)]
    fn cost_between(
        toll: u8,
        ex: &Exercise,
        i: usize,
        _before: &[Cell],
        _latest: &Latest,
        now: &[Cell],
    ) -> u32 {
        doubling_cost(toll, ex, i, now)
    }

    fn broken_in(_rule: u8, ex: &Exercise, score: &Score, i: usize, voices: VoiceSet) -> bool {
        doubling_breaks(ex, voices, i, score.column(i).as_slice())
    }

    fn settled_in(
        _rule: u8,
        _ex: &Exercise,
        _prefix: &Score,
        _i: usize,
        _voices: VoiceSet,
    ) -> bool {
        true
    }

    fn cost_in(toll: u8, ex: &Exercise, score: &Score, i: usize) -> u32 {
        doubling_cost(toll, ex, i, score.column(i).as_slice())
    }

    fn cost_settled_in(_toll: u8, _ex: &Exercise, _prefix: &Score, _i: usize) -> bool {
        true
    }
}

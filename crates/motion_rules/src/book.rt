//! The crate's rules and tolls by their numbers.

ghost use Rattle.std.specs.Prelude.{◌≡◌, ⊤};
ghost use Rattle.rule_law.specs.Rulebooks.{KeepsLaws};
ghost use Rattle.motion_rules.specs.Book as books;

use crate::afterbeats::breaks_afterbeat;
use crate::inner_voices::inner_moves;
use crate::motion::Motion;
use crate::rows::{breaks, cost};
use crate::runs::{ends_four_bars, imperfect_runs};
use fux_grid::{Cell, Exercise, Score, VoiceSet, is_mixed};
use rule_law::{
    ColumnsAround, Form, LatePlaces, LateQuestion, Latest, NewestColumns, RuleCrate, begins_bar,
    cells_behind,
};

/// The crate's rules and tolls keep the laws of a book: a theorem, which costs nothing when it's
/// called.
#[tactic(auto, using(crate::proofs::BookLaws::keeps_laws))]
pub fn book_is_lawful()
    ensures { KeepsLaws books.book }
{}

/// Whether S18 may be broken at column `i`.
fn may_be_bare(ex: &Exercise, i: usize) -> bool
    ensures { result ≡ books.may_be_bare ex.now i }
{
    (is_mixed(ex) || matches!(ex.species, 2 | 3 | 5)) && begins_bar(i) && i >= 8
}

/// S18, Q12 and Q14 are late.
impl RuleCrate for Motion {
    type Part = ();

    ghost book = { books.book };

    ghost is_part = { λ ex p part. ⊤ };

    fn start() {}

    fn note(_part: &mut (), _ex: &Exercise, _i: usize, _column: &[Cell]) {}

    #[inline(always)]
    fn has_rule(rule: u8) -> bool {
        rule == 10 || rule == 16 || rule == 17 || rule == 18
    }

    #[inline(always)]
    fn has_toll(toll: u8) -> bool {
        toll == 11 || toll == 12 || toll == 14
    }

    #[inline(always)]
    fn form(_rule: u8) -> Form {
        Form::TwoVoices
    }

    #[inline(always)]
    fn is_late(rule: u8) -> bool {
        rule == 18
    }

    /// The column itself, where S18 may be broken there.
    fn places_settled(_rule: u8, ex: &Exercise, i: usize) -> LatePlaces {
        LatePlaces::own(may_be_bare(ex, i), i)
    }

    fn breaks_late(
        _part: &(),
        newest: &NewestColumns,
        _rule: u8,
        ex: &Exercise,
        voices: VoiceSet,
        place: usize,
    ) -> bool {
        breaks_afterbeat(newest, ex, voices, place)
    }

    /// The column itself: for Q12 in three or four voices, for Q14 where a bar begins, from the
    /// fourth on.
    fn toll_places(toll: u8, ex: &Exercise, i: usize) -> LatePlaces {
        if toll == 12 {
            return LatePlaces::own(ex.voices >= 3, i);
        }
        LatePlaces::own(ends_four_bars(i), i)
    }

    fn cost_late(newest: &NewestColumns, toll: u8, ex: &Exercise, place: usize) -> u32 {
        if toll != 12 {
            return imperfect_runs(newest, ex, place);
        }
        inner_moves(
            ex,
            cells_behind(newest, ex, place, 0),
            newest.cells(ex, place),
        )
    }

    #[inline(always)]
    fn asks_some<Q: LateQuestion>(question: &Q) -> bool {
        question.ask(18)
    }

    #[inline(always)]
    fn breaks_at_once(
        _part: &(),
        rule: u8,
        ex: &Exercise,
        voices: VoiceSet,
        i: usize,
        before: &[Cell],
        latest: &Latest,
        now: &[Cell],
    ) -> bool {
        breaks(rule, ex, voices, i, before, latest, now)
    }

    #[inline(always)]
    fn cost_at_once(
        _part: &(),
        toll: u8,
        ex: &Exercise,
        i: usize,
        before: &[Cell],
        latest: &Latest,
        now: &[Cell],
    ) -> u32 {
        cost(toll, ex, i, before, latest, now)
    }

    #[inline(always)]
    fn breaks_between(
        rule: u8,
        ex: &Exercise,
        voices: VoiceSet,
        i: usize,
        before: &[Cell],
        latest: &Latest,
        now: &[Cell],
    ) -> bool {
        breaks(rule, ex, voices, i, before, latest, now)
    }

    #[inline(always)]
    fn cost_between(
        toll: u8,
        ex: &Exercise,
        i: usize,
        before: &[Cell],
        latest: &Latest,
        now: &[Cell],
    ) -> u32 {
        if toll == 12 {
            return inner_moves(ex, before, now);
        }
        cost(toll, ex, i, before, latest, now)
    }

    fn broken_in(rule: u8, ex: &Exercise, score: &Score, i: usize, voices: VoiceSet) -> bool {
        if rule == 18 {
            return breaks_afterbeat(score, ex, voices, i);
        }
        breaks(
            rule,
            ex,
            voices,
            i,
            score.before(i),
            &Latest::NONE,
            score.column(i).as_slice(),
        )
    }

    fn settled_in(
        _rule: u8,
        _ex: &Exercise,
        _prefix: &Score,
        _i: usize,
        _voices: VoiceSet,
    ) -> bool {
        true
    }

    fn cost_in(toll: u8, ex: &Exercise, score: &Score, i: usize) -> u32 {
        let (before, now) = (score.before(i), score.column(i).as_slice());
        match toll {
            12 => inner_moves(ex, before, now),
            14 => imperfect_runs(score, ex, i),
            _ => cost(toll, ex, i, before, &Latest::NONE, now),
        }
    }

    fn cost_settled_in(_toll: u8, _ex: &Exercise, _prefix: &Score, _i: usize) -> bool {
        true
    }
}

//! A case with tails, as a tree of claims: its prefixes are the nodes.

ghost use Rattle.std.specs.Prelude.{◌≡◌, ◌<◌, ◌≤◌, ◌*◌, [], None, length};
ghost use Rattle.std.specs.Bool.{OnTrue};
ghost use Rattle.cert_tree.specs.Walks.{IsNextOf, IsOfOpen};
ghost use Rattle.cert_law.specs.Bases.{HasTails};
ghost use Rattle.cert_law.specs.Cases.{IsCase, matter_of};
ghost use Rattle.cert_law.specs.Known.{IsBehindKnown, IsFoundBehind, IsKnown, IsKnownAfter, IsStepOf, KeepsKnown, TellsOwnBehind, TellsTruthBehind, tailed_of, tree_in, ways_of};
ghost use Rattle.fux_grid.specs.Exercises.{columns_in};
ghost use Rattle.fux_grid.specs.Menus.{menu_of};

use crate::case::Case;
use crate::judged::Judged;
use crate::known::PrefixKnown;
use crate::soon::{is_break_told, told_break};
use crate::tails::Tails;
use crate::truth::{first_claim, is_open, is_true};
use crate::voices_told::{VoicesTold, ask_voices, is_broken_by_voice};
use cert_text::Claim;
use cert_tree::ClaimTree;
use std::marker::Model;

/// A case, and the tails by which its claims are judged.
#[derive(Drop)]
pub struct TailedCase<'a, T: Tails> {
    case: Case<'a>,
    tails: &'a T,
}

impl<'a, T: Tails> Model for TailedCase<'a, T> {
    ghost use Rattle.cert_law.specs.Cases.{matter_of};
    ghost use Rattle.cert_law.specs.Known.{IsTailed, Tailed, tailed_of};

    ghost Value = { Tailed };

    ghost view = { λ c. tailed_of (matter_of c.case) (T.basis c.tails.now) };

    ghost invariant = { λ c. IsTailed (matter_of c.case) (T.basis c.tails.now) };
}

/// What is known of the empty prefix.
fn first_known<T: Tails>(case: &Case<'_>, tails: &T) -> PrefixKnown
    requires case { IsCase (matter_of case.now) }
    requires tails { HasTails (matter_of case.now) (T.basis tails.now) }
    ensures { IsKnown (tailed_of (matter_of case.now) (T.basis tails.now)) result [] }
{
    let judged = Judged::start(case.exercise, case.sheet);
    let tail = tails.start();
    PrefixKnown {
        judged,
        tail,
        number: 0,
        voices: VoicesTold::none(),
    }
}

/// What is known of a prefix with the column of a number more.
fn known_after<T: Tails>(
    case: &Case<'_>,
    tails: &T,
    known: &PrefixKnown,
    number: usize,
) -> PrefixKnown
    requires case { IsCase (matter_of case.now) }
    requires tails { HasTails (matter_of case.now) (T.basis tails.now) }
    requires room { known.now.judged.state.newest.len < columns_in (T.basis tails.now).exercise }
    requires within { number < length (menu_of (T.basis tails.now).exercise known.now.judged.state.newest.len) }
    requires small { known.now.judged.paid ≤ known.now.judged.state.newest.len * 134217728 }
    ensures { IsKnownAfter (tailed_of (matter_of case.now) (T.basis tails.now)) known.now number
        result }
{
    let i = known.judged.state.newest.len;
    PrefixKnown {
        judged: known.judged.after(case, tails.column(i, number)),
        tail: tails.behind(i, number),
        number,
        voices: VoicesTold::none(),
    }
}

/// The number of the first column, from a number on, by which an open prefix goes on.
fn next_step<T: Tails>(
    case: &Case<'_>,
    tails: &T,
    known: &PrefixKnown,
    from: usize,
) -> Option<usize>
    requires case { IsCase (matter_of case.now) }
    requires tails { HasTails (matter_of case.now) (T.basis tails.now) }
    requires open_node { IsOfOpen (tree_in (tailed_of (matter_of case.now) (T.basis tails.now)))
        (IsKnown (tailed_of (matter_of case.now) (T.basis tails.now))) known.now }
    ensures { IsNextOf (IsKnown (tailed_of (matter_of case.now) (T.basis tails.now)))
        (ways_of case.now.exercise.now) known.now from result }
{
    let i = known.judged.state.newest.len;
    let before = known.judged.state.before(case.exercise);
    tails.next(i, before, from, known.number)
}

/// Whether no chain goes on from an open prefix with the column of a number more: nothing of it is
/// judged.
fn ends_with<T: Tails>(case: &Case<'_>, tails: &T, known: &PrefixKnown, number: usize) -> bool
    requires case { IsCase (matter_of case.now) }
    requires tails { HasTails (matter_of case.now) (T.basis tails.now) }
    requires step { IsStepOf (tailed_of (matter_of case.now) (T.basis tails.now)) number known.now }
    ensures { TellsTruthBehind (tailed_of (matter_of case.now) (T.basis tails.now)) known.now number
        Claim.NoChain result }
{
    let _ = case;
    tails
        .behind(known.judged.state.newest.len, number)
        .is_none()
}

/// Whether a claim is true of an open prefix with the column of a number more, by all that is known
/// of that then.
fn judge_whole<T: Tails>(
    case: &Case<'_>,
    tails: &T,
    known: &PrefixKnown,
    number: usize,
    claim: Claim,
    found: &mut Option<PrefixKnown>,
) -> bool
    requires case { IsCase (matter_of case.now) }
    requires tails { HasTails (matter_of case.now) (T.basis tails.now) }
    requires step { IsStepOf (tailed_of (matter_of case.now) (T.basis tails.now)) number known.now }
    requires none { found.old ≡ None }
    ensures told { TellsTruthBehind (tailed_of (matter_of case.now) (T.basis tails.now)) known.now
        number claim result }
    ensures found { IsFoundBehind (tailed_of (matter_of case.now) (T.basis tails.now)) known.now
        number found.new }
{
    let next = known_after(case, tails, known, number);
    *found = Some(next);
    is_true(case, &next.judged, next.tail, claim)
}

/// Whether a claim is true of an open prefix with the column of a number more. Where the claim is
/// of a rule of which a strict break is soon told, or of the chains that go on, no more is judged.
fn judge_with<T: Tails>(
    case: &Case<'_>,
    tails: &T,
    known: &PrefixKnown,
    number: usize,
    claim: Claim,
    found: &mut Option<PrefixKnown>,
) -> bool
    requires case { IsCase (matter_of case.now) }
    requires tails { HasTails (matter_of case.now) (T.basis tails.now) }
    requires step { IsStepOf (tailed_of (matter_of case.now) (T.basis tails.now)) number known.now }
    requires none { found.old ≡ None }
    ensures told { TellsTruthBehind (tailed_of (matter_of case.now) (T.basis tails.now)) known.now
        number claim result }
    ensures found { IsFoundBehind (tailed_of (matter_of case.now) (T.basis tails.now)) known.now
        number found.new }
{
    if let Claim::NoChain = claim {
        return ends_with(case, tails, known, number);
    }
    let i = known.judged.state.newest.len;
    let column = tails.column(i, number);
    let alone = tails.alone(i, number);
    if is_break_told(case, &known.judged, column, alone, claim) {
        return true;
    }
    judge_whole(case, tails, known, number, claim, found)
}

/// Whether a claim is soon told to be true of such a prefix, as it is of a rule that a voice breaks
/// by its cell. Of each voice it is asked once what it breaks so, as long as its cell stays.
fn is_voice_told<T: Tails>(
    case: &Case<'_>,
    tails: &T,
    known: &mut PrefixKnown,
    number: usize,
    claim: Claim,
) -> bool
    requires case { IsCase (matter_of case.now) }
    requires tails { HasTails (matter_of case.now) (T.basis tails.now) }
    requires step { IsStepOf (tailed_of (matter_of case.now) (T.basis tails.now)) number known.old }
    ensures told { OnTrue result
        (IsBehindKnown (tailed_of (matter_of case.now) (T.basis tails.now)) known.old number
        (λ q. (tree_in (tailed_of (matter_of case.now) (T.basis tails.now))).IsTrueOf q claim)) }
    ensures kept { KeepsKnown (tailed_of (matter_of case.now) (T.basis tails.now)) known.old
        known.new }
{
    let Claim::Broken(rule) = claim else {
        return false;
    };
    if rule >= 10 {
        return false;
    }
    let column = tails.column(known.judged.state.newest.len, number);
    is_broken_by_voice(
        case.exercise,
        &known.judged.state,
        column,
        &mut known.voices,
        rule,
    )
}

/// As `judge_with`, where what voices break is asked first.
fn judge_on<T: Tails>(
    case: &Case<'_>,
    tails: &T,
    known: &mut PrefixKnown,
    number: usize,
    claim: Claim,
    found: &mut Option<PrefixKnown>,
) -> bool
    requires case { IsCase (matter_of case.now) }
    requires tails { HasTails (matter_of case.now) (T.basis tails.now) }
    requires step { IsStepOf (tailed_of (matter_of case.now) (T.basis tails.now)) number known.old }
    requires none { found.old ≡ None }
    ensures told { TellsTruthBehind (tailed_of (matter_of case.now) (T.basis tails.now)) known.old
        number claim result }
    ensures found { IsFoundBehind (tailed_of (matter_of case.now) (T.basis tails.now)) known.old
        number found.new }
    ensures kept { KeepsKnown (tailed_of (matter_of case.now) (T.basis tails.now)) known.old
        known.new }
{
    if is_voice_told(case, tails, known, number, claim) {
        return true;
    }
    judge_with(case, tails, known, number, claim, found)
}

/// The first claim that is true of an open prefix with the column of a number more, by all that is
/// known of that then.
fn tell_whole<T: Tails>(
    case: &Case<'_>,
    tails: &T,
    known: &PrefixKnown,
    number: usize,
    found: &mut Option<PrefixKnown>,
) -> Claim
    requires case { IsCase (matter_of case.now) }
    requires tails { HasTails (matter_of case.now) (T.basis tails.now) }
    requires step { IsStepOf (tailed_of (matter_of case.now) (T.basis tails.now)) number known.now }
    requires none { found.old ≡ None }
    ensures own { TellsOwnBehind (tailed_of (matter_of case.now) (T.basis tails.now)) known.now
        number result }
    ensures found { IsFoundBehind (tailed_of (matter_of case.now) (T.basis tails.now)) known.now
        number found.new }
{
    let next = known_after(case, tails, known, number);
    *found = Some(next);
    first_claim(case, &next.judged, next.tail)
}

/// The first claim that is true of an open prefix with the column of a number more. Where it is of
/// a rule that is soon told, no more is judged. Of each voice it is asked once what it breaks, as
/// long as its cell stays.
fn tell_on<T: Tails>(
    case: &Case<'_>,
    tails: &T,
    known: &mut PrefixKnown,
    number: usize,
    found: &mut Option<PrefixKnown>,
) -> Claim
    requires case { IsCase (matter_of case.now) }
    requires tails { HasTails (matter_of case.now) (T.basis tails.now) }
    requires step { IsStepOf (tailed_of (matter_of case.now) (T.basis tails.now)) number known.old }
    requires none { found.old ≡ None }
    ensures own { TellsOwnBehind (tailed_of (matter_of case.now) (T.basis tails.now)) known.old
        number result }
    ensures found { IsFoundBehind (tailed_of (matter_of case.now) (T.basis tails.now)) known.old
        number found.new }
    ensures kept { KeepsKnown (tailed_of (matter_of case.now) (T.basis tails.now)) known.old
        known.new }
{
    let i = known.judged.state.newest.len;
    let column = tails.column(i, number);
    let alone = tails.alone(i, number);
    let line = ask_voices(
        case.exercise,
        &known.judged.state,
        column,
        &mut known.voices,
    );
    if let Some(rule) = told_break(case, &known.judged, column, alone, line) {
        return Claim::Broken(rule);
    }
    tell_whole(case, tails, known, number, found)
}

impl<'a, T: Tails> TailedCase<'a, T> {
    /// A case with tails that are its own.
    pub fn new(case: Case<'a>, tails: &'a T) -> TailedCase<'a, T>
        requires case { IsCase (matter_of case) }
        requires tails { HasTails (matter_of case) (T.basis tails.now) }
        ensures { result ≡ tailed_of (matter_of case.entry) (T.basis tails.entry.now) }
    {
        TailedCase { case, tails }
    }
}

impl<'a, T: Tails> ClaimTree for TailedCase<'a, T> {
    ghost use Rattle.std.specs.Prelude.{[], List as Items};
    ghost use Rattle.fux_grid.specs.declared.cell.Cell.{Cell as ACell};
    ghost use Rattle.cert_law.specs.Certificates.{Begins};
    ghost use Rattle.cert_law.specs.Known.{IsKnown, own_in, tree_in, ways_of};
    ghost use Rattle.cert_law.specs.WayLaws.{RefutesExcluded, are_ways, empty_begins, excluded};

    type Claim = Claim;

    type Known = PrefixKnown;

    ghost Node = { Items (Items ACell) };

    ghost Leaf = { Items (Items ACell) };

    ghost tree = { tree_in };

    ghost root = { λ _. [] };

    ghost ways = { λ it. ways_of it.case.exercise };

    ghost own = { own_in };

    ghost begins = { λ _. Begins };

    ghost refutes = { RefutesExcluded };

    ghost is_of = { IsKnown };

    ghost are_ways = { are_ways };

    ghost root_begins = { λ _. empty_begins };

    ghost excludes = { excluded };

    fn depth(&self) -> usize {
        8 * self.case.exercise.bars as usize
    }

    fn first(&self) -> PrefixKnown {
        first_known(&self.case, self.tails)
    }

    fn next(&self, known: &PrefixKnown, from: usize) -> Option<usize> {
        next_step(&self.case, self.tails, known, from)
    }

    fn behind(&self, known: &PrefixKnown, number: usize) -> PrefixKnown {
        known_after(&self.case, self.tails, known, number)
    }

    fn is_open(&self, claim: Claim) -> bool {
        is_open(claim)
    }

    fn is_true(&self, known: &PrefixKnown, claim: Claim) -> bool {
        is_true(&self.case, &known.judged, known.tail, claim)
    }

    fn judge_behind(
        &self,
        known: &mut PrefixKnown,
        number: usize,
        claim: Claim,
        found: &mut Option<PrefixKnown>,
    ) -> bool {
        judge_on(&self.case, self.tails, known, number, claim, found)
    }

    fn own_claim(&self, known: &PrefixKnown) -> Claim {
        first_claim(&self.case, &known.judged, known.tail)
    }

    fn tell_behind(
        &self,
        known: &mut PrefixKnown,
        number: usize,
        found: &mut Option<PrefixKnown>,
    ) -> Claim {
        tell_on(&self.case, self.tails, known, number, found)
    }
}

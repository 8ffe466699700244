//! One column more.

ghost use Rattle.std.specs.Prelude.{◌≡◌, ◌≤◌, ◌<◌, ◌+◌, ◌*◌, ◌&&◌, not, nat_lt, ℕ, List, IsTrue, length};
ghost use Rattle.std.specs.List.{list_any, list_all, sum_by};
ghost use Rattle.fux_grid.specs.declared.cell.Cell.{Cell as ACell};
ghost use Rattle.fux_grid.specs.Exercises.{IsValid, columns_in};
ghost use Rattle.rule_law.specs.Voices.{has_rule};
ghost use Rattle.fux_judge.specs.Gauges.{least_of};
ghost use Rattle.fux_judge.specs.Rules.{all_sets, is_late, rules_at_once, rules_read};
ghost use Rattle.fux_judge.specs.Penalties.{newly_paid, paid};
ghost use Rattle.fux_judge.specs.Moments.{IsReadable, IsAfter, breaks_one_of, paid_at_once, prices_then};
ghost use Rattle.fux_judge.specs.Pruning.{IsToldAt};
ghost use Rattle.fux_judge.specs.States.{IsStateOf};
ghost use Rattle.fux_judge.specs.Verdicts.{GoingOn, Grown, GrownPrefix, HasBroken, PaysMore};

use crate::kept::rules_left;
use crate::late::{late_prices, with_late};
use crate::late_tolls::late_charges;
use crate::lines::least;
use crate::moment::Moment;
use crate::numbers::{all_at_once, every_rule};
use crate::own::own_charge;
use crate::reading::{is_strictly_broken_now, prices_now};
use crate::state::State;
use crate::tolls::charges;
use fux_grid::{Column, Exercise};
use penalty_sheet::Sheet;
use rule_law::{RuleSet, is_quiet};

/// What a column brings after a prefix.
#[derive(Clone, Copy, Debug, PartialEq, Eq)]
pub struct Verdict {
    /// The state of the longer prefix.
    pub state: State,
    /// The rules of which the column settles a strict break.
    pub broken: RuleSet,
    /// The tolls, by their weights, and the prices that the column settles.
    pub paid: u64,
    /// What the lines of the free voices will cost at least, by the gauges and their weights.
    pub least: u64,
}

impl Verdict {
    /// Whether the column settles a strict break of some rule.
    #[inline]
    pub fn breaks(&self) -> bool
        ensures { result ≡ list_any (has_rule self.now.broken.bits) rules_read }
    {
        any_of(every_rule(), self.broken)
    }
}

/// Whether one of these rules is in a set.
#[inline]
pub(crate) fn any_of(rules: &[u8], set: RuleSet) -> bool
    ensures { result ≡ list_any (has_rule set.bits) rules.now }
{
    rules.iter().any(|rule| set.has(*rule))
}

/// Those of the rules that are strictly broken.
fn broken_of(rules: &[u8], m: &Moment<'_>) -> RuleSet
    requires numbers { IsTrue (list_all (λ rule. nat_lt rule 32 && not (is_late rule)) rules.now) }
    requires readable { IsReadable m.now }
    ensures { (p : List (List ACell)) → IsAfter p m.now → (r : ℕ) → has_rule result.bits r
        ≡ breaks_one_of rules.now p m.now r }
{
    let mut set = RuleSet::EMPTY;
    for rule in rules {
        let on = is_strictly_broken_now(*rule, m);
        set = set.with(*rule, on);
    }
    set
}

/// The prices of the relaxed breaks of these rules, each asked.
fn prices_of_each(rules: &[u8], m: &Moment<'_>) -> u64
    requires numbers { IsTrue (list_all (λ rule. nat_lt rule 32 && not (is_late rule)) rules.now) }
    requires readable { IsReadable m.now }
    requires few { length rules.now ≤ 32 }
    ensures value { (p : List (List ACell)) → IsAfter p m.now → result
        ≡ sum_by (λ rule. prices_then all_sets rule p m.now) rules.now }
    ensures bound { result ≤ 1920000 }
{
    let mut sum = 0u64;
    for rule in rules {
        let price = prices_now(*rule, m);
        sum += price;
    }
    sum
}

/// The same. Where nothing is relaxed none is asked.
#[inline(always)]
fn prices_of(rules: &[u8], m: &Moment<'_>) -> u64
    requires numbers { IsTrue (list_all (λ rule. nat_lt rule 32 && not (is_late rule)) rules.now) }
    requires readable { IsReadable m.now }
    requires few { length rules.now ≤ 32 }
    ensures value { (p : List (List ACell)) → IsAfter p m.now → result
        ≡ sum_by (λ rule. prices_then all_sets rule p m.now) rules.now }
    ensures bound { result ≤ 1920000 }
{
    if m.exercise.relax.as_slice().is_empty() {
        return 0;
    }
    prices_of_each(rules, m)
}

/// The moment at which a column comes after a state's prefix.
pub(crate) fn moment_of<'a>(ex: &'a Exercise<'a>, state: &'a State, col: &'a Column) -> Moment<'a>
    requires { ex.now.voices ≤ 4 }
    ensures after { (p : List (List ACell)) → IsStateOf ex.entry.now p state.entry.now
        → IsAfter p result }
    ensures exercise { result.exercise.now ≡ ex.entry.now }
    ensures column { result.column.now ≡ col.entry.now.items }
    ensures place { result.state.now.newest.len ≡ state.entry.now.newest.len }
    ensures state { result.state.now ≡ state.entry.now }
{
    Moment {
        exercise: ex,
        state,
        before: state.before(ex),
        latest: state.past.latest(),
        column: col.as_slice(),
    }
}

/// The rules settled at once that the column breaks strictly, and what it costs of them and of such
/// tolls, but for its own. Where nothing begins, nothing is read, and what is told isn't asked.
#[inline(always)]
pub(crate) fn readings(sheet: &Sheet, m: &Moment<'_>, told: bool) -> (RuleSet, u64)
    requires readable { IsReadable m.now }
    requires told { IsTrue told → IsToldAt m.now }
    ensures broken { (p : List (List ACell)) → IsAfter p m.now → (r : ℕ)
        → has_rule result.0.bits r ≡ breaks_one_of rules_at_once p m.now r }
    ensures paid { (p : List (List ACell)) → IsAfter p m.now → result.1 ≡ paid_at_once sheet.now p
        m.now }
    ensures bound { result.1 ≤ 9784200 }
{
    if is_quiet(m.state.newest.len, m.column) {
        return (RuleSet::EMPTY, 0);
    }
    let paid = charges(sheet, m) + prices_of(all_at_once(), m);
    (broken_of(rules_left(m, told), m), paid)
}

/// What the column costs of the rules settled at once and of such tolls, but for its own. Where
/// nothing begins, nothing is read.
pub(crate) fn paid_now(sheet: &Sheet, m: &Moment<'_>) -> u64
    requires { IsReadable m.now }
    ensures paid { (p : List (List ACell)) → IsAfter p m.now → result ≡ paid_at_once sheet.now p
        m.now }
    ensures bound { result ≤ 9784200 }
{
    if is_quiet(m.state.newest.len, m.column) {
        return 0;
    }
    charges(sheet, m) + prices_of(all_at_once(), m)
}

/// Judges a column that comes after a prefix: which rules it breaks strictly, what it costs, and
/// the state of the longer prefix. It takes no memory.
pub fn step(ex: &Exercise, sheet: &Sheet, state: &State, col: &Column) -> Verdict
    requires valid { IsValid ex.now }
    requires room { state.now.newest.len < columns_in ex.now }
    requires full { length col.now.items ≡ ex.now.voices }
    ensures state { Grown ex.now state.now col.now.items (λ longer. IsStateOf ex.now longer
        result.state) }

    // After an orderly prefix, the rules of which this column, and none before it, settles a strict
    // break, and what it settles of tolls and prices.
    ensures broken { GoingOn ex.now state.now col.now.items (λ p next. HasBroken ex.now p next
        result.broken.bits) }
    ensures settled { GoingOn ex.now state.now col.now.items (λ p next. result.paid
        ≡ newly_paid ex.now sheet.now p next) }
    ensures paid { GoingOn ex.now state.now col.now.items (λ p next. PaysMore ex.now sheet.now p
        next result.paid) }
    ensures bound { result.paid ≤ 134217728 }
    ensures least { GrownPrefix ex.now state.now col.now.items (λ longer. result.least
        ≡ least_of ex.now sheet.now longer) }
    ensures least_bound { result.least ≤ 334490640 }
{
    let moment = moment_of(ex, state, col);
    let mut next = *state;
    next.add(ex, col);
    let (at_once, paid) = readings(sheet, &moment, false);
    let broken = with_late(at_once, ex, &next);
    let own = own_charge(ex, sheet, state.newest.len, col);
    let paid = paid + own + late_charges(sheet, ex, &next) + late_prices(ex, &next);
    let least = least(ex, sheet, &next);
    Verdict {
        state: next,
        broken,
        paid,
        least,
    }
}

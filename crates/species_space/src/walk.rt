//! A walk over the columns of a menu that passes over the dead ones, and over those that are no
//! better than the best leaf.

ghost use Rattle.std.specs.Prelude.{◌≡◌, ◌<◌, ◌≤◌, ◌+◌, ◌^◌, ℕ, Bool, false, [], IfNone, IfSome, IsSomeAnd, length, slice_index_or};
ghost use Rattle.std.specs.Bool.{OnFalse};
ghost use Rattle.fux_grid.specs.Columns.{ColumnFollows};
ghost use Rattle.fux_grid.specs.Exercises.{IsValid, columns_in};
ghost use Rattle.fux_grid.specs.Menus.{menu_of};
ghost use Rattle.rule_law.specs.Bars.{begins_bar};
ghost use Rattle.species_space.specs.Blocks.{AreAlike, AreWithin, IsCut, IsHeldNext, IsUnskipped, PassesDead, columns_seen};
ghost use Rattle.species_space.specs.Nodes.{ComesBefore, HasNoBetter, IsNodeOf, IsFairIn, IsToldIn, PassesOver};
ghost use Rattle.species_space.specs.Task.{IsViewOf, Task};
ghost use Rattle.tree_search.specs.Space.{IsInner, IsToldBefore};

use crate::blocks::MenuView;
use crate::node::Node;
use floor_tables::Tables;
use fux_grid::{Cell, Exercise};
use fux_judge::pruned_within;
use penalty_sheet::Sheet;

/// The first number, from this one on, of a column that may follow and isn't dead after every
/// prefix; the menu's length where there is none.
pub fn next_choice(menu: &MenuView<'_>, before: &[Cell], from: usize, hint: usize) -> usize
    requires cut { IsCut menu.now }
    requires bounded { AreWithin menu.now.undead.now (length (columns_seen menu.now)) }
    requires within { from ≤ length (columns_seen menu.now) }
    ensures onward { from ≤ result }
    ensures within { result ≤ length (columns_seen menu.now) }
    ensures passed { PassesDead menu.now before.now from result }
    ensures unskipped { result < length (columns_seen menu.now) → IsUnskipped menu.now.undead.now
        result }
    ensures follows { result < length (columns_seen menu.now) → ColumnFollows before.now
        (slice_index_or (columns_seen menu.now) result []) }
{
    let mut k = menu.next_that_follows(before, from, hint);
    while k < menu.len() {
        let undead = menu.undead_from(k);
        if undead <= k {
            return k;
        }
        k = menu.next_that_follows(before, undead, hint);
    }
    k
}

/// What a column must cost to be no better than the best leaf, where there is one and the rest
/// costs so much at least: so much or more.
#[inline]
pub fn limit_of(best: Option<u64>, at_least: u64) -> Option<u64>
    ensures { (cost : ℕ) → IsSomeAnd result (λ limit. limit ≤ cost) → IsSomeAnd best (λ value. value
        ≤ at_least + cost) }
{
    match best {
        Some(value) => Some(value.saturating_sub(at_least)),
        None => None,
    }
}

/// What is known of the rest behind each column.
pub(crate) trait Rests {
    /// Whether it is told by chains.
    ghost chained: { Bool };

    /// The exercise and the sheet by which it is.
    ghost task: { Self → Task };

    /// Whether a child may be better than the best leaf so far, where there is one: by what is
    /// paid, what the lines cost at least, and the rest of its column.
    fn may_be_better(&self, node: &Node, k: usize, best: Option<u64>) -> bool
        requires valid { IsValid (task self.now).exercise }
        requires node { IsInner (IsNodeOf (task self.now).exercise (task self.now).sheet node.now)
            (columns_in (task self.now).exercise) }
        requires number { k < length (menu_of (task self.now).exercise node.now.state.newest.len) }
        ensures { OnFalse result
            (HasNoBetter chained (task self.now).exercise (task self.now).sheet node.now best k) };
}

/// The least sums over chains.
impl<'a> Rests for Tables<'a> {
    ghost use Rattle.std.specs.Prelude.{true};

    ghost chained = { true };

    ghost task = { λ tables. tables };

    #[inline]
    fn may_be_better(&self, node: &Node, k: usize, best: Option<u64>) -> bool {
        let Some(rest) = self.rest_of_number(node.state.len(), k) else {
            return false;
        };
        match best {
            Some(value) => node.paid + node.least + rest < value,
            None => true,
        }
    }
}

/// No tables: nothing is known of the rest, and it may cost nothing.
#[derive(Clone, Copy)]
pub(crate) struct NoTables<'a> {
    pub(crate) exercise: &'a Exercise<'a>,
    pub(crate) sheet: &'a Sheet,
}

impl<'a> Rests for NoTables<'a> {
    ghost use Rattle.std.specs.Prelude.{false};

    ghost chained = { false };

    ghost task = { λ none. record { exercise = none.exercise.now; sheet = none.sheet.now } };

    #[inline]
    fn may_be_better(&self, _node: &Node, _k: usize, _best: Option<u64>) -> bool {
        true
    }
}

/// The number after the columns that are passed over from this one on, and how many of the lowest
/// voices are known to break no rule; none where the column has to be tried.
fn passed_over<R: Rests>(
    exercise: &Exercise,
    sheet: &Sheet,
    rests: &R,
    node: &Node,
    menu: &MenuView<'_>,
    k: usize,
    tried: usize,
    best: Option<u64>,
) -> Option<(usize, usize)>
    requires valid { IsValid exercise.now }
    requires rests { R.task rests.now ≡ record { exercise = exercise.now; sheet = sheet.now } }
    requires node { IsInner (IsNodeOf exercise.now sheet.now node.now) (columns_in exercise.now) }
    requires menu { IsViewOf exercise.now node.now.state.newest.len menu.now }
    requires within { k < length (columns_seen menu.now) }
    requires tried { IsFairIn tried exercise.now node.now menu.now k }
    ensures onward { IfSome result (λ end. k < end.0) }
    ensures within { IfSome result (λ end. end.0 ≤ length (columns_seen menu.now)) }
    ensures passed { IfSome result (λ end. PassesOver R.chained exercise.now sheet.now node.now best
        k end.0) }
    ensures sound { IfSome result (λ end. IsFairIn end.1 exercise.now node.now menu.now k) }
    ensures fair { IfNone result (IsFairIn 4 exercise.now node.now menu.now k) }
{
    if !rests.may_be_better(node, k, best) {
        return Some((k + 1, tried));
    }
    let limit = limit_of(best, node.paid + node.least);
    let voices = pruned_within(exercise, sheet, &node.state, menu.column(k), tried, limit)?;
    Some((menu.end_of_agreement(k, voices), voices - 1))
}

/// The first number, from this one on, of a column that may follow and has a rest, where the hint's
/// column may in a menu of holds: no other one may, and its cells aren't asked.
fn next_held<R: Rests>(
    exercise: &Exercise,
    sheet: &Sheet,
    rests: &R,
    node: &Node,
    menu: &MenuView<'_>,
    before: &[Cell],
    hint: usize,
    from: usize,
    best: Option<u64>,
) -> usize
    requires valid { IsValid exercise.now }
    requires rests { R.task rests.now ≡ record { exercise = exercise.now; sheet = sheet.now } }
    requires node { IsInner (IsNodeOf exercise.now sheet.now node.now) (columns_in exercise.now) }
    requires menu { IsViewOf exercise.now node.now.state.newest.len menu.now }
    requires before { ComesBefore exercise.now node.now before.now }
    requires held { IsHeldNext menu.now before.now hint }
    requires inner { begins_bar node.now.state.newest.len ≡ false }
    requires within { from ≤ length (columns_seen menu.now) }
    ensures onward { from ≤ result }
    ensures within { result ≤ length (columns_seen menu.now) }
    ensures passed { PassesOver R.chained exercise.now sheet.now node.now best from result }
    ensures told { result < length (columns_seen menu.now)
        → IsToldIn exercise.now node.now menu.now result }
{
    if from > hint {
        return menu.len();
    }
    if !rests.may_be_better(node, hint, best) {
        return menu.len();
    }
    hint
}

/// In how many of the lowest voices a column is known to have the cells of the one from behind which
/// a walk goes on.
#[inline]
fn alike_before(menu: &MenuView<'_>, from: usize, k: usize) -> usize
    ensures none { from ≡ 0 → result ≡ 0 }
    ensures alike { (j : ℕ) → from ≡ j + 1 → AreAlike result (slice_index_or (columns_seen menu.now) j [])
        (slice_index_or (columns_seen menu.now) k []) }
{
    if from == 0 {
        return 0;
    }
    menu.lowest_alike(from - 1, k, 4)
}

/// The first number, from this one on, of a column that may follow, has a rest, and isn't pruned by
/// the cells of its lowest voices: they settle no strict break and don't cost too much to be better
/// than the best. The menu's length where there is none. Where the same is told of the column
/// before the first number, it is told of this one what it keeps.
pub(crate) fn next_unpruned<R: Rests>(
    exercise: &Exercise,
    sheet: &Sheet,
    rests: &R,
    node: &Node,
    menu: &MenuView<'_>,
    from: usize,
    best: Option<u64>,
) -> usize
    requires valid { IsValid exercise.now }
    requires rests { R.task rests.now ≡ record { exercise = exercise.now; sheet = sheet.now } }
    requires node { IsInner (IsNodeOf exercise.now sheet.now node.now) (columns_in exercise.now) }
    requires menu { IsViewOf exercise.now node.now.state.newest.len menu.now }
    requires within { from ≤ length (columns_seen menu.now) }
    requires before { IsToldBefore (IsToldIn exercise.now node.now menu.now) from }
    ensures onward { from ≤ result }
    ensures within { result ≤ length (columns_seen menu.now) }
    ensures passed { PassesOver R.chained exercise.now sheet.now node.now best from result }
    ensures told { result < length (columns_seen menu.now)
        → IsToldIn exercise.now node.now menu.now result }
{
    let before = node.state.before(exercise);
    let hint = menu.guess(node.hint);
    if menu.goes_on(node.state.newest.len, before, hint) {
        return next_held(exercise, sheet, rests, node, menu, before, hint, from, best);
    }
    let mut k = next_choice(menu, before, from, hint);
    let mut tried = alike_before(menu, from, k);
    while k < menu.len() {
        let passed = passed_over(exercise, sheet, rests, node, menu, k, tried, best);
        let Some((end, sound)) = passed else {
            return k;
        };
        let last = k;
        k = next_choice(menu, before, end, hint);
        tried = menu.lowest_alike(last, k, sound);
    }
    k
}

//! The tree of the settings of an exercise.

ghost use Rattle.std.specs.Prelude.{◌≡◌, ◌<◌, ◌≤◌, ◌+◌, ◌^◌, Bool, [], reverse, Some, None, OnOk, IfOk, IfErr, IfSome, IfNone, IsTrue, All, length, slice_index_or};
ghost use Rattle.fux_grid.specs.Columns.{ColumnFollows, Columns, newest_column};
ghost use Rattle.fux_grid.specs.Exercises.{IsValid, columns_in};
ghost use Rattle.fux_judge.specs.States.{IsStateOf};
ghost use Rattle.fux_grid.specs.Grid.{items_of};
ghost use Rattle.fux_grid.specs.Menus.{menu_of};
ghost use Rattle.std.specs.Bool.{OnFalse};
ghost use Rattle.species_space.specs.Blocks.{AreBlocksOf, AreSound, AreUndead, IsOnlyHolds};
ghost use Rattle.floor_tables.specs.Tables.{AreNarrow, IsRest, TellsWidth};
ghost use Rattle.fux_judge.specs.Late.{SettleNothing};
ghost use Rattle.fux_judge.specs.Links.{IsOwnCost};
ghost use Rattle.fux_judge.specs.Still.{IsStillPlace};
ghost use Rattle.species_space.specs.Grows.{paths_grow};
ghost use Rattle.species_space.specs.Nodes.{FollowsBehind, IsNodeOf, IsTold};
ghost use Rattle.species_space.specs.Chained.{IsRestWith};
ghost use Rattle.species_space.specs.Paths.{live_at, live_with, width_at};
ghost use Rattle.species_space.specs.Task.{AreMenus, IsViewOf, IsReady};
ghost use Rattle.tree_search.specs.Space.{HasChild, HasLiveChild, IsMadeAgain, IsMadeChild};

use crate::blocks::{BlockMenu, Blocks, MenuView, column_at};
use crate::columns::MenuColumns;
use crate::node::Node;
use crate::own::{OwnCosts, own_rows};
use crate::walk::next_unpruned;
use floor_tables::{TableFault, Tables, fill_tables};
use fux_grid::{Column, Exercise, cells_follow};
use fux_judge::{
    Price, State, again_still, do_shapes_hold, idle_rules, is_always_dead, least, step_again,
    step_still, step_unbroken,
};
use fux_pitch::Memory;
use penalty_sheet::Sheet;
use rule_law::{RuleSet, begins_bar};
use std::alloc::Global;
use std::marker::Model;
use std::thread::Threads;
use tree_search::{QuestSpace, Space};

/// The settings of an exercise as a tree: a child adds the column of its number, counted from 0, in
/// the menu of the next column. A child is dead where its column doesn't follow, where a strict
/// break is settled by it, or where no chain goes on from it to the end.
#[derive(Drop)]
pub struct SpeciesSpace<'a> {
    pub(crate) exercise: &'a Exercise<'a>,
    pub(crate) sheet: &'a Sheet,
    pub(crate) tables: Tables<'a>,
    /// For each column what is known of its menu. The tables keep the columns themselves.
    pub(crate) menus: Vec<BlockMenu>,
    /// For each column what its own tolls cost each column of its menu.
    pub(crate) own: Vec<OwnCosts>,
}

impl<'a> Model for SpeciesSpace<'a> {
    ghost use Rattle.std.specs.Prelude.{◌≡◌};
    ghost use Rattle.species_space.specs.Own.{AreOwnRows};
    ghost use Rattle.species_space.specs.Task.{Task, IsReady};

    ghost Value = { Task };

    ghost view = { λ s. record { exercise = s.exercise.now; sheet = s.sheet.now } };

    ghost invariant = { λ s. IsReady s.exercise.now s.menus.items
        × (s.tables ≡ record { exercise = s.exercise.now; sheet = s.sheet.now })
        × AreOwnRows s.exercise.now s.sheet.now s.own.items };
}

impl<'a> SpeciesSpace<'a> {
    /// The space of an exercise by a sheet. It takes all its memory here.
    pub fn new<R: Threads + Sync>(
        rt: &R,
        alloc: Global,
        exercise: &'a Exercise<'a>,
        sheet: &'a Sheet,
    ) -> Result<SpeciesSpace<'a>, TableFault>
        requires { IsValid exercise.now }
        ensures made { IfOk result (λ space. space ≡ record {
          exercise = exercise.entry.now;
          sheet
              = sheet.entry.now;
        }) }
        ensures narrow { OnOk result (AreNarrow exercise.entry.now) }
        ensures wide { IfErr result (TellsWidth exercise.entry.now) }
    {
        let tables = fill_tables(rt, alloc, exercise, sheet)?;
        let Ok(menus) = menus_of(alloc, exercise, &tables) else {
            return Err(TableFault::Memory);
        };
        let Ok(own) = own_rows(alloc, exercise, sheet, &tables) else {
            return Err(TableFault::Memory);
        };
        Ok(SpeciesSpace {
            exercise,
            sheet,
            tables,
            menus,
            own,
        })
    }

    /// The exercise whose settings they are.
    pub fn exercise(&self) -> &Exercise
        ensures value { result.now ≡ self.now.exercise }
        ensures valid { IsValid self.now.exercise }
    {
        self.exercise
    }

    /// The sheet by which they are weighed.
    pub fn sheet(&self) -> &Sheet
        ensures { result.now ≡ self.now.sheet }
    {
        self.sheet
    }

    /// The tables from which the floors are read.
    pub fn tables(&self) -> &Tables<'a>
        ensures value { result.now ≡ self.now }
        ensures narrow { AreNarrow self.now.exercise }
    {
        &self.tables
    }

    /// The menu of column i.
    pub fn menu(&self, i: usize) -> MenuView<'_>
        requires { i < columns_in self.now.exercise }
        ensures { IsViewOf self.now.exercise i result }
    {
        let menu = &self.menus[i];
        MenuView {
            columns: self.tables.columns(i),
            blocks: &menu.blocks,
            undead: menu.undead.as_slice(),
        }
    }

    /// Late rules of which column i settles no strict break.
    #[inline]
    fn idle(&self, i: usize) -> RuleSet
        requires { i < columns_in self.now.exercise }
        ensures { SettleNothing self.now.exercise i result.bits }
    {
        self.menus[i].idle
    }

    /// Whether nothing can begin at column i: no bar does, each cell of its menu is a hold, and
    /// each shape of each voice holds a note there.
    #[inline]
    fn is_still(&self, i: usize) -> bool
        requires { i < columns_in self.now.exercise }
        ensures { IsTrue result → IsStillPlace self.now.exercise i }
    {
        self.menus[i].still
    }

    /// What its own tolls cost the column of a number in the menu of column i.
    #[inline]
    fn own(&self, i: usize, k: usize) -> u64
        requires place { i < columns_in self.now.exercise }
        requires within { k < length (menu_of self.now.exercise i) }
        ensures { IsOwnCost self.now.exercise self.now.sheet i
            (slice_index_or (menu_of self.now.exercise i) k []) result }
    {
        self.own[i].of(k)
    }

    /// The column of a child with the least sum of the chains that go on from it, and what its own
    /// tolls cost it; none where no chain does.
    #[inline]
    fn choice(&self, node: &Node, k: usize) -> Option<(&Column, u64, u64)>
        requires { HasChild (IsNodeOf self.now.exercise self.now.sheet node.now)
            (columns_in self.now.exercise) (width_at self.now.exercise) k }
        ensures column { IfSome result (λ choice. choice.0.now.items
            ≡ slice_index_or (menu_of self.now.exercise node.now.state.newest.len) k []) }
        ensures rest { IfSome result (λ choice. IsRest self.now.exercise self.now.sheet
            node.now.state.newest.len choice.0.now.items (Some choice.1)) }
        ensures small { IfSome result (λ choice. choice.1 ≤ 2 ^ 61) }
        ensures own { IfSome result (λ choice. IsOwnCost self.now.exercise self.now.sheet
            node.now.state.newest.len choice.0.now.items choice.2) }
        ensures none { IfNone result (IsRest self.now.exercise self.now.sheet node.now.state.newest.len
            (slice_index_or (menu_of self.now.exercise node.now.state.newest.len) k []) None) }
    {
        let i = node.state.len();
        let rest = self.tables.rest_of_number(i, k)?;
        Some((self.tables.column(i, k), rest, self.own(i, k)))
    }

    /// The floor of a child, if it is live: then the child is written into the place that is given.
    /// What is told of the child isn't asked again, nor what its own tolls cost its column.
    #[inline(always)]
    fn child_with(&self, node: &Node, k: usize, told: bool, child: &mut Node) -> Option<u64>
        requires child { HasChild (IsNodeOf self.now.exercise self.now.sheet node.now)
            (columns_in self.now.exercise) (width_at self.now.exercise) k }
        requires told { IsTrue told → IsTold self.now.exercise node.now k }
        ensures { IsMadeChild (IsNodeOf self.now.exercise self.now.sheet)
            (live_at self.now.exercise self.now.sheet) k node.now child.new result }
    {
        let (column, rest, own) = self.choice(node, k)?;
        let i = node.state.len();
        let idle = self.idle(i);
        if self.is_still(i) {
            return child_still(
                self.exercise,
                self.sheet,
                idle,
                told,
                node,
                k,
                column,
                rest,
                child,
            );
        }
        child_by(
            self.exercise,
            self.sheet,
            idle,
            told,
            Some(own),
            node,
            k,
            column,
            rest,
            child,
        )
    }
}

impl<'a> Space for SpeciesSpace<'a> {
    type Node = Node;

    ghost live = { λ space. live_at space.exercise space.sheet };

    ghost width = { λ space. width_at space.exercise };

    ghost height = { λ space. columns_in space.exercise };

    ghost is_at = { λ space. IsNodeOf space.exercise space.sheet };

    ghost is_told = { λ space. IsTold space.exercise };

    ghost floors_grow = { λ space. paths_grow space.exercise space.sheet };

    fn depth(&self) -> usize {
        8 * self.exercise.bars as usize
    }

    fn root(&self) -> Option<(Node, u64)> {
        let start = self.tables.start()?;
        let state = State::start(self.exercise);
        let least = least(self.exercise, self.sheet, &state);
        let root = Node {
            state,
            paid: 0,
            least,
            hint: 0,
        };
        Some((root, least + start))
    }

    fn count(&self, node: &Node) -> usize {
        self.tables.width(node.state.len())
    }

    fn child(&self, node: &Node, k: usize) -> Option<(Node, u64)> {
        let mut child = *node;
        let floor = self.child_with(node, k, false, &mut child)?;
        Some((child, floor))
    }

    fn child_into(&self, node: &Node, k: usize, child: &mut Node) -> Option<u64> {
        self.child_with(node, k, true, child)
    }

    fn remake(&self, node: &Node, k: usize, child: &mut Node) -> u64 {
        let Some((column, rest, own)) = self.choice(node, k) else {
            return 0;
        };
        if self.is_still(node.state.len()) {
            return child_still_again(self.exercise, self.sheet, node, k, column, rest, child);
        }
        child_again(self.exercise, self.sheet, own, node, k, column, rest, child)
    }

    fn is_last(&self, node: &Node, _k: usize) -> bool {
        self.menu(node.state.len()).is_of_holds()
    }

    fn next_child(&self, node: &Node, from: usize, best: Option<u64>) -> usize {
        let menu = self.menu(node.state.len());
        next_unpruned(
            self.exercise,
            self.sheet,
            &self.tables,
            node,
            &menu,
            from,
            best,
        )
    }
}

/// Its live paths are exactly the live prefixes of its exercise, with children in reading order,
/// and its leaves exactly the lawful settings, with their penalties by its sheet as values.
impl<'a> QuestSpace for SpeciesSpace<'a> {
    ghost use Rattle.std.specs.Prelude.{List};
    ghost use Rattle.fux_grid.specs.declared.cell.Cell.{Cell};
    ghost use Rattle.species_space.specs.Paths.{prefix_at};
    ghost use Rattle.species_space.specs.Trees.{settings};

    ghost Step = { List Cell };

    ghost quest = { λ space. settings space.exercise space.sheet };

    ghost there = { λ space. prefix_at space.exercise };

    fn is_tree(&self) {
        let _ = self.voices();
    }
}

impl<'a> MenuColumns for SpeciesSpace<'a> {
    ghost exercise = { λ space. space.exercise };

    fn voices(&self) -> u8 {
        self.exercise.voices
    }

    fn column(&self, i: usize, k: usize) -> &Column {
        self.tables.column(i, k)
    }
}

/// The blocks of a place's menu, which are those of the place before where the menu is kept once
/// for both.
fn blocks_at(tables: &Tables<'_>, menus: &[BlockMenu], i: usize) -> Blocks
    requires place { i < columns_in tables.now.exercise }
    requires narrow { AreNarrow tables.now.exercise }
    requires next { i ≡ length menus.now }
    requires kept { AreMenus tables.now.exercise menus.now }
    ensures { AreBlocksOf (menu_of tables.now.exercise i) result }
{
    if i > 0 && tables.has_same_menu(i - 1, i) {
        return menus[i - 1].blocks;
    }
    Blocks::new(tables.columns(i))
}

/// Whether nothing can begin at a place, where it is told whether each cell of its menu is a hold.
fn is_still_place(exercise: &Exercise, i: usize, held: bool) -> bool
    requires valid { IsValid exercise.now }
    requires place { i < columns_in exercise.now }
    requires held { IsTrue held → All IsOnlyHolds (menu_of exercise.now i) }
    ensures { IsTrue result → IsStillPlace exercise.now i }
{
    if begins_bar(i) {
        return false;
    }
    if !held {
        return false;
    }
    do_shapes_hold(exercise, i)
}

/// What is known of the menus of all columns.
fn menus_of(
    alloc: Global,
    exercise: &Exercise,
    tables: &Tables<'_>,
) -> Result<Vec<BlockMenu>, Memory>
    requires valid { IsValid exercise.now }
    requires narrow { AreNarrow exercise.now }
    requires tables { tables.now.exercise ≡ exercise.now }
    ensures { IfOk result (λ menus. IsReady exercise.now menus.items) }
{
    let columns = 8 * exercise.bars as usize;
    let mut menus = Vec::with_capacity(alloc, columns)?;
    for i in 0..columns {
        let blocks = blocks_at(tables, &menus, i);
        let undead = undead_numbers(alloc, exercise, i, tables.columns(i))?;
        let idle = idle_rules(exercise, i);
        let still = is_still_place(exercise, i, blocks.only_holds);
        menus.push_reserved(BlockMenu {
            blocks,
            undead,
            idle,
            still,
        });
    }
    Ok(menus)
}

/// Whether a column follows the last one of a node's prefix, which isn't asked where it is told.
#[inline]
fn follows(exercise: &Exercise, told: bool, node: &Node, column: &Column) -> bool
    requires few { exercise.now.voices ≤ 4 }
    requires told { IsTrue told → FollowsBehind exercise.now node.now column.now.items }
    ensures follows { IsTrue result → FollowsBehind exercise.now node.now column.now.items }
    ensures strays { (p : Columns) → IsStateOf exercise.now p node.now.state → OnFalse result
        (ColumnFollows (newest_column (reverse p)) column.now.items → ⊥) }
{
    if told {
        return true;
    }
    let before = node.state.before(exercise);
    cells_follow(before, column.as_slice())
}

/// The floor of the child of this number and column, where the column follows and settles no strict
/// break: what is to come behind it costs `rest` at least. Late rules of which it is known to
/// settle none there aren't asked, nor what is told of the child, nor what its own tolls cost the
/// column, where it is known. The child is written into the place that is given.
#[inline(always)]
pub(crate) fn child_by(
    exercise: &Exercise,
    sheet: &Sheet,
    idle: RuleSet,
    told: bool,
    own: Option<u64>,
    node: &Node,
    k: usize,
    column: &Column,
    rest: u64,
    child: &mut Node,
) -> Option<u64>
    requires valid { IsValid exercise.now }
    requires child { HasChild (IsNodeOf exercise.now sheet.now node.now) (columns_in exercise.now)
        (width_at exercise.now) k }
    requires idle { SettleNothing exercise.now node.now.state.newest.len idle.bits }
    requires told { IsTrue told → IsTold exercise.now node.now k }
    requires own { IfSome own
        (IsOwnCost exercise.now sheet.now node.now.state.newest.len column.now.items) }
    requires column { column.now.items
        ≡ slice_index_or (menu_of exercise.now node.now.state.newest.len) k [] }
    requires small { rest ≤ 2 ^ 61 }
    ensures { (chained : Bool) →
        IsRestWith chained exercise.now sheet.now node.now.state.newest.len column.now.items rest →
        IsMadeChild (IsNodeOf exercise.now sheet.now) (live_with chained exercise.now sheet.now) k
        node.now child.new result }
{
    if !follows(exercise, told, node, column) {
        return None;
    }
    let next = &mut child.state;
    let Some(price) = step_unbroken(exercise, sheet, idle, told, own, &node.state, column, next)
    else {
        return None;
    };
    child.paid = node.paid + price.paid;
    child.least = price.least;
    child.hint = k;
    Some(child.paid + child.least + rest)
}

/// The same at a place at which nothing can begin: there late rules and Q16 alone speak of a column,
/// and the lines cost at least what they did.
#[inline(always)]
fn child_still(
    exercise: &Exercise,
    sheet: &Sheet,
    idle: RuleSet,
    told: bool,
    node: &Node,
    k: usize,
    column: &Column,
    rest: u64,
    child: &mut Node,
) -> Option<u64>
    requires valid { IsValid exercise.now }
    requires child { HasChild (IsNodeOf exercise.now sheet.now node.now) (columns_in exercise.now)
        (width_at exercise.now) k }
    requires idle { SettleNothing exercise.now node.now.state.newest.len idle.bits }
    requires told { IsTrue told → IsTold exercise.now node.now k }
    requires still { IsStillPlace exercise.now node.now.state.newest.len }
    requires column { column.now.items
        ≡ slice_index_or (menu_of exercise.now node.now.state.newest.len) k [] }
    requires small { rest ≤ 2 ^ 61 }
    ensures { (chained : Bool) →
        IsRestWith chained exercise.now sheet.now node.now.state.newest.len column.now.items rest →
        IsMadeChild (IsNodeOf exercise.now sheet.now) (live_with chained exercise.now sheet.now) k
        node.now child.new result }
{
    if !follows(exercise, told, node, column) {
        return None;
    }
    let next = &mut child.state;
    let Some(paid) = step_still(exercise, sheet, idle, &node.state, column, next) else {
        return None;
    };
    child.paid = node.paid + paid;
    child.least = node.least;
    child.hint = k;
    Some(child.paid + child.least + rest)
}

/// The floor of the child of this number and column, which is known to be live: nothing is asked
/// for breaks, nor what its own tolls cost the column. The child is written into the place that is
/// given.
fn child_again(
    exercise: &Exercise,
    sheet: &Sheet,
    own: u64,
    node: &Node,
    k: usize,
    column: &Column,
    rest: u64,
    child: &mut Node,
) -> u64
    requires valid { IsValid exercise.now }
    requires child { HasLiveChild (IsNodeOf exercise.now sheet.now node.now)
        (live_at exercise.now sheet.now) k }
    requires column { column.now.items
        ≡ slice_index_or (menu_of exercise.now node.now.state.newest.len) k [] }
    requires own { IsOwnCost exercise.now sheet.now node.now.state.newest.len column.now.items own }
    requires rest { IsRest exercise.now sheet.now node.now.state.newest.len column.now.items
        (Some rest) }
    requires small { rest ≤ 2 ^ 61 }
    ensures { IsMadeAgain (IsNodeOf exercise.now sheet.now) (live_at exercise.now sheet.now) k
        node.now child.new result }
{
    let Price { paid, least } = step_again(
        exercise,
        sheet,
        own,
        &node.state,
        column,
        &mut child.state,
    );
    child.paid = node.paid + paid;
    child.least = least;
    child.hint = k;
    child.paid + least + rest
}

/// The same at a place at which nothing can begin.
fn child_still_again(
    exercise: &Exercise,
    sheet: &Sheet,
    node: &Node,
    k: usize,
    column: &Column,
    rest: u64,
    child: &mut Node,
) -> u64
    requires valid { IsValid exercise.now }
    requires child { HasLiveChild (IsNodeOf exercise.now sheet.now node.now)
        (live_at exercise.now sheet.now) k }
    requires still { IsStillPlace exercise.now node.now.state.newest.len }
    requires column { column.now.items
        ≡ slice_index_or (menu_of exercise.now node.now.state.newest.len) k [] }
    requires rest { IsRest exercise.now sheet.now node.now.state.newest.len column.now.items
        (Some rest) }
    requires small { rest ≤ 2 ^ 61 }
    ensures { IsMadeAgain (IsNodeOf exercise.now sheet.now) (live_at exercise.now sheet.now) k
        node.now child.new result }
{
    let paid = again_still(exercise, sheet, &node.state, column, &mut child.state);
    child.paid = node.paid + paid;
    child.least = node.least;
    child.hint = k;
    child.paid + child.least + rest
}

/// Whether a column of a menu is dead after every prefix. Where none is, all are sound.
fn some_are_dead(exercise: &Exercise, i: usize, columns: &[Column]) -> bool
    requires valid { IsValid exercise.now }
    requires place { i < columns_in exercise.now }
    ensures { OnFalse result (AreSound exercise.now i (items_of columns.now)) }
{
    for k in 0..columns.len() {
        if is_always_dead(exercise, i, column_at(columns, k)) {
            return true;
        }
    }
    false
}

/// For each column of a menu the number of the first one, from it on, that isn't dead after every
/// prefix, and so is sound; the menu's length where there is none. Where no column is dead they are
/// all left out.
pub fn undead_numbers(
    alloc: Global,
    exercise: &Exercise,
    i: usize,
    columns: &[Column],
) -> Result<Vec<u16>, Memory>
    requires valid { IsValid exercise.now }
    requires place { i < columns_in exercise.now }
    requires few { length columns.now ≤ 8192 }
    ensures { IfOk result (λ numbers. AreUndead exercise.now i (items_of columns.now)
        numbers.items) }
{
    if !some_are_dead(exercise, i, columns) {
        return Ok(Vec::new(alloc));
    }
    let mut numbers = Vec::with_capacity(alloc, columns.len())?;
    for k in 0..columns.len() {
        if !is_always_dead(exercise, i, column_at(columns, k)) {
            numbers.resize(k + 1, k as u16)?;
        }
    }
    numbers.resize(columns.len(), columns.len() as u16)?;
    Ok(numbers)
}

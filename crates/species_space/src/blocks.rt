//! Menus in blocks, over which voices keep their cells, so that a search passes over many columns
//! at once.

ghost use Rattle.std.specs.Prelude.{◌≡◌, ◌<◌, ◌≤◌, ◌↔◌, ℕ, [], All, IfNone, IfSome, IsTrue, false, length, slice_index_or};
ghost use Rattle.fux_grid.specs.Cells.{cell_follows, cell_in};
ghost use Rattle.fux_grid.specs.Columns.{ColumnFollows};
ghost use Rattle.fux_grid.specs.Grid.{items_of};
ghost use Rattle.fux_grid.specs.Menus.{IsAscending};
ghost use Rattle.rule_law.specs.Bars.{begins_bar};
ghost use Rattle.species_space.specs.Blocks.{Agree, AreAlike, AreBlocksOf, AreHeldFirst, ArePassedOver, AreStrays, HasOneWidth, IsNumberAt, IsBlockEnd, IsCut, IsHeldNext, IsNext, IsOnlyHolds, IsWithoutHolds, KeepsCell, columns_seen, same_cell};

use fux_grid::{Cell, Column, cell_of, cells_follow};
use rule_law::{RuleSet, begins_bar, starts};

/// How a menu is cut into blocks of equal length, for each voice into blocks of its own, over each
/// of which the voice keeps its cell.
#[derive(Clone, Copy)]
pub struct Blocks {
    /// How long the blocks of each voice are.
    lengths: [u16; 4],
    /// Whether each cell of each column is a hold.
    pub(crate) only_holds: bool,
    /// Whether no cell of any column is a hold.
    without_holds: bool,
    /// How many columns at the beginning of the menu have holds alone.
    held: u16,
}

/// What is known of a menu beside its columns.
#[derive(Drop)]
pub(crate) struct BlockMenu {
    pub(crate) blocks: Blocks,
    /// For each column the number of the first one, from it on, that isn't dead after every prefix.
    /// A column that has none here is its own.
    pub(crate) undead: Vec<u16>,
    /// Late rules of which the column of its place settles no strict break.
    pub(crate) idle: RuleSet,
    /// Whether nothing can begin at its place.
    pub(crate) still: bool,
}

/// The columns of a menu, as the tables keep them, with what is known of them.
#[derive(Clone, Copy)]
pub struct MenuView<'a> {
    pub columns: &'a [Column],
    pub blocks: &'a Blocks,
    pub undead: &'a [u16],
}

impl Blocks {
    /// The blocks of a menu, as they are found in one pass for each voice.
    pub fn new(columns: &[Column]) -> Blocks
        requires few { length columns.now ≤ 8192 }
        requires order { IsAscending (items_of columns.now) }
        requires full { HasOneWidth (items_of columns.now) }
        ensures { AreBlocksOf (items_of columns.now) result }
    {
        Blocks {
            lengths: [
                block_length(columns, 0),
                block_length(columns, 1),
                block_length(columns, 2),
                block_length(columns, 3),
            ],
            only_holds: are_holds(columns),
            without_holds: are_without_holds(columns),
            held: held_first(columns),
        }
    }
}

impl<'a> MenuView<'a> {
    /// How many columns there are.
    #[inline]
    pub fn len(&self) -> usize
        ensures { result ≡ length (columns_seen self.now) }
    {
        self.columns.len()
    }

    /// The first column, from this number on, that may follow; the menu's length where there is
    /// none. Where nothing is held all may follow. Behind the columns of holds that begin the menu
    /// the column of this number mostly does, and then no more is asked.
    #[inline(always)]
    pub fn next_that_follows(&self, before: &[Cell], from: usize, hint: usize) -> usize
        requires cut { IsCut self.now }
        requires within { from ≤ length (columns_seen self.now) }
        ensures { IsNext (columns_seen self.now) before.now from result }
    {
        if self.blocks.without_holds {
            return from;
        }
        let held = self.blocks.held as usize;
        if from < held {
            return self.next_by_hint(before, from, hint);
        }
        if self.follows_at(before, from) {
            return from;
        }
        self.next_in_blocks(before, from)
    }

    /// Whether there is a column of this number, and it may follow.
    #[inline(always)]
    fn follows_at(&self, before: &[Cell], k: usize) -> bool
        ensures { IsTrue result → ColumnFollows before.now
            (slice_index_or (columns_seen self.now) k []) }
    {
        if k >= self.len() {
            return false;
        }
        self.may_follow(before, k)
    }

    /// The same as `next_that_follows`, from a column of holds that begins the menu: of these at
    /// most one may follow, and the hint is tried first.
    fn next_by_hint(&self, before: &[Cell], from: usize, hint: usize) -> usize
        requires cut { IsCut self.now }
        requires within { from ≤ length (columns_seen self.now) }
        ensures { IsNext (columns_seen self.now) before.now from result }
    {
        if !self.is_held(before, hint) {
            let start = self.past_holds(before, from, hint);
            return self.next_in_blocks(before, start);
        }
        if from > hint {
            return self.len();
        }
        hint
    }

    /// The number of the column of holds that goes on with what a column of the menu before sounds,
    /// where that menu has the same pitches, and its columns of holds come first: a guess.
    #[inline]
    pub(crate) fn guess(&self, number: usize) -> usize {
        let held = self.blocks.held as usize;
        if number < held { number } else { number - held }
    }

    /// Whether the column of a number may follow.
    #[inline]
    fn may_follow(&self, before: &[Cell], k: usize) -> bool
        requires { k < length (columns_seen self.now) }
        ensures { IsTrue result → ColumnFollows before.now
            (slice_index_or (columns_seen self.now) k []) }
    {
        cells_follow(before, self.column(k).as_slice())
    }

    /// A number from this one on before which no column may follow: of the columns of holds that
    /// begin the menu at most one may, the hint's where it does.
    fn past_holds(&self, before: &[Cell], from: usize, hint: usize) -> usize
        requires cut { IsCut self.now }
        requires within { from ≤ length (columns_seen self.now) }
        ensures onward { from ≤ result }
        ensures within { result ≤ length (columns_seen self.now) }
        ensures passed { ArePassedOver (columns_seen self.now) before.now from result }
    {
        let held = (self.blocks.held as usize).min(self.len());
        if from >= held {
            return from;
        }
        if hint >= held {
            return from;
        }
        if !self.may_follow(before, hint) {
            return from;
        }
        if from <= hint {
            return hint;
        }
        held
    }

    /// The number of the first column, from this one on, that isn't dead after every prefix.
    #[inline]
    pub(crate) fn undead_from(&self, k: usize) -> usize
        ensures later { k < result → IsNumberAt self.now.undead.now k result }
        ensures here { k < length self.now.undead.now → slice_index_or self.now.undead.now k 0
            ≡ result }
    {
        if k < self.undead.len() {
            self.undead[k] as usize
        } else {
            k
        }
    }

    /// The column of a number.
    #[inline]
    pub fn column(&self, k: usize) -> &Column
        requires { k < length (columns_seen self.now) }
        ensures { result.now.items ≡ slice_index_or (columns_seen self.now) k [] }
    {
        column_at(self.columns, k)
    }

    /// Whether the highest of so many of the lowest voices keeps its cell over one column alone:
    /// then no other column is known to have the cells of these voices.
    #[inline]
    fn changes_always(&self, voices: usize) -> bool
        requires { voices ≤ 4 }
        ensures { IsTrue result → 1 ≤ voices }
    {
        if voices == 0 {
            return false;
        }
        self.blocks.lengths[voices - 1] == 1
    }

    /// How far the columns from this number on are known to have its cells in so many of the lowest
    /// voices: the first number behind them.
    pub fn end_of_agreement(&self, k: usize, voices: usize) -> usize
        requires cut { IsCut self.now }
        requires within { k < length (columns_seen self.now) }
        requires voices { voices ≤ 4 }
        ensures { Agree (columns_seen self.now) voices k result }
    {
        if self.changes_always(voices) {
            return k + 1;
        }
        let mut end = self.len();
        for v in 0..voices {
            let block = block_end(k, self.blocks.lengths[v]);
            if block < end {
                end = block;
            }
        }
        end
    }

    /// Whether there is a column of this number in which a voice but the highest starts a note.
    /// Only then does it spare a question to know that the lowest voices have been asked already.
    #[inline(always)]
    fn has_lower_start(&self, k: usize) -> bool {
        if k >= self.columns.len() {
            return false;
        }
        let cells = column_at(self.columns, k).as_slice();
        for v in 0..cells.len().saturating_sub(1) {
            if starts(cell_of(cells, v)) {
                return true;
            }
        }
        false
    }

    /// In how many of the lowest voices two columns are known to have the same cells; no more voices
    /// than so many are compared, and none where the second starts no note in them but the highest.
    #[inline]
    pub fn lowest_alike(&self, j: usize, k: usize, most: usize) -> usize
        ensures few { result ≤ most }
        ensures alike { AreAlike result (slice_index_or (columns_seen self.now) j [])
            (slice_index_or (columns_seen self.now) k []) }
    {
        if !self.has_lower_start(k) {
            return 0;
        }
        if j >= self.columns.len() || k >= self.columns.len() {
            return 0;
        }
        for v in 0..column_at(self.columns, j).len().min(most) {
            if !same_cell(cell_at(self.columns, j, v), cell_at(self.columns, k, v)) {
                return v;
            }
        }
        most
    }

    /// Whether each cell of each column is a hold: then at most one column may follow.
    #[inline]
    pub(crate) fn is_of_holds(&self) -> bool
        ensures { result ≡ self.now.blocks.now.only_holds }
    {
        self.blocks.only_holds
    }

    /// Whether this column, in a menu of holds, may follow at column `i`, where no bar begins.
    #[inline]
    pub(crate) fn goes_on(&self, i: usize, before: &[Cell], k: usize) -> bool
        ensures held { IsTrue result → IsHeldNext self.now before.now k }
        ensures inner { IsTrue result → begins_bar i ≡ false }
    {
        if begins_bar(i) {
            return false;
        }
        self.is_held(before, k)
    }

    /// Whether this column, in a menu of holds, may follow.
    fn is_held(&self, before: &[Cell], k: usize) -> bool
        ensures { IsTrue result → IsHeldNext self.now before.now k }
    {
        if !self.blocks.only_holds || k >= self.len() {
            return false;
        }
        cells_follow(before, self.column(k).as_slice())
    }

    /// The number behind a column in which the cell of a voice doesn't follow, and behind the blocks
    /// of the voice that come after it and in which it doesn't either: no other voice is asked there.
    fn behind_misfit(&self, before: &[Cell], v: usize, k: usize) -> usize
        requires cut { IsCut self.now }
        requires within { k < length (columns_seen self.now) }
        requires voice { v < 4 }
        requires misses { cell_follows (cell_in before.now v)
            (cell_in (slice_index_or (columns_seen self.now) k []) v) ≡ false }
        ensures onward { k < result }
        ensures passed { AreStrays (columns_seen self.now) before.now k result }
    {
        let cell = cell_of(before, v);
        let mut end = block_end(k, self.blocks.lengths[v]);
        while end < self.len() {
            if cell_of(self.column(end).as_slice(), v).follows(cell) {
                return end;
            }
            end = block_end(end, self.blocks.lengths[v]);
        }
        end
    }

    /// The same as `next_that_follows`, by blocks: where the cell of a voice doesn't follow, it
    /// follows nowhere in its block.
    fn next_in_blocks(&self, before: &[Cell], from: usize) -> usize
        requires cut { IsCut self.now }
        requires within { from ≤ length (columns_seen self.now) }
        ensures { IsNext (columns_seen self.now) before.now from result }
    {
        let mut k = from;
        while k < self.len() {
            match misfit(before, self.column(k)) {
                None => return k,
                Some(v) => k = self.behind_misfit(before, v, k),
            }
        }
        self.len()
    }
}

/// The column of a number.
#[inline]
pub(crate) fn column_at(columns: &[Column], k: usize) -> &Column
    requires { k < length columns.now }
    ensures { result.now.items ≡ slice_index_or (items_of columns.now) k [] }
{
    &columns[k]
}

/// The lowest voice whose cell may not follow.
#[inline]
fn misfit(before: &[Cell], column: &Column) -> Option<usize>
    ensures fits { IfNone result (ColumnFollows before.now column.now.items) }
    ensures voice { IfSome result (λ v. v < 4) }
    ensures misses { IfSome result (λ v. cell_follows (cell_in before.now v) (cell_in column.now.items v)
        ≡ false) }
{
    for v in 0..column.len() {
        if !cell_of(column.as_slice(), v).follows(cell_of(before, v)) {
            return Some(v);
        }
    }
    None
}

/// The number after the block of this length that a column is in. Most blocks that are asked for
/// are of one column, which takes no division.
#[inline]
fn block_end(k: usize, length: u16) -> usize
    requires some { 1 ≤ length }
    requires few { k < 8192 }
    ensures { IsBlockEnd k length result }
{
    if length == 1 {
        return k + 1;
    }
    let length = length as usize;
    k / length * length + length
}

/// Whether two cells are the same.
#[inline]
fn same_cell(c: Cell, d: Cell) -> bool
    ensures { result ≡ same_cell c d }
{
    match (c, d) {
        (Cell::Rest, Cell::Rest) => true,
        (Cell::Hold(p), Cell::Hold(q)) => p == q,
        (Cell::Start(p), Cell::Start(q)) => p == q,
        _ => false,
    }
}

/// The cell of a voice in the column of a number.
#[inline]
fn cell_at(columns: &[Column], k: usize, v: usize) -> Cell
    requires { k < length columns.now }
    ensures { result ≡ cell_in (slice_index_or (items_of columns.now) k []) v }
{
    cell_of(column_at(columns, k).as_slice(), v)
}

/// How many columns begin the menu with one cell of a voice.
fn first_run(columns: &[Column], v: usize) -> usize
    requires { length columns.now ≤ 8192 }
    ensures some { 1 ≤ result }
    ensures few { result ≤ 8192 }
{
    for k in 1..columns.len() {
        if !same_cell(cell_at(columns, k, v), cell_at(columns, 0, v)) {
            return k;
        }
    }
    columns.len().max(1)
}

/// Whether a voice keeps its cell over each block of a length.
fn keeps_cell(columns: &[Column], v: usize, length: usize) -> bool
    requires { 1 ≤ length }
    ensures { IsTrue result → KeepsCell (items_of columns.now) v length }
{
    for k in 0..columns.len() {
        if !same_cell(
            cell_at(columns, k, v),
            cell_at(columns, k / length * length, v),
        ) {
            return false;
        }
    }
    true
}

/// How long the blocks are over which a voice keeps its cell: as long as the first, or one column
/// where not all are so long.
fn block_length(columns: &[Column], v: usize) -> u16
    requires { length columns.now ≤ 8192 }
    ensures some { 1 ≤ result }
    ensures kept { KeepsCell (items_of columns.now) v result }
{
    let length = first_run(columns, v);
    if !keeps_cell(columns, v, length) {
        return 1;
    }
    length as u16
}

/// Whether each cell of a column is a hold.
fn is_held_column(column: &[Cell]) -> bool
    ensures { IsTrue result ↔ IsOnlyHolds column.now }
{
    column.iter().all(|cell| cell.is_hold())
}

/// Whether each cell of each column is a hold.
fn are_holds(columns: &[Column]) -> bool
    ensures { IsTrue result ↔ All (λ column. IsOnlyHolds column.items) columns.now }
{
    columns
        .iter()
        .all(|column| is_held_column(column.as_slice()))
}

/// How many columns begin a menu with holds alone.
fn held_first(columns: &[Column]) -> u16
    requires { length columns.now ≤ 8192 }
    ensures { AreHeldFirst (items_of columns.now) result }
{
    for k in 0..columns.len() {
        if !is_held_column(column_at(columns, k).as_slice()) {
            return k as u16;
        }
    }
    columns.len() as u16
}

/// Whether no cell of a column is a hold.
fn is_without_holds(column: &[Cell]) -> bool
    ensures { IsTrue result ↔ IsWithoutHolds column.now }
{
    column.iter().all(|cell| !cell.is_hold())
}

/// Whether no cell of any column is a hold.
fn are_without_holds(columns: &[Column]) -> bool
    ensures { IsTrue result ↔ All (λ column. IsWithoutHolds column.items) columns.now }
{
    columns
        .iter()
        .all(|column| is_without_holds(column.as_slice()))
}

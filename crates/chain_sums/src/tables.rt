//! Tables of least sums over chains.

ghost use Rattle.std.specs.Prelude.{◌≡◌, ◌<◌, ◌≤◌, ◌+◌, ◌-◌, ℕ, List, [], ◌*◌, ◌^◌, Some, length, suc, replicate, IfOk, IfErr, IfSome, OnOk, OnErr, IsSomeAnd, slice_index_or};
ghost use Rattle.std.specs.Bool.{OnTrue};
ghost use Rattle.fux_grid.specs.Grid.{items_of};
ghost use Rattle.chain_sums.specs.Chains.{AreFull, Chains, IsLeast};
ghost use Rattle.chain_sums.specs.Menus.{HaveSameColumns, IsMenuOf, IsPacked};
ghost use Rattle.chain_sums.specs.Rows.{AllAtMost, AreOneCostAbove, IsAtMost, IsRow};
ghost use Rattle.chain_sums.specs.Still.{GoesOnFreely};
ghost use Rattle.chain_sums.specs.Tables.{AreNarrow, AreRows, AreSameRows, AreTablesOf, HaveRowAt, HaveSameMenu, IsMenuAt, IsNumberFor, IsRestAt, IsLatestRow, IsNumbered, IsRestBehind, IsRowNumberOf, IsRowOfPlace, TellsWidth};

use crate::candidates::candidates;
use crate::choices::Choices;
use crate::finished::Finished;
use crate::fresh::are_fresh;
use crate::gate::Gate;
use crate::least::least_behind;
use crate::links::Links;
use crate::menu::Menu;
use crate::moves::Moves;
use crate::pieces::{Cut, row_by_pieces};
use crate::still::is_still;
use fux_grid::{Column, Place, WIDEST, place_of};
use fux_pitch::Memory;
use std::alloc::Global;
use std::thread::Threads;

/// Why there are no tables.
#[derive(Clone, Copy, Debug, PartialEq, Eq)]
pub enum TableFault {
    /// A menu has more than 8,192 columns: the first such place, and how many it has.
    TooWide { place: Place, count: u64 },
    Memory,
}

/// The least sums of a place, or of several that have the same ones.
#[derive(Drop)]
struct Row {
    /// The number of the place's menu.
    menu: usize,
    /// For each column of the menu the least sum over the chains behind it.
    sums: Vec<Option<u64>>,
}

/// For each place and each column of its menu the least sum over the chains behind it, and the
/// least sum over all chains.
#[derive(Drop)]
pub struct Tables {
    menus: Vec<Menu>,
    rows: Vec<Row>,
    /// The number of each place's row. That of the last place comes first.
    places: Vec<usize>,
    start: Option<u64>,
}

/// Finds the first menu that is too wide.
fn check_widths<L: Links>(links: &L) -> Result<(), TableFault>
    ensures narrow { OnOk result (AreNarrow (L.chains links.now)) }
    ensures wide { IfErr result (TellsWidth (L.chains links.now)) }
{
    for i in 0..links.places() {
        let count = links.width(i);
        if count > WIDEST {
            return Err(TableFault::TooWide {
                place: place_of(i),
                count,
            });
        }
    }
    Ok(())
}

/// The least sums behind the columns of a menu, that of place `i`, from the menu and the sums of
/// the next place.
fn sums_before<R: Threads + Sync, L: Links + Sync, G: Gate>(
    cut: &Cut<'_, R, G>,
    alloc: Global,
    links: &L,
    i: usize,
    menu: &Menu,
    next: &Menu,
    sums: &[Option<u64>],
) -> Result<Vec<Option<u64>>, Memory>
    requires place { i + 1 < (L.chains links.now).places }
    requires short { i < 192 }
    requires menu { IsMenuOf ((L.chains links.now).menu i) menu.now }
    requires next { IsMenuOf ((L.chains links.now).menu (i + 1)) next.now }
    requires full { AreFull (L.chains links.now).voices ((L.chains links.now).menu i) }
    requires packed { IsPacked (L.chains links.now).voices next.now }
    requires row { IsRow (L.chains links.now) (i + 1) sums.now }
    requires small { AllAtMost (2 ^ 62) sums.now }
    ensures row { IfOk result (λ row. IsRow (L.chains links.now) i row.items) }
    ensures small { IfOk result (λ row. AreOneCostAbove sums.now row.items) }
{
    if is_still(next) {
        return row_by_pieces(cut, alloc, links, i, menu, &Finished::Still(next, sums));
    }
    let candidates = candidates(alloc, links, i + 1, next, sums)?;
    let moves = Moves::new(alloc, links, i + 1, next)?;
    let choices = Choices {
        menu: next,
        sums,
        candidates: &candidates,
        moves: &moves,
        always: are_fresh(next),
    };
    row_by_pieces(cut, alloc, links, i, menu, &Finished::Tried(choices))
}

/// The least sums behind the columns of the last place's menu.
fn sums_at_end(alloc: Global, width: usize) -> Result<Vec<Option<u64>>, Memory>
    ensures { IfOk result (λ row. row.items ≡ replicate width (Some 0)) }
{
    Ok(vec![in alloc; Some(0); width]?)
}

/// The same, as the row of place `i`, the last one.
fn last_row<L: Links>(
    alloc: Global,
    _links: &L,
    _i: usize,
    menu: &Menu,
) -> Result<Vec<Option<u64>>, Memory>
    requires place { _i + 1 ≡ (L.chains _links.now).places }
    requires menu { IsMenuOf ((L.chains _links.now).menu _i) menu.now }
    ensures row { IfOk result (λ row. IsRow (L.chains _links.now) _i row.items) }
    ensures small { IfOk result (λ row. AllAtMost 0 row.items) }
{
    sums_at_end(alloc, menu.len())
}

/// The least sums of place `i`, the last one that has no row yet.
fn sums_of<R: Threads + Sync, L: Links + Sync, G: Gate>(
    cut: &Cut<'_, R, G>,
    alloc: Global,
    links: &L,
    i: usize,
    menu: &Menu,
    tables: &Tables,
) -> Result<Vec<Option<u64>>, Memory>
    requires place { i + 1 + length tables.now.places.items ≡ (L.chains links.now).places }
    requires short { (L.chains links.now).places ≤ 192 }
    requires menu { IsMenuOf ((L.chains links.now).menu i) menu.now }
    requires full { AreFull (L.chains links.now).voices ((L.chains links.now).menu i) }
    requires rows { AreRows (L.chains links.now) tables.now.menus.items tables.now.rows.items
        tables.now.places.items }
    ensures row { IfOk result (λ row. IsRow (L.chains links.now) i row.items) }
    ensures small { IfOk result (λ row. AllAtMost (length tables.now.places.items * 2 ^ 53)
        row.items) }
{
    let Some(next) = tables.latest() else {
        return last_row(alloc, links, i, menu);
    };
    sums_before(
        cut,
        alloc,
        links,
        i,
        menu,
        &tables.menus[next.menu],
        &next.sums,
    )
}

/// Whether place `i` is known to have the menu of the next place, where each column holds all it
/// sounds, and costs nothing.
fn goes_on_freely<L: Links>(links: &L, i: usize, next: &Menu) -> bool
    requires place { i + 1 < (L.chains links.now).places }
    requires short { i < 192 }
    requires next { IsMenuOf ((L.chains links.now).menu (i + 1)) next.now }
    ensures { OnTrue result (GoesOnFreely (L.chains links.now) i) }
{
    links.has_same_menu(i, i + 1) && links.holds_freely(i + 1) && is_still(next)
}

/// The number of a menu that has the same columns as this one.
fn number_of_same(menus: &[Menu], menu: &Menu) -> Option<usize>
    ensures within { IfSome result (λ number. number < length menus.now) }
    ensures same { IfSome result (λ number. HaveSameColumns (slice_index_or menus.now number menu.now)
        menu.now) }
{
    for number in 0..menus.len() {
        if menus[number].has_columns_of(menu) {
            return Some(number);
        }
    }
    None
}

/// The number of a menu's columns. A menu is put behind the others only where none of them has the
/// same ones.
fn number_of(menus: &mut Vec<Menu>, menu: Menu) -> Result<usize, Memory>
    ensures { IfOk result (IsNumberFor menus.old.items menus.new.items menu) }
{
    if let Some(number) = number_of_same(menus, &menu) {
        return Ok(number);
    }
    let number = menus.len();
    menus.push(menu)?;
    Ok(number)
}

/// Whether two rows are the same.
fn are_same_rows(row: &Row, other: &Row) -> bool
    ensures { OnTrue result (AreSameRows row.now other.now) }
{
    row.menu == other.menu && row.sums.as_slice() == other.sums.as_slice()
}

/// The number of a row. It is put behind the others unless it is the last one over again.
fn number_of_row(rows: &mut Vec<Row>, row: Row) -> Result<usize, Memory>
    ensures { IfOk result (HaveRowAt rows.old.items rows.new.items row) }
{
    let count = rows.len();
    if count > 0 && are_same_rows(&rows[count - 1], &row) {
        return Ok(count - 1);
    }
    rows.push(row)?;
    Ok(count)
}

impl Tables {
    /// The row of a number.
    #[inline]
    fn numbered(&self, number: usize) -> Option<&Row>
        ensures { IsNumbered self.now.rows.items number result }
    {
        if number < self.rows.len() {
            Some(&self.rows[number])
        } else {
            None
        }
    }

    /// The row of the first place that has one; none only where no place has one.
    fn latest(&self) -> Option<&Row>
        ensures { IsLatestRow self.now result }
    {
        let count = self.places.len();
        if count == 0 {
            return None;
        }
        self.numbered(self.places[count - 1])
    }

    /// The row of place `i`.
    #[inline]
    fn row_of(&self, i: usize) -> Option<&Row>
        ensures { IsRowOfPlace self.now i result }
    {
        if i >= self.places.len() {
            return None;
        }
        self.numbered(self.places[self.places.len() - 1 - i])
    }

    /// The number of the menu of place `i`, where the place after has a row and is known to have
    /// the same menu.
    fn number_of_next<L: Links>(&self, links: &L, i: usize) -> Option<usize>
        requires place { i + 1 + length self.now.places.items ≡ (L.chains links.now).places }
        requires short { (L.chains links.now).places ≤ 192 }
        requires rows { AreRows (L.chains links.now) self.now.menus.items self.now.rows.items
            self.now.places.items }
        ensures { IfSome result (IsMenuAt (L.chains links.now) i self.now.menus.items) }
    {
        let next = self.latest()?;
        if links.has_same_menu(i, i + 1) {
            Some(next.menu)
        } else {
            None
        }
    }

    /// The number of the menu of place `i`, the last one that has no row yet.
    fn number_of_menu<L: Links>(
        &mut self,
        alloc: Global,
        links: &L,
        i: usize,
    ) -> Result<usize, Memory>
        requires place { i + 1 + length self.old.places.items ≡ (L.chains links.now).places }
        requires short { (L.chains links.now).places ≤ 192 }
        requires rows { AreRows (L.chains links.now) self.old.menus.items self.old.rows.items
            self.old.places.items }
        ensures rows { OnOk result (AreRows (L.chains links.now) self.new.menus.items
            self.new.rows.items self.new.places.items) }
        ensures places { self.new.places.items ≡ self.old.places.items }
        ensures number { IfOk result (IsMenuAt (L.chains links.now) i self.new.menus.items) }
    {
        if let Some(number) = self.number_of_next(links, i) {
            return Ok(number);
        }
        let columns = links.menu(alloc, i)?;
        let menu = Menu::new(alloc, links.voices(), columns)?;
        number_of(&mut self.menus, menu)
    }

    /// Computes the row of place `i`, the last one that has none yet, and adds it.
    fn compute_row<R: Threads + Sync, L: Links + Sync, G: Gate>(
        &mut self,
        cut: &Cut<'_, R, G>,
        alloc: Global,
        links: &L,
        i: usize,
    ) -> Result<(), Memory>
        requires place { i + 1 + length self.old.places.items ≡ (L.chains links.now).places }
        requires short { (L.chains links.now).places ≤ 192 }
        requires rows { AreRows (L.chains links.now) self.old.menus.items self.old.rows.items
            self.old.places.items }
        ensures rows { OnOk result (AreRows (L.chains links.now) self.new.menus.items
            self.new.rows.items self.new.places.items) }
        ensures longer { OnOk result (length self.new.places.items ≡ length self.old.places.items
            + 1) }
    {
        let number = self.number_of_menu(alloc, links, i)?;
        let sums = sums_of(cut, alloc, links, i, &self.menus[number], self)?;
        let row = Row { menu: number, sums };
        let place = number_of_row(&mut self.rows, row)?;
        self.places.push(place)?;
        Ok(())
    }

    /// The number of the row of the place after, where place `i` is known to have the same one: a
    /// chain goes on from each column by holding it, which costs nothing.
    fn number_of_next_row<L: Links>(&self, links: &L, i: usize) -> Option<usize>
        requires place { i + 1 + length self.now.places.items ≡ (L.chains links.now).places }
        requires short { (L.chains links.now).places ≤ 192 }
        requires rows { AreRows (L.chains links.now) self.now.menus.items self.now.rows.items
            self.now.places.items }
        ensures { IfSome result (IsRowNumberOf (L.chains links.now) i self.now.menus.items
            self.now.rows.items) }
    {
        let count = self.places.len();
        if count == 0 {
            return None;
        }
        let number = self.places[count - 1];
        let next = self.numbered(number)?;
        if goes_on_freely(links, i, &self.menus[next.menu]) {
            Some(number)
        } else {
            None
        }
    }

    /// Adds the row of place `i`, the last one that has none yet.
    fn add_row<R: Threads + Sync, L: Links + Sync, G: Gate>(
        &mut self,
        cut: &Cut<'_, R, G>,
        alloc: Global,
        links: &L,
        i: usize,
    ) -> Result<(), Memory>
        requires place { i + 1 + length self.old.places.items ≡ (L.chains links.now).places }
        requires short { (L.chains links.now).places ≤ 192 }
        requires rows { AreRows (L.chains links.now) self.old.menus.items self.old.rows.items
            self.old.places.items }
        ensures rows { OnOk result (AreRows (L.chains links.now) self.new.menus.items
            self.new.rows.items self.new.places.items) }
        ensures longer { OnOk result (length self.new.places.items ≡ length self.old.places.items
            + 1) }
    {
        if let Some(number) = self.number_of_next_row(links, i) {
            self.places.push(number)?;
            return Ok(());
        }
        self.compute_row(cut, alloc, links, i)
    }

    /// The least sum over all chains, where each place has its row.
    fn least_of_all<L: Links>(&self, links: &L) -> Option<u64>
        requires whole { length self.now.places.items ≡ (L.chains links.now).places }
        requires short { (L.chains links.now).places ≤ 192 }
        requires rows { AreRows (L.chains links.now) self.now.menus.items self.now.rows.items
            self.now.places.items }
        ensures least { IsLeast (L.chains links.now) 0 None result }
        ensures small { IsAtMost ((L.chains links.now).places * 2 ^ 53) result }
    {
        let Some(first) = self.latest() else {
            return Some(0);
        };
        least_behind(links, 0, None, &self.menus[first.menu], &first.sums)
    }

    /// The tables of these links, each row worked in pieces of so many columns. They take all their
    /// memory here, and are the same for every piece and every gate.
    pub fn fill<R: Threads + Sync, L: Links + Sync, G: Gate>(
        rt: &R,
        alloc: Global,
        links: &L,
        piece: usize,
        gate: &G,
    ) -> Result<Tables, TableFault>
        requires { 1 ≤ piece }
        ensures tables { IfOk result (AreTablesOf (L.chains links.now)) }
        ensures narrow { OnOk result (AreNarrow (L.chains links.now)) }
        ensures wide { IfErr result (TellsWidth (L.chains links.now)) }
    {
        check_widths(links)?;
        let mut tables = Tables {
            menus: Vec::new(alloc),
            rows: Vec::new(alloc),
            places: Vec::new(alloc),
            start: None,
        };
        let cut = Cut { rt, gate, piece };
        let places = links.places();
        for done in 0..places {
            tables
                .add_row(&cut, alloc, links, places - 1 - done)
                .map_err(|_| TableFault::Memory)?;
        }
        tables.start = tables.least_of_all(links);
        Ok(tables)
    }

    /// The least sum over the chains that begin behind a column of a place's menu and go on to the
    /// last place. None exactly where no chain does.
    pub fn rest(&self, i: usize, column: &Column) -> Option<u64>
        ensures least { IsRestBehind self.now i column.now.items result }
        ensures small { (c : Chains) → AreTablesOf c self.now → i < c.places
            → IsAtMost (c.places * 2 ^ 53) result }
    {
        let row = self.row_of(i)?;
        if row.menu >= self.menus.len() {
            return None;
        }
        let k = self.menus[row.menu].place_of(column)?;
        if k >= row.sums.len() {
            return None;
        }
        row.sums[k]
    }

    /// The same behind the column that has a number in the place's menu: nothing is searched.
    #[inline]
    pub fn rest_of_number(&self, i: usize, k: usize) -> Option<u64>
        ensures least { IsRestAt self.now i k result }
        ensures small { (c : Chains) → AreTablesOf c self.now → i < c.places
            → IsAtMost (c.places * 2 ^ 53) result }
    {
        let row = self.row_of(i)?;
        if k >= row.sums.len() {
            return None;
        }
        row.sums[k]
    }

    /// The menu of a place.
    #[inline]
    fn menu_at(&self, i: usize) -> Option<&Menu>
        ensures { (c : Chains) → AreTablesOf c self.now → i < c.places
            → IsSomeAnd result (λ menu. IsMenuOf (c.menu i) menu.now) }
    {
        let row = self.row_of(i)?;
        self.menus.get(row.menu)
    }

    /// The columns of the menu of a place, in reading order.
    #[inline]
    pub fn columns(&self, i: usize) -> &[Column]
        ensures { (c : Chains) → AreTablesOf c self.now → i < c.places → items_of result.now
            ≡ c.menu i }
    {
        match self.menu_at(i) {
            Some(menu) => menu.as_slice(),
            None => &[],
        }
    }

    /// Whether the menu of two places is kept once for both.
    pub fn has_same_menu(&self, i: usize, j: usize) -> bool
        ensures { OnTrue result (HaveSameMenu self.now i j) }
    {
        match (self.row_of(i), self.row_of(j)) {
            (Some(row), Some(other)) => row.menu == other.menu,
            _ => false,
        }
    }

    /// The least sum over the chains that begin at the first place. None exactly where no chain
    /// does.
    pub fn start(&self) -> Option<u64>
        ensures least { (c : Chains) → AreTablesOf c self.now → IsLeast c 0 None result }
        ensures small { (c : Chains) → AreTablesOf c self.now → IsAtMost (c.places * 2 ^ 53)
            result }
    {
        self.start
    }
}

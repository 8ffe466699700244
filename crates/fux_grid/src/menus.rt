//! Menus: the columns that may stand at a place.

ghost use Rattle.std.specs.Prelude.{◌≡◌, ◌↔◌, ◌+◌, ◌*◌, ◌<◌, ◌≤◌, ◌++◌, ◌∷◌, ℕ, List, [], filter, length, map, true, false, IsTrue, IfSome, IfNone, IfOk, Any, Contains, slice_index_or, vec_len, if◌then◌else◌};
ghost use Rattle.fux_pitch.specs.declared.pitch.Pitch.{Pitch as APitch};
ghost use Rattle.fux_pitch.specs.Modes.{is_in_gamut};
ghost use Rattle.fux_pitch.specs.Spelling.{spelled};
ghost use Rattle.fux_grid.specs.declared.cell.Cell.{Cell as ACell};
ghost use Rattle.fux_grid.specs.Exercises.{IsFree, IsValid, given_at, species_in};
ghost use Rattle.fux_grid.specs.Givens.{fits};
ghost use Rattle.fux_grid.specs.Grid.{items_of};
ghost use Rattle.fux_grid.specs.Shapes.{shapes_in};
ghost use Rattle.fux_grid.specs.Menus.{CanStart, IsAscending, IsInMenu, IsStart, cells_at, choices_at, combinations, free_cells, menu_of, note_cell, open_cells, pool_of};

use crate::cell::{Cell, Column};
use crate::exercise::{Exercise, cantus_cell_of, range, species_of};
use crate::given::{Given, given_at};
use crate::shapes::{HOLD, REST, START, allows, shapes_of};
use arrayvec::ArrayVec;
use fux_pitch::{Memory, Pitch, in_gamut, semitone, spell};
use std::alloc::Global;

/// The most columns that a menu may have.
pub const WIDEST: u64 = 8192;

/// The cells that a voice may have at a column: at most a rest, and a hold and a start of each of
/// 73 pitches.
pub type VoiceCells = ArrayVec<Cell, 147>;

/// Why there is no menu.
#[derive(Clone, Copy, Debug, PartialEq, Eq)]
pub enum MenuFault {
    /// The menu has more than 8,192 columns: so many.
    TooWide { count: u64 },
    /// There was not enough memory.
    Memory,
}

/// The pitch of a key in the gamut of a bar.
fn gamut_pitch(ex: &Exercise, bar: u8, key: u8) -> Option<Pitch>
    requires first { 1 ≤ bar }
    requires last { bar ≤ ex.now.bars }
    ensures some { IfSome result (λ p. (spelled key ≡ Some p)
        × (is_in_gamut ex.now.mode bar ex.now.bars p ≡ true)) }
    ensures none { IfNone result ((p : APitch) → spelled key ≡ Some p → is_in_gamut ex.now.mode bar
        ex.now.bars p ≡ false) }
{
    let pitch = spell(key)?;
    if in_gamut(ex.mode, bar, ex.bars, pitch) {
        Some(pitch)
    } else {
        None
    }
}

/// A cell that starts a pitch, or holds it.
fn note_of(pitch: Pitch, starts: bool) -> Cell
    ensures { result ≡ note_cell starts pitch }
{
    if starts {
        Cell::Start(pitch)
    } else {
        Cell::Hold(pitch)
    }
}

/// Appends a cell for each pitch of a voice's pool.
fn add_pool(cells: &mut VoiceCells, ex: &Exercise, v: u8, bar: u8, starts: bool)
    requires valid { IsValid ex.now }
    requires free { IsFree ex.now v }
    requires first { 1 ≤ bar }
    requires last { bar ≤ ex.now.bars }
    requires room { length cells.old.items + 73 ≤ 147 }
    ensures { cells.new.items ≡ cells.old.items ++ map (note_cell starts) (pool_of ex.now v bar) }
{
    let (low, high) = range(ex, v, bar);
    for key in semitone(low)..semitone(high) + 1 {
        if let Some(pitch) = gamut_pitch(ex, bar, key) {
            cells.push(note_of(pitch, starts));
        }
    }
}

/// Appends a rest where one is allowed.
fn add_rest(cells: &mut VoiceCells, allowed: bool)
    requires { length cells.old.items < 147 }
    ensures { cells.new.items ≡ cells.old.items ++ (if allowed then ACell.Rest ∷ [] else []) }
{
    if allowed {
        cells.push(Cell::Rest);
    }
}

/// Appends a cell for each pitch of a voice's pool where such cells are allowed.
fn add_notes(cells: &mut VoiceCells, ex: &Exercise, v: u8, bar: u8, starts: bool, allowed: bool)
    requires valid { IsValid ex.now }
    requires free { IsFree ex.now v }
    requires first { 1 ≤ bar }
    requires last { bar ≤ ex.now.bars }
    requires room { length cells.old.items + 73 ≤ 147 }
    ensures { cells.new.items ≡ cells.old.items
        ++ (if allowed then map (note_cell starts) (pool_of ex.now v bar) else []) }
{
    if allowed {
        add_pool(cells, ex, v, bar, starts);
    }
}

/// The cells that a free voice may have at a slot of a bar before anything is given, in reading
/// order.
fn open_cells(ex: &Exercise, v: u8, bar: u8, slot: usize) -> VoiceCells
    requires valid { IsValid ex.now }
    requires free { IsFree ex.now v }
    requires first { 1 ≤ bar }
    requires last { bar ≤ ex.now.bars }
    requires slot { slot < 8 }
    ensures { result.items ≡ free_cells (shapes_in (species_in ex.now v) bar ex.now.bars) slot
        (pool_of ex.now v bar) }
{
    let shapes = shapes_of(species_of(ex, v), bar, ex.bars);
    let mut cells = ArrayVec::new();
    add_rest(&mut cells, allows(shapes, slot, REST));
    add_notes(&mut cells, ex, v, bar, false, allows(shapes, slot, HOLD));
    add_notes(&mut cells, ex, v, bar, true, allows(shapes, slot, START));
    cells
}

/// Those of some cells that fit what is given.
fn fitting(cells: &[Cell], given: Given) -> VoiceCells
    requires { length cells.now ≤ 147 }
    ensures { result.items ≡ filter (fits given) cells.now }
{
    let mut kept = ArrayVec::new();
    for cell in cells {
        if given.fits(*cell) {
            kept.push(*cell);
        }
    }
    kept
}

/// The cells that a free voice may have at a column, in reading order.
fn free_voice_cells(ex: &Exercise, v: u8, i: usize) -> VoiceCells
    requires valid { IsValid ex.now }
    requires free { IsFree ex.now v }
    requires place { i < 8 * ex.now.bars }
    ensures { result.items ≡ filter (fits (given_at ex.now i v)) (open_cells ex.now i v) }
{
    let cells = open_cells(ex, v, (i / 8) as u8 + 1, i % 8);
    match given_at(ex, v, i) {
        Given::Blank => cells,
        given => fitting(cells.as_slice(), given),
    }
}

/// The cells that a voice may have at a column, in reading order.
pub fn voice_cells(ex: &Exercise, v: u8, i: usize) -> VoiceCells
    requires valid { IsValid ex.now }
    requires voice { v < ex.now.voices }
    requires place { i < 8 * ex.now.bars }
    ensures { result.items ≡ cells_at ex.now i v }
{
    if v != ex.cantus_voice {
        return free_voice_cells(ex, v, i);
    }
    let mut cells = ArrayVec::new();
    cells.push(cantus_cell_of(i, ex.cantus.as_slice()[i / 8]));
    cells
}

/// How many columns the menu of a column has.
pub fn width(ex: &Exercise, i: usize) -> u64
    requires valid { IsValid ex.now }
    requires place { i < 8 * ex.now.bars }
    ensures { result ≡ length (menu_of ex.now i) }
{
    let mut width = 1;
    for v in 0..ex.voices {
        width *= voice_cells(ex, v, i).len() as u64;
    }
    width
}

/// Whether some cell of a voice at a column is a start.
fn has_start(ex: &Exercise, v: u8, i: usize) -> bool
    requires valid { IsValid ex.now }
    requires voice { v < ex.now.voices }
    requires place { i < 8 * ex.now.bars }
    ensures { IsTrue result ↔ Any IsStart (cells_at ex.now i v) }
{
    voice_cells(ex, v, i)
        .iter()
        .any(|cell| matches!(cell, Cell::Start(_)))
}

/// Whether the menu of a column has a column in which the voice starts a note.
pub fn can_start(ex: &Exercise, v: u8, i: usize) -> bool
    requires valid { IsValid ex.now }
    requires voice { v < ex.now.voices }
    requires place { i < 8 * ex.now.bars }
    ensures { IsTrue result ↔ CanStart ex.now v i }
{
    let starts = has_start(ex, v, i);
    starts && width(ex, i) > 0
}

/// The cells of each voice at a column.
fn choices(ex: &Exercise, i: usize) -> ArrayVec<VoiceCells, 4>
    requires valid { IsValid ex.now }
    requires place { i < 8 * ex.now.bars }
    ensures { items_of result.items ≡ choices_at ex.now i }
{
    let mut choices = ArrayVec::new();
    for v in 0..ex.voices {
        choices.push(voice_cells(ex, v, i));
    }
    choices
}

/// The combination of one cell of each list that stands at a place in reading order, where there
/// are so many.
fn combination(choices: &[VoiceCells], width: usize, k: usize) -> Column
    requires width { width ≡ length (combinations (items_of choices.now)) }
    requires place { k < width }
    requires few { length choices.now ≤ 4 }
    ensures { result.items ≡ slice_index_or (combinations (items_of choices.now)) k [] }
{
    let mut column = Column::new();
    let mut size = width;
    let mut rest = k;
    for cells in choices {
        size /= cells.len();
        column.push(cells[rest / size]);
        rest %= size;
    }
    column
}

/// All combinations of one cell of each list, of which there are so many.
fn all_combinations(
    alloc: Global,
    choices: &[VoiceCells],
    width: usize,
) -> Result<Vec<Column>, Memory>
    requires width { width ≡ length (combinations (items_of choices.now)) }
    requires few { length choices.now ≤ 4 }
    ensures { IfOk result (λ columns. items_of columns.items
        ≡ combinations (items_of choices.now)) }
{
    let mut columns = Vec::with_capacity(alloc, width)?;
    for k in 0..width {
        columns.push_reserved(combination(choices, width, k));
    }
    Ok(columns)
}

/// The menu of a column: the columns that may stand there, in reading order.
pub fn menu(alloc: Global, ex: &Exercise, i: usize) -> Result<Vec<Column>, MenuFault>
    requires valid { IsValid ex.now }
    requires place { i < 8 * ex.now.bars }
    ensures value { IfOk result (λ menu. items_of menu.items ≡ menu_of ex.now i) }
    ensures columns { IfOk result (λ menu. (col : List ACell) → Contains (items_of menu.items) col
        ↔ IsInMenu ex.now i col) }
    ensures order { IfOk result (λ menu. IsAscending (items_of menu.items)) }
    ensures most { IfOk result (λ menu. vec_len menu ≤ WIDEST) }
    ensures wide { (count : ℕ) → (result ≡ Err (MenuFault.TooWide count))
        ↔ ((count ≡ length (menu_of ex.now i)) × (WIDEST < count)) }
{
    let count = width(ex, i);
    if count > WIDEST {
        return Err(MenuFault::TooWide { count });
    }
    match all_combinations(alloc, choices(ex, i).as_slice(), count as usize) {
        Ok(columns) => Ok(columns),
        Err(Memory) => Err(MenuFault::Memory),
    }
}

//! The menus of an exercise, each kept once for neighbors that have the same one.

ghost use Rattle.std.specs.Prelude.{◌≡◌, ◌<◌, IfNone, IfOk, IfSome};
ghost use Rattle.std.specs.Bool.{OnTrue};
ghost use Rattle.fux_grid.specs.Exercises.{IsValid, columns_in};
ghost use Rattle.fux_grid.specs.Menus.{cells_at, menu_of};
ghost use Rattle.floor_tables.specs.Tables.{AreNarrow, IsTooWide};
ghost use Rattle.species_space.specs.MixedMenus.{AreMenusOf, IsLatest, IsMenuOf, IsNumberAt};

use crate::blocks::Blocks;
use crate::space::undead_numbers;
use fux_grid::{Column, Exercise, Place, WIDEST, menu, place_of, voice_cells, width};
use fux_judge::idle_rules;
use fux_pitch::Memory;
use rule_law::RuleSet;
use std::alloc::Global;

/// The columns of a menu, and the blocks over which its voices keep their cells.
#[derive(Drop)]
pub(crate) struct Menu {
    pub(crate) columns: Vec<Column>,
    pub(crate) blocks: Blocks,
}

/// What is known of a place: the number of its menu, and for each column of it the number of the
/// first one, from it on, that isn't dead after every prefix.
#[derive(Drop)]
pub(crate) struct PlaceMenu {
    pub(crate) menu: usize,
    pub(crate) undead: Vec<u16>,
    /// Late rules of which the column of the place settles no strict break.
    pub(crate) idle: RuleSet,
}

/// The menus of all places.
#[derive(Drop)]
pub(crate) struct Menus {
    pub(crate) menus: Vec<Menu>,
    pub(crate) places: Vec<PlaceMenu>,
}

/// The place of the first menu that is too wide, and how many columns it has.
pub fn first_too_wide(ex: &Exercise) -> Option<(Place, u64)>
    requires { IsValid ex.now }
    ensures narrow { IfNone result (AreNarrow ex.now) }
    ensures wide { IfSome result (λ menu. IsTooWide ex.now menu.0 menu.1) }
{
    for i in 0..8 * ex.bars as usize {
        let count = width(ex, i);
        if count > WIDEST {
            return Some((place_of(i), count));
        }
    }
    None
}

/// Whether a voice may have the same cells at two places.
fn has_same_cells(ex: &Exercise, v: u8, i: usize, j: usize) -> bool
    requires valid { IsValid ex.now }
    requires voice { v < ex.now.voices }
    requires first { i < columns_in ex.now }
    requires second { j < columns_in ex.now }
    ensures { OnTrue result (cells_at ex.now i v ≡ cells_at ex.now j v) }
{
    voice_cells(ex, v, i).as_slice() == voice_cells(ex, v, j).as_slice()
}

/// Whether two places are known to have the same menu.
fn has_same_menu(ex: &Exercise, i: usize, j: usize) -> bool
    requires valid { IsValid ex.now }
    requires first { i < columns_in ex.now }
    requires second { j < columns_in ex.now }
    ensures { OnTrue result (menu_of ex.now i ≡ menu_of ex.now j) }
{
    for v in 0..ex.voices {
        if !has_same_cells(ex, v, i, j) {
            return false;
        }
    }
    true
}

/// The menu of a place.
fn menu_at(alloc: Global, ex: &Exercise, i: usize) -> Result<Menu, Memory>
    requires valid { IsValid ex.now }
    requires narrow { AreNarrow ex.now }
    requires place { i < columns_in ex.now }
    ensures { IfOk result (IsMenuOf (menu_of ex.now i)) }
{
    let Ok(columns) = menu(alloc, ex, i) else {
        return Err(Memory);
    };
    let blocks = Blocks::new(&columns);
    Ok(Menu { columns, blocks })
}

/// The number of the menu of a place, which is put behind those of the places before it unless the
/// place before has the same one.
fn number_at(alloc: Global, ex: &Exercise, menus: &mut Vec<Menu>, i: usize) -> Result<usize, Memory>
    requires valid { IsValid ex.now }
    requires narrow { AreNarrow ex.now }
    requires place { i < columns_in ex.now }
    requires latest { IsLatest ex.now i menus.old.items }
    ensures { IfOk result (IsNumberAt ex.now i menus.old.items menus.new.items) }
{
    let count = menus.len();
    if i > 0 && count > 0 && has_same_menu(ex, i - 1, i) {
        return Ok(count - 1);
    }
    menus.push(menu_at(alloc, ex, i)?)?;
    Ok(count)
}

/// The menus of all places of an exercise. All their memory is taken here.
pub(crate) fn menus_of(alloc: Global, ex: &Exercise) -> Result<Menus, Memory>
    requires valid { IsValid ex.now }
    requires narrow { AreNarrow ex.now }
    ensures { IfOk result (AreMenusOf ex.now) }
{
    let mut menus = Vec::new(alloc);
    let mut places = Vec::new(alloc);
    for i in 0..8 * ex.bars as usize {
        let menu = number_at(alloc, ex, &mut menus, i)?;
        let undead = undead_numbers(alloc, ex, i, &menus[menu].columns)?;
        let idle = idle_rules(ex, i);
        places.push(PlaceMenu { menu, undead, idle })?;
    }
    Ok(Menus { menus, places })
}

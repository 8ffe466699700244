//! What entries are tested by.

ghost use Rattle.std.specs.Prelude.{◌≡◌, ◌<◌, length};
ghost use Rattle.cert_check.specs.Boards.{IsBoard, IsBound, IsPlaceOf};
ghost use Rattle.cert_law.specs.Entries as law;
ghost use Rattle.fux_grid.specs.Exercises.{columns_in};
ghost use Rattle.fux_grid.specs.Menus.{menu_of};

use crate::menus::Menus;
use cert_text::Potential;
use fux_grid::{Column, Exercise};
use penalty_sheet::Sheet;

/// An exercise and a sheet, the menus, and the entries that are stated so far.
#[derive(Clone, Copy)]
pub(crate) struct Board<'a> {
    pub(crate) exercise: &'a Exercise<'a>,
    pub(crate) sheet: &'a Sheet,
    pub(crate) menus: &'a Menus,
    pub(crate) stated: &'a [Potential],
    /// For some columns, counted through all menus, what there is through each at least; none where
    /// nothing is.
    pub(crate) bounds: &'a [Option<u32>],
}

impl<'a> Board<'a> {
    /// How many columns the menu of a place has.
    pub(crate) fn width(&self, i: usize) -> usize
        requires board { IsBoard self.now }
        requires place { i < columns_in self.now.exercise.now }
        ensures { result ≡ length (menu_of self.now.exercise.now i) }
    {
        self.menus.columns[i].len()
    }

    /// The column of a number in the menu of a place.
    pub(crate) fn column(&self, i: usize, k: usize) -> &'a Column
        requires board { IsBoard self.now }
        requires place { i < columns_in self.now.exercise.now }
        requires within { k < length (menu_of self.now.exercise.now i) }
        ensures { result.now.items ≡ law.menu_column self.now.exercise.now i k }
    {
        &self.menus.columns[i][k]
    }

    /// The entry of a number. Where it isn't stated, it states nothing.
    pub(crate) fn entry(&self, n: usize) -> Potential
        ensures { result ≡ law.entry_at self.now.stated.now n }
    {
        if n < self.stated.len() {
            self.stated[n]
        } else {
            Potential::NoChain
        }
    }

    /// That of the column with a number in the menu of a place.
    pub(crate) fn entry_of(&self, i: usize, k: usize) -> Potential
        requires board { IsBoard self.now }
        requires place { i < columns_in self.now.exercise.now }
        requires within { k < length (menu_of self.now.exercise.now i) }
        ensures { result ≡ law.entry_of self.now.exercise.now self.now.stated.now i k }
    {
        self.entry(1 + self.menus.before[i] + k)
    }

    /// What there is through the column with a number in the menu of a place at least, as far as it
    /// is known; none where nothing is.
    #[inline(always)]
    pub(crate) fn bound_of(&self, i: usize, k: usize) -> Option<u32>
        requires board { IsBoard self.now }
        requires place { i < columns_in self.now.exercise.now }
        requires within { k < length (menu_of self.now.exercise.now i) }
        ensures { IsBound self.now.exercise.now self.now.sheet.now self.now.stated.now i k result }
    {
        let number = self.menus.before[i] + k;
        if number < self.bounds.len() {
            self.bounds[number]
        } else {
            Some(0)
        }
    }

    /// The place of the column of a number, counted from 0 through all menus, and its number in the
    /// menu of that place.
    pub(crate) fn place_of(&self, number: usize) -> (usize, usize)
        requires board { IsBoard self.now }
        requires within { number < law.columns_before self.now.exercise.now
            (columns_in self.now.exercise.now) }
        ensures { IsPlaceOf self.now.exercise.now number result }
    {
        let mut rest = number;
        for i in 0..self.menus.columns.len() {
            let width = self.width(i);
            if rest < width {
                return (i, rest);
            }
            rest -= width;
        }
        unreachable!()
    }
}

//! The entries of a certificate, as they come.

ghost use Rattle.std.specs.Prelude.{◌≡◌, ◌↔◌, ◌+◌, ◌<◌, ◌++◌, ◌∷◌, [], IsTrue, length, IfErr, IfOk, OnOk};
ghost use Rattle.cert_check.specs.Faults.{TellsWidth};
ghost use Rattle.cert_check.specs.Kept.{IsBoardOf};
ghost use Rattle.cert_check.specs.Listings.{TellsFirstFalse, listing_for};
ghost use Rattle.cert_law.specs.Entries.{IsTrueEntry, entry_count};
ghost use Rattle.cert_law.specs.Entries as words;
ghost use Rattle.cert_text.specs.Potentials.{IsPotential};
ghost use Rattle.floor_tables.specs.Tables.{AreNarrow};
ghost use Rattle.fux_grid.specs.Exercises.{IsValid};

use crate::board::Board;
use crate::first::first_failing;
use crate::menus::Menus;
use crate::trial::Trial;
use cert_law::Tails;
use cert_text::Potential;
use fux_grid::{Column, Exercise, Place};
use fux_pitch::Memory;
use penalty_sheet::Sheet;
use std::alloc::Global;
use std::marker::Model;
use std::thread::Threads;

/// Why there is no room for entries.
#[derive(Clone, Copy, Debug, PartialEq, Eq)]
pub enum EntryFault {
    /// A menu has more than 8,192 columns: the first such place, and how many it has.
    TooWide { place: Place, count: u64 },
    Memory,
}

/// The entries of a certificate for an exercise and a sheet, in their order, as far as they came:
/// one of the start, then one of each column of the menus in reading order. There are at most
/// 1,572,865.
#[derive(Drop)]
pub struct Entries<'a> {
    exercise: &'a Exercise<'a>,
    sheet: &'a Sheet,
    menus: Menus,
    stated: Vec<Potential>,
}

impl<'a> Model for Entries<'a> {
    ghost use Rattle.cert_check.specs.Kept.{IsEntries};
    ghost use Rattle.cert_check.specs.Listings.{Listing};

    ghost Value = { Listing };

    ghost view = { λ e. record { exercise = e.exercise.now; sheet = e.sheet.now; entries = e.stated.items } };

    ghost invariant = { λ e. IsEntries e.exercise.now e.menus e.stated };
}

impl<'a> Entries<'a> {
    /// None so far, of an exercise by a sheet. All memory is taken here.
    pub fn open(
        alloc: Global,
        ex: &'a Exercise<'a>,
        sheet: &'a Sheet,
    ) -> Result<Entries<'a>, EntryFault>
        requires { IsValid ex.now }
        ensures made { IfOk result (λ e. e ≡ listing_for ex.entry.now sheet.entry.now []) }
        ensures narrow { OnOk result (AreNarrow ex.entry.now) }
        ensures wide { IfErr result (TellsWidth ex.entry.now) }
    {
        let menus = Menus::of(alloc, ex)?;
        let Ok(stated) = Vec::with_capacity(alloc, 1 + menus.total) else {
            return Err(EntryFault::Memory);
        };
        Ok(Entries {
            exercise: ex,
            sheet,
            menus,
            stated,
        })
    }

    /// How many are still to come.
    pub fn owed(&self) -> u64
        ensures { result + length self.now.entries ≡ entry_count self.now.exercise }
    {
        (1 + self.menus.total - self.stated.len()) as u64
    }

    /// Takes the next one.
    pub fn state(&mut self, p: Potential)
        requires room { length self.old.entries < entry_count self.old.exercise }
        requires fits { IsPotential p }
        ensures { self.new ≡ record self.old { entries = self.old.entries ++ p ∷ [] } }
    {
        self.stated.push_reserved(p);
    }

    /// What they are tested by.
    fn board(&self) -> Board<'_>
        ensures { IsBoardOf self.now result }
    {
        Board {
            exercise: self.exercise,
            sheet: self.sheet,
            menus: &self.menus,
            stated: &self.stated,
            bounds: &[],
        }
    }

    /// Whether the entry of a number is true. That of the start has number 0.
    pub fn is_true(&self, n: usize) -> bool
        requires { n < entry_count self.now.exercise }
        ensures { IsTrue result ↔ IsTrueEntry self.now.exercise self.now.sheet self.now.entries n }
    {
        self.board().is_true(n)
    }

    /// The number of the first one that isn't true; none only where each is. It is the same for
    /// every division of the work.
    pub fn first_false<R: Threads + Sync>(
        &self,
        rt: &R,
        alloc: Global,
    ) -> Result<Option<usize>, Memory>
        requires { length self.now.entries ≡ entry_count self.now.exercise }
        ensures { IfOk result (TellsFirstFalse self.now) }
    {
        let bounds = self.board().bounds(alloc)?;
        let trial = Trial::new(self.board(), &bounds);
        first_failing(rt, alloc, &trial)
    }
}

impl<'a> Tails for Entries<'a> {
    ghost use Rattle.cert_check.specs.Listings.{basis_by};

    ghost basis = { basis_by };

    fn width(&self, i: usize) -> usize {
        self.board().width(i)
    }

    fn column(&self, i: usize, k: usize) -> &Column {
        self.board().column(i, k)
    }

    fn start(&self) -> Option<u64> {
        number_in(self.board().entry(0))
    }

    fn behind(&self, i: usize, k: usize) -> Option<u64> {
        number_in(self.board().entry_of(i, k))
    }
}

/// The number that an entry states, if any.
fn number_in(entry: Potential) -> Option<u64>
    ensures { result ≡ words.number_in entry }
{
    match entry {
        Potential::Least(number) => Some(u64::from(number)),
        Potential::NoChain => None,
    }
}

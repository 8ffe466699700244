//! Certificates of the second form, as they come: a head and entries, and then the checker of their
//! claims.

ghost use Rattle.std.specs.Prelude.{◌≡◌, ◌+◌, ◌<◌, ◌++◌, ◌∷◌, [], Some, length, IfErr, IfOk, OnOk};
ghost use Rattle.cert_check.specs.Opening.{TellsWhy, opened_for};
ghost use Rattle.cert_check.specs.Settings.{Numbers};
ghost use Rattle.cert_check.specs.Stating.{TellsFalse, stating_for};
ghost use Rattle.cert_law.specs.Certificates.{IsHeadSound};
ghost use Rattle.cert_law.specs.Entries.{AreTrueEntries, entry_count};
ghost use Rattle.cert_text.specs.Potentials.{IsPotential};
ghost use Rattle.floor_tables.specs.Tables.{AreNarrow};
ghost use Rattle.fux_grid.specs.Exercises.{IsValid};

use crate::checker::{Checker, OpenFault};
use crate::entries::{Entries, EntryFault};
use crate::head::is_sound;
use cert_text::{CertHead, Potential, Refused, Why};
use fux_grid::Exercise;
use fux_pitch::Memory;
use penalty_sheet::Sheet;
use std::alloc::Global;
use std::marker::Model;
use std::thread::Threads;

/// Why there is no checker of the claims behind entries.
#[derive(Clone, Copy, Debug, PartialEq, Eq)]
pub enum CloseFault {
    /// An entry isn't true: the first such one, counted from 1.
    Refused(Refused),
    Memory,
}

/// A certificate of the second form, as far as its entries were read. It fills no tables, and
/// neither does the checker that it becomes.
#[derive(Drop)]
pub struct Stated<'a> {
    exercise: &'a Exercise<'a>,
    sheet: &'a Sheet,
    head: CertHead,
    entries: Entries<'a>,
}

impl<'a> Model for Stated<'a> {
    ghost use Rattle.cert_check.specs.Stating.{IsStating, Stating};

    ghost Value = { Stating };

    ghost view = { λ s. record {
      exercise = s.exercise.now;
      sheet = s.sheet.now;
      head = s.head;
      entries = s.entries.entries;
    } };

    ghost invariant = { λ s. IsStating
        (record { exercise = s.exercise.now; sheet = s.sheet.now; head = s.head }) s.entries };
}

impl<'a> Stated<'a> {
    /// A certificate with this head, of which no entry was read. All memory for the entries is
    /// taken here.
    pub fn open(
        alloc: Global,
        ex: &'a Exercise<'a>,
        sheet: &'a Sheet,
        head: CertHead,
    ) -> Result<Stated<'a>, OpenFault>
        requires { IsValid ex.now }
        ensures opened { IfOk result (λ s. s ≡ stating_for ex.entry.now sheet.entry.now head []) }

        // Width comes first; then the head is judged, before any entry.
        ensures narrow { OnOk result (AreNarrow ex.entry.now) }
        ensures sound { OnOk result (IsHeadSound ex.entry.now sheet.entry.now head) }
        ensures fault { IfErr result (TellsWhy ex.entry.now sheet.entry.now head) }
    {
        let entries = match Entries::open(alloc, ex, sheet) {
            Ok(entries) => entries,
            Err(EntryFault::TooWide { place, count }) => {
                return Err(OpenFault::TooWide { place, count });
            }
            Err(EntryFault::Memory) => return Err(OpenFault::Memory),
        };
        if !is_sound(ex, sheet, &head) {
            return Err(OpenFault::Refused(Refused {
                number: 0,
                why: Why::Head,
            }));
        }
        Ok(Stated {
            exercise: ex,
            sheet,
            head,
            entries,
        })
    }

    /// How many entries are still to come.
    pub fn owed(&self) -> u64
        ensures { result + length self.now.entries ≡ entry_count self.now.exercise }
    {
        self.entries.owed()
    }

    /// Takes the next entry. It takes no memory.
    pub fn state(&mut self, p: Potential)
        requires room { length self.old.entries < entry_count self.old.exercise }
        requires fits { IsPotential p }
        ensures { self.new ≡ record self.old { entries = self.old.entries ++ p ∷ [] } }
    {
        self.entries.state(p);
    }

    /// The checker of the claims, where each entry is true. Whether one isn't is found by many
    /// threads; which is the first doesn't depend on how they divide the work.
    pub fn close<R: Threads + Sync>(
        self,
        rt: &R,
        alloc: Global,
    ) -> Result<Checker<'a, Entries<'a>>, CloseFault>
        requires whole { length self.entries ≡ entry_count self.exercise }
        ensures opened { IfOk result (λ c. c ≡ opened_for self.entry.exercise self.entry.sheet
            self.entry.head (Numbers (Some self.entry.entries))) }
        ensures true_entries { OnOk result (AreTrueEntries self.entry.exercise self.entry.sheet
            self.entry.entries) }
        ensures refused { IfErr result (TellsFalse self.entry) }
    {
        match self.entries.first_false(rt, alloc) {
            Ok(None) => {}
            Ok(Some(n)) => {
                return Err(CloseFault::Refused(Refused {
                    number: n as u64 + 1,
                    why: Why::Potential,
                }));
            }
            Err(Memory) => return Err(CloseFault::Memory),
        }
        match Checker::opened(alloc, self.exercise, self.sheet, self.head, self.entries) {
            Ok(checker) => Ok(checker),
            Err(Memory) => Err(CloseFault::Memory),
        }
    }
}

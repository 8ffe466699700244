//! The checker of certificates.

ghost use Rattle.std.specs.Prelude.{◌≡◌, [], None, IfErr, IfOk, IfSome, OnOk};
ghost use Rattle.cert_tree.specs.Judgings.{begun_at, standing_of};
ghost use Rattle.cert_tree.specs.Trees.{OwesRefuting};
ghost use Rattle.cert_law.specs.Certificates.{Begins, IsHeadSound, Refutes};
ghost use Rattle.cert_law.specs.Bases.{HasTails};
ghost use Rattle.cert_law.specs.Cases.{IsCase};
ghost use Rattle.cert_law.specs.Entries.{AreTrueEntries};
ghost use Rattle.cert_law.specs.Known.{ways_of};
ghost use Rattle.cert_check.specs.Opening.{IsChecking, TellsWhy, opened_for};
ghost use Rattle.cert_check.specs.Settings.{IsSound, Numbers};
ghost use Rattle.floor_tables.specs.Tables.{AreNarrow};
ghost use Rattle.fux_grid.specs.Exercises.{IsValid};

use crate::head::{accepted_by, is_sound};
use cert_file::{Checks, refused_by};
use cert_law::{Case, PrefixKnown, TailedCase, Tails};
use cert_text::{Accepted, CertHead, Claim, Refused, Why};
use cert_tree::{Judging, begin, feed, finish};
use floor_tables::Tables;
use fux_grid::{Exercise, Place};
use fux_pitch::Memory;
use penalty_sheet::Sheet;
use price_check::MenuTails;
use std::alloc::{AllocError, Global};
use std::marker::Model;

/// Why a checker isn't opened.
#[derive(Clone, Copy, Debug, PartialEq, Eq)]
pub enum OpenFault {
    /// A menu has more than 8,192 columns: the first such place, and how many it has.
    TooWide { place: Place, count: u64 },
    /// The head's score isn't a lawful setting that has the head's penalty.
    Refused(Refused),
    Memory,
}

/// Judges the claims of a certificate one by one, by the tails of tables or by those that entries
/// state. It holds the open prefixes that begin the one owed next, and nothing else of what was
/// judged, so that it takes no memory after it is opened.
#[derive(Drop)]
pub struct Checker<'a, T: Tails> {
    exercise: &'a Exercise<'a>,
    sheet: &'a Sheet,
    head: CertHead,
    tails: T,
    judging: Judging<PrefixKnown>,
}

impl<'a, T: Tails> Model for Checker<'a, T> {
    ghost use Rattle.std.specs.Prelude.{option_map};
    ghost use Rattle.std.specs.Prelude.{List as Items};
    ghost use Rattle.cert_file.specs.Checking.{Checking, refused_by};
    ghost use Rattle.cert_check.specs.Opening.{IsChecking};
    ghost use Rattle.cert_check.specs.Settings.{Asked as AnAsked, Numbers, Opening as AnOpening};
    ghost use Rattle.fux_grid.specs.declared.cell.Cell.{Cell as ACell};
    ghost use Rattle.cert_law.specs.Known.{ways_of};
    ghost use Rattle.cert_tree.specs.Walks.{owed_by_walk};

    ghost Value = { Checking AnAsked AnOpening (Items (Items ACell)) };

    ghost view = { λ c. record {
      asked = record { exercise = c.exercise.now; sheet = c.sheet.now };
      head = record { head = c.head; stated = Numbers (T.basis c.tails).stated };
      owed = owed_by_walk (ways_of c.exercise.now) c.judging.walk;
      count = c.judging.taken;
      refusal = option_map refused_by c.judging.refusal;
    } };

    ghost invariant = { λ c. IsChecking
        (record { exercise = c.exercise.now; sheet = c.sheet.now; head = c.head }) (T.basis c.tails) c.judging };
}

/// The judging of the claims of a certificate, with the empty prefix owed. It takes all its memory
/// here.
fn begun<T: Tails>(
    alloc: Global,
    exercise: &Exercise,
    sheet: &Sheet,
    head: &CertHead,
    tails: &T,
) -> Result<Judging<PrefixKnown>, AllocError>
    requires case { IsCase (record { exercise = exercise.now; sheet = sheet.now; head = head.now }) }
    requires tails { HasTails (record { exercise = exercise.now; sheet = sheet.now; head = head.now })
        (T.basis tails.now) }
    requires entries { IfSome (T.basis tails.now).stated (AreTrueEntries exercise.now sheet.now) }
    ensures standing { IfOk result (λ judging. standing_of (ways_of exercise.now) judging
        ≡ begun_at []) }
    ensures checking { IfOk result
        (IsChecking (record { exercise = exercise.now; sheet = sheet.now; head = head.now })
        (T.basis tails.now)) }
{
    let case = Case {
        exercise,
        sheet,
        head,
    };
    begin(alloc, &TailedCase::new(case, tails))
}

impl<'a> Checker<'a, MenuTails<'a>> {
    /// A checker of the claims of a certificate of the first form with this head, by tables that are
    /// filled. All memory more is taken here.
    pub fn open(
        alloc: Global,
        ex: &'a Exercise<'a>,
        sheet: &'a Sheet,
        head: CertHead,
        tables: &'a Tables<'a>,
    ) -> Result<Checker<'a, MenuTails<'a>>, OpenFault>
        requires valid { IsValid ex.now }
        requires narrow { AreNarrow ex.now }
        requires same { tables.now ≡ record { exercise = ex.now; sheet = sheet.now } }
        ensures opened { IfOk result (λ c. c ≡ opened_for ex.entry.now sheet.entry.now head
            (Numbers None)) }

        // The head is judged before any claim.
        ensures sound { OnOk result (IsHeadSound ex.entry.now sheet.entry.now head) }
        ensures fault { IfErr result (TellsWhy ex.entry.now sheet.entry.now head) }
    {
        if !is_sound(ex, sheet, &head) {
            return Err(OpenFault::Refused(Refused {
                number: 0,
                why: Why::Head,
            }));
        }
        let tails = match MenuTails::new(alloc, ex, tables) {
            Ok(tails) => tails,
            Err(Memory) => return Err(OpenFault::Memory),
        };
        match Checker::opened(alloc, ex, sheet, head, tails) {
            Ok(checker) => Ok(checker),
            Err(Memory) => Err(OpenFault::Memory),
        }
    }
}

impl<'a, T: Tails + Drop> Checker<'a, T> {
    /// A checker for which the empty prefix is owed. It takes all its memory here.
    pub(crate) fn opened(
        alloc: Global,
        exercise: &'a Exercise<'a>,
        sheet: &'a Sheet,
        head: CertHead,
        tails: T,
    ) -> Result<Checker<'a, T>, Memory>
        requires case { IsCase (record { exercise = exercise.now; sheet = sheet.now; head = head }) }
        requires tails { HasTails (record { exercise = exercise.now; sheet = sheet.now; head = head })
            (T.basis tails) }
        requires entries { IfSome (T.basis tails).stated (AreTrueEntries exercise.now sheet.now) }
        ensures { IfOk result (λ c. c ≡ opened_for exercise.entry.now sheet.entry.now head
            (Numbers (T.basis tails).stated)) }
    {
        let judging = begun(alloc, exercise, sheet, &head, &tails)?;
        Ok(Checker {
            exercise,
            sheet,
            head,
            tails,
            judging,
        })
    }

    /// What each checker keeps: its head is sound, the entries that are stated are true, and as
    /// long as no claim was refused, each setting that refutes the head is begun by a prefix that
    /// is owed. It does nothing; callers that prove something about a checker learn this from it.
    pub fn kept(&self)
        ensures sound { IsSound self.now.asked.exercise self.now.asked.sheet self.now.head }
        ensures owes { self.now.refusal ≡ None → OwesRefuting Begins
            (Refutes self.now.asked.exercise self.now.asked.sheet self.now.head.head)
            self.now.owed }
    {
        let _ = &self.judging;
    }
}

impl<'a, T: Tails + Drop> Checks for Checker<'a, T> {
    ghost use Rattle.std.specs.Prelude.{List as Items};
    ghost use Rattle.cert_check.specs.Settings.{Asked as AnAsked, Opening as AnOpening, setting_subject};
    ghost use Rattle.fux_grid.specs.declared.cell.Cell.{Cell as ACell};

    ghost Asked = { AnAsked };

    ghost Head = { AnOpening };

    ghost Node = { Items (Items ACell) };

    ghost subject = { setting_subject };

    ghost seen = { λ c. c };

    fn feed(&mut self, claim: Claim) -> Result<(), Refused> {
        let case = Case {
            exercise: self.exercise,
            sheet: self.sheet,
            head: &self.head,
        };
        let it = TailedCase::new(case, &self.tails);
        match feed(&it, &mut self.judging, claim) {
            Ok(()) => Ok(()),
            Err(refusal) => Err(refused_by(refusal)),
        }
    }

    fn finish(&self) -> Result<Accepted, Refused> {
        let case = Case {
            exercise: self.exercise,
            sheet: self.sheet,
            head: &self.head,
        };
        match finish(&TailedCase::new(case, &self.tails), &self.judging) {
            Ok(()) => Ok(accepted_by(&self.head)),
            Err(refusal) => Err(refused_by(refusal)),
        }
    }
}

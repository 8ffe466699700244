//! The checker of certificates of the third form.

ghost use Rattle.std.specs.Prelude.{◌≡◌, IfOk};
ghost use Rattle.std.specs.List.{AllByRecursion};
ghost use Rattle.cert_check.specs.Opening.{IsSharpChecking, opened_for};
ghost use Rattle.cert_check.specs.Settings.{IsSound, Lists};
ghost use Rattle.cert_law.specs.Rests.{HasSmallWeights};
ghost use Rattle.price_check.specs.Owned.{AreKeys};
ghost use Rattle.price_check.specs.Stated.{AreDue};

use crate::head::accepted_by;
use cert_file::{Checks, refused_by};
use cert_text::{Accepted, Claim, Refused};
use cert_tree::{Judging, begin, feed, finish};
use fux_pitch::Memory;
use price_check::{SharpCase, SharpKnown};
use std::alloc::Global;
use std::marker::Model;

/// Judges the claims of a certificate one by one, by lists of prices. As `Checker` it takes no
/// memory after it is opened.
#[derive(Drop)]
pub(crate) struct SharpChecker<'a, 'f> {
    it: SharpCase<'a, 'f>,
    judging: Judging<SharpKnown>,
}

impl<'a, 'f> Model for SharpChecker<'a, 'f> {
    ghost use Rattle.std.specs.Prelude.{option_map};
    ghost use Rattle.std.specs.Prelude.{List as Items};
    ghost use Rattle.cert_file.specs.Checking.{Checking, refused_by};
    ghost use Rattle.cert_check.specs.Opening.{IsSharpChecking};
    ghost use Rattle.cert_check.specs.Settings.{Asked as AnAsked, Lists, Opening as AnOpening};
    ghost use Rattle.fux_grid.specs.declared.cell.Cell.{Cell as ACell};
    ghost use Rattle.cert_law.specs.Known.{ways_of};
    ghost use Rattle.cert_tree.specs.Walks.{owed_by_walk};

    ghost Value = { Checking AnAsked AnOpening (Items (Items ACell)) };

    ghost view = { λ c. record {
      asked = record { exercise = c.it.case.exercise; sheet = c.it.case.sheet };
      head = record { head = c.it.case.head; stated = Lists c.it.lines };
      owed = owed_by_walk (ways_of c.it.case.exercise) c.judging.walk;
      count = c.judging.taken;
      refusal = option_map refused_by c.judging.refusal;
    } };

    ghost invariant = { λ c. IsSharpChecking c.it c.judging };
}

impl<'a, 'f> SharpChecker<'a, 'f> {
    /// A checker for which the empty prefix is owed. It takes all its memory here.
    pub(crate) fn open(alloc: Global, it: SharpCase<'a, 'f>) -> Result<SharpChecker<'a, 'f>, Memory>
        requires keys { AllByRecursion AreKeys it.lines }
        requires due { AreDue it.case.sheet it.lines }
        requires small { HasSmallWeights it.case.sheet }
        ensures { IfOk result (λ c. c ≡ opened_for it.entry.case.exercise it.entry.case.sheet
            it.entry.case.head (Lists it.entry.lines)) }
    {
        it.kept();
        let judging = begin(alloc, &it)?;
        Ok(SharpChecker { it, judging })
    }

    /// What each checker keeps: its head is sound, and so are its prices. It does nothing; callers
    /// that prove something about a checker learn this from it.
    pub(crate) fn kept(&self)
        ensures { IsSound self.now.asked.exercise self.now.asked.sheet self.now.head }
    {
        let _ = &self.judging;
    }
}

impl<'a, 'f> Checks for SharpChecker<'a, 'f> {
    ghost use Rattle.std.specs.Prelude.{List as Items};
    ghost use Rattle.cert_check.specs.Settings.{Asked as AnAsked, Opening as AnOpening, setting_subject};
    ghost use Rattle.fux_grid.specs.declared.cell.Cell.{Cell as ACell};

    ghost Asked = { AnAsked };

    ghost Head = { AnOpening };

    ghost Node = { Items (Items ACell) };

    ghost subject = { setting_subject };

    ghost seen = { λ c. c };

    fn feed(&mut self, claim: Claim) -> Result<(), Refused> {
        match feed(&self.it, &mut self.judging, claim) {
            Ok(()) => Ok(()),
            Err(refusal) => Err(refused_by(refusal)),
        }
    }

    fn finish(&self) -> Result<Accepted, Refused> {
        match finish(&self.it, &self.judging) {
            Ok(()) => Ok(accepted_by(self.it.head())),
            Err(refusal) => Err(refused_by(refusal)),
        }
    }
}

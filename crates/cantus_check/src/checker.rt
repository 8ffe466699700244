//! The checker of cantus certificates.

ghost use Rattle.std.specs.Prelude.{◌≡◌, true, false, [], None, IfErr, IfOk, OnOk};
ghost use Rattle.cert_tree.specs.Trees.{OwesRefuting};
ghost use Rattle.cantus_check.specs.Certificates.{Begins, IsHeadSound, Refutes};
ghost use Rattle.cantus_space.specs.Lawful.{IsLawful, penalty_of};
ghost use Rattle.cantus_check.specs.Topics.{TellsWhy};
ghost use Rattle.cert_file.specs.Checking.{opened_at};

use crate::case::CantusCase;
use crate::head::CantusHead;
use crate::known::CantusKnown;
use cantus_space::{CantusSpace, lawful_penalty};
use cert_file::{Checks, refused_by};
use cert_text::{Accepted, Claim, Refused, Why};
use cert_tree::{Judging, begin, feed, finish};
use fux_pitch::Pitch;
use std::alloc::Global;
use std::marker::Model;

/// Why a checker isn't opened.
#[derive(Clone, Copy, Debug, PartialEq, Eq)]
pub enum CantusOpen {
    /// The head's cantus isn't a lawful one that has the head's penalty.
    Refused(Refused),
    Memory,
}

/// Judges the claims of a cantus certificate one by one. It holds the open lists of pitches that
/// begin the one owed next, and nothing else of what was judged, so that it takes no memory after
/// it is opened.
#[derive(Drop)]
pub struct CantusChecker {
    case: CantusCase,
    judging: Judging<CantusKnown>,
}

impl Model for CantusChecker {
    ghost use Rattle.std.specs.Prelude.{option_map};
    ghost use Rattle.std.specs.Prelude.{List as Items};
    ghost use Rattle.cantus_space.specs.declared.plan.CantusPlan.{CantusPlan as APlan};
    ghost use Rattle.cantus_check.specs.Heads.{Said as ASaid};
    ghost use Rattle.cantus_check.specs.Topics.{IsChecking};
    ghost use Rattle.cert_file.specs.Checking.{Checking, refused_by};
    ghost use Rattle.fux_pitch.specs.declared.pitch.Pitch.{Pitch as APitch};
    ghost use Rattle.cantus_check.specs.Known.{ways_of};
    ghost use Rattle.cert_tree.specs.Walks.{owed_by_walk};

    ghost Value = { Checking APlan ASaid (Items APitch) };

    ghost view = { λ c. record {
      asked = c.case.space;
      head = c.case.head.best;
      owed = owed_by_walk (ways_of c.case.space) c.judging.walk;
      count = c.judging.taken;
      refusal = option_map refused_by c.judging.refusal;
    } };

    ghost invariant = { λ c. IsChecking c.case.space c.case.head.best c.judging };
}

/// Whether a cantus is lawful and has this penalty.
fn has_penalty(space: &CantusSpace, cantus: &[Pitch], penalty: u64) -> bool
    ensures sound { result ≡ true → IsLawful space.now cantus.now × (penalty_of space.now cantus.now
        ≡ penalty) }
    ensures unsound { result ≡ false → IsLawful space.now cantus.now → penalty_of space.now
        cantus.now ≡ penalty → ⊥ }
{
    match lawful_penalty(space, cantus) {
        Some(found) => found == penalty,
        None => false,
    }
}

/// Whether a head's cantus is lawful and has the head's penalty.
fn is_sound(space: &CantusSpace, head: &CantusHead) -> bool
    ensures sound { result ≡ true → IsHeadSound space.now head.now.best }
    ensures unsound { result ≡ false → IsHeadSound space.now head.now.best → ⊥ }
{
    match &head.best {
        None => true,
        Some((penalty, cantus)) => has_penalty(space, cantus.as_slice(), *penalty),
    }
}

/// A space of the cantus of another one.
fn same_space(space: &CantusSpace) -> CantusSpace
    ensures { result ≡ space.now }
{
    let plan = space.plan();
    CantusSpace::new(
        plan.mode,
        plan.bars,
        plan.low,
        plan.high,
        &plan.sheet,
        &plan.prices,
    )
}

impl CantusChecker {
    /// A checker of the claims of a certificate with this head. All memory is taken here.
    pub fn open(
        alloc: Global,
        space: &CantusSpace,
        head: CantusHead,
    ) -> Result<CantusChecker, CantusOpen>
        ensures opened { IfOk result (λ c. c ≡ opened_at space.now head.best []) }

        // The head is judged before any claim.
        ensures sound { OnOk result (IsHeadSound space.now head.best) }
        ensures fault { IfErr result (TellsWhy space.now head.best) }
    {
        if !is_sound(space, &head) {
            return Err(CantusOpen::Refused(Refused {
                number: 0,
                why: Why::Head,
            }));
        }
        let case = CantusCase {
            space: same_space(space),
            head,
        };
        match begin(alloc, &case) {
            Ok(judging) => Ok(CantusChecker { case, judging }),
            Err(_) => Err(CantusOpen::Memory),
        }
    }

    /// What each checker keeps: its head is sound, and as long as no claim was refused, each cantus
    /// that refutes the head is begun by a list that is owed. It does nothing; callers that prove
    /// something about a checker learn this from it.
    pub fn kept(&self)
        ensures sound { IsHeadSound self.now.asked self.now.head }
        ensures owes { self.now.refusal ≡ None
            → OwesRefuting Begins (Refutes self.now.asked self.now.head) self.now.owed }
    {
        let _ = &self.judging;
    }
}

impl Checks for CantusChecker {
    ghost use Rattle.std.specs.Prelude.{List as Items};
    ghost use Rattle.cantus_space.specs.declared.plan.CantusPlan.{CantusPlan as APlan};
    ghost use Rattle.cantus_check.specs.Topics.{cantus_subject};
    ghost use Rattle.cantus_check.specs.Heads.{Said as ASaid};
    ghost use Rattle.fux_pitch.specs.declared.pitch.Pitch.{Pitch as APitch};

    ghost Asked = { APlan };

    ghost Head = { ASaid };

    ghost Node = { Items APitch };

    ghost subject = { cantus_subject };

    ghost seen = { λ c. c };

    fn feed(&mut self, claim: Claim) -> Result<(), Refused> {
        match feed(&self.case, &mut self.judging, claim) {
            Ok(()) => Ok(()),
            Err(refusal) => Err(refused_by(refusal)),
        }
    }

    fn finish(&self) -> Result<Accepted, Refused> {
        match finish(&self.case, &self.judging) {
            Ok(()) => Ok(match &self.case.head.best {
                Some((penalty, _)) => Accepted::Best(*penalty),
                None => Accepted::Nothing,
            }),
            Err(refusal) => Err(refused_by(refusal)),
        }
    }
}

//! The file of a cantus certificate, from its name to the verdict.

ghost use Rattle.std.specs.Prelude.{◌≡◌, ◌≢◌, ◌+◌, ◌≤◌, ◌⊎◌, Err, IfErr, IfOk};
ghost use Rattle.cantus_check.specs.Answers.{Answers, unopened, unstarted};
ghost use Rattle.cantus_check.specs.Topics.{cantus_subject};
ghost use Rattle.cert_file.specs.Judgments.{AcceptsValid};
ghost use Rattle.cert_file.specs.Nearness.{IsReadNear};
ghost use Rattle.cantus_check.specs.Heads.{Said};
ghost use Rattle.fux_port.specs.Counts.{Rose};
ghost use Rattle.fux_port.specs.Files.{IsMissing};
ghost use Rattle.fux_port.specs.Promises.{ServesWhole};

use crate::checker::{CantusChecker, CantusOpen};
use crate::starting::start;
use cantus_space::CantusSpace;
use cert_file::{ReadFault, Verdict, judge};
use cert_text::CertFault;
use fux_port::{Failed, Shelf};
use std::alloc::Global;

/// Why a certificate's file gets no verdict.
#[derive(Clone, Copy, Debug, PartialEq, Eq)]
pub enum CantusFault {
    /// A read failed, or no file has the name.
    Unreadable,
    /// There was not enough memory.
    Memory,
}

/// Judges the file of a cantus certificate, read in pieces of at most 65,536 bytes. All memory is
/// taken before the first claim is judged.
pub fn check_cantus_file<F: Shelf>(
    alloc: Global,
    space: &CantusSpace,
    shelf: &mut F,
    name: &str,
) -> Result<Verdict, CantusFault>
    ensures answers { Answers space.now (F.files shelf.old) name.now
        (Rose (F.faults shelf.old) (F.faults shelf.new)) result }

    // Each valid certificate is accepted.
    ensures accepts { IfOk result (λ it. (said : Said) → AcceptsValid (cantus_subject space.now)
        said (F.files shelf.old) name.now it) }

    // Where there is no file of the name, there is no verdict.
    ensures missing { IsMissing (F.files shelf.old) name.now
        → (result ≡ Err CantusFault.Unreadable) ⊎ (result ≡ Err CantusFault.Memory) }

    // No shelf is blamed that promises each read of the file up to the limit, and no more is read
    // than the limit and a byte beyond it.
    ensures served { ServesWhole (F.serves shelf.old) name.now 1073741824
        → IfErr result (λ fault. fault ≢ CantusFault.Unreadable) }
    ensures little { F.given shelf.new ≤ F.given shelf.old + 1073741825 }

    // Where a claim is refused or a line is wrong, no more than a piece is read beyond that line.
    ensures near { IfOk result (IsReadNear (cantus_subject space.now) (F.files shelf.old) name.now
        (F.given shelf.old) (F.given shelf.new)) }

    ensures files { F.files shelf.new ≡ F.files shelf.old }
    ensures faults { F.faults shelf.old ≤ F.faults shelf.new }
{
    let (head, mut reader) = match start(alloc, shelf, name) {
        Ok(started) => started,
        Err(fault) => return not_started(fault),
    };
    let checker = match CantusChecker::open(alloc, space, head) {
        Ok(checker) => checker,
        Err(fault) => return not_opened(fault),
    };
    checker.kept();
    match judge(shelf, name, &mut reader, checker) {
        Ok(verdict) => Ok(verdict),
        Err(Failed) => Err(CantusFault::Unreadable),
    }
}

/// The answer where no head was read.
fn not_started(fault: ReadFault) -> Result<Verdict, CantusFault>
    ensures { result ≡ unstarted fault }
{
    match fault {
        ReadFault::Unreadable => Err(CantusFault::Unreadable),
        ReadFault::Text(CertFault::Memory) => Err(CantusFault::Memory),
        ReadFault::Text(fault) => Ok(Verdict::Text(fault)),
    }
}

/// The answer where the checker isn't opened behind a head.
fn not_opened(fault: CantusOpen) -> Result<Verdict, CantusFault>
    ensures { result ≡ unopened fault }
{
    match fault {
        CantusOpen::Refused(refused) => Ok(Verdict::Claim(refused)),
        CantusOpen::Memory => Err(CantusFault::Memory),
    }
}

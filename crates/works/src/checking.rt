//! The command `check`.

ghost use Rattle.std.specs.Prelude.{◌≡◌, ◌+◌, ◌≤◌, IfErr, IfOk};
ghost use Rattle.fux_grid.specs.Exercises.{IsValid};
ghost use Rattle.fux_port.specs.Promises.{ServesWhole};
ghost use Rattle.works.specs.Blame.{IsReadWithin};
ghost use Rattle.works.specs.Checked.{ChecksOn, told, unmade_by, verdict_on};
ghost use Rattle.works.specs.Near.{ChecksNear};

use crate::refusal::Refusal;
use crate::work::{Output, Stop, Unmade, Verdict};
use cert_check::{CheckFault, check_file, verdict_text};
use fux_grid::Exercise;
use fux_pitch::Memory;
use fux_port::Shelf;
use penalty_sheet::Sheet;
use species_space::first_too_wide;
use std::alloc::Global;
use std::thread::Threads;

/// Judges the certificate in a file for an exercise, over a sheet of weights. The file is read only
/// where no menu is too wide.
pub fn check<F: Shelf, R: Threads + Sync>(
    rt: &R,
    alloc: Global,
    exercise: &Exercise,
    sheet: &Sheet,
    shelf: &mut F,
    certificate: &str,
) -> Result<Output, Unmade>
    requires { IsValid exercise.now }
    ensures checks { ChecksOn F.files F.faults certificate.now sheet.now exercise.now shelf.old
        shelf.new result }
    ensures served { ServesWhole (F.serves shelf.old) certificate.now 1073741824
        → IfErr result IsReadWithin }
    ensures little { F.given shelf.new ≤ F.given shelf.old + 1073741825 }
    ensures near { IfOk result (λ output. ChecksNear exercise.now sheet.now (F.files shelf.old)
        certificate.now (F.given shelf.old) (F.given shelf.new) (λ line. output.bytes ≡ line)) }
    ensures files { F.files shelf.new ≡ F.files shelf.old }
    ensures faults { F.faults shelf.old ≤ F.faults shelf.new }
{
    if let Some((place, count)) = first_too_wide(exercise) {
        return Err(Unmade::Stopped(Stop::Refused(Refusal::TooWide { place, count })));
    }
    match check_file(rt, alloc, exercise, sheet, shelf, certificate) {
        Ok(verdict) => Ok(output_on(alloc, verdict)?),
        Err(fault) => Err(unmade_by(fault)),
    }
}

/// Why there is no output, where the file of a certificate gets no verdict.
fn unmade_by(fault: CheckFault) -> Unmade
    ensures { result ≡ unmade_by fault }
{
    match fault {
        CheckFault::Unreadable => Unmade::Unreadable,
        CheckFault::TooWide { place, count } => {
            Unmade::Stopped(Stop::Refused(Refusal::TooWide { place, count }))
        }
        CheckFault::TooLarge => Unmade::Stopped(Stop::Refused(Refusal::LargeGraph)),
        CheckFault::Memory => Unmade::Stopped(Stop::Memory),
    }
}

/// The line of a verdict, with what it says all in all.
pub fn output_on(alloc: Global, verdict: cert_check::Verdict) -> Result<Output, Memory>
    ensures { IfOk result (λ output. output ≡ told verdict) }
{
    let text = verdict_text(alloc, verdict)?;
    Ok(Output::of_text(verdict_on(verdict), text))
}

/// What a verdict on a certificate says all in all.
fn verdict_on(verdict: cert_check::Verdict) -> Verdict
    ensures { result ≡ verdict_on verdict }
{
    match verdict {
        cert_check::Verdict::Accepted(_) => Verdict::Favorable,
        cert_check::Verdict::Claim(_) | cert_check::Verdict::Text(_) => Verdict::Unfavorable,
    }
}

//! The command `certcantus`.

ghost use Rattle.std.specs.Prelude.{◌≡◌, IfErr, ℕ, List};
ghost use Rattle.cantus_check.specs.Certificates.{Holds};
ghost use Rattle.cantus_check.specs.WrittenHeads.{said_with};
ghost use Rattle.works.specs.Blame.{Blames, BlamesNoFile, IsUnserved, ServesNames};
ghost use Rattle.works.specs.Little.{ReadsLittle};
ghost use Rattle.works.specs.CantusCertified.{CertifiesPlan, CertifiesSaid, MakesCantusCertificate};
ghost use Rattle.command_words.specs.Commands.{IsWanted, certify_cantus, sheet_named};
ghost use Rattle.works.specs.TaskFiles.{as_list};
ghost use Rattle.works.specs.Invented.{plan_of};
ghost use Rattle.works.specs.Endings.{Ended, EndsOn, WritesTo};
ghost use Rattle.works.specs.Works.{AreContents};

use crate::certifying::{penalty_fits, put_bound};
use crate::complaint::Complaint;
use crate::inventing::space_of;
use crate::making::{read_weights, said_of};
use crate::refusal::Refusal;
use crate::weighing::priced_of;
use crate::work::{Halt, Stop, Verdict};
use cantus_space::{CantusSpace, PricedSheet, cantus_of};
use cert_text::CertWrite;
use class_marker::Text;
use command_words::Wanted;
use fux_pitch::Pitch;
use fux_port::{Shelf, Sink};
use std::alloc::Global;
use tree_search::{Outcome, search_quest};

/// Writes the certificate of the best cantus that is as is asked, over the sheet in a file where
/// one is named.
pub fn perform_cantus<'a, F: Shelf, K: Sink>(
    alloc: Global,
    wanted: Wanted,
    sheet: Option<&'a str>,
    budget: u32,
    shelf: &mut F,
    out: &mut K,
) -> Result<Verdict, Complaint<'a>>
    requires { IsWanted wanted }
    ensures ended { EndsOn F.files F.faults K.written K.faults K.serves
        (Ended (certify_cantus wanted (sheet_named sheet.entry) budget)) shelf.old shelf.new out.old
        out.new result }
    ensures served { ServesNames (F.serves shelf.old) 65536 (as_list (sheet_named sheet.entry))
        → IfErr result BlamesNoFile }
    ensures blamed { IfErr result (Blames (IsUnserved (F.serves shelf.old) (F.files shelf.old)
        (certify_cantus wanted (sheet_named sheet.entry) budget))) }
    ensures little { ReadsLittle (certify_cantus wanted (sheet_named sheet.entry) budget)
        (F.files shelf.old) (F.given shelf.old) (F.given shelf.new) }
    ensures files { F.files shelf.new ≡ F.files shelf.old }
{
    let weights = read_weights(alloc, shelf, sheet)?;
    said_of(
        alloc,
        "",
        certify_over(alloc, &wanted, &weights, budget, out),
    )
}

/// Writes the certificate, over the file of a sheet where one is given.
fn certify_over<K: Sink>(
    alloc: Global,
    wanted: &Wanted,
    weights: &Option<Text>,
    budget: u32,
    out: &mut K,
) -> Result<Verdict, Halt>
    requires { IsWanted wanted.now }
    ensures { (sheets : List (List ℕ)) → AreContents 65536 (as_list weights.now) sheets
        → WritesTo K.written K.faults K.serves (MakesCantusCertificate wanted.now budget sheets)
        out.old out.new result }
{
    let priced = priced_of(alloc, weights)?;
    certify(alloc, wanted, &priced, budget, out)
}

/// Writes the certificate of the best cantus over a sheet of weights, or that there is none, or a
/// bound.
fn certify<K: Sink>(
    alloc: Global,
    wanted: &Wanted,
    priced: &PricedSheet,
    budget: u32,
    out: &mut K,
) -> Result<Verdict, Halt>
    requires { IsWanted wanted.now }
    ensures { WritesTo K.written K.faults K.serves (CertifiesPlan (plan_of wanted.now
        priced.now.sheet priced.now.prices) budget) out.old out.new result }
{
    let space = space_of(wanted, priced);
    let Ok(outcome) = search_quest(alloc, &space, budget) else {
        return Err(Halt::Stopped(Stop::Memory));
    };
    match outcome {
        Outcome::Found { path, value } => {
            let Ok(cantus) = cantus_of(alloc, &space, path.as_slice()) else {
                return Err(Halt::Stopped(Stop::Memory));
            };
            penalty_fits(value);
            let best = Some((cantus.as_slice(), value));
            put_certificate(alloc, &space, best, Verdict::Favorable, out)
        }
        Outcome::Nothing => put_certificate(alloc, &space, None, Verdict::Unfavorable, out),
        Outcome::Spent { bound } => put_bound(alloc, bound, out),
    }
}

/// Writes the certificate of the best cantus with its penalty, or the one that says that no cantus
/// is lawful.
fn put_certificate<K: Sink>(
    alloc: Global,
    space: &CantusSpace,
    best: Option<(&[Pitch], u64)>,
    verdict: Verdict,
    out: &mut K,
) -> Result<Verdict, Halt>
    requires holds { Holds space.now (said_with best) }
    ensures { WritesTo K.written K.faults K.serves (CertifiesSaid space.now (said_with best.entry)
        verdict) out.old out.new result }
{
    match cantus_check::certify_cantus(alloc, space, best, out) {
        Ok(()) => Ok(verdict),
        Err(CertWrite::WriteFault) => Err(Halt::Unwritable),
        Err(CertWrite::TooLong) => Err(Halt::Stopped(Stop::Refused(Refusal::LongCertificate))),
        Err(CertWrite::Memory) => Err(Halt::Stopped(Stop::Memory)),
    }
}

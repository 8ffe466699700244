//! The command `certify`.

ghost use Rattle.std.specs.Prelude.{◌≡◌, ◌<◌, ◌^◌, ◌∷◌, IfErr, None};
ghost use Rattle.cert_law.specs.Certificates.{Holds};
ghost use Rattle.cert_text.specs.HeadRows.{IsUpTo};
ghost use Rattle.cert_writer.specs.Heads.{head_with};
ghost use Rattle.fux_grid.specs.Exercises.{IsValid};
ghost use Rattle.command_words.specs.Commands.{certify, sheet_named};
ghost use Rattle.works.specs.Blame.{Blames, BlamesNoFile, IsUnserved, ServesNames};
ghost use Rattle.works.specs.Little.{ReadsLittle};
ghost use Rattle.works.specs.Certified.{Certifies, CertifiesFound};
ghost use Rattle.works.specs.Composed.{IsBoundText};
ghost use Rattle.works.specs.Endings.{CertifiesTexts, CertifyEnds, WritesTo};
ghost use Rattle.works.specs.TaskFiles.{as_list};

use crate::complaint::Complaint;
use crate::composing::bound_text;
use crate::content::read_content;
use crate::exercise::{LONGEST_TEXT, exercise_of};
use crate::making::{read_weights, said_of};
use crate::refusal::Refusal;
use crate::searching::{Found, search_for, space_of};
use crate::weighing::sheet_of;
use crate::work::{Halt, Stop, Verdict};
use cert_text::{CertWrite, Form};
use cert_writer::{PricesWrite, certify_form, certify_prices};
use class_marker::Text;
use fux_grid::{Exercise, Score};
use fux_port::{Failed, Shelf, Sink, write_all};
use penalty_sheet::Sheet;
use species_space::SpeciesSpace;
use std::alloc::Global;
use std::thread::Threads;

/// Writes the certificate, in a form, of the best setting of an exercise over a sheet of weights,
/// or that there is none, or a bound.
pub fn certify<K: Sink, R: Threads + Sync>(
    rt: &R,
    alloc: Global,
    exercise: &Exercise,
    sheet: &Sheet,
    budget: u32,
    form: Form,
    out: &mut K,
) -> Result<Verdict, Halt>
    requires valid { IsValid exercise.now }
    requires unmixed { exercise.now.mixed ≡ None }
    ensures { WritesTo K.written K.faults K.serves (Certifies budget form sheet.now exercise.now)
        out.old out.new result }
{
    let space = space_of(rt, alloc, exercise, sheet)?;
    let Ok(found) = search_for(alloc, &space, budget, form) else {
        return Err(Halt::Stopped(Stop::Memory));
    };
    match found {
        Found::Best { score, penalty } => {
            penalty_fits(penalty);
            put_certificate(
                rt,
                alloc,
                &space,
                budget,
                form,
                Some((&score, penalty)),
                Verdict::Favorable,
                out,
            )
        }
        Found::Nothing => put_certificate(
            rt,
            alloc,
            &space,
            budget,
            form,
            None,
            Verdict::Unfavorable,
            out,
        ),
        Found::Spent { bound } => put_bound(alloc, bound, out),
    }
}

/// A penalty has 64 bits, as the head of a certificate may say. It does nothing.
pub fn penalty_fits(penalty: u64)
    ensures { penalty < 2 ^ 64 }
{
    let _ = penalty;
}

/// Writes the certificate, in a form, of the best setting with its penalty, or the one that says
/// that no setting is lawful. The prices of the third form are sought within the budget.
fn put_certificate<K: Sink, R: Threads + Sync>(
    rt: &R,
    alloc: Global,
    space: &SpeciesSpace<'_>,
    budget: u32,
    form: Form,
    best: Option<(&Score, u64)>,
    verdict: Verdict,
    out: &mut K,
) -> Result<Verdict, Halt>
    requires valid { IsValid space.now.exercise }
    requires unmixed { space.now.exercise.mixed ≡ None }
    requires holds { Holds space.now.exercise space.now.sheet (head_with best) }
    ensures { WritesTo K.written K.faults K.serves (CertifiesFound space.now form best.entry
        verdict) out.old out.new result }
{
    match form {
        Form::First => put_numbers(alloc, space, Form::First, best, verdict, out),
        Form::Second => put_numbers(alloc, space, Form::Second, best, verdict, out),
        Form::Third => put_prices(rt, alloc, space, budget, best, verdict, out),
    }
}

/// Writes it in a form by numbers.
fn put_numbers<K: Sink>(
    alloc: Global,
    space: &SpeciesSpace<'_>,
    form: Form,
    best: Option<(&Score, u64)>,
    verdict: Verdict,
    out: &mut K,
) -> Result<Verdict, Halt>
    requires valid { IsValid space.now.exercise }
    requires unmixed { space.now.exercise.mixed ≡ None }
    requires holds { Holds space.now.exercise space.now.sheet (head_with best) }
    requires numbers { IsUpTo Form.Second form }
    ensures { WritesTo K.written K.faults K.serves (CertifiesFound space.now form best.entry
        verdict) out.old out.new result }
{
    match certify_form(alloc, space, best, form, out) {
        Ok(()) => Ok(verdict),
        Err(CertWrite::WriteFault) => Err(Halt::Unwritable),
        Err(CertWrite::TooLong) => Err(Halt::Stopped(Stop::Refused(Refusal::LongCertificate))),
        Err(CertWrite::Memory) => Err(Halt::Stopped(Stop::Memory)),
    }
}

/// Writes it in the form by prices.
fn put_prices<K: Sink, R: Threads + Sync>(
    rt: &R,
    alloc: Global,
    space: &SpeciesSpace<'_>,
    budget: u32,
    best: Option<(&Score, u64)>,
    verdict: Verdict,
    out: &mut K,
) -> Result<Verdict, Halt>
    requires unmixed { space.now.exercise.mixed ≡ None }
    requires holds { Holds space.now.exercise space.now.sheet (head_with best) }
    ensures { WritesTo K.written K.faults K.serves (CertifiesFound space.now Form.Third best.entry
        verdict) out.old out.new result }
{
    match certify_prices(rt, alloc, space, best, budget, out) {
        Ok(()) => Ok(verdict),
        Err(PricesWrite::WriteFault) => Err(Halt::Unwritable),
        Err(PricesWrite::TooLong) => Err(Halt::Stopped(Stop::Refused(Refusal::LongCertificate))),
        Err(PricesWrite::TooLarge) => Err(Halt::Stopped(Stop::Refused(Refusal::LargeGraph))),
        Err(PricesWrite::Memory) => Err(Halt::Stopped(Stop::Memory)),
    }
}

/// Writes the line of a bound.
pub fn put_bound<K: Sink>(alloc: Global, bound: u64, out: &mut K) -> Result<Verdict, Halt>
    ensures { WritesTo K.written K.faults K.serves (IsBoundText bound) out.old out.new result }
{
    let Ok(text) = bound_text(alloc, bound) else {
        return Err(Halt::Stopped(Stop::Memory));
    };
    match write_all(out, text.as_str().as_bytes()) {
        Ok(()) => Ok(Verdict::Spent),
        Err(Failed) => Err(Halt::Unwritable),
    }
}

/// Writes the certificate, in a form, of the exercise in a file, over the sheet in another where
/// one is named.
pub fn perform_certify<'a, F: Shelf, K: Sink, R: Threads + Sync>(
    rt: &R,
    alloc: Global,
    name: &'a str,
    sheet: Option<&'a str>,
    budget: u32,
    form: Form,
    shelf: &mut F,
    out: &mut K,
) -> Result<Verdict, Complaint<'a>>
    ensures ended { CertifyEnds F.files F.faults K.written K.faults K.serves name.entry sheet.entry
        budget form shelf.old shelf.new out.old out.new result }
    ensures served { ServesNames (F.serves shelf.old) 65536 (name.entry.now
        ∷ as_list (sheet_named sheet.entry)) → IfErr result BlamesNoFile }
    ensures blamed { IfErr result (Blames (IsUnserved (F.serves shelf.old) (F.files shelf.old)
        (certify name.entry.now (sheet_named sheet.entry) budget form))) }
    ensures little { ReadsLittle (certify name.entry.now (sheet_named sheet.entry) budget form)
        (F.files shelf.old) (F.given shelf.old) (F.given shelf.new) }
    ensures files { F.files shelf.new ≡ F.files shelf.old }
{
    let text = read_content(alloc, shelf, name, LONGEST_TEXT)?;
    let weights = read_weights(alloc, shelf, sheet)?;
    said_of(
        alloc,
        name,
        certify_texts(rt, alloc, &text, &weights, budget, form, out),
    )
}

/// Writes the certificate, in a form, of the exercise of a text, over the sheet of a file where one
/// is given.
fn certify_texts<K: Sink, R: Threads + Sync>(
    rt: &R,
    alloc: Global,
    text: &Text,
    weights: &Option<Text>,
    budget: u32,
    form: Form,
    out: &mut K,
) -> Result<Verdict, Halt>
    ensures { CertifiesTexts K.written K.faults K.serves budget form text.now weights.now out.old
        out.new result }
{
    let exercise = exercise_of(alloc, text)?;
    let sheet = sheet_of(alloc, weights)?;
    certify(rt, alloc, &exercise, &sheet, budget, form, out)
}

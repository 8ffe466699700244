//! Writing a whole certificate.

ghost use Rattle.std.specs.Prelude.{◌≡◌, ◌≢◌, ◌<◌, ◌≤◌, ◌++◌, Err, IsOk, None, OnErr, OnOk, length, vec_capacity};
ghost use Rattle.std.specs.List.{AllByRecursion};
ghost use Rattle.cert_law.specs.Rests.{entries_of};
ghost use Rattle.cert_law.specs.Writer.{written_certificate};
ghost use Rattle.cert_text.specs.HeadRows.{IsUpTo};
ghost use Rattle.cert_text.specs.Potentials.{IsPotential};
ghost use Rattle.cert_law.specs.Cases.{matter_of};
ghost use Rattle.cert_law.specs.Certificates.{Holds};
ghost use Rattle.cert_writer.specs.Heads.{found_text, head_with};
ghost use Rattle.cert_writer.specs.Stages.{all_lines};
ghost use Rattle.cert_writer.specs.Writing.{IsTask};
ghost use Rattle.cert_file.specs.Ends.{EndsUnwritten, FailsShort};
ghost use Rattle.cert_file.specs.Kept.{KeepsAll};
ghost use Rattle.fux_grid.specs.Exercises.{columns_in};
ghost use Rattle.fux_port.specs.Counts.{Rose};
ghost use Rattle.fux_port.specs.Written.{StopsShort, appended};

use crate::begin::{begin, room_for_lines};
use crate::copy::head_of;
use crate::head::head_text;
use crate::lines::Lines;
use crate::next::TaskLines;
use cert_file::{KeptLines, is_within, write_kept, write_parts};
use cert_law::{Case, weights_are_small};
use cert_text::{CertHead, CertWrite, Form};
use fux_grid::{Exercise, Score};
use fux_port::{Failed, Sink};
use penalty_sheet::Sheet;
use price_check::MenuTails;
use species_space::SpeciesSpace;
use std::alloc::Global;

/// Writes the text of a head, and behind it all lines of a certificate, which are few enough: those
/// that were kept, or else each prefix is judged once more.
fn write_counted<K: Sink>(
    lines: &mut Lines,
    form: Form,
    case: &Case<'_>,
    tables: &MenuTails<'_>,
    kept: &KeptLines,
    text: &str,
    sink: &mut K,
) -> Result<(), Failed>
    requires task { IsTask (matter_of case.now) tables.now }
    requires room { vec_capacity lines.old.walk.levels ≡ columns_in case.now.exercise.now }
    requires kept { KeepsAll kept.now (all_lines (matter_of case.now) form) }
    ensures ok { OnOk result (K.written sink.new ≡ appended (K.written sink.old)
        (text.now ++ all_lines (matter_of case.now) form)) }
    ensures cause { OnErr result (Rose (K.faults sink.old) (K.faults sink.new)) }
    ensures err { OnErr result (StopsShort (K.written sink.old) (K.written sink.new)
        (text.now ++ all_lines (matter_of case.now) form)) }
    ensures taken { K.serves sink.old (length (text.now ++ all_lines (matter_of case.now) form))
        → IsOk result }
    ensures faults { K.faults sink.old ≤ K.faults sink.new }
{
    if kept.are_all {
        return write_kept(text, kept, sink);
    }
    begin(lines, form, case, tables);
    write_parts(&TaskLines { case, tables }, lines, text, sink)
}

/// Writes the certificate of a form, of a head that holds.
pub(crate) fn write_for_head<K: Sink>(
    alloc: Global,
    ex: &Exercise,
    sheet: &Sheet,
    tables: &MenuTails<'_>,
    form: Form,
    head: &CertHead,
    sink: &mut K,
) -> Result<(), CertWrite>
    requires task { IsTask (record { exercise = ex.now; sheet = sheet.now; head = head.now })
        tables.now }
    ensures ok { OnOk result (K.written sink.new
        ≡ appended (K.written sink.old) (written_certificate ex.now sheet.now form head.now)) }

    // A fault of writing is the sink's, and less than the certificate was written.
    ensures cause { result ≡ Err CertWrite.WriteFault → Rose (K.faults sink.old)
        (K.faults sink.new) }
    ensures short { FailsShort (K.written sink.old) (K.written sink.new)
        (written_certificate ex.now sheet.now form head.now) result }

    // No sink is blamed that promises to take the whole certificate.
    ensures taken { K.serves sink.old (length (written_certificate ex.now sheet.now form head.now))
        → result ≢ Err CertWrite.WriteFault }

    // Nothing is written of a certificate that is too long, nor where there is not enough memory.
    ensures too_long { result ≡ Err CertWrite.TooLong
        → 1073741824 < length (written_certificate ex.now sheet.now form head.now) }
    ensures fits { 1073741824 < length (written_certificate ex.now sheet.now form head.now)
        → EndsUnwritten result }
    ensures unwritten { EndsUnwritten result → K.written sink.new ≡ K.written sink.old }
    ensures faults { K.faults sink.old ≤ K.faults sink.new }
{
    let Ok(text) = head_text(alloc, ex, sheet, form, head) else {
        return Err(CertWrite::Memory);
    };
    let case = Case {
        exercise: ex,
        sheet,
        head,
    };
    let Ok(mut lines) = room_for_lines(alloc, &case, tables) else {
        return Err(CertWrite::Memory);
    };
    begin(&mut lines, form, &case, tables);
    let mut kept = KeptLines::new(alloc);
    let source = TaskLines {
        case: &case,
        tables,
    };
    if !is_within(&source, &mut lines, &mut kept, text.len()) {
        return Err(CertWrite::TooLong);
    }
    match write_counted(&mut lines, form, &case, tables, &kept, text.as_str(), sink) {
        Ok(()) => Ok(()),
        Err(_) => Err(CertWrite::WriteFault),
    }
}

/// Writes the certificate of a form that states numbers or nothing, of the best setting with its
/// penalty, or the one that says that no setting is lawful, by the tables that the space has. The
/// exercise isn't mixed: claims don't name the rules of mixed ones. Its length is counted before its
/// first byte is written, and all memory is taken before that. Lines of up to 8 MiB are kept while
/// they are counted; where they are more, each prefix is judged once more, and each entry read from
/// the tables again, so that a certificate of any length takes no more memory than that.
pub fn certify_form<K: Sink>(
    alloc: Global,
    space: &SpeciesSpace<'_>,
    best: Option<(&Score, u64)>,
    form: Form,
    sink: &mut K,
) -> Result<(), CertWrite>
    requires numbers { IsUpTo Form.Second form }
    requires unmixed { space.now.exercise.mixed ≡ None }
    requires holds { Holds space.now.exercise space.now.sheet (head_with best) }
    ensures ok { OnOk result (K.written sink.new ≡ appended (K.written sink.old)
        (found_text space.now form best.entry)) }

    // Each number that the second form states is below 2^32.
    ensures small { AllByRecursion IsPotential (entries_of space.now.exercise space.now.sheet) }

    // A fault of writing is the sink's, and less than the certificate was written.
    ensures cause { result ≡ Err CertWrite.WriteFault → Rose (K.faults sink.old)
        (K.faults sink.new) }
    ensures short { FailsShort (K.written sink.old) (K.written sink.new)
        (found_text space.now form best.entry) result }

    // No sink is blamed that promises to take the whole certificate.
    ensures taken { K.serves sink.old (length (found_text space.now form best.entry))
        → result ≢ Err CertWrite.WriteFault }

    // Nothing is written of a certificate that is too long, nor where there is not enough memory.
    ensures too_long { result ≡ Err CertWrite.TooLong → 1073741824
        < length (found_text space.now form best.entry) }
    ensures fits { 1073741824 < length (found_text space.now form best.entry)
        → EndsUnwritten result }
    ensures unwritten { EndsUnwritten result → K.written sink.new ≡ K.written sink.old }
    ensures faults { K.faults sink.old ≤ K.faults sink.new }
{
    let exercise = space.exercise();
    let sheet = space.sheet();
    let kept = space.tables();
    weights_are_small(sheet);
    let Ok(head) = head_of(alloc, best) else {
        return Err(CertWrite::Memory);
    };
    let Ok(tables) = MenuTails::new(alloc, exercise, kept) else {
        return Err(CertWrite::Memory);
    };
    write_for_head(alloc, exercise, sheet, &tables, form, &head, sink)
}

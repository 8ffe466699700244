//! The file of a certificate, from its name to the verdict.

ghost use Rattle.std.specs.Prelude.{◌≡◌, ◌≢◌, ◌+◌, ◌≤◌, ◌⊎◌, [], Err, IfErr, IfOk, OnOk};
ghost use Rattle.cert_text.specs.declared.answers.CertHead.{CertHead as AHead};
ghost use Rattle.cert_check.specs.Answers.{Answers, IsHeadless, TellsNoWidth, unfilled, unopened, unstarted};
ghost use Rattle.cert_check.specs.Entering.{unclosed};
ghost use Rattle.cert_check.specs.Judged.{AreClaimsJudged, IsFileJudged, shelved};
ghost use Rattle.cert_check.specs.Listed.{unwoven};
ghost use Rattle.cert_check.specs.declared.checking.CheckFault.TheVariants.{Memory as no_memory};
ghost use Rattle.cert_file.specs.Checking.{opened_at};
ghost use Rattle.cert_file.specs.Nearness.{IsReadNear};
ghost use Rattle.cert_file.specs.Readings.{longest_piece};
ghost use Rattle.cert_check.specs.Settings.{AcceptsValid, IsOpeningText, setting_subject};
ghost use Rattle.cert_check.specs.Starts.{IsStarted};
ghost use Rattle.cert_file.specs.Subjects.{IsOpened};
ghost use Rattle.floor_tables.specs.Tables.{AreNarrow};
ghost use Rattle.fux_grid.specs.Exercises.{IsValid};
ghost use Rattle.fux_port.specs.Counts.{Rose};
ghost use Rattle.fux_port.specs.Files.{IsMissing};
ghost use Rattle.fux_port.specs.Promises.{ServesWhole};

use crate::checker::{Checker, OpenFault};
use crate::entering::enter;
use crate::priced::check_third;
use crate::starting::start;
use crate::stated::{CloseFault, Stated};
use cert_file::{Pieces, ReadFault, Reader, StatedReader, Verdict, judge};
use cert_law::Tails;
use cert_text::{CertFault, CertHead, Form};
use floor_tables::{TableFault, fill_tables};
use fux_grid::{Exercise, Place};
use fux_pitch::Memory;
use fux_port::{Failed, Shelf};
use penalty_sheet::Sheet;
use price_check::WebFault;
use std::alloc::Global;
use std::thread::Threads;

/// Why a certificate's file gets no verdict.
#[derive(Clone, Copy, Debug, PartialEq, Eq)]
pub enum CheckFault {
    /// A read failed, or no file has the name.
    Unreadable,
    /// A menu has more than 8,192 columns: the first such place, and how many it has.
    TooWide { place: Place, count: u64 },
    /// What the lists of a certificate of the third form keep is too much for a graph.
    TooLarge,
    /// There was not enough memory.
    Memory,
}

impl From<Memory> for CheckFault {
    ghost from_gives = { λ _ fault. fault ≡ no_memory };

    fn from(_: Memory) -> Self {
        CheckFault::Memory
    }
}

impl From<WebFault> for CheckFault {
    ghost from_gives = { λ fault found. found ≡ unwoven fault };

    fn from(fault: WebFault) -> Self {
        match fault {
            WebFault::TooLarge => CheckFault::TooLarge,
            WebFault::Memory => CheckFault::Memory,
        }
    }
}

/// Judges the file of a certificate of any form, read in pieces of at most 65,536 bytes. All memory
/// is taken before the first claim is judged. The second form is judged without tables: what it
/// states is compared, and the claims are judged by that. In the third form numbers are worked from
/// the prices that it states.
pub fn check_file<R: Threads + Sync, F: Shelf>(
    rt: &R,
    alloc: Global,
    ex: &Exercise,
    sheet: &Sheet,
    shelf: &mut F,
    name: &str,
) -> Result<Verdict, CheckFault>
    requires valid { IsValid ex.now }
    ensures answers { Answers ex.now sheet.now (F.files shelf.old) name.now
        (Rose (F.faults shelf.old) (F.faults shelf.new)) result }

    // Each valid certificate is accepted.
    ensures accepts { IfOk result (λ it. (head : AHead) → AcceptsValid ex.now sheet.now head
        (F.files shelf.old) name.now it) }

    // Where there is no file of the name, there is no verdict.
    ensures missing { IsMissing (F.files shelf.old) name.now
        → (result ≡ Err CheckFault.Unreadable) ⊎ (result ≡ Err CheckFault.Memory) }

    // No shelf is blamed that promises each read of the file up to the limit, and no more is read
    // than the limit and a byte beyond it.
    ensures served { ServesWhole (F.serves shelf.old) name.now 1073741824
        → IfErr result (λ fault. fault ≢ CheckFault.Unreadable) }
    ensures little { F.given shelf.new ≤ F.given shelf.old + 1073741825 }

    // Where a claim or a number is refused, or a line is wrong, no more than a piece is read beyond
    // that line; numbers that are stated are judged when all of them are read.
    ensures near { IfOk result (IsReadNear (setting_subject (record {
      exercise = ex.now;
      sheet = sheet.now;
    })) (F.files shelf.old) name.now (F.given shelf.old) (F.given shelf.new)) }

    // A menu that is too wide keeps the claims from being judged, and nothing else is told to be
    // too wide.
    ensures narrow { AreNarrow ex.now → IfErr result TellsNoWidth }
    ensures wide { (AreNarrow ex.now → ⊥) → IfOk result IsHeadless }

    ensures files { F.files shelf.new ≡ F.files shelf.old }
    ensures faults { F.faults shelf.old ≤ F.faults shelf.new }
{
    let (form, head, pieces) = match start(alloc, ex, shelf, name) {
        Ok(started) => started,
        Err(fault) => return not_started(fault),
    };
    check_form(rt, alloc, ex, sheet, shelf, name, form, head, pieces)
}

/// Judges what stands behind a head of this form.
fn check_form<R: Threads + Sync, F: Shelf>(
    rt: &R,
    alloc: Global,
    ex: &Exercise,
    sheet: &Sheet,
    shelf: &mut F,
    name: &str,
    form: Form,
    head: CertHead,
    pieces: Pieces,
) -> Result<Verdict, CheckFault>
    requires valid { IsValid ex.now }
    requires started { IsStarted ex.now (F.files shelf.old) name.now form head pieces }
    requires limit { pieces.offset ≤ longest_piece }
    ensures judged { IsFileJudged (record { exercise = ex.now; sheet = sheet.now }) name.now
        (ServesWhole (F.serves shelf.old) name.now 1073741824)
        (shelved (F.files shelf.old) (F.faults shelf.old) (F.given shelf.old))
        (shelved (F.files shelf.new) (F.faults shelf.new) (F.given shelf.new + pieces.offset))
        result }
    ensures wide { (AreNarrow ex.now → ⊥) → IfOk result IsHeadless }
{
    match form {
        Form::First => check_first(rt, alloc, ex, sheet, shelf, name, head, pieces),
        Form::Second => check_second(rt, alloc, ex, sheet, shelf, name, head, pieces),
        Form::Third => check_third(rt, alloc, ex, sheet, shelf, name, head, pieces),
    }
}

/// Judges the claims behind a head of the first form.
fn check_first<R: Threads + Sync, F: Shelf>(
    rt: &R,
    alloc: Global,
    ex: &Exercise,
    sheet: &Sheet,
    shelf: &mut F,
    name: &str,
    head: CertHead,
    pieces: Pieces,
) -> Result<Verdict, CheckFault>
    requires valid { IsValid ex.now }
    requires started { IsStarted ex.now (F.files shelf.old) name.now Form.First head pieces }
    requires limit { pieces.offset ≤ longest_piece }
    ensures judged { IsFileJudged (record { exercise = ex.now; sheet = sheet.now }) name.now
        (ServesWhole (F.serves shelf.old) name.now 1073741824)
        (shelved (F.files shelf.old) (F.faults shelf.old) (F.given shelf.old))
        (shelved (F.files shelf.new) (F.faults shelf.new) (F.given shelf.new + pieces.offset))
        result }
    ensures narrow { OnOk result (AreNarrow ex.now) }
{
    let tables = match fill_tables(rt, alloc, ex, sheet) {
        Ok(tables) => tables,
        Err(fault) => return not_filled(fault),
    };
    let checker = match Checker::open(alloc, ex, sheet, head, &tables) {
        Ok(checker) => checker,
        Err(fault) => return not_opened(fault),
    };
    judge_claims(shelf, name, Reader::behind(pieces), checker)
}

/// Judges what is stated behind a head of the second form, and then the claims.
fn check_second<R: Threads + Sync, F: Shelf>(
    rt: &R,
    alloc: Global,
    ex: &Exercise,
    sheet: &Sheet,
    shelf: &mut F,
    name: &str,
    head: CertHead,
    pieces: Pieces,
) -> Result<Verdict, CheckFault>
    requires valid { IsValid ex.now }
    requires started { IsStarted ex.now (F.files shelf.old) name.now Form.Second head pieces }
    requires limit { pieces.offset ≤ longest_piece }
    ensures judged { IsFileJudged (record { exercise = ex.now; sheet = sheet.now }) name.now
        (ServesWhole (F.serves shelf.old) name.now 1073741824)
        (shelved (F.files shelf.old) (F.faults shelf.old) (F.given shelf.old))
        (shelved (F.files shelf.new) (F.faults shelf.new) (F.given shelf.new + pieces.offset))
        result }
    ensures narrow { OnOk result (AreNarrow ex.now) }
{
    let mut stated = match Stated::open(alloc, ex, sheet, head) {
        Ok(stated) => stated,
        Err(fault) => return not_opened(fault),
    };
    let mut reader = StatedReader::behind(pieces, stated.owed());
    if let Err(fault) = enter(shelf, name, &mut reader, &mut stated) {
        return not_started(fault);
    }
    match stated.close(rt, alloc) {
        Ok(checker) => judge_claims(shelf, name, reader.claims(), checker),
        Err(fault) => not_closed(fault),
    }
}

/// Judges the claims behind what was opened.
fn judge_claims<F: Shelf, T: Tails + Drop>(
    shelf: &mut F,
    name: &str,
    mut reader: Reader,
    checker: Checker<'_, T>,
) -> Result<Verdict, CheckFault>
    requires fresh { checker ≡ opened_at checker.asked checker.head [] }
    requires opened { IsOpened (IsOpeningText checker.asked.exercise) (F.files shelf.old) name.now
        checker.head reader }
    ensures { AreClaimsJudged checker.entry.asked checker.entry.head name.now
        (ServesWhole (F.serves shelf.old) name.now 1073741824)
        (shelved (F.files shelf.old) (F.faults shelf.old) (F.given shelf.old))
        (shelved (F.files shelf.new) (F.faults shelf.new) (F.given shelf.new + reader.offset))
        result }
{
    checker.kept();
    match judge(shelf, name, &mut reader, checker) {
        Ok(verdict) => Ok(verdict),
        Err(Failed) => Err(CheckFault::Unreadable),
    }
}

/// The answer where no head was read, or not all that is stated.
pub(crate) fn not_started(fault: ReadFault) -> Result<Verdict, CheckFault>
    ensures { result ≡ unstarted fault }
{
    match fault {
        ReadFault::Unreadable => Err(CheckFault::Unreadable),
        ReadFault::Text(CertFault::Memory) => Err(CheckFault::Memory),
        ReadFault::Text(fault) => Ok(Verdict::Text(fault)),
    }
}

/// The answer where no tables are filled.
pub(crate) fn not_filled(fault: TableFault) -> Result<Verdict, CheckFault>
    ensures { result ≡ unfilled fault }
{
    match fault {
        TableFault::TooWide { place, count } => Err(CheckFault::TooWide { place, count }),
        TableFault::Memory => Err(CheckFault::Memory),
    }
}

/// The answer where the checker isn't opened behind a head.
fn not_opened(fault: OpenFault) -> Result<Verdict, CheckFault>
    ensures { result ≡ unopened fault }
{
    match fault {
        OpenFault::TooWide { place, count } => Err(CheckFault::TooWide { place, count }),
        OpenFault::Refused(refused) => Ok(Verdict::Claim(refused)),
        OpenFault::Memory => Err(CheckFault::Memory),
    }
}

/// The answer where an entry isn't true.
fn not_closed(fault: CloseFault) -> Result<Verdict, CheckFault>
    ensures { result ≡ unclosed fault }
{
    match fault {
        CloseFault::Refused(refused) => Ok(Verdict::Claim(refused)),
        CloseFault::Memory => Err(CheckFault::Memory),
    }
}

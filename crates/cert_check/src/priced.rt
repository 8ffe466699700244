//! Certificates of the third form: lists of prices behind the head, and then the claims.

ghost use Rattle.std.specs.Prelude.{◌≡◌, ◌+◌, ◌≤◌, [], map, IfErr, IfOk, OnOk};
ghost use Rattle.cert_check.specs.Answers.{IsHeadless};
ghost use Rattle.cert_check.specs.Judged.{AreClaimsJudged, IsFileJudged, shelved};
ghost use Rattle.cert_check.specs.Listed.{AreTaken, IsFrontSound, IsJudgedFront, TellsStop};
ghost use Rattle.cert_check.specs.Settings.{IsOpeningText, Lists};
ghost use Rattle.cert_check.specs.Starts.{IsStarted};
ghost use Rattle.cert_file.specs.Checking.{opened_at};
ghost use Rattle.cert_file.specs.Readings.{longest_piece};
ghost use Rattle.cert_file.specs.Subjects.{IsOpened};
ghost use Rattle.floor_tables.specs.Tables.{AreNarrow};
ghost use Rattle.fux_grid.specs.Exercises.{IsValid};
ghost use Rattle.fux_port.specs.Promises.{ServesWhole};
ghost use Rattle.price_check.specs.Lists.{AreLists};
ghost use Rattle.price_check.specs.PriceLines.{line_of};

use crate::checking::{CheckFault, not_filled, not_started};
use crate::head::is_sound;
use crate::sharp_checker::SharpChecker;
use cert_file::{Pieces, ReadFault, Reader, Verdict, judge};
use cert_law::{Case, weights_are_small};
use cert_text::{CertFault, CertHead, Form, Refused, Why};
use fux_grid::Exercise;
use fux_port::{Failed, Shelf};
use penalty_sheet::Sheet;
use price_check::{
    ListsFault, MenuTails, PriceLine, SharpCase, first_high, list_floors, list_numbers, lists_in,
    lists_stated, priced_lists, webs_of,
};
use species_space::SpeciesSpace;
use std::alloc::Global;
use std::thread::Threads;

/// Takes the lists that stand behind a head, with the line `claims`.
fn take_lists(
    alloc: Global,
    ex: &Exercise,
    pieces: &mut Pieces,
) -> Result<Vec<PriceLine>, CertFault>
    ensures taken { IfOk result (λ lines. AreTaken ex.now (map line_of lines.items) pieces.old
        pieces.new) }
    ensures fault { IfErr result (TellsStop ex.now pieces.old) }
{
    let place = pieces.next();
    let ahead = pieces.ahead();
    let end = place + ahead.len() as u64;
    let (lines, used) = match lists_in(alloc, ex, ahead) {
        Ok((lines, rest)) => (lines, ahead.len() - rest.len()),
        Err(ListsFault::Word(left)) => {
            return Err(CertFault::CertHead {
                at: end.saturating_sub(left as u64),
            });
        }
        Err(ListsFault::Memory) => return Err(CertFault::Memory),
    };
    pieces.use_up(used);
    Ok(lines)
}

/// Why the head and the prices behind it are refused, if they are.
fn front_refusal(
    ex: &Exercise,
    sheet: &Sheet,
    head: &CertHead,
    lines: &[PriceLine],
) -> Option<Refused>
    requires { IsValid ex.now }
    ensures { IsJudgedFront ex.now sheet.now head.now (map line_of lines.now) result }
{
    if !is_sound(ex, sheet, head) {
        return Some(Refused {
            number: 0,
            why: Why::Head,
        });
    }
    let before = first_high(sheet, lines)?;
    let count = lines.len();
    prove!(before < count);
    Some(Refused {
        number: before as u64 + 1,
        why: Why::Price,
    })
}

/// Judges the claims behind what was opened.
fn judge_claims<F: Shelf>(
    shelf: &mut F,
    name: &str,
    mut reader: Reader,
    checker: SharpChecker<'_, '_>,
) -> Result<Verdict, CheckFault>
    requires fresh { checker ≡ opened_at checker.asked checker.head [] }
    requires opened { IsOpened (IsOpeningText checker.asked.exercise) (F.files shelf.old) name.now
        checker.head reader }
    ensures { AreClaimsJudged checker.entry.asked checker.entry.head name.now
        (ServesWhole (F.serves shelf.old) name.now 1073741824)
        (shelved (F.files shelf.old) (F.faults shelf.old) (F.given shelf.old))
        (shelved (F.files shelf.new) (F.faults shelf.new) (F.given shelf.new + reader.offset))
        result }
{
    checker.kept();
    match judge(shelf, name, &mut reader, checker) {
        Ok(verdict) => Ok(verdict),
        Err(Failed) => Err(CheckFault::Unreadable),
    }
}

/// Works the numbers of lists whose prices are due, and judges the claims behind them.
fn judge_lists<R: Threads + Sync, F: Shelf>(
    rt: &R,
    alloc: Global,
    space: &SpeciesSpace<'_>,
    shelf: &mut F,
    name: &str,
    head: &CertHead,
    lines: &[PriceLine],
    reader: Reader,
) -> Result<Verdict, CheckFault>
    requires lists { AreLists space.now.exercise (map line_of lines.now) }
    requires front { IsFrontSound space.now.exercise space.now.sheet head.now (map line_of lines.now) }
    requires opened { IsOpened (IsOpeningText space.now.exercise) (F.files shelf.old) name.now
        (record { head = head.now; stated = Lists (map line_of lines.now) }) reader }
    ensures { AreClaimsJudged (record { exercise = space.now.exercise; sheet = space.now.sheet })
        (record { head = head.now; stated = Lists (map line_of lines.now) }) name.now
        (ServesWhole (F.serves shelf.old) name.now 1073741824)
        (shelved (F.files shelf.old) (F.faults shelf.old) (F.given shelf.old))
        (shelved (F.files shelf.new) (F.faults shelf.new) (F.given shelf.new + reader.offset))
        result }
{
    let exercise = space.exercise();
    let sheet = space.sheet();
    weights_are_small(sheet);
    let own = lists_stated(alloc, sheet, lines)?;
    let lists = priced_lists(alloc, space, &own)?;
    let webs = webs_of(alloc, &lists)?;
    let numbers = list_numbers(rt, alloc, &lists, &webs)?;
    let floors = list_floors(alloc, &lists, &webs, &numbers)?;
    let case = Case {
        exercise,
        sheet,
        head,
    };
    let tables = MenuTails::new(alloc, exercise, space.tables())?;
    let it = SharpCase::new(case, &tables, lines, &floors);
    let checker = SharpChecker::open(alloc, it)?;
    judge_claims(shelf, name, reader, checker)
}

/// Judges the head and the prices, and then the claims behind them.
fn judge_priced<R: Threads + Sync, F: Shelf>(
    rt: &R,
    alloc: Global,
    ex: &Exercise,
    sheet: &Sheet,
    shelf: &mut F,
    name: &str,
    head: &CertHead,
    lines: &[PriceLine],
    reader: Reader,
) -> Result<Verdict, CheckFault>
    requires valid { IsValid ex.now }
    requires lists { AreLists ex.now (map line_of lines.now) }
    requires opened { IsOpened (IsOpeningText ex.now) (F.files shelf.old) name.now (record {
      head = head.now;
      stated
          = Lists (map line_of lines.now);
    }) reader }
    requires limit { reader.offset ≤ longest_piece }
    ensures judged { IsFileJudged (record { exercise = ex.now; sheet = sheet.now }) name.now
        (ServesWhole (F.serves shelf.old) name.now 1073741824)
        (shelved (F.files shelf.old) (F.faults shelf.old) (F.given shelf.old))
        (shelved (F.files shelf.new) (F.faults shelf.new) (F.given shelf.new + reader.offset))
        result }
    ensures narrow { OnOk result (AreNarrow ex.now) }
{
    let space = match SpeciesSpace::new(rt, alloc, ex, sheet) {
        Ok(space) => space,
        Err(fault) => return not_filled(fault),
    };
    if let Some(refused) = front_refusal(ex, sheet, head, lines) {
        return Ok(Verdict::Claim(refused));
    }
    judge_lists(rt, alloc, &space, shelf, name, head, lines, reader)
}

/// Judges the lists behind a head of the third form, and then the claims.
pub(crate) fn check_third<R: Threads + Sync, F: Shelf>(
    rt: &R,
    alloc: Global,
    ex: &Exercise,
    sheet: &Sheet,
    shelf: &mut F,
    name: &str,
    head: CertHead,
    mut pieces: Pieces,
) -> Result<Verdict, CheckFault>
    requires valid { IsValid ex.now }
    requires started { IsStarted ex.now (F.files shelf.old) name.now Form.Third head pieces }
    requires limit { pieces.offset ≤ longest_piece }
    ensures judged { IsFileJudged (record { exercise = ex.now; sheet = sheet.now }) name.now
        (ServesWhole (F.serves shelf.old) name.now 1073741824)
        (shelved (F.files shelf.old) (F.faults shelf.old) (F.given shelf.old))
        (shelved (F.files shelf.new) (F.faults shelf.new) (F.given shelf.new + pieces.offset))
        result }
    ensures wide { (AreNarrow ex.now → ⊥) → IfOk result IsHeadless }
{
    let lines = match take_lists(alloc, ex, &mut pieces) {
        Ok(lines) => lines,
        Err(fault) => return not_started(ReadFault::Text(fault)),
    };
    judge_priced(
        rt,
        alloc,
        ex,
        sheet,
        shelf,
        name,
        &head,
        &lines,
        Reader::behind(pieces),
    )
}

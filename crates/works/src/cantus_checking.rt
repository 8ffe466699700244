//! The command `checkcantus`.

ghost use Rattle.std.specs.Prelude.{◌≡◌, ◌+◌, ◌≤◌, ℕ, List, IfErr, IfOk};
ghost use Rattle.cantus_check.specs.Topics.{cantus_subject};
ghost use Rattle.fux_port.specs.Counts.{Rose};
ghost use Rattle.fux_port.specs.Promises.{ServesWhole};
ghost use Rattle.works.specs.Blame.{Blames, BlamesNoFile, IsReadWithin, IsUnserved, ServesTask};
ghost use Rattle.works.specs.Little.{ReadsLittle};
ghost use Rattle.works.specs.Near.{ChecksCantusNear, StopsNear, TellsNear};
ghost use Rattle.works.specs.CantusChecked.{ChecksCantusBy, ChecksPlan};
ghost use Rattle.works.specs.Checked.{AnswersWithin, IsUnreadable};
ghost use Rattle.command_words.specs.Commands.{IsWanted, check_cantus, sheet_named};
ghost use Rattle.works.specs.TaskFiles.{as_list};
ghost use Rattle.works.specs.Invented.{plan_of};
ghost use Rattle.works.specs.Endings.{IsMade};
ghost use Rattle.works.specs.Works.{AreContents, IsReadySheet};

use crate::checking::output_on;
use crate::complaint::Complaint;
use crate::inventing::space_of;
use crate::making::{read_weights, said_within};
use crate::weighing::priced_of;
use crate::work::{Output, Stop, Unmade};
use cantus_check::{CantusFault, check_cantus_file};
use cantus_space::PricedSheet;
use class_marker::Text;
use command_words::Wanted;
use fux_port::Shelf;
use std::alloc::Global;

/// The verdict on the certificate in a file for what is asked of a cantus, over the sheet in
/// another file where one is named.
pub fn checked_cantus<'a, F: Shelf>(
    alloc: Global,
    wanted: Wanted,
    certificate: &'a str,
    sheet: Option<&'a str>,
    shelf: &mut F,
) -> Result<Output, Complaint<'a>>
    requires { IsWanted wanted }
    ensures made { IsMade (check_cantus wanted certificate.entry.now (sheet_named sheet.entry))
        (F.files shelf.old) (Rose (F.faults shelf.old) (F.faults shelf.new)) result }
    ensures served { ServesTask (F.serves shelf.old) (F.files shelf.old)
        (check_cantus wanted certificate.entry.now (sheet_named sheet.entry))
        → IfErr result BlamesNoFile }
    ensures blamed { IfErr result (Blames (IsUnserved (F.serves shelf.old) (F.files shelf.old)
        (check_cantus wanted certificate.entry.now (sheet_named sheet.entry)))) }
    ensures little { ReadsLittle
        (check_cantus wanted certificate.entry.now (sheet_named sheet.entry)) (F.files shelf.old)
        (F.given shelf.old) (F.given shelf.new) }
    ensures near { IfOk result (λ output. StopsNear
        (check_cantus wanted certificate.entry.now (sheet_named sheet.entry)) (F.files shelf.old)
        (F.given shelf.old) (F.given shelf.new) (λ line. output.bytes ≡ line)) }
    ensures files { F.files shelf.new ≡ F.files shelf.old }
{
    let weights = read_weights(alloc, shelf, sheet)?;
    said_within(
        alloc,
        "",
        certificate,
        check_over(alloc, &wanted, &weights, shelf, certificate),
    )
}

/// The verdict, over the file of a sheet where one is given.
fn check_over<F: Shelf>(
    alloc: Global,
    wanted: &Wanted,
    weights: &Option<Text>,
    shelf: &mut F,
    certificate: &str,
) -> Result<Output, Unmade>
    requires { IsWanted wanted.now }
    ensures checks { (sheets : List (List ℕ)) → AreContents 65536 (as_list weights.now) sheets
        → AnswersWithin (ChecksCantusBy wanted.now (F.files shelf.old) certificate.now sheets)
        (IsReadySheet sheets × IsUnreadable F.files F.faults certificate.now shelf.old shelf.new)
        result }
    ensures served { ServesWhole (F.serves shelf.old) certificate.now 1073741824
        → IfErr result IsReadWithin }
    ensures little { F.given shelf.new ≤ F.given shelf.old + 1073741825 }
    ensures near { (sheets : List (List ℕ)) → AreContents 65536 (as_list weights.now) sheets
        → IfOk result (λ output. ChecksCantusNear wanted.now sheets (F.files shelf.old)
        certificate.now (F.given shelf.old) (F.given shelf.new) (λ line. output.bytes ≡ line)) }
    ensures files { F.files shelf.new ≡ F.files shelf.old }
    ensures faults { F.faults shelf.old ≤ F.faults shelf.new }
{
    let priced = priced_of(alloc, weights)?;
    check(alloc, wanted, &priced, shelf, certificate)
}

/// The verdict, over a sheet of weights.
fn check<F: Shelf>(
    alloc: Global,
    wanted: &Wanted,
    priced: &PricedSheet,
    shelf: &mut F,
    certificate: &str,
) -> Result<Output, Unmade>
    requires { IsWanted wanted.now }
    ensures checks { AnswersWithin (ChecksPlan (plan_of wanted.now priced.now.sheet
        priced.now.prices) (F.files shelf.old) certificate.now)
        (IsUnreadable F.files F.faults certificate.now shelf.old shelf.new) result }
    ensures served { ServesWhole (F.serves shelf.old) certificate.now 1073741824
        → IfErr result IsReadWithin }
    ensures little { F.given shelf.new ≤ F.given shelf.old + 1073741825 }
    ensures near { IfOk result (λ output. TellsNear
        (cantus_subject (plan_of wanted.now priced.now.sheet priced.now.prices))
        (F.files shelf.old) certificate.now (F.given shelf.old) (F.given shelf.new)
        (λ line. output.bytes ≡ line)) }
    ensures files { F.files shelf.new ≡ F.files shelf.old }
    ensures faults { F.faults shelf.old ≤ F.faults shelf.new }
{
    let space = space_of(wanted, priced);
    match check_cantus_file(alloc, &space, shelf, certificate) {
        Ok(verdict) => Ok(output_on(alloc, verdict)?),
        Err(CantusFault::Unreadable) => Err(Unmade::Unreadable),
        Err(CantusFault::Memory) => Err(Unmade::Stopped(Stop::Memory)),
    }
}

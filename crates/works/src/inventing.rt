//! The command `newcantus`.

ghost use Rattle.std.specs.Prelude.{◌≡◌, ◌++◌, List, ℕ, IfErr, IfOk, string_bytes};
ghost use Rattle.fux_port.specs.Counts.{Rose};
ghost use Rattle.works.specs.Blame.{Blames, BlamesNoFile, IsUnserved, ServesTask};
ghost use Rattle.works.specs.Little.{ReadsLittle};
ghost use Rattle.command_words.specs.Commands.{IsWanted, find_cantus, sheet_named};
ghost use Rattle.works.specs.TaskFiles.{as_list};
ghost use Rattle.works.specs.Composed.{penalty_line};
ghost use Rattle.works.specs.Invented.{MakesCantus, TellsCantus, cantus_line, plan_of};
ghost use Rattle.works.specs.Endings.{IsMade};
ghost use Rattle.works.specs.Works.{Answers, AreContents};

use crate::complaint::Complaint;
use crate::making::{read_weights, said};
use crate::telling::{Telling, told};
use crate::weighing::priced_of;
use crate::work::{Output, Stop};
use cantus_space::{CantusSpace, PricedSheet, cantus_of};
use class_marker::Text;
use command_words::{Search, Wanted};
use fux_pitch::{Memory, Pitch};
use fux_port::Shelf;
use fux_text::put_pitches;
use std::alloc::Global;
use std::fmt::Write;

/// The best new cantus that is as is asked, or the one of a number, over the sheet of weights in a
/// file where one is named.
pub fn new_cantus<'a, F: Shelf>(
    alloc: Global,
    wanted: Wanted,
    sheet: Option<&'a str>,
    search: Search,
    shelf: &mut F,
) -> Result<Output, Complaint<'a>>
    requires { IsWanted wanted }
    ensures made { IsMade (find_cantus wanted (sheet_named sheet.entry) search) (F.files shelf.old)
        (Rose (F.faults shelf.old) (F.faults shelf.new)) result }
    ensures served { ServesTask (F.serves shelf.old) (F.files shelf.old)
        (find_cantus wanted (sheet_named sheet.entry) search) → IfErr result BlamesNoFile }
    ensures blamed { IfErr result (Blames (IsUnserved (F.serves shelf.old) (F.files shelf.old)
        (find_cantus wanted (sheet_named sheet.entry) search))) }
    ensures little { ReadsLittle (find_cantus wanted (sheet_named sheet.entry) search)
        (F.files shelf.old) (F.given shelf.old) (F.given shelf.new) }
    ensures files { F.files shelf.new ≡ F.files shelf.old }
{
    let weights = read_weights(alloc, shelf, sheet)?;
    said(alloc, "", of_weights(alloc, &wanted, &weights, search))
}

/// The best new cantus, or the one of a number, over the file of a sheet where one is given.
fn of_weights(
    alloc: Global,
    wanted: &Wanted,
    weights: &Option<Text>,
    search: Search,
) -> Result<Output, Stop>
    requires { IsWanted wanted.now }
    ensures { (sheets : List (List ℕ)) → AreContents 65536 (as_list weights.now) sheets →
        Answers (MakesCantus wanted.now search sheets) result }
{
    let priced = priced_of(alloc, weights)?;
    Ok(invent(alloc, wanted, &priced, search)?)
}

/// What is written of the best cantus, or of the one of a number, how many there are, or a bound.
fn invent(
    alloc: Global,
    wanted: &Wanted,
    priced: &PricedSheet,
    search: Search,
) -> Result<Output, Memory>
    requires { IsWanted wanted.now }
    ensures { IfOk result (λ output. TellsCantus (plan_of wanted.now priced.now.sheet
        priced.now.prices) search output.verdict output.bytes) }
{
    let space = space_of(wanted, priced);
    Ok(told(alloc, &space, search)?)
}

impl Telling for CantusSpace {
    ghost use Rattle.std.specs.Prelude.{◌≡◌};
    ghost use Rattle.cantus_space.specs.Paths.{pitches_at};
    ghost use Rattle.works.specs.Invented.{cantus_answer};

    type Tree = CantusSpace;

    ghost tree = { λ space. space };

    ghost IsReady = { λ _. Unit {0} };

    ghost IsWritten = { λ space path penalty bytes. bytes
        ≡ cantus_answer (pitches_at space path) penalty };

    fn space(&self) -> &CantusSpace {
        self
    }

    fn tell(&self, alloc: Global, path: &[u16], penalty: u64) -> Result<Vec<u8>, Memory> {
        let cantus = cantus_of(alloc, self, path)?;
        Ok(best_text(alloc, cantus.as_slice(), penalty)?.into_bytes())
    }
}

/// The space of the cantus that are as is asked, by a sheet with prices.
pub fn space_of(wanted: &Wanted, priced: &PricedSheet) -> CantusSpace
    requires { IsWanted wanted.now }
    ensures { result ≡ plan_of wanted.now priced.now.sheet priced.now.prices }
{
    CantusSpace::new(
        wanted.mode,
        wanted.bars,
        wanted.low,
        wanted.high,
        &priced.sheet,
        &priced.prices,
    )
}

/// The lines of a cantus and of a penalty.
fn best_text(alloc: Global, cantus: &[Pitch], penalty: u64) -> Result<String, Memory>
    ensures { IfOk result (λ text. string_bytes text ≡ cantus_line cantus.now
        ++ penalty_line penalty) }
{
    let mut text = String::new(alloc);
    text.push_str("cantus")?;
    put_pitches(&mut text, cantus)?;
    write!(text, "\n; penalty {penalty}\n")?;
    Ok(text)
}

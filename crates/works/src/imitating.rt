//! The command `canon`.

ghost use Rattle.std.specs.Prelude.{◌≡◌, ◌<◌, IfErr, IfOk, IsSome, length, string_bytes};
ghost use Rattle.canon_space.specs.Canons.{IsCanon};
ghost use Rattle.canon_space.specs.Paths.{bars_at, live_at};
ghost use Rattle.fux_port.specs.Counts.{Rose};
ghost use Rattle.works.specs.Blame.{Blames, BlamesNoFile, IsUnserved, ServesTask};
ghost use Rattle.works.specs.Little.{ReadsLittle};
ghost use Rattle.command_words.specs.Commands.{find_canon, sheet_named};
ghost use Rattle.works.specs.Composed.{penalty_line};
ghost use Rattle.works.specs.Imitated.{MakesCanon, ReadsCanon, TellsCanon, canon_answer};
ghost use Rattle.works.specs.Endings.{IsMade};
ghost use Rattle.works.specs.Works.{Answers, OnTexts};

use crate::complaint::Complaint;
use crate::content::read_content;
use crate::exercise::LONGEST_TEXT;
use crate::making::{read_weights, said};
use crate::refusal::Refusal;
use crate::telling::{Telling, told};
use crate::weighing::sheet_of;
use crate::work::{Output, Stop};
use canon_space::{Canon, CanonSpace, canon_score, read_canon};
use class_marker::Text;
use command_words::Search;
use fux_grid::Score;
use fux_pitch::Memory;
use fux_port::Shelf;
use fux_text::sing_line;
use penalty_sheet::Sheet;
use std::alloc::Global;
use std::fmt::Write;

/// The best of the canons that the text in a file asks for, or the one of a number, over the sheet
/// of weights in another where one is named.
pub fn canon<'a, F: Shelf>(
    alloc: Global,
    name: &'a str,
    sheet: Option<&'a str>,
    search: Search,
    shelf: &mut F,
) -> Result<Output, Complaint<'a>>
    ensures made { IsMade (find_canon name.entry.now (sheet_named sheet.entry) search)
        (F.files shelf.old) (Rose (F.faults shelf.old) (F.faults shelf.new)) result }
    ensures served { ServesTask (F.serves shelf.old) (F.files shelf.old)
        (find_canon name.entry.now (sheet_named sheet.entry) search) → IfErr result BlamesNoFile }
    ensures blamed { IfErr result (Blames (IsUnserved (F.serves shelf.old) (F.files shelf.old)
        (find_canon name.entry.now (sheet_named sheet.entry) search))) }
    ensures little { ReadsLittle (find_canon name.entry.now (sheet_named sheet.entry) search)
        (F.files shelf.old) (F.given shelf.old) (F.given shelf.new) }
    ensures files { F.files shelf.new ≡ F.files shelf.old }
{
    let text = read_content(alloc, shelf, name, LONGEST_TEXT)?;
    let weights = read_weights(alloc, shelf, sheet)?;
    said(alloc, name, of_text(alloc, &text, &weights, search))
}

/// The best of the canons that a text asks for, or the one of a number, over the file of a sheet
/// where one is given.
fn of_text(
    alloc: Global,
    text: &Text,
    weights: &Option<Text>,
    search: Search,
) -> Result<Output, Stop>
    ensures { OnTexts text.now weights.now (λ bytes sheets. Answers (MakesCanon search sheets bytes)
        result) }
{
    let Text::Bytes(bytes) = text else {
        return Err(Stop::Refused(Refusal::Canon { line: 1 }));
    };
    let canon = canon_in(bytes)?;
    let sheet = sheet_of(alloc, weights)?;
    Ok(imitate(alloc, bytes, &canon, &sheet, search)?)
}

/// The canon that a text is of.
fn canon_in(bytes: &[u8]) -> Result<Canon, Stop>
    ensures reads { ReadsCanon bytes.now result }
    ensures valid { IfOk result IsCanon }
{
    match read_canon(bytes) {
        Ok(canon) => Ok(canon),
        Err(line) => Err(Stop::Refused(Refusal::Canon { line })),
    }
}

/// What is written of the best canon, or of the one of a number, how many there are, or a bound.
fn imitate(
    alloc: Global,
    text: &[u8],
    canon: &Canon,
    sheet: &Sheet,
    search: Search,
) -> Result<Output, Memory>
    requires { IsCanon canon.now }
    ensures { IfOk result (λ output. TellsCanon text.now canon.now sheet.now search output.verdict
        output.bytes) }
{
    let space = CanonSpace::new(canon, sheet);
    let sought = Canons {
        text,
        space: &space,
    };
    Ok(told(alloc, &sought, search)?)
}

/// The canons that a text asks for.
#[derive(Drop)]
struct Canons<'a> {
    text: &'a [u8],
    space: &'a CanonSpace,
}

impl<'a> Telling for Canons<'a> {
    ghost use Rattle.std.specs.Prelude.{◌≡◌};
    ghost use Rattle.canon_space.specs.Canons.{IsCanon};
    ghost use Rattle.canon_space.specs.Paths.{bars_at};
    ghost use Rattle.works.specs.Imitated.{canon_answer};

    type Tree = CanonSpace;

    ghost tree = { λ sought. sought.space.now };

    ghost IsReady = { λ sought. IsCanon sought.space.now.canon };

    ghost IsWritten = { λ sought path penalty bytes. bytes
        ≡ canon_answer sought.text.now (bars_at path) penalty };

    fn space(&self) -> &CanonSpace {
        self.space
    }

    fn tell(&self, alloc: Global, path: &[u16], penalty: u64) -> Result<Vec<u8>, Memory> {
        best_bytes(alloc, self.text, self.space, path, penalty)
    }
}

/// The text of a canon, the lines of both voices in the bars at the end of a path, and a penalty.
fn best_bytes(
    alloc: Global,
    text: &[u8],
    space: &CanonSpace,
    path: &[u16],
    penalty: u64,
) -> Result<Vec<u8>, Memory>
    requires live { IsSome (live_at space.now.canon space.now.sheet path.now) }
    requires some { 0 < length path.now }
    ensures { IfOk result (λ bytes. bytes.items ≡ canon_answer text.now (bars_at path.now)
        penalty) }
{
    let score = canon_score(alloc, space, path)?;
    let mut bytes = Vec::new(alloc);
    bytes.extend_from_slice(text)?;
    bytes.extend_from_slice(sing_line(alloc, &score, 0)?.as_bytes())?;
    bytes.extend_from_slice(sing_line(alloc, &score, 1)?.as_bytes())?;
    bytes.extend_from_slice(penalty_text(alloc, penalty)?.as_bytes())?;
    Ok(bytes)
}

/// The line of a penalty.
fn penalty_text(alloc: Global, penalty: u64) -> Result<String, Memory>
    ensures { IfOk result (λ text. string_bytes text ≡ penalty_line penalty) }
{
    let mut text = String::new(alloc);
    write!(text, "; penalty {penalty}\n")?;
    Ok(text)
}

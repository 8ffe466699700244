//! The commands `mixed` and `markmixed`, and `markxml`, `weigh` and `markpicture` with the species
//! of voices.

ghost use Rattle.std.specs.Prelude.{◌≡◌, ◌++◌, IfErr, IfOk, string_bytes, true};
ghost use Rattle.fux_grid.specs.Exercises.{HasCantus, IsComplete, IsValid};
ghost use Rattle.fux_grid.specs.Namings.{AreNamed};
ghost use Rattle.fux_port.specs.Counts.{Rose};
ghost use Rattle.species_space.specs.Mixed.{IsMixed, exercise_of};
ghost use Rattle.fux_text.specs.Lines.{setting_text};
ghost use Rattle.rule_law.specs.Prefixes.{IsSetting};
ghost use Rattle.score_marker.specs.Marks.{AreMarks};
ghost use Rattle.species_space.specs.Paths.{is_alive_path, prefix_at};
ghost use Rattle.works.specs.Blame.{Blames, BlamesNoFile, IsUnserved, ServesTask};
ghost use Rattle.works.specs.Little.{ReadsLittle};
ghost use Rattle.command_words.specs.Commands.{on_mixed, sheet_named};
ghost use Rattle.works.specs.Composed.{penalty_line};
ghost use Rattle.works.specs.Mixed.{ComposesMixed, ComposesMixedSharply, MakesMixed, MakesOfMixed, MarksMixed, NamesSpecies};
ghost use Rattle.works.specs.Endings.{IsMade};
ghost use Rattle.works.specs.Rendered.{MarksPicture, MarksXml};
ghost use Rattle.works.specs.Searched.{IsSpaceOf, StopsAtWidth};
ghost use Rattle.works.specs.Works.{Answers, OnTexts};

use crate::charging::weigh_mixed;
use crate::complaint::Complaint;
use crate::composing::{best_text, found_output};
use crate::content::read_content;
use crate::exercise::{LONGEST_TEXT, exercise_of};
use crate::making::{read_weights, said};
use crate::marking::output_of;
use crate::refusal::Refusal;
use crate::rendering::{marked_document, verdict_of};
use crate::searching::sharp_setting;
use crate::telling::{Telling, told};
use crate::weighing::sheet_of;
use crate::work::{Output, Stop};
use class_marker::{Text, lines_of, shown_marks};
use command_words::{MixedJob, Named, Search};
use fux_grid::{Exercise, Score, mixed_as};
use fux_pitch::Memory;
use fux_port::Shelf;
use penalty_sheet::Sheet;
use score_marker::{Mark, marks};
use score_picture::picture;
use species_space::{Mixed, MixedSpace, TableFault, named_species, score_of};
use std::alloc::Global;
use std::thread::Threads;

/// What a job makes of the exercise in a file with the species that are named for its voices, over
/// the sheet of weights in another where one is named.
pub fn on_mixed<'a, F: Shelf, R: Threads + Sync>(
    rt: &R,
    alloc: Global,
    name: &'a str,
    sheet: Option<&'a str>,
    named: &Named,
    job: MixedJob,
    shelf: &mut F,
) -> Result<Output, Complaint<'a>>
    requires { AreNamed named.now }
    ensures made { IsMade (on_mixed name.entry.now (sheet_named sheet.entry) named.now job)
        (F.files shelf.old) (Rose (F.faults shelf.old) (F.faults shelf.new)) result }
    ensures served { ServesTask (F.serves shelf.old) (F.files shelf.old)
        (on_mixed name.entry.now (sheet_named sheet.entry) named.now job)
        → IfErr result BlamesNoFile }
    ensures blamed { IfErr result (Blames (IsUnserved (F.serves shelf.old) (F.files shelf.old)
        (on_mixed name.entry.now (sheet_named sheet.entry) named.now job))) }
    ensures little { ReadsLittle (on_mixed name.entry.now (sheet_named sheet.entry) named.now job)
        (F.files shelf.old) (F.given shelf.old) (F.given shelf.new) }
    ensures files { F.files shelf.new ≡ F.files shelf.old }
{
    let text = read_content(alloc, shelf, name, LONGEST_TEXT)?;
    let weights = read_weights(alloc, shelf, sheet)?;
    said(
        alloc,
        name,
        of_texts(rt, alloc, &text, &weights, named, job),
    )
}

/// What a job makes of the text of an exercise with the species that are named, over the file of a
/// sheet where one is given.
fn of_texts<R: Threads + Sync>(
    rt: &R,
    alloc: Global,
    text: &Text,
    weights: &Option<Text>,
    named: &Named,
    job: MixedJob,
) -> Result<Output, Stop>
    requires { AreNamed named.now }
    ensures { OnTexts text.now weights.now
        (λ bytes sheets. Answers (MakesMixed named.now job sheets bytes) result) }
{
    let exercise = exercise_of(alloc, text)?;
    let species = species_of(&exercise, named)?;
    let sheet = sheet_of(alloc, weights)?;
    let mixed = Mixed {
        ex: &exercise,
        species,
    };
    of_mixed(rt, alloc, &mixed, &sheet, job)
}

/// The species of each voice, or a refusal of the first that may not be named.
pub fn species_of(exercise: &Exercise, named: &Named) -> Result<[u8; 4], Stop>
    requires valid { IsValid exercise.now }
    requires named { AreNamed named.now }
    ensures { NamesSpecies exercise.now named.now result }
{
    match named_species(exercise, named) {
        Ok(species) => Ok(species),
        Err(voice) => Err(Stop::Refused(Refusal::With { voice })),
    }
}

/// What a job makes of a mixed exercise, over a sheet of weights.
fn of_mixed<R: Threads + Sync>(
    rt: &R,
    alloc: Global,
    m: &Mixed<'_>,
    sheet: &Sheet,
    job: MixedJob,
) -> Result<Output, Stop>
    requires { IsMixed m.now }
    ensures { Answers (MakesOfMixed job sheet.now m.now.ex.now (exercise_of m.now)) result }
{
    match job {
        MixedJob::Compose { budget } => compose_mixed(alloc, m, sheet, budget),
        MixedJob::Best { budget } => best_mixed(rt, alloc, m, sheet, budget),
        MixedJob::Mark => mark_mixed(alloc, m),
        MixedJob::Weigh { against } => weigh_mixed(rt, alloc, m, sheet, against),
        MixedJob::MarkXml => mark_xml_mixed(alloc, m),
        MixedJob::Picture => picture_mixed(alloc, m),
    }
}

/// The best setting of a mixed exercise over a sheet of weights, that there is none, or a bound.
fn compose_mixed(alloc: Global, m: &Mixed<'_>, sheet: &Sheet, budget: u32) -> Result<Output, Stop>
    requires { IsMixed m.now }
    ensures { Answers (ComposesMixed budget sheet.now m.now.ex.now (exercise_of m.now)) result }
{
    let space = space_of(alloc, m, sheet)?;
    let sought = MixedSettings { m, space: &space };
    let search = Search {
        budget,
        before: None,
    };
    Ok(told(alloc, &sought, search)?)
}

/// The same by sharper floors. The settings of a mixed exercise are those of an exercise, and so the
/// search of `best` finds the best of them.
fn best_mixed<R: Threads + Sync>(
    rt: &R,
    alloc: Global,
    m: &Mixed<'_>,
    sheet: &Sheet,
    budget: u32,
) -> Result<Output, Stop>
    requires { IsMixed m.now }
    ensures { Answers (ComposesMixedSharply budget sheet.now m.now.ex.now (exercise_of m.now))
        result }
{
    let mixed = mixed_as(m.ex, m.species);
    match sharp_setting(rt, alloc, &mixed, sheet, budget) {
        Ok(found) => Ok(found_output(alloc, m.ex, &found)?),
        Err(stop) => Err(stop),
    }
}

/// The space of the settings of a mixed exercise, or a refusal of its first menu that is too wide.
fn space_of<'a>(alloc: Global, m: &'a Mixed<'a>, sheet: &'a Sheet) -> Result<MixedSpace<'a>, Stop>
    requires { IsMixed m.now }
    ensures made { IfOk result (IsSpaceOf (exercise_of m.entry.now) sheet.entry.now) }
    ensures stopped { IfErr result (StopsAtWidth (exercise_of m.entry.now)) }
{
    match MixedSpace::new(alloc, m, sheet) {
        Ok(space) => Ok(space),
        Err(TableFault::Memory) => Err(Stop::Memory),
        Err(TableFault::TooWide { place, count }) => {
            Err(Stop::Refused(Refusal::TooWide { place, count }))
        }
    }
}

/// The settings of a mixed exercise.
#[derive(Drop)]
struct MixedSettings<'a> {
    m: &'a Mixed<'a>,
    space: &'a MixedSpace<'a>,
}

impl<'a> Telling for MixedSettings<'a> {
    ghost use Rattle.std.specs.Prelude.{◌≡◌};
    ghost use Rattle.species_space.specs.Mixed.{IsMixed, exercise_of};
    ghost use Rattle.species_space.specs.Paths.{prefix_at};
    ghost use Rattle.works.specs.Told.{IsSettingText};

    type Tree = MixedSpace<'a>;

    ghost tree = { λ sought. sought.space.now };

    ghost IsReady = { λ sought. IsMixed sought.m.now
        × (sought.space.now.exercise ≡ exercise_of sought.m.now) };

    ghost IsWritten = { λ sought path. IsSettingText sought.m.now.ex.now
        (prefix_at sought.space.now.exercise path) };

    fn space(&self) -> &MixedSpace<'a> {
        self.space
    }

    fn tell(&self, alloc: Global, path: &[u16], penalty: u64) -> Result<Vec<u8>, Memory> {
        Ok(best_at(alloc, self.m, self.space, path, penalty)?.into_bytes())
    }
}

/// The exercise with the setting that a path leads to, and a penalty.
fn best_at(
    alloc: Global,
    m: &Mixed<'_>,
    space: &MixedSpace<'_>,
    path: &[u16],
    penalty: u64,
) -> Result<String, Memory>
    requires mixed { IsMixed m.now }
    requires space { space.now.exercise ≡ exercise_of m.now }
    requires alive { is_alive_path space.now.exercise path.now ≡ true }
    requires setting { IsSetting space.now.exercise (prefix_at space.now.exercise path.now) }
    ensures text { IfOk result (λ text. string_bytes text ≡ setting_text m.now.ex.now
        (prefix_at space.now.exercise path.now) ++ penalty_line penalty) }
    ensures cantus { HasCantus m.now.ex.now (prefix_at space.now.exercise path.now) }
{
    let score = score_of(alloc, space, path)?;
    best_text(alloc, m.ex, &score, penalty)
}

/// The marks of a setting: each rule that it breaks, relaxed breaks among them, by bar, slot, rule
/// and voices.
fn mixed_marks(alloc: Global, m: &Mixed<'_>, score: &Score) -> Result<Vec<Mark>, Memory>
    requires mixed { IsMixed m.now }
    requires complete { IsComplete m.now.ex.now score.now }
    ensures { IfOk result (λ marks. AreMarks (exercise_of m.now) score.now.columns marks.items) }
{
    marks(alloc, &mixed_as(m.ex, m.species), score)
}

/// The marks of the setting of a mixed exercise.
fn mark_mixed(alloc: Global, m: &Mixed<'_>) -> Result<Output, Stop>
    requires { IsMixed m.now }
    ensures { Answers (MarksMixed m.now.ex.now (exercise_of m.now)) result }
{
    let Some(score) = &m.ex.setting else {
        return Err(Stop::Refused(Refusal::NoSetting));
    };
    let marks = mixed_marks(alloc, m, score)?;
    let lines = lines_of(alloc, &mixed_as(m.ex, m.species), &marks)?;
    Ok(output_of(lines))
}

/// The MusicXML document of the setting of a mixed exercise, with the notes of its marks in red.
fn mark_xml_mixed(alloc: Global, m: &Mixed<'_>) -> Result<Output, Stop>
    requires { IsMixed m.now }
    ensures { Answers (MarksXml m.now.ex.now (exercise_of m.now)) result }
{
    let Some(score) = &m.ex.setting else {
        return Err(Stop::Refused(Refusal::NoSetting));
    };
    let marks = mixed_marks(alloc, m, score)?;
    let rules = mixed_as(m.ex, m.species);
    Ok(marked_document(alloc, m.ex, &rules, marks.as_slice())?)
}

/// The picture of the setting of a mixed exercise, with the notes of its marks in red.
fn picture_mixed(alloc: Global, m: &Mixed<'_>) -> Result<Output, Stop>
    requires { IsMixed m.now }
    ensures { Answers (MarksPicture m.now.ex.now (exercise_of m.now)) result }
{
    let Some(score) = &m.ex.setting else {
        return Err(Stop::Refused(Refusal::NoSetting));
    };
    let marks = mixed_marks(alloc, m, score)?;
    let shown = shown_marks(alloc, marks.as_slice())?;
    let rules = mixed_as(m.ex, m.species);
    let text = picture(alloc, m.ex, &rules, Some(shown.as_slice()), None)?;
    Ok(Output::of_text(verdict_of(marks.as_slice()), text))
}

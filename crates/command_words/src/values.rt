//! What the values that words give ask for.

ghost use Rattle.std.specs.Prelude.{◌≡◌, ◌≤◌, ◌<◌, IfSome, option_and_then, option_map};
ghost use Rattle.clap.specs.Words.{first_of, found_of, rows_of};
ghost use Rattle.fux_grid.specs.Namings.{AreNamed};
ghost use Rattle.fux_text.specs.Names.{mode_named, pitch_named};
ghost use Rattle.smf_score.specs.Heads.{IsHead};
ghost use Rattle.text_lines.specs.Numbers.{number_within};
ghost use Rattle.command_words.specs.Commands.{HasHead, HasMidiHead, IsNamedSubject, IsWanted, against_in, are_a_class, asks, before_in, before_nth, best_asked, budget_in, canon_asked, cantus_asked, cantus_of, certify_asked, certify_cantus_asked, check_asked, check_cantus_asked, class_asked, classing_of, compose_asked, composing, drill_asked, either_asked, either_by, explain_asked, files_asked, files_in, filing_of, form_in, from_smf_asked, goes_on, head_in, if_rising, is_item, is_set, job_asked, join_smf_asked, kind_in, making_task, manner_in, mark_asked, mark_mixed_asked, marking_of, mixed_asked, mixed_by, mixing, named_in, new_cantus_asked, number_at, page_of, paged_in, picture_asked, print_asked, said_of, search_in, subject_in, task_of, texts, wanted_in, weigh_asked, weighing_with, wrap_in};

use crate::command::{Command, FileKind, Job, Making, MixedJob, Named, Search, Subject, Wanted};
use crate::verbs::Verb;
use cert_text::Form;
use clap::ArgMatches;
use fux_grid::Head;
use fux_pitch::{Mode, Pitch, semitone};
use fux_text::{parse_mode, parse_pitch};
use smf_score::Manner;
use text_lines::parse_number;

const USUAL_BUDGET: u32 = 1_000_000;

const GREATEST_BUDGET: u32 = 4_000_000;

/// The least and the greatest width of a printed score in systems.
const LEAST_WRAP: u32 = 40;

const GREATEST_WRAP: u32 = 1_000;

/// The greatest number of one that is sought in order.
const LAST_NTH: u32 = 10_000;

/// The greatest number of names that a class has.
const MOST_NAMES: usize = 512;

/// The greatest number of a drill.
const LAST_DRILL: u32 = 1_000_000;

/// The first value of an option or a word.
fn value<'a>(matches: &ArgMatches<'a>, id: &str) -> Option<&'a str>
    ensures { option_map (λ text. text.now) result
        ≡ first_of id.now (rows_of (found_of matches.now)) }
{
    matches.get_str(id)
}

/// The number that a word writes, from one to another, in digits without a sign or a leading zero.
fn number_within(word: &str, least: u32, most: u32) -> Option<u32>
    ensures value { result ≡ number_within least most word.now }
    ensures least { IfSome result (λ n. least ≤ n) }
    ensures most { IfSome result (λ n. n ≤ most) }
{
    let number = parse_number(word.as_bytes())?;
    if least <= number && number <= most {
        Some(number)
    } else {
        None
    }
}

/// The number at an option or a word.
fn number_at(matches: &ArgMatches<'_>, id: &str, least: u32, most: u32) -> Option<u32>
    ensures value { result ≡ number_at id.now least most (rows_of (found_of matches.now)) }
    ensures least { IfSome result (λ n. least ≤ n) }
    ensures most { IfSome result (λ n. n ≤ most) }
{
    number_within(value(matches, id)?, least, most)
}

/// The budget that a word gives, or the usual one where there is none.
fn budget_of(word: Option<&str>) -> Option<u32>
    ensures { result ≡ budget_in (option_map (λ text. text.now) word.entry) }
{
    match word {
        Some(word) => number_within(word, 1, GREATEST_BUDGET),
        None => Some(USUAL_BUDGET),
    }
}

/// How many come before the one of a number, where it isn't the first.
fn before_nth(nth: u32) -> Option<u16>
    requires least { 0 < nth }
    requires most { nth ≤ 10000 }
    ensures { result ≡ before_nth nth }
{
    if nth == 1 {
        None
    } else {
        Some((nth - 1) as u16)
    }
}

/// How many come before the one of the number that a word gives, where it gives one that isn't the
/// first.
fn before_of(word: Option<&str>) -> Option<Option<u16>>
    ensures { result ≡ before_in (option_map (λ text. text.now) word.entry) }
{
    let Some(word) = word else {
        return Some(None);
    };
    let nth = number_within(word, 1, LAST_NTH)?;
    Some(before_nth(nth))
}

/// What a search is asked for.
fn search_of(matches: &ArgMatches<'_>) -> Option<Search>
    ensures { result ≡ search_in (rows_of (found_of matches.now)) }
{
    let budget = budget_of(value(matches, "budget"))?;
    let before = before_of(value(matches, "nth"))?;
    Some(Search { budget, before })
}

/// The form that a word gives, or the second where there is none.
fn form_of(word: Option<&str>) -> Option<Form>
    ensures { result ≡ form_in (option_map (λ text. text.now) word.entry) }
{
    match word {
        None => Some(Form::Second),
        Some("1") => Some(Form::First),
        Some("2") => Some(Form::Second),
        Some("3") => Some(Form::Third),
        Some(_) => None,
    }
}

/// Whether a flag is given.
fn is_set(matches: &ArgMatches<'_>, id: &str) -> bool
    ensures { result ≡ is_set id.now (rows_of (found_of matches.now)) }
{
    match value(matches, id) {
        Some(text) => text == "true",
        None => false,
    }
}

/// The mode at an option or a word.
fn mode_at(matches: &ArgMatches<'_>, id: &str) -> Option<Mode>
    ensures { result
        ≡ option_and_then mode_named (first_of id.now (rows_of (found_of matches.now))) }
{
    parse_mode(value(matches, id)?.as_bytes())
}

/// The pitch at an option or a word.
fn pitch_at(matches: &ArgMatches<'_>, id: &str) -> Option<Pitch>
    ensures { result
        ≡ option_and_then pitch_named (first_of id.now (rows_of (found_of matches.now))) }
{
    parse_pitch(value(matches, id)?.as_bytes())
}

/// How a MIDI file is to be read.
fn head_of(matches: &ArgMatches<'_>) -> Option<Head>
    ensures value { result ≡ head_in (rows_of (found_of matches.now)) }
    ensures head { IfSome result IsHead }
{
    let mode = mode_at(matches, "mode")?;
    let species = number_at(matches, "species", 1, 5)?;
    let voice = number_at(matches, "voice", 0, 3)?;
    let cantus = number_at(matches, "cantus", 0, 3)?;
    if voice == cantus {
        return None;
    }
    Some(Head {
        mode,
        species: species as u8,
        species_voice: voice as u8,
        cantus_voice: cantus as u8,
        top_first: is_set(matches, "top-first"),
    })
}

/// The best setting, or the one before which so many come.
fn composing(search: Search) -> Job
    ensures { result ≡ composing search }
{
    let budget = search.budget;
    match search.before {
        None => Job::Compose { budget },
        Some(before) => Job::ComposeNth { before, budget },
    }
}

/// `compose`, on the exercise of a file.
fn compose_asked<'a>(matches: &ArgMatches<'a>) -> Option<Command<'a>>
    ensures asked { option_map task_of result ≡ compose_asked (rows_of (found_of matches.now)) }
    ensures head { IfSome result HasHead }
{
    let name = value(matches, "EX")?;
    let search = search_of(matches)?;
    let sheet = value(matches, "sheet");
    let job = composing(search);
    Some(Command::Make(Making::OnExercise { name, sheet, job }))
}

/// `best`, on the exercise of a file.
fn best_asked<'a>(matches: &ArgMatches<'a>) -> Option<Command<'a>>
    ensures asked { option_map task_of result ≡ best_asked (rows_of (found_of matches.now)) }
    ensures head { IfSome result HasHead }
{
    let name = value(matches, "EX")?;
    let budget = budget_of(value(matches, "budget"))?;
    let sheet = value(matches, "sheet");
    let job = Job::Best { budget };
    Some(Command::Make(Making::OnExercise { name, sheet, job }))
}

/// `certify`, on the exercise of a file.
fn certify_asked<'a>(matches: &ArgMatches<'a>) -> Option<Command<'a>>
    ensures asked { option_map task_of result ≡ certify_asked (rows_of (found_of matches.now)) }
    ensures head { IfSome result HasHead }
{
    let name = value(matches, "EX")?;
    let budget = budget_of(value(matches, "budget"))?;
    let form = form_of(value(matches, "form"))?;
    let sheet = value(matches, "sheet");
    Some(Command::Certify {
        name,
        sheet,
        budget,
        form,
    })
}

/// `check`, on the exercise and the certificate of two files.
fn check_asked<'a>(matches: &ArgMatches<'a>) -> Option<Command<'a>>
    ensures asked { option_map task_of result ≡ check_asked (rows_of (found_of matches.now)) }
    ensures head { IfSome result HasHead }
{
    let name = value(matches, "EX")?;
    let certificate = value(matches, "CERT")?;
    let sheet = value(matches, "sheet");
    Some(Command::Make(Making::Check {
        name,
        certificate,
        sheet,
    }))
}

/// A job that needs nothing but the exercise of a file.
fn job_asked<'a>(matches: &ArgMatches<'a>, job: Job) -> Option<Command<'a>>
    ensures asked { option_map task_of result ≡ job_asked job (rows_of (found_of matches.now)) }
    ensures head { IfSome result HasHead }
{
    let name = value(matches, "EX")?;
    let sheet = None;
    Some(Command::Make(Making::OnExercise { name, sheet, job }))
}

/// How many columns of a terminal a printed score has at most, where a number is given.
fn wrap_of(word: Option<&str>) -> Option<Option<u32>>
    ensures { result ≡ wrap_in (option_map (λ text. text.now) word.entry) }
{
    match word {
        Some(word) => Some(Some(number_within(word, LEAST_WRAP, GREATEST_WRAP)?)),
        None => Some(None),
    }
}

/// `print`, of the exercise of a file.
fn print_asked<'a>(matches: &ArgMatches<'a>) -> Option<Command<'a>>
    ensures asked { option_map task_of result ≡ print_asked (rows_of (found_of matches.now)) }
    ensures head { IfSome result HasHead }
{
    let name = value(matches, "EX")?;
    let wrap = wrap_of(value(matches, "wrap"))?;
    let sheet = None;
    let job = Job::Print { wrap };
    Some(Command::Make(Making::OnExercise { name, sheet, job }))
}

/// What is to be explained: the setting, by the rules of the exercise or with the species that a
/// list names, or the cantus firmus alone, beside which there is no list.
fn subject_of(with: Option<&str>, is_alone: bool) -> Option<Subject>
    ensures value { result ≡ subject_in (option_map (λ text. text.now) with.entry) is_alone }
    ensures named { IfSome result IsNamedSubject }
{
    match (with, is_alone) {
        (None, false) => Some(Subject::Setting),
        (None, true) => Some(Subject::Cantus),
        (Some(list), false) => Some(Subject::Mixed {
            named: named_in(list)?,
        }),
        (Some(_), true) => None,
    }
}

/// `explain`, on a file.
fn explain_asked<'a>(matches: &ArgMatches<'a>) -> Option<Command<'a>>
    ensures asked { option_map task_of result ≡ explain_asked (rows_of (found_of matches.now)) }
    ensures head { IfSome result HasHead }
{
    let name = value(matches, "FILE")?;
    let subject = subject_of(value(matches, "with"), is_set(matches, "cantus"))?;
    Some(Command::Make(Making::Explain { name, subject }))
}

/// `fromsmf`, on a MIDI file.
fn from_smf_asked<'a>(matches: &ArgMatches<'a>) -> Option<Command<'a>>
    ensures asked { option_map task_of result ≡ from_smf_asked (rows_of (found_of matches.now)) }
    ensures head { IfSome result HasHead }
{
    let name = value(matches, "FILE")?;
    let head = head_of(matches)?;
    Some(Command::Make(Making::FromSmf { name, head }))
}

/// How MIDI files were played.
fn manner_of(matches: &ArgMatches<'_>) -> Manner
    ensures { result ≡ manner_in (rows_of (found_of matches.now)) }
{
    Manner {
        top_first: is_set(matches, "top-first"),
        legato: is_set(matches, "legato"),
    }
}

/// `joinsmf`, on a lesson and a MIDI file.
fn join_smf_asked<'a>(matches: &ArgMatches<'a>) -> Option<Command<'a>>
    ensures asked { option_map task_of result ≡ join_smf_asked (rows_of (found_of matches.now)) }
    ensures head { IfSome result HasHead }
{
    let lesson = value(matches, "LESSON")?;
    let name = value(matches, "FILE")?;
    let manner = manner_of(matches);
    Some(Command::Make(Making::JoinSmf {
        lesson,
        name,
        manner,
    }))
}

/// `drill`, of a number.
fn drill_asked<'a>(matches: &ArgMatches<'a>) -> Option<Command<'a>>
    ensures asked { option_map task_of result ≡ drill_asked (rows_of (found_of matches.now)) }
    ensures head { IfSome result HasHead }
{
    let number = number_at(matches, "N", 0, LAST_DRILL)?;
    let by_sharper = is_set(matches, "best");
    Some(Command::Make(Making::Drill { number, by_sharper }))
}

/// Marking the exercise of a file alone, or as an answer to a lesson.
fn marking_of<'a>(name: &'a str, lesson: Option<&'a str>) -> Making<'a>
    ensures asked { making_task result ≡ marking_of name.entry.now (option_map (λ text. text.now)
        lesson.entry) }
    ensures head { HasMidiHead result }
{
    match lesson {
        None => Making::OnExercise {
            name,
            sheet: None,
            job: Job::Mark,
        },
        Some(lesson) => Making::MarkAnswer { name, lesson },
    }
}

/// `mark`, on the exercise of a file.
fn mark_asked<'a>(matches: &ArgMatches<'a>) -> Option<Command<'a>>
    ensures asked { option_map task_of result ≡ mark_asked (rows_of (found_of matches.now)) }
    ensures head { IfSome result HasHead }
{
    let name = value(matches, "EX")?;
    let lesson = value(matches, "lesson");
    Some(Command::Make(marking_of(name, lesson)))
}

/// The marks of the cantus firmus of a file alone, or with what it pays over a sheet.
fn cantus_of<'a>(name: &'a str, sheet: Option<&'a str>) -> Making<'a>
    ensures asked { making_task result ≡ cantus_of name.entry.now (option_map (λ text. text.now)
        sheet.entry) }
    ensures head { HasMidiHead result }
{
    let job = match sheet {
        None => Job::Cantus,
        Some(_) => Job::CantusCharges,
    };
    Making::OnExercise { name, sheet, job }
}

/// `cantus`, on the exercise of a file.
fn cantus_asked<'a>(matches: &ArgMatches<'a>) -> Option<Command<'a>>
    ensures asked { option_map task_of result ≡ cantus_asked (rows_of (found_of matches.now)) }
    ensures head { IfSome result HasHead }
{
    let name = value(matches, "EX")?;
    let sheet = value(matches, "sheet");
    Some(Command::Make(cantus_of(name, sheet)))
}

/// What the files of a class are: texts, or MIDI files where there is a lesson.
fn kind_of(lesson: Option<&str>, is_midi: bool, manner: Manner) -> Option<FileKind>
    ensures { result ≡ kind_in (option_map (λ text. text.now) lesson.entry) is_midi manner }
{
    match (lesson, is_midi, manner.top_first || manner.legato) {
        (_, false, false) => Some(FileKind::Text),
        (_, false, true) => None,
        (None, true, _) => None,
        (Some(_), true, _) => Some(FileKind::Midi { manner }),
    }
}

/// The page of files of a kind: texts alone have one.
fn page_of(kind: FileKind) -> Option<FileKind>
    ensures { result ≡ page_of kind }
{
    match kind {
        FileKind::Text => Some(FileKind::Page),
        FileKind::Page => None,
        FileKind::Midi { .. } => None,
    }
}

/// The same, or their page where that is wanted.
fn paged_of(is_page: bool, kind: FileKind) -> Option<FileKind>
    ensures { result ≡ paged_in is_page kind }
{
    if is_page { page_of(kind) } else { Some(kind) }
}

/// The same, by the words.
fn files_of(matches: &ArgMatches<'_>) -> Option<FileKind>
    ensures { result ≡ files_in (rows_of (found_of matches.now)) }
{
    let lesson = value(matches, "lesson");
    let is_midi = is_set(matches, "midi");
    let manner = manner_of(matches);
    let kind = kind_of(lesson, is_midi, manner)?;
    paged_of(is_set(matches, "page"), kind)
}

/// Whether each name has its place, whatever its file is.
fn goes_on(kind: FileKind, wanted: bool) -> bool
    ensures { result ≡ goes_on kind wanted }
{
    match kind {
        FileKind::Page => true,
        FileKind::Text | FileKind::Midi { .. } => wanted,
    }
}

/// Marking a class by itself; or by a lesson or going on, whatever its files are.
fn classing_of<'a>(
    list: &'a str,
    lesson: Option<&'a str>,
    kind: FileKind,
    going_on: bool,
) -> Command<'a>
    ensures asked { task_of result ≡ classing_of list.entry.now (option_map (λ text. text.now)
        lesson.entry) kind going_on }
    ensures head { HasHead result }
{
    match lesson {
        None if !going_on => Command::Make(Making::Class { list }),
        lesson => Command::WholeClass { list, lesson, kind },
    }
}

/// `class`, on a list.
fn class_asked<'a>(matches: &ArgMatches<'a>) -> Option<Command<'a>>
    ensures asked { option_map task_of result ≡ class_asked (rows_of (found_of matches.now)) }
    ensures head { IfSome result HasHead }
{
    let list = value(matches, "LIST")?;
    let kind = files_of(matches)?;
    let lesson = value(matches, "lesson");
    let wanted = is_set(matches, "keep-going");
    let going_on = goes_on(kind, wanted);
    Some(classing_of(list, lesson, kind, going_on))
}

/// The same of files with these names.
fn filing_of<'a>(
    names: &'a [String],
    lesson: Option<&'a str>,
    kind: FileKind,
    going_on: bool,
) -> Command<'a>
    ensures asked { task_of result ≡ filing_of (texts names.entry.now) (option_map (λ text. text.now)
        lesson.entry) kind going_on }
    ensures head { HasHead result }
{
    match lesson {
        None if !going_on => Command::Make(Making::ClassFiles { names }),
        lesson => Command::WholeFiles {
            names,
            lesson,
            kind,
        },
    }
}

/// Whether there are as many names as a list may have.
fn are_a_class(names: &[String]) -> bool
    ensures { result ≡ are_a_class (texts names.now) }
{
    1 <= names.len() && names.len() <= MOST_NAMES
}

/// `class`, on these names.
pub fn files_asked<'a>(names: &'a [String], matches: &ArgMatches<'a>) -> Option<Command<'a>>
    ensures asked { option_map task_of result ≡ files_asked (texts names.entry.now)
        (rows_of (found_of matches.now)) }
    ensures head { IfSome result HasHead }
{
    if !are_a_class(names) {
        return None;
    }
    let kind = files_of(matches)?;
    let lesson = value(matches, "lesson");
    let wanted = is_set(matches, "keep-going");
    let going_on = goes_on(kind, wanted);
    Some(filing_of(names, lesson, kind, going_on))
}

/// `canon`, on the text of a canon in a file.
fn canon_asked<'a>(matches: &ArgMatches<'a>) -> Option<Command<'a>>
    ensures asked { option_map task_of result ≡ canon_asked (rows_of (found_of matches.now)) }
    ensures head { IfSome result HasHead }
{
    let name = value(matches, "FILE")?;
    let search = search_of(matches)?;
    let sheet = value(matches, "sheet");
    Some(Command::Make(Making::Canon {
        name,
        sheet,
        search,
    }))
}

/// Whether three bytes are an item `V:N` of a voice.
fn is_item(v: u8, voice: u8, colon: u8, species: u8) -> bool
    requires { v < 4 }
    ensures { result ≡ is_item v voice colon species }
{
    voice == b'0' + v && colon == b':' && b'2' <= species && species <= b'5'
}

/// What a list says of a voice: the species that its first item names, where that is the voice's,
/// and the items behind it; none and the whole list where it isn't.
fn said_of(v: u8, list: &[u8]) -> (Option<u8>, &[u8])
    requires { v < 4 }
    ensures value { (result.0, result.1.now) ≡ said_of v list.now }
    ensures species { IfSome result.0 (λ species. (2 ≤ species) × (species ≤ 5)) }
{
    match list {
        [voice, colon, species] if is_item(v, *voice, *colon, *species) => {
            (Some(*species - b'0'), &[])
        }
        [voice, colon, species, b',', rest @ ..]
            if !rest.is_empty() && is_item(v, *voice, *colon, *species) => {
            (Some(*species - b'0'), rest)
        }
        _ => (None, list),
    }
}

/// The species that a list `V:N,V:N` names for each voice, in ascending order of the voices.
fn named_in(list: &str) -> Option<Named>
    ensures value { result ≡ named_in list.now }
    ensures named { IfSome result AreNamed }
{
    let list = list.as_bytes();
    let (first, rest) = said_of(0, list);
    let (second, rest) = said_of(1, rest);
    let (third, rest) = said_of(2, rest);
    let (fourth, rest) = said_of(3, rest);
    if list.is_empty() || !rest.is_empty() {
        return None;
    }
    Some([first, second, third, fourth])
}

/// A job on an exercise with the species that a list names.
fn mixed_by<'a>(
    name: &'a str,
    sheet: Option<&'a str>,
    list: &str,
    job: MixedJob,
) -> Option<Command<'a>>
    ensures asked { option_map task_of result ≡ mixed_by name.entry.now
        (option_map (λ text. text.now) sheet.entry) list.now job }
    ensures head { IfSome result HasHead }
{
    let named = named_in(list)?;
    Some(Command::Make(Making::OnMixed {
        name,
        sheet,
        named,
        job,
    }))
}

/// The best setting of a mixed exercise, by sharper floors where these are asked for.
fn mixing(budget: u32, by_sharper: bool) -> MixedJob
    ensures { result ≡ mixing budget by_sharper }
{
    if by_sharper {
        MixedJob::Best { budget }
    } else {
        MixedJob::Compose { budget }
    }
}

/// `mixed`, on the exercise of a file.
fn mixed_asked<'a>(matches: &ArgMatches<'a>) -> Option<Command<'a>>
    ensures asked { option_map task_of result ≡ mixed_asked (rows_of (found_of matches.now)) }
    ensures head { IfSome result HasHead }
{
    let name = value(matches, "EX")?;
    let list = value(matches, "with")?;
    let budget = budget_of(value(matches, "budget"))?;
    let sheet = value(matches, "sheet");
    let by_sharper = is_set(matches, "best");
    mixed_by(name, sheet, list, mixing(budget, by_sharper))
}

/// `markmixed`, on the exercise of a file.
fn mark_mixed_asked<'a>(matches: &ArgMatches<'a>) -> Option<Command<'a>>
    ensures asked { option_map task_of result ≡ mark_mixed_asked (rows_of (found_of matches.now)) }
    ensures head { IfSome result HasHead }
{
    let name = value(matches, "EX")?;
    let list = value(matches, "with")?;
    mixed_by(name, None, list, MixedJob::Mark)
}

/// A job on an exercise, or another with the species that a list names, where there is one.
fn either_by<'a>(
    name: &'a str,
    with: Option<&'a str>,
    job: Job,
    other: MixedJob,
) -> Option<Command<'a>>
    ensures asked { option_map task_of result ≡ either_by name.entry.now
        (option_map (λ text. text.now) with.entry) job other }
    ensures head { IfSome result HasHead }
{
    match with {
        None => {
            let sheet = None;
            Some(Command::Make(Making::OnExercise { name, sheet, job }))
        }
        Some(list) => mixed_by(name, None, list, other),
    }
}

/// A job on the exercise of a file, or another with the species that a list names.
fn either_asked<'a>(matches: &ArgMatches<'a>, job: Job, other: MixedJob) -> Option<Command<'a>>
    ensures asked { option_map task_of result ≡ either_asked job other
        (rows_of (found_of matches.now)) }
    ensures head { IfSome result HasHead }
{
    let name = value(matches, "EX")?;
    let with = value(matches, "with");
    either_by(name, with, job, other)
}

/// The budget of the search that a setting is weighed against, if it is weighed against one.
fn against_of(word: Option<&str>, budget: Option<&str>) -> Option<Option<u32>>
    ensures { result ≡ against_in (option_map (λ text. text.now) word.entry)
        (option_map (λ text. text.now) budget.entry) }
{
    match (word, budget) {
        (None, None) => Some(None),
        (None, Some(_)) => None,
        (Some("best"), budget) => Some(Some(budget_of(budget)?)),
        (Some(_), _) => None,
    }
}

/// Weighing the setting of an exercise, alone or against a search, and by its own species or with
/// those that a list names.
fn weighing_with<'a>(
    name: &'a str,
    sheet: Option<&'a str>,
    with: Option<&'a str>,
    against: Option<u32>,
) -> Option<Command<'a>>
    ensures asked { option_map task_of result ≡ weighing_with name.entry.now
        (option_map (λ text. text.now) sheet.entry) (option_map (λ text. text.now) with.entry)
        against }
    ensures head { IfSome result HasHead }
{
    let Some(list) = with else {
        let job = Job::Weigh { against };
        return Some(Command::Make(Making::OnExercise { name, sheet, job }));
    };
    mixed_by(name, sheet, list, MixedJob::Weigh { against })
}

/// `weigh`, on the exercise of a file.
fn weigh_asked<'a>(matches: &ArgMatches<'a>) -> Option<Command<'a>>
    ensures asked { option_map task_of result ≡ weigh_asked (rows_of (found_of matches.now)) }
    ensures head { IfSome result HasHead }
{
    let name = value(matches, "EX")?;
    let against = against_of(value(matches, "against"), value(matches, "budget"))?;
    let sheet = value(matches, "sheet");
    let with = value(matches, "with");
    weighing_with(name, sheet, with, against)
}

/// `picture`, of the exercise of a file.
fn picture_asked<'a>(matches: &ArgMatches<'a>) -> Option<Command<'a>>
    ensures asked { option_map task_of result ≡ picture_asked (rows_of (found_of matches.now)) }
    ensures head { IfSome result HasHead }
{
    let name = value(matches, "EX")?;
    let sheet = value(matches, "sheet");
    let penalty = is_set(matches, "penalty");
    let job = Job::Picture { penalty };
    Some(Command::Make(Making::OnExercise { name, sheet, job }))
}

/// What is wanted, where its range doesn't fall.
fn if_rising(wanted: Wanted) -> Option<Wanted>
    requires fewest { 3 ≤ wanted.bars }
    requires most { wanted.bars ≤ 24 }
    ensures value { result ≡ if_rising wanted }
    ensures wanted { IfSome result IsWanted }
{
    if semitone(wanted.low) <= semitone(wanted.high) {
        Some(wanted)
    } else {
        None
    }
}

/// What is asked of a new cantus.
fn wanted_of(matches: &ArgMatches<'_>) -> Option<Wanted>
    ensures value { result ≡ wanted_in (rows_of (found_of matches.now)) }
    ensures wanted { IfSome result IsWanted }
{
    let mode = mode_at(matches, "MODE")?;
    let bars = number_at(matches, "BARS", 3, 24)?;
    let low = pitch_at(matches, "LOW")?;
    let high = pitch_at(matches, "HIGH")?;
    if_rising(Wanted {
        mode,
        bars: bars as u8,
        low,
        high,
    })
}

/// `newcantus`, of what is asked of it.
fn new_cantus_asked<'a>(matches: &ArgMatches<'a>) -> Option<Command<'a>>
    ensures asked { option_map task_of result ≡ new_cantus_asked (rows_of (found_of matches.now)) }
    ensures head { IfSome result HasHead }
{
    let wanted = wanted_of(matches)?;
    let search = search_of(matches)?;
    let sheet = value(matches, "sheet");
    Some(Command::Make(Making::NewCantus {
        wanted,
        sheet,
        search,
    }))
}

/// `certcantus`, of what is asked of a cantus.
fn certify_cantus_asked<'a>(matches: &ArgMatches<'a>) -> Option<Command<'a>>
    ensures asked { option_map task_of result ≡ certify_cantus_asked
        (rows_of (found_of matches.now)) }
    ensures head { IfSome result HasHead }
{
    let wanted = wanted_of(matches)?;
    let budget = budget_of(value(matches, "budget"))?;
    let sheet = value(matches, "sheet");
    Some(Command::CertifyCantus {
        wanted,
        sheet,
        budget,
    })
}

/// `checkcantus`, of what is asked of a cantus and of the certificate of a file.
fn check_cantus_asked<'a>(matches: &ArgMatches<'a>) -> Option<Command<'a>>
    ensures asked { option_map task_of result ≡ check_cantus_asked
        (rows_of (found_of matches.now)) }
    ensures head { IfSome result HasHead }
{
    let wanted = wanted_of(matches)?;
    let certificate = value(matches, "CERT")?;
    let sheet = value(matches, "sheet");
    Some(Command::Make(Making::CheckCantus {
        wanted,
        certificate,
        sheet,
    }))
}

/// What the values in the words behind a command's first ask for.
pub fn asked_of<'a>(verb: Verb, matches: &ArgMatches<'a>) -> Option<Command<'a>>
    ensures asked { option_map task_of result ≡ asks verb (rows_of (found_of matches.now)) }
    ensures head { IfSome result HasHead }
{
    match verb {
        Verb::Compose => compose_asked(matches),
        Verb::Best => best_asked(matches),
        Verb::Certify => certify_asked(matches),
        Verb::Check => check_asked(matches),
        Verb::Mark => mark_asked(matches),
        Verb::Explain => explain_asked(matches),
        Verb::Cantus => cantus_asked(matches),
        Verb::Print => print_asked(matches),
        Verb::ToSmf => job_asked(matches, Job::ToSmf),
        Verb::FromSmf => from_smf_asked(matches),
        Verb::JoinSmf => join_smf_asked(matches),
        Verb::Drill => drill_asked(matches),
        Verb::Class => class_asked(matches),
        Verb::Canon => canon_asked(matches),
        Verb::Mixed => mixed_asked(matches),
        Verb::MarkMixed => mark_mixed_asked(matches),
        Verb::Weigh => weigh_asked(matches),
        Verb::ToXml => job_asked(matches, Job::ToXml),
        Verb::MarkXml => either_asked(matches, Job::MarkXml, MixedJob::MarkXml),
        Verb::Picture => picture_asked(matches),
        Verb::MarkPicture => either_asked(matches, Job::MarkPicture, MixedJob::Picture),
        Verb::NewCantus => new_cantus_asked(matches),
        Verb::CertCantus => certify_cantus_asked(matches),
        Verb::CheckCantus => check_cantus_asked(matches),
    }
}

//! The words on the command line.

ghost use Rattle.std.specs.Prelude.{◌≡◌, ◌+◌, ◌<◌, IfOk, IfSome, drop, length, option_map, take, true};
ghost use Rattle.clap.specs.Words.{app_of, found_of, is_simple_and_free, rows_of};
ghost use Rattle.command_words.specs.Commands.{HasHead, asked, asked_by, asked_on, files_at, files_from, found_in, task_of, texts};

use crate::forms::{files_form, form};
use crate::values::{asked_of, files_asked};
use crate::verbs::{Verb, verb_named};
use cert_text::Form;
use clap::ArgMatches;
use clap::error::ErrorKind;
use fux_grid::Head;
use fux_pitch::{Memory, Mode, Pitch};
use smf_score::Manner;
use std::alloc::Global;

/// What is to be made of an exercise.
#[derive(Clone, Copy)]
pub enum Job {
    /// Its best setting, found within this budget.
    Compose { budget: u32 },
    /// Its best setting, found by sharper floors.
    Best { budget: u32 },
    /// The setting before which so many come, in order of penalty and then of reading.
    ComposeNth { before: u16, budget: u32 },
    /// The marks of its setting.
    Mark,
    /// What its setting breaks and pays for; and how far that is from the best penalty, where there
    /// is a budget to search for it by sharper floors.
    Weigh { against: Option<u32> },
    /// The marks of its cantus firmus.
    Cantus,
    /// These, and what its cantus firmus pays for.
    CantusCharges,
    /// The printed score of its setting, or without one of the sheet to hand out; in systems of at
    /// most so many columns of a terminal, where a number is given.
    Print { wrap: Option<u32> },
    /// The MIDI file of its setting.
    ToSmf,
    /// The MusicXML document of its setting, or without one of the sheet to fill in.
    ToXml,
    /// The MusicXML document of its setting with the marks in red.
    MarkXml,
    /// The picture of its setting, with its penalty below where that is wanted; or without one of
    /// the sheet to fill in.
    Picture { penalty: bool },
    /// The picture of its setting with the marks in red.
    MarkPicture,
}

/// What is to be made of an exercise whose free voices have a species each.
#[derive(Clone, Copy)]
pub enum MixedJob {
    /// Its best setting, found within this budget.
    Compose { budget: u32 },
    /// Its best setting, found by sharper floors.
    Best { budget: u32 },
    /// The marks of its setting.
    Mark,
    /// What its setting breaks and pays for, and how far it is from the best, where a budget is
    /// given to search for it.
    Weigh { against: Option<u32> },
    /// The MusicXML document of its setting with the marks in red.
    MarkXml,
    /// The picture of its setting with the marks in red.
    Picture,
}

/// The species that is named for each of the four voices.
pub type Named = [Option<u8>; 4];

/// What of an exercise is to be explained.
#[derive(Clone, Copy)]
pub enum Subject {
    /// The marks of its setting, or without one what it asks.
    Setting,
    /// The marks of its setting with the species that are named for its voices.
    Mixed { named: Named },
    /// The marks of its cantus firmus.
    Cantus,
}

/// What is asked of a new cantus.
#[derive(Clone, Copy)]
pub struct Wanted {
    pub mode: Mode,
    /// From 3 to 24.
    pub bars: u8,
    /// The low end of the range.
    pub low: Pitch,
    /// The high end, whose key isn't below the low end's.
    pub high: Pitch,
}

/// What the files of a class are, and what is made of them.
#[derive(Clone, Copy)]
pub enum FileKind {
    /// Note texts.
    Text,
    /// Note texts, of which a page is made.
    Page,
    /// MIDI files, played in a manner.
    Midi { manner: Manner },
}

/// What a search is asked for.
#[derive(Clone, Copy)]
pub struct Search {
    pub budget: u32,
    /// How many come before the one that is sought, in order of penalty and then of reading, where
    /// it isn't the first.
    pub before: Option<u16>,
}

/// What is to be made whole before any of it is written, and the names of the files that it is to
/// be made of.
#[derive(Clone, Copy)]
pub enum Making<'a> {
    /// Something made of the exercise in a file, over the sheet of weights in another where one is
    /// named.
    OnExercise {
        name: &'a str,
        sheet: Option<&'a str>,
        job: Job,
    },
    /// Something made of the exercise in a file, with the species that are named for its voices,
    /// over the sheet of weights in another where one is named.
    OnMixed {
        name: &'a str,
        sheet: Option<&'a str>,
        named: Named,
        job: MixedJob,
    },
    /// The verdict on the certificate in a file, for the exercise in another and the sheet of
    /// weights in a third where one is named.
    Check {
        name: &'a str,
        certificate: &'a str,
        sheet: Option<&'a str>,
    },
    /// What is wrong with a text in a file, or with this of its exercise.
    Explain {
        name: &'a str,
        subject: Subject,
    },
    /// The note text of a MIDI file.
    FromSmf {
        name: &'a str,
        head: Head,
    },
    /// The note text of the lesson in a file with the setting that a MIDI file is, played in a
    /// manner.
    JoinSmf {
        lesson: &'a str,
        name: &'a str,
        manner: Manner,
    },
    /// The exercise of a number with its best setting, by the floors of `best` where `by_sharper`.
    Drill {
        number: u32,
        by_sharper: bool,
    },
    /// What the exercise in a file has otherwise than the lesson in another, and its marks by that.
    MarkAnswer {
        name: &'a str,
        lesson: &'a str,
    },
    /// The report of the exercises in the files that a list names.
    Class {
        list: &'a str,
    },
    /// The report of the exercises in the files of these names.
    ClassFiles {
        names: &'a [String],
    },
    /// The best of the canons that the text in a file asks for, or the one of a number, over the
    /// sheet of weights in another where one is named.
    Canon {
        name: &'a str,
        sheet: Option<&'a str>,
        search: Search,
    },
    /// The best new cantus, or the one of a number, over the sheet of weights in a file where one
    /// is named.
    NewCantus {
        wanted: Wanted,
        sheet: Option<&'a str>,
        search: Search,
    },
    /// The verdict on the certificate in a file, for what is asked of a cantus and the sheet of
    /// weights in another file where one is named.
    CheckCantus {
        wanted: Wanted,
        certificate: &'a str,
        sheet: Option<&'a str>,
    },
}

/// What the words ask for.
#[derive(Clone, Copy)]
pub enum Command<'a> {
    /// What is made whole before any of it is written.
    Make(Making<'a>),
    /// The report of the exercises in the files that a list names, in which each name has its
    /// place, also where its file can't be read; by the lesson in a file where one is named.
    WholeClass {
        list: &'a str,
        lesson: Option<&'a str>,
        kind: FileKind,
    },
    /// The same report of the files of these names.
    WholeFiles {
        names: &'a [String],
        lesson: Option<&'a str>,
        kind: FileKind,
    },
    /// The certificate, in this form, of the best setting of the exercise in a file, found within
    /// this budget, over the sheet of weights in another where one is named. It is written while it
    /// is made, for it may be longer than memory holds.
    Certify {
        name: &'a str,
        sheet: Option<&'a str>,
        budget: u32,
        form: Form,
    },
    /// The certificate of the best new cantus, in the same way.
    CertifyCantus {
        wanted: Wanted,
        sheet: Option<&'a str>,
        budget: u32,
    },
}

/// The command that the words after the program's name ask for, or none where they are of no
/// command's form.
pub fn parse(alloc: Global, words: &[String]) -> Result<Option<Command<'_>>, Memory>
    ensures asked { IfOk result (λ found. option_map task_of found ≡ asked (texts words.now)) }
    ensures head { IfOk result (λ found. IfSome found HasHead) }
{
    let Some((word, rest)) = words.split_first() else {
        return Ok(None);
    };
    match files_at(word.as_str(), rest) {
        Some(place) => {
            let (before, names) = cut_at(rest, place);
            parse_files(alloc, before, names)
        }
        None => match verb_named(word.as_str()) {
            Some(verb) => parse_behind(alloc, verb, rest),
            None => Ok(None),
        },
    }
}

/// The place of the first word `--files` among some words, counted from 0.
fn files_in(words: &[String]) -> Option<usize>
    ensures place { result ≡ files_from 0 (texts words.now) }
    ensures within { IfSome result (λ place. place < length words.now) }
{
    let mut place = 0;
    for word in words {
        if word.as_str() == "--files" {
            return Some(place);
        }
        place += 1;
    }
    None
}

/// Its place among the words behind `class`.
fn files_at(word: &str, rest: &[String]) -> Option<usize>
    ensures place { result ≡ files_at word.now (texts rest.now) }
    ensures within { IfSome result (λ place. place < length rest.now) }
{
    if word == "class" {
        files_in(rest)
    } else {
        None
    }
}

/// The words before a place, and those behind it.
fn cut_at<'a>(words: &'a [String], place: usize) -> (&'a [String], &'a [String])
    requires { place < length words.now }
    ensures before { texts result.0.now ≡ take place (texts words.entry.now) }
    ensures behind { texts result.1.now ≡ drop (place + 1) (texts words.entry.now) }
{
    (&words[..place], &words[place + 1..])
}

/// What the words between `class` and `--files` ask for on these names, or none where they aren't
/// of its form.
fn parse_files<'a>(
    alloc: Global,
    words: &'a [String],
    names: &'a [String],
) -> Result<Option<Command<'a>>, Memory>
    ensures asked { IfOk result (λ found. option_map task_of found
        ≡ asked_on (texts words.entry.now) (texts names.entry.now)) }
    ensures head { IfOk result (λ found. IfSome found HasHead) }
{
    let Some(matches) = taken(files_form(alloc)?, words)? else {
        return Ok(None);
    };
    Ok(files_asked(names, &matches))
}

/// What the words behind the first of a command ask for, or none where they aren't of its form.
fn parse_behind(alloc: Global, verb: Verb, words: &[String]) -> Result<Option<Command<'_>>, Memory>
    ensures asked { IfOk result (λ found. option_map task_of found
        ≡ asked_by verb (texts words.now)) }
    ensures head { IfOk result (λ found. IfSome found HasHead) }
{
    let Some(matches) = taken(form(alloc, verb)?, words)? else {
        return Ok(None);
    };
    Ok(asked_of(verb, &matches))
}

/// What a simple command of `clap` finds in words, if it takes them.
fn taken<'a>(
    command: clap::Command<'a>,
    words: &'a [String],
) -> Result<Option<ArgMatches<'a>>, Memory>
    requires { is_simple_and_free (app_of command) ≡ true }
    ensures { IfOk result (λ found. option_map (λ m. rows_of (found_of m)) found
        ≡ found_in (app_of command.entry) (texts words.entry.now)) }
{
    match command.try_get_matches_from(words) {
        Ok(matches) => Ok(Some(matches)),
        Err(error) => match error.kind() {
            ErrorKind::OutOfMemory => Err(Memory),
            _ => Ok(None),
        },
    }
}

//! The report of a class, in chunks of 32 exercises, each worked in a thread of its own.

ghost use Rattle.std.specs.Prelude.{◌≡◌, ◌++◌, ◌+◌, ◌/◌, ◌%◌, ◌^◌, ◌≤◌, ◌<◌, IfOk, OnOk, drop, if◌then◌else◌, length, min, string_bytes, take, zip};
ghost use Rattle.class_marker.specs.Reports as specs;
ghost use Rattle.class_marker.specs.Reports.{ArePartsOf, AreSmall, IsGathered, IsPart, IsReport, class_line};

use crate::one::{Marking, Text, mark_text, put_report};
use fux_pitch::Memory;
use std::alloc::Global;
use std::fmt::Write;
use std::thread;
use std::thread::Threads;

/// How many exercises one thread works.
const CHUNK: usize = 32;

/// The reports of exercises, one after the other, with the counts that the last line tells.
#[derive(Drop)]
pub struct ClassReport {
    pub text: String,
    /// How many exercises have a mark.
    pub marked: usize,
    /// How many exercises are refused.
    pub refused: usize,
}

/// One where an exercise has a mark, and none elsewhere.
fn marked(marking: &Marking) -> usize
    ensures { result ≡ (if specs.has_mark marking.now then 1 else 0) }
{
    match marking {
        Marking::Marked(lines) => usize::from(lines.has_mark),
        Marking::Refused(_) => 0,
    }
}

/// One where the text of an exercise is refused, and none elsewhere.
fn refused(marking: &Marking) -> usize
    ensures { result ≡ (if specs.is_refused marking.now then 1 else 0) }
{
    match marking {
        Marking::Marked(_) => 0,
        Marking::Refused(_) => 1,
    }
}

/// The reports of a chunk of exercises.
fn work_chunk(alloc: Global, names: &[String], texts: &[Text]) -> Result<ClassReport, Memory>
    requires { length names.now ≡ length texts.now }
    ensures { IfOk result (IsPart (zip names.now texts.now)) }
{
    let mut part = ClassReport {
        text: String::new(alloc),
        marked: 0,
        refused: 0,
    };
    for k in 0..texts.len() {
        let marking = mark_text(alloc, &texts[k])?;
        put_report(&mut part.text, names[k].as_str(), &marking)?;
        part.marked += marked(&marking);
        part.refused += refused(&marking);
    }
    Ok(part)
}

/// The reports of all chunks, in order.
fn parts_of<R: Threads + Sync>(
    rt: &R,
    alloc: Global,
    names: &[String],
    texts: &[Text],
) -> Result<Vec<Result<ClassReport, Memory>>, Memory>
    requires { length names.now ≡ length texts.now }
    ensures count { IfOk result (λ parts. length parts.items ≡ length texts.now / 32
        + min 1 (length texts.now % 32)) }
    ensures each { IfOk result (λ parts. ArePartsOf names.now texts.now parts.items) }
{
    let work = |start: usize, chunk: &[Text]| -> Result<ClassReport, Memory>
        requires { start + length chunk.now ≤ length names.now }
        ensures { IfOk result
            (IsPart (zip (take (length chunk.entry.now) (drop start names.entry.now))
            chunk.entry.now)) }
    { work_chunk(alloc, &names[start..start + chunk.len()], chunk) };
    Ok(thread::map_chunks(rt, alloc, texts, CHUNK, &work)?)
}

/// The reports of all parts, one after the other. Want of memory in a part is passed on.
fn gathered(alloc: Global, parts: &[Result<ClassReport, Memory>]) -> Result<ClassReport, Memory>
    requires few { length parts.now < 2 ^ 58 }
    requires small { AreSmall parts.now }
    ensures { IfOk result (IsGathered parts.now) }
{
    let mut whole = ClassReport {
        text: String::new(alloc),
        marked: 0,
        refused: 0,
    };
    for part in parts {
        match part {
            Ok(more) => {
                whole.text.push_str(more.text.as_str())?;
                whole.marked += more.marked;
                whole.refused += more.refused;
            }
            Err(fault) => return Err(*fault),
        }
    }
    Ok(whole)
}

/// Appends the last line.
fn put_count(text: &mut String, count: usize, marked: usize, refused: usize) -> Result<(), Memory>
    ensures { OnOk result (string_bytes text.new ≡ string_bytes text.old ++ class_line count marked
        refused) }
{
    write!(
        text,
        "class {count}, with marks {marked}, refused {refused}\n"
    )?;
    Ok(())
}

/// The reports of exercises without the last line.
fn reports<R: Threads + Sync>(
    rt: &R,
    alloc: Global,
    names: &[String],
    texts: &[Text],
) -> Result<ClassReport, Memory>
    requires { length names.now ≡ length texts.now }
    ensures { IfOk result (IsPart (zip names.now texts.now)) }
{
    let parts = parts_of(rt, alloc, names, texts)?;
    gathered(alloc, &parts)
}

/// The report of exercises under the names of their files: that of each, in order, and a line that
/// counts them. It is the same for every number of threads.
pub fn report<R: Threads + Sync>(
    rt: &R,
    alloc: Global,
    names: &[String],
    texts: &[Text],
) -> Result<ClassReport, Memory>
    requires { length names.now ≡ length texts.now }
    ensures { IfOk result (IsReport (zip names.now texts.now)) }
{
    let count = texts.len();
    let mut report = reports(rt, alloc, names, texts)?;
    put_count(&mut report.text, count, report.marked, report.refused)?;
    Ok(report)
}

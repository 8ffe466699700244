//! The report of a class in which each name has its place.

ghost use Rattle.std.specs.Prelude.{◌≡◌, ◌<◌, ◌^◌, ◌++◌, ◌∷◌, [], IfOk, List, OnOk, codes, if◌then◌else◌, length, string_bytes};
ghost use Rattle.smf_score.specs.JoinFaultTexts.{fault_text};
ghost use Rattle.class_marker.specs.WholeReports as words;
ghost use Rattle.class_marker.specs.WholeReports.{IsReportOf, IsWholeOf, Saying, counts_text, line_end, said_text, whole_line};

use crate::said::Said;
use crate::unmarked::put_unmarked;
use fux_pitch::Memory;
use smf_score::JoinFault;
use std::alloc::Global;
use std::fmt::Write;

/// What is said of files, one after the other, with the counts that the last line tells.
#[derive(Drop)]
pub struct WholeReport {
    pub text: String,
    /// How many have a mark.
    pub marked: usize,
    /// How many are refused, are no setting of the lesson, or can't be read.
    pub refused: usize,
    /// How many differ from the lesson.
    pub others: usize,
}

impl WholeReport {
    /// The report of no file.
    pub fn new(alloc: Global) -> WholeReport
        ensures { IsReportOf [] result }
    {
        WholeReport {
            text: String::new(alloc),
            marked: 0,
            refused: 0,
            others: 0,
        }
    }
}

/// Appends the line of a MIDI file that is no setting of the lesson.
fn put_fault(text: &mut String, fault: JoinFault) -> Result<(), Memory>
    ensures { OnOk result (string_bytes text.new ≡ string_bytes text.old
        ++ codes "midi: " ++ fault_text fault ++ 10 ∷ []) }
{
    write!(text, "midi: {fault}\n")?;
    Ok(())
}

/// Appends what is said of the file of a name.
fn put_text(text: &mut String, name: &str, said: &Said) -> Result<(), Memory>
    ensures { OnOk result (string_bytes text.new ≡ string_bytes text.old
        ++ said_text (name.now, said.now)) }
{
    text.push_str(name)?;
    text.push('\n')?;
    match said {
        Said::Told(lines) => Ok(text.push_str(lines.text.as_str())?),
        Said::Refused(why) => {
            put_unmarked(text, name, *why)?;
            Ok(text.push('\n')?)
        }
        Said::Unjoined(fault) => put_fault(text, *fault),
        Said::Unread => {
            text.push_str(name)?;
            Ok(text.push_str(": cannot read\n")?)
        }
    }
}

/// 1 where there is a mark.
fn marked(said: &Said) -> usize
    ensures { result ≡ (if words.has_mark said.now then 1 else 0) }
{
    match said {
        Said::Told(lines) => usize::from(lines.has_mark),
        Said::Refused(_) | Said::Unjoined(_) | Said::Unread => 0,
    }
}

/// 1 where it is refused, is no setting of the lesson, or can't be read.
fn refused(said: &Said) -> usize
    ensures { result ≡ (if words.is_refused said.now then 1 else 0) }
{
    match said {
        Said::Told(_) => 0,
        Said::Refused(_) | Said::Unjoined(_) | Said::Unread => 1,
    }
}

/// 1 where it differs from the lesson.
fn other(said: &Said) -> usize
    ensures { result ≡ (if words.is_other said.now then 1 else 0) }
{
    match said {
        Said::Told(lines) => usize::from(lines.differs),
        Said::Refused(_) | Said::Unjoined(_) | Said::Unread => 0,
    }
}

/// Appends what is said of one file more, under its name.
pub fn put_said(report: &mut WholeReport, name: &str, said: &Said) -> Result<(), Memory>
    requires marked { report.now.marked < 9223372036854775807 }
    requires refused { report.now.refused < 9223372036854775807 }
    requires others { report.now.others < 9223372036854775807 }
    ensures { (sayings : List Saying) → IsReportOf sayings report.old
        → OnOk result (IsReportOf (sayings ++ (name.now, said.now) ∷ []) report.new) }
{
    put_text(&mut report.text, name, said)?;
    report.marked += marked(said);
    report.refused += refused(said);
    report.others += other(said);
    Ok(())
}

/// Appends the last line but for its end.
fn put_counts(text: &mut String, count: usize, marked: usize, refused: usize) -> Result<(), Memory>
    ensures { OnOk result (string_bytes text.new ≡ string_bytes text.old
        ++ counts_text count marked refused) }
{
    write!(
        text,
        "class {count}, with marks {marked}, refused {refused}"
    )?;
    Ok(())
}

/// Appends the end of the last line.
fn put_end(text: &mut String, by_lesson: bool, others: usize) -> Result<(), Memory>
    ensures { OnOk result (string_bytes text.new ≡ string_bytes text.old
        ++ line_end by_lesson others) }
{
    if by_lesson {
        write!(text, ", differing {others}\n")?;
    } else {
        text.push('\n')?;
    }
    Ok(())
}

/// The report with its last line, where so many names have their place in it.
pub fn whole(report: WholeReport, count: usize, by_lesson: bool) -> Result<WholeReport, Memory>
    ensures { (sayings : List Saying) → IsReportOf sayings report → length sayings ≡ count
        → IfOk result (IsWholeOf by_lesson sayings) }
{
    let mut report = report;
    put_counts(&mut report.text, count, report.marked, report.refused)?;
    put_end(&mut report.text, by_lesson, report.others)?;
    Ok(report)
}

//! The command `explain`.

ghost use Rattle.std.specs.Prelude.{◌≡◌, ℕ, IfOk, List};
ghost use Rattle.class_marker.specs.Markings.{IsContent};
ghost use Rattle.command_words.specs.Commands.{IsNamedSubject};
ghost use Rattle.fux_grid.specs.Exercises.{IsValid};
ghost use Rattle.fux_grid.specs.Namings.{AreNamed};
ghost use Rattle.class_marker.specs.Explanations.{ExplainsBy, ExplainsCantus, ExplainsExercise};
ghost use Rattle.text_faults.specs.Explained.{TellsFaults};
ghost use Rattle.works.specs.declared.work.Verdict.TheVariants.{Unfavorable};
ghost use Rattle.works.specs.Explained.{Explains, ExplainsFaults, ExplainsIt, ExplainsOf, IsExplanation, shown_of};
ghost use Rattle.works.specs.Marked.{marks_verdict};
ghost use Rattle.works.specs.Mixed.{OnNames};
ghost use Rattle.works.specs.Texts.{RefusesText};
ghost use Rattle.works.specs.Works.{Answers};

use crate::exercise::{LONGEST_TEXT, exercise_of};
use crate::mixing::species_of;
use crate::refusal::Refusal;
use crate::work::{Output, Stop, Verdict};
use class_marker::{Explanation, Text, explain_cantus, explain_mixed};
use command_words::{Named, Subject};
use fux_grid::Exercise;
use fux_pitch::Memory;
use std::alloc::Global;
use text_faults::{FoundFault, explained_faults};

/// What an explanation says, all in all.
fn verdict_of(has_mark: bool) -> Verdict
    ensures { result ≡ marks_verdict has_mark }
{
    if has_mark {
        Verdict::Unfavorable
    } else {
        Verdict::Favorable
    }
}

/// The output of an explanation. It takes no memory.
fn output_of(told: Explanation) -> Output
    ensures { IsExplanation told result }
{
    Output::of_text(verdict_of(told.has_mark), told.text)
}

/// What explains an exercise: the marks of its setting in words, or what it asks.
fn setting_output(alloc: Global, ex: &Exercise) -> Result<Output, Stop>
    requires { IsValid ex.now }
    ensures { Answers (ExplainsIt (ExplainsExercise ex.now)) result }
{
    let told = class_marker::explain(alloc, ex)?;
    Ok(output_of(told))
}

/// The same with the species that are named for its voices.
fn mixed_output(alloc: Global, ex: &Exercise, named: &Named) -> Result<Output, Stop>
    requires valid { IsValid ex.now }
    requires named { AreNamed named.now }
    ensures { Answers (OnNames (λ mixed. ExplainsIt (ExplainsBy mixed ex.now.setting)) named.now
        ex.now) result }
{
    let species = species_of(ex, named)?;
    let told = explain_mixed(alloc, ex, species)?;
    Ok(output_of(told))
}

/// What explains the marks of the cantus firmus of an exercise.
fn cantus_output(alloc: Global, ex: &Exercise) -> Result<Output, Stop>
    requires { IsValid ex.now }
    ensures { Answers (ExplainsIt (ExplainsCantus ex.now)) result }
{
    let told = explain_cantus(alloc, ex)?;
    Ok(output_of(told))
}

/// What explains this of an exercise.
fn subject_output(alloc: Global, ex: &Exercise, subject: &Subject) -> Result<Output, Stop>
    requires valid { IsValid ex.now }
    requires named { IsNamedSubject subject.now }
    ensures { Answers (ExplainsOf subject.now ex.now) result }
{
    match subject {
        Subject::Setting => setting_output(alloc, ex),
        Subject::Mixed { named } => mixed_output(alloc, ex, named),
        Subject::Cantus => cantus_output(alloc, ex),
    }
}

/// What is shown of a text: nothing of one that is too long.
fn shown_of(text: &Text) -> &[u8]
    ensures { (bytes : List ℕ) → IsContent 65536 text.now bytes → result.now ≡ shown_of bytes }
{
    let Text::Bytes(bytes) = text else {
        return &[];
    };
    if bytes.len() > LONGEST_TEXT {
        return &[];
    }
    bytes
}

/// The faults of a text, of which the first is given.
fn faults_output(
    alloc: Global,
    name: &str,
    shown: &[u8],
    first: FoundFault,
) -> Result<Output, Memory>
    ensures told { IfOk result (λ output. TellsFaults name.now shown.now first output.bytes) }
    ensures verdict { IfOk result (λ output. output.verdict ≡ Unfavorable) }
{
    let bytes = explained_faults(alloc, name, shown, first)?;
    Ok(Output::of_bytes(Verdict::Unfavorable, bytes))
}

/// The faults of a text that is refused.
fn refused_output(alloc: Global, name: &str, shown: &[u8], refusal: Refusal) -> Result<Output, Stop>
    ensures { (bytes : List ℕ) → shown.now ≡ shown_of bytes → RefusesText bytes refusal
        → Answers (ExplainsFaults name.now bytes) result }
{
    match refusal {
        Refusal::Text { kind, line, column } => {
            let first = FoundFault { kind, line, column };
            Ok(faults_output(alloc, name, shown, first)?)
        }
        other => Err(Stop::Refused(other)),
    }
}

/// What explains this of the exercise of a text, or each fault of a text that is of none.
pub fn explain(alloc: Global, name: &str, subject: &Subject, text: &Text) -> Result<Output, Stop>
    requires { IsNamedSubject subject.now }
    ensures { (bytes : List ℕ) → IsContent 65536 text.now bytes
        → Answers (Explains subject.now name.now bytes) result }
{
    match exercise_of(alloc, text) {
        Ok(exercise) => subject_output(alloc, &exercise, subject),
        Err(Stop::Refused(refusal)) => refused_output(alloc, name, shown_of(text), refusal),
        Err(Stop::Memory) => Err(Stop::Memory),
    }
}

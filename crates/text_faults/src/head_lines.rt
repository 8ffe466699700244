//! The lines before the ranges, each judged by itself.

ghost use Rattle.std.specs.Prelude.{◌≡◌, IfOk};
ghost use Rattle.text_lines.specs.Faults.{Gives};
ghost use Rattle.text_lines.specs.Rows.{row_in};
ghost use Rattle.text_lines.specs.Words.{words_of};
ghost use Rattle.text_faults.specs.HeadLines.{bars_judged, cantus_judged, lone_cantus, mode_judged, species_judged, version_judged, voices_judged};
ghost use Rattle.text_faults.specs.Known.{IsPossible};

use crate::known::{Known, voice_but};
use fux_pitch::{AnyList, Pitch};
use fux_text::{TextFault, TextKind, mode_in, number_in, pitches_in, species_in};
use std::alloc::Global;
use text_lines::Words;

/// Judges a `fux` line.
#[tactic(auto, unfolding(crate::specs::HeadLines::version_judged))]
pub fn version_judged(known: Known, words: Words<'_>) -> Result<Known, TextFault>
    requires { IsPossible known }
    ensures value { Gives (λ x. x) result (version_judged known (words_of words.entry)) }
    ensures possible { IfOk result IsPossible }
{
    number_in(words, TextKind::Word, 1, 2)?;
    Ok(known)
}

/// Judges a `mode` line.
#[tactic(auto, unfolding(crate::specs::HeadLines::mode_judged))]
pub fn mode_judged(known: Known, words: Words<'_>) -> Result<Known, TextFault>
    requires { IsPossible known }
    ensures value { Gives (λ x. x) result (mode_judged known (words_of words.entry)) }
    ensures possible { IfOk result IsPossible }
{
    mode_in(words)?;
    Ok(known)
}

/// Judges a `voices` line.
#[tactic(auto, unfolding(crate::specs::HeadLines::voices_judged))]
pub fn voices_judged(known: Known, words: Words<'_>) -> Result<Known, TextFault>
    requires { IsPossible known }
    ensures value { Gives (λ x. x) result (voices_judged known (words_of words.entry)) }
    ensures possible { IfOk result IsPossible }
{
    let voices = number_in(words, TextKind::Word, 2, 4)?;
    Ok(Known { voices, ..known })
}

/// Judges a `bars` line.
#[tactic(auto, unfolding(crate::specs::HeadLines::bars_judged))]
pub fn bars_judged(known: Known, words: Words<'_>) -> Result<Known, TextFault>
    requires { IsPossible known }
    ensures value { Gives (λ x. x) result (bars_judged known (words_of words.entry)) }
    ensures possible { IfOk result IsPossible }
{
    let bars = number_in(words, TextKind::Bars, 3, 24)?;
    Ok(Known {
        bars: Some(bars),
        ..known
    })
}

/// Judges a `species` line.
#[tactic(auto, unfolding(crate::specs::HeadLines::species_judged))]
pub fn species_judged(known: Known, words: Words<'_>) -> Result<Known, TextFault>
    requires { IsPossible known }
    ensures value { Gives (λ x. x) result (species_judged known (words_of words.entry)) }
    ensures possible { IfOk result IsPossible }
{
    let (_, voice) = species_in(words, known.voices)?;
    Ok(Known {
        species_voice: Some(voice),
        ..known
    })
}

/// Reads the voice and the pitches of a cantus of so many bars.
#[tactic(auto, unfolding(text_lines::specs::Rows::row_in))]
fn lone_cantus(
    alloc: Global,
    known: Known,
    words: Words<'_>,
    bars: u8,
) -> Result<(u8, AnyList<'static, Pitch>), TextFault>
    ensures { Gives (λ x. x) result (row_in (lone_cantus known bars) (words_of words.entry)) }
{
    let (word, words) = words.next(TextKind::Cantus)?;
    let Some(voice) = voice_but(word.text, known.species_voice, known.voices) else {
        return Err(word.fault(TextKind::Cantus));
    };
    pitches_in(alloc, words, voice, bars)
}

/// Judges a `cantus` line, where the number of bars is known.
#[tactic(auto, unfolding(crate::specs::HeadLines::cantus_judged))]
pub fn cantus_judged(alloc: Global, known: Known, words: Words<'_>) -> Result<Known, TextFault>
    requires { IsPossible known }
    ensures value { Gives (λ x. x) result (cantus_judged known (words_of words.entry)) }
    ensures possible { IfOk result IsPossible }
{
    let Some(bars) = known.bars else {
        return Ok(known);
    };
    let (voice, _) = lone_cantus(alloc, known, words, bars)?;
    Ok(Known {
        cantus_voice: Some(voice),
        ..known
    })
}

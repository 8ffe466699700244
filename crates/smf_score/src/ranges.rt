//! The ranges of the voices of placed notes.

ghost use Rattle.std.specs.Prelude.{◌≡◌, ◌≤◌, ◌++◌, IfOk, OnOk, length};
ghost use Rattle.smf_score.specs.Ranges.{free_range, range_in, ranges_in, higher, lower, widened};

use crate::placed::Placed;
use fux_grid::RangeLine;
use fux_pitch::{List, Pitch, semitone};
use std::alloc::{AllocError, Global};

/// The lower of two pitches.
fn lower_of(a: Pitch, b: Pitch) -> Pitch
    ensures { result ≡ lower a b }
{
    if semitone(a) <= semitone(b) { a } else { b }
}

/// The higher of two pitches.
fn higher_of(a: Pitch, b: Pitch) -> Pitch
    ensures { result ≡ higher a b }
{
    if semitone(a) <= semitone(b) { b } else { a }
}

/// A voice's range with one pitch more.
fn with_pitch(voice: u8, pitch: Pitch, line: Option<RangeLine>) -> RangeLine
    ensures { result ≡ widened voice pitch line }
{
    let (low, high) = match line {
        Some(line) => (lower_of(pitch, line.low), higher_of(pitch, line.high)),
        None => (pitch, pitch),
    };
    RangeLine {
        voice,
        low,
        high,
        bars: None,
    }
}

/// The range of the notes of a voice from the lowest to the highest pitch, where there is one.
fn range_of(voice: u8, notes: &[Placed]) -> Option<RangeLine>
    ensures { result ≡ range_in voice notes.now }
{
    let mut line = None;
    let mut i = notes.len();
    while i > 0 {
        i -= 1;
        line = Some(with_pitch(voice, notes[i].pitch, line));
    }
    line
}

/// Appends the range of a voice, unless it is the cantus.
fn push_range(
    lines: &mut Vec<RangeLine>,
    cantus_voice: u8,
    voice: u8,
    notes: &[Placed],
) -> Result<(), AllocError>
    ensures ok { OnOk result (lines.new.items ≡ lines.old.items ++ free_range cantus_voice voice
        notes.now) }
{
    if voice == cantus_voice {
        return Ok(());
    }
    if let Some(line) = range_of(voice, notes) {
        lines.push(line)?;
    }
    Ok(())
}

/// The ranges of the voices without the cantus, from the lowest voice on.
pub(crate) fn ranges_of(
    alloc: Global,
    cantus_voice: u8,
    voices: &[List<Placed>],
) -> Result<Vec<RangeLine>, AllocError>
    requires { length voices.now ≤ 4 }
    ensures { IfOk result (λ lines. lines.items ≡ ranges_in cantus_voice 0 voices.now) }
{
    let mut lines = Vec::new(alloc);
    for v in 0..voices.len() {
        push_range(&mut lines, cantus_voice, v as u8, voices[v].as_slice())?;
    }
    Ok(lines)
}

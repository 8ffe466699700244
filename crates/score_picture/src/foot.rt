//! The rows of what stands below the systems.

ghost use Rattle.std.specs.Prelude.{◌≡◌, ◌<◌, ◌≤◌, ◌^◌, ◌++◌, OnOk, string_bytes};
ghost use Rattle.score_picture.specs.Pictures.{mark_row, mark_rows, penalty_row, penalty_rows, voice_number, voice_numbers};

use crate::names::rule_words;
use fux_grid::VoiceSet;
use fux_pitch::Memory;
use std::fmt::Write;
use written_notes::{SheetMark, has_voice};

/// Appends the row of a penalty.
#[tactic(auto, unfolding(crate::specs::Pictures::penalty_row))]
fn put_penalty_row(out: &mut String, y: u128, penalty: u64) -> Result<(), Memory>
    ensures { OnOk result (string_bytes out.new ≡ string_bytes out.old ++ penalty_row y penalty) }
{
    write!(
        out,
        "<text x=\"78\" y=\"{y}\" font-size=\"13\">penalty {penalty}</text>\n"
    )?;
    Ok(())
}

/// Appends the row of a penalty, where one is shown.
pub fn put_penalty(out: &mut String, y: u128, penalty: Option<u64>) -> Result<(), Memory>
    ensures { OnOk result (string_bytes out.new ≡ string_bytes out.old ++ penalty_rows y penalty) }
{
    match penalty {
        Some(penalty) => put_penalty_row(out, y, penalty),
        None => Ok(()),
    }
}

/// Appends a voice's number behind a space, where the set has it.
fn put_voice(out: &mut String, set: VoiceSet, v: u8) -> Result<(), Memory>
    requires { v < 8 }
    ensures { OnOk result (string_bytes out.new ≡ string_bytes out.old ++ voice_number set.bits v) }
{
    if has_voice(set, v) {
        write!(out, " {v}")?;
    }
    Ok(())
}

/// Appends the voices of a set.
fn put_voices(out: &mut String, set: VoiceSet) -> Result<(), Memory>
    ensures { OnOk result (string_bytes out.new ≡ string_bytes out.old ++ voice_numbers set.bits) }
{
    for v in 0..4 {
        put_voice(out, set, v)?;
    }
    Ok(())
}

/// Appends the row of a mark.
#[tactic(auto, unfolding(crate::specs::Pictures::mark_row))]
fn put_mark(out: &mut String, y: u128, mark: &SheetMark) -> Result<(), Memory>
    ensures { OnOk result (string_bytes out.new ≡ string_bytes out.old ++ mark_row y mark.now) }
{
    let bar = mark.bar;
    let slot = mark.slot;
    let rule = mark.rule;
    write!(
        out,
        "<text x=\"78\" y=\"{y}\" font-size=\"13\" fill=\"#c00000\">\
        bar {bar} slot {slot} S{rule} voices"
    )?;
    put_voices(out, mark.voices)?;
    out.push_str(": ")?;
    out.push_str(rule_words(mark.rule))?;
    out.push_str("</text>\n")?;
    Ok(())
}

/// Appends the rows of marks, each 17 below the one before it.
pub fn put_marks(out: &mut String, y: u128, marks: &[SheetMark]) -> Result<(), Memory>
    requires { y ≤ 2 ^ 100 }
    ensures { OnOk result (string_bytes out.new ≡ string_bytes out.old ++ mark_rows y marks.now) }
{
    let mut height = y;
    for mark in marks {
        put_mark(out, height, mark)?;
        height += 17;
    }
    Ok(())
}

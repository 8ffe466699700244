//! The evidence of a mark.

ghost use Rattle.std.specs.Prelude.{◌≡◌, ◌<◌, ◌++◌, ◌∷◌, [], OnOk, filter, length, string_bytes};
ghost use Rattle.std.specs.List.{flat_map};
ghost use Rattle.score_marker.specs.Marks.{has_voice};
ghost use Rattle.class_marker.specs.Evidence as words;
ghost use Rattle.class_marker.specs.Evidence.{evidence, evidence_at, line_of_one, line_of_two, set_line, single_line, voice_line, voice_lines};

use crate::lines::{put_notes, put_sounding, rest_words};
use crate::notes::notes_that_count;
use crate::sounding::{sounded_first, sounded_then, sung_first, sung_then};
use crate::voices::has_voice;
use crate::words::voice_name;
use fux_grid::{Exercise, Score, VoiceSet};
use fux_pitch::Memory;
use rule_law::{pair_of, voice_of};
use score_marker::Mark;
use std::alloc::Global;

/// Appends the line of a voice for a break of a rule at a column.
#[tactic(auto, unfolding(crate::specs::Evidence::voice_line))]
fn put_voice(
    alloc: Global,
    out: &mut String,
    ex: &Exercise,
    rule: u8,
    score: &Score,
    i: usize,
    v: u8,
) -> Result<(), Memory>
    requires { i < length score.now.columns }
    ensures { OnOk result (string_bytes out.new ≡ string_bytes out.old
        ++ voice_line ex.now rule score.now.columns i v) }
{
    let notes = notes_that_count(alloc, ex, rule, score, v, i)?;
    out.push_str("    ")?;
    out.push_str(voice_name(ex, v))?;
    out.push_str(": ")?;
    put_notes(out, &notes)?;
    out.push_str(rest_words(score.cell(v as usize, i)))?;
    out.push('\n')?;
    Ok(())
}

/// Appends the line of a voice, if it is in a set.
fn put_if_in(
    alloc: Global,
    out: &mut String,
    ex: &Exercise,
    rule: u8,
    score: &Score,
    i: usize,
    set: VoiceSet,
    v: u8,
) -> Result<(), Memory>
    requires place { i < length score.now.columns }
    requires voice { v < 8 }
    ensures { OnOk result (string_bytes out.new ≡ string_bytes out.old
        ++ flat_map (voice_line ex.now rule score.now.columns i)
        (filter (has_voice set.bits) (v ∷ []))) }
{
    if has_voice(set, v) {
        put_voice(alloc, out, ex, rule, score, i, v)?;
    }
    Ok(())
}

/// Appends the lines of the voices of a set, from the lowest.
fn put_voices(
    alloc: Global,
    out: &mut String,
    ex: &Exercise,
    rule: u8,
    score: &Score,
    i: usize,
    set: VoiceSet,
) -> Result<(), Memory>
    requires { i < length score.now.columns }
    ensures { OnOk result (string_bytes out.new ≡ string_bytes out.old
        ++ voice_lines ex.now rule score.now.columns i set.bits) }
{
    for v in 0..4 {
        put_if_in(alloc, out, ex, rule, score, i, set, v)?;
    }
    Ok(())
}

/// Appends the line of the intervals of two voices.
fn put_line_of_two(
    out: &mut String,
    rule: u8,
    score: &Score,
    i: usize,
    v: u8,
    w: u8,
) -> Result<(), Memory>
    requires { i < length score.now.columns }
    ensures { OnOk result (string_bytes out.new ≡ string_bytes out.old
        ++ line_of_two rule score.now.columns i v w) }
{
    let _ = score.len();
    let first = sounded_first(rule, score, v, w, i);
    let next = sounded_then(rule, score, v, w, i);
    put_sounding(out, first, next)
}

/// Appends the line of the intervals of one voice.
fn put_line_of_one(
    out: &mut String,
    ex: &Exercise,
    rule: u8,
    score: &Score,
    i: usize,
    v: u8,
) -> Result<(), Memory>
    requires { i < length score.now.columns }
    ensures { OnOk result (string_bytes out.new ≡ string_bytes out.old
        ++ line_of_one ex.now rule score.now.columns i v) }
{
    let first = sung_first(rule, score, v, i);
    let next = sung_then(ex, rule, score, v, i);
    put_sounding(out, first, next)
}

/// Appends the line of the intervals of a set of one voice.
fn put_single(
    out: &mut String,
    ex: &Exercise,
    rule: u8,
    score: &Score,
    i: usize,
    set: VoiceSet,
) -> Result<(), Memory>
    requires { i < length score.now.columns }
    ensures { OnOk result (string_bytes out.new ≡ string_bytes out.old
        ++ single_line ex.now rule score.now.columns i set.bits) }
{
    match voice_of(set) {
        Some(v) => put_line_of_one(out, ex, rule, score, i, v),
        None => Ok(()),
    }
}

/// Appends the line of the intervals of a set of one voice or two.
fn put_set(
    out: &mut String,
    ex: &Exercise,
    rule: u8,
    score: &Score,
    i: usize,
    set: VoiceSet,
) -> Result<(), Memory>
    requires { i < length score.now.columns }
    ensures { OnOk result (string_bytes out.new ≡ string_bytes out.old
        ++ set_line ex.now rule score.now.columns i set.bits) }
{
    match pair_of(set) {
        Some((v, w)) => put_line_of_two(out, rule, score, i, v, w),
        None => put_single(out, ex, rule, score, i, set),
    }
}

/// Appends the lines of what shows a break at a column.
fn put_at(
    alloc: Global,
    out: &mut String,
    ex: &Exercise,
    score: &Score,
    i: usize,
    mark: &Mark,
) -> Result<(), Memory>
    requires { i < length score.now.columns }
    ensures { OnOk result (string_bytes out.new ≡ string_bytes out.old
        ++ evidence_at ex.now score.now.columns i mark.now) }
{
    put_voices(alloc, out, ex, mark.rule, score, i, mark.voices)?;
    put_set(out, ex, mark.rule, score, i, mark.voices)
}

/// The column of a mark's place.
fn column_of(mark: &Mark) -> usize
    ensures { result ≡ words.column_of mark.now }
{
    let bars = usize::from(mark.bar.saturating_sub(1));
    8 * bars + usize::from(mark.slot)
}

/// Appends the evidence of a mark.
pub fn put_evidence(
    alloc: Global,
    out: &mut String,
    ex: &Exercise,
    score: &Score,
    mark: &Mark,
) -> Result<(), Memory>
    ensures { OnOk result (string_bytes out.new ≡ string_bytes out.old
        ++ evidence ex.now score.now.columns mark.now) }
{
    let i = column_of(mark);
    if i >= score.len() {
        return Ok(());
    }
    put_at(alloc, out, ex, score, i, mark)
}

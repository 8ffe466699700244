//! The words for voices, and for notes with their places.

ghost use Rattle.std.specs.Prelude.{◌≡◌, ◌++◌, OnOk, string_bytes};
ghost use Rattle.class_marker.specs.Words.{half_beat, note_words, of_four, of_three, of_two, part_name, voice_name};

use fux_grid::Exercise;
use fux_pitch::{Memory, Pitch};
use std::fmt::Write;

/// The name of one of two voices.
fn of_two(v: u8) -> &'static str
    ensures { result.now ≡ of_two v }
{
    match v {
        0 => "lower",
        _ => "upper",
    }
}

/// The name of one of three voices.
fn of_three(v: u8) -> &'static str
    ensures { result.now ≡ of_three v }
{
    match v {
        0 => "lower",
        1 => "middle",
        _ => "upper",
    }
}

/// The name of one of four voices.
fn of_four(v: u8) -> &'static str
    ensures { result.now ≡ of_four v }
{
    match v {
        0 => "bass",
        1 => "tenor",
        2 => "alto",
        _ => "soprano",
    }
}

/// The name of one of so many voices.
pub fn part_name(voices: u8, v: u8) -> &'static str
    ensures { result.now ≡ part_name voices v }
{
    match voices {
        2 => of_two(v),
        3 => of_three(v),
        _ => of_four(v),
    }
}

/// The name of a voice of an exercise.
pub fn voice_name(ex: &Exercise, v: u8) -> &'static str
    ensures { result.now ≡ voice_name ex.now v }
{
    if v == ex.cantus_voice {
        return "cantus";
    }
    part_name(ex.voices, v)
}

/// What is added to the name of a beat for a slot behind it.
pub fn half_beat(slot: usize) -> &'static str
    ensures { result.now ≡ half_beat slot }
{
    if slot % 2 == 1 { " and" } else { "" }
}

/// Appends a note of this pitch that starts at a column: its name, its bar and its beat.
#[tactic(auto, unfolding(crate::specs::Words::note_words))]
pub fn put_note(out: &mut String, start: usize, pitch: Pitch) -> Result<(), Memory>
    ensures { OnOk result (string_bytes out.new ≡ string_bytes out.old ++ note_words start pitch) }
{
    let bar = start / 8 + 1;
    let slot = start % 8;
    let beat = slot / 2 + 1;
    write!(out, "{pitch} in bar {bar} on beat {beat}")?;
    out.push_str(half_beat(slot))?;
    Ok(())
}

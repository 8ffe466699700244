//! Writing the note text.

ghost use Rattle.std.specs.Prelude.{◌≡◌, ◌<◌, ◌%◌, ◌++◌, [], ◌∷◌, IfOk, OnOk, string_bytes, length};
ghost use Rattle.std.specs.Option.{ForSome, option_copied};
ghost use Rattle.fux_grid.specs.Exercises.{IsComplete, IsValid};
ghost use Rattle.fux_text.specs.Lines.{free_among, free_voices, note_text, sing_text, sing_texts};

use crate::exercise_lines::put_exercise;
use crate::sing_lines::put_sing;
use fux_grid::{Exercise, Score};
use fux_pitch::Memory;
use std::alloc::Global;

/// Appends the line of a voice, if it is free.
fn put_free(out: &mut String, ex: &Exercise, score: &Score, v: u8) -> Result<(), Memory>
    requires whole { length score.now.columns % 8 ≡ 0 }
    requires some { 0 < length score.now.columns }
    ensures { OnOk result (string_bytes out.new ≡ string_bytes out.old
        ++ sing_texts score.now.columns (free_among ex.now (v ∷ []))) }
{
    if v == ex.cantus_voice {
        return Ok(());
    }
    put_sing(out, score, v)
}

/// Appends the line of each free voice, from the lowest.
fn put_setting(out: &mut String, ex: &Exercise, score: &Score) -> Result<(), Memory>
    requires whole { length score.now.columns % 8 ≡ 0 }
    requires some { 0 < length score.now.columns }
    ensures { OnOk result (string_bytes out.new ≡ string_bytes out.old
        ++ sing_texts score.now.columns (free_voices ex.now)) }
{
    for v in 0..ex.voices {
        put_free(out, ex, score, v)?;
    }
    Ok(())
}

/// The text of an exercise, with a setting where one is given.
pub fn write(alloc: Global, ex: &Exercise, score: Option<&Score>) -> Result<String, Memory>
    requires valid { IsValid ex.now }
    requires complete { ForSome score (λ given. IsComplete ex.now given.now) }
    ensures { IfOk result (λ text. string_bytes text ≡ note_text ex.now
        (option_copied score.entry)) }
{
    let mut out = String::new(alloc);
    put_exercise(&mut out, ex)?;
    if let Some(score) = score {
        put_setting(&mut out, ex, score)?;
    }
    Ok(out)
}

/// The `sing` line of a voice, with its line feed.
pub fn sing_line(alloc: Global, score: &Score, v: u8) -> Result<String, Memory>
    requires voice { v < score.now.voices }
    requires whole { length score.now.columns % 8 ≡ 0 }
    requires some { 0 < length score.now.columns }
    ensures { IfOk result (λ text. string_bytes text ≡ sing_text v score.now.columns) }
{
    let mut out = String::new(alloc);
    put_sing(&mut out, score, v)?;
    Ok(out)
}

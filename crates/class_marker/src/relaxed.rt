//! The sentences of rules that are relaxed.

ghost use Rattle.std.specs.Prelude.{◌≡◌, ◌<◌, ◌++◌, ◌∷◌, [], OnOk, filter, string_bytes};
ghost use Rattle.std.specs.List.{flat_map};
ghost use Rattle.score_marker.specs.Marks.{has_voice, voices_in};
ghost use Rattle.class_marker.specs.Asked.{names_text, relax_sentence, relax_words, relaxed_voices};

use crate::voices::has_voice;
use crate::words::part_name;
use fux_grid::{Relax, VoiceSet};
use fux_pitch::Memory;
use std::fmt::Write;

/// Appends a space and the name of a voice, if it is in a set.
fn put_name(out: &mut String, voices: u8, set: VoiceSet, v: u8) -> Result<(), Memory>
    requires { v < 8 }
    ensures { OnOk result (string_bytes out.new ≡ string_bytes out.old
        ++ names_text voices (filter (has_voice set.bits) (v ∷ []))) }
{
    if has_voice(set, v) {
        out.push_str(" ")?;
        out.push_str(part_name(voices, v))?;
    }
    Ok(())
}

/// Appends the names of the voices of a set, from the lowest.
fn put_names(out: &mut String, voices: u8, set: VoiceSet) -> Result<(), Memory>
    ensures { OnOk result (string_bytes out.new ≡ string_bytes out.old
        ++ names_text voices (voices_in set.bits)) }
{
    for v in 0..4 {
        put_name(out, voices, set, v)?;
    }
    Ok(())
}

/// Appends the voices of a relax line.
fn put_voices(out: &mut String, voices: u8, set: Option<VoiceSet>) -> Result<(), Memory>
    ensures { OnOk result (string_bytes out.new ≡ string_bytes out.old
        ++ relaxed_voices voices set) }
{
    match set {
        None => {
            out.push_str(" for any voices")?;
            Ok(())
        }
        Some(set) => {
            out.push_str(" for these voices:")?;
            put_names(out, voices, set)
        }
    }
}

/// Appends the rule, the bars and the price of a relax line.
#[tactic(auto, unfolding(crate::specs::Asked::relax_words))]
fn put_words(out: &mut String, line: &Relax) -> Result<(), Memory>
    ensures { OnOk result (string_bytes out.new ≡ string_bytes out.old ++ relax_words line.now) }
{
    let rule = line.rule;
    let from = line.from;
    let to = line.to;
    let price = line.price;
    write!(out, "S{rule}")?;
    write!(out, " may be broken in bars {from}")?;
    write!(out, " to {to}")?;
    write!(out, " at a price of {price}")?;
    Ok(())
}

/// Appends a rule that is relaxed.
#[tactic(auto, unfolding(crate::specs::Asked::relax_sentence))]
fn put_line(out: &mut String, voices: u8, line: &Relax) -> Result<(), Memory>
    ensures { OnOk result (string_bytes out.new ≡ string_bytes out.old
        ++ relax_sentence voices line.now) }
{
    put_words(out, line)?;
    put_voices(out, voices, line.voices)?;
    out.push_str(".\n")?;
    Ok(())
}

/// Appends the rules that are relaxed.
pub fn put_relaxed(out: &mut String, voices: u8, lines: &[Relax]) -> Result<(), Memory>
    ensures { OnOk result (string_bytes out.new ≡ string_bytes out.old
        ++ flat_map (relax_sentence voices) lines.now) }
{
    for line in lines {
        put_line(out, voices, line)?;
    }
    Ok(())
}

//! The lines that tell marks.

ghost use Rattle.std.specs.Prelude.{◌≡◌, ◌<◌, ◌++◌, ◌∷◌, [], IfOk, OnOk, filter, string_bytes};
ghost use Rattle.score_marker.specs.MarkLines.{count_line, mark_line, mark_lines, marks_text, numbers_text, price_of, price_text, rule_name, voices_text};
ghost use Rattle.score_marker.specs.Marks.{has_voice};

use crate::mark::Mark;
use fux_grid::{Exercise, VoiceSet};
use fux_pitch::Memory;
use penalty_sheet::{Price, price_at};
use std::alloc::Global;
use std::fmt::Write;

/// Appends the name of a rule.
fn put_rule(out: &mut String, rule: u8) -> Result<(), Memory>
    ensures { OnOk result (string_bytes out.new ≡ string_bytes out.old ++ rule_name rule) }
{
    match rule {
        31 => out.push_str("K1")?,
        32 => out.push_str("K2")?,
        33 => out.push_str("K3")?,
        _ => write!(out, "S{rule}")?,
    }
    Ok(())
}

/// Whether a voice is in a set.
fn has_voice(set: VoiceSet, v: u8) -> bool
    requires { v < 8 }
    ensures { result ≡ has_voice set.bits v }
{
    let bits = set.bits;
    (bits >> v) & 1 == 1
}

/// Appends a space and the number of a voice, if it is in a set.
fn put_voice(out: &mut String, set: VoiceSet, v: u8) -> Result<(), Memory>
    requires { v < 8 }
    ensures { OnOk result (string_bytes out.new ≡ string_bytes out.old
        ++ numbers_text (filter (has_voice set.bits) (v ∷ []))) }
{
    if has_voice(set, v) {
        write!(out, " {v}")?;
    }
    Ok(())
}

/// Appends the voices of a set, from the lowest.
fn put_voices(out: &mut String, set: VoiceSet) -> Result<(), Memory>
    ensures { OnOk result (string_bytes out.new ≡ string_bytes out.old ++ voices_text set.bits) }
{
    for v in 0..4 {
        put_voice(out, set, v)?;
    }
    Ok(())
}

/// Appends the price of a relaxed break.
fn put_price(out: &mut String, price: Price) -> Result<(), Memory>
    ensures { OnOk result (string_bytes out.new ≡ string_bytes out.old ++ price_text price) }
{
    if let Price::Priced(amount) = price {
        write!(out, " relaxed {amount}")?;
    }
    Ok(())
}

/// Appends the line of a mark.
#[tactic(auto, unfolding(crate::specs::MarkLines::mark_line))]
pub fn put_mark(out: &mut String, price: Price, mark: &Mark) -> Result<(), Memory>
    ensures { OnOk result (string_bytes out.new ≡ string_bytes out.old ++ mark_line price
        mark.now) }
{
    let bar = mark.bar;
    let slot = mark.slot;
    write!(out, "bar {bar} slot {slot} ")?;
    put_rule(out, mark.rule)?;
    out.push_str(" voices")?;
    put_voices(out, mark.voices)?;
    put_price(out, price)?;
    out.push('\n')?;
    Ok(())
}

/// Appends the lines of marks.
fn put_marks(out: &mut String, ex: &Exercise, marks: &[Mark]) -> Result<(), Memory>
    ensures { OnOk result (string_bytes out.new ≡ string_bytes out.old ++ mark_lines ex.now
        marks.now) }
{
    for mark in marks {
        let price = price_at(ex, mark.rule, mark.voices, mark.bar);
        put_mark(out, price, mark)?;
    }
    Ok(())
}

/// Appends the line that says how many marks there are.
pub fn put_count(out: &mut String, count: usize) -> Result<(), Memory>
    ensures { OnOk result (string_bytes out.new ≡ string_bytes out.old ++ count_line count) }
{
    write!(out, "marks {count}\n")?;
    Ok(())
}

/// The marks of a setting or a cantus of this exercise, as text: a line for each, which ends in `
/// relaxed PRICE` where the exercise gives its break a price, and a last line with their number.
pub fn marks_text(alloc: Global, ex: &Exercise, marks: &[Mark]) -> Result<String, Memory>
    ensures { IfOk result (λ text. string_bytes text ≡ marks_text ex.now marks.now) }
{
    let mut out = String::new(alloc);
    put_marks(&mut out, ex, marks)?;
    put_count(&mut out, marks.len())?;
    Ok(out)
}

//! The text that explains marks.

ghost use Rattle.std.specs.Prelude.{◌≡◌, ◌++◌, IfOk, OnOk, string_bytes};
ghost use Rattle.std.specs.List.{flat_map};
ghost use Rattle.class_marker.specs.Explained.{explained_mark, explained_marks, sentence_line};

use crate::evidence::put_evidence;
use crate::sentences::rule_sentence;
use fux_grid::{Exercise, Score};
use fux_pitch::Memory;
use penalty_sheet::price_at;
use score_marker::{Mark, put_count, put_mark};
use std::alloc::Global;

/// Appends the line of what a rule says.
#[tactic(auto, unfolding(crate::specs::Explained::sentence_line))]
fn put_sentence(out: &mut String, rule: u8) -> Result<(), Memory>
    ensures { OnOk result (string_bytes out.new ≡ string_bytes out.old ++ sentence_line rule) }
{
    out.push_str("    ")?;
    out.push_str(rule_sentence(rule))?;
    out.push('\n')?;
    Ok(())
}

/// Appends a mark: its line, what its rule says, and what shows the break.
fn put_explained(
    alloc: Global,
    out: &mut String,
    ex: &Exercise,
    score: &Score,
    mark: &Mark,
) -> Result<(), Memory>
    ensures { OnOk result (string_bytes out.new ≡ string_bytes out.old
        ++ explained_mark ex.now score.now.columns mark.now) }
{
    let price = price_at(ex, mark.rule, mark.voices, mark.bar);
    put_mark(out, price, mark)?;
    put_sentence(out, mark.rule)?;
    put_evidence(alloc, out, ex, score, mark)
}

/// Appends marks, one after the other.
fn put_all(
    alloc: Global,
    out: &mut String,
    ex: &Exercise,
    score: &Score,
    marks: &[Mark],
) -> Result<(), Memory>
    ensures { OnOk result (string_bytes out.new ≡ string_bytes out.old
        ++ flat_map (explained_mark ex.now score.now.columns) marks.now) }
{
    for mark in marks {
        put_explained(alloc, out, ex, score, mark)?;
    }
    Ok(())
}

/// The marks of a setting in words: for each its line, as `mark` writes it, then what its rule
/// says, the notes of each of its voices that show the break, and of two voices their intervals;
/// last how many marks there are.
pub fn explained(
    alloc: Global,
    ex: &Exercise,
    score: &Score,
    marks: &[Mark],
) -> Result<String, Memory>
    ensures { IfOk result (λ text. string_bytes text
        ≡ explained_marks ex.now score.now.columns marks.now) }
{
    let mut out = String::new(alloc);
    put_all(alloc, &mut out, ex, score, marks)?;
    put_count(&mut out, marks.len())?;
    Ok(out)
}

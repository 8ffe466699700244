//! The rows of a bar and of a part.

ghost use Rattle.std.specs.Prelude.{◌≡◌, ◌++◌, ◌<◌, OnOk, string_bytes};
ghost use Rattle.written_notes.specs.Measures.{attributes, clef_element, first_attributes, further_rules, marked_row, measure, note_rows, part, rules_row, rules_words, words_row, measures as measure_rows};

use crate::bar::Written;
use crate::clefs::{Clef, clef_of};
use crate::marks::{SheetMark, Spot, rules_at};
use crate::note_rows::{put_if, put_note};
use crate::sheet::sheet_notes;
use fux_grid::{Cell, Exercise};
use fux_pitch::{Memory, Mode, mode_name};
use std::fmt::Write;

/// Appends rules, each behind a space.
fn put_further_rules(out: &mut String, rules: &[u8]) -> Result<(), Memory>
    ensures { OnOk result (string_bytes out.new ≡ string_bytes out.old ++ further_rules rules.now) }
{
    for rule in rules {
        write!(out, " S{rule}")?;
    }
    Ok(())
}

/// Appends rules with a space between.
fn put_rules(out: &mut String, rules: &[u8]) -> Result<(), Memory>
    ensures { OnOk result (string_bytes out.new ≡ string_bytes out.old ++ rules_words rules.now) }
{
    if let [first, rest @ ..] = rules {
        write!(out, "S{first}")?;
        put_further_rules(out, rest)?;
    }
    Ok(())
}

/// Appends the row of these rules.
#[tactic(auto, unfolding(crate::specs::Measures::words_row))]
fn put_words_row(out: &mut String, rules: &[u8]) -> Result<(), Memory>
    ensures { OnOk result (string_bytes out.new ≡ string_bytes out.old ++ words_row rules.now) }
{
    out.push_str("<direction placement=\"above\"><direction-type><words color=\"#C00000\">")?;
    put_rules(out, rules)?;
    out.push_str("</words></direction-type></direction>\n")?;
    Ok(())
}

/// Appends the row of the rules that are shown at a note, where there are any.
fn put_rules_row(out: &mut String, rules: &[u8]) -> Result<(), Memory>
    ensures { OnOk result (string_bytes out.new ≡ string_bytes out.old ++ rules_row rules.now) }
{
    if rules.is_empty() {
        return Ok(());
    }
    put_words_row(out, rules)
}

/// Appends the row of a note, behind that of its rules.
#[tactic(auto, unfolding(crate::specs::Measures::marked_row))]
fn put_marked(
    out: &mut String,
    notes: &[Written],
    marks: &[SheetMark],
    spot: &Spot,
) -> Result<(), Memory>
    requires { spot.now.voice < 8 }
    ensures { OnOk result (string_bytes out.new ≡ string_bytes out.old
        ++ marked_row notes.now marks.now spot.now) }
{
    put_rules_row(out, &rules_at(marks, spot))?;
    put_note(out, notes, marks, spot)?;
    Ok(())
}

/// Appends the rows of a bar's notes. Bars are counted from 1.
fn put_notes(
    out: &mut String,
    marks: &[SheetMark],
    voice: u8,
    bar: u8,
    notes: &[Written],
) -> Result<(), Memory>
    requires { voice < 8 }
    ensures { OnOk result (string_bytes out.new ≡ string_bytes out.old
        ++ note_rows notes.now marks.now voice bar notes.now) }
{
    for note in notes {
        let spot = Spot {
            voice,
            bar,
            note: *note,
        };
        put_marked(out, notes, marks, &spot)?;
    }
    Ok(())
}

/// The element of a clef.
fn clef_element(clef: Clef) -> &'static str
    ensures { result.now ≡ clef_element clef }
{
    match clef {
        Clef::Treble => "<clef><sign>G</sign><line>2</line></clef>",
        Clef::Bass => "<clef><sign>F</sign><line>4</line></clef>",
        Clef::Alto => "<clef><sign>C</sign><line>3</line></clef>",
    }
}

/// Appends the row of a part's key, time and clef.
#[tactic(auto, unfolding(crate::specs::Measures::attributes))]
fn put_attributes(out: &mut String, mode: Mode, clef: Clef) -> Result<(), Memory>
    ensures { OnOk result (string_bytes out.new ≡ string_bytes out.old ++ attributes mode clef) }
{
    out.push_str("<attributes><divisions>2</divisions><key><fifths>0</fifths><mode>")?;
    out.push_str(mode_name(mode))?;
    out.push_str(
        "</mode></key><time symbol=\"cut\"><beats>2</beats><beat-type>2</beat-type></time>",
    )?;
    out.push_str(clef_element(clef))?;
    out.push_str("</attributes>\n")?;
    Ok(())
}

/// Appends the row of a part's key, time and clef in its first bar alone.
fn put_first_attributes(out: &mut String, ex: &Exercise, voice: u8, bar: u8) -> Result<(), Memory>
    ensures { OnOk result (string_bytes out.new ≡ string_bytes out.old
        ++ first_attributes ex.now voice bar) }
{
    if bar == 0 {
        put_attributes(out, ex.mode, clef_of(ex, voice))?;
    }
    Ok(())
}

/// Appends the rows of a bar of a voice, counted from 0.
#[tactic(auto, unfolding(crate::specs::Measures::measure))]
fn put_measure(
    out: &mut String,
    ex: &Exercise,
    marks: &[SheetMark],
    voice: u8,
    line: &[Cell],
    bar: u8,
) -> Result<(), Memory>
    requires voice { voice < 8 }
    requires bar { bar < ex.now.bars }
    requires few { bar < 255 }
    ensures { OnOk result (string_bytes out.new ≡ string_bytes out.old
        ++ measure ex.now marks.now voice line.now bar) }
{
    let number = bar + 1;
    let notes = sheet_notes(ex, voice, line, bar);
    write!(out, "<measure number=\"{number}\">\n")?;
    put_first_attributes(out, ex, voice, bar)?;
    put_notes(out, marks, voice, number, &notes)?;
    put_if(
        out,
        number == ex.bars,
        "<barline location=\"right\"><bar-style>light-heavy</bar-style></barline>\n",
    )?;
    out.push_str("</measure>\n")?;
    Ok(())
}

/// Appends the rows of all bars of a voice.
fn put_measures(
    out: &mut String,
    ex: &Exercise,
    marks: &[SheetMark],
    voice: u8,
    line: &[Cell],
) -> Result<(), Memory>
    requires { voice < 8 }
    ensures { OnOk result (string_bytes out.new ≡ string_bytes out.old
        ++ measure_rows ex.now marks.now voice line.now) }
{
    for bar in 0..ex.bars {
        put_measure(out, ex, marks, voice, line, bar)?;
    }
    Ok(())
}

/// Appends the rows of a part.
#[tactic(auto, unfolding(crate::specs::Measures::part))]
pub fn put_part(
    out: &mut String,
    ex: &Exercise,
    marks: &[SheetMark],
    voice: u8,
    line: &[Cell],
) -> Result<(), Memory>
    requires { voice < 8 }
    ensures { OnOk result (string_bytes out.new ≡ string_bytes out.old
        ++ part ex.now marks.now voice line.now) }
{
    write!(out, "<part id=\"P{voice}\">\n")?;
    put_measures(out, ex, marks, voice, line)?;
    out.push_str("</part>\n")?;
    Ok(())
}

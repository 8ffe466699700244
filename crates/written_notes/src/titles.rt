//! The title of a document, and the names of its parts.

ghost use Rattle.std.specs.Prelude.{◌≡◌, ◌++◌, OnOk, string_bytes};
ghost use Rattle.std.specs.List.{flat_map, range_with_len};
ghost use Rattle.written_notes.specs.Titles.{called, cantus_called, free_called, mark_count, mode_title, own_species, part_name, part_names, part_list, species_words, title, title_words, voice_species};

use crate::marks::SheetMark;
use fux_grid::{Exercise, is_mixed, species_of};
use fux_pitch::{Memory, Mode};
use std::fmt::Write;

/// The name of a mode in a title.
fn mode_title(mode: Mode) -> &'static str
    ensures { result.now ≡ mode_title mode }
{
    match mode {
        Mode::Dorian => "Dorian",
        Mode::Phrygian => "Phrygian",
        Mode::Lydian => "Lydian",
        Mode::Mixolydian => "Mixolydian",
        Mode::Aeolian => "Aeolian",
        Mode::Ionian => "Ionian",
    }
}

/// Appends what a title says of the species of a voice that has its own.
#[tactic(auto, unfolding(crate::specs::Titles::own_species))]
fn put_own_species(out: &mut String, ex: &Exercise, v: u8) -> Result<(), Memory>
    ensures { OnOk result (string_bytes out.new ≡ string_bytes out.old ++ own_species ex.now v) }
{
    let species = species_of(ex, v);
    write!(out, ", voice {v}")?;
    write!(out, " species {species}")?;
    Ok(())
}

/// Appends what a title says of the species of a voice, where each has its own.
fn put_voice_species(out: &mut String, ex: &Exercise, v: u8) -> Result<(), Memory>
    ensures { OnOk result (string_bytes out.new ≡ string_bytes out.old ++ voice_species ex.now v) }
{
    if v == ex.cantus_voice {
        return Ok(());
    }
    put_own_species(out, ex, v)
}

/// Appends what a title says of the species of all voices, where each has its own.
fn put_mixed_species(out: &mut String, ex: &Exercise) -> Result<(), Memory>
    ensures { OnOk result (string_bytes out.new ≡ string_bytes out.old
        ++ flat_map (voice_species ex.now) (range_with_len 0 ex.now.voices)) }
{
    for v in 0..ex.voices {
        put_voice_species(out, ex, v)?;
    }
    Ok(())
}

/// Appends what a title says of the species.
fn put_species(out: &mut String, ex: &Exercise) -> Result<(), Memory>
    ensures { OnOk result (string_bytes out.new ≡ string_bytes out.old ++ species_words ex.now) }
{
    if is_mixed(ex) {
        return put_mixed_species(out, ex);
    }
    let species = ex.species;
    write!(out, ", species {species}")?;
    Ok(())
}

/// Appends the number of marks, where a sheet is marked.
fn put_mark_count(out: &mut String, marks: Option<&[SheetMark]>) -> Result<(), Memory>
    ensures { OnOk result (string_bytes out.new ≡ string_bytes out.old ++ mark_count marks.entry) }
{
    if let Some(marks) = marks {
        let count = marks.len();
        write!(out, ": marks {count}")?;
    }
    Ok(())
}

/// Appends the words of a title: the mode, the species, and how many marks there are, where a sheet
/// is marked.
#[tactic(auto, unfolding(crate::specs::Titles::title_words))]
pub fn put_title_words(
    out: &mut String,
    ex: &Exercise,
    marks: Option<&[SheetMark]>,
) -> Result<(), Memory>
    ensures { OnOk result (string_bytes out.new ≡ string_bytes out.old
        ++ title_words ex.now marks.entry) }
{
    out.push_str(mode_title(ex.mode))?;
    put_species(out, ex)?;
    put_mark_count(out, marks)?;
    Ok(())
}

/// Appends the title's row.
#[tactic(auto, unfolding(crate::specs::Titles::title))]
pub fn put_title(out: &mut String, ex: &Exercise, marks: Option<&[SheetMark]>) -> Result<(), Memory>
    ensures { OnOk result (string_bytes out.new ≡ string_bytes out.old
        ++ title ex.now marks.entry) }
{
    out.push_str("<work><work-title>")?;
    put_title_words(out, ex, marks)?;
    out.push_str("</work-title></work>\n")?;
    Ok(())
}

/// Appends what the part of the cantus is called, and its short name.
#[tactic(auto, unfolding(crate::specs::Titles::cantus_called))]
fn put_cantus_called(out: &mut String, v: u8) -> Result<(), Memory>
    ensures { OnOk result (string_bytes out.new ≡ string_bytes out.old ++ cantus_called v) }
{
    write!(out, "C.f. ({v})</part-name><part-abbreviation>C.f.")?;
    Ok(())
}

/// Appends what the part of a free voice is called, and its short name.
#[tactic(auto, unfolding(crate::specs::Titles::free_called))]
fn put_free_called(out: &mut String, v: u8) -> Result<(), Memory>
    ensures { OnOk result (string_bytes out.new ≡ string_bytes out.old ++ free_called v) }
{
    write!(out, "Voice {v}</part-name><part-abbreviation>")?;
    write!(out, "{v}")?;
    Ok(())
}

/// Appends what a part is called, and its short name.
fn put_called(out: &mut String, ex: &Exercise, v: u8) -> Result<(), Memory>
    ensures { OnOk result (string_bytes out.new ≡ string_bytes out.old ++ called ex.now v) }
{
    if v == ex.cantus_voice {
        put_cantus_called(out, v)?;
    } else {
        put_free_called(out, v)?;
    }
    Ok(())
}

/// Appends the row of a part's name.
#[tactic(auto, unfolding(crate::specs::Titles::part_name))]
fn put_name(out: &mut String, ex: &Exercise, v: u8) -> Result<(), Memory>
    ensures { OnOk result (string_bytes out.new ≡ string_bytes out.old ++ part_name ex.now v) }
{
    write!(out, "<score-part id=\"P{v}\"><part-name>")?;
    put_called(out, ex, v)?;
    out.push_str("</part-abbreviation></score-part>\n")?;
    Ok(())
}

/// Appends the rows of all parts' names, the highest voice first.
fn put_names(out: &mut String, ex: &Exercise) -> Result<(), Memory>
    ensures { OnOk result (string_bytes out.new ≡ string_bytes out.old ++ part_names ex.now) }
{
    for v in (0..ex.voices).rev() {
        put_name(out, ex, v)?;
    }
    Ok(())
}

/// Appends the list of parts.
#[tactic(auto, unfolding(crate::specs::Titles::part_list))]
pub fn put_part_list(out: &mut String, ex: &Exercise) -> Result<(), Memory>
    ensures { OnOk result (string_bytes out.new ≡ string_bytes out.old ++ part_list ex.now) }
{
    out.push_str("<part-list>\n<part-group type=\"start\" number=\"1\">")?;
    out.push_str("<group-symbol>bracket</group-symbol>")?;
    out.push_str("<group-barline>yes</group-barline></part-group>\n")?;
    put_names(out, ex)?;
    out.push_str("<part-group type=\"stop\" number=\"1\"/>\n</part-list>\n")?;
    Ok(())
}

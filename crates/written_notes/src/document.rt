//! A whole document.

ghost use Rattle.std.specs.Prelude.{◌≡◌, ◌++◌, ◌<◌, ◌≤◌, IfOk, OnOk, string_bytes};
ghost use Rattle.written_notes.specs.Documents.{document, marks_of, part_of, parts};

use crate::line::voice_line;
use crate::marks::SheetMark;
use crate::measures::put_part;
use crate::titles::{put_part_list, put_title};
use fux_grid::Exercise;
use fux_pitch::Memory;
use std::alloc::Global;

/// The rows before the title.
const HEAD: &str = "<?xml version=\"1.0\" encoding=\"UTF-8\"?>\n\
    <!DOCTYPE score-partwise PUBLIC \"-//Recordare//DTD MusicXML 4.0 Partwise//EN\" \
    \"http://www.musicxml.org/dtds/partwise.dtd\">\n\
    <score-partwise version=\"4.0\">\n";

/// Appends the part of a voice.
fn put_voice(
    alloc: Global,
    out: &mut String,
    ex: &Exercise,
    marks: &[SheetMark],
    voice: u8,
) -> Result<(), Memory>
    requires { voice < 8 }
    ensures { OnOk result (string_bytes out.new ≡ string_bytes out.old
        ++ part_of ex.now marks.now voice) }
{
    let line = voice_line(alloc, ex, voice)?;
    put_part(out, ex, marks, voice, line.as_slice())
}

/// Appends the parts of all voices, the highest first.
fn put_parts(
    alloc: Global,
    out: &mut String,
    ex: &Exercise,
    marks: &[SheetMark],
) -> Result<(), Memory>
    requires { ex.now.voices ≤ 4 }
    ensures { OnOk result (string_bytes out.new ≡ string_bytes out.old ++ parts ex.now marks.now) }
{
    for voice in (0..ex.voices).rev() {
        put_voice(alloc, out, ex, marks, voice)?;
    }
    Ok(())
}

/// The marks of a sheet, none where it isn't marked.
pub fn marks_of(marks: Option<&[SheetMark]>) -> &[SheetMark]
    ensures { result.now ≡ marks_of marks.entry }
{
    match marks {
        Some(marks) => marks,
        None => &[],
    }
}

/// The MusicXML document of an exercise, the highest voice first: of its setting; without one of
/// the sheet to fill in, which has the cantus, the given notes, and rests. Where marks are given,
/// the title says how many there are, their notes are red, and their rules stand above the notes
/// of their highest voices. The title is that of the second exercise: the same one, or with the
/// species by whose rules the marks are.
#[tactic(auto, unfolding(crate::specs::Documents::document))]
pub fn score_xml<'e>(
    alloc: Global,
    ex: &Exercise<'e>,
    titled: &Exercise<'e>,
    marks: Option<&[SheetMark]>,
) -> Result<String, Memory>
    requires { ex.now.voices ≤ 4 }
    ensures { IfOk result (λ text. string_bytes text ≡ document ex.now titled.now marks.entry) }
{
    let mut out = String::new(alloc);
    out.push_str(HEAD)?;
    put_title(&mut out, titled, marks)?;
    out.push_str(
        "<identification><encoding><software>fux</software></encoding></identification>\n",
    )?;
    put_part_list(&mut out, ex)?;
    put_parts(alloc, &mut out, ex, marks_of(marks))?;
    out.push_str("</score-partwise>\n")?;
    Ok(out)
}

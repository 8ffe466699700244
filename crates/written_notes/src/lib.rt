//! The written notes of a voice: note values, ties, signs, beams, clefs, and the lines of a sheet;
//! and MusicXML documents of them, with or without a setting, plain or with the marks in red.
#![tactic(auto)]

mod bar;
mod beams;
mod clefs;
mod document;
mod line;
mod marks;
mod measures;
mod note_rows;
mod runs;
mod sheet;
mod signs;
mod titles;
mod values;

pub use bar::{Written, bar_notes};
pub use beams::{Beam, beam_of};
pub use clefs::{Clef, clef_of, middle_degree};
pub use document::{marks_of, score_xml};
pub use line::voice_line;
pub use marks::{SheetMark, Spot, has_voice, is_red, rules_at};
pub use sheet::{is_left, sheet_notes};
pub use signs::Sign;
pub use titles::put_title_words;
pub use values::{Base, NoteValue, value_of};

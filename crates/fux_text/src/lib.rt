//! The note text of exercises and their settings, both ways.
#![tactic(auto)]

mod exercise_lines;
mod fault;
mod fitting;
mod given_lines;
mod head;
mod item_words;
mod items;
mod limits;
mod names;
mod note_text;
mod ranges;
mod read_back;
mod reading;
mod relaxing;
mod setting;
mod sing;
mod sing_lines;

pub use exercise_lines::put_pitches;
pub use fault::{TextFault, TextKind};
pub use given_lines::given_in;
pub use head::{mode_in, number_in, pitch_in, pitches_in, species_in};
pub use names::{parse_mode, parse_pitch};
pub use note_text::{sing_line, write};
pub use ranges::{bars_in, high_in};
pub use read_back::{text_reads_back, texts_are_read, words_read_back};
pub use reading::{read, read_sing};
pub use relaxing::relax_in;
pub use sing::sung_in;

//! Rules and tolls of melody: how a voice moves from note to note.
#![tactic(auto)]

mod book;
mod gauges;
mod melody;
mod moves;
mod notes;
mod smooth;
mod tolls;
mod voices;
mod windows;

pub use gauges::{
    Climax, Compass, Leaps, Q17, Q18, Q19, Q20, Strikes, climax_with, is_final_climax, is_leap_to,
    is_narrow, leap_excess, leaps_with, place_of,
};
pub use melody::{Melody, breaks};
pub use moves::{leaves_sharp, moves_unmelodically, repeats};
pub use notes::{VoiceNotes, breaks_after, leap_open_after, note, noted, notes_before, silent};
pub use smooth::{are_smooth, is_smooth_in};
pub use tolls::{cost, toll_of_move};
pub use voices::{
    all_notes_before, all_silent, breaks_looking_back, latest_of_notes, note_all, open_leaps,
};

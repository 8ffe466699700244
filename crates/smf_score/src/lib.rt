//! Standard MIDI Files of exercises and their settings, and as answers to a lesson.
#![tactic(auto)]

mod cantus;
mod exercise;
mod fault;
mod grid;
mod join_back;
mod join_fault;
mod joined;
mod joining;
mod legato;
mod lesson_cantus;
mod manner;
mod meters;
mod order;
mod orders;
mod placed;
mod played;
mod ranges;
mod read_back;
mod reading;
mod staves;
mod strokes;
mod tracks;
mod written;

pub use fault::SmfFault;
pub use join_back::settings_join_back;
pub use join_fault::JoinFault;
pub use joining::join_smf;
pub use manner::Manner;
pub use placed::Placed;
pub use played::{Layout, Played};
pub use read_back::scores_read_back;
pub use reading::{from_smf, one_reading};
pub use strokes::{Act, Stroke};
pub use written::to_smf;

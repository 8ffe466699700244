//! Pitches, intervals and modes.
#![tactic(auto)]

mod any_list;
mod interval;
mod key;
mod list;
mod memory;
mod mode;
mod names;
mod pitch;
mod share;
mod spelling;

pub use any_list::AnyList;
pub use interval::{
    Interval, interval_of, is_consonant, is_consonant_within, is_imperfect, is_perfect, reduce,
};
pub use key::semitone;
pub use list::{Label, List};
pub use memory::Memory;
pub use mode::{Mode, final_letter, in_gamut, leading, mode_name};
pub use names::{name, parse_pitch};
pub use pitch::Pitch;
pub use spelling::spell;

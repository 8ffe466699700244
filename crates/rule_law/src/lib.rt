//! What a rule is, and what a toll is: their readings, their laws, and the words that they share.
#![tactic(auto)]

mod after;
mod alone;
mod around;
mod bars;
mod both;
mod degrees;
mod gauge;
mod latest;
mod leading;
mod newest;
mod pairs;
mod question;
mod rule_crate;
mod sets;
mod table;
mod terms;

pub use after::{next_onset, note_within, onset_pitch};
pub use alone::Alone;
pub use around::{ColumnsAround, cell_around, cell_behind, cells_ahead, cells_behind};
pub use bars::{begins_bar, begins_inner_bar, is_quiet};
pub use both::{Both, Parts};
pub use degrees::lies_above;
pub use gauge::{Gauge, menu_starts, starts_ahead};
pub use latest::{Latest, cells_of, latest_before, latest_of_column};
pub use leading::is_leading;
pub use newest::{ColumnCells, NewestColumns};
pub use pairs::{
    both_move, move_alike, move_into_perfect, one_starts, sound_perfect, sound_same_key,
};
pub use question::LateQuestion;
pub use rule_crate::RuleCrate;
pub use sets::{RuleSet, is_free, pair_of, voice_of, voice_pairs};
pub use table::{Form, Kind, LatePlaces, Stands, sets_of};
pub use terms::{
    equal_perfects, falls, interval_in, interval_of_cells, is_clash, is_clean, is_leap,
    is_reduced_to, is_repetition, is_sounding, is_step, lowest, move_from, moves, opposite_ways,
    previous_pitch, rises, same_way, starts,
};

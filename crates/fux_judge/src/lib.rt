//! Settled breaks and penalties, column by column: one small state stands for a prefix of any
//! length.
#![tactic(auto)]

mod ahead;
mod all_rules;
mod always;
mod gauges;
mod idle;
mod kept;
mod late;
mod late_tolls;
mod lines;
mod link;
mod moment;
mod moves;
mod numbers;
mod own;
mod pairs;
mod past;
mod pruning;
mod reading;
mod state;
mod still;
mod told;
mod tolls;
mod total;
mod unbroken;
mod verdict;
mod whole;

pub use always::is_always_dead;
pub use idle::{do_shapes_hold, idle_rules};
pub use lines::least;
pub use link::{alone_rule, column_cost, link_cost, pair_cost};
pub use moves::{move_cost, moves_are_least, pair_cost_from};
pub use numbers::{every_rule, every_set, every_toll};
pub use own::own_charge;
pub use past::Past;
pub use pruning::pruned_within;
pub use state::State;
pub use still::{again_still, step_still};
pub use told::{is_rule, is_told_broken, line_break, told_rule};
pub use total::penalty;
pub use unbroken::{Price, step_again, step_unbroken};
pub use verdict::{Verdict, step};
pub use whole::{cost_in, is_broken_in, is_cost_settled_in, is_settled_in};

//! Marks: the broken rules of a setting, and of a cantus firmus. Charges: what a setting breaks and
//! pays for.
#![tactic(auto)]

mod cantus;
mod charge;
mod law;
mod mark;
mod mark_lines;
mod one_list;
mod setting;
mod weighing;
mod weighing_lines;

pub use cantus::cantus_marks;
pub use charge::{Charge, LineCharge, TollCharge};
pub use law::lawful_is_unmarked;
pub use mark::Mark;
pub use mark_lines::{marks_text, put_count, put_mark};
pub use one_list::{charges_are_whole, marks_are_one};
pub use setting::marks;
pub use weighing::charges;
pub use weighing_lines::{count_marks, weighing_text};

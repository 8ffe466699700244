//! Exercises and scores from short texts, for the crates of worked cases.
#![tactic(auto)]

mod exercise;
mod given;
mod score;

pub use exercise::{Case, any_exercise_of, case_of, exercise_of, mode_of};
pub use score::pitch_of;

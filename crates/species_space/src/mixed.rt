//! Exercises with a species for each voice.

use fux_grid::Exercise;

/// An exercise, and the species of each of its voices.
#[derive(Clone, Copy)]
pub struct Mixed<'a> {
    pub ex: &'a Exercise<'a>,
    /// 1 to 5 for each free voice, and 1 for the cantus.
    pub species: [u8; 4],
}

//! The pitch of each voice's latest note.

ghost use Rattle.std.specs.Prelude.{◌≡◌, ◌≤◌, length};
ghost use Rattle.fux_grid.specs.Columns.{cells_before, earlier};
ghost use Rattle.rule_law.specs.Nearby.{pitch_at, previous_pitches, sounding_pitches};

use crate::terms::previous_pitch;
use fux_grid::{Cell, Column, Score, cell_of};
use fux_pitch::Pitch;

/// For each of four voices the pitch of its latest note; none where it has no note yet.
#[derive(Clone, Copy, Debug, PartialEq, Eq)]
pub struct Latest {
    pub pitches: [Option<Pitch>; 4],
}

impl Latest {
    /// No voice has a note yet.
    pub const NONE: Latest = Latest { pitches: [None; 4] };

    /// The pitch of a voice's latest note; none where there is no such voice.
    #[inline]
    pub fn of(&self, v: usize) -> Option<Pitch>
        ensures { result ≡ pitch_at self.now.pitches v }
    {
        let pitches = &self.pitches[..];
        if v < 4 { pitches[v] } else { None }
    }
}

/// The latest notes of a score before column `i`.
pub fn latest_before(score: &Score, i: usize) -> Latest
    requires { i ≤ length score.now.columns }
    ensures { result.pitches ≡ previous_pitches (earlier score.now.columns i) }
{
    Latest {
        pitches: [
            previous_pitch(score, 0, i),
            previous_pitch(score, 1, i),
            previous_pitch(score, 2, i),
            previous_pitch(score, 3, i),
        ],
    }
}

/// What each voice sounds in a column.
pub fn latest_of_column(column: &[Cell]) -> Latest
    ensures { result.pitches ≡ sounding_pitches column.now }
{
    Latest {
        pitches: [
            cell_of(column, 0).pitch(),
            cell_of(column, 1).pitch(),
            cell_of(column, 2).pitch(),
            cell_of(column, 3).pitch(),
        ],
    }
}

/// The cells of a column, where it is given.
#[inline]
pub fn cells_of(prev: Option<&Column>) -> &[Cell]
    ensures { result.now ≡ cells_before prev.entry }
{
    match prev {
        Some(column) => column.as_slice(),
        None => &[],
    }
}

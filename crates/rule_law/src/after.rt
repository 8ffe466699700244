//! The notes of a voice that start after a column.

ghost use Rattle.std.specs.Prelude.{◌≡◌, ◌+◌, ◌<◌, ◌≤◌, ℕ, drop, IfSome};
ghost use Rattle.fux_grid.specs.Cells.{first_of};
ghost use Rattle.fux_grid.specs.Columns.{Columns};
ghost use Rattle.rule_law.specs.After as after;
ghost use Rattle.rule_law.specs.Within.{IsFirstWithin, notes_within};

use crate::around::{ColumnsAround, cell_around};
use fux_grid::{Cell, Exercise, Onset};
use fux_pitch::Pitch;

/// The first note that a voice starts at column `n` or later, in the first columns of the list.
pub fn note_within<C: ColumnsAround>(
    around: &C,
    ex: &Exercise,
    v: u8,
    n: usize,
    end: usize,
) -> Option<Onset>
    requires voices { ex.now.voices ≤ 4 }
    requires within { end ≤ C.size around.now }
    requires order { n ≤ end }
    ensures value { (s : Columns) (first : ℕ) → C.show around.now ex.now s first → first ≤ n →
        result ≡ first_of (notes_within s end v n) }
    ensures from { IfSome result (λ onset. n ≤ onset.start) }
    ensures start { IfSome result (λ onset. onset.start < end) }
    ensures rest { (s : Columns) (first : ℕ) → C.show around.now ex.now s first → first ≤ n →
        IfSome result (IsFirstWithin s end v n) }
{
    for j in n..end {
        if let Cell::Start(pitch) = cell_around(around, ex, v, j) {
            return Some(Onset { start: j, pitch });
        }
    }
    None
}

/// The next note that a voice starts after column `i`.
pub fn next_onset<C: ColumnsAround>(around: &C, ex: &Exercise, v: u8, i: usize) -> Option<Onset>
    requires voices { ex.now.voices ≤ 4 }
    requires place { i < C.size around.now }
    ensures { (s : Columns) (first : ℕ) → C.show around.now ex.now s first → first ≤ i →
        result ≡ after.next_onset i v (drop (i + 1) s) }
{
    let end = around.count();
    note_within(around, ex, v, i + 1, end)
}

/// The pitch of a note.
pub fn onset_pitch(onset: Option<Onset>) -> Option<Pitch>
    ensures { result ≡ after.onset_pitch onset }
{
    match onset {
        Some(onset) => Some(onset.pitch),
        None => None,
    }
}

//! Signs before notes.

ghost use Rattle.std.specs.Prelude.{◌≡◌, ◌≤◌, ◌<◌, false, length};
ghost use Rattle.written_notes.specs.Signs.{heard_on, heard_after, sign_at as sign_in, sign_for};

use fux_grid::Cell;
use fux_pitch::Pitch;

/// The sign before a note.
#[derive(Clone, Copy, Debug, PartialEq, Eq, Default)]
pub enum Sign {
    #[default]
    Plain,
    Sharp,
    Flat,
    Natural,
}

/// Whether who reads a bar hears a degree altered after a cell, where he heard it so before.
fn altered_after(degree: u8, before: bool, cell: Cell) -> bool
    ensures { result ≡ heard_after degree before cell }
{
    match cell.pitch() {
        Some(pitch) if pitch.degree() == degree => pitch.alter() != 0,
        _ => before,
    }
}

/// Whether the last of these cells on a degree is altered.
fn is_altered(degree: u8, cells: &[Cell]) -> bool
    ensures { result ≡ heard_on degree false cells.now }
{
    let mut altered = false;
    for cell in cells {
        altered = altered_after(degree, altered, *cell);
    }
    altered
}

/// The sign of a pitch, where the last note of its degree in the bar was altered or not.
fn sign_of(pitch: Pitch, altered: bool) -> Sign
    ensures { result ≡ sign_for pitch altered }
{
    match pitch.alter() {
        1 => Sign::Sharp,
        -1 => Sign::Flat,
        _ if altered => Sign::Natural,
        _ => Sign::Plain,
    }
}

/// The sign at a slot of a bar. A note that is held has none.
pub fn sign_at(bar: &[Cell], slot: u8) -> Sign
    requires { slot < length bar.now }
    ensures { result ≡ sign_in bar.now slot }
{
    let slot = slot as usize;
    match bar[slot] {
        Cell::Start(pitch) => sign_of(pitch, is_altered(pitch.degree(), &bar[..slot])),
        _ => Sign::Plain,
    }
}

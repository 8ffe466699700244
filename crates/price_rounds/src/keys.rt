//! The greatest keys that a voice may start. No clause speaks of them.

ghost use Rattle.std.specs.Prelude.{◌<◌};
ghost use Rattle.fux_grid.specs.Exercises.{columns_in};

use fux_grid::{Cell, cell_of};
use fux_pitch::{Memory, semitone};
use species_space::SpeciesSpace;
use std::alloc::Global;
use tree_search::Space;

/// Notes each key that a voice may start in a column of the menu of a place.
fn note_keys(space: &SpeciesSpace<'_>, voice: u8, i: usize, known: &mut [bool; 128])
    requires { i < columns_in space.now.exercise }
{
    for column in space.tables().columns(i) {
        if let Cell::Start(p) = cell_of(column.as_slice(), voice as usize) {
            let key = semitone(p);
            if key < 128 {
                known[key as usize] = true;
            }
        }
    }
}

/// The keys that a voice may start, from the greatest one on.
pub fn summit_keys(alloc: Global, space: &SpeciesSpace<'_>, voice: u8) -> Result<Vec<u8>, Memory> {
    let mut known = [false; 128];
    for i in 0..space.depth() {
        note_keys(space, voice, i, &mut known);
    }
    let mut keys = Vec::with_capacity(alloc, 128)?;
    for down in 0..128u8 {
        let key = 127 - down;
        if known[key as usize] {
            keys.push(key)?;
        }
    }
    Ok(keys)
}

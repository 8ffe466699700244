//! The ways from column to column of what is kept, for the making of prices. No clause speaks of
//! them.

use fux_grid::{Cell, Column, cell_of};
use fux_pitch::{Memory, semitone};
use melody_rules::place_of;
use priced_floors::Kept;
use priced_paths::Web;
use species_space::SpeciesSpace;
use std::alloc::Global;
use tree_search::Space;

/// How many steps there may be.
const MOST_STEPS: usize = 1_500_000;

/// A step: where its column stands among those that some step takes, the spot that it leads to, and
/// what it costs.
#[derive(Clone, Copy)]
pub struct Step {
    pub choice: u32,
    pub to: u32,
    pub cost: u32,
}

/// The notes that start in a column, as the places of their pitches, counted from 1, and the key of
/// the voice that the cases are of; 0 where none starts.
#[derive(Clone, Copy)]
pub struct Notes {
    pub places: [u8; 4],
    pub key: u8,
}

/// The ways through a web: for each of its spots, from the empty path on, the number of its first
/// step; the steps; and the notes of the columns that they take.
#[derive(Drop)]
pub struct Ways {
    pub first: Vec<u32>,
    pub steps: Vec<Step>,
    pub notes: Vec<Notes>,
    /// How many steps a way to the end has.
    pub depth: usize,
    /// The number of the first spot at the end.
    pub end: usize,
}

/// A number of which there are fewer than 2^32.
#[inline]
fn short(number: usize) -> u32 {
    (number & 0xffff_ffff) as u32
}

/// The notes that start in a column.
fn notes_in(column: &Column, voice: u8, cantus: u8) -> Notes {
    let mut notes = Notes {
        places: [0; 4],
        key: 0,
    };
    for v in 0..4u8 {
        if let Cell::Start(p) = cell_of(column.as_slice(), v as usize) {
            if v != cantus {
                notes.places[v as usize] = place_of(p) as u8 + 1;
            }
            if v == voice {
                notes.key = semitone(p);
            }
        }
    }
    notes
}

/// The number of a column that no step has taken so far.
const UNTAKEN: u32 = u32::MAX;

/// The notes of the columns of all menus, where those of each place begin, and each column's number
/// among those that some step takes. Where the menu of two places is kept once for both, so are its
/// notes.
#[derive(Drop)]
struct Columns {
    notes: Vec<Notes>,
    begins: Vec<u32>,
    numbers: Vec<u32>,
}

impl Columns {
    /// The columns of a space, none of them taken.
    fn new(alloc: Global, space: &SpeciesSpace<'_>, voice: u8) -> Result<Columns, Memory> {
        let cantus = space.exercise().cantus_voice;
        let mut notes = Vec::new(alloc);
        let mut begins = Vec::new(alloc);
        let mut begin = 0;
        for depth in 0..space.depth() {
            if depth == 0 || !space.tables().has_same_menu(depth - 1, depth) {
                begin = short(notes.len());
                for column in space.tables().columns(depth) {
                    notes.push(notes_in(column, voice, cantus))?;
                }
            }
            begins.push(begin)?;
        }
        let numbers = vec![in alloc; UNTAKEN; notes.len()]?;
        Ok(Columns {
            notes,
            begins,
            numbers,
        })
    }

    /// The number of the column of a label at a place, which is taken; its notes are added to these
    /// where it wasn't before.
    fn take(&mut self, taken: &mut Vec<Notes>, depth: usize, label: usize) -> Result<u32, Memory> {
        let Some(begin) = self.begins.get(depth) else {
            return Ok(0);
        };
        let place = (*begin as usize).wrapping_add(label);
        let Some(number) = self.numbers.get_mut(place) else {
            return Ok(0);
        };
        if *number == UNTAKEN {
            if let Some(notes) = self.notes.get(place) {
                *number = short(taken.len());
                taken.push(*notes)?;
            }
        }
        Ok(*number)
    }
}

/// The ways through a web, unless there are too many.
pub fn ways_of(
    alloc: Global,
    space: &SpeciesSpace<'_>,
    web: &Web<Kept>,
    voice: u8,
) -> Result<Option<Ways>, Memory> {
    let mut columns = Columns::new(alloc, space, voice)?;
    let mut ways = Ways {
        first: Vec::with_capacity(alloc, web.spots.len())?,
        steps: Vec::new(alloc),
        notes: Vec::new(alloc),
        depth: space.depth(),
        end: 0,
    };
    for spot in web.spots.iter() {
        ways.first.push(short(ways.steps.len()))?;
        if spot.depth < ways.depth {
            ways.end = ways.first.len();
        }
        for label in spot.low..spot.high {
            let slot = spot.first.wrapping_add(label.wrapping_sub(spot.low));
            if let Some(Some(edge)) = web.edges.get(slot) {
                ways.steps.push(Step {
                    choice: columns.take(&mut ways.notes, spot.depth, label)?,
                    to: edge.to,
                    cost: edge.cost,
                })?;
            }
        }
        if ways.steps.len() > MOST_STEPS {
            return Ok(None);
        }
    }
    Ok(Some(ways))
}

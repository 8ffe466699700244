//! The exercise of a drill.

ghost use Rattle.std.specs.Prelude.{IfOk};
ghost use Rattle.drill_exercise.specs.Drill.{IsDrill};

use crate::cantus::{cantus, natural};
use fux_grid::{Exercise, RangeLine};
use fux_pitch::{AnyList, Memory, Mode};
use std::alloc::Global;

/// The degree of F4, the lowest of the free voice.
const LOW: u8 = 31;

/// The degree of F5, its highest.
const HIGH: u8 = 38;

/// The exercise with a number: dorian, two voices, 24 bars, a cantus firmus that the number chooses
/// in the lower voice, and first species from F4 to F5 in the upper one.
pub fn drill(alloc: Global, n: u32) -> Result<Exercise<'static>, Memory>
    ensures { IfOk result (IsDrill n) }
{
    let cantus = cantus(alloc, n)?;
    let range = RangeLine {
        voice: 1,
        low: natural(LOW),
        high: natural(HIGH),
        bars: None,
    };
    let ranges = Vec::from_array(alloc, [range])?;
    Ok(Exercise {
        mode: Mode::Dorian,
        voices: 2,
        bars: 24,
        species: 1,
        species_voice: 1,
        mixed: None,
        cantus_voice: 0,
        cantus: AnyList::new(cantus),
        ranges: AnyList::new(ranges),
        relax: AnyList::new(Vec::new(alloc)),
        given: AnyList::new(Vec::new(alloc)),
        setting: None,
    })
}

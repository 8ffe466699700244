//! What the floors of prefixes promise.

ghost use Rattle.species_space.specs.Floors.{HasFloors};

use crate::columns::MenuColumns;
use crate::space::SpeciesSpace;

/// No prefix that begins a lawful setting has a floor above that setting's penalty. It does
/// nothing, and tells what is proved of the floors.
pub fn has_floors(space: &SpeciesSpace<'_>)
    ensures { HasFloors space.now.exercise space.now.sheet }
{
    let _ = space.voices();
}

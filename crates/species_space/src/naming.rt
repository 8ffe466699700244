//! Voices whose species are named beside the exercise's.

ghost use Rattle.std.specs.Prelude.{◌≡◌, ◌↔◌, ◌<◌, IfErr, IfNone, IfOk, IfSome, IsTrue, OnOk};
ghost use Rattle.fux_grid.specs.Exercises.{AreSpecies, IsValid};
ghost use Rattle.fux_grid.specs.Namings.{AreNamed};
ghost use Rattle.species_space.specs.Naming.{AreFreelyNamed, IsFirstMisnamed, IsMisnamed, all_species_with, species_with};

use fux_grid::{Exercise, is_free, species_of};

/// The species that are named, for each voice that has one.
pub type Named = [Option<u8>; 4];

/// Whether a voice is named that may not be: it isn't free, or the exercise itself says its
/// species.
fn is_misnamed(ex: &Exercise, named: &Named, v: u8) -> bool
    requires { v < 4 }
    ensures { IsTrue result ↔ IsMisnamed ex.now named.now v }
{
    named[v as usize].is_some() && (!is_free(ex, v) || v == ex.species_voice)
}

/// The lowest voice that is named and may not be.
fn first_misnamed(ex: &Exercise, named: &Named) -> Option<u8>
    requires { AreNamed named.now }
    ensures first { IfSome result (IsFirstMisnamed ex.now named.now) }
    ensures none { IfNone result (AreFreelyNamed ex.now named.now) }
{
    for v in 0..4 {
        if is_misnamed(ex, named, v) {
            return Some(v);
        }
    }
    None
}

/// The species that a voice has where some are named.
fn species_with(ex: &Exercise, named: &Named, v: u8) -> u8
    requires { v < 4 }
    ensures { result ≡ species_with ex.now named.now v }
{
    match named[v as usize] {
        Some(species) => species,
        None => species_of(ex, v),
    }
}

/// The species of each voice, where these are named and the others keep theirs; or the lowest voice
/// that is named and may not be: it isn't free, or the exercise itself says its species. It takes
/// no memory.
pub fn named_species(ex: &Exercise, named: &Named) -> Result<[u8; 4], u8>
    requires valid { IsValid ex.now }
    requires named { AreNamed named.now }
    ensures freely { OnOk result (AreFreelyNamed ex.now named.now) }
    ensures species { IfOk result (λ species. species ≡ all_species_with ex.now named.now) }
    ensures fit { IfOk result (AreSpecies ex.now) }
    ensures misnamed { IfErr result (IsFirstMisnamed ex.now named.now) }
{
    if let Some(v) = first_misnamed(ex, named) {
        return Err(v);
    }
    Ok([
        species_with(ex, named, 0),
        species_with(ex, named, 1),
        species_with(ex, named, 2),
        species_with(ex, named, 3),
    ])
}

//! An exercise whose voices have species of their own.

ghost use Rattle.fux_grid.specs.Exercises.{IsValid};

use fux_grid::{Exercise, is_mixed, species_of, width};
use short_scores::any_exercise_of;
use std::alloc::Global;

/// The cantus below a voice with three pitches, in first species, and one with five, in second
/// species.
const TRIO: &str = "dorian 2 2 0
cantus D4 E4 D4
range 1 A4 B4
range 2 A4 D5";

/// Species of its voices, what each of the upper voices has then, and how wide the first menu is
/// and that of the half bar. The last five are no species of its voices.
pub const MIXED: &str = "\
1 1 2 = species 1 2, width 18 15
1 2 2 = species 2 2, width 24 15
1 3 1 = species 3 1, width 20 15
1 4 3 = species 4 3, width 6 15
1 5 1 = species 5 1, width 20 30
1 5 5 = species 5 5, width 24 60
2 2 2 = refused
0 2 2 = refused
1 0 2 = refused
1 2 0 = refused
1 6 2 = refused";

fn told(alloc: Global, ex: &Exercise) -> Option<String>
    requires { IsValid ex.now }
{
    let (lower, upper) = (species_of(ex, 1), species_of(ex, 2));
    format!(in alloc;
        "species {lower} {upper}, width {} {}",
        width(ex, 0),
        width(ex, 4)
    )
    .ok()
}

pub fn mixed_of(alloc: Global, case: &str) -> Option<String> {
    let text = format!(in alloc; "{TRIO}\nmixed {case}").ok()?;
    let ex = any_exercise_of(alloc, &text, 3)?;
    if !is_mixed(&ex) || !ex.is_valid() {
        return String::from_str(alloc, "refused").ok();
    }
    told(alloc, &ex)
}

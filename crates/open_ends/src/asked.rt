//! The rules that are asked.

ghost use Rattle.std.specs.Prelude.{◌≡◌};
ghost use Rattle.open_ends.specs.Asked as words;

use fux_grid::Exercise;

/// Whether some relax line of the exercise is of the rule, for whatever voices and bars.
fn is_relaxed(ex: &Exercise, rule: u8) -> bool
    ensures { result ≡ words.is_relaxed ex.now rule }
{
    ex.relax.as_slice().iter().any(|line| line.rule == rule)
}

/// Whether a break of the rule is strict everywhere in the exercise.
pub fn is_asked(ex: &Exercise, rule: u8) -> bool
    ensures { result ≡ words.is_asked ex.now rule }
{
    !is_relaxed(ex, rule)
}

//! The leading note of a mode.

ghost use Rattle.std.specs.Prelude.{◌≡◌};
ghost use Rattle.rule_law.specs.Leading as words;

use fux_pitch::{Mode, Pitch, leading};

/// Whether the pitch is the mode's leading note, in any octave.
pub fn is_leading(mode: Mode, p: Pitch) -> bool
    ensures { result ≡ words.is_leading mode p }
{
    let (letter, alter) = leading(mode);
    p.degree() % 7 == letter && p.alter() == alter
}

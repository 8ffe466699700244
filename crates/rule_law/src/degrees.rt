//! How far two pitches lie apart on the staff.

ghost use Rattle.std.specs.Prelude.{◌≡◌};
ghost use Rattle.rule_law.specs.Degrees as words;

use fux_pitch::Pitch;

/// Whether `p` lies exactly so many degrees above `q`.
pub fn lies_above(degrees: u8, p: Option<Pitch>, q: Option<Pitch>) -> bool
    ensures { result ≡ words.lies_above degrees p q }
{
    match (p, q) {
        (Some(p), Some(q)) => u16::from(p.degree()) == u16::from(q.degree()) + u16::from(degrees),
        _ => false,
    }
}

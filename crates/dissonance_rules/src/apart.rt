//! All rules of dissonance at once: two voices mostly break none of them.

ghost use Rattle.std.specs.Prelude.{◌≡◌, not};
ghost use Rattle.dissonance_rules.specs.Apart as apart;

use fux_grid::{Cell, Exercise};
use rule_law::{is_clash, sound_same_key, voice_pairs};

/// Whether two voices, the lower first, sound the same key or clash, and the second is there.
#[inline]
fn come_close(ex: &Exercise, now: &[Cell], v: u8, w: u8) -> bool
    ensures { result ≡ apart.come_close ex.now now.now v w }
{
    if w >= ex.voices {
        return false;
    }
    sound_same_key(now, v as usize, w as usize) || is_clash(now, v as usize, w as usize)
}

/// Whether some two voices of a column do.
#[inline]
fn some_come_close(ex: &Exercise, now: &[Cell]) -> bool
    ensures { result ≡ apart.some_come_close ex.now now.now }
{
    voice_pairs()
        .iter()
        .any(|pair| come_close(ex, now, pair.0, pair.1))
}

/// Whether no two voices of a column sound the same key or clash. Then it breaks neither S11 nor
/// S14.
pub fn are_apart(ex: &Exercise, now: &[Cell]) -> bool
    ensures { result ≡ not (apart.some_come_close ex.now now.now) }
{
    !some_come_close(ex, now)
}

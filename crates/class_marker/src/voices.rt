//! Sets of voices.

ghost use Rattle.std.specs.Prelude.{◌≡◌, ◌<◌};
ghost use Rattle.score_marker.specs.Marks.{has_voice};

use fux_grid::VoiceSet;

/// Whether a voice is in a set.
pub fn has_voice(set: VoiceSet, v: u8) -> bool
    requires { v < 8 }
    ensures { result ≡ has_voice set.bits v }
{
    let bits = set.bits;
    (bits >> v) & 1 == 1
}

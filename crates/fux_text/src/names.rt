//! The modes and the pitches that words name.

ghost use Rattle.std.specs.Prelude.{◌≡◌};
ghost use Rattle.fux_text.specs.Names.{mode_named, pitch_named};

use fux_pitch::{Mode, Pitch};
use text_lines::is_same;

/// The mode of a name.
#[tactic(auto, unfolding(crate::specs::Names::mode_named))]
pub fn parse_mode(word: &[u8]) -> Option<Mode>
    ensures { result ≡ mode_named word.now }
{
    if is_same(b"dorian", word) {
        Some(Mode::Dorian)
    } else if is_same(b"phrygian", word) {
        Some(Mode::Phrygian)
    } else if is_same(b"lydian", word) {
        Some(Mode::Lydian)
    } else if is_same(b"mixolydian", word) {
        Some(Mode::Mixolydian)
    } else if is_same(b"aeolian", word) {
        Some(Mode::Aeolian)
    } else if is_same(b"ionian", word) {
        Some(Mode::Ionian)
    } else {
        None
    }
}

/// The pitch of a name.
pub fn parse_pitch(word: &[u8]) -> Option<Pitch>
    ensures { result ≡ pitch_named word.now }
{
    fux_pitch::parse_pitch(word)
}

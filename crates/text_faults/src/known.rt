//! What is known of an exercise where a line is judged by itself.

ghost use Rattle.std.specs.Prelude.{◌≡◌};
ghost use Rattle.text_faults.specs.Known.{IsPossible, nothing_known, voice_but};

use text_lines::parse_within;

/// What the right lines above a line tell.
#[derive(Clone, Copy)]
pub struct Known {
    /// How many voices: as many as there may be where no line tells it.
    pub voices: u8,
    /// How many bars.
    pub bars: Option<u8>,
    /// The voice that has the species.
    pub species_voice: Option<u8>,
    /// The voice that has the cantus firmus.
    pub cantus_voice: Option<u8>,
}

/// What is known above the first line.
pub fn nothing_known() -> Known
    ensures value { result ≡ nothing_known }
    ensures possible { IsPossible result }
{
    Known {
        voices: 4,
        bars: None,
        species_voice: None,
        cantus_voice: None,
    }
}

/// The voice of a word: one of so many, and not this one.
pub fn voice_but(word: &[u8], but: Option<u8>, voices: u8) -> Option<u8>
    ensures { result ≡ voice_but but voices word.now }
{
    let voice = parse_within(word, 0, voices.saturating_sub(1).into())? as u8;
    match but {
        None => Some(voice),
        Some(other) => {
            if voice == other {
                return None;
            }
            Some(voice)
        }
    }
}

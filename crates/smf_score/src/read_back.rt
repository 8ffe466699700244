//! What is written is read back.

ghost use Rattle.std.specs.Prelude.{◌≡◌, Some};
ghost use Rattle.fux_pitch.specs.declared.pitch.Pitch.{Pitch};
ghost use Rattle.fux_pitch.specs.Spelling.{spelled};
ghost use Rattle.smf_score.specs.ReadBack.{ReadsBack, respelled};
ghost use Rattle.smf_score.specs.Written.{midi_key};

/// A law, and nothing to run: the file of a complete score with the cantus and a note in each voice
/// has one reading, its exercise with this score as the setting, and each pitch is spelled as its
/// key is.
pub fn scores_read_back()
    ensures score { ReadsBack }
    ensures spelling { (p : Pitch) → spelled (midi_key p) ≡ Some (respelled p) }
{}

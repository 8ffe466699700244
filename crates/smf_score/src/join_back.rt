//! What is written is joined to the lesson again.

ghost use Rattle.smf_score.specs.JoinBack.{JoinsBack};

/// A law, and nothing to run: the file of a complete score with the lesson's cantus and a note in
/// each voice, whose free voices have each pitch as its key is spelled, is this setting of the
/// lesson, and no other.
pub fn settings_join_back()
    ensures { JoinsBack }
{}

//! The law of differences.

ghost use Rattle.class_marker.specs.Answering.{NoneDiffer};

/// A law, and nothing to run: nothing differs just where an answer answers its lesson.
pub fn none_differ()
    ensures { NoneDiffer }
{}

//! Laws of marks and charges.

ghost use Rattle.score_marker.specs.Cantus.{CantusMarksAreOne};
ghost use Rattle.score_marker.specs.Charges.{ChargesArePenalty, ChargesHaveMarks};
ghost use Rattle.score_marker.specs.Marks.{MarksAreOne};

/// A law, and nothing to run: no two lists are the marks of one setting, or of one cantus.
pub fn marks_are_one()
    ensures setting { MarksAreOne }
    ensures cantus { CantusMarksAreOne }
{}

/// A law, and nothing to run: what the charges of a setting cost comes to its penalty, and their
/// broken rules are its marks.
pub fn charges_are_whole()
    ensures penalty { ChargesArePenalty }
    ensures marks { ChargesHaveMarks }
{}

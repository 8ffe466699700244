//! Laws of pictures: nothing in them touches what it isn't to touch.

ghost use Rattle.sheet_layout.specs.Pages.{BarsFitThePage, NotesStandInTheirRoom};
ghost use Rattle.sheet_layout.specs.Spacing.{SlotsStandApart};

/// Laws, and nothing to run: no sign or note touches a note before it; no bar goes beyond the page;
/// each note of a voice, however high or low, stands within the room of its staff.
pub fn nothing_touches()
    ensures slots { SlotsStandApart }
    ensures bars { BarsFitThePage }
    ensures notes { NotesStandInTheirRoom }
{}

//! What who reads a sheet reads of it, and what who looks at its picture can tell: laws about the
//! definitions of written notes, and about where they stand.

ghost use Rattle.score_picture.specs.Boxes.{NotesStandApart, PartsStandApart};
ghost use Rattle.score_picture.specs.Hearing.{SignsAreHeard};
ghost use Rattle.score_picture.specs.Reading.{MarksAreAtNotes, NotesFillBars, NotesSayCells, TiesJoinNotes};
ghost use Rattle.score_picture.specs.Told.{PlacesTellNotes};
ghost use Rattle.written_notes.specs.Values.{ValuesAddUp};

/// Laws, and nothing to run: the written notes of a bar fill it and say its cells; ties join what
/// is held; who reads signs by custom, each to the end of its bar, hears each note as it is
/// altered; the note values that so many slots are written with add up to them; and each mark is at
/// one note of a voice.
pub fn sheets_read_right()
    ensures filled { NotesFillBars }
    ensures cells { NotesSayCells }
    ensures ties { TiesJoinNotes }
    ensures signs { SignsAreHeard }
    ensures values { ValuesAddUp }
    ensures marks { MarksAreAtNotes }
{}

/// A law, and nothing to run: heads that stand at one place of the page are of one bar, one voice,
/// one slot and one degree.
pub fn places_tell_notes()
    ensures { PlacesTellNotes }
{}

/// Laws, and nothing to run: what is drawn of a note or rest ends before what is drawn of a later
/// one of its voice in the bar begins, but for beams and ties; a note's sign ends before all else
/// of it begins, and its dots begin behind its head, its ledger lines and its stem.
pub fn notes_stand_apart()
    ensures notes { NotesStandApart }
    ensures parts { PartsStandApart }
{}

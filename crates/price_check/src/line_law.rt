//! Laws of the text of lists.

ghost use Rattle.price_check.specs.LineLaws.{LinesAreRead, ReadLinesFit};
ghost use Rattle.price_check.specs.Lists.{ListsAreRead, ReadListsFit};

/// A law, and nothing to run: of each line that may stand there what is written is read as the line
/// and nothing more; and what is read is the text of such a line. So a line has one text, and a text
/// is one line.
pub fn lines_are_read()
    ensures written { LinesAreRead }
    ensures read { ReadLinesFit }
{}

/// A law, and nothing to run: whole lists are read as they are written, and what is read are lists
/// whose text stands at the front of the bytes. So lists have one text, and a text is those lists.
pub fn lists_are_read()
    ensures written { ListsAreRead }
    ensures read { ReadListsFit }
{}

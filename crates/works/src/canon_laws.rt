//! Canons and a new cantus by the book: laws about their rules and costs and those of settings.

ghost use Rattle.works.specs.BookCosts.{CanonCostsAreTheBooks, CanonPenaltyIsTheBooks};
ghost use Rattle.works.specs.BookRules.{CanonRulesAreTheBook};
ghost use Rattle.works.specs.CantusCosts.{CantusFloorIsTheBooks, CantusPenaltyIsTheBooks, NoteCostsAreTheBooks};

/// A law, and nothing to run: a bar of a canon breaks one of its rules exactly where one of the
/// book's is broken, for some voices, at one of the bar's eight columns, where both voices are read
/// as free voices of first species.
pub fn canons_keep_the_book()
    ensures { CanonRulesAreTheBook }
{}

/// A law, and nothing to run: read so, a bar of a canon costs exactly what the book's tolls cost at
/// its eight columns, and a canon what they cost in all its bars.
pub fn canons_pay_by_the_book()
    ensures bar { CanonCostsAreTheBooks }
    ensures whole { CanonPenaltyIsTheBooks }
{}

/// A law, and nothing to run: a new cantus, read as a free voice of first species alone, costs
/// exactly what the book's tolls of one voice cost at the columns of its bars and the gauges say of
/// its line, and beyond that what it pays of C1 to C6; and the floor of what begins one is what
/// these tolls cost so far, what is known of the gauges, and what it pays of C1 to C6 at least.
pub fn cantus_pays_by_the_book()
    ensures note { NoteCostsAreTheBooks }
    ensures whole { CantusPenaltyIsTheBooks }
    ensures floor { CantusFloorIsTheBooks }
{}

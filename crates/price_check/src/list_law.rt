//! Laws of lists that lines state.

ghost use Rattle.price_check.specs.Laws.{ListsFit, ListsHaveKeys, StatedFloorsAreOne};

/// A law, and nothing to run: lists whose prices are due fit their purpose, which keys whole lists
/// may have, and the floors of a prefix by lists are those of their lines.
pub fn lists_are_fit()
    ensures keys { ListsHaveKeys }
    ensures fit { ListsFit }
    ensures one { StatedFloorsAreOne }
{}

//! What is said of a sheet without prices.

ghost use Rattle.cantus_space.specs.PricedSheets.{SaysAsBefore};

/// A sheet whose document hasn't the key `cantus` says exactly what it says as a sheet of weights,
/// and each price of it is 0. It does nothing, and tells what is proved.
pub fn without_prices()
    ensures { SaysAsBefore }
{}

//! A list, with the settings that it prices.

ghost use Rattle.std.specs.Prelude.{◌≡◌};

use open_ends::Keeps;
use priced_floors::PricedSpace;

/// A list, with the settings that it prices.
#[derive(Drop)]
pub struct PricedList<'a> {
    pub space: PricedSpace<'a>,
    pub keeps: Keeps,
    pub plain: bool,
    ghost kept: { space.keeps ≡ keeps },
}

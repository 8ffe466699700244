//! The prices of a cantus alone.

ghost use Rattle.std.specs.Prelude.{◌≡◌, ◌≤◌};
ghost use Rattle.cantus_space.specs.Prices as words;
ghost use Rattle.cantus_space.specs.Prices.{greatest_price, price_of};

use penalty_sheet::Sheet;

/// The greatest number of a price: the prices are those of C1 to C6.
pub const GREATEST_PRICE: u8 = 6;

/// The prices of C1 to C6, in this order, from 0 to 10,000 each.
#[derive(Clone, Copy, Debug, PartialEq, Eq)]
pub struct CantusPrices {
    pub weights: [u16; GREATEST_PRICE as usize],
}

/// The weights of a sheet, and its prices.
#[derive(Clone, Copy, Debug, PartialEq, Eq)]
pub struct PricedSheet {
    pub sheet: Sheet,
    pub prices: CantusPrices,
}

/// The prices where none is given: nothing is paid.
pub fn no_prices() -> CantusPrices
    ensures { result ≡ words.no_prices }
{
    CantusPrices {
        weights: [0, 0, 0, 0, 0, 0],
    }
}

/// The price of a row.
#[inline]
pub fn price(prices: &CantusPrices, row: u8) -> u16
    requires first { 1 ≤ row }
    requires last { row ≤ greatest_price }
    ensures { result ≡ price_of prices.now row }
{
    prices.weights[row as usize - 1]
}

//! Types that threads may share and pass on.

use crate::prices::{CantusPrices, PricedSheet};

/// Compiles only for types that threads may share and pass on.
fn is_shared<T: Send + Sync>(_: &T) {}

fn are_shared(prices: &CantusPrices, priced: &PricedSheet) {
    is_shared(prices);
    is_shared(priced);
}

//! Types that threads may share and pass on.

use crate::fault::SheetFault;
use crate::price::Price;
use crate::sheet::Sheet;

/// Compiles only for types that threads may share and pass on.
fn is_shared<T: Send + Sync>(_: &T) {}

fn are_shared(sheet: &Sheet, price: &Price, fault: &SheetFault) {
    is_shared(sheet);
    is_shared(price);
    is_shared(fault);
}

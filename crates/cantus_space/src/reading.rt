//! Reading a sheet with prices.

ghost use Rattle.std.specs.Prelude.{◌≡◌, ◌≢◌, true, IfErr, IfOk, None, Some, Err, Ok, codes, option_map};
ghost use Rattle.toml.specs.Data.{get_member};
ghost use Rattle.toml.specs.View.{table_view, view};
ghost use Rattle.penalty_sheet.specs.Sheets.{weights_ascend};
ghost use Rattle.cantus_space.specs.PricedSheets.{AreInPricedOrder, HasPricedFault, IsInPricedOrder, IsPricedSheetOf, priced_said, prices_said};

use crate::entries::{check_keys, check_prices, prices_in};
use crate::prices::{CantusPrices, PricedSheet, no_prices};
use penalty_sheet::{SheetFault, document, label, tables_sheet};
use std::alloc::Global;
use toml::{Table, Value};

/// The most bytes that a sheet may have.
const MOST_BYTES: usize = 65_536;

/// The value at a key.
fn value_at<'a>(table: &'a Table, key: &str) -> Option<&'a Value>
    ensures { option_map (λ value. view value.now) result ≡ get_member key.now
        (table_view table.now) }
{
    table.get(key)
}

/// The prices that the value of `cantus` is.
fn value_prices(alloc: Global, value: &Value) -> Result<CantusPrices, SheetFault>
    ensures ok { IfOk result (λ prices. prices_said (Some (view value.now)) ≡ Ok prices) }
    ensures fault { IfErr result (λ fault. fault ≢ SheetFault.Memory →
        prices_said (Some (view value.now)) ≡ Err fault) }
    ensures ordered { result ≢ Err SheetFault.Memory → weights_ascend (Some (view value.now))
        ≡ true }
{
    let table = match value.as_table() {
        Some(table) => table,
        None => {
            let key = label(alloc, "cantus")?;
            return Err(SheetFault::NotWhole { key });
        }
    };
    check_prices(alloc, table)?;
    Ok(prices_in(table))
}

/// The prices that a document has.
fn document_prices(alloc: Global, document: &Table) -> Result<CantusPrices, SheetFault>
    ensures ok { IfOk result (λ prices. prices_said (get_member (codes "cantus")
        (table_view document.now)) ≡ Ok prices) }
    ensures fault { IfErr result (λ fault. fault ≢ SheetFault.Memory →
        prices_said (get_member (codes "cantus") (table_view document.now)) ≡ Err fault) }
    ensures ordered { result ≢ Err SheetFault.Memory →
        weights_ascend (get_member (codes "cantus") (table_view document.now)) ≡ true }
{
    match value_at(document, "cantus") {
        None => Ok(no_prices()),
        Some(value) => value_prices(alloc, value),
    }
}

/// The sheet with prices that a document is.
fn priced_document(alloc: Global, document: &Table) -> Result<PricedSheet, SheetFault>
    ensures ok { IfOk result (λ priced. priced_said (table_view document.now) ≡ Ok priced) }
    ensures fault { IfErr result (λ fault. fault ≢ SheetFault.Memory →
        priced_said (table_view document.now) ≡ Err fault) }
    ensures ordered { result ≢ Err SheetFault.Memory → IsInPricedOrder (table_view document.now) }
{
    check_keys(alloc, document)?;
    let prices = document_prices(alloc, document)?;
    let sheet = tables_sheet(alloc, document)?;
    Ok(PricedSheet { sheet, prices })
}

/// Reads a sheet that may have prices: a TOML document of at most 65,536 bytes whose keys are among
/// `cantus`, `more` and `weights`. The values of `more` and `weights` are what `penalty_sheet`
/// reads; that of `cantus` is a table with whole numbers from 0 to 10,000 for some of `C1` to `C6`.
/// A price that is left out is 0.
pub fn read_prices(alloc: Global, bytes: &[u8]) -> Result<PricedSheet, SheetFault>
    ensures ok { IfOk result (IsPricedSheetOf bytes.now) }
    ensures fault { IfErr result (λ fault. fault ≢ SheetFault.Memory → HasPricedFault bytes.now
        fault) }
    // A sheet is refused for want of memory only.
    ensures only { (priced : PricedSheet) → IsPricedSheetOf bytes.now priced →
        IfErr result (λ fault. fault ≡ SheetFault.Memory) }
    // The first entry at fault is the first in the order of the keys' bytes.
    ensures by_bytes { result ≢ Err SheetFault.Memory → AreInPricedOrder bytes.now }
{
    if bytes.len() > MOST_BYTES {
        return Err(SheetFault::TooLong);
    }
    let document = document(alloc, bytes)?;
    priced_document(alloc, &document)
}

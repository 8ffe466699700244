//! The entries of the table of prices: what may be wrong with them, and what they say.

ghost use Rattle.std.specs.Prelude.{◌≡◌, true, ◌≢◌, ◌≤◌, ◌≤ℤ◌, pos, None, Some, IfErr, OnOk};
ghost use Rattle.toml.specs.View.{view, table_view};
ghost use Rattle.penalty_sheet.specs.Sheets.{first_fault, keys_ascend};
ghost use Rattle.cantus_space.specs.Prices.{greatest_price};
ghost use Rattle.cantus_space.specs.PricedSheets.{is_price_key, key_fault, price_fault, price_in, price_key, prices_in};

use crate::prices::{CantusPrices, GREATEST_PRICE};
use penalty_sheet::{SheetFault, label, number_at};
use std::alloc::Global;
use toml::{Table, Value};

/// The key of a price: `C1` to `C6`.
fn price_key(row: u8) -> &'static str
    requires first { 1 ≤ row }
    requires last { row ≤ greatest_price }
    ensures { result.now ≡ price_key row }
{
    match row {
        1 => "C1",
        2 => "C2",
        3 => "C3",
        4 => "C4",
        5 => "C5",
        _ => "C6",
    }
}

/// Whether a key is that of a price.
fn is_price_key(key: &str) -> bool
    ensures { result ≡ is_price_key key.now }
{
    for row in 1..GREATEST_PRICE + 1 {
        if price_key(row) == key {
            return true;
        }
    }
    false
}

/// Refuses an entry of the table of prices that is at fault.
fn check_price(alloc: Global, key: &str, value: &Value) -> Result<(), SheetFault>
    ensures ok { OnOk result (price_fault key.now (view value.now) ≡ None) }
    ensures fault { IfErr result (λ fault. fault ≢ SheetFault.Memory →
        price_fault key.now (view value.now) ≡ Some fault) }
{
    if !is_price_key(key) {
        let key = label(alloc, key)?;
        return Err(SheetFault::UnknownKey { key });
    }
    match value.as_integer() {
        None => {
            let key = label(alloc, key)?;
            Err(SheetFault::NotWhole { key })
        }
        Some(weight) if weight < 0 || weight > 10_000 => {
            let key = label(alloc, key)?;
            Err(SheetFault::Weight { key, value: weight })
        }
        Some(_) => Ok(()),
    }
}

/// Refuses a table of prices for its first entry that is at fault.
pub fn check_prices(alloc: Global, table: &Table) -> Result<(), SheetFault>
    ensures ok { OnOk result (first_fault price_fault (table_view table.now) ≡ None) }
    ensures ordered { keys_ascend (table_view table.now) ≡ true }
    ensures fault { IfErr result (λ fault. fault ≢ SheetFault.Memory →
        first_fault price_fault (table_view table.now) ≡ Some fault) }
{
    for (key, value) in table.iter() {
        check_price(alloc, key.as_str(), value)?;
    }
    Ok(())
}

/// Refuses a document for its first key that is none of `cantus`, `more` and `weights`.
pub fn check_keys(alloc: Global, document: &Table) -> Result<(), SheetFault>
    ensures ok { OnOk result (first_fault key_fault (table_view document.now) ≡ None) }
    ensures ordered { keys_ascend (table_view document.now) ≡ true }
    ensures fault { IfErr result (λ fault. fault ≢ SheetFault.Memory →
        first_fault key_fault (table_view document.now) ≡ Some fault) }
{
    for (key, _value) in document.iter() {
        if key.as_str() != "cantus" && key.as_str() != "more" && key.as_str() != "weights" {
            let key = label(alloc, key.as_str())?;
            return Err(SheetFault::UnknownKey { key });
        }
    }
    Ok(())
}

/// A price as a sheet keeps it.
fn kept(weight: i64) -> u16
    requires low { pos 0 ≤ℤ weight }
    requires high { weight ≤ℤ pos 10000 }
    ensures { pos result ≡ weight }
{
    weight as u16
}

/// The price of a row in a table of prices: 0 where the table has none for it.
fn price_in(table: &Table, row: u8) -> u16
    requires first { 1 ≤ row }
    requires last { row ≤ greatest_price }
    requires right { first_fault price_fault (table_view table.now) ≡ None }
    ensures { result ≡ price_in (table_view table.now) row }
{
    match number_at(table, price_key(row)) {
        Some(weight) => kept(weight),
        None => 0,
    }
}

/// The prices of a table of prices.
pub fn prices_in(table: &Table) -> CantusPrices
    requires right { first_fault price_fault (table_view table.now) ≡ None }
    ensures { result ≡ prices_in (table_view table.now) }
{
    let mut weights = [0; GREATEST_PRICE as usize];
    for i in 0..GREATEST_PRICE as usize {
        weights[i] = price_in(table, i as u8 + 1);
    }
    CantusPrices { weights }
}

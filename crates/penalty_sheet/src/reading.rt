//! Reading a sheet of weights.

ghost use Rattle.std.specs.Prelude.{◌≡◌, ◌≢◌, true, IfErr, IfOk, None, Some, Err, Ok, codes, option_map};
ghost use Rattle.toml.specs.Data.{get_member};
ghost use Rattle.toml.specs.View.{table_view, view};
ghost use Rattle.penalty_sheet.specs.Sheets.{AreInOrder, AreTablesInOrder, document_of, document_said, HasSheetFault, IsInOrder, IsSheetOf, more_said, tables_said, weights_ascend, weights_said};

use crate::entries::{check_keys, check_more, check_weights, label, more_in, sheet_in};
use crate::fault::SheetFault;
use crate::sheet::{Sheet, sheet_with};
use std::alloc::Global;
use toml::{Table, Value};

/// The most bytes that a sheet may have.
const MOST_BYTES: usize = 65_536;

/// The sheet that the value of `weights` is, with the weight of Q21.
fn weights_sheet(alloc: Global, value: &Value, more: u16) -> Result<Sheet, SheetFault>
    ensures ok { IfOk result (λ sheet. weights_said more (Some (view value.now)) ≡ Ok sheet) }
    ensures fault { IfErr result (λ fault. fault ≢ SheetFault.Memory →
        weights_said more (Some (view value.now)) ≡ Err fault) }
    ensures ordered { result ≢ Err SheetFault.Memory → weights_ascend (Some (view value.now))
        ≡ true }
{
    let table = match value.as_table() {
        Some(table) => table,
        None => {
            let key = label(alloc, "weights")?;
            return Err(SheetFault::NotWhole { key });
        }
    };
    check_weights(alloc, table)?;
    Ok(sheet_in(table, more))
}

/// The weight of Q21 that the value of `more` is.
fn more_weight(alloc: Global, value: &Value) -> Result<u16, SheetFault>
    ensures ok { IfOk result (λ more. more_said (Some (view value.now)) ≡ Ok more) }
    ensures fault { IfErr result (λ fault. fault ≢ SheetFault.Memory →
        more_said (Some (view value.now)) ≡ Err fault) }
    ensures ordered { result ≢ Err SheetFault.Memory → weights_ascend (Some (view value.now))
        ≡ true }
{
    let table = match value.as_table() {
        Some(table) => table,
        None => {
            let key = label(alloc, "more")?;
            return Err(SheetFault::NotWhole { key });
        }
    };
    check_more(alloc, table)?;
    Ok(more_in(table))
}

/// The value at a key.
fn value_at<'a>(table: &'a Table, key: &str) -> Option<&'a Value>
    ensures { option_map (λ value. view value.now) result ≡ get_member key.now
        (table_view table.now) }
{
    table.get(key)
}

/// The weight of Q21 that a document has.
fn document_more(alloc: Global, document: &Table) -> Result<u16, SheetFault>
    ensures ok { IfOk result (λ more. more_said (get_member (codes "more")
        (table_view document.now)) ≡ Ok more) }
    ensures fault { IfErr result (λ fault. fault ≢ SheetFault.Memory →
        more_said (get_member (codes "more") (table_view document.now)) ≡ Err fault) }
    ensures ordered { result ≢ Err SheetFault.Memory →
        weights_ascend (get_member (codes "more") (table_view document.now)) ≡ true }
{
    match value_at(document, "more") {
        None => Ok(0),
        Some(value) => more_weight(alloc, value),
    }
}

/// The weights that a document has, with the weight of Q21.
fn document_weights(alloc: Global, document: &Table, more: u16) -> Result<Sheet, SheetFault>
    ensures ok { IfOk result (λ sheet. weights_said more (get_member (codes "weights")
        (table_view document.now)) ≡ Ok sheet) }
    ensures fault { IfErr result (λ fault. fault ≢ SheetFault.Memory →
        weights_said more (get_member (codes "weights") (table_view document.now)) ≡ Err fault) }
    ensures ordered { result ≢ Err SheetFault.Memory →
        weights_ascend (get_member (codes "weights") (table_view document.now)) ≡ true }
{
    match value_at(document, "weights") {
        None => Ok(sheet_with(more)),
        Some(value) => weights_sheet(alloc, value, more),
    }
}

/// The sheet that the tables of a document are.
pub fn tables_sheet(alloc: Global, document: &Table) -> Result<Sheet, SheetFault>
    ensures ok { IfOk result (λ sheet. tables_said (table_view document.now) ≡ Ok sheet) }
    ensures fault { IfErr result (λ fault. fault ≢ SheetFault.Memory →
        tables_said (table_view document.now) ≡ Err fault) }
    ensures ordered { result ≢ Err SheetFault.Memory → AreTablesInOrder
        (table_view document.now) }
{
    let more = document_more(alloc, document)?;
    document_weights(alloc, document, more)
}

/// The sheet that a document is.
fn document_sheet(alloc: Global, document: &Table) -> Result<Sheet, SheetFault>
    ensures ok { IfOk result (λ sheet. document_said (table_view document.now) ≡ Ok sheet) }
    ensures fault { IfErr result (λ fault. fault ≢ SheetFault.Memory →
        document_said (table_view document.now) ≡ Err fault) }
    ensures ordered { result ≢ Err SheetFault.Memory → IsInOrder (table_view document.now) }
{
    check_keys(alloc, document)?;
    tables_sheet(alloc, document)
}

/// The document that bytes are.
pub fn document(alloc: Global, bytes: &[u8]) -> Result<Table, SheetFault>
    ensures ok { IfOk result (λ table. document_of bytes.now ≡ Some (table_view table)) }
    ensures fault { IfErr result (λ fault. fault ≢ SheetFault.Memory →
        (fault ≡ SheetFault.NotToml) × (document_of bytes.now ≡ None)) }
{
    let text = match str::from_utf8(bytes) {
        Ok(text) => text,
        Err(_) => return Err(SheetFault::NotToml),
    };
    match toml::table_from_str(alloc, text) {
        Ok(table) => Ok(table),
        Err(error) if error.is_memory() => Err(SheetFault::Memory),
        Err(_) => Err(SheetFault::NotToml),
    }
}

/// Reads a sheet: a TOML document of at most 65,536 bytes whose keys are among `weights`, a table
/// with whole numbers from 0 to 10,000 for some of `Q1` to `Q20`, and `more`, a table with such a
/// number for `Q21`. A toll that is left out has the weight that it has in the default sheet.
pub fn read_sheet(alloc: Global, bytes: &[u8]) -> Result<Sheet, SheetFault>
    ensures ok { IfOk result (IsSheetOf bytes.now) }
    ensures fault { IfErr result (λ fault. fault ≢ SheetFault.Memory → HasSheetFault bytes.now
        fault) }
    // A sheet is refused for want of memory only.
    ensures only { (sheet : Sheet) → IsSheetOf bytes.now sheet →
        IfErr result (λ fault. fault ≡ SheetFault.Memory) }
    // The first entry at fault is the first in the order of the keys' bytes.
    ensures by_bytes { result ≢ Err SheetFault.Memory → AreInOrder bytes.now }
{
    if bytes.len() > MOST_BYTES {
        return Err(SheetFault::TooLong);
    }
    let document = document(alloc, bytes)?;
    document_sheet(alloc, &document)
}

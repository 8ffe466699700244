//! The entries of a sheet: what may be wrong with them, and what they say.

ghost use Rattle.std.specs.Prelude.{◌≡◌, true, ◌≢◌, ◌≤◌, ◌≤ℤ◌, pos, None, Some, IfErr, IfOk, OnOk};
ghost use Rattle.std.specs.Option.{option_and_then};
ghost use Rattle.toml.specs.Data.{as_integer, get_member};
ghost use Rattle.toml.specs.View.{view, table_view};
ghost use Rattle.penalty_sheet.specs.Sheets.{entry_fault, first_fault, is_toll_key, keys_ascend, more_fault, more_in, number_fault, sheet_in, toll_key, top_fault, weight_in};

use crate::fault::SheetFault;
use crate::sheet::{GREATEST_TOLL, Sheet, default_sheet};
use fux_pitch::Label;
use std::alloc::Global;
use toml::{Table, Value};

/// The greatest number of a toll that the table of weights may have.
const LAST_WEIGHT: u8 = 20;

/// The key of a toll: `Q1` to `Q20`.
fn toll_key(toll: u8) -> &'static str
    requires first { 1 ≤ toll }
    requires last { toll ≤ 20 }
    ensures { result.now ≡ toll_key toll }
{
    match toll {
        1 => "Q1",
        2 => "Q2",
        3 => "Q3",
        4 => "Q4",
        5 => "Q5",
        6 => "Q6",
        7 => "Q7",
        8 => "Q8",
        9 => "Q9",
        10 => "Q10",
        11 => "Q11",
        12 => "Q12",
        13 => "Q13",
        14 => "Q14",
        15 => "Q15",
        16 => "Q16",
        17 => "Q17",
        18 => "Q18",
        19 => "Q19",
        _ => "Q20",
    }
}

/// Whether a key is one of these.
fn is_toll_key(key: &str) -> bool
    ensures { result ≡ is_toll_key key.now }
{
    for toll in 1..LAST_WEIGHT + 1 {
        if toll_key(toll) == key {
            return true;
        }
    }
    false
}

/// A copy of a key, for a fault that names it.
pub fn label(alloc: Global, key: &str) -> Result<Label, SheetFault>
    ensures ok { IfOk result (λ label. label ≡ key.now) }
    ensures memory { IfErr result (λ fault. fault ≡ SheetFault.Memory) }
{
    Ok(Label::new(String::from_str(alloc, key)?))
}

/// Refuses a value that is no weight.
fn check_number(alloc: Global, key: &str, value: &Value) -> Result<(), SheetFault>
    ensures ok { OnOk result (number_fault key.now (as_integer (view value.now)) ≡ None) }
    ensures fault { IfErr result (λ fault. fault ≢ SheetFault.Memory →
        number_fault key.now (as_integer (view value.now)) ≡ Some fault) }
{
    match value.as_integer() {
        None => {
            let key = label(alloc, key)?;
            Err(SheetFault::NotWhole { key })
        }
        Some(weight) if weight < 0 || weight > 10_000 => {
            let key = label(alloc, key)?;
            Err(SheetFault::Weight { key, value: weight })
        }
        Some(_) => Ok(()),
    }
}

/// Refuses an entry of the table of weights that is at fault.
fn check_weight(alloc: Global, key: &str, value: &Value) -> Result<(), SheetFault>
    ensures ok { OnOk result (entry_fault key.now (view value.now) ≡ None) }
    ensures fault { IfErr result (λ fault. fault ≢ SheetFault.Memory →
        entry_fault key.now (view value.now) ≡ Some fault) }
{
    if !is_toll_key(key) {
        let key = label(alloc, key)?;
        return Err(SheetFault::UnknownKey { key });
    }
    check_number(alloc, key, value)
}

/// Refuses a table of weights for its first entry that is at fault.
pub fn check_weights(alloc: Global, table: &Table) -> Result<(), SheetFault>
    ensures ok { OnOk result (first_fault entry_fault (table_view table.now) ≡ None) }
    ensures ordered { keys_ascend (table_view table.now) ≡ true }
    ensures fault { IfErr result (λ fault. fault ≢ SheetFault.Memory →
        first_fault entry_fault (table_view table.now) ≡ Some fault) }
{
    for (key, value) in table.iter() {
        check_weight(alloc, key.as_str(), value)?;
    }
    Ok(())
}

/// Refuses an entry of the table of further weights that is at fault.
fn check_further(alloc: Global, key: &str, value: &Value) -> Result<(), SheetFault>
    ensures ok { OnOk result (more_fault key.now (view value.now) ≡ None) }
    ensures fault { IfErr result (λ fault. fault ≢ SheetFault.Memory →
        more_fault key.now (view value.now) ≡ Some fault) }
{
    if key != "Q21" {
        let key = label(alloc, key)?;
        return Err(SheetFault::UnknownKey { key });
    }
    check_number(alloc, key, value)
}

/// Refuses a table of further weights for its first entry that is at fault.
pub fn check_more(alloc: Global, table: &Table) -> Result<(), SheetFault>
    ensures ok { OnOk result (first_fault more_fault (table_view table.now) ≡ None) }
    ensures ordered { keys_ascend (table_view table.now) ≡ true }
    ensures fault { IfErr result (λ fault. fault ≢ SheetFault.Memory →
        first_fault more_fault (table_view table.now) ≡ Some fault) }
{
    for (key, value) in table.iter() {
        check_further(alloc, key.as_str(), value)?;
    }
    Ok(())
}

/// Refuses a document for its first key that is neither `more` nor `weights`.
pub fn check_keys(alloc: Global, document: &Table) -> Result<(), SheetFault>
    ensures ok { OnOk result (first_fault top_fault (table_view document.now) ≡ None) }
    ensures ordered { keys_ascend (table_view document.now) ≡ true }
    ensures fault { IfErr result (λ fault. fault ≢ SheetFault.Memory →
        first_fault top_fault (table_view document.now) ≡ Some fault) }
{
    for (key, _value) in document.iter() {
        if key.as_str() != "more" && key.as_str() != "weights" {
            let key = label(alloc, key.as_str())?;
            return Err(SheetFault::UnknownKey { key });
        }
    }
    Ok(())
}

/// A weight as a sheet keeps it.
fn kept(weight: i64) -> u16
    requires low { pos 0 ≤ℤ weight }
    requires high { weight ≤ℤ pos 10000 }
    ensures { pos result ≡ weight }
{
    weight as u16
}

/// The whole number at a key, if there is one.
pub fn number_at(table: &Table, key: &str) -> Option<i64>
    ensures { result ≡ option_and_then as_integer (get_member key.now (table_view table.now)) }
{
    match table.get(key) {
        Some(value) => value.as_integer(),
        None => None,
    }
}

/// The weight of a toll in a table of weights, or another where the table has none for it.
fn weight_in(table: &Table, toll: u8, otherwise: u16) -> u16
    requires first { 1 ≤ toll }
    requires last { toll ≤ 20 }
    requires right { first_fault entry_fault (table_view table.now) ≡ None }
    ensures { result ≡ weight_in (table_view table.now) toll otherwise }
{
    match number_at(table, toll_key(toll)) {
        Some(weight) => kept(weight),
        None => otherwise,
    }
}

/// The weight of Q21 in a table of further weights: 0 where the table has none for it.
pub fn more_in(table: &Table) -> u16
    requires right { first_fault more_fault (table_view table.now) ≡ None }
    ensures { result ≡ more_in (table_view table.now) }
{
    match number_at(table, "Q21") {
        Some(weight) => kept(weight),
        None => 0,
    }
}

/// The sheet of a table of weights, with the weight of Q21.
pub fn sheet_in(table: &Table, more: u16) -> Sheet
    requires right { first_fault entry_fault (table_view table.now) ≡ None }
    ensures { result ≡ sheet_in (table_view table.now) more }
{
    let default = default_sheet();
    let mut weights = [more; GREATEST_TOLL as usize];
    for i in 0..LAST_WEIGHT as usize {
        weights[i] = weight_in(table, i as u8 + 1, default.weights[i]);
    }
    Sheet { weights }
}

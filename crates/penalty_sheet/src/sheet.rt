//! The weights of the tolls.

ghost use Rattle.std.specs.Prelude.{◌≡◌, ◌≤◌};
ghost use Rattle.toml.specs.Data.{no_members};
ghost use Rattle.penalty_sheet.specs.Sheets.{sheet_in};
ghost use Rattle.penalty_sheet.specs.Weights.{charge, default_weights, greatest_toll, weight_of};

/// The greatest number of a toll: the tolls are Q1 to Q21.
pub const GREATEST_TOLL: u8 = 21;

/// The weights of the tolls Q1 to Q21, in this order, from 0 to 10,000 each.
#[derive(Clone, Copy, Debug, PartialEq, Eq)]
pub struct Sheet {
    pub weights: [u16; GREATEST_TOLL as usize],
}

/// The sheet to use where none is given.
pub fn default_sheet() -> Sheet
    ensures { result.weights ≡ default_weights }
{
    sheet_with(0)
}

/// The same sheet with this weight of Q21.
pub(crate) fn sheet_with(more: u16) -> Sheet
    ensures { result ≡ sheet_in no_members more }
{
    Sheet {
        weights: [
            2, 3, 4, 2, 2, 1, 3, 1, 2, 5, 2, 4, 3, 4, 4, 5, 4, 3, 2, 3, more,
        ],
    }
}

/// The weight of a toll.
#[inline]
pub fn weight(sheet: &Sheet, toll: u8) -> u16
    requires first { 1 ≤ toll }
    requires last { toll ≤ greatest_toll }
    ensures { result ≡ weight_of sheet.now toll }
{
    sheet.weights[toll as usize - 1]
}

/// The weight of a toll where it stands, else nothing.
pub fn toll_if(sheet: &Sheet, toll: u8, stands: bool) -> u64
    requires first { 1 ≤ toll }
    requires last { toll ≤ greatest_toll }
    ensures value { result ≡ charge sheet.now toll stands }
    ensures bound { result ≤ 65535 }
{
    if stands {
        u64::from(weight(sheet, toll))
    } else {
        0
    }
}

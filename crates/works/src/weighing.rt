//! The sheet of weights in use.

ghost use Rattle.std.specs.Prelude.{ℕ, [], ◌∷◌, List};
ghost use Rattle.works.specs.TaskFiles.{as_list};
ghost use Rattle.works.specs.Sheets.{ReadsPriced, ReadsSheet};
ghost use Rattle.class_marker.specs.Markings.{IsContent};
ghost use Rattle.works.specs.Works.{AreContents};

use crate::refusal::Refusal;
use crate::work::Stop;
use cantus_space::{PricedSheet, no_prices, read_prices};
use class_marker::Text;
use penalty_sheet::{Sheet, SheetFault, default_sheet};
use std::alloc::Global;

/// The weights of the sheet that a file is, or the usual ones where there is none.
pub fn sheet_of(alloc: Global, file: &Option<Text>) -> Result<Sheet, Stop>
    ensures { (bytes : List (List ℕ)) → AreContents 65536 (as_list file.now) bytes
        → ReadsSheet bytes result }
{
    let priced = priced_of(alloc, file)?;
    Ok(priced.sheet)
}

/// The sheet with prices that a file is, or the usual one, without prices, where there is none.
pub fn priced_of(alloc: Global, file: &Option<Text>) -> Result<PricedSheet, Stop>
    ensures { (bytes : List (List ℕ)) → AreContents 65536 (as_list file.now) bytes
        → ReadsPriced bytes result }
{
    match file {
        None => Ok(PricedSheet {
            sheet: default_sheet(),
            prices: no_prices(),
        }),
        Some(content) => sheet_in(alloc, content),
    }
}

/// The sheet with prices that a file is.
fn sheet_in(alloc: Global, file: &Text) -> Result<PricedSheet, Stop>
    ensures { (bytes : List ℕ) → IsContent 65536 file.now bytes → ReadsPriced (bytes ∷ []) result }
{
    let Text::Bytes(bytes) = file else {
        return Err(Stop::Refused(Refusal::Sheet {
            fault: SheetFault::TooLong,
        }));
    };
    match read_prices(alloc, bytes) {
        Ok(priced) => Ok(priced),
        Err(SheetFault::Memory) => Err(Stop::Memory),
        Err(fault) => Err(Stop::Refused(Refusal::Sheet { fault })),
    }
}

//! The line of a cantus.

ghost use Rattle.std.specs.Prelude.{◌≡◌, IfOk, string_bytes};
ghost use Rattle.cantus_check.specs.Heads as words;

use fux_pitch::{Memory, Pitch};
use fux_text::put_pitches;
use std::alloc::Global;

/// The line of a cantus, with its line feed.
pub fn cantus_line(alloc: Global, cantus: &[Pitch]) -> Result<String, Memory>
    ensures { IfOk result (λ text. string_bytes text ≡ words.cantus_line cantus.now) }
{
    let mut text = String::new(alloc);
    text.push_str("cantus")?;
    put_pitches(&mut text, cantus)?;
    text.push('\n')?;
    Ok(text)
}

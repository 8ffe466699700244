//! The lines that tell differences.

ghost use Rattle.std.specs.Prelude.{◌≡◌, ◌++◌, OnOk, string_bytes};
ghost use Rattle.class_marker.specs.DifferenceLines.{difference_line, difference_lines, difference_text, differs_line, place_text};

use crate::difference::Difference;
use fux_pitch::Memory;
use std::fmt::Write;

/// Appends a bar of a voice.
fn put_place(out: &mut String, voice: u8, bar: u8) -> Result<(), Memory>
    ensures { OnOk result (string_bytes out.new ≡ string_bytes out.old ++ place_text voice bar) }
{
    write!(out, " voice {voice} bar {bar}")?;
    Ok(())
}

/// Appends what differs.
fn put_text(out: &mut String, difference: Difference) -> Result<(), Memory>
    ensures { OnOk result (string_bytes out.new ≡ string_bytes out.old ++ difference_text
        difference) }
{
    match difference {
        Difference::Mode => Ok(out.push_str("mode")?),
        Difference::Voices => Ok(out.push_str("voices")?),
        Difference::Bars => Ok(out.push_str("bars")?),
        Difference::Species => Ok(out.push_str("species")?),
        Difference::CantusVoice => Ok(out.push_str("cantus voice")?),
        Difference::Cantus { bar } => Ok(write!(out, "cantus bar {bar}")?),
        Difference::Range { voice, bar } => {
            out.push_str("range")?;
            put_place(out, voice, bar)
        }
        Difference::Relax => Ok(out.push_str("relax")?),
        Difference::Given { voice, bar } => {
            out.push_str("given")?;
            put_place(out, voice, bar)
        }
    }
}

/// Appends the line of a difference.
fn put_difference(out: &mut String, difference: Difference) -> Result<(), Memory>
    ensures { OnOk result (string_bytes out.new ≡ string_bytes out.old ++ difference_line
        difference) }
{
    out.push_str("lesson ")?;
    put_text(out, difference)?;
    out.push('\n')?;
    Ok(())
}

/// Appends the lines of differences.
pub fn put_differences(out: &mut String, differences: &[Difference]) -> Result<(), Memory>
    ensures { OnOk result (string_bytes out.new ≡ string_bytes out.old ++ difference_lines
        differences.now) }
{
    for difference in differences {
        put_difference(out, *difference)?;
    }
    Ok(())
}

/// Appends the line that says how many differences there are.
pub(crate) fn put_count(out: &mut String, count: usize) -> Result<(), Memory>
    ensures { OnOk result (string_bytes out.new ≡ string_bytes out.old ++ differs_line count) }
{
    write!(out, "differs {count}\n")?;
    Ok(())
}

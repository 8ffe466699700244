//! Writing the lines of lists.

ghost use Rattle.std.specs.Prelude.{◌≡◌, ◌++◌, OnOk, map, string_bytes};
ghost use Rattle.std.specs.Fmt.{decimal};
ghost use Rattle.fux_text.specs.Words.{spaced};
ghost use Rattle.price_check.specs.PriceLines.{cases_text, keeps_text, line_of, line_text};

use crate::line::PriceLine;
use fux_pitch::Memory;
use std::fmt::Write;

/// The line of what a list keeps.
fn keeps_line(turns: bool, runs: bool) -> &'static str
    ensures { result.now ≡ keeps_text turns runs }
{
    match (turns, runs) {
        (false, false) => "keeps\n",
        (true, false) => "keeps turns\n",
        (false, true) => "keeps runs\n",
        (true, true) => "keeps turns runs\n",
    }
}

/// Appends keys, with a space before each.
fn put_keys(out: &mut String, keys: &[u8]) -> Result<(), Memory>
    ensures { OnOk result (string_bytes out.new ≡ string_bytes out.old
        ++ spaced (map decimal keys.now)) }
{
    for key in keys {
        write!(out, " {key}")?;
    }
    Ok(())
}

/// Appends the line of a list's cases.
#[tactic(auto, using(fux_text::proofs::WordLemmas::line_steps))]
fn put_cases(out: &mut String, voice: u8, keys: &[u8]) -> Result<(), Memory>
    ensures { OnOk result (string_bytes out.new ≡ string_bytes out.old
        ++ cases_text voice keys.now) }
{
    write!(out, "cases {voice}")?;
    put_keys(out, keys)?;
    out.push('\n')?;
    Ok(())
}

/// Appends a line.
pub fn put_line(out: &mut String, line: &PriceLine) -> Result<(), Memory>
    ensures { OnOk result (string_bytes out.new ≡ string_bytes out.old
        ++ line_text (line_of line.now)) }
{
    match line {
        PriceLine::Keeps { turns, runs } => out.push_str(keeps_line(*turns, *runs))?,
        PriceLine::Cases { voice, keys } => put_cases(out, *voice, keys.as_slice())?,
        PriceLine::Price {
            case,
            voice,
            pitch,
            number,
        } => write!(out, "price {case} {voice} {pitch} {number}\n")?,
        PriceLine::Claims => out.push_str("claims\n")?,
    }
    Ok(())
}

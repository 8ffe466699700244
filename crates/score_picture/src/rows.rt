//! The rows of shapes.

ghost use Rattle.std.specs.Prelude.{◌≡◌, ◌++◌, OnOk, string_bytes};
ghost use Rattle.score_picture.specs.Rows.{arc_row, beam_row, shape_row, stem_row, symbol_name as name_of_symbol, symbol_row, tie_row, told};

use fux_pitch::Memory;
use sheet_layout::{Point, Shape, Symbol};
use std::fmt::Write;

/// Appends words, and a number behind them.
#[tactic(auto, unfolding(crate::specs::Rows::told))]
fn put_told(out: &mut String, words: &str, number: u32) -> Result<(), Memory>
    ensures { OnOk result (string_bytes out.new ≡ string_bytes out.old ++ told words.now number) }
{
    write!(out, "{words}{number}")?;
    Ok(())
}

/// The name of a symbol's drawing.
fn symbol_name(symbol: Symbol) -> &'static str
    ensures { result.now ≡ name_of_symbol symbol }
{
    match symbol {
        Symbol::WholeHead => "w",
        Symbol::HalfHead => "h",
        Symbol::BlackHead => "q",
        Symbol::WholeRest => "rw",
        Symbol::HalfRest => "rh",
        Symbol::QuarterRest => "rq",
        Symbol::EighthRest => "re",
        Symbol::UpFlag => "fu",
        Symbol::DownFlag => "fd",
        Symbol::Sharp => "s",
        Symbol::Flat => "b",
        Symbol::Natural => "n",
        Symbol::Dot => "p",
        Symbol::Ledger => "l",
    }
}

/// Appends a symbol at a point.
#[tactic(auto, unfolding(crate::specs::Rows::symbol_row))]
fn put_symbol(out: &mut String, symbol: Symbol, at: &Point) -> Result<(), Memory>
    ensures { OnOk result (string_bytes out.new ≡ string_bytes out.old
        ++ symbol_row symbol at.now) }
{
    out.push_str("<use xlink:href=\"#")?;
    out.push_str(symbol_name(symbol))?;
    put_told(out, "\" x=\"", at.x)?;
    put_told(out, "\" y=\"", at.y)?;
    out.push_str("\"/>\n")?;
    Ok(())
}

/// Appends a stem from its head to its tip.
#[tactic(auto, unfolding(crate::specs::Rows::stem_row))]
fn put_stem(out: &mut String, from: &Point, tip: u32) -> Result<(), Memory>
    ensures { OnOk result (string_bytes out.new ≡ string_bytes out.old ++ stem_row from.now tip) }
{
    put_told(out, "<path d=\"M", from.x)?;
    put_told(out, " ", from.y)?;
    put_told(out, "V", tip)?;
    out.push_str("\" stroke=\"currentColor\" stroke-width=\"1.2\"/>\n")?;
    Ok(())
}

/// Appends a beam from one stem's tip to another's.
#[tactic(auto, unfolding(crate::specs::Rows::beam_row))]
fn put_beam(out: &mut String, from: &Point, to: &Point) -> Result<(), Memory>
    ensures { OnOk result (string_bytes out.new ≡ string_bytes out.old
        ++ beam_row from.now to.now) }
{
    put_told(out, "<path d=\"M", from.x)?;
    put_told(out, " ", from.y)?;
    put_told(out, "L", to.x)?;
    put_told(out, " ", to.y)?;
    out.push_str("\" stroke=\"currentColor\" stroke-width=\"4\"/>\n")?;
    Ok(())
}

/// Appends an arc from a point so far to the right, there and back, by words that say its way.
#[tactic(auto, unfolding(crate::specs::Rows::arc_row))]
fn put_arc(
    out: &mut String,
    begin: &str,
    there: &str,
    back: &str,
    from: &Point,
    wide: u32,
) -> Result<(), Memory>
    ensures { OnOk result (string_bytes out.new ≡ string_bytes out.old
        ++ arc_row begin.now there.now back.now from.now wide) }
{
    let half = wide / 2;
    put_told(out, "<path d=\"M", from.x)?;
    put_told(out, " ", from.y)?;
    put_told(out, begin, half)?;
    put_told(out, there, wide)?;
    put_told(out, " 0q-", wide - half)?;
    put_told(out, back, wide)?;
    out.push_str(" 0z\" stroke=\"currentColor\"/>\n")?;
    Ok(())
}

/// Appends a tie from a point to a place.
fn put_tie(out: &mut String, up: bool, from: &Point, to: u32) -> Result<(), Memory>
    ensures { OnOk result (string_bytes out.new ≡ string_bytes out.old ++ tie_row up from.now to) }
{
    let wide = to.saturating_sub(from.x);
    if up {
        put_arc(out, "m0 7q", " 7 ", " 5-", from, wide)
    } else {
        put_arc(out, "m0-7q", "-7 ", "-5-", from, wide)
    }
}

/// Appends the row of a shape.
pub fn put_shape(out: &mut String, shape: &Shape) -> Result<(), Memory>
    ensures { OnOk result (string_bytes out.new ≡ string_bytes out.old ++ shape_row shape.now) }
{
    match shape {
        Shape::At(symbol, at) => put_symbol(out, *symbol, at),
        Shape::Stem(from, tip) => put_stem(out, from, *tip),
        Shape::Joined(_, from, to) => put_beam(out, from, to),
        Shape::Tie(up, from, to) => put_tie(out, *up, from, *to),
    }
}

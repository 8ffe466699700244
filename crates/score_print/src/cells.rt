//! What is printed for a cell, and how wide it is.

ghost use Rattle.std.specs.Prelude.{◌≡◌, ◌++◌, ◌≤◌, OnOk, replicate, string_bytes};
ghost use Rattle.score_print.specs.Printed.{cell_width as width_of, padded_cell, printed_cell, printed_char, printed_name};

use arrayvec::ArrayString;
use fux_grid::Given;
use fux_pitch::{Memory, Pitch, name};
use unicode_width::UnicodeWidthStr;

/// What is printed for a cell: at most three characters of at most four bytes.
type Printed = ArrayString<12>;

/// What is printed for a character of a pitch's name: `♯` for `#`, `♭` for `b`, and each other one
/// as it is.
fn printed_char(byte: u8) -> char
    ensures { result ≡ printed_char byte }
{
    match byte {
        b'#' => '♯',
        b'b' => '♭',
        _ => char::from(byte),
    }
}

/// The name of a pitch as it is printed.
fn printed_name(p: Pitch) -> Printed
    ensures { result.bytes ≡ printed_name p }
{
    let plain = name(p);
    let mut printed = Printed::new();
    for byte in plain.as_str().as_bytes() {
        printed.push(printed_char(*byte));
    }
    printed
}

/// What is printed for a cell: a name where a note starts, `-` where it goes on, `.` at a rest, and
/// nothing where the cell is left blank.
fn printed_cell(cell: Given) -> Printed
    ensures { result.bytes ≡ printed_cell cell }
{
    let mut sign = Printed::new();
    match cell {
        Given::Blank => {}
        Given::Rest => sign.push('.'),
        Given::Tied | Given::Hold(_) => sign.push('-'),
        Given::Start(p) => return printed_name(p),
    }
    sign
}

/// How many columns of a terminal a cell takes.
pub fn cell_width(cell: Given) -> usize
    ensures value { result ≡ width_of cell }
    ensures most { result ≤ 24 }
{
    let printed = printed_cell(cell);
    printed.as_str().width()
}

/// Appends so many spaces.
pub fn put_spaces(out: &mut String, count: usize) -> Result<(), Memory>
    ensures { OnOk result (string_bytes out.new ≡ string_bytes out.old ++ replicate count 32) }
{
    for _ in 0..count {
        out.push(' ')?;
    }
    Ok(())
}

/// Appends what is printed for a cell.
fn put_printed(out: &mut String, cell: Given) -> Result<(), Memory>
    ensures { OnOk result (string_bytes out.new ≡ string_bytes out.old ++ printed_cell cell) }
{
    let printed = printed_cell(cell);
    out.push_str(printed.as_str())?;
    Ok(())
}

/// Appends a cell, filled with spaces to a width, and a space.
#[tactic(auto, unfolding(crate::specs::Printed::padded_cell))]
pub fn put_cell(out: &mut String, cell: Given, width: usize) -> Result<(), Memory>
    ensures { OnOk result (string_bytes out.new ≡ string_bytes out.old ++ padded_cell width cell) }
{
    put_printed(out, cell)?;
    put_spaces(out, width.saturating_sub(cell_width(cell)))?;
    out.push_str(" ")?;
    Ok(())
}

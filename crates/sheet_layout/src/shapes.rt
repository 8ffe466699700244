//! Shapes.

ghost use Rattle.std.specs.Prelude.{◌≡◌, ◌++◌, OnOk};
ghost use Rattle.sheet_layout.specs.Shapes.{when};

use fux_pitch::Memory;

/// A symbol that a picture draws once and then uses.
#[derive(Clone, Copy, Debug, PartialEq, Eq)]
pub enum Symbol {
    WholeHead,
    HalfHead,
    BlackHead,
    WholeRest,
    HalfRest,
    QuarterRest,
    EighthRest,
    UpFlag,
    DownFlag,
    Sharp,
    Flat,
    Natural,
    Dot,
    Ledger,
}

/// A point: to the right of the bar line before the bar, and downwards, where the staff's middle
/// line is at 600.
#[derive(Clone, Copy, Debug, PartialEq, Eq)]
pub struct Point {
    pub x: u32,
    pub y: u32,
}

/// A shape: a symbol at a point; a stem from its head to its tip; a beam from one stem's tip to
/// another's; a tie from one point to another at its height.
#[derive(Clone, Copy, Debug, PartialEq, Eq)]
pub enum Shape {
    At(Symbol, Point),
    Stem(Point, u32),
    Joined(bool, Point, Point),
    Tie(bool, Point, u32),
}

/// Appends a shape where it is drawn.
pub fn put_when(shapes: &mut Vec<Shape>, drawn: bool, shape: Shape) -> Result<(), Memory>
    ensures { OnOk result (shapes.new.items ≡ shapes.old.items ++ when drawn shape) }
{
    if drawn {
        shapes.push(shape)?;
    }
    Ok(())
}

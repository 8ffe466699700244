//! Reading order.

ghost use Rattle.std.specs.Prelude.{◌≡◌, length};
ghost use Rattle.fux_grid.specs.Order.{pitch_order, cell_order, column_order};

use crate::cell::{Cell, Column};
use fux_pitch::{Pitch, semitone};
use std::cmp::Ordering;

/// The order of two pitches: they go by key, then by degree.
pub fn pitch_order(p: Pitch, q: Pitch) -> Ordering
    ensures { result ≡ pitch_order p q }
{
    semitone(p)
        .cmp(&semitone(q))
        .then(p.degree().cmp(&q.degree()))
}

/// A rest comes before a hold, and a hold before a start.
fn cell_order(c: Cell, d: Cell) -> Ordering
    ensures { result ≡ cell_order c d }
{
    match (c, d) {
        (Cell::Rest, Cell::Rest) => Ordering::Equal,
        (Cell::Rest, _) => Ordering::Less,
        (_, Cell::Rest) => Ordering::Greater,
        (Cell::Hold(p), Cell::Hold(q)) => pitch_order(p, q),
        (Cell::Hold(_), Cell::Start(_)) => Ordering::Less,
        (Cell::Start(_), Cell::Hold(_)) => Ordering::Greater,
        (Cell::Start(p), Cell::Start(q)) => pitch_order(p, q),
    }
}

/// Columns go by the lowest voice in which they differ.
pub fn order(a: &Column, b: &Column) -> Ordering
    requires { length a.now.items ≡ length b.now.items }
    ensures { result ≡ column_order a.now.items b.now.items }
{
    for v in 0..a.len() {
        match cell_order(a[v], b[v]) {
            Ordering::Equal => {}
            differs => return differs,
        }
    }
    Ordering::Equal
}

//! What is drawn of a written note or rest.

ghost use Rattle.std.specs.Prelude.{◌≡◌, ◌≤◌, ◌++◌, ◌∷◌, [], OnOk};
ghost use Rattle.sheet_layout.specs.declared.shapes.Shape.TheVariants.{At};
ghost use Rattle.sheet_layout.specs.Notes.{beam as beam_shape, dot_height as dot_height_of, dots, flag as flag_shape, has_flag, has_stem, head_shapes, head_symbol as symbol_of_head, ledger_at, ledgers, note_shapes, point, rest_shapes, rest_symbol as symbol_of_rest, rest_x as x_of_rest, signs, starts_beam, stem as stem_shape, stems, tie_to as tie_end_of, ties};

use crate::heads::{Head, NotePlace, head_of, stem_x, tip};
use crate::shapes::{Point, Shape, Symbol, put_when};
use crate::spacing::slot_x;
use fux_pitch::{Memory, Pitch};
use written_notes::{Base, Beam, Sign, Written};

/// The symbol of a head.
fn head_symbol(base: Base) -> Symbol
    ensures { result ≡ symbol_of_head base }
{
    match base {
        Base::Whole => Symbol::WholeHead,
        Base::Half => Symbol::HalfHead,
        Base::Quarter | Base::Eighth => Symbol::BlackHead,
    }
}

/// Appends a symbol at a point.
fn put_symbol(shapes: &mut Vec<Shape>, symbol: Symbol, x: u16, y: u16) -> Result<(), Memory>
    ensures { OnOk result (shapes.new.items ≡ shapes.old.items ++ At symbol (point x y) ∷ []) }
{
    let place = Point {
        x: u32::from(x),
        y: u32::from(y),
    };
    shapes.push(Shape::At(symbol, place))?;
    Ok(())
}

/// Appends the ledger lines so many spaces from the middle line, where the degree reaches that far.
fn put_ledger(
    shapes: &mut Vec<Shape>,
    x: u16,
    middle: u8,
    degree: u8,
    spaces: u8,
) -> Result<(), Memory>
    requires { spaces ≤ 13 }
    ensures { OnOk result (shapes.new.items ≡ shapes.old.items
        ++ ledger_at x middle degree spaces) }
{
    let x = u32::from(x);
    let steps = 2 * u16::from(spaces);
    let away = 8 * u32::from(spaces);
    let above = u16::from(middle) + steps <= u16::from(degree);
    let below = u16::from(degree) + steps <= u16::from(middle);
    let high = Point { x, y: 600 - away };
    let low = Point { x, y: 600 + away };
    put_when(shapes, above, Shape::At(Symbol::Ledger, high))?;
    put_when(shapes, below, Shape::At(Symbol::Ledger, low))
}

/// Appends the ledger lines of a head.
fn put_ledgers(shapes: &mut Vec<Shape>, x: u16, middle: u8, degree: u8) -> Result<(), Memory>
    ensures { OnOk result (shapes.new.items ≡ shapes.old.items ++ ledgers x middle degree) }
{
    for spaces in 3..14 {
        put_ledger(shapes, x, middle, degree, spaces)?;
    }
    Ok(())
}

/// Whether notes of a base have stems.
fn has_stem(base: Base) -> bool
    ensures { result ≡ has_stem base }
{
    !matches!(base, Base::Whole)
}

/// Whether a note has a flag.
fn has_flag(base: Base, beam: Beam) -> bool
    ensures { result ≡ has_flag base beam }
{
    matches!(base, Base::Eighth) && matches!(beam, Beam::Without)
}

/// Whether a beam begins.
fn starts_beam(beam: Beam) -> bool
    ensures { result ≡ starts_beam beam }
{
    matches!(beam, Beam::Begins)
}

/// The stem of a head.
fn stem(head: &Head) -> Shape
    ensures { result ≡ stem_shape head.now }
{
    let from = Point {
        x: stem_x(head.up, head.x),
        y: u32::from(head.y),
    };
    Shape::Stem(from, tip(head.up, head.y, head.far))
}

/// The flag of a head's stem.
fn flag(head: &Head) -> Shape
    ensures { result ≡ flag_shape head.now }
{
    let x = u32::from(head.x);
    let end = tip(head.up, head.y, head.far);
    if head.up {
        Shape::At(Symbol::UpFlag, Point { x, y: end + 28 })
    } else {
        let y = end.saturating_sub(28);
        Shape::At(Symbol::DownFlag, Point { x, y })
    }
}

/// The beam from a head's stem.
fn beam(head: &Head) -> Shape
    ensures { result ≡ beam_shape head.now }
{
    let from = Point {
        x: stem_x(head.up, head.x),
        y: tip(head.up, head.y, head.far),
    };
    let to = Point {
        x: stem_x(head.up, head.next),
        y: tip(head.up, head.far, head.y),
    };
    Shape::Joined(head.up, from, to)
}

/// Appends what stands at a head's stem.
fn put_stems(shapes: &mut Vec<Shape>, base: Base, head: &Head) -> Result<(), Memory>
    ensures { OnOk result (shapes.new.items ≡ shapes.old.items ++ stems base head.now) }
{
    put_when(shapes, has_stem(base), stem(head))?;
    put_when(shapes, has_flag(base, head.beam), flag(head))?;
    put_when(shapes, starts_beam(head.beam), beam(head))
}

/// Appends a note's sign.
fn put_signs(shapes: &mut Vec<Shape>, sign: Sign, x: u16, y: u16) -> Result<(), Memory>
    ensures { OnOk result (shapes.new.items ≡ shapes.old.items ++ signs sign x y) }
{
    let place = Point {
        x: u32::from(x).saturating_sub(13),
        y: u32::from(y),
    };
    match sign {
        Sign::Plain => {}
        Sign::Sharp => shapes.push(Shape::At(Symbol::Sharp, place))?,
        Sign::Flat => shapes.push(Shape::At(Symbol::Flat, place))?,
        Sign::Natural => shapes.push(Shape::At(Symbol::Natural, place))?,
    }
    Ok(())
}

/// Appends dots behind a place.
fn put_dots(shapes: &mut Vec<Shape>, count: u8, x: u16, y: u16) -> Result<(), Memory>
    ensures { OnOk result (shapes.new.items ≡ shapes.old.items ++ dots count x y) }
{
    let x = u32::from(x);
    let y = u32::from(y);
    put_when(
        shapes,
        0 < count,
        Shape::At(Symbol::Dot, Point { x: x + 11, y }),
    )?;
    put_when(
        shapes,
        1 < count,
        Shape::At(Symbol::Dot, Point { x: x + 16, y }),
    )
}

/// The height of a note's dots: between the lines.
fn dot_height(middle: u8, degree: u8, y: u16) -> u16
    ensures { result ≡ dot_height_of middle degree y }
{
    if degree % 2 == middle % 2 {
        y.saturating_sub(4)
    } else {
        y
    }
}

/// Where the tie behind a note ends.
fn tie_to(all: &[Written], place: &NotePlace, note: &Written) -> u32
    ensures { result ≡ tie_end_of all.now place.now note.now }
{
    let end = u16::from(note.slot) + u16::from(note.slots);
    if end < 8 {
        u32::from(slot_x(all, end as u8)) - 6
    } else {
        place.tie_end
    }
}

/// Appends a note's ties.
fn put_ties(
    shapes: &mut Vec<Shape>,
    all: &[Written],
    place: &NotePlace,
    note: &Written,
    head: &Head,
) -> Result<(), Memory>
    ensures { OnOk result (shapes.new.items ≡ shapes.old.items
        ++ ties all.now place.now note.now head.now) }
{
    let x = u32::from(head.x);
    let y = u32::from(head.y);
    let behind = Point { x: x + 6, y };
    let before = Point {
        x: x.saturating_sub(18),
        y,
    };
    let goes_on = note.tie_in && note.slot == 0 && place.first;
    let end = x.saturating_sub(6);
    put_when(
        shapes,
        note.tie_out,
        Shape::Tie(head.up, behind, tie_to(all, place, note)),
    )?;
    put_when(shapes, goes_on, Shape::Tie(head.up, before, end))
}

/// Appends what is drawn of a head, where its note has this degree.
fn put_head(
    shapes: &mut Vec<Shape>,
    all: &[Written],
    place: &NotePlace,
    note: &Written,
    degree: u8,
    head: &Head,
) -> Result<(), Memory>
    ensures { OnOk result (shapes.new.items ≡ shapes.old.items
        ++ head_shapes all.now place.now note.now degree head.now) }
{
    let symbol = head_symbol(note.value.base);
    let dot = dot_height(place.middle, degree, head.y);
    put_ledgers(shapes, head.x, place.middle, degree)?;
    put_symbol(shapes, symbol, head.x, head.y)?;
    put_stems(shapes, note.value.base, head)?;
    put_signs(shapes, note.sign, head.x, head.y)?;
    put_dots(shapes, note.value.dots, head.x, dot)?;
    put_ties(shapes, all, place, note, head)?;
    Ok(())
}

/// Appends what is drawn of one of a bar's notes with a pitch, among the notes of all voices.
pub fn put_note(
    shapes: &mut Vec<Shape>,
    all: &[Written],
    notes: &[Written],
    place: &NotePlace,
    note: &Written,
    pitch: Pitch,
) -> Result<(), Memory>
    ensures { OnOk result (shapes.new.items ≡ shapes.old.items
        ++ note_shapes all.now notes.now place.now note.now pitch) }
{
    let head = head_of(all, notes, place.middle, note, pitch);
    put_head(shapes, all, place, note, pitch.degree(), &head)
}

/// The symbol of a rest.
fn rest_symbol(base: Base) -> Symbol
    ensures { result ≡ symbol_of_rest base }
{
    match base {
        Base::Whole => Symbol::WholeRest,
        Base::Half => Symbol::HalfRest,
        Base::Quarter => Symbol::QuarterRest,
        Base::Eighth => Symbol::EighthRest,
    }
}

/// Where a rest stands: at its slot, and in the bar's middle where it fills the bar.
fn rest_x(all: &[Written], place: &NotePlace, note: &Written) -> u16
    ensures { result ≡ x_of_rest all.now place.now note.now }
{
    if note.slots == 8 {
        place.width / 2
    } else {
        slot_x(all, note.slot)
    }
}

/// Appends what is drawn of a rest, at the middle line, among the notes of all voices.
pub fn put_rest(
    shapes: &mut Vec<Shape>,
    all: &[Written],
    place: &NotePlace,
    note: &Written,
) -> Result<(), Memory>
    ensures { OnOk result (shapes.new.items ≡ shapes.old.items
        ++ rest_shapes all.now place.now note.now) }
{
    let x = rest_x(all, place, note);
    let symbol = rest_symbol(note.value.base);
    put_symbol(shapes, symbol, x, 600)?;
    put_dots(shapes, note.value.dots, x, 596)?;
    Ok(())
}

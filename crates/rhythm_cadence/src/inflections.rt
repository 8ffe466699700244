//! The toll Q21: a letter that a voice sounds in two alterations within two bars.

ghost use Rattle.std.specs.Prelude.{◌≡◌, ◌-◌, ◌≤◌, ◌&&◌, ℕ, length, nat_lt};
ghost use Rattle.fux_grid.specs.Cells as cells;
ghost use Rattle.fux_grid.specs.Columns.{Columns, cell_at, earlier};
ghost use Rattle.rule_law.specs.Places.{reading_back, reading_of};
ghost use Rattle.rule_law.specs.Voices as voices_words;
ghost use Rattle.rhythm_cadence.specs.Inflections as words;
ghost use Rattle.rhythm_cadence.specs.Inflections.{inflection_toll, sounds_otherwise};
ghost use Rattle.rhythm_cadence.specs.Rows.{holds_of_pitch};

use fux_grid::{Cell, Exercise};
use fux_pitch::Pitch;
use rule_law::{ColumnsAround, cell_around, cell_behind, is_free};

/// Whether two pitches have one letter and different alterations.
fn is_inflection(p: Pitch, q: Pitch) -> bool
    ensures { result ≡ words.is_inflection p q }
{
    p.degree() % 7 == q.degree() % 7 && p.alter() != q.alter()
}

/// Whether a voice sounds the letter of a pitch in another alteration, in the column that stands k
/// columns before the one before column `i`.
fn sounds_so<C: ColumnsAround>(
    around: &C,
    ex: &Exercise,
    v: u8,
    i: usize,
    p: Pitch,
    k: usize,
) -> bool
    requires { ex.now.voices ≤ 4 }
    ensures { (s : Columns) (first : ℕ) → C.show around.now ex.now s first → first ≤ i - 1 - k → i
        ≤ length s → result ≡ holds_of_pitch (words.is_inflection p)
        (cells.pitch_of (cell_at (earlier s i) v k)) }
{
    match cell_behind(around, ex, v, i, k).pitch() {
        Some(q) => is_inflection(p, q),
        None => false,
    }
}

/// Whether it does in one of the sixteen columns before column `i`.
fn sounds_otherwise<C: ColumnsAround>(around: &C, ex: &Exercise, v: u8, i: usize, p: Pitch) -> bool
    requires { ex.now.voices ≤ 4 }
    ensures { (s : Columns) (first : ℕ) → C.show around.now ex.now s first → first ≤ i - 16 → i
        ≤ length s → result ≡ sounds_otherwise v (earlier s i) p }
{
    for k in 0..16 {
        if sounds_so(around, ex, v, i, p, k) {
            return true;
        }
    }
    false
}

/// Whether a voice is free, and starts at column `i` a note of which it sounded the letter in
/// another alteration within the two bars before.
fn is_inflected<C: ColumnsAround>(around: &C, ex: &Exercise, i: usize, v: u8) -> bool
    requires { ex.now.voices ≤ 4 }
    ensures { (s : Columns) (first : ℕ) → C.show around.now ex.now s first → first ≤ i - 16 → i
        ≤ length s → result ≡ (voices_words.is_free ex.now v
        && (nat_lt v ex.now.voices && reading_back (λ _. words.is_inflected v) s i)) }
{
    if !is_free(ex, v) || v >= ex.voices {
        return false;
    }
    match cell_around(around, ex, v, i) {
        Cell::Start(p) => sounds_otherwise(around, ex, v, i, p),
        _ => false,
    }
}

/// Q21: how many free voices start a note at column `i` of which they sounded the letter in another
/// alteration within the two bars before.
pub fn inflection_cost<C: ColumnsAround>(around: &C, ex: &Exercise, i: usize) -> u32
    requires { ex.now.voices ≤ 4 }
    ensures value { (s : Columns) (first : ℕ) → C.show around.now ex.now s first → first ≤ i - 16
        → i ≤ length s → result ≡ reading_of (inflection_toll ex.now) s i }
    ensures bound { result ≤ 4 }
{
    u32::from(is_inflected(around, ex, i, 0))
        + u32::from(is_inflected(around, ex, i, 1))
        + u32::from(is_inflected(around, ex, i, 2))
        + u32::from(is_inflected(around, ex, i, 3))
}

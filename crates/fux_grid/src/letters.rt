//! The letters of a voice in a bar.

ghost use Rattle.std.specs.Prelude.{◌≡◌, ◌*◌, ◌<◌, ◌≤◌, length, take, drop};
ghost use Rattle.fux_grid.specs.Letters.{letters_of, bar_columns, bar_from};

use crate::score::Score;
use arrayvec::ArrayVec;

/// The letters S, H and R of a voice in the bar that begins at column i, as many of them as the
/// score has.
pub fn letters_from(score: &Score, v: u8, i: usize) -> ArrayVec<u8, 8>
    requires { i ≤ length score.now.columns }
    ensures value { result.items ≡ letters_of v (take 8 (drop i score.now.columns)) }
    ensures cut { i < length score.now.columns → result.items
        ≡ letters_of v (bar_from score.now.columns i) }
{
    let count = (score.len() - i).min(8);
    let mut letters = ArrayVec::new();
    for slot in 0..count {
        letters.push(score.cell(v as usize, i + slot).letter());
    }
    letters
}

/// The letters S, H and R of a voice in a whole bar, counted from 1.
pub fn shape(score: &Score, v: u8, bar: u8) -> [u8; 8]
    requires voice { v < score.now.voices }
    requires first { 1 ≤ bar }
    requires whole { 8 * bar ≤ length score.now.columns }
    ensures { result ≡ letters_of v (bar_columns score.now.columns bar) }
{
    let letters = letters_from(score, v, 8 * (bar as usize - 1));
    let mut shape = [0; 8];
    shape.copy_from_slice(&letters);
    shape
}

//! A `sing` line, judged by itself.

ghost use Rattle.std.specs.Prelude.{◌≡◌, ◌≤◌, IfOk};
ghost use Rattle.text_lines.specs.Faults.{Gives};
ghost use Rattle.text_lines.specs.Rows.{row_in};
ghost use Rattle.text_lines.specs.Words.{words_of};
ghost use Rattle.text_faults.specs.Known.{IsPossible};
ghost use Rattle.text_faults.specs.Sing.{lone_sing, sing_judged};

use crate::known::{Known, voice_but};
use fux_grid::Cell;
use fux_text::{TextFault, TextKind, sung_in};
use std::alloc::Global;
use text_lines::Words;

/// Reads the voice and the items of a `sing` line of any voice but that of the cantus: its cells.
#[tactic(auto, unfolding(text_lines::specs::Rows::row_in))]
fn lone_sing(
    alloc: Global,
    known: Known,
    words: Words<'_>,
    bars: u8,
) -> Result<Vec<Cell>, TextFault>
    requires { 1 ≤ bars }
    ensures { Gives (λ x. x.items) result (row_in (lone_sing known bars) (words_of words.entry)) }
{
    let (word, words) = words.next(TextKind::Sing)?;
    if voice_but(word.text, known.cantus_voice, known.voices).is_none() {
        return Err(word.fault(TextKind::Sing));
    }
    sung_in(alloc, words, bars)
}

/// Judges a `sing` line, where the number of bars is known.
#[tactic(auto, unfolding(crate::specs::Sing::sing_judged))]
pub fn sing_judged(alloc: Global, known: Known, words: Words<'_>) -> Result<Known, TextFault>
    requires { IsPossible known }
    ensures value { Gives (λ x. x) result (sing_judged known (words_of words.entry)) }
    ensures possible { IfOk result IsPossible }
{
    let Some(bars) = known.bars else {
        return Ok(known);
    };
    lone_sing(alloc, known, words, bars)?;
    Ok(known)
}

//! A `given` line, judged by itself.

ghost use Rattle.std.specs.Prelude.{◌≡◌, IfOk};
ghost use Rattle.text_lines.specs.Faults.{Gives};
ghost use Rattle.text_lines.specs.Rows.{row_in};
ghost use Rattle.text_lines.specs.Words.{words_of};
ghost use Rattle.text_faults.specs.Given.{given_judged, lone_given};
ghost use Rattle.text_faults.specs.Known.{IsPossible};

use crate::known::{Known, voice_but};
use fux_grid::GivenBar;
use fux_text::{TextFault, TextKind, given_in};
use std::alloc::Global;
use text_lines::Words;

/// Reads the voice, the bar and the items of a `given` line of any voice but that of the cantus.
#[tactic(auto, unfolding(text_lines::specs::Rows::row_in, text_lines::specs::Reading::number_in))]
fn lone_given(
    alloc: Global,
    known: Known,
    words: Words<'_>,
    bars: u8,
) -> Result<GivenBar, TextFault>
    ensures { Gives (λ x. x) result (row_in (lone_given known bars) (words_of words.entry)) }
{
    let (word, words) = words.next(TextKind::Word)?;
    let Some(voice) = voice_but(word.text, known.cantus_voice, known.voices) else {
        return Err(word.fault(TextKind::Word));
    };
    let (bar, words) = words.small_number(TextKind::Word, 1, bars)?;
    given_in(alloc, words, voice, bar)
}

/// Judges a `given` line, where the number of bars is known.
#[tactic(auto, unfolding(crate::specs::Given::given_judged))]
pub fn given_judged(alloc: Global, known: Known, words: Words<'_>) -> Result<Known, TextFault>
    requires { IsPossible known }
    ensures value { Gives (λ x. x) result (given_judged known (words_of words.entry)) }
    ensures possible { IfOk result IsPossible }
{
    let Some(bars) = known.bars else {
        return Ok(known);
    };
    lone_given(alloc, known, words, bars)?;
    Ok(known)
}

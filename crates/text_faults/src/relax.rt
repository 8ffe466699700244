//! A `relax` line, judged by itself.

ghost use Rattle.std.specs.Prelude.{◌≡◌, IfOk};
ghost use Rattle.text_lines.specs.Faults.{Gives};
ghost use Rattle.text_lines.specs.Words.{words_of};
ghost use Rattle.text_faults.specs.Known.{IsPossible};
ghost use Rattle.text_faults.specs.Relax.{relax_judged};

use crate::known::Known;
use crate::range::bars_of;
use fux_text::{TextFault, relax_in};
use text_lines::Words;

/// Judges a `relax` line.
#[tactic(auto, unfolding(crate::specs::Relax::relax_judged))]
pub fn relax_judged(known: Known, words: Words<'_>) -> Result<Known, TextFault>
    requires { IsPossible known }
    ensures value { Gives (λ x. x) result (relax_judged known (words_of words.entry)) }
    ensures possible { IfOk result IsPossible }
{
    relax_in(words, known.voices, bars_of(known.bars))?;
    Ok(known)
}

//! A range line, judged by itself.

ghost use Rattle.std.specs.Prelude.{◌≡◌, IfOk};
ghost use Rattle.text_lines.specs.Faults.{Gives};
ghost use Rattle.text_lines.specs.Rows.{place_in, row_in};
ghost use Rattle.text_lines.specs.Words.{words_of};
ghost use Rattle.text_faults.specs.Known.{IsPossible};
ghost use Rattle.text_faults.specs.Range.{bars_of, free_place, has_bars, lone_range, range_behind, range_judged};

use crate::known::{Known, voice_but};
use fux_grid::RangeLine;
use fux_text::{TextFault, TextKind, bars_in, high_in, pitch_in};
use text_lines::Words;

/// Whether more than three words are left.
#[tactic(auto, unfolding(crate::specs::Range::has_bars))]
fn has_bars(words: Words<'_>) -> bool
    ensures { result ≡ has_bars (words_of words.entry) }
{
    let Some((_, words)) = words.first() else {
        return false;
    };
    let Some((_, words)) = words.first() else {
        return false;
    };
    let Some((_, words)) = words.first() else {
        return false;
    };
    words.first().is_some()
}

/// Reads any voice but that of the cantus.
fn voice_in(known: Known, words: Words<'_>) -> Result<(u8, Words<'_>), TextFault>
    ensures { Gives (λ x. (x.0, words_of x.1)) result
        (place_in (free_place known) (words_of words.entry)) }
{
    let (word, words) = words.next(TextKind::Range)?;
    match voice_but(word.text, known.cantus_voice, known.voices) {
        Some(voice) => Ok((voice, words)),
        None => Err(word.fault(TextKind::Range)),
    }
}

/// How many bars there are, or may be.
pub fn bars_of(bars: Option<u8>) -> u8
    ensures { result ≡ bars_of bars }
{
    match bars {
        Some(bars) => bars,
        None => 24,
    }
}

/// Reads the words of a range line behind its voice.
#[tactic(auto, unfolding(text_lines::specs::Rows::row_in))]
fn range_behind(words: Words<'_>, voice: u8, bars: u8, later: bool) -> Result<RangeLine, TextFault>
    ensures { Gives (λ x. x) result
        (row_in (range_behind bars later voice) (words_of words.entry)) }
{
    let (low, words) = pitch_in(words, TextKind::Range)?;
    let (high, words) = high_in(words, low)?;
    let line = RangeLine {
        voice,
        low,
        high,
        bars: None,
    };
    bars_in(words, later, bars, line)
}

/// Reads the words of a range line of any voice but that of the cantus.
#[tactic(auto, unfolding(text_lines::specs::Rows::row_in))]
fn lone_range(known: Known, words: Words<'_>, bars: u8, later: bool) -> Result<RangeLine, TextFault>
    ensures { Gives (λ x. x) result (row_in (lone_range known bars later) (words_of words.entry)) }
{
    let (voice, words) = voice_in(known, words)?;
    range_behind(words, voice, bars, later)
}

/// Judges a range line.
#[tactic(auto, unfolding(crate::specs::Range::range_judged))]
pub fn range_judged(known: Known, words: Words<'_>) -> Result<Known, TextFault>
    requires { IsPossible known }
    ensures value { Gives (λ x. x) result (range_judged known (words_of words.entry)) }
    ensures possible { IfOk result IsPossible }
{
    lone_range(known, words, bars_of(known.bars), has_bars(words))?;
    Ok(known)
}

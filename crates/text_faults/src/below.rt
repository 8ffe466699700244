//! The faults of the lines below the first fault.

ghost use Rattle.std.specs.Prelude.{◌≡◌, ◌∷◌, ◌++◌, IfOk, OnOk};
ghost use Rattle.text_lines.specs.Faults.{Gives};
ghost use Rattle.text_lines.specs.Lines.{lines_of};
ghost use Rattle.text_lines.specs.Words.{word_of, words_of};
ghost use Rattle.text_faults.specs.Below.{AreFrom, judged, known_behind, lines_judged, named_judged, told_below, told_of};
ghost use Rattle.text_faults.specs.Known.{IsPossible, nothing_known};

use crate::found::FoundFault;
use crate::given::given_judged;
use crate::head_lines::{
    bars_judged, cantus_judged, mode_judged, species_judged, version_judged, voices_judged,
};
use crate::known::{Known, nothing_known};
use crate::range::range_judged;
use crate::relax::relax_judged;
use crate::sing::sing_judged;
use fux_pitch::Memory;
use fux_text::{TextFault, TextKind};
use std::alloc::Global;
use text_lines::{Lines, Word, Words, is_same};

/// Judges a line by its first word.
fn named_judged(
    alloc: Global,
    known: Known,
    word: Word<'_>,
    words: Words<'_>,
) -> Result<Known, TextFault>
    requires { IsPossible known }
    ensures value { Gives (λ x. x) result
        (named_judged known (word_of word.entry) (words_of words.entry)) }
    ensures possible { IfOk result IsPossible }
{
    if is_same(word.text, b"sing") {
        sing_judged(alloc, known, words)
    } else if is_same(word.text, b"cantus") {
        cantus_judged(alloc, known, words)
    } else if is_same(word.text, b"range") {
        range_judged(known, words)
    } else if is_same(word.text, b"fux") {
        version_judged(known, words)
    } else if is_same(word.text, b"mode") {
        mode_judged(known, words)
    } else if is_same(word.text, b"voices") {
        voices_judged(known, words)
    } else if is_same(word.text, b"bars") {
        bars_judged(known, words)
    } else if is_same(word.text, b"species") {
        species_judged(known, words)
    } else if is_same(word.text, b"given") {
        given_judged(alloc, known, words)
    } else if is_same(word.text, b"relax") {
        relax_judged(known, words)
    } else {
        Err(word.fault(TextKind::Head))
    }
}

/// Judges a line by itself: what is known behind it, or its first fault.
#[tactic(auto, unfolding(crate::specs::Below::judged))]
fn judged(alloc: Global, known: Known, line: Words<'_>) -> Result<Known, TextFault>
    requires { IsPossible known }
    ensures value { Gives (λ x. x) result (judged known (words_of line.entry)) }
    ensures possible { IfOk result IsPossible }
{
    match line.first() {
        None => Ok(known),
        Some((word, words)) => named_judged(alloc, known, word, words),
    }
}

/// Judges a line, and appends its fault where it stands behind the line of a number: what is known
/// behind it.
fn take_line(
    alloc: Global,
    faults: &mut Vec<FoundFault>,
    first: u32,
    known: Known,
    line: Words<'_>,
) -> Result<Known, Memory>
    requires { IsPossible known }
    ensures known { IfOk result (λ more.
        more ≡ known_behind known (judged known (words_of line.entry))) }
    ensures told { OnOk result (faults.new.items ≡ faults.old.items
        ++ told_of first (judged known (words_of line.entry))) }
    ensures possible { IfOk result IsPossible }
{
    match judged(alloc, known, line) {
        Ok(more) => Ok(more),
        Err(TextFault::At { kind, line, column }) => {
            if first < line {
                faults.push(FoundFault { kind, line, column })?;
            }
            Ok(known)
        }
        Err(TextFault::Memory) => Err(Memory),
    }
}

/// Appends what is told of lines behind the line of a number.
fn push_below(
    alloc: Global,
    faults: &mut Vec<FoundFault>,
    first: u32,
    text: Lines<'_>,
) -> Result<(), Memory>
    ensures { OnOk result (faults.new.items ≡ faults.old.items
        ++ told_below first nothing_known (lines_of text.entry).lines) }
{
    let mut known = nothing_known();
    let mut rest = text;
    while let Some((line, behind)) = rest.first() {
        known = take_line(alloc, faults, first, known, line)?;
        rest = behind;
    }
    Ok(())
}

/// The first fault of a text, and what is told of the lines behind it.
#[tactic(auto, unfolding(crate::specs::Below::lines_judged))]
fn told_from(alloc: Global, bytes: &[u8], first: FoundFault) -> Result<Vec<FoundFault>, Memory>
    ensures { IfOk result (λ faults. faults.items
        ≡ first ∷ told_below first.line nothing_known (lines_judged bytes.now)) }
{
    let mut faults = Vec::new(alloc);
    faults.push(first)?;
    match Lines::of_text(bytes, TextKind::TooLong, TextKind::NotUtf8) {
        Ok(text) => push_below(alloc, &mut faults, first.line, text)?,
        Err(TextFault::At { .. }) => {}
        Err(TextFault::Memory) => return Err(Memory),
    }
    Ok(faults)
}

/// The faults of a text, of which the first is given: that one, and then of each later line its own
/// first fault, where the line can be judged by itself.
pub fn faults_from(
    alloc: Global,
    bytes: &[u8],
    first: FoundFault,
) -> Result<Vec<FoundFault>, Memory>
    ensures { IfOk result (λ faults. AreFrom first bytes.now faults.items) }
{
    let faults = told_from(alloc, bytes, first)?;
    Ok(faults)
}

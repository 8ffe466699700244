//! Given notes by lines.

use crate::score::pitch_of;
use fux_grid::{Given, GivenBar};
use std::alloc::Global;

/// What is given of a cell: `?` for nothing, `r` for a rest, `_` for a tie, a pitch behind `-`
/// where it goes on and behind `+` where it starts.
fn given_of(word: &str) -> Option<Given> {
    Some(match word {
        "?" => Given::Blank,
        "r" => Given::Rest,
        "_" => Given::Tied,
        _ => match word.strip_prefix("-") {
            Some(name) => Given::Hold(pitch_of(name)?),
            None => Given::Start(pitch_of(word.strip_prefix("+")?)?),
        },
    })
}

/// A line as `1 2 +A4 -A4 ? ? ? ? ? ?`: a voice, a bar, and its eight cells.
fn given_bar(line: &str) -> Option<GivenBar> {
    let mut words = line.split(' ');
    let voice = words.next()?.parse::<u8>().ok()?;
    let bar = words.next()?.parse::<u8>().ok()?;
    let mut cells = [Given::Blank; 8];
    for cell in &mut cells {
        *cell = given_of(words.next()?)?;
    }
    Some(GivenBar { voice, bar, cells })
}

/// The lines that begin with `given`.
pub(crate) fn given_bars(alloc: Global, text: &str) -> Option<Vec<GivenBar>> {
    let mut bars = Vec::new(alloc);
    for line in text.lines() {
        if let Some(line) = line.strip_prefix("given ") {
            bars.push(given_bar(line)?).ok()?;
        }
    }
    Some(bars)
}

//! The notes of a file.

ghost use Rattle.std.specs.Prelude.{◌+◌, ◌*◌, ◌≡◌, ◌<◌, ◌≤◌, ◌++◌, ◌∷◌, List, All, IfOk, OnOk, IfSome, reverse, [], length};
ghost use Rattle.std.specs.Option.{option_to_list};
ghost use Rattle.smf_score.specs.declared.strokes.Stroke.{Stroke as AStroke};
ghost use Rattle.smf_score.specs.Strokes.{IsStroke};
ghost use Rattle.smf_score.specs.Played.{AreEarly, AreEnds, IsPlayed, note_of, notes_in};

use crate::strokes::{Act, Stroke};
use std::alloc::{AllocError, Global};

/// The number of channels times that of keys.
const ENDS: usize = 2048;

/// How the notes of a file are voices: its format, and whether the highest voice comes first.
#[derive(Clone, Copy)]
pub struct Layout {
    pub format: u16,
    pub top_first: bool,
}

/// A note of a file: the rank of its voice, the track that a fault names, the ticks at which it
/// starts and ends, and its key.
#[derive(Clone, Copy)]
pub struct Played {
    pub rank: u16,
    pub track: u16,
    pub start: u64,
    pub end: u64,
    pub key: u8,
}

/// The place of a channel and a key in the table of ends.
fn place(channel: u8, key: u8) -> usize
    requires channel { channel < 16 }
    requires key { key < 128 }
    ensures value { result ≡ 128 * channel + key }
    ensures within { result < 2048 }
{
    128 * usize::from(channel) + usize::from(key)
}

/// The note that a stroke begins, where the table has the ends of the strokes behind it.
fn note_of_stroke(layout: Layout, stroke: &Stroke, ends: &[u64]) -> Option<Played>
    requires stroke { IsStroke stroke.now }
    requires size { length ends.now ≡ 2048 }
    requires early { AreEarly ends.now }
    ensures value { (later : List AStroke) → AreEnds later ends.now → result
        ≡ note_of layout stroke.now later }
    ensures bounds { IfSome result IsPlayed }
{
    let Act::Strike { channel, key } = stroke.act else {
        return None;
    };
    let (part, track) = if layout.format == 0 {
        (u16::from(channel), 0)
    } else {
        (stroke.track, stroke.track)
    };
    Some(Played {
        rank: if layout.top_first {
            u16::MAX - part
        } else {
            part
        },
        track,
        start: stroke.tick,
        end: ends[place(channel, key)],
        key,
    })
}

/// Enters a stroke before those of which the table has the ends.
fn enter(ends: &mut [u64], stroke: &Stroke)
    requires stroke { IsStroke stroke.now }
    requires size { length ends.old ≡ 2048 }
    ensures early { AreEarly ends.old → AreEarly ends.new }
    ensures ends { (later : List AStroke) → AreEnds later ends.old → AreEnds (stroke.now ∷ later)
        ends.new }
{
    match stroke.act {
        Act::Strike { channel, key } => ends[place(channel, key)] = stroke.tick,
        Act::Release { channel, key } => ends[place(channel, key)] = stroke.tick,
        Act::End => {
            for i in 0..ends.len() {
                ends[i] = stroke.tick;
            }
        }
        Act::Nothing => {}
    }
}

/// Appends a note, if there is one.
fn push_some(notes: &mut Vec<Played>, note: Option<Played>) -> Result<(), AllocError>
    requires bounds { IfSome note IsPlayed }
    ensures ok { OnOk result (notes.new.items ≡ notes.old.items ++ option_to_list note) }
    ensures bounds { All IsPlayed notes.old.items → All IsPlayed notes.new.items }
{
    if let Some(note) = note {
        notes.push(note)?;
    }
    Ok(())
}

/// The notes of a file, the last one that is struck first. The table of ends is empty before.
fn notes_backward(
    alloc: Global,
    layout: Layout,
    strokes: &[Stroke],
    ends: &mut [u64],
) -> Result<Vec<Played>, AllocError>
    requires strokes { All IsStroke strokes.now }
    requires ends { AreEnds [] ends.old }
    requires early { AreEarly ends.old }
    ensures value { IfOk result (λ notes. notes.items ≡ reverse (notes_in layout strokes.now)) }
    ensures bounds { IfOk result (λ notes. All IsPlayed notes.items) }
{
    let mut notes = Vec::new(alloc);
    let mut i = strokes.len();
    while i > 0 {
        i -= 1;
        push_some(&mut notes, note_of_stroke(layout, &strokes[i], ends))?;
        enter(ends, &strokes[i]);
    }
    Ok(notes)
}

/// The notes of a file in the order in which they are struck.
pub fn notes_of(
    alloc: Global,
    layout: Layout,
    strokes: &[Stroke],
) -> Result<Vec<Played>, AllocError>
    requires { All IsStroke strokes.now }
    ensures value { IfOk result (λ notes. notes.items ≡ notes_in layout strokes.now) }
    ensures bounds { IfOk result (λ notes. All IsPlayed notes.items) }
{
    let mut ends = vec![in alloc; 0u64; ENDS]?;
    let mut notes = notes_backward(alloc, layout, strokes, &mut ends)?;
    notes.reverse();
    Ok(notes)
}

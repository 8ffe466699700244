//! The file that is written of a score.

ghost use Rattle.std.specs.Prelude.{◌≡◌, ◌≤◌, ◌<◌, ◌+◌, ◌^◌, ◌++◌, ◌∷◌, [], IfOk, OnOk, length};
ghost use Rattle.fux_grid.specs.Columns.{line};
ghost use Rattle.fux_grid.specs.Exercises.{IsComplete};
ghost use Rattle.smf_score.specs.Lines.{holds_ahead, notes_of};
ghost use Rattle.smf_score.specs.Written.{chunk_bytes, end_bytes, note_bytes, notes_bytes, header_bytes, key_bytes, quantity, smf_of, tempo_bytes, track_bytes};

use fux_grid::{Cell, Exercise, Score};
use fux_pitch::{Memory, semitone};
use std::alloc::Global;

/// `MThd`, the type of the header.
const HEADER: u32 = 0x4D54_6864;

/// `MTrk`, the type of a track.
const TRACK: u32 = 0x4D54_726B;

/// The end of a track, at once.
const END: [u8; 4] = [0, 0xFF, 0x2F, 0];

/// How many ticks a slot of the grid has: a quarter note has 480.
const SLOT_TICKS: u32 = 240;

/// Appends a quantity with the fewest bytes.
fn push_quantity(out: &mut Vec<u8>, n: u32) -> Result<(), Memory>
    requires { n < 2 ^ 21 }
    ensures ok { OnOk result (out.new.items ≡ out.old.items ++ quantity n) }
{
    let last = (n % 128) as u8;
    if n < 128 {
        out.push(last)?;
    } else if n < 16384 {
        out.extend_from_slice(&[128 + (n / 128) as u8, last])?;
    } else {
        let first = 128 + (n / 16384) as u8;
        out.extend_from_slice(&[first, 128 + (n / 128 % 128) as u8, last])?;
    }
    Ok(())
}

/// Appends a chunk.
fn push_chunk(out: &mut Vec<u8>, kind: u32, bytes: &[u8]) -> Result<(), Memory>
    requires { length bytes.now < 2 ^ 32 }
    ensures ok { OnOk result (out.new.items ≡ out.old.items ++ chunk_bytes kind bytes.now) }
{
    out.extend_from_slice(&kind.to_be_bytes())?;
    out.extend_from_slice(&(bytes.len() as u32).to_be_bytes())?;
    out.extend_from_slice(bytes)?;
    Ok(())
}

/// Appends a message with a status of a key, so many slots after the one before it.
fn push_key(out: &mut Vec<u8>, wait: u32, status: u8, key: u8) -> Result<(), Memory>
    requires { wait ≤ 1000 }
    ensures ok { OnOk result (out.new.items ≡ out.old.items ++ key_bytes wait status key) }
{
    push_quantity(out, SLOT_TICKS * wait)?;
    out.extend_from_slice(&[status, key, 0x40])?;
    Ok(())
}

/// Appends a note of a voice that starts so many slots after the end of the one before.
fn push_note(out: &mut Vec<u8>, v: u8, wait: u32, len: u32, key: u8) -> Result<(), Memory>
    requires voice { v < 16 }
    requires wait { wait < 1000 }
    requires len { len < 1000 }
    ensures ok { OnOk result (out.new.items ≡ out.old.items ++ note_bytes v wait len key) }
{
    push_key(out, wait, 0x90 + v, key)?;
    push_key(out, len, 0x80 + v, key)
}

/// The cells of a voice.
fn line_of(alloc: Global, score: &Score, v: u8) -> Result<Vec<Cell>, Memory>
    ensures { IfOk result (λ cells. cells.items ≡ line v score.now.columns) }
{
    let mut cells = Vec::with_capacity(alloc, score.len())?;
    for i in 0..score.len() {
        cells.push(score.cell(v as usize, i))?;
    }
    Ok(cells)
}

/// How many holds stand at the front of a line.
fn holds_ahead(cells: &[Cell]) -> usize
    ensures value { result ≡ holds_ahead cells.now }
    ensures within { result ≤ length cells.now }
{
    let mut holds = 0;
    let mut rest = cells;
    while let Some((Cell::Hold(_), later)) = rest.split_first() {
        holds += 1;
        rest = later;
    }
    holds
}

/// Appends the note that starts in a cell, if one does, before these later ones. The cell stands at
/// a column, and the note before ends at column `ended`; the answer is where the last one ends now.
fn push_cell(
    out: &mut Vec<u8>,
    v: u8,
    cell: Cell,
    later: &[Cell],
    at: usize,
    ended: usize,
) -> Result<usize, Memory>
    requires voice { v < 16 }
    requires few { at + length later.now < 192 }
    requires ended { ended ≤ at + holds_ahead (cell ∷ later.now) }
    ensures bytes { IfOk result (λ after. out.new.items ++ notes_bytes v after
        (notes_of (at + 1) later.now) ≡ out.old.items ++ notes_bytes v ended
        (notes_of at (cell ∷ later.now))) }
    ensures ended { IfOk result (λ after. after ≤ at + 1 + holds_ahead later.now) }
    ensures short { OnOk result (length out.new.items ≤ length out.old.items + 12) }
{
    match cell {
        Cell::Start(pitch) => {
            let len = 1 + holds_ahead(later);
            push_note(out, v, (at - ended) as u32, len as u32, semitone(pitch))?;
            Ok(at + len)
        }
        _ => Ok(ended),
    }
}

/// The notes of a line as the bytes of the track of a voice, and its end.
fn voice_bytes(alloc: Global, cells: &[Cell], v: u8) -> Result<Vec<u8>, Memory>
    requires voice { v < 16 }
    requires few { length cells.now ≤ 192 }
    ensures bytes { IfOk result (λ out. out.items ≡ notes_bytes v 0 (notes_of 0 cells.now)
        ++ end_bytes) }
    ensures short { IfOk result (λ out. length out.items < 2 ^ 32) }
{
    let mut out = Vec::new(alloc);
    let mut rest = cells;
    let mut at = 0;
    let mut ended = 0;
    while let Some((cell, later)) = rest.split_first() {
        ended = push_cell(&mut out, v, *cell, later, at, ended)?;
        at += 1;
        rest = later;
    }
    out.extend_from_slice(&END)?;
    Ok(out)
}

/// Appends the header of a file of so many tracks, and the track of its tempo.
fn push_head(out: &mut Vec<u8>, tracks: u8) -> Result<(), Memory>
    ensures ok { OnOk result (out.new.items ≡ out.old.items ++ header_bytes tracks ++ tempo_bytes) }
{
    let count = u16::from(tracks).to_be_bytes();
    push_chunk(out, HEADER, &[0, 1, count[0], count[1], 1, 0xE0])?;
    push_chunk(
        out,
        TRACK,
        &[
            0, 0xFF, 0x51, 3, 0x07, 0xA1, 0x20, 0, 0xFF, 0x58, 4, 4, 2, 24, 8, 0, 0xFF, 0x2F, 0,
        ],
    )?;
    Ok(())
}

/// The MIDI file of a complete score: format 1, a track of its tempo, and one for each voice from
/// the lowest.
pub fn to_smf(alloc: Global, ex: &Exercise, score: &Score) -> Result<Vec<u8>, Memory>
    requires { IsComplete ex.now score.now }
    ensures { IfOk result (λ bytes. bytes.items ≡ smf_of score.now) }
{
    score.kept();
    let mut out = Vec::new(alloc);
    push_head(&mut out, ex.voices + 1)?;
    for v in 0..ex.voices {
        let cells = line_of(alloc, score, v)?;
        let bytes = voice_bytes(alloc, &cells, v)?;
        push_chunk(&mut out, TRACK, &bytes)?;
    }
    Ok(out)
}

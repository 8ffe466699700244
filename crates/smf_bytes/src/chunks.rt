//! The chunks of a file, and what its header says.

ghost use Rattle.std.specs.Prelude.{◌+◌, ◌≤◌, ◌<◌, ℕ, List, length, IfOk, MatchResult};
ghost use Rattle.smf_bytes.specs.Numbers.{Gives};
ghost use Rattle.smf_bytes.specs.Chunks.{checked_row, chunk_row, chunk_seen, fields_row, header_in, header_row};
ghost use Rattle.smf_bytes.specs.Files.{IsTrack, IsTrackFault};
ghost use Rattle.smf_bytes.specs.Rows.{row_in};

use crate::fault::ByteFault;
use crate::numbers::{bytes_of, u16_of, u32_of};

/// `MThd`, the type of the header.
const HEADER: u32 = 0x4D54_6864;

/// `MTrk`, the type of a track.
const TRACK: u32 = 0x4D54_726B;

/// What the header says: the format, how many tracks there are, and how many ticks a quarter note
/// has.
#[derive(Clone, Copy)]
pub(crate) struct Header {
    pub(crate) format: u16,
    pub(crate) tracks: u16,
    pub(crate) division: u16,
}

/// A chunk: its type, its bytes, and what follows it.
#[derive(Clone, Copy)]
pub(crate) struct Chunk<'a> {
    pub(crate) kind: u32,
    pub(crate) bytes: &'a [u8],
    pub(crate) rest: &'a [u8],
}

/// The chunk at the front.
#[tactic(auto, unfolding(crate::specs::Rows::row_in))]
fn chunk_of(size: usize, bytes: &[u8]) -> Result<Chunk<'_>, ByteFault>
    ensures value { Gives chunk_seen result (row_in chunk_row size bytes.now) }
    ensures shorter { IfOk result (λ chunk. length chunk.bytes.now + length chunk.rest.now
        < length bytes.now) }
{
    let (kind, rest) = u32_of(size, bytes)?;
    let (count, rest) = u32_of(size, rest)?;
    let (bytes, rest) = bytes_of(size, count as usize, rest)?;
    Ok(Chunk { kind, bytes, rest })
}

/// The chunk of the next track. Chunks of other types are passed over.
pub(crate) fn track_of(size: usize, bytes: &[u8]) -> Result<Chunk<'_>, ByteFault>
    ensures value { MatchResult result (λ chunk. IsTrack bytes.now chunk.bytes.now chunk.rest.now)
        (λ fault. IsTrackFault size bytes.now fault) }
    ensures shorter { IfOk result (λ chunk. length chunk.bytes.now + length chunk.rest.now
        < length bytes.now) }
{
    let mut rest = bytes;
    while !rest.is_empty() {
        let chunk = chunk_of(size, rest)?;
        if chunk.kind == TRACK {
            return Ok(chunk);
        }
        rest = chunk.rest;
    }
    Err(ByteFault::Truncated { at: size })
}

/// The header, where its format and its division are read.
#[tactic(auto, unfolding(crate::specs::Rows::row_in))]
fn checked_header(header: Header) -> Result<Header, ByteFault>
    ensures value { (size : ℕ) (rest : List ℕ) → Gives (λ h. (h, rest)) result
        (row_in (checked_row header) size rest) }
    ensures ticks { IfOk result (λ h. 0 < h.division) }
{
    if header.format > 2 {
        return Err(ByteFault::Chunk { at: 8 });
    }
    if header.format == 2 {
        return Err(ByteFault::Format2);
    }
    if header.division == 0 {
        return Err(ByteFault::Chunk { at: 12 });
    }
    if header.division >= 0x8000 {
        return Err(ByteFault::Smpte);
    }
    Ok(header)
}

/// The header in its chunk's bytes, and what stands behind its numbers.
#[tactic(auto, unfolding(crate::specs::Rows::row_in))]
fn fields_of(size: usize, bytes: &[u8]) -> Result<(Header, &[u8]), ByteFault>
    ensures value { Gives (λ x. (x.0, x.1.now)) result (row_in fields_row size bytes.now) }
    ensures ticks { IfOk result (λ x. 0 < x.0.division) }
{
    let (format, bytes) = u16_of(size, bytes)?;
    let (tracks, bytes) = u16_of(size, bytes)?;
    let (division, bytes) = u16_of(size, bytes)?;
    let header = checked_header(Header {
        format,
        tracks,
        division,
    })?;
    Ok((header, bytes))
}

/// The bytes of the header's chunk, and what follows it.
#[tactic(auto, unfolding(crate::specs::Rows::row_in))]
fn header_chunk(size: usize, bytes: &[u8]) -> Result<(&[u8], &[u8]), ByteFault>
    ensures value { Gives (λ x. (x.0.now, x.1.now)) result (row_in header_row size bytes.now) }
    ensures shorter { IfOk result (λ x. length x.1.now ≤ length bytes.now) }
{
    let (kind, rest) = u32_of(size, bytes)?;
    if kind != HEADER {
        return Err(ByteFault::Chunk { at: 0 });
    }
    let (count, rest) = u32_of(size, rest)?;
    if count < 6 {
        return Err(ByteFault::Chunk { at: 4 });
    }
    bytes_of(size, count as usize, rest)
}

/// The header of a file of so many bytes, and what follows it.
#[tactic(auto, unfolding(crate::specs::Chunks::header_in))]
pub(crate) fn header_of(size: usize, bytes: &[u8]) -> Result<(Header, &[u8]), ByteFault>
    ensures value { Gives (λ x. (x.0, x.1.now)) result (header_in size bytes.now) }
    ensures ticks { IfOk result (λ x. 0 < x.0.division) }
    ensures shorter { IfOk result (λ x. length x.1.now ≤ length bytes.now) }
{
    if bytes.len() < 4 {
        return Err(ByteFault::Chunk { at: 0 });
    }
    let (body, rest) = header_chunk(size, bytes)?;
    let (header, _) = fields_of(size, body)?;
    Ok((header, rest))
}

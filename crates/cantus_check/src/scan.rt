//! Reading the text of a head, piece by piece. Each function reads what stands at the front of the
//! bytes and gives the bytes behind it, or says how many bytes are left where no such text goes on.
//! Pitches are put behind those that were read.

ghost use Rattle.std.specs.Prelude.{◌≡◌, ◌+◌, ◌≤◌, [], IfErr, IfOk, length, vec_capacity};
ghost use Rattle.cert_text.specs.Pieces.{Reads, Stops};
ghost use Rattle.cantus_check.specs.Rows.{Between, BestRow, HeadRow, KindsRow, Names, ReadsBest, ReadsNames, said_of};

use cert_text::{fixed, next, number_line, pitch};
use fux_pitch::Pitch;

/// How many pitches a cantus has at least.
const FEWEST_PITCHES: u8 = 3;

/// How many pitches a cantus has at most.
pub const MOST_PITCHES: u8 = 24;

/// Reads what stands between two names or behind the last one, where so many are owed: whether
/// another one comes.
fn between(bytes: &[u8], owed: u8) -> Result<(bool, &[u8]), usize>
    ensures ok { IfOk result (λ found. Reads (Between owed) bytes.now found.0 found.1.now) }
    ensures err { IfErr result (λ left. Stops (Between owed) bytes.now left) }
{
    let Some((byte, rest)) = next(bytes) else {
        return Err(0);
    };
    if byte == b' ' {
        return Ok((true, rest));
    }
    if byte == b'\n' && owed == 0 {
        return Ok((false, rest));
    }
    Err(bytes.len())
}

/// Reads the names of pitches through the end of their line: no fewer than are owed, and no more
/// than may come.
fn names<'a>(
    bytes: &'a [u8],
    owed: u8,
    most: u8,
    pitches: &mut Vec<Pitch>,
) -> Result<&'a [u8], usize>
    requires room { length pitches.old.items + most ≤ vec_capacity pitches.old }
    ensures ok { IfOk result
        (λ rest. ReadsNames owed most bytes.now pitches.old.items pitches.new.items rest.now) }
    ensures err { IfErr result (λ left. Stops (Names owed most) bytes.now left) }
{
    if most == 0 {
        return fixed(bytes, b"\n");
    }
    let (goes, behind) = between(bytes, owed)?;
    if !goes {
        return Ok(behind);
    }
    let (pitch, more) = pitch(behind)?;
    pitches.push_reserved(pitch);
    names(more, owed.saturating_sub(1), most - 1, pitches)
}

/// Reads what follows the `b` of `best`: the penalty and the cantus.
fn best<'a>(bytes: &'a [u8], pitches: &mut Vec<Pitch>) -> Result<(u64, &'a [u8]), usize>
    requires empty { pitches.old.items ≡ [] }
    requires room { vec_capacity pitches.old ≡ 24 }
    ensures ok { IfOk result (λ found. ReadsBest bytes.now found.0 pitches.new.items found.1.now) }
    ensures err { IfErr result (λ left. Stops BestRow bytes.now left) }
{
    let digits = fixed(bytes, b"est ")?;
    let (penalty, line) = number_line(digits)?;
    let spaced = fixed(line, b"cantus")?;
    let behind = names(spaced, FEWEST_PITCHES, MOST_PITCHES, pitches)?;
    let rest = fixed(behind, b"claims\n")?;
    Ok((penalty, rest))
}

/// Reads the second line and those behind it.
fn kind<'a>(bytes: &'a [u8], pitches: &mut Vec<Pitch>) -> Result<(Option<u64>, &'a [u8]), usize>
    requires empty { pitches.old.items ≡ [] }
    requires room { vec_capacity pitches.old ≡ 24 }
    ensures ok { IfOk result (λ found. Reads KindsRow bytes.now (said_of found.0 pitches.new.items)
        found.1.now) }
    ensures err { IfErr result (λ left. Stops KindsRow bytes.now left) }
{
    let Some((byte, behind)) = next(bytes) else {
        return Err(0);
    };
    if byte == b'b' {
        let (penalty, rest) = best(behind, pitches)?;
        return Ok((Some(penalty), rest));
    }
    if byte == b'n' {
        let rest = fixed(behind, b"one\nclaims\n")?;
        return Ok((None, rest));
    }
    Err(bytes.len())
}

/// Reads a head.
pub fn scan_head<'a>(
    bytes: &'a [u8],
    pitches: &mut Vec<Pitch>,
) -> Result<(Option<u64>, &'a [u8]), usize>
    requires empty { pitches.old.items ≡ [] }
    requires room { vec_capacity pitches.old ≡ 24 }
    ensures ok { IfOk result (λ found. Reads HeadRow bytes.now (said_of found.0 pitches.new.items)
        found.1.now) }
    ensures err { IfErr result (λ left. Stops HeadRow bytes.now left) }
{
    let second = fixed(bytes, b"fux-cantus-cert 1\n")?;
    kind(second, pitches)
}

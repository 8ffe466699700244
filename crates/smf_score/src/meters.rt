//! How long the bars of a file are.

ghost use Rattle.std.specs.Prelude.{◌≡◌, ◌<◌, ◌≤◌, IfOk, IfSome};
ghost use Rattle.smf_bytes.specs.Events.{timed_seen};
ghost use Rattle.smf_score.specs.Meters.{all_have, begins_short, has_wholes, is_one_bar, meter_in, signature_in, signature_of, unit_of, wholes_of, wholes_or_one};

use crate::join_fault::JoinFault;
use smf_bytes::{Event, Kind};

/// A time signature of a file: the tick at which it stands, how many notes a bar has, and which
/// power of two of them make a whole note.
#[derive(Clone, Copy)]
pub(crate) struct Signature {
    pub(crate) tick: u64,
    pub(crate) count: u8,
    pub(crate) power: u8,
}

/// The number of a meta event that is a time signature.
const SIGNATURE: u8 = 0x58;

/// The signature that the bytes of a meta event are.
fn signature_in(tick: u64, bytes: &[u8]) -> Option<Signature>
    ensures { result ≡ signature_in tick bytes.now }
{
    let (count, rest) = bytes.split_first()?;
    let (power, _) = rest.split_first()?;
    Some(Signature {
        tick,
        count: *count,
        power: *power,
    })
}

/// The signature that an event is.
pub(crate) fn signature_of(event: Event<'_>) -> Option<Signature>
    ensures { result ≡ signature_of event.entry.tick (timed_seen event.entry).message }
{
    match event.kind {
        Kind::Meta { number, bytes } => {
            if number == SIGNATURE {
                signature_in(event.tick, bytes)
            } else {
                None
            }
        }
        Kind::Off { .. } => None,
        Kind::On { .. } => None,
        Kind::Other { .. } => None,
        Kind::System { .. } => None,
    }
}

/// How many whole notes a bar has, where a lesson may have such bars.
fn wholes_of(signature: Signature) -> Option<u32>
    ensures value { result ≡ wholes_of signature }
    ensures most { IfSome result (λ wholes. wholes ≤ 2) }
    ensures least { IfSome result (λ wholes. 0 < wholes) }
{
    if signature.count == 4 && signature.power == 2 {
        Some(1)
    } else if signature.count == 2 && signature.power == 1 {
        Some(1)
    } else if signature.count == 4 && signature.power == 1 {
        Some(2)
    } else {
        None
    }
}

/// How many of its notes make a whole note, 32,768 at most.
fn unit_of(signature: Signature) -> u32
    ensures value { result ≡ unit_of signature }
    ensures most { result ≤ 32768 }
{
    1 << signature.power.min(15)
}

/// Whether a signature stands where just one bar of another has gone by.
fn is_one_bar(division: u16, first: Signature, second: Signature) -> bool
    ensures { result ≡ is_one_bar division first second }
{
    let bar = 4 * u64::from(first.count) * u64::from(division);
    match second.tick.checked_mul(u64::from(unit_of(first))) {
        Some(ticks) => ticks == bar,
        None => false,
    }
}

/// Whether signatures begin with just one bar that no lesson has, and go on in one that a lesson
/// may have.
fn begins_short(division: u16, signatures: &[Signature]) -> bool
    ensures { result ≡ begins_short division signatures.now }
{
    let Some((first, later)) = signatures.split_first() else {
        return false;
    };
    let Some((second, _)) = later.split_first() else {
        return false;
    };
    first.tick == 0
        && wholes_of(*first).is_none()
        && wholes_of(*second).is_some()
        && is_one_bar(division, *first, *second)
}

/// Whether the bars of a signature have so many whole notes.
fn has_wholes(wholes: u32, signature: Signature) -> bool
    ensures { result ≡ has_wholes wholes signature }
{
    match wholes_of(signature) {
        Some(own) => own == wholes,
        None => false,
    }
}

/// How many whole notes the bars of a signature have, or one where no lesson has such bars.
fn wholes_or_one(signature: Signature) -> u32
    ensures value { result ≡ wholes_or_one signature }
    ensures least { 0 < result }
    ensures most { result ≤ 2 }
{
    match wholes_of(signature) {
        Some(wholes) => wholes,
        None => 1,
    }
}

/// So many whole notes where the bars of all signatures have them; or the first that hasn't.
fn all_have(wholes: u32, signatures: &[Signature]) -> Result<u32, JoinFault>
    ensures value { result ≡ all_have wholes signatures.now }
    ensures own { IfOk result (λ n. n ≡ wholes) }
{
    for signature in signatures {
        if !has_wholes(wholes, *signature) {
            return Err(JoinFault::Meter {
                count: signature.count,
                unit: unit_of(*signature),
            });
        }
    }
    Ok(wholes)
}

/// How many whole notes the bars of a file of these signatures have, of which a quarter note has so
/// many ticks.
pub(crate) fn meter_of(division: u16, signatures: &[Signature]) -> Result<u32, JoinFault>
    ensures value { result ≡ meter_in division signatures.now }
    ensures least { IfOk result (λ wholes. 0 < wholes) }
    ensures most { IfOk result (λ wholes. wholes ≤ 2) }
{
    let Some((first, _)) = signatures.split_first() else {
        return Ok(1);
    };
    if begins_short(division, signatures) {
        return Err(JoinFault::Pickup);
    }
    all_have(wholes_or_one(*first), signatures)
}

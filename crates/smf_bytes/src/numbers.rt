//! Numbers at the front of bytes. A reader answers what it read, and the bytes behind it.

ghost use Rattle.std.specs.Prelude.{◌≡◌, ◌+◌, ◌-◌, ◌*◌, ◌<◌, ◌≤◌, ◌^◌, length, IfOk};
ghost use Rattle.std.specs.Int.{w16, w32};
ghost use Rattle.smf_bytes.specs.Numbers.{Gives, byte_in, bytes_in, data_in, number_in, quantity_in};

use crate::fault::ByteFault;

/// The first byte; `end` is the offset at which the bytes end.
pub(crate) fn byte_of(end: usize, bytes: &[u8]) -> Result<(u8, &[u8]), ByteFault>
    ensures value { Gives (λ x. (x.0, x.1.now)) result (byte_in end bytes.now) }
    ensures shorter { IfOk result (λ x. length x.1.now < length bytes.now) }
{
    match bytes {
        [] => Err(ByteFault::Truncated { at: end }),
        [byte, rest @ ..] => Ok((*byte, rest)),
    }
}

/// A data byte of a message.
pub(crate) fn data_of(end: usize, bytes: &[u8]) -> Result<(u8, &[u8]), ByteFault>
    requires { length bytes.now ≤ end }
    ensures value { Gives (λ x. (x.0, x.1.now)) result (data_in end bytes.now) }
    ensures bound { IfOk result (λ x. x.0 < 128) }
    ensures shorter { IfOk result (λ x. length x.1.now < length bytes.now) }
{
    let (byte, rest) = byte_of(end, bytes)?;
    if byte >= 128 {
        return Err(ByteFault::Status {
            at: end - bytes.len(),
        });
    }
    Ok((byte, rest))
}

/// So many bytes.
pub(crate) fn bytes_of(end: usize, count: usize, bytes: &[u8]) -> Result<(&[u8], &[u8]), ByteFault>
    ensures value { Gives (λ x. (x.0.now, x.1.now)) result (bytes_in end count bytes.now) }
    ensures shorter { IfOk result (λ x. length x.0.now + length x.1.now ≡ length bytes.now) }
{
    if bytes.len() < count {
        return Err(ByteFault::Truncated { at: end });
    }
    Ok(bytes.split_at(count))
}

/// Two bytes as a number, the greater first.
pub(crate) fn u16_of(end: usize, bytes: &[u8]) -> Result<(u16, &[u8]), ByteFault>
    ensures value { Gives (λ x. (x.0, x.1.now)) result (number_in w16 end bytes.now) }
    ensures shorter { IfOk result (λ x. length x.1.now < length bytes.now) }
{
    if bytes.len() < 2 {
        return Err(ByteFault::Truncated { at: end });
    }
    let (front, rest) = bytes.split_at(2);
    Ok((u16::from_be_bytes([front[0], front[1]]), rest))
}

/// Four bytes as a number, the greatest first.
pub(crate) fn u32_of(end: usize, bytes: &[u8]) -> Result<(u32, &[u8]), ByteFault>
    ensures value { Gives (λ x. (x.0, x.1.now)) result (number_in w32 end bytes.now) }
    ensures shorter { IfOk result (λ x. length x.1.now < length bytes.now) }
{
    if bytes.len() < 4 {
        return Err(ByteFault::Truncated { at: end });
    }
    let (front, rest) = bytes.split_at(4);
    Ok((
        u32::from_be_bytes([front[0], front[1], front[2], front[3]]),
        rest,
    ))
}

/// A quantity of one to four bytes, seven bits in each.
#[tactic(auto, using(crate::proofs::QuantityLemmas::digit_steps))]
pub(crate) fn quantity_of(end: usize, bytes: &[u8]) -> Result<(u32, &[u8]), ByteFault>
    requires { length bytes.now ≤ end }
    ensures value { Gives (λ x. (x.0, x.1.now)) result (quantity_in end bytes.now) }
    ensures bound { IfOk result (λ x. x.0 < 2 ^ 28) }
    ensures shorter { IfOk result (λ x. length x.1.now < length bytes.now) }
{
    let begin = end - bytes.len();
    let mut high = 0;
    let mut rest = bytes;
    for _ in 0..4u8 {
        let (byte, after) = byte_of(end, rest)?;
        if byte < 128 {
            return Ok((128 * high + u32::from(byte), after));
        }
        high = 128 * high + u32::from(byte - 128);
        rest = after;
    }
    Err(ByteFault::LongNumber { at: begin })
}

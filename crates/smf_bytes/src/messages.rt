//! The events of a track, without their times.

ghost use Rattle.std.specs.Prelude.{◌≡◌, ◌+◌, ◌≤◌, ◌<◌, length, IfOk};
ghost use Rattle.smf_bytes.specs.Numbers.{Gives};
ghost use Rattle.smf_bytes.specs.Messages.{IsInRange, begun_by, behind_first, event_row, message_row, meta_row, seen, seen_kind, system_row, two_byte_message};
ghost use Rattle.smf_bytes.specs.Rows.{row_in};

use crate::fault::ByteFault;
use crate::numbers::{byte_of, bytes_of, data_of, quantity_of};

/// What an event is. Channels count from 0; the bytes are those of the file.
#[derive(Clone, Copy, Debug, PartialEq, Eq)]
pub enum Kind<'a> {
    /// A key is let go.
    Off { channel: u8, key: u8 },
    /// A key is struck. With velocity 0 it is let go.
    On { channel: u8, key: u8, velocity: u8 },
    /// Another message of a channel.
    Other { channel: u8 },
    /// What is written down beside the music. Number 0x2F is the end of the track.
    Meta { number: u8, bytes: &'a [u8] },
    /// A message to one maker's instruments, or a part of it.
    System { bytes: &'a [u8] },
}

impl Kind<'_> {
    ghost use Rattle.smf_bytes.specs.Messages.{ends_track};

    /// Whether this is the end of a track.
    pub fn ends_track(self) -> bool
        ensures { result ≡ ends_track (seen_kind self.entry) }
    {
        matches!(self, Kind::Meta { number: 0x2F, .. })
    }
}

/// An event, the status that holds after it, and the bytes behind it.
#[derive(Clone, Copy)]
pub(crate) struct Taken<'a> {
    pub(crate) kind: Kind<'a>,
    pub(crate) running: Option<u8>,
    pub(crate) rest: &'a [u8],
}

/// A message of two data bytes.
fn two_byte_kind(status: u8, first: u8, second: u8) -> Kind<'static>
    requires first { first < 128 }
    requires second { second < 128 }
    ensures value { seen_kind result ≡ two_byte_message status first second }
    ensures range { IsInRange (seen_kind result) }
{
    let channel = status % 16;
    match status / 16 {
        8 => Kind::Off {
            channel,
            key: first,
        },
        9 => Kind::On {
            channel,
            key: first,
            velocity: second,
        },
        _ => Kind::Other { channel },
    }
}

/// The message of a channel, behind its first data byte.
#[tactic(auto, unfolding(crate::specs::Rows::row_in))]
fn message_behind(status: u8, first: u8, end: usize, bytes: &[u8]) -> Result<Taken<'_>, ByteFault>
    requires within { length bytes.now ≤ end }
    requires first { first < 128 }
    ensures value { Gives seen result (row_in (behind_first status first) end bytes.now) }
    ensures range { IfOk result (λ taken. IsInRange (seen_kind taken.kind)) }
    ensures shorter { IfOk result (λ taken. length taken.rest.now ≤ length bytes.now) }
{
    let running = Some(status);
    if status / 16 == 12 || status / 16 == 13 {
        let kind = Kind::Other {
            channel: status % 16,
        };
        return Ok(Taken {
            kind,
            running,
            rest: bytes,
        });
    }
    let (second, rest) = data_of(end, bytes)?;
    let kind = two_byte_kind(status, first, second);
    Ok(Taken {
        kind,
        running,
        rest,
    })
}

/// The message of a channel, behind its status.
#[tactic(auto, unfolding(crate::specs::Rows::row_in))]
fn message_of(status: u8, end: usize, bytes: &[u8]) -> Result<Taken<'_>, ByteFault>
    requires { length bytes.now ≤ end }
    ensures value { Gives seen result (row_in (message_row status) end bytes.now) }
    ensures range { IfOk result (λ taken. IsInRange (seen_kind taken.kind)) }
    ensures shorter { IfOk result (λ taken. length taken.rest.now < length bytes.now) }
{
    let (first, rest) = data_of(end, bytes)?;
    message_behind(status, first, end, rest)
}

/// A meta event, behind its status.
#[tactic(auto, unfolding(crate::specs::Rows::row_in))]
fn meta_of(end: usize, bytes: &[u8]) -> Result<Taken<'_>, ByteFault>
    requires { length bytes.now ≤ end }
    ensures value { Gives seen result (row_in meta_row end bytes.now) }
    ensures range { IfOk result (λ taken. IsInRange (seen_kind taken.kind)) }
    ensures shorter { IfOk result (λ taken. length taken.rest.now < length bytes.now) }
{
    let (number, rest) = byte_of(end, bytes)?;
    let (count, rest) = quantity_of(end, rest)?;
    let (bytes, rest) = bytes_of(end, count as usize, rest)?;
    Ok(Taken {
        kind: Kind::Meta { number, bytes },
        running: None,
        rest,
    })
}

/// A system event, behind its status.
#[tactic(auto, unfolding(crate::specs::Rows::row_in))]
fn system_of(end: usize, bytes: &[u8]) -> Result<Taken<'_>, ByteFault>
    requires { length bytes.now ≤ end }
    ensures value { Gives seen result (row_in system_row end bytes.now) }
    ensures range { IfOk result (λ taken. IsInRange (seen_kind taken.kind)) }
    ensures shorter { IfOk result (λ taken. length taken.rest.now < length bytes.now) }
{
    let (count, rest) = quantity_of(end, bytes)?;
    let (bytes, rest) = bytes_of(end, count as usize, rest)?;
    Ok(Taken {
        kind: Kind::System { bytes },
        running: None,
        rest,
    })
}

/// The event that this byte begins, and what stands behind the byte; `running` is the status that
/// holds before it.
#[tactic(auto, unfolding(crate::specs::Rows::row_in))]
fn event_behind(
    first: u8,
    running: Option<u8>,
    end: usize,
    bytes: &[u8],
) -> Result<Taken<'_>, ByteFault>
    requires { length bytes.now + 1 ≤ end }
    ensures value { Gives seen result (row_in (begun_by running first) end bytes.now) }
    ensures range { IfOk result (λ taken. IsInRange (seen_kind taken.kind)) }
    ensures shorter { IfOk result (λ taken. length taken.rest.now ≤ length bytes.now) }
{
    let here = end - (bytes.len() + 1);
    if first == 0xFF {
        return meta_of(end, bytes);
    }
    if first == 0xF0 || first == 0xF7 {
        return system_of(end, bytes);
    }
    if first < 0x80 {
        return match running {
            Some(status) => message_behind(status, first, end, bytes),
            None => Err(ByteFault::Status { at: here }),
        };
    }
    if first < 0xF0 {
        return message_of(first, end, bytes);
    }
    Err(ByteFault::Status { at: here })
}

/// The event at the front of the bytes, behind its delta time; `running` is the status that holds
/// before it.
#[tactic(auto, unfolding(crate::specs::Rows::row_in))]
pub(crate) fn event_of(
    running: Option<u8>,
    end: usize,
    bytes: &[u8],
) -> Result<Taken<'_>, ByteFault>
    requires { length bytes.now ≤ end }
    ensures value { Gives seen result (row_in (event_row running) end bytes.now) }
    ensures range { IfOk result (λ taken. IsInRange (seen_kind taken.kind)) }
    ensures shorter { IfOk result (λ taken. length taken.rest.now < length bytes.now) }
{
    let (first, rest) = byte_of(end, bytes)?;
    event_behind(first, running, end, rest)
}

//! What the commands make of an exercise.

ghost use Rattle.std.specs.Prelude.{◌≡◌, string_bytes};
ghost use Rattle.works.specs.declared.work.Halt.TheVariants as halt;
ghost use Rattle.works.specs.declared.work.Stop.TheVariants as stop;
ghost use Rattle.works.specs.declared.work.Unmade.TheVariants as unmade;

use crate::refusal::Refusal;
use fux_pitch::{List, Memory};
use std::alloc::AllocError;

/// What an output says, all in all.
#[derive(Clone, Copy)]
pub enum Verdict {
    /// There is a best setting, canon or cantus, the certificate is accepted, there is no mark, or
    /// the setting is written in another form.
    Favorable,
    /// No setting, canon or cantus is lawful, the certificate is refused, or there is a mark.
    Unfavorable,
    /// The budget was spent before the search was at its end.
    Spent,
}

/// What a command writes to standard output: whole lines, or a MIDI file.
#[derive(Drop)]
pub struct Output {
    pub verdict: Verdict,
    pub bytes: List<u8>,
}

impl Output {
    /// An output of this text. It takes no memory.
    pub fn of_text(verdict: Verdict, text: String) -> Output
        ensures { result ≡ record { verdict = verdict; bytes = string_bytes text } }
    {
        Output::of_bytes(verdict, text.into_bytes())
    }

    /// An output of these bytes. It takes no memory.
    pub fn of_bytes(verdict: Verdict, bytes: Vec<u8>) -> Output
        ensures { result ≡ record { verdict = verdict; bytes = bytes.items } }
    {
        Output {
            verdict,
            bytes: List::new(bytes),
        }
    }
}

/// Why a command makes no output.
#[derive(Drop)]
pub enum Stop {
    /// A file is not what the command needs.
    Refused(Refusal),
    /// There is not enough memory.
    Memory,
}

impl From<Memory> for Stop {
    ghost from_gives = { λ _ found. found ≡ stop.Memory };

    fn from(_: Memory) -> Self {
        Stop::Memory
    }
}

impl From<AllocError> for Stop {
    ghost from_gives = { λ _ found. found ≡ stop.Memory };

    fn from(_: AllocError) -> Self {
        Stop::Memory
    }
}

/// Why a command that writes while it works doesn't write its whole output.
#[derive(Drop)]
pub enum Halt {
    /// There is no output.
    Stopped(Stop),
    /// Standard output cannot be written.
    Unwritable,
}

impl From<Stop> for Halt {
    ghost from_gives = { λ stop found. found ≡ halt.Stopped stop };

    fn from(stop: Stop) -> Self {
        Halt::Stopped(stop)
    }
}

impl From<AllocError> for Halt {
    ghost from_gives = { λ _ found. found ≡ halt.Stopped stop.Memory };

    fn from(_: AllocError) -> Self {
        Halt::Stopped(Stop::Memory)
    }
}

/// Why a command that reads while it works makes no output.
#[derive(Drop)]
pub enum Unmade {
    /// There is no output.
    Stopped(Stop),
    /// The file that it reads while it works cannot be read.
    Unreadable,
}

impl From<Stop> for Unmade {
    ghost from_gives = { λ stop found. found ≡ unmade.Stopped stop };

    fn from(stop: Stop) -> Self {
        Unmade::Stopped(stop)
    }
}

impl From<Memory> for Unmade {
    ghost from_gives = { λ _ found. found ≡ unmade.Stopped stop.Memory };

    fn from(_: Memory) -> Self {
        Unmade::Stopped(Stop::Memory)
    }
}

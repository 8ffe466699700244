//! Standard output and standard error.

ghost use Rattle.std.specs.Prelude.{◌≡◌, IfOk, ◌≤◌, length};

use crate::{Failed, Sink};
use std::io;
use std::io::Write;
use std::marker::Model;

#[derive(Clone, Copy)]
enum Stream {
    Out,
    Err,
}

/// A standard stream. Nothing is told of what was written.
#[derive(Drop)]
pub struct StdSink<'a> {
    host: &'a HostRuntime,
    stream: Stream,
    faults: u64,
}

impl<'a> Model for StdSink<'a> {
    ghost use Rattle.std.specs.Prelude.{ℕ, ◌^◌, ◌<◌};

    ghost Value = { ℕ };

    ghost view = { λ s. s.faults };

    ghost invariant = { λ s. s.faults < 2 ^ 64 };
}

impl<'a> StdSink<'a> {
    /// Standard output. Contracts see a sink as its count of faults.
    pub fn out(host: &'a HostRuntime) -> StdSink<'a>
        ensures { result ≡ 0 }
    {
        StdSink {
            host,
            stream: Stream::Out,
            faults: 0,
        }
    }

    /// Standard error. Contracts see a sink as its count of faults.
    pub fn err(host: &'a HostRuntime) -> StdSink<'a>
        ensures { result ≡ 0 }
    {
        StdSink {
            host,
            stream: Stream::Err,
            faults: 0,
        }
    }
}

impl<'a> Sink for StdSink<'a> {
    ghost use Rattle.std.specs.Prelude.{None};

    ghost written = { λ _. None };

    ghost faults = { λ count. count };

    ghost serves = { λ _ _. ⊥ };

    fn write(&mut self, piece: &[u8]) -> Result<usize, Failed> {
        let put = match self.stream {
            Stream::Out => self.host.stdout().write(piece),
            Stream::Err => self.host.stderr().write(piece),
        };
        match put {
            Ok(count) if count > 0 || piece.is_empty() => Ok(count),
            _ => {
                self.faults = self.faults.saturating_add(1);
                Err(Failed)
            }
        }
    }
}

//! The files of the disk.

ghost use Rattle.std.specs.Prelude.{◌≡◌, IfOk, ◌≤◌, length};

use crate::{Failed, Shelf};
use std::fs::File;
use std::io;
use std::io::{Read, Seek, SeekFrom};
use std::marker::Model;

/// The files of the disk, by their paths. Nothing is told of what they hold. The file of the last
/// read stays open: reads that go on from one another are of one file, whatever is done to its name
/// meanwhile, and need no seeking, so that a pipe can be read. A folder fails.
#[derive(Drop)]
pub struct DiskShelf<'a> {
    host: &'a HostRuntime,
    open: Option<OpenFile>,
    faults: u64,
    given: u64,
}

/// A file that is being read: its name, and the offset at which the last read ended.
#[derive(Drop)]
struct OpenFile {
    name: String,
    file: File,
    at: u64,
}

impl<'a> Model for DiskShelf<'a> {
    ghost use Rattle.std.specs.Prelude.{◌^◌, ◌<◌};
    ghost use Rattle.fux_port.specs.Counts.{Tally};

    ghost Value = { Tally };

    ghost view = { λ s. record { faults = s.faults; given = s.given } };

    ghost invariant = { λ s. (s.faults < 2 ^ 64) × (s.given < 2 ^ 64) };
}

impl<'a> DiskShelf<'a> {
    /// The files that this runtime reaches. Contracts see a shelf as its counts.
    pub fn new(host: &'a HostRuntime) -> DiskShelf<'a>
        ensures { result ≡ record { faults = 0; given = 0 } }
    {
        DiskShelf {
            host,
            open: None,
            faults: 0,
            given: 0,
        }
    }
}

impl<'a> Shelf for DiskShelf<'a> {
    ghost use Rattle.std.specs.Prelude.{None};

    ghost files = { λ _. None };

    ghost faults = { λ tally. tally.faults };

    ghost given = { λ tally. tally.given };

    ghost serves = { λ _ _ _. ⊥ };

    fn read_at(&mut self, name: &str, offset: u64, buf: &mut [u8]) -> Result<usize, Failed> {
        let mut chunk = [0u8; 16_384];
        let wanted = chunk.len().min(buf.len());
        match read_on(
            self.host,
            &mut self.open,
            name,
            offset,
            &mut chunk[..wanted],
        ) {
            Ok(count) => {
                buf[..count].copy_from_slice(&chunk[..count]);
                self.given = self.given.saturating_add(count as u64);
                Ok(count)
            }
            Err(_) => {
                self.open = None;
                self.faults = self.faults.saturating_add(1);
                Err(Failed)
            }
        }
    }
}

/// The file that is open, where it is the one of this name, and else the one of this name.
fn file_of(host: &HostRuntime, open: &mut Option<OpenFile>, name: &str) -> io::Result<OpenFile> {
    match open.take() {
        Some(reader) if reader.name.as_str() == name => Ok(reader),
        _ => Ok(OpenFile {
            name: String::from_str(host.alloc(), name)?,
            file: File::open(host, name)?,
            at: 0,
        }),
    }
}

/// Reads from this offset on: of the open file, where it is the one of this name.
fn read_on(
    host: &HostRuntime,
    open: &mut Option<OpenFile>,
    name: &str,
    offset: u64,
    buf: &mut [u8],
) -> io::Result<usize>
    ensures { IfOk result (λ count. count ≤ length buf.old) }
{
    let mut reader = file_of(host, open, name)?;
    if reader.at != offset {
        reader.file.seek(SeekFrom::Start(offset))?;
    }
    let count = reader.file.read(buf)?;
    reader.at = offset.saturating_add(count as u64);
    *open = Some(reader);
    Ok(count)
}

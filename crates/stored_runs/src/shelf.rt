//! The files of a case, and how they are read.

use fux_pitch::Memory;
use fux_port::{Failed, MemShelf, Shelf};
use std::alloc::Global;
use std::marker::Model;

/// A file.
#[derive(Drop)]
struct NamedFile {
    name: String,
    bytes: Vec<u8>,
}

/// Files, and how they are read.
#[derive(Drop)]
pub struct Files {
    named: Vec<NamedFile>,
    /// The most bytes that a read gives, or 0 where each gives as many as there is room for.
    pub piece: usize,
    /// The number of the read that fails, counted from 1, or 0 where none does.
    pub failing: u64,
    /// How many zeros there are under any name in place of files, where there are.
    pub zeros: Option<u64>,
}

impl Files {
    /// No files.
    pub fn new(alloc: Global) -> Files {
        Files {
            named: Vec::new(alloc),
            piece: 0,
            failing: 0,
            zeros: None,
        }
    }

    /// One more file.
    pub fn put(&mut self, name: String, bytes: Vec<u8>) -> Result<(), Memory> {
        self.named.push(NamedFile { name, bytes })?;
        Ok(())
    }

    /// These files, none of which was read yet.
    pub fn shelf(&self, alloc: Global) -> Result<CaseShelf, Memory> {
        let mut memory = if self.piece == 0 {
            MemShelf::new(alloc, &[self.failing])?
        } else {
            MemShelf::with_piece(alloc, self.piece, &[self.failing])?
        };
        for file in &self.named {
            memory.put(file.name.as_str(), file.bytes.as_slice())?;
        }
        Ok(CaseShelf {
            memory,
            zeros: self.zeros,
            faults: 0,
            given: 0,
        })
    }
}

/// Files in memory, or under any name zeros that no memory has to hold. It tells nothing of them.
#[derive(Drop)]
pub struct CaseShelf {
    memory: MemShelf,
    zeros: Option<u64>,
    faults: u64,
    given: u64,
}

impl Model for CaseShelf {
    ghost use Rattle.std.specs.Prelude.{◌^◌, ◌<◌};
    ghost use Rattle.fux_port.specs.Counts.{Tally};

    ghost Value = { Tally };

    ghost view = { λ s. record { faults = s.faults; given = s.given } };

    ghost invariant = { λ s. (s.faults < 2 ^ 64) × (s.given < 2 ^ 64) };
}

impl CaseShelf {
    /// How many bytes its reads gave.
    pub fn given(&self) -> u64 {
        self.given
    }
}

impl Shelf for CaseShelf {
    ghost use Rattle.std.specs.Prelude.{None};

    ghost files = { λ _. None };

    ghost faults = { λ tally. tally.faults };

    ghost given = { λ tally. tally.given };

    ghost serves = { λ _ _ _. ⊥ };

    fn read_at(&mut self, name: &str, offset: u64, buf: &mut [u8]) -> Result<usize, Failed> {
        if let Some(length) = self.zeros {
            let left = length.saturating_sub(offset);
            let count = (buf.len() as u64).min(left) as usize;
            buf[..count].fill(0);
            self.given = self.given.saturating_add(count as u64);
            return Ok(count);
        }
        match self.memory.read_at(name, offset, buf) {
            Ok(count) => {
                self.given = self.given.saturating_add(count as u64);
                Ok(count)
            }
            Err(Failed) => {
                self.faults = self.faults.saturating_add(1);
                Err(Failed)
            }
        }
    }
}

//! A shelf in memory, whose reads fail where its maker wants.

ghost use Rattle.std.specs.Prelude.{◌≡◌, ℕ, List, ◌<◌, ◌≤◌, ◌^◌, ◌⊎◌, ◌↔◌, [], Some, None, length, take, drop, IsTrue, IsErr, IsOk, IsSome, IfOk, IfSome, OnOk, OnErr};
ghost use Rattle.std.specs.Option.{option_copied};
ghost use Rattle.std.specs.Io.{StartsWith};
ghost use Rattle.fux_port.specs.Counts.{bytes_given, is_next_in};
ghost use Rattle.fux_port.specs.Files.{EndsBy, StandAt};
ghost use Rattle.fux_port.specs.MemShelf.{IfFile, PutsFile, named_files, file_at, after_read, at_most, filled_from, given_from};

use crate::{Failed, Shelf};
use fux_pitch::{List as Bytes, Memory};
use std::alloc::Global;
use std::collections::BTreeMap;
use std::marker::Model;

/// Files in memory. It tells them all.
#[derive(Drop)]
pub struct MemShelf {
    alloc: Global,
    files: BTreeMap<String, Bytes<u8>>,
    fail_at: Vec<u64>,
    /// The most bytes that a read gives, if there is such a limit.
    piece: Option<usize>,
    calls: u64,
    faults: u64,
    given: u64,
}

impl Model for MemShelf {
    ghost use Rattle.std.specs.Prelude.{ℕ, ◌^◌, ◌<◌, IfSome};
    ghost use Rattle.fux_port.specs.MemShelf.{ShelfState, named_files};

    ghost Value = { ShelfState };

    ghost view = { λ s. record {
      files = named_files s.files.entries;
      fail_at = s.fail_at.items;
      piece = s.piece;
      calls = s.calls;
      faults = s.faults;
      given = s.given;
    } };

    ghost invariant = { λ s. (s.faults < 2 ^ 64) × (s.given < 2 ^ 64) × IfSome s.piece (λ piece. 0 < piece) };
}

impl MemShelf {
    /// A shelf without files, whose reads of these numbers fail. They are counted from 1.
    pub fn new(alloc: Global, fail_at: &[u64]) -> Result<MemShelf, Memory>
        ensures { IfOk result (λ s. s ≡ record {
          files = [];
          fail_at = fail_at.now;
          piece = None;
          calls = 0;
          faults = 0;
          given = 0;
        }) }
    {
        MemShelf::made(alloc, None, fail_at)
    }

    /// The same, but a read gives no more than `piece` bytes, as a pipe may.
    pub fn with_piece(alloc: Global, piece: usize, fail_at: &[u64]) -> Result<MemShelf, Memory>
        requires { 1 ≤ piece }
        ensures { IfOk result (λ s. s ≡ record {
          files = [];
          fail_at = fail_at.now;
          piece = Some piece;
          calls = 0;
          faults = 0;
          given = 0;
        }) }
    {
        MemShelf::made(alloc, Some(piece), fail_at)
    }

    fn made(alloc: Global, piece: Option<usize>, fail_at: &[u64]) -> Result<MemShelf, Memory>
        requires { IfSome piece (λ piece. 0 < piece) }
        ensures { IfOk result (λ s. s ≡ record {
          files = [];
          fail_at = fail_at.now;
          piece = piece;
          calls = 0;
          faults = 0;
          given = 0;
        }) }
    {
        let fail_at = fail_at.to_vec(alloc)?;
        Ok(MemShelf {
            alloc,
            files: BTreeMap::new(alloc),
            fail_at,
            piece,
            calls: 0,
            faults: 0,
            given: 0,
        })
    }

    /// Gives the name these bytes in place of any that it had.
    pub fn put(&mut self, name: &str, bytes: &[u8]) -> Result<(), Memory>
        ensures ok { OnOk result (PutsFile self.old self.new name.now bytes.now) }
        ensures err { OnErr result (self.new ≡ self.old) }
    {
        let key = String::from_str(self.alloc, name)?;
        let file = Bytes::new(bytes.to_vec(self.alloc)?);
        self.files.insert(key, file)?;
        Ok(())
    }
}

impl Shelf for MemShelf {
    ghost files = { λ s. Some (file_at s.files) };

    ghost faults = { λ s. s.faults };

    ghost given = { λ s. s.given };

    ghost serves = { λ s name offset. (s.fail_at ≡ []) × IsSome (file_at s.files name) };

    fn read_at(&mut self, name: &str, offset: u64, buf: &mut [u8]) -> Result<usize, Failed>
        ensures fails { IsErr result ↔ (file_at self.old.files name.now ≡ None
            ⊎ IsTrue (is_next_in self.old.fail_at self.old.calls)) }
        ensures fits { IfOk result (λ count. count ≤ length buf.old) }
        ensures starts { IfOk result (λ count.
            StandAt (Some (file_at self.old.files)) name.now offset (take count buf.new)) }
        ensures rest { IfOk result (λ count. drop count buf.new ≡ drop count buf.old) }
        ensures end { IfOk result (λ count. count ≡ 0 → 0 < length buf.old
            → EndsBy (Some (file_at self.old.files)) name.now offset) }
        ensures count { IfOk result (λ count. IfFile self.old name.now (λ file.
            count ≡ given_from offset file self.old.piece (length buf.old))) }
        ensures placed { IfOk result (λ count. IfFile self.old name.now (λ file.
            buf.new ≡ filled_from offset file count buf.old)) }
        ensures err { OnErr result (buf.new ≡ buf.old) }
        ensures after { self.new ≡ after_read self.old name.now (bytes_given result) }
        ensures faults { self.old.faults ≤ self.new.faults }
        ensures faults_fit { self.new.faults < 2 ^ 64 }
    {
        self.calls = self.calls.saturating_add(1);
        let Some(file) = find_file(&self.files, name) else {
            return Err(Failed);
        };
        if self.fail_at.contains(&self.calls) {
            self.faults = self.faults.saturating_add(1);
            return Err(Failed);
        }
        let count = copy_from(file, offset, self.piece, buf);
        self.given = self.given.saturating_add(count as u64);
        Ok(count)
    }
}

/// The bytes of the file of this name, if there is one.
fn find_file<'a>(files: &'a BTreeMap<String, Bytes<u8>>, name: &str) -> Option<&'a [u8]>
    ensures { option_copied result ≡ file_at (named_files files.now.entries) name.now }
{
    let file = files.get(name)?;
    Some(file.as_slice())
}

/// Copies as much of the file from this offset on as the buffer has room for, and as one piece may
/// have. It answers how many bytes.
fn copy_from(file: &[u8], offset: u64, piece: Option<usize>, buf: &mut [u8]) -> usize
    requires { IfSome piece (λ piece. 0 < piece) }
    ensures count { result ≡ given_from offset file.now piece (length buf.old) }
    ensures fits { result ≤ length buf.old }
    ensures starts { StartsWith (drop offset file.now) (take result buf.new) }
    ensures rest { drop result buf.new ≡ drop result buf.old }
    ensures end { result ≡ 0 → 0 < length buf.old → length file.now ≤ offset }
    ensures placed { buf.new ≡ filled_from offset file.now result buf.old }
{
    if offset >= file.len() as u64 {
        return 0;
    }
    let rest = &file[offset as usize..];
    let count = within(piece, rest.len().min(buf.len()));
    buf[..count].copy_from_slice(&rest[..count]);
    count
}

/// A count, or the limit if that is less.
fn within(limit: Option<usize>, count: usize) -> usize
    ensures value { result ≡ at_most limit count }
    ensures less { result ≤ count }
    ensures some { IfSome limit (λ most. 0 < most) → 0 < count → 0 < result }
{
    match limit {
        Some(most) => count.min(most),
        None => count,
    }
}

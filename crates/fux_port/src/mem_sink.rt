//! A sink in memory, whose writes fail where its maker wants.

ghost use Rattle.std.specs.Prelude.{◌≡◌, ◌<◌, ◌≤◌, ◌^◌, ◌↔◌, [], Some, length, take, IsErr, IfOk, OnErr};
ghost use Rattle.fux_port.specs.MemSink.{Refuses, room_left, takes, after_taking, after_fault};

use crate::{Failed, Sink};
use fux_pitch::Memory;
use std::alloc::Global;
use std::marker::Model;

/// Bytes in memory. It tells them all.
#[derive(Drop)]
pub struct MemSink {
    taken: Vec<u8>,
    room: usize,
    piece: usize,
    fail_at: Vec<u64>,
    calls: u64,
    faults: u64,
}

impl Model for MemSink {
    ghost use Rattle.std.specs.Prelude.{◌≤◌, vec_len, vec_capacity};
    ghost use Rattle.fux_port.specs.MemSink.{SinkState};

    ghost Value = { SinkState };

    ghost view = { λ s. record {
      taken = s.taken.items;
      room = s.room;
      piece = s.piece;
      fail_at = s.fail_at.items;
      calls = s.calls;
      faults = s.faults;
    } };

    ghost invariant = { λ s. (vec_len s.taken ≤ s.room) × (s.room ≤ vec_capacity s.taken) × (1 ≤ s.piece) };
}

impl MemSink {
    /// A sink for `room` bytes, at most `piece` in one write, whose writes of these numbers fail.
    /// They are counted from 1.
    pub fn new(alloc: Global, room: usize, piece: usize, fail_at: &[u64]) -> Result<MemSink, Memory>
        requires { 1 ≤ piece }
        ensures { IfOk result (λ s. s ≡ record {
          taken = [];
          room = room;
          piece = piece;
          fail_at = fail_at.now;
          calls = 0;
          faults = 0;
        }) }
    {
        let fail_at = fail_at.to_vec(alloc)?;
        let taken = Vec::with_capacity(alloc, room)?;
        Ok(MemSink {
            taken,
            room,
            piece,
            fail_at,
            calls: 0,
            faults: 0,
        })
    }

    /// The bytes that it has taken, lent without memory.
    pub fn bytes(&self) -> &[u8]
        ensures { result.now ≡ self.now.taken }
    {
        self.taken.as_slice()
    }
}

impl Sink for MemSink {
    ghost written = { λ s. Some s.taken };

    ghost faults = { λ s. s.faults };

    ghost serves = { λ s more. (s.fail_at ≡ []) × (more ≤ room_left s) };

    fn write(&mut self, piece: &[u8]) -> Result<usize, Failed>
        ensures fails { IsErr result ↔ Refuses self.old piece.now }
        ensures count { IfOk result (λ count. count ≡ takes self.old piece.now) }
        ensures ok { IfOk result (λ count. self.new ≡ after_taking self.old (take count piece.now)) }
        ensures progress { IfOk result (λ count. 0 < length piece.now → 0 < count) }
        ensures err { OnErr result (self.new ≡ after_fault self.old) }
        ensures faults { self.old.faults ≤ self.new.faults }
        ensures faults_fit { self.new.faults < 2 ^ 64 }
    {
        self.calls = self.calls.saturating_add(1);
        let left = self.room - self.taken.len();
        let is_due = self.fail_at.contains(&self.calls);
        let is_full = left == 0 && !piece.is_empty();
        if is_due || is_full {
            self.faults = self.faults.saturating_add(1);
            return Err(Failed);
        }
        let count = self.piece.min(left).min(piece.len());
        self.taken.extend_from_slice(&piece[..count]).unwrap();
        Ok(count)
    }
}

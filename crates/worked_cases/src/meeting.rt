//! A gate at which the two pieces of a row may see each other.

use floor_tables::Gate;
use fux_pitch::Memory;
use std::alloc::Global;
use std::sync::atomic::AtomicU64;
use std::sync::atomic::Ordering::SeqCst;

/// How often a piece looks for the other one.
const TURNS: u64 = 10_000_000;

/// For each of two pieces of each row, whether it has come, and whether it saw the other.
#[derive(Drop)]
pub struct Meeting {
    came: Vec<[AtomicU64; 2]>,
    saw: Vec<[AtomicU64; 2]>,
}

/// So many pairs of words, all 0.
fn pairs(alloc: Global, count: usize) -> Result<Vec<[AtomicU64; 2]>, Memory> {
    let mut words = Vec::new(alloc);
    for _ in 0..count {
        words.push([AtomicU64::new(0), AtomicU64::new(0)])?;
    }
    Ok(words)
}

/// Whether a word is set within the turns.
fn is_seen(word: &AtomicU64) -> bool {
    for _ in 0..TURNS {
        if word.load(SeqCst) != 0 {
            return true;
        }
    }
    false
}

impl Meeting {
    pub fn new(alloc: Global, columns: usize) -> Result<Meeting, Memory> {
        Ok(Meeting {
            came: pairs(alloc, columns)?,
            saw: pairs(alloc, columns)?,
        })
    }

    /// In how many rows each piece saw the other.
    pub fn met(&self) -> usize {
        let mut count = 0;
        for row in &self.saw {
            if row[0].load(SeqCst) != 0 && row[1].load(SeqCst) != 0 && count < 192 {
                count += 1;
            }
        }
        count
    }
}

impl Gate for Meeting {
    fn enter(&self, column: usize, piece: usize) {
        let (Some(came), Some(saw)) = (self.came.get(column), self.saw.get(column)) else {
            return;
        };
        if piece > 1 {
            return;
        }
        came[piece].store(1, SeqCst);
        if is_seen(&came[1 - piece]) {
            saw[piece].store(1, SeqCst);
        }
    }
}

//! A file that is read in pieces.

ghost use Rattle.std.specs.Prelude.{◌≡◌, ◌≢◌, ℕ, ◌+◌, ◌-◌, ◌<◌, ◌≤◌, true, Ok, drop, length, take, IfErr, OnErr, OnOk};
ghost use Rattle.fux_port.specs.Counts.{Rose};
ghost use Rattle.fux_port.specs.Promises.{Keeps, ServesWhole};
ghost use Rattle.cert_file.specs.Readings.{ContinuesNext, longest_piece};

use crate::fault::ReadFault;
use crate::filling::read_piece;
use cert_text::CertFault;
use fux_port::Shelf;
use std::marker::Model;

/// How many bytes a piece has at most.
pub const LONGEST_PIECE: usize = 65_536;

/// How many bytes a certificate has at most.
const LONGEST_CERTIFICATE: u64 = 1_073_741_824;

/// A piece of a certificate's file. The next one is read when it is used up.
#[derive(Drop)]
pub struct Pieces {
    /// The piece that was read last.
    piece: Vec<u8>,
    /// How many of its bytes were used.
    from: usize,
    /// How many it has.
    to: usize,
    /// How many bytes of the file were read.
    offset: u64,
}

impl Model for Pieces {
    ghost use Rattle.std.specs.Prelude.{◌-◌, take, drop};
    ghost use Rattle.cert_file.specs.Readings.{IsPiece, Piece};

    ghost Value = { Piece };

    ghost view = { λ p. record { ahead = take (p.to - p.from) (drop p.from p.piece.items); offset = p.offset } };

    ghost invariant = { λ p. IsPiece p.piece.items p.from p.to p.offset };
}

impl Pieces {
    /// The first piece of a file, of which the first bytes were used.
    pub fn new(piece: Vec<u8>, from: usize, to: usize) -> Pieces
        requires long { length piece.items ≡ longest_piece }
        requires from { from ≤ to }
        requires to { to ≤ longest_piece }
        ensures { result ≡ record {
          ahead = take (to - from) (drop from piece.items);
          offset
              = to;
        } }
    {
        Pieces {
            piece,
            from,
            to,
            offset: to as u64,
        }
    }

    /// The bytes that were read and not used.
    pub fn ahead(&self) -> &[u8]
        ensures bytes { result.now ≡ self.now.ahead }
        ensures limit { self.now.offset ≤ 1073741824 }
    {
        &self.piece[self.from..self.to]
    }

    /// The place of the first byte that wasn't used.
    pub fn next(&self) -> u64
        ensures place { result ≡ self.now.offset - length self.now.ahead }
        ensures read { length self.now.ahead ≤ self.now.offset }
        ensures short { length self.now.ahead ≤ longest_piece }
        ensures limit { self.now.offset ≤ 1073741824 }
    {
        self.offset - (self.to - self.from) as u64
    }

    /// Uses so many bytes more.
    pub fn use_up(&mut self, used: usize)
        requires { used ≤ length self.old.ahead }
        ensures { self.new ≡ record { ahead = drop used self.old.ahead; offset = self.old.offset } }
    {
        self.from += used;
    }

    /// Reads the next piece, where one is used up. It answers whether there is one.
    pub fn read_on<F: Shelf>(&mut self, shelf: &mut F, name: &str) -> Result<bool, ReadFault>
        ensures reads { ContinuesNext (F.files shelf.old) name.now
            (Rose (F.faults shelf.old) (F.faults shelf.new)) self.old self.new result }
        ensures grows { result ≡ Ok true → self.old.offset < self.new.offset }
        ensures limit { self.new.offset ≤ 1073741824 }
        ensures short { length self.new.ahead ≤ longest_piece }

        // Where it fails, no line is wrong, and no more was read.
        ensures fault { IfErr result (λ fault. (at : ℕ)
            → fault ≢ ReadFault.Text (CertFault.CertWord at)) }
        ensures stays { OnErr result (self.new.offset ≡ self.old.offset) }
        ensures fits { length self.new.ahead + self.old.offset ≤ self.new.offset
            + length self.old.ahead }
        ensures served { ServesWhole (F.serves shelf.old) name.now 1073741824
            → IfErr result (λ fault. fault ≢ ReadFault.Unreadable) }
        ensures serving { Keeps (F.serves shelf.old) (F.serves shelf.new) }
        ensures little { F.given shelf.new + self.old.offset ≤ F.given shelf.old
            + (self.new.offset + 1) }
        ensures told { OnOk result (F.given shelf.new + self.old.offset ≤ F.given shelf.old
            + self.new.offset) }
        ensures files { F.files shelf.new ≡ F.files shelf.old }
        ensures faults { F.faults shelf.old ≤ F.faults shelf.new }
    {
        let left = LONGEST_CERTIFICATE - self.offset;
        // A byte past the end shows that the file is too long.
        let wanted = (left.min(LONGEST_PIECE as u64) as usize).max(1);
        let count = read_piece(shelf, name, self.offset, &mut self.piece, wanted)?;
        if left == 0 && count > 0 {
            return Err(ReadFault::Text(CertFault::CertEnd {
                at: LONGEST_CERTIFICATE,
            }));
        }
        self.from = 0;
        self.to = count;
        self.offset += count as u64;
        Ok(count > 0)
    }
}

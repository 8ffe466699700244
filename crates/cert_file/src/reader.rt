//! Claims from a certificate's file.

ghost use Rattle.std.specs.Prelude.{◌≡◌, ◌≢◌, ℕ, ◌+◌, ◌-◌, ◌<◌, ◌≤◌, true, List, Err, Ok, drop, length, take, IfErr, OnErr, OnOk};
ghost use Rattle.fux_port.specs.Counts.{Rose};
ghost use Rattle.fux_port.specs.Promises.{Keeps, ServesWhole};
ghost use Rattle.cert_file.specs.Nearness.{StandsNear};
ghost use Rattle.cert_file.specs.Readings.{Files, GivesEnd, GivesNext, IsAt, ReadsNext, TakesLine, longest_piece, reading_from};

use crate::fault::ReadFault;
use crate::pieces::Pieces;
use cert_text::{CertFault, Claim, Claims, Taken};
use fux_port::Shelf;
use std::marker::Model;

/// Where the reading of a certificate's claims stands.
#[derive(Drop)]
pub struct Reader {
    pieces: Pieces,
    claims: Claims,
}

impl Model for Reader {
    ghost use Rattle.cert_file.specs.Readings.{IsReading, Reading};

    ghost Value = { Reading };

    ghost view = { λ r. record { claims = r.claims; ahead = r.pieces.ahead; offset = r.pieces.offset } };

    ghost invariant = { λ r. IsReading r.pieces r.claims };
}

impl Reader {
    /// A reader that goes on at a byte of the first piece, at which a line begins.
    pub fn new(piece: Vec<u8>, from: usize, to: usize) -> Reader
        requires long { length piece.items ≡ longest_piece }
        requires from { from ≤ to }
        requires to { to ≤ longest_piece }
        ensures { result ≡ reading_from from (take (to - from) (drop from piece.items)) to }
    {
        Reader::behind(Pieces::new(piece, from, to))
    }

    /// A reader that goes on at the first byte that wasn't used, at which a line begins.
    pub fn behind(pieces: Pieces) -> Reader
        ensures { result ≡ reading_from (pieces.offset - length pieces.ahead) pieces.ahead
            pieces.offset }
    {
        let claims = Claims::new(pieces.next());
        Reader { pieces, claims }
    }

    /// The next claim, or none at the end of the file.
    pub fn next<F: Shelf>(&mut self, shelf: &mut F, name: &str) -> Result<Option<Claim>, ReadFault>
        ensures gives { GivesNext (F.files shelf.old) name.now
            (Rose (F.faults shelf.old) (F.faults shelf.new)) self.old self.new result }

        // Every reader has read no more than a certificate may have.
        ensures limit { self.old.offset ≤ 1073741824 }
        ensures limit_after { self.new.offset ≤ 1073741824 }

        // No more is read than a piece beyond the line that is read, or that is wrong.
        ensures short { length self.new.ahead ≤ longest_piece }
        ensures near { OnErr result (StandsNear (F.files shelf.old) name.now self.old
            self.new.offset) }
        ensures told_word { (at : ℕ) → result ≡ Err (ReadFault.Text (CertFault.CertWord at))
            → F.given shelf.new + self.old.offset ≤ F.given shelf.old + self.new.offset }

        // No shelf is blamed that promises each read up to there.
        ensures served { ServesWhole (F.serves shelf.old) name.now 1073741824
            → IfErr result (λ fault. fault ≢ ReadFault.Unreadable) }
        ensures serving { Keeps (F.serves shelf.old) (F.serves shelf.new) }

        // The offset counts what was read, but for a byte that shows that the file is too long.
        ensures little { F.given shelf.new + self.old.offset ≤ F.given shelf.old
            + (self.new.offset + 1) }
        ensures told { OnOk result (F.given shelf.new + self.old.offset ≤ F.given shelf.old
            + self.new.offset) }

        ensures files { F.files shelf.new ≡ F.files shelf.old }
        ensures faults { F.faults shelf.old ≤ F.faults shelf.new }
    {
        loop {
            match self.take_line() {
                Ok(Some(claim)) => return Ok(Some(claim)),
                Ok(None) => {}
                Err(fault) => return Err(ReadFault::Text(fault)),
            }
            if !self.read_on(shelf, name)? {
                return self.end();
            }
        }
    }

    /// The claim whose line ends in the piece, or none where the piece is used up before.
    fn take_line(&mut self) -> Result<Option<Claim>, CertFault>
        ensures takes { (files : Files) (name front : List ℕ) → IsAt files name front self.old
            → TakesLine files name front self.new result }
        ensures offset { self.new.offset ≡ self.old.offset }
        ensures short { length self.new.ahead ≤ longest_piece }
        ensures near { (files : Files) (name : List ℕ) → StandsNear files name self.old
            self.new.offset }
        ensures limit { self.old.offset ≤ 1073741824 }
    {
        match self.claims.take(self.pieces.ahead()) {
            Ok(Taken { used, claim }) => {
                self.pieces.use_up(used);
                Ok(claim)
            }
            Err(fault) => Err(fault),
        }
    }

    /// What the end of the file is: it is wrong within a line.
    fn end(&self) -> Result<Option<Claim>, ReadFault>
        ensures gives { GivesEnd self.now result }
        ensures read { IfErr result (λ fault. fault ≢ ReadFault.Unreadable) }
    {
        match self.claims.end() {
            Ok(()) => Ok(None),
            Err(fault) => Err(ReadFault::Text(fault)),
        }
    }

    /// Reads the next piece, where one is used up. It answers whether there is one.
    fn read_on<F: Shelf>(&mut self, shelf: &mut F, name: &str) -> Result<bool, ReadFault>
        ensures reads { ReadsNext (F.files shelf.old) name.now
            (Rose (F.faults shelf.old) (F.faults shelf.new)) self.old self.new result }
        ensures grows { result ≡ Ok true → self.old.offset < self.new.offset }
        ensures limit { self.new.offset ≤ 1073741824 }
        ensures short { length self.new.ahead ≤ longest_piece }
        ensures fault { IfErr result (λ fault. (at : ℕ)
            → fault ≢ ReadFault.Text (CertFault.CertWord at)) }
        ensures stays { OnErr result (self.new.offset ≡ self.old.offset) }
        ensures served { ServesWhole (F.serves shelf.old) name.now 1073741824
            → IfErr result (λ fault. fault ≢ ReadFault.Unreadable) }
        ensures serving { Keeps (F.serves shelf.old) (F.serves shelf.new) }
        ensures little { F.given shelf.new + self.old.offset ≤ F.given shelf.old
            + (self.new.offset + 1) }
        ensures told { OnOk result (F.given shelf.new + self.old.offset ≤ F.given shelf.old
            + self.new.offset) }
        ensures files { F.files shelf.new ≡ F.files shelf.old }
        ensures faults { F.faults shelf.old ≤ F.faults shelf.new }
    {
        self.pieces.read_on(shelf, name)
    }
}

//! What a certificate of the second form states, from its file.

ghost use Rattle.std.specs.Prelude.{◌≡◌, ◌≢◌, ℕ, ◌+◌, ◌-◌, ◌<◌, ◌^◌, ◌≤◌, true, false, List, Err, Ok, length, IfErr, IfOk, IfSome, OnErr, OnOk};
ghost use Rattle.fux_port.specs.Counts.{Rose};
ghost use Rattle.fux_port.specs.Promises.{Keeps, ServesWhole};
ghost use Rattle.cert_file.specs.Nearness.{StandsNearStated};
ghost use Rattle.cert_file.specs.Readings.{Files, longest_piece, reading_from};
ghost use Rattle.cert_file.specs.StatedReadings.{EndsStated, GivesNextStated, IsAtStated, ReadsNextStated, TakesStated, stated_from};

use crate::fault::ReadFault;
use crate::pieces::Pieces;
use crate::reader::Reader;
use cert_text::{CertFault, Potential, Potentials, TakenPotential};
use fux_port::Shelf;
use std::marker::Model;

/// Where the reading of what a certificate states stands.
#[derive(Drop)]
pub struct StatedReader {
    pieces: Pieces,
    entries: Potentials,
}

impl Model for StatedReader {
    ghost use Rattle.cert_file.specs.StatedReadings.{IsStatedReading, StatedReading};

    ghost Value = { StatedReading };

    ghost view = { λ r. record { entries = r.entries; ahead = r.pieces.ahead; offset = r.pieces.offset } };

    ghost invariant = { λ r. IsStatedReading r.pieces r.entries };
}

impl StatedReader {
    /// A reader of so many potentials, which goes on at the first byte that wasn't used, at which
    /// the line of the first of them begins.
    pub fn behind(pieces: Pieces, count: u64) -> StatedReader
        ensures { result ≡ stated_from (pieces.offset - length pieces.ahead) count pieces.ahead
            pieces.offset }
    {
        let entries = Potentials::new(pieces.next(), count);
        StatedReader { pieces, entries }
    }

    /// The next potential, or none behind the line `claims`, which stands behind the last of them.
    pub fn next<F: Shelf>(
        &mut self,
        shelf: &mut F,
        name: &str,
    ) -> Result<Option<Potential>, ReadFault>
        requires { self.old.entries.done ≡ false }
        ensures gives { GivesNextStated (F.files shelf.old) name.now
            (Rose (F.faults shelf.old) (F.faults shelf.new)) self.old self.new result }
        ensures more { IfOk result (λ potential. IfSome potential (λ _. self.new.entries.done
            ≡ false)) }

        // The rest is as `next` of `Reader` has it.
        ensures limit { self.old.offset ≤ 1073741824 }
        ensures limit_after { self.new.offset ≤ 1073741824 }

        // No more is read than a piece beyond the line that is read, or that is wrong.
        ensures short { length self.new.ahead ≤ longest_piece }
        ensures near { OnErr result (StandsNearStated (F.files shelf.old) name.now self.old
            self.new.offset) }
        ensures told_word { (at : ℕ) → result ≡ Err (ReadFault.Text (CertFault.CertWord at))
            → F.given shelf.new + self.old.offset ≤ F.given shelf.old + self.new.offset }

        ensures served { ServesWhole (F.serves shelf.old) name.now 1073741824
            → IfErr result (λ fault. fault ≢ ReadFault.Unreadable) }
        ensures serving { Keeps (F.serves shelf.old) (F.serves shelf.new) }
        ensures little { F.given shelf.new + self.old.offset ≤ F.given shelf.old
            + (self.new.offset + 1) }
        ensures told { OnOk result (F.given shelf.new + self.old.offset ≤ F.given shelf.old
            + self.new.offset) }
        ensures files { F.files shelf.new ≡ F.files shelf.old }
        ensures faults { F.faults shelf.old ≤ F.faults shelf.new }
    {
        loop {
            let taken = match self.take_line() {
                Ok(taken) => taken,
                Err(fault) => return Err(ReadFault::Text(fault)),
            };
            match taken.potential {
                Some(potential) => return Ok(Some(potential)),
                None => {}
            }
            if taken.done {
                return Ok(None);
            }
            if !self.read_on(shelf, name)? {
                return Err(ReadFault::Text(self.end()));
            }
        }
    }

    /// The line that ends in the piece, or none where the piece is used up before.
    fn take_line(&mut self) -> Result<TakenPotential, CertFault>
        requires { self.old.entries.done ≡ false }
        ensures takes { (files : Files) (name front : List ℕ) → IsAtStated files name front self.old
            → TakesStated files name front self.old self.new result }
        ensures done { IfOk result (λ taken. self.new.entries.done ≡ taken.done) }
        ensures more { IfOk result (λ taken. IfSome taken.potential (λ _. self.new.entries.done
            ≡ false)) }
        ensures offset { self.new.offset ≡ self.old.offset }
        ensures short { length self.new.ahead ≤ longest_piece }
        ensures near { (files : Files) (name : List ℕ) → StandsNearStated files name self.old
            self.new.offset }
        ensures limit { self.old.offset ≤ 1073741824 }
    {
        match self.entries.take(self.pieces.ahead()) {
            Ok(taken) => {
                self.pieces.use_up(taken.used);
                Ok(taken)
            }
            Err(fault) => Err(fault),
        }
    }

    /// What the end of the file is: a line is wanting, or not ended.
    fn end(&self) -> CertFault
        requires { self.now.entries.done ≡ false }
        ensures { EndsStated self.now result }
    {
        self.entries.end()
    }

    /// Reads the next piece, where one is used up. It answers whether there is one.
    fn read_on<F: Shelf>(&mut self, shelf: &mut F, name: &str) -> Result<bool, ReadFault>
        ensures reads { ReadsNextStated (F.files shelf.old) name.now
            (Rose (F.faults shelf.old) (F.faults shelf.new)) self.old self.new result }
        ensures more { self.new.entries.done ≡ self.old.entries.done }
        ensures grows { result ≡ Ok true → self.old.offset < self.new.offset }
        ensures limit { self.new.offset ≤ 1073741824 }
        ensures short { length self.new.ahead ≤ longest_piece }
        ensures fault { IfErr result (λ fault. (at : ℕ)
            → fault ≢ ReadFault.Text (CertFault.CertWord at)) }
        ensures stays { OnErr result (self.new.offset ≡ self.old.offset) }
        ensures served { ServesWhole (F.serves shelf.old) name.now 1073741824
            → IfErr result (λ fault. fault ≢ ReadFault.Unreadable) }
        ensures serving { Keeps (F.serves shelf.old) (F.serves shelf.new) }
        ensures little { F.given shelf.new + self.old.offset ≤ F.given shelf.old
            + (self.new.offset + 1) }
        ensures told { OnOk result (F.given shelf.new + self.old.offset ≤ F.given shelf.old
            + self.new.offset) }
        ensures files { F.files shelf.new ≡ F.files shelf.old }
        ensures faults { F.faults shelf.old ≤ F.faults shelf.new }
    {
        self.pieces.read_on(shelf, name)
    }

    /// The reader of the claims behind the line `claims`.
    pub fn claims(self) -> Reader
        ensures { result ≡ reading_from (self.offset - length self.ahead) self.ahead self.offset }
    {
        Reader::behind(self.pieces)
    }
}

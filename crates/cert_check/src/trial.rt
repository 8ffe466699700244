//! Entries as tests, each under its number.

ghost use Rattle.std.specs.Prelude.{◌≡◌};
ghost use Rattle.cert_check.specs.Boards.{AreBounds, IsBoard};
ghost use Rattle.cert_check.specs.Listings.{listing_for};

use crate::board::Board;
use crate::tests::Tests;
use std::marker::Model;

/// What entries are tested by.
#[derive(Drop)]
pub(crate) struct Trial<'a> {
    board: Board<'a>,
}

impl<'a> Model for Trial<'a> {
    ghost use Rattle.cert_check.specs.Boards.{IsBoard};
    ghost use Rattle.cert_check.specs.Listings.{Listing};

    ghost Value = { Listing };

    ghost view = { λ t. record {
      exercise = t.board.exercise.now;
      sheet = t.board.sheet.now;
      entries = t.board.stated.now;
    } };

    ghost invariant = { λ t. IsBoard t.board };
}

impl<'a> Trial<'a> {
    /// By this, and by bounds of the columns.
    pub(crate) fn new(board: Board<'a>, bounds: &'a [Option<u32>]) -> Trial<'a>
        requires board { IsBoard board }
        requires bounds { AreBounds board.exercise.now board.sheet.now board.stated.now bounds.now }
        ensures { result ≡ listing_for board.entry.exercise.now board.entry.sheet.now
            board.entry.stated.now }
    {
        Trial {
            board: Board {
                exercise: board.exercise,
                sheet: board.sheet,
                menus: board.menus,
                stated: board.stated,
                bounds,
            },
        }
    }
}

impl<'a> Tests for Trial<'a> {
    ghost use Rattle.cert_law.specs.Entries.{IsTrueEntry, entry_count};

    ghost size = { λ it. entry_count it.exercise };

    ghost passes = { λ it. IsTrueEntry it.exercise it.sheet it.entries };

    fn count(&self) -> usize {
        1 + self.board.menus.total
    }

    fn is_passed(&self, n: usize) -> bool {
        self.board.is_true(n)
    }
}

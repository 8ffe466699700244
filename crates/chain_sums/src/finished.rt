//! The least sum behind a column, from the finished row of the place that comes next.

ghost use Rattle.std.specs.Prelude.{◌≡◌, ◌<◌, length};
ghost use Rattle.chain_sums.specs.Pieces.{IsEntry, IsFinished, sums_in};

use crate::choices::Choices;
use crate::links::Links;
use crate::menu::Menu;
use crate::still::least_of_held;
use fux_grid::Column;

/// The menu of the next place and the least sums behind its columns, with what is known of these.
#[derive(Clone, Copy)]
pub(crate) enum Finished<'a> {
    /// Each column of the menu holds all it sounds.
    Still(&'a Menu, &'a [Option<u64>]),
    Tried(Choices<'a>),
}

impl<'a> Finished<'a> {
    /// The least sum over the chains that begin at the place, behind a column. The one that follows
    /// is first looked for under a number that is likely to be its own.
    #[inline(always)]
    pub(crate) fn least_behind<L: Links>(
        &self,
        links: &L,
        i: usize,
        prev: &Column,
        likely: usize,
    ) -> Option<u64>
        requires place { i < (L.chains links.now).places }
        requires full { length prev.now.items ≡ (L.chains links.now).voices }
        requires finished { IsFinished (L.chains links.now) (L.own links.now i)
            (L.moves links.now i) i self.now }
        ensures { IsEntry (L.chains links.now) i (sums_in self.now) prev.now.items result }
    {
        match self {
            Finished::Still(menu, sums) => least_of_held(links, i, prev, likely, menu, sums),
            Finished::Tried(choices) => choices.least_behind(links, i, prev),
        }
    }
}

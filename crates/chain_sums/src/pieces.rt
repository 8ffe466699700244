//! Rows, cut into pieces of consecutive columns, which threads work side by side.

ghost use Rattle.std.specs.Prelude.{◌≡◌, ◌+◌, ◌/◌, ◌%◌, ◌^◌, ◌≤◌, ◌<◌, IfOk, length, min};
ghost use Rattle.std.specs.List.{AllZip};
ghost use Rattle.fux_grid.specs.Grid.{items_of};
ghost use Rattle.chain_sums.specs.Chains.{AreFull};
ghost use Rattle.chain_sums.specs.Menus.{IsMenuOf};
ghost use Rattle.chain_sums.specs.Pieces.{AreEntries, ArePieces, IsFinished, sums_in};
ghost use Rattle.chain_sums.specs.Rows.{AreOneCostAbove, IsRow};

use crate::finished::Finished;
use crate::gate::Gate;
use crate::links::Links;
use crate::menu::Menu;
use chunk_laws::gathered;
use fux_grid::Column;
use fux_pitch::Memory;
use std::alloc::Global;
use std::thread;
use std::thread::Threads;

/// The threads among which a row is cut, into pieces of so many columns, and who is told of each.
#[derive(Drop)]
pub(crate) struct Cut<'a, R, G> {
    pub(crate) rt: &'a R,
    pub(crate) gate: &'a G,
    pub(crate) piece: usize,
    pub(crate) ghost some: { 1 ≤ piece },
}

/// The least sums behind the columns of a piece, which begins at a number of its row.
fn work_piece<L: Links, G: Gate>(
    alloc: Global,
    links: &L,
    gate: &G,
    i: usize,
    piece: usize,
    start: usize,
    columns: &[Column],
    finished: &Finished<'_>,
) -> Result<Vec<Option<u64>>, Memory>
    requires some { 0 < piece }
    requires place { i + 1 < (L.chains links.now).places }
    requires short { i < 192 }
    requires full { AreFull (L.chains links.now).voices (items_of columns.now) }
    requires finished { IsFinished (L.chains links.now) (L.own links.now (i + 1))
        (L.moves links.now (i + 1)) (i + 1) finished.now }
    ensures { IfOk result (λ part. AreEntries (L.chains links.now) (i + 1) (sums_in finished.now)
        columns.now part.items) }
{
    gate.enter(i, start / piece);
    let mut part = Vec::with_capacity(alloc, columns.len())?;
    for k in 0..columns.len() {
        let least = finished.least_behind(links, i + 1, &columns[k], start.wrapping_add(k));
        part.push_reserved(least);
    }
    Ok(part)
}

/// The pieces of a row, each worked by a thread, in order.
fn pieces_of<R: Threads + Sync, L: Links + Sync, G: Gate>(
    rt: &R,
    alloc: Global,
    links: &L,
    gate: &G,
    i: usize,
    piece: usize,
    columns: &[Column],
    finished: &Finished<'_>,
) -> Result<Vec<Result<Vec<Option<u64>>, Memory>>, Memory>
    requires some { 0 < piece }
    requires place { i + 1 < (L.chains links.now).places }
    requires short { i < 192 }
    requires full { AreFull (L.chains links.now).voices (items_of columns.now) }
    requires finished { IsFinished (L.chains links.now) (L.own links.now (i + 1))
        (L.moves links.now (i + 1)) (i + 1) finished.now }
    ensures count { IfOk result (λ parts. length parts.items ≡ length columns.now / piece
        + min 1 (length columns.now % piece)) }
    ensures each { IfOk result (λ parts. ArePieces (L.chains links.now) (i + 1)
        (sums_in finished.now) piece columns.now parts.items) }
{
    let work = |start: usize, chunk: &[Column]| -> Result<Vec<Option<u64>>, Memory>
        requires { (0 < piece) × (i + 1 < (L.chains links.now).places) × (i < 192)
            × AreFull (L.chains links.now).voices (items_of chunk.now)
            × IsFinished (L.chains links.now) (L.own links.now (i + 1)) (L.moves links.now (i + 1))
            (i + 1) finished.now }
        ensures { IfOk result (λ part. AreEntries (L.chains links.entry.now) (i + 1)
            (sums_in finished.entry.now) chunk.entry.now part.items) }
    { work_piece(alloc, links, gate, i, piece, start, chunk, finished) };
    Ok(thread::map_chunks(rt, alloc, columns, piece, &work)?)
}

/// The row of place `i`, from the finished row of the next one.
pub(crate) fn row_by_pieces<R: Threads + Sync, L: Links + Sync, G: Gate>(
    cut: &Cut<'_, R, G>,
    alloc: Global,
    links: &L,
    i: usize,
    menu: &Menu,
    finished: &Finished<'_>,
) -> Result<Vec<Option<u64>>, Memory>
    requires place { i + 1 < (L.chains links.now).places }
    requires short { i < 192 }
    requires menu { IsMenuOf ((L.chains links.now).menu i) menu.now }
    requires full { AreFull (L.chains links.now).voices ((L.chains links.now).menu i) }
    requires finished { IsFinished (L.chains links.now) (L.own links.now (i + 1))
        (L.moves links.now (i + 1)) (i + 1) finished.now }
    ensures row { IfOk result (λ row. IsRow (L.chains links.now) i row.items) }
    ensures small { IfOk result (λ row. AreOneCostAbove (sums_in finished.now) row.items) }
{
    let columns = menu.as_slice();
    let parts = pieces_of(
        cut.rt, alloc, links, cut.gate, i, cut.piece, columns, finished,
    )?;
    gathered(alloc, columns.len(), &parts)
}

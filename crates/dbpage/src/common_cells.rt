// The commonest cells: each kind has a loop that calls nothing, so that all that it needs is in registers.
ghost use Rattle.std.specs.Prelude.{◌≡◌, ◌+◌, ◌<◌, ◌≤◌, None, length, MatchBool, MatchOption};
ghost use Rattle.dbformat.specs.Head.{content_start};
ghost use Rattle.dbformat.specs.Cell.{count};
ghost use Rattle.dbformat.specs.declared.PageKind.TheVariants.{LeafIndex, LeafTable};
ghost use Rattle.dbpage.specs.Marking.{AreMarked, cells_upto};
ghost use Rattle.dbpage.specs.Beginning.{AreRead, HasRun, IsBegun, IsRunning};
ghost use Rattle.dbpage.specs.Packed.{IsUnpacked, key_at};

use crate::mark_count::MarkCount;
use crate::mark_table::claim;
use crate::packed::{Beginning, CellSums};
use crate::view::PageView;
use dbformat::PageKind;
use std::sync::ledger::Ledger;

// The first cells, their sums, and how many bytes they hold, which are marked or noted.
#[derive(Clone, Copy)]
pub(crate) struct MarkedCells {
    pub(crate) cells: u32,
    pub(crate) sums: CellSums,
    pub(crate) held: u32,
}

impl<'a> PageView<'a> {
    // The first cells of a page of this kind: none yet, but in a leaf of a table.
    #[inline(always)]
    pub(crate) fn leading_cells(&self, kind: PageKind, first: Option<i64>) -> Option<Beginning>
        requires kind { kind ≡ self.now.kind }
        requires some { 0 < count self.now → key_at self.now 0 ≡ first }
        requires none { count self.now ≡ 0 → first ≡ None }
        ensures { MatchOption result (IsUnpacked self.now) (IsRunning self.now) }
    {
        match kind {
            PageKind::LeafTable => self.leading_leaf_cells(first),
            _ => Some(Beginning::new(first, self.usable)),
        }
    }

    // The first cells of a leaf of a table, while each ends where the one before it begins, as SQLite writes them.
    #[inline(never)]
    fn leading_leaf_cells(&self, first: Option<i64>) -> Option<Beginning>
        requires kind { self.now.kind ≡ LeafTable }
        requires some { 0 < count self.now → key_at self.now 0 ≡ first }
        requires none { count self.now ≡ 0 → first ≡ None }
        ensures { MatchOption result (IsUnpacked self.now) (IsRunning self.now) }
    {
        let mut begun = Beginning::new(first, self.usable);
        // A content area that begins sooner has a large cell or two. In any other, each cell of a run has its whole payload.
        if self.start < 33 {
            return Some(begun);
        }
        // The first has a turn of its own: after it, each cell has one before it.
        if self.cells == 0 {
            return Some(begun);
        }
        if !self.add_to_run(0, &mut begun)? {
            return Some(begun);
        }
        for i in 1..self.cells {
            if !self.add_to_run(i, &mut begun)? {
                begun.cells = i;
                return Some(begun);
            }
        }
        begun.cells = self.cells;
        Some(begun)
    }

    // Adds cell `i` of a leaf of a table to those before it, if it ends where they begin: and answers whether it does.
    #[inline(always)]
    fn add_to_run(&self, i: u32, begun: &mut Beginning) -> Option<bool>
        requires kind { self.now.kind ≡ LeafTable }
        requires within { i < count self.now }
        requires far { 33 ≤ content_start self.now.number self.now.bytes }
        requires before { HasRun self.now i begun.old }
        ensures { MatchOption result (IsUnpacked self.now)
            (λ joins. MatchBool joins (HasRun self.now (i + 1) begun.new) (HasRun self.now i begun.new × (begun.new ≡ begun.old))) }
    {
        // This gives the proof what is known of the view.
        let _ = &self.usable;
        let Some(cell) = self.cell_up_to(i, begun.run.from) else {
            return Some(false);
        };
        if !self.add_read(i, &cell, &mut begun.sums) {
            return None;
        }
        begun.run.from = cell.offset;
        Some(true)
    }

    // Marks the next cells of a page of this kind, while they are short: only those of a leaf of an index.
    #[inline(always)]
    pub(crate) fn mark_short_cells<L: Ledger>(
        &self,
        kind: PageKind,
        begun: &Beginning,
        in_cells: u32,
        table: &mut [u8],
        mark_count: &mut MarkCount<L>,
    ) -> Option<MarkedCells>
        requires kind { kind ≡ self.now.kind }
        requires room { self.now.usable ≤ length table.old }
        requires begun { IsBegun self.now begun.now }
        requires marked { AreMarked (cells_upto self.now begun.now.cells) (content_start self.now.number self.now.bytes) self.now.usable table.old in_cells }
        ensures { MatchOption result (IsUnpacked self.now) (AreRead self.now table.new) }
    {
        match kind {
            PageKind::LeafIndex => self.mark_short_index_cells(begun, in_cells, table, mark_count),
            _ => Some(MarkedCells {
                cells: begun.cells,
                sums: begun.sums,
                held: in_cells,
            }),
        }
    }

    // `mark_short_cells` of a leaf of an index.
    #[inline(never)]
    fn mark_short_index_cells<L: Ledger>(
        &self,
        begun: &Beginning,
        in_cells: u32,
        table: &mut [u8],
        mark_count: &mut MarkCount<L>,
    ) -> Option<MarkedCells>
        requires kind { self.now.kind ≡ LeafIndex }
        requires room { self.now.usable ≤ length table.old }
        requires begun { IsBegun self.now begun.now }
        requires marked { AreMarked (cells_upto self.now begun.now.cells) (content_start self.now.number self.now.bytes) self.now.usable table.old in_cells }
        ensures { MatchOption result (IsUnpacked self.now) (AreRead self.now table.new) }
    {
        self.copied()
            .mark_short_index_cells_in_place(begun, in_cells, table, mark_count)
    }

    // `mark_short_index_cells` of a view that no write can change.
    #[inline(always)]
    fn mark_short_index_cells_in_place<L: Ledger>(
        &self,
        begun: &Beginning,
        in_cells: u32,
        table: &mut [u8],
        mark_count: &mut MarkCount<L>,
    ) -> Option<MarkedCells>
        requires kind { self.now.kind ≡ LeafIndex }
        requires room { self.now.usable ≤ length table.old }
        requires begun { IsBegun self.now begun.now }
        requires marked { AreMarked (cells_upto self.now begun.now.cells) (content_start self.now.number self.now.bytes) self.now.usable table.old in_cells }
        ensures { MatchOption result (IsUnpacked self.now) (AreRead self.now table.new) }
    {
        let mut cells = begun.cells;
        let mut payload = begun.sums.payload;
        let mut greatest = begun.sums.greatest;
        for i in begun.cells..self.cells {
            let Some(cell) = self.short_index_cell(i) else {
                break;
            };
            payload += cell.local.len() as u32;
            greatest = greatest.max(cell.size);
            if !claim(table, cell.offset, cell.len, mark_count) {
                return None;
            }
            cells = i + 1;
        }
        // What no short cell changes is read only now, so that it takes no register in the loop.
        let sums = CellSums {
            payload,
            greatest,
            first: begun.sums.first,
            last: None,
            has_overflow: begun.sums.has_overflow,
        };
        // Each of these cells has one byte before its payload.
        let held = in_cells + (payload - begun.sums.payload) + (cells - begun.cells);
        Some(MarkedCells { cells, sums, held })
    }
}

// The cells of a leaf: their overflow chains, the rows of the schema, and their keys (Database File Format, 1.6 and 2.6).
ghost use Rattle.std.specs.Prelude.{◌≡◌, ◌<◌, length, ◌≤◌, None, IfSome, OnOk, is_some};
ghost use Rattle.dbformat.specs.Cell.{count};
ghost use Rattle.dbformat.specs.FixedPages.{IsInRange, IsPageNumber};
ghost use Rattle.dbsurvey.specs.Story.{errands_of};
ghost use Rattle.dbwalk.specs.Points.{AtLeaf, IsSameButGreatest, AtCell, AtOverflow};
ghost use Rattle.dbformat.specs.Story.{story_of};
ghost use Rattle.dbwalk.specs.Underway.{HasDone, done_below};
ghost use Rattle.dbwalk.specs.Walked.{Does, SaysOfFiles, Walked};
ghost use Rattle.dbwalk.specs.Watching.{fails, fed, never, watches};
ghost use Rattle.dbformat.specs.Errands.{cell_errands};
ghost use Rattle.dbformat.specs.Payload.{most_payload};
ghost use Rattle.dbformat.specs.File.{geometry as shape_of};
ghost use Rattle.dbwalk.specs.LeafCells.{overflow_errands, late_reported, top_after};
ghost use Rattle.dbwalk.specs.Taking.{FeedsPayload};
ghost use Rattle.dbwalk.specs.Beside.{WalksBeside};
ghost use Rattle.dbwalk.specs.Reporting.{IsReportedTo};

use crate::cells::{LeafCell, leaf_cell, pass_cells};
use crate::chain::{Chain, walk_chain};
use crate::page::undamaged;
use crate::schema_row::{RowPlace, begin_row, report_row};
use crate::state::Tree;
use crate::tree_walk::TreeWalk;
use crate::{CellKey, Geometry, Marks, Sink, Taker};
use dbbytes::RowSieve;
use dbpage::PageView;
use dbsource::{RunError, Source};
use std::alloc::Allocator;

impl<A: Allocator, S: Source, K: Sink, T: Taker> TreeWalk<'_, '_, '_, '_, A, S, K, T> {
    /// Walks over the cells of an undamaged leaf with these bytes; pages of overflow chains are read into the buffer. Of each cell it
    /// takes the overflow chain, then the row, which goes to the taker, if this is the tree of the schema, and then the key.
    ///
    /// # Errors
    ///
    /// [`RunError::ReadFailed`] exactly where the source failed, [`RunError::WriteFailed`] where the sink was found shut,
    /// [`RunError::OutOfMemory`] exactly where the taker was refused memory.
    pub(crate) fn walk_leaf(
        &mut self,
        bytes: &[u8],
        buffer: &mut [u8],
        shape: Geometry,
        page: u32,
    ) -> Result<(), RunError>
        requires page { IsPageNumber page }
        requires shape { IsInRange shape × (length bytes.now ≡ shape.page_size) × (length buffer.old ≡ shape.page_size) }
        ensures walked { Walked S.held K.held T.refusals result shape shape self.old self.new }
        ensures tree { IsSameButGreatest self.old.tree self.new.tree }
        ensures log { SaysOfFiles S.step S.held shape self.old self.new (λ file. AtLeaf file bytes.now page self.old (λ from c.
            Does (watches K.takes T.takes) (fails T.refuses) file
            (done_below file from (errands_of (story_of file) c)) result self.old self.new)) }
    {
        let Ok(view) = undamaged(bytes, page, shape.usable, self.tree.kind) else {
            return Ok(());
        };
        let cells = view.cells();
        let mut sieve: Option<RowSieve> = None;
        let mut i = pass_cells(&view, &mut self.tree, page, 0);
        while i < cells {
            let place = CellPlace {
                shape,
                page,
                item: i,
            };
            self.walk_leaf_cell(&view, buffer, place, &mut sieve)?;
            i = pass_cells(&view, &mut self.tree, page, i + 1);
        }
        Ok(())
    }

    /// Walks over the cell at a place of a leaf: its overflow chain; in the tree of the schema its row, which goes to the taker;
    /// and its key. `sieve` is room for a sieve, which only the tree of the schema fills.
    ///
    /// # Errors
    ///
    /// [`RunError::ReadFailed`] exactly where the source failed, [`RunError::WriteFailed`] where the sink was found shut,
    /// [`RunError::OutOfMemory`] exactly where the taker was refused memory.
    pub(crate) fn walk_leaf_cell(
        &mut self,
        view: &PageView<'_>,
        buffer: &mut [u8],
        place: CellPlace,
        sieve: &mut Option<RowSieve>,
    ) -> Result<(), RunError>
        requires cell { IsPageNumber place.page × (place.item < count view.now) }
        requires shape { IsInRange place.shape × (length buffer.old ≡ place.shape.page_size) }
        requires none { 1 ≤ self.old.tree.start → sieve.old ≡ None }
        ensures walked { Walked S.held K.held T.refusals result place.shape place.shape self.old self.new }
        ensures tree { IsSameButGreatest self.old.tree self.new.tree }
        ensures empty { OnOk result (1 ≤ self.old.tree.start → sieve.new ≡ None) }
        ensures log { SaysOfFiles S.step S.held place.shape self.old self.new (λ file.
            AtCell file view.now place self.old (λ from c. Does (watches K.takes T.takes) (fails T.refuses) file
            (done_below file from (cell_errands c self.old.tree.kind view.now place.item)) result self.old self.new)) }
    {
        let (page, i) = (place.page, place.item);
        let cell = leaf_cell(view, i);
        begin_row(view, self.tree.start, i, self.encoding, sieve);
        let at = ReadCell {
            tree: &self.tree,
            place,
            cell,
        };
        walk_overflow(self.source, buffer, self.marks, at, sieve, self.sink)?;
        let row = RowPlace::new(page, i, cell.key);
        report_row(sieve, row, self.taker, self.sink)?;
        report_rowid(&mut self.tree, page, i, cell.key, self.sink);
        Ok(())
    }
}

/// The place of a cell of a leaf: the geometry of the file, the page, and the number of the cell.
#[derive(Clone, Copy)]
pub(crate) struct CellPlace {
    pub(crate) shape: Geometry,
    pub(crate) page: u32,
    pub(crate) item: u32,
}

/// A cell of a leaf of a tree, as it was read.
#[derive(Clone, Copy)]
pub(crate) struct ReadCell<'a> {
    pub(crate) tree: &'a Tree,
    pub(crate) place: CellPlace,
    pub(crate) cell: LeafCell,
}

/// Walks along the overflow chain of a cell, if it has one, and feeds it to a sieve, if there is one.
///
/// # Errors
///
/// [`RunError::ReadFailed`] exactly where the source failed, [`RunError::WriteFailed`] where the sink was found shut.
pub(crate) fn walk_overflow<A: Allocator, S: Source, K: Sink>(
    source: &mut S,
    buffer: &mut [u8],
    marks: &mut Marks<A>,
    at: ReadCell<'_>,
    sieve: &mut Option<RowSieve>,
    sink: &mut K,
) -> Result<(), RunError>
    requires cell { IsPageNumber at.place.page × IfSome at.cell.overflow (λ o. o.1 ≤ most_payload) }
    requires shape { IsInRange at.place.shape × (length buffer.old ≡ at.place.shape.page_size) }
    ensures walks { WalksBeside S.step result (S.held source.old) (S.held source.new) (K.held sink.old) (K.held sink.new)
        at.entry.place.shape.page_size marks.old marks.new (λ file. at.entry.place.shape ≡ shape_of file
        → AtOverflow file at.entry.tree.now at.entry.place at.entry.cell marks.old (λ from c.
        HasDone (fed K.takes) never file (done_below file from (overflow_errands c at.entry.place.item at.entry.cell.overflow)) result
        (marks.new, at.entry.tree.now) sink.old sink.new × OnOk result (FeedsPayload file from.visits
        (done_below file from (overflow_errands c at.entry.place.item at.entry.cell.overflow)).visits c at.entry.place.item sieve.old sieve.new))) }
    ensures kept { is_some sieve.new ≡ is_some sieve.old }
{
    match at.cell.overflow {
        None => Ok(()),
        Some((first, left)) => {
            let chain = Chain {
                start: at.tree.start,
                usable: at.place.shape.usable,
                path: at.tree.path.as_slice(),
                page: at.place.page,
                cell: at.place.item,
                rowid: at.cell.key,
                first,
                left,
            };
            walk_chain(source, buffer, marks, &chain, sieve, sink)
        }
    }
}

/// Reports a key of a leaf's cell that is out of order, and keeps the key if it is the greatest so far.
pub(crate) fn report_rowid<K: Sink>(
    tree: &mut Tree,
    page: u32,
    i: u32,
    key: Option<i64>,
    sink: &mut K,
)
    ensures reported { IsReportedTo K.takes K.held sink.old (late_reported tree.old.greatest page i key) sink.new }
    ensures greatest { tree.new.greatest ≡ top_after tree.old.greatest page i key }
    ensures others { IsSameButGreatest tree.old tree.new }
{
    if let Some(key) = key {
        let at = CellKey {
            page,
            item: i,
            value: key,
        };
        tree.report_key(at, true, None, sink);
    }
}

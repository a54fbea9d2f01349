// What the walk over one tree keeps beside marks, buffers and frames.
ghost use Rattle.dbformat.specs.Faults.{fault};
ghost use Rattle.dbformat.specs.declared.FaultCode.TheVariants as fault_code;
ghost use Rattle.dbtrace.specs.Finding.{reported_fault};
ghost use Rattle.dbtrace.specs.declared.Cause.TheVariants as cause;
ghost use Rattle.std.specs.Prelude.{◌≡◌, [], ◌∷◌, Some, None, false, pos, IsTrue, IsSomeAnd};
ghost use Rattle.dbtrace.specs.Causes.{go_on_from, leaf_rows};
ghost use Rattle.dbwalk.specs.LeafCells.{ArePassed, depth_reported, first_of, is_late, order_reported};
ghost use Rattle.dbtrace.specs.Progress.{greater_key, key_value};
ghost use Rattle.dbwalk.specs.Points.{IsSameButGreatest, IsSameButLeaf};
ghost use Rattle.dbwalk.specs.Reporting.{IsReportedTo};

use crate::{Cause, CellKey, RowidBounds, Sink, TreeLeaf};
use arrayvec::ArrayVec;
use dbformat::{Fault, FaultCode, SCHEMA_START, TreeKind};
use dbpage::is_rising;

/// The keys of a leaf whose cells are all readable, have no overflow pages and are in the order of their keys: the number of
/// cells, and the first and the last key, where there are cells and they have keys.
#[derive(Clone, Copy)]
pub(crate) struct KeySpan {
    pub(crate) cells: u32,
    pub(crate) first: Option<i64>,
    pub(crate) last: Option<i64>,
}

/// The number of the tree's start, its kind, the greatest key so far with the first cell that has it, its first leaf, and the
/// numbers of the children on the way to the page at which the walk is.
#[derive(Drop)]
pub(crate) struct Tree {
    pub(crate) start: u32,
    pub(crate) kind: TreeKind,
    pub(crate) greatest: Option<CellKey>,
    pub(crate) leaf: Option<TreeLeaf>,
    pub(crate) path: ArrayVec<u32, 20>,
}

/// The value of a key, where there is one.
#[inline(always)]
pub(crate) fn key_value(key: Option<CellKey>) -> Option<i64>
    ensures { result ≡ key_value key }
{
    match key {
        None => None,
        Some(key) => Some(key.value),
    }
}

// Reports that a key is out of order, after the greatest key before it. Most keys are in order and do not reach this call.
#[inline(never)]
fn report_late<K: Sink>(top: CellKey, at: CellKey, left: Option<RowidBounds>, sink: &mut K)
    ensures { IsReportedTo K.takes K.held sink.old (reported_fault (fault fault_code.T06 at.page at.item at.value) (cause.Key top left) ∷ []) sink.new }
{
    let fault = Fault {
        code: FaultCode::T06,
        page: at.page,
        item: at.item,
        value: at.value,
    };
    sink.fault(&fault, &Cause::Key(top, left));
}

// Whether rows begin at the key with which others end.
fn go_on_from(own: RowidBounds, other: RowidBounds) -> bool
    ensures { result ≡ go_on_from own other }
{
    match (other.up_to, own.above) {
        (Some(end), Some(above)) => end == above,
        _ => false,
    }
}

// The rows of a leaf at another depth than the first, by the rowids of both. If they go on from the rows of the first leaf, those belong
// to them too, since one of the two leaves is at the wrong depth.
fn leaf_rows(first: RowidBounds, own: RowidBounds) -> RowidBounds
    ensures { result ≡ leaf_rows first own }
{
    if go_on_from(own, first) {
        RowidBounds {
            above: first.above,
            up_to: own.up_to,
        }
    } else {
        own
    }
}

// Reports that a leaf has another depth than the first leaf. Few leaves have, and reach this call.
#[inline(never)]
fn report_other_depth<K: Sink>(
    first: &TreeLeaf,
    page: u32,
    depth: u32,
    rowids: RowidBounds,
    sink: &mut K,
)
    ensures { IsReportedTo K.takes K.held sink.old
        (reported_fault (fault fault_code.T05 page 0 (pos depth)) (cause.Leaf first.now.page (leaf_rows first.now.rowids rowids)) ∷ []) sink.new }
{
    let fault = Fault {
        code: FaultCode::T05,
        page,
        item: 0,
        value: i64::from(depth),
    };
    let rows = leaf_rows(first.rowids, rowids);
    sink.fault(&fault, &Cause::Leaf(first.page, rows));
}

impl Tree {
    /// A tree of which no page has been visited.
    pub(crate) fn new(start: u32, kind: TreeKind) -> Tree
        ensures names { (result.start ≡ start) × (result.kind ≡ kind) }
        ensures nothing { (result.greatest ≡ None) × (result.leaf ≡ None) × (result.path.items ≡ []) }
    {
        Tree {
            start,
            kind,
            greatest: None,
            leaf: None,
            path: ArrayVec::new(),
        }
    }

    /// Whether a key of an interior page is out of order.
    pub(crate) fn is_late(&self, key: i64) -> bool
        ensures { result ≡ is_late false (key_value self.now.greatest) key }
    {
        match self.greatest {
            None => false,
            Some(top) => key < top.value,
        }
    }

    /// Reports a key that is out of order, with the rows of its left child, and keeps the key if it is the greatest so far.
    pub(crate) fn report_key<K: Sink>(
        &mut self,
        at: CellKey,
        is_rowid: bool,
        left: Option<RowidBounds>,
        sink: &mut K,
    )
        ensures reported { IsReportedTo K.takes K.held sink.old (order_reported is_rowid left self.old.greatest at.page at.item at.value) sink.new }
        ensures greatest { self.new.greatest ≡ greater_key self.old.greatest at }
        ensures others { IsSameButGreatest self.old self.new }
    {
        if let Some(top) = self.greatest {
            let is_late = if is_rowid {
                at.value <= top.value
            } else {
                at.value < top.value
            };
            if is_late {
                report_late(top, at, left, sink);
                return;
            }
        }
        let is_greater = match self.greatest {
            None => true,
            Some(top) => top.value < at.value,
        };
        if is_greater {
            self.greatest = Some(at);
        }
    }

    /// Passes over a leaf whose cells have nothing but their keys to look at: it has such keys, they come after the greatest so
    /// far, and the tree is not the schema's, whose rows are wanted. Where it answers false, the cells have to be walked over
    /// one by one.
    pub(crate) fn pass_over(&mut self, keys: Option<KeySpan>, page: u32) -> bool
        ensures passed { IsTrue result → IsSomeAnd keys (λ span. ArePassed page self.old.start self.old.greatest span self.new.greatest) }
        ensures kept { result ≡ false → self.new.greatest ≡ self.old.greatest }
        ensures others { IsSameButGreatest self.old self.new }
    {
        let Some(keys) = keys else {
            return false;
        };
        if self.start == SCHEMA_START || !is_rising(key_value(self.greatest), keys.first) {
            return false;
        }
        if let Some(value) = keys.last {
            self.greatest = Some(CellKey {
                page,
                item: keys.cells.saturating_sub(1),
                value,
            });
        }
        true
    }

    /// Reports a leaf whose depth differs from that of the first leaf of the tree, with the rows of both as far as they go on from
    /// one another. If there was no leaf before, this is the first.
    pub(crate) fn report_depth<K: Sink>(
        &mut self,
        page: u32,
        depth: u32,
        rowids: RowidBounds,
        sink: &mut K,
    )
        ensures reported { IsReportedTo K.takes K.held sink.old (depth_reported rowids self.old.leaf page depth) sink.new }
        ensures leaf { self.new.leaf ≡ Some (first_of rowids self.old.leaf page depth) }
        ensures others { IsSameButLeaf self.old self.new }
    {
        let Some(first) = &self.leaf else {
            self.leaf = Some(TreeLeaf {
                page,
                depth,
                rowids,
            });
            return;
        };
        if depth != first.depth {
            report_other_depth(first, page, depth, rowids, sink);
        }
    }
}

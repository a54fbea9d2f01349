// Which rows the faults of a tree are of: ranges of rowids, as the keys around them say.
ghost use Rattle.std.specs.Prelude.{◌≡◌, [], IfOk};
ghost use Rattle.dbexplain.specs.Ranges.{if_some_rows, is_no_range, is_of, joins, kind_of, one_row, range_by, range_of, rows_at};
ghost use Rattle.dbexplain.specs.Ranges.{same_bounds, same_key, same_kind, touches};
ghost use Rattle.dbexplain.specs.KeptRanges.{AreRangesOf, closed, count_of, range_added, range_if, range_kept, range_reported, unkept};

use crate::range_counts::RangeCounts;
use dbformat::{Fault, FaultCode};
use dbsource::NoMemory;
use dbsource::memory::with_room;
use dbtrace::{Cause, Part, RowidBounds, TracedFault};
use std::alloc::{Allocator, Global};
use std::marker::Model;

/// The most ranges that are kept.
const MAX_RANGES: usize = 1000;

/// What is said of the rows of a range.
#[derive(Clone, Copy)]
pub enum RowsKind {
    /// The tree does not lead to them.
    NotReached,
    /// They are on pages with faults.
    OnFaulty,
    /// Their overflow chains are broken.
    CutShort,
}

/// Rows of the tree of a start.
#[derive(Clone, Copy)]
pub struct RowRange {
    pub start: u32,
    pub kind: RowsKind,
    pub rowids: RowidBounds,
}

/// How many ranges of a start found no room.
#[derive(Clone, Copy, Default)]
pub struct RangeCount {
    pub not_reached: u64,
    pub on_faulty: u64,
    pub cut_short: u64,
}

/// The first ranges of the rows that the faults are of, and of each start how many more there are. The last range is apart, as the
/// next one may go on where it ends.
#[derive(Drop)]
pub struct RowRanges<A: Allocator = Global> {
    kept: Vec<RowRange, A>,
    last: Option<RowRange>,
    more: RangeCounts<A>,
}

impl<A: Allocator> Model for RowRanges<A> {
    ghost use Rattle.dbexplain.specs.KeptRanges.{KeptRanges};

    ghost Value = { KeptRanges };

    ghost use Rattle.dbexplain.specs.KeptRanges.{kept_ranges, HasRangeRoom};

    ghost view = { kept_ranges };

    ghost invariant = { HasRangeRoom };
}

// What a fault with this code says of rows, where it is of a page or a reference.
fn kind_of(code: FaultCode) -> RowsKind
    ensures { result ≡ kind_of code }
{
    match code {
        FaultCode::R01
        | FaultCode::R02
        | FaultCode::R03
        | FaultCode::P01
        | FaultCode::P02
        | FaultCode::P03
        | FaultCode::T04 => RowsKind::NotReached,
        _ => RowsKind::OnFaulty,
    }
}

// One row.
fn one_row(rowid: i64) -> RowidBounds
    ensures { result ≡ one_row rowid }
{
    RowidBounds {
        above: if i64::MIN < rowid {
            Some(rowid - 1)
        } else {
            None
        },
        up_to: Some(rowid),
    }
}

// Whether no row is within these bounds.
fn is_no_range(rowids: &RowidBounds) -> bool
    ensures { result ≡ is_no_range rowids.now }
{
    match (rowids.above, rowids.up_to) {
        (Some(above), Some(up_to)) => up_to <= above,
        _ => false,
    }
}

// Rows of the tree of a start, if there are any.
fn rows_at(start: u32, kind: RowsKind, rowids: RowidBounds) -> Option<RowRange>
    ensures { result ≡ if_some_rows (rows_at start kind rowids) }
{
    if is_no_range(&rowids) {
        return None;
    }
    Some(RowRange {
        start,
        kind,
        rowids,
    })
}

// One row of the tree of a start. Such a range is never empty.
fn row_at(start: u32, kind: RowsKind, rowid: i64) -> Option<RowRange>
    ensures { result ≡ if_some_rows (rows_at start kind (one_row rowid)) }
{
    Some(RowRange {
        start,
        kind,
        rowids: one_row(rowid),
    })
}

// The rows that a fault at a start is of, if there are any.
fn range_by(start: u32, fault: &Fault, cause: &Cause) -> Option<RowRange>
    ensures { result ≡ if_some_rows (range_by start fault.now cause.now) }
{
    match cause {
        Cause::Itself => None,
        Cause::Rows(rowids) => rows_at(start, kind_of(fault.code), *rowids),
        Cause::Key(_, Some(left)) => rows_at(start, RowsKind::OnFaulty, *left),
        Cause::Key(_, None) => row_at(start, RowsKind::OnFaulty, fault.value),
        Cause::Leaf(_, rowids) => rows_at(start, RowsKind::OnFaulty, *rowids),
        Cause::Chain(chain) => match chain.rowid {
            Some(rowid) => row_at(start, RowsKind::CutShort, rowid),
            None => None,
        },
        Cause::Page(_, facts) | Cause::Look(_, facts) => {
            rows_at(start, kind_of(fault.code), facts.rowids)
        }
    }
}

// The rows that a fault is of, if there are any.
fn range_of(reported: &TracedFault) -> Option<RowRange>
    ensures { result ≡ range_of reported.now }
{
    match reported.part {
        Part::Start(start) => range_by(start, &reported.fault, &reported.cause),
        Part::Header | Part::End => None,
    }
}

pub(crate) fn same_kind(one: RowsKind, other: RowsKind) -> bool
    ensures { result ≡ same_kind one other }
{
    one as u8 == other as u8
}

fn same_key(one: Option<i64>, other: Option<i64>) -> bool
    ensures { result ≡ same_key one other }
{
    match (one, other) {
        (Some(a), Some(b)) => a == b,
        (None, None) => true,
        _ => false,
    }
}

// Whether two ranges have the same bounds.
fn same_bounds(one: &RowidBounds, other: &RowidBounds) -> bool
    ensures { result ≡ same_bounds one.now other.now }
{
    same_key(one.up_to, other.up_to) && same_key(one.above, other.above)
}

/// Whether a range is of a start, and this is said of its rows.
pub(crate) fn is_of(start: u32, kind: RowsKind, range: &RowRange) -> bool
    ensures { result ≡ is_of start kind range.now }
{
    range.start == start && same_kind(range.kind, kind)
}

// Whether a range goes on where another ends.
fn touches(one: &RowidBounds, other: &RowidBounds) -> bool
    ensures { result ≡ touches one.now other.now }
{
    match (one.up_to, other.above) {
        (Some(a), Some(b)) => a == b,
        _ => false,
    }
}

// Whether two ranges are one: they are of one tree, and said to be the same; and are equal, or ranges that touch.
fn joins(one: &RowRange, other: &RowRange) -> bool
    ensures { result ≡ joins one.now other.now }
{
    one.start == other.start
        && same_kind(one.kind, other.kind)
        && (same_bounds(&one.rowids, &other.rowids)
            || (!same_kind(one.kind, RowsKind::CutShort) && touches(&one.rowids, &other.rowids)))
}

// How many of this kind found no room.
pub(crate) fn count_of(count: RangeCount, kind: RowsKind) -> u64
    ensures { result ≡ count_of kind count }
{
    match kind {
        RowsKind::NotReached => count.not_reached,
        RowsKind::OnFaulty => count.on_faulty,
        RowsKind::CutShort => count.cut_short,
    }
}

impl<A: Allocator + Copy> RowRanges<A> {
    /// No ranges, in two growths from any allocator. After that it takes no memory.
    ///
    /// # Errors
    ///
    /// [`NoMemory`] where a growth was refused.
    pub fn new_in(alloc: A) -> Result<RowRanges<A>, NoMemory>
        ensures { IfOk result (AreRangesOf []) }
    {
        let kept = with_room(alloc, MAX_RANGES)?;
        let more = RangeCounts::new_in(alloc)?;
        Ok(RowRanges {
            kept,
            last: None,
            more,
        })
    }
}

impl<A: Allocator> RowRanges<A> {
    /// How many ranges of a start and a kind found no room.
    pub(crate) fn unkept(&self, start: u32, kind: RowsKind) -> u64
        ensures { result ≡ unkept self.now start kind }
    {
        count_of(self.more.get(start), kind)
    }

    /// The ranges that are kept.
    pub(crate) fn kept(&self) -> &[RowRange]
        ensures { result.now ≡ self.now.kept }
    {
        self.kept.as_slice()
    }

    // Keeps a range, or counts it if there is no room.
    #[inline(never)]
    fn keep(&mut self, range: RowRange)
        ensures { self.new ≡ range_kept self.old range }
    {
        if self.kept.len() < MAX_RANGES {
            // There is room, so this is not refused.
            let _ = self.kept.push(range);
        } else {
            self.more.add(range.start, range.kind);
        }
    }

    // Adds a range.
    #[inline(always)]
    fn add(&mut self, range: RowRange)
        ensures { self.new ≡ range_added self.old range }
    {
        if let Some(last) = &mut self.last {
            if joins(last, &range) {
                last.rowids.up_to = range.rowids.up_to;
                return;
            }
            if self.kept.len() == MAX_RANGES && is_of(range.start, range.kind, last) {
                self.more.add(range.start, range.kind);
                last.rowids = range.rowids;
                return;
            }
            let last = *last;
            self.keep(last);
        }
        self.last = Some(range);
    }

    // Adds a range, if there is one.
    #[inline(always)]
    fn add_if(&mut self, range: Option<RowRange>)
        ensures { self.new ≡ range_if self.old range }
    {
        if let Some(range) = range {
            self.add(range);
        }
    }

    // Adds the rows that a fault of any kind is of, if there are any.
    #[inline(never)]
    fn add_any(&mut self, reported: &TracedFault)
        ensures { self.new ≡ range_reported self.old reported.now }
    {
        self.add_if(range_of(reported));
    }

    /// Adds the rows that a fault is of, if there are any.
    pub fn receive(&mut self, reported: &TracedFault)
        ensures { self.new ≡ range_reported self.old reported.now }
    {
        // Where a file has many faults, most are rowids out of order. There is a rowid below each, but for the least one.
        if let (Part::Start(start), Cause::Key(_, None)) = (reported.part, &reported.cause)
            && i64::MIN < reported.fault.value
        {
            self.add_if(row_at(start, RowsKind::OnFaulty, reported.fault.value));
        } else {
            self.add_any(reported);
        }
    }

    /// Puts the last range to the others. No range may be added after that.
    pub fn close(&mut self)
        ensures { self.new ≡ closed self.old }
    {
        if let Some(last) = self.last {
            self.keep(last);
        }
        self.last = None;
    }
}

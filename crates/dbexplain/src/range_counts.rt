// How many ranges of rows found no room.
ghost use Rattle.std.specs.Prelude.{◌≡◌, IfOk, replicate, slice_set, slice_index_or};
ghost use Rattle.dbscan.specs.StartTable.{most_starts};
ghost use Rattle.dbexplain.specs.KeptRanges.{no_more, one_more};
ghost use Rattle.dbexplain.specs.RangeCounts.{with_kind};

use crate::ranges::{RangeCount, RowsKind, count_of, same_kind};
use dbformat::FREELIST_START;
use dbscan::StartTable;
use dbsource::NoMemory;
use std::alloc::{Allocator, Global};
use std::marker::Model;

/// How many ranges of each start and kind found no room. The count of one start and kind is apart, since ranges that come one after
/// another are mostly of one start and kind.
#[derive(Drop)]
pub struct RangeCounts<A: Allocator = Global> {
    start: u32,
    kind: RowsKind,
    count: u64,
    // All others.
    others: StartTable<RangeCount, A>,
}

impl<A: Allocator> Model for RangeCounts<A> {
    ghost use Rattle.std.specs.Prelude.{List};
    ghost use Rattle.dbexplain.specs.declared.ranges.RangeCount.{RangeCount};

    ghost Value = { List RangeCount };

    ghost use Rattle.dbexplain.specs.RangeCounts.{range_counts, HasStart};

    ghost view = { range_counts };

    ghost invariant = { HasStart };
}

// These counts, with another one of this kind.
fn with_kind(count: RangeCount, kind: RowsKind, of_kind: u64) -> RangeCount
    ensures { result ≡ with_kind kind of_kind count }
{
    let mut count = count;
    match kind {
        RowsKind::NotReached => count.not_reached = of_kind,
        RowsKind::OnFaulty => count.on_faulty = of_kind,
        RowsKind::CutShort => count.cut_short = of_kind,
    }
    count
}

impl<A: Allocator> RangeCounts<A> {
    /// No ranges, in one growth from any allocator. After that it takes no memory.
    ///
    /// # Errors
    ///
    /// [`NoMemory`] where the growth was refused.
    pub fn new_in(alloc: A) -> Result<RangeCounts<A>, NoMemory>
        ensures { IfOk result (λ t. t ≡ replicate most_starts no_more) }
    {
        let others = StartTable::new_in(alloc, RangeCount::default())?;
        Ok(RangeCounts {
            start: 0,
            kind: RowsKind::NotReached,
            count: 0,
            others,
        })
    }

    /// The counts of a start: none of a number after the last one.
    pub fn get(&self, start: u32) -> RangeCount
        ensures { result ≡ slice_index_or self.now start no_more }
    {
        let count = self.others.get(start).unwrap_or(RangeCount::default());
        if start == self.start {
            with_kind(count, self.kind, self.count)
        } else {
            count
        }
    }

    /// Counts a range of a start and a kind. A number after the last start changes nothing.
    #[inline(always)]
    pub fn add(&mut self, start: u32, kind: RowsKind)
        ensures { self.new ≡ slice_set self.old start (one_more kind (slice_index_or self.old start no_more)) }
    {
        if start == self.start && same_kind(kind, self.kind) {
            self.count = self.count.saturating_add(1);
        } else {
            self.turn_to(start, kind);
        }
    }

    // Counts a range, and has the count of its start and kind apart.
    #[inline(never)]
    fn turn_to(&mut self, start: u32, kind: RowsKind)
        ensures { self.new ≡ slice_set self.old start (one_more kind (slice_index_or self.old start no_more)) }
    {
        let apart = self.start;
        let last = self.get(apart);
        let count = self.get(start);
        if start <= FREELIST_START {
            self.others.set(apart, last);
            self.start = start;
            self.kind = kind;
            self.count = count_of(count, kind).saturating_add(1);
        }
    }
}

// Counts of each start.
ghost use Rattle.std.specs.Prelude.{◌≡◌, IfOk, replicate, slice_get, slice_set};
ghost use Rattle.dbscan.specs.StartTable.{most_starts};

use dbformat::FREELIST_START;
use dbscan::StartTable;
use dbsource::NoMemory;
use std::alloc::{Allocator, Global};
use std::marker::Model;

/// Counts of each start. Those of one start are apart, since faults that come one after another are mostly of one start.
#[derive(Drop)]
pub struct StartCounts<T, A: Allocator = Global> {
    start: u32,
    counts: T,
    // Of the other starts.
    others: StartTable<T, A>,
}

impl<T, A: Allocator> Model for StartCounts<T, A> {
    ghost use Rattle.std.specs.Prelude.{List};

    ghost Value = { List T };

    ghost use Rattle.dbexplain.specs.StartCounts.{start_counts, HasStart};

    ghost view = { start_counts };

    ghost invariant = { HasStart };
}

impl<T: Copy, A: Allocator> StartCounts<T, A> {
    /// These counts for each start, in one growth from any allocator. After that it takes no memory.
    ///
    /// # Errors
    ///
    /// [`NoMemory`] where the growth was refused.
    pub fn new_in(alloc: A, counts: T) -> Result<StartCounts<T, A>, NoMemory>
        ensures { IfOk result (λ t. t ≡ replicate most_starts counts) }
    {
        let others = StartTable::new_in(alloc, counts)?;
        Ok(StartCounts {
            start: 0,
            counts,
            others,
        })
    }

    /// The counts of a start. A number after the last start has none.
    #[inline(always)]
    pub fn get(&self, start: u32) -> Option<T>
        ensures { result ≡ slice_get self.now start }
    {
        if start == self.start {
            Some(self.counts)
        } else {
            self.others.get(start)
        }
    }

    /// Gives a start these counts. A number after the last start changes nothing.
    #[inline(always)]
    pub fn set(&mut self, start: u32, counts: T)
        ensures { self.new ≡ slice_set self.old start counts }
    {
        if start == self.start {
            self.counts = counts;
        } else {
            self.turn_to(start, counts);
        }
    }

    // Gives a start these counts, and has them apart.
    fn turn_to(&mut self, start: u32, counts: T)
        ensures { self.new ≡ slice_set self.old start counts }
    {
        let apart = self.start;
        if start <= FREELIST_START {
            self.others.set(apart, self.counts);
            self.start = start;
            self.counts = counts;
        }
    }
}

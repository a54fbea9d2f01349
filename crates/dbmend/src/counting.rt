// Runs that count the faults of a file.
ghost use Rattle.std.specs.Prelude.{◌≡◌, ◌≤◌, false, IfErr, IfOk, MatchResult, Ok, Err};
ghost use Rattle.dbscan.specs.DeskSizes.{DeskFitsInMemory};
ghost use Rattle.dbsource.specs.Errors.{is_write_failed};
ghost use Rattle.dbmend.specs.Deeds.{HasCounted, HasTried};

use crate::Count;
use crate::counter::Counter;
use crate::lent::Lent;
use dbreport::open_in;
use dbscan::{Desk, run_over};
use dbsource::{Changes, RunError, Source};
use std::alloc::Allocator;

/// What a run leaves.
#[derive(Drop)]
pub struct Findings<A: Allocator> {
    /// What it kept of the file.
    pub desk: Desk<A>,
    /// Where the first of the faults are.
    pub counter: Counter,
    /// How many faults there are.
    pub count: Count,
}

// Counts the faults of the file that `source` gives.
fn count_faults<A: Allocator + Copy, S: Source>(
    alloc: A,
    source: &mut S,
) -> Result<Findings<A>, RunError>
    requires fits { DeskFitsInMemory A.row A.Allocator }
    ensures counted { MatchResult result (λ f. HasCounted S.Source (Ok f.count) source.old source.new)
        (λ e. HasCounted S.Source (Err e) source.old source.new) }
    ensures size { IfOk result (λ f. 512 ≤ f.count.page_size) }
    // It has no Out that could fail.
    ensures never { IfErr result (λ e. is_write_failed e ≡ false) }
{
    let mut desk = open_in(alloc, source)?;
    let mut counter = Counter::new();
    run_over(&mut desk, source, &mut counter)?;
    let count = Count {
        faults: counter.faults,
        page_size: desk.geometry().page_size,
    };
    Ok(Findings {
        desk,
        counter,
        count,
    })
}

/// Counts the faults of the file that `source` gives, with some changes. What it keeps is on a [`Desk`], in memory from `alloc`, which may
/// be any allocator.
///
/// # Errors
///
/// [`RunError::Refused`] where the file with the changes is not read at all: then nothing but its header was asked for.
/// [`RunError::ReadFailed`] where the source failed, and [`RunError::OutOfMemory`] where a growth was refused.
pub fn count_changed<A: Allocator + Copy, S: Source>(
    alloc: A,
    changes: &Changes,
    source: &mut S,
) -> Result<Findings<A>, RunError>
    // The desk fits in memory, as it does unless the allocator itself is nearly that large.
    requires fits { DeskFitsInMemory A.row A.Allocator }
    // Whatever the source answers: there is a file, of the length that it answered, that agrees with every byte that the run used, and of
    // each such file the count is the number of faults of the file with the changes; none exactly where it is sound.
    ensures tried { MatchResult result (λ f. HasTried S.Source changes.now (Ok f.count) source.old source.new)
        (λ e. HasTried S.Source changes.now (Err e) source.old source.new) }
    ensures size { IfOk result (λ f. 512 ≤ f.count.page_size) }
    // It has no Out that could fail.
    ensures never { IfErr result (λ e. is_write_failed e ≡ false) }
{
    let mut lent = Lent::new(changes, source);
    count_faults(alloc, &mut lent)
}

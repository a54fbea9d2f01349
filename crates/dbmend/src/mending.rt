// The search for the changes that leave the fewest faults.
ghost use Rattle.std.specs.Prelude.{◌≡◌, ◌-◌, ◌≤◌, ◌++◌, ◌∷◌, [], min, MatchOption, MatchResult, Ok, Err};
ghost use Rattle.dbsource.specs.Outs.{Puts};
ghost use Rattle.dbsource.specs.declared.error.RunError.TheVariants.{Refused};
ghost use Rattle.dbmend.specs.Mended.{HasMended, WritesOkOfSound, left_after};
ghost use Rattle.dbmend.specs.Searched.{HasSearched};
ghost use Rattle.dbmend.specs.Sizes.{SearchFitsInMemory};
ghost use Rattle.dbmend.specs.Stepped.{HasPut, IsAfter};
ghost use Rattle.dbmend.specs.Texts.{change_line, page_line, still_text};

use crate::counting::{Findings, count_changed};
use crate::edit::Edits;
use crate::known::Known;
use crate::stepping::{Step, next_step};
use crate::texts::{change_line, end_text, first_text, page_line, still_text};
use arrayvec::ArrayVec;
use dbformat::{Refusal, Verdict};
use dbsource::{Changes, Out, RunError, Source, WriteFailed};
use std::alloc::Allocator;

// How many changes there are at most, and how many runs after the first.
const MOST_CHANGES: u32 = 16;

const MOST_RUNS: usize = 255;

// Puts three pieces.
fn put_lines<O: Out>(
    change: &[u8],
    page: &[u8],
    still: &[u8],
    out: &mut O,
) -> Result<(), WriteFailed>
    ensures { Puts result (O.held out.old) (O.held out.new) (change.now ++ (page.now ++ still.now)) }
{
    out.put(change)?;
    out.put(page)?;
    out.put(still)
}

// Puts the lines of a change.
fn put_step<A: Allocator, O: Out>(step: &Step<A>, out: &mut O) -> Result<(), WriteFailed>
    requires { 512 ≤ step.now.found.count.page_size }
    ensures { Puts result (O.held out.old) (O.held out.new)
        (change_line step.now.edit.offset step.now.edit.bytes step.now.was.bytes
        ++ (page_line step.now.found.count.page_size step.now.edit.offset ++ still_text step.now.found.count.faults)) }
{
    let offset = step.edit.offset();
    let change = change_line(offset, step.edit.bytes(), step.was.bytes());
    let page = page_line(step.found.count.page_size, offset);
    let still = still_text(step.found.count.faults);
    put_lines(change.as_slice(), page.as_slice(), still.as_slice(), out)
}

// One change more after some, if one helps, by what the run with these found; `most` edits are tried at most.
fn put_next<A: Allocator + Copy, S: Source, O: Out>(
    alloc: A,
    edits: &Edits,
    known: Known<A>,
    most: usize,
    source: &mut S,
    out: &mut O,
) -> Result<Option<Step<A>>, RunError>
    requires fits { SearchFitsInMemory A.row A.Allocator }
    ensures { MatchResult result
        (λ o. MatchOption o
        (HasPut S.Source O.Out {A = Unit {0}} edits.now.items known.faults most 0 1 (Ok tt) (λ fixes. fixes ≡ [])
        (source.old, out.old) (source.new, out.new))
        (λ s. HasPut S.Source O.Out {A = Unit {0}} edits.now.items known.faults most (most - s.tried) 1 (Ok tt)
        (λ fixes. IsAfter edits.now.items known.faults fixes (edits.now.items ++ s.edit ∷ []) s.found.count.faults)
        (source.old, out.old) (source.new, out.new) × (s.tried ≤ most)))
        (λ e. HasPut S.Source O.Out {A = Unit {0}} edits.now.items known.faults most 0 1 (Err e) (λ fixes. Unit {0})
        (source.old, out.old) (source.new, out.new)) }
{
    let step = next_step(alloc, edits, known, most, source)?;
    let Some(step) = step else {
        return Ok(None);
    };
    put_step(&step, out)?;
    Ok(Some(step))
}

// Some changes, one after another, until no fault is left or none helps. Answers how many faults are left.
fn put_steps<A: Allocator + Copy, S: Source, O: Out>(
    alloc: A,
    limit: u32,
    first: Known<A>,
    source: &mut S,
    out: &mut O,
) -> Result<u64, RunError>
    requires fits { SearchFitsInMemory A.row A.Allocator }
    ensures { MatchResult result
        (λ n. HasPut S.Source O.Out {A = Unit {0}} [] first.faults 255 0 (min limit 16) (Ok tt) (λ fixes. n ≡ left_after first.faults fixes)
        (source.old, out.old) (source.new, out.new))
        (λ e. HasPut S.Source O.Out {A = Unit {0}} [] first.faults 255 0 (min limit 16) (Err e) (λ fixes. Unit {0})
        (source.old, out.old) (source.new, out.new)) }
{
    let mut edits: Edits = ArrayVec::new();
    let mut known = first;
    let mut most = MOST_RUNS;
    for round in 0..limit.min(MOST_CHANGES) {
        let faults = known.faults;
        if faults == 0 {
            return Ok(0);
        }
        match put_next(alloc, &edits, known, most, source, out)? {
            Some(step) => {
                edits.push(step.edit);
                known = Known::of(step.found);
                most -= step.tried;
            }
            None => return Ok(faults),
        }
    }
    Ok(known.faults)
}

// The search in a file of which a run found this.
fn search_read<A: Allocator + Copy, S: Source, O: Out>(
    alloc: A,
    limit: u32,
    first: Findings<A>,
    source: &mut S,
    out: &mut O,
) -> Result<Verdict, RunError>
    requires fits { SearchFitsInMemory A.row A.Allocator }
    ensures { HasSearched S.Source O.Out limit (Ok first.count) result (source.old, out.old) (source.new, out.new) }
{
    let faults = first.count.faults;
    let front = first_text(faults);
    out.put(front.as_slice())?;
    let left = put_steps(alloc, limit, Known::of(first), source, out)?;
    let end = end_text(left);
    out.put(end.as_slice())?;
    Ok(Verdict::of(faults))
}

// The search in a file that is refused. Nothing is put if no change is found with which it is read.
fn search_refused<A: Allocator + Copy, S: Source, O: Out>(
    alloc: A,
    limit: u32,
    refusal: Refusal,
    source: &mut S,
    out: &mut O,
) -> Result<Verdict, RunError>
    requires fits { SearchFitsInMemory A.row A.Allocator }
    ensures { HasSearched S.Source O.Out limit (Err (Refused refusal)) result (source.old, out.old) (source.new, out.new) }
{
    let first = Known::of_refused();
    let faults = first.faults;
    let left = put_steps(alloc, limit, first, source, out)?;
    if left < faults {
        let end = end_text(left);
        out.put(end.as_slice())?;
    }
    Err(RunError::Refused(refusal))
}

// The search, as one text.
fn search<A: Allocator + Copy, S: Source, O: Out>(
    alloc: A,
    limit: u32,
    source: &mut S,
    out: &mut O,
) -> Result<Verdict, RunError>
    requires fits { SearchFitsInMemory A.row A.Allocator }
    ensures { HasMended S.Source O.Out limit result (source.old, out.old) (source.new, out.new) }
{
    match count_changed(alloc, &Changes::new(), source) {
        Ok(first) => search_read(alloc, limit, first, source, out),
        Err(error) => match error {
            RunError::Refused(refusal) => search_refused(alloc, limit, refusal, source, out),
            _ => Err(error),
        },
    }
}

/// Looks for the changes that leave the fewest faults in the database that `source` gives, and writes them to `out`.
///
/// First comes a run without changes, and the line that says how many faults there are. Then up to `limit` changes, 16 at most, one
/// after another: of the [`candidates`](crate::candidates) the one that leaves the fewest faults, if it leaves fewer than there were.
/// The search ends where no fault is left, or no change leaves fewer. Of each change the offset, its bytes and those of the file are
/// written, the page, and how many faults are left after it; at the end `ok`, or how many faults are left. Of a file without a fault
/// `ok` is all that is written. It answers the verdict of the run without changes.
///
/// If that run refuses the file, the first change is one with which the file is read: what a database begins with, a page size, or
/// that no bytes are reserved. The others follow as above. If there is no such change, nothing is written.
///
/// There are at most 256 runs, and each keeps what a check keeps: what the best run of a change found is kept beside the one at hand.
/// All memory is from `alloc`, which may be any allocator. Nothing is written to the file.
///
/// # Errors
///
/// [`RunError::Refused`] where the file without changes is refused: all of the text was written then. [`RunError::ReadFailed`] where the
/// source failed, [`RunError::OutOfMemory`] where a growth was refused, and [`RunError::WriteFailed`] where the Out failed: then it
/// holds what it had and a beginning of the text.
pub fn mend<A: Allocator + Copy, S: Source, O: Out>(
    alloc: A,
    limit: u32,
    source: &mut S,
    out: &mut O,
) -> Result<Verdict, RunError>
    // What a search keeps fits in memory, as it does unless the allocator itself is nearly that large.
    requires fits { SearchFitsInMemory A.row A.Allocator }
    // Whatever the source answers: what was done, at most 256 runs and looks; the changes that were written, each of a run; and their text.
    ensures mended { HasMended S.Source O.Out limit result (source.old, out.old) (source.new, out.new) }
    // The last line is `ok` only where a run found the file with all written changes sound.
    ensures ok { WritesOkOfSound S.Source O.Out result (source.old, out.old) (source.new, out.new) }
{
    search(alloc, limit, source, out)
}

// What may be wrong, and what may have been there: the edits that are worth a trial.
ghost use Rattle.dbmend.specs.Deeds.{HasDone};

use crate::counting::Findings;
use crate::edit::Edit;
use crate::fit::Span;
use crate::header_edits::{add_header, add_map, add_page_size};
use crate::lost::{Lost, look_at_lost, look_at_roots};
use crate::numbers::add_entry;
use crate::places::{add_places, child};
use crate::ranked::{Ranked, Tries};
use crate::reading::{Paper, read_page};
use crate::schema_rows::{MOST_LEVELS, add_roots};
use crate::wanted::{mark, wanted_of};
use dbformat::FaultCode;
use dbscan::{Desk, Mark};
use dbsource::{RunError, Source};
use std::alloc::Allocator;

// Adds what may have been in the header, and in the pointer map.
fn add_numbers<A: Allocator>(tries: &mut Ranked, found: &Findings<A>, lost: &Lost<A>) {
    add_page_size(tries, &found.desk);
    add_map(tries, &found.desk, lost);
    for noted in found.counter.noted() {
        add_header(tries, &found.desk, lost, &noted.fault);
        if let FaultCode::M01 = noted.fault.code {
            add_entry(tries, &found.desk, noted.fault.page);
        }
    }
}

// The keys beside the reference to a page, as far as they are known.
fn keys_beside<A: Allocator>(paper: &Paper<A>, page: u32) -> Span {
    let Some(view) = paper.view() else {
        return Span::UNKNOWN;
    };
    for item in 0..view.cells().saturating_add(1) {
        if child(&view, item) == page {
            return Span::beside(&view, item);
        }
    }
    Span::UNKNOWN
}

// The keys around a page of a tree, by the pages above it, which are read for it.
fn keys_around<A: Allocator, S: Source>(
    desk: &Desk<A>,
    edits: &[Edit],
    source: &mut S,
    page: u32,
    paper: &mut Paper<A>,
) -> Result<Span, RunError>
    ensures { HasDone S.Source result 0 0 (λ a deeds. Unit {0}) source.old source.new }
{
    let mut keys = Span::UNKNOWN;
    let mut below = page;
    for _ in 0..MOST_LEVELS {
        match mark(desk, below) {
            Mark::Child(above) => {
                read_page(source, edits, above, paper)?;
                keys = keys.or(&keys_beside(paper, below));
                below = above;
            }
            _ => return Ok(keys),
        }
    }
    Ok(keys)
}

/// The edits that are worth a trial after some others, by what a run over the file with these found. Pages are read for it: each lost page,
/// to see which of them no other one names, and then those that may have a wrong number.
///
/// # Errors
///
/// [`RunError::ReadFailed`] exactly where the source failed, and [`RunError::OutOfMemory`] where a growth was refused.
pub fn candidates<A: Allocator + Copy, S: Source>(
    alloc: A,
    edits: &[Edit],
    found: &Findings<A>,
    source: &mut S,
) -> Result<Tries, RunError>
    ensures { HasDone S.Source result 0 0 (λ tries deeds. Unit {0}) source.old source.new }
{
    let mut paper = Paper::new_in(alloc, found.desk.geometry())?;
    let mut lost = Lost::new_in(alloc, found.desk.geometry().pages)?;
    look_at_lost(&found.desk, edits, source, &mut paper, &mut lost)?;
    look_at_roots(&found.desk, edits, source, &mut paper, &mut lost)?;
    let mut tries = Ranked::new();
    add_numbers(&mut tries, found, &lost);
    let wanted = wanted_of(&found.desk, found.counter.noted(), lost.roots());
    for want in wanted.as_slice() {
        let outer = keys_around(&found.desk, edits, source, want.page, &mut paper)?;
        read_page(source, edits, want.page, &mut paper)?;
        add_places(&mut tries, (&found.desk, &lost), want, &outer, &mut paper);
    }
    let kept = (found, &lost);
    add_roots(
        &mut tries,
        kept,
        wanted.as_slice(),
        edits,
        source,
        &mut paper,
    )?;
    Ok(tries.tries())
}

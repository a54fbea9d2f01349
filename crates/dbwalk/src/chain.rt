// The walk along an overflow chain (Database File Format, 1.7).
ghost use Rattle.std.specs.Prelude.{◌≡◌, ◌+◌, ◌≤◌, ◌<◌, ◌∷◌, ℕ, List, [], Option, length, IfSome, IfOk, OnOk, is_some};
ghost use Rattle.dbformat.specs.FixedPages.{IsInRange, IsPageNumber};
ghost use Rattle.dbsurvey.specs.Story.{Go};
ghost use Rattle.dbformat.specs.File.{page_bytes};
ghost use Rattle.dbformat.specs.Header.{usable_size};
ghost use Rattle.dbformat.specs.Payload.{most_payload, overflow_next};
ghost use Rattle.dbformat.specs.Reference.{Reference};
ghost use Rattle.dbbytes.specs.declared.sieve.RowSieve.{RowSieve};
ghost use Rattle.dbtrace.specs.Walk.{Walk};
ghost use Rattle.dbwalk.specs.Chains.{IsChainOf, IsOnWay, IsOverflowVisited, FeedsSince, IsPlace};
ghost use Rattle.dbwalk.specs.Underway.{HasDone, IsAt, done_below};
ghost use Rattle.dbwalk.specs.Watching.{fed, never};
ghost use Rattle.dbwalk.specs.declared.state.Tree.{Tree};
ghost use Rattle.dbwalk.specs.Entered.{IsNext};
ghost use Rattle.dbwalk.specs.Beside.{IsPageBuffer, Turns, WalksBeside};
ghost use Rattle.dbwalk.specs.Reporting.{SinkMoves};

use crate::beside::enter_beside;
use crate::entering::Step;
use crate::overflow::{feed_page, last_fault, next_page, overflow_row, report};
use crate::{Mark, Marks, Sink};
use dbbytes::RowSieve;
use dbsource::{Bench, RunError, Source};
use std::alloc::Allocator;

/// The level of a bench for pages that are not of a tree: overflow pages, trunks, and map pages.
pub const CHAIN: usize = 20;

/// The head of an overflow chain: its cell, and its first page.
#[derive(Clone, Copy, Drop)]
pub(crate) struct Chain<'a> {
    /// The number of the tree's start.
    pub(crate) start: u32,
    /// The usable size of the file's pages.
    pub(crate) usable: u32,
    /// The children on the way to the page of the cell.
    pub(crate) path: &'a [u32],
    /// The page of the cell.
    pub(crate) page: u32,
    /// The number of the cell, from 0.
    pub(crate) cell: u32,
    /// Its rowid, in a leaf of a table.
    pub(crate) rowid: Option<i64>,
    /// The first overflow page, as the cell names it.
    pub(crate) first: u32,
    /// The number of payload bytes on overflow pages.
    pub(crate) left: u32,
}

/// A place along a chain: the number of the next page in it, the bytes that are left, and the reference to that page.
#[derive(Clone, Copy)]
pub(crate) struct ChainPlace {
    pub(crate) number: u32,
    pub(crate) left: u32,
    pub(crate) step: Step,
}

/// A chain, and a place along it.
#[derive(Clone, Copy)]
pub(crate) struct ChainPage<'a> {
    pub(crate) chain: &'a Chain<'a>,
    pub(crate) place: ChainPlace,
}

// Feeds the payload bytes of the page at a place of a chain to a sieve, reports its row and its fault, and answers the next page that it
// names.
fn visit_overflow<K: Sink>(
    bytes: &[u8],
    usable: u32,
    at: ChainPage<'_>,
    sieve: &mut Option<RowSieve>,
    sink: &mut K,
) -> u32
    requires usable { (480 ≤ usable) × (usable ≤ 65536) }
    requires whole { usable ≤ length bytes.now }
    requires counted { at.place.number + at.place.left ≤ most_payload }
    ensures next { result ≡ overflow_next bytes.now }
    ensures visited { (file : List ℕ) → bytes.now ≡ page_bytes file at.entry.place.step.page → usable ≡ usable_size file
        → IsOverflowVisited K.takes file at.entry.chain.now at.entry.place sieve.old sieve.new sink.old sink.new }
    ensures moves { SinkMoves (K.held sink.old) (K.held sink.new) }
    ensures kept { is_some sieve.new ≡ is_some sieve.old }
{
    let (page, left) = (at.place.step.page, at.place.left);
    let next = next_page(bytes);
    feed_page(bytes, usable, left, sieve);
    let row = overflow_row(at.chain, at.place, usable);
    let fault = last_fault(usable, left, page, next);
    report(&row, fault, at, usable, bytes, sink);
    next
}

// Goes on by one page, if the next one may be followed.
fn enter_overflow<S: Source, K: Sink, A: Allocator>(
    source: &mut S,
    buffer: &mut [u8],
    marks: &mut Marks<A>,
    at: ChainPage<'_>,
    sieve: &mut Option<RowSieve>,
    sink: &mut K,
) -> Result<Option<ChainPlace>, RunError>
    requires place { IsPlace at.place }
    requires buffer { IsPageBuffer at.chain.now.usable buffer.old }
    ensures walks { WalksBeside S.step result (S.held source.old) (S.held source.new) (K.held sink.old) (K.held sink.new) (length buffer.old)
        marks.old marks.new (λ file. (W : List Reference) (whole : Walk) (before : K) (first : Option RowSieve) (tree : Tree)
        → IsOnWay K.takes file W whole before at.entry.chain.now at.entry.place (marks.old, tree) sink.old first sieve.old buffer.old
        → Turns K.takes file whole before (λ place. IsOnWay K.takes file W whole before at.entry.chain.now place (marks.new, tree) sink.new first
        sieve.new buffer.new) (FeedsSince file W whole.visits first sieve.new) result (marks.new, tree) sink.new) }
    ensures kept { is_some sieve.new ≡ is_some sieve.old }
    ensures next { IfOk result (λ o. IfSome o (λ next. IsPlace next × (next.left < at.entry.place.left))) }
{
    let place = at.place;
    if !enter_beside(source, buffer, marks, place.step, Some(at), sink)? {
        return Ok(None);
    }
    let usable = at.chain.usable;
    let room = usable - 4;
    let next = visit_overflow(&*buffer, usable, at, sieve, sink);
    if place.left <= room {
        return Ok(None);
    }
    let step = Step {
        page: next,
        mark: Mark::LaterOverflow(place.step.page),
        from: place.step.page,
        item: 0,
        is_too_deep: false,
    };
    Ok(Some(ChainPlace {
        number: place.number + 1,
        left: place.left - room,
        step,
    }))
}

/// Walks along the overflow chain of a cell: marks its pages and then reads them, each once, and reports their rows and faults.
/// If there is a sieve, it is fed the payload bytes on them.
///
/// # Errors
///
/// [`RunError::ReadFailed`] exactly where the source failed, [`RunError::WriteFailed`] where the sink was found shut. The sink
/// was then given a beginning of what is reported otherwise.
pub(crate) fn walk_chain<S: Source, K: Sink, A: Allocator>(
    source: &mut S,
    buffer: &mut [u8],
    marks: &mut Marks<A>,
    chain: &Chain<'_>,
    sieve: &mut Option<RowSieve>,
    sink: &mut K,
) -> Result<(), RunError>
    requires chain { IsPageNumber chain.now.page × (chain.now.left ≤ most_payload) }
    requires buffer { IsPageBuffer chain.now.usable buffer.old }
    ensures walks { WalksBeside S.step result (S.held source.old) (S.held source.new) (K.held sink.old) (K.held sink.new) (length buffer.old)
        marks.old marks.new (λ file. (from : Walk) (c : Reference) (tree : Tree) → IsChainOf file chain.now c → IsNext from.visits c
        → IsAt file from marks.old tree
        → HasDone (fed K.takes) never file (done_below file from (Go c ∷ [])) result (marks.new, tree) sink.old sink.new
        × OnOk result (FeedsSince file from.visits (done_below file from (Go c ∷ [])).visits sieve.old sieve.new)) }
    ensures kept { is_some sieve.new ≡ is_some sieve.old }
{
    let step = Step {
        page: chain.first,
        mark: Mark::FirstOverflow(chain.page),
        from: chain.page,
        item: chain.cell,
        is_too_deep: false,
    };
    let mut place = ChainPlace {
        number: 0,
        left: chain.left,
        step,
    };
    while let Some(next) = enter_overflow(
        source,
        buffer,
        marks,
        ChainPage {
            chain: &*chain,
            place,
        },
        sieve,
        sink,
    )? {
        place = next;
    }
    Ok(())
}

/// Walks along the overflow chain of a cell as [`walk_chain`] does, for a caller that has no sieve. It is a function of its own
/// so that a sieve takes room on the stack only where there is a chain.
///
/// # Errors
///
/// Those of [`walk_chain`].
#[inline(never)]
pub(crate) fn walk_unfed<S: Source, K: Sink, A: Allocator>(
    source: &mut S,
    bench: &mut Bench<A>,
    marks: &mut Marks<A>,
    chain: &Chain<'_>,
    sink: &mut K,
) -> Result<(), RunError>
    requires chain { IsPageNumber chain.now.page × (chain.now.left ≤ most_payload) }
    requires usable { IsInRange bench.old.geometry × (chain.now.usable ≡ bench.old.geometry.usable) }
    ensures walks { WalksBeside S.step result (S.held source.old) (S.held source.new) (K.held sink.old) (K.held sink.new)
        bench.old.geometry.page_size marks.old marks.new (λ file. (from : Walk) (c : Reference) (tree : Tree) → IsChainOf file chain.now c
        → IsNext from.visits c → IsAt file from marks.old tree
        → HasDone (fed K.takes) never file (done_below file from (Go c ∷ [])) result (marks.new, tree) sink.old sink.new) }
    ensures bench { bench.new ≡ record bench.old { chain = bench.new.chain } }
{
    let (_, buffer) = bench.chain(0);
    walk_chain(source, buffer, marks, chain, &mut None, sink)
}

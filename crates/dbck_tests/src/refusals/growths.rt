// How many growths a run takes: 22 buffers of a page and the marks, and each is refused in turn; and the list of roots.
use crate::support::cases::{begins, command_of, out_of_memory, verdict_of};
use crate::support::fakes::SmallOut;
use crate::support::files::{DEEP_ROWS, EMPTY_PAGES, LONG_ROW_ROWS, OLD_VERSION};
use crate::support::samples::file_of;
use crate::support::stops::holds;
use bumpalo::Bump;
use dbreport::{Verdict, run};
use dbsource::{MemSource, RunError};
use linked_list_allocator::LocalHeap;
use std::alloc::{AllocError, Global};
use std::test::Fail;

// An arena with room for this many bytes more. What is given back leaves no room, since it is of two chunks: the first is full, and
// the second, which is twice as large, has the room.
fn arena(alloc: Global, room: usize) -> Result<Bump, AllocError> {
    let arena = Bump::try_with_capacity(alloc, 20000)?;
    let _ = arena.try_alloc_slice_fill_clone(20000, 0u8)?;
    let _ = arena.try_alloc_slice_fill_clone(5000, 0u8)?;
    arena.set_allocation_limit(Some(arena.allocated_bytes()));
    let spare = arena.chunk_capacity().saturating_sub(room);
    let _ = arena.try_alloc_slice_fill_clone(spare, 0u8)?;
    Ok(arena)
}

// How much of this room is left where vectors of these lengths were made and given back, one after another.
fn left_of(alloc: Global, room: usize, lens: &[usize]) -> Result<usize, AllocError> {
    let arena = arena(alloc, room)?;
    for len in lens {
        drop(Vec::from_elem(&arena, 0u8, *len)?);
    }
    Ok(arena.chunk_capacity())
}

#[test]
fn an_arena_gets_nothing_back(rt: HostRuntime) {
    holds!(rt; left_of(rt.alloc(), 1024, &[]) == Ok(1024));
    holds!(rt; left_of(rt.alloc(), 1024, &[512]) == Ok(512));
    holds!(rt; left_of(rt.alloc(), 1024, &[512, 512]) == Ok(0));
    holds!(rt; left_of(rt.alloc(), 1024, &[512, 512, 1]).is_err());
}

// What a run answers that has this many bytes in all, how many of them it left, and how long the texts are that it wrote.
type Grown = (Result<Verdict, RunError>, usize, usize, usize);

fn run_in_arena(alloc: Global, what: &str, file: &[u8], room: usize) -> Result<Grown, AllocError> {
    let arena = arena(alloc, room)?;
    let mut source = MemSource::new(file);
    let mut out = SmallOut::new(2048);
    let mut err = SmallOut::new(2048);
    let answer = run(&arena, command_of(what), &mut source, &mut out, &mut err);
    let left = arena.chunk_capacity();
    Ok((answer, left, out.bytes().len(), err.bytes().len()))
}

// What is run, the file, how many bytes its marks take, of four each, and what is written to both outs.
const GROWTHS: [(&str, &str, usize, &str, &str); 9] = [
    ("check", "Smallest 1", 4, "ok\n", ""),
    (
        "pages",
        "Smallest 1",
        4,
        "sqlite_schema|/|1|leaf|0|0|404|0|0|512\n",
        "",
    ),
    ("check", "Ladder 20", 80, EMPTY_PAGES, ""),
    ("pages", "Ladder 20", 80, DEEP_ROWS, EMPTY_PAGES),
    ("check", "Freelist 3", 12, "ok\n", ""),
    // A pointer map and a freelist.
    ("check", "MappedFreelist 4", 16, "ok\n", ""),
    (
        "all pages",
        "MappedFreelist 4",
        16,
        MAPPED_FREELIST_ROWS,
        "",
    ),
    // A row of the schema with a chain, whose root is none.
    ("check", "LongSql 3: 1 430 00", 12, UNUSED, ""),
    ("pages", "LongSql 3: 1 430 00", 12, LONG_SQL_ROWS, UNUSED),
];

const MAPPED_FREELIST_ROWS: &str = "sqlite_schema|/|1|leaf|0|0|404|0|0|512\n\
    -|-|2|map|0|0|0|0|512|512\n\
    -|-|3|trunk|0|0|0|0|1024|512\n\
    -|-|4|freeleaf|0|0|0|0|1536|512\n";

const LONG_SQL_ROWS: &str = "sqlite_schema|/|1|leaf|1|92|303|600|0|512\n\
    sqlite_schema|/000+000000|3|overflow|0|508|0|0|1024|512\n";

const UNUSED: &str = "N01 page 2 item 0 value 0: page is not in use\n";

// Whether a run has room for this many growths, and no more: with less than 23 all that there is room for are taken, and nothing is
// written; with room for just these no growth is missed, also none that would be given back. Pages are of 512 bytes.
fn takes_growths(
    alloc: Global,
    (what, _, marks, out, err): &(&str, &str, usize, &str, &str),
    file: &[u8],
    growths: usize,
) -> Result<bool, AllocError> {
    if growths < 23 {
        let found = run_in_arena(alloc, what, file, growths.wrapping_mul(512))?;
        return Ok(found == (out_of_memory(alloc), 0, 0, 0));
    }
    let verdict = verdict_of(if *what == "check" { out } else { err });
    let found = run_in_arena(alloc, what, file, marks.wrapping_add(22 * 512))?;
    Ok(found == (Ok(verdict), 0, out.len(), err.len()))
}

// The first number of growths of which this is not so, if there is one.
fn wrong_growths(
    alloc: Global,
    case: &(&str, &str, usize, &str, &str),
) -> Result<Option<usize>, AllocError> {
    let file = file_of(alloc, case.1)?;
    for growths in 0..24usize {
        if !takes_growths(alloc, case, file.as_slice(), growths)? {
            return Ok(Some(growths));
        }
    }
    Ok(None)
}

#[test]
fn takes_23_growths_and_no_more(rt: HostRuntime) -> Result<(), Fail> {
    for case in &GROWTHS {
        let wrong = wrong_growths(rt.alloc(), case)?;
        holds!(rt; wrong.is_none(), (case, wrong));
    }
    Ok(())
}

// The least room, beside the buffers and the marks of the pages, with which a check of a file gets its memory, in steps of 8 bytes.
fn least_room(alloc: Global, text: &str) -> Result<usize, AllocError> {
    let file = file_of(alloc, text)?;
    let marks = (file.len() / 512).wrapping_mul(4);
    for steps in 0..64usize {
        let more = steps.wrapping_mul(8);
        let room = marks.wrapping_add(22 * 512).wrapping_add(more);
        let (answer, _, _, _) = run_in_arena(alloc, "check", file.as_slice(), room)?;
        if answer.is_ok() {
            return Ok(more);
        }
    }
    Ok(usize::MAX)
}

// Files with one root, and the same with an empty one: an index of three pages and a chain, a table's chain, and one after a map.
const ROOTED: [[&str; 2]; 3] = [
    ["Index 5", "Index 5: 2 0 0a 0000 0000 0200 00"],
    ["LongRow 3", "LongRow 3: 2 0 0d 0000 0000 0200 00"],
    ["Mapped 4", "Mapped 4: 3 0 0d 0000 0000 0200 00"],
];

// Beside the list of roots, trees, chains and maps take no memory.
#[test]
fn trees_take_no_more_than_their_roots(rt: HostRuntime) -> Result<(), Fail> {
    for [text, empty] in ROOTED {
        let found = least_room(rt.alloc(), text)?;
        let least = least_room(rt.alloc(), empty)?;
        holds!(rt; found == least && 0 < least && least < 512, (text, found, least));
    }
    Ok(())
}

// What a run answers whose growths are from a heap of this many bytes, and how long the texts are that it wrote: of both the
// beginnings. All memory is given back.
type Written = (Result<Verdict, RunError>, usize, usize);

fn run_in_heap(
    alloc: Global,
    what: &str,
    file: &[u8],
    room: usize,
    (rows, told): (&str, &str),
) -> Result<Option<Written>, AllocError> {
    let heap = LocalHeap::new(alloc, room)?;
    let mut source = MemSource::new(file);
    let mut out = SmallOut::new(2048);
    let mut err = SmallOut::new(2048);
    let answer = run(&heap, command_of(what), &mut source, &mut out, &mut err);
    let are_begun = begins(rows, out.bytes()) && begins(told, err.bytes());
    let written = (answer, out.bytes().len(), err.bytes().len());
    Ok((are_begun && heap.used() == 0).then_some(written))
}

// What is run, what is written to both outs, and what of that is written where the list of roots finds no memory, after the buffers
// and the marks: the line of the header, and the row of page 1.
const ROOTS: [(&str, (&str, &str), (usize, usize)); 2] = [
    ("check", (OLD_VERSION, ""), (55, 0)),
    ("pages", (LONG_ROW_ROWS, OLD_VERSION), (41, 55)),
];

// In how many of 32 heaps, each of 16 bytes more than the one before, the list of roots finds no memory; and in all after these a run
// writes all.
fn refusals(
    alloc: Global,
    (what, texts, held): (&str, (&str, &str), (usize, usize)),
    file: &[u8],
) -> Result<Option<usize>, AllocError> {
    let refused = Some((out_of_memory(alloc), held.0, held.1));
    let whole = Some((Ok(Verdict::Faulty(1)), texts.0.len(), texts.1.len()));
    let mut refusals: usize = 0;
    for more in 0..32usize {
        let room = more.wrapping_mul(16).wrapping_add(22 * 512 + 16);
        let found = run_in_heap(alloc, what, file, room, texts)?;
        if found == refused && refusals == more {
            refusals = refusals.wrapping_add(1);
        } else if found != whole {
            return Ok(None);
        }
    }
    Ok(Some(refusals))
}

// The list grows by the root, and by its name.
#[test]
fn the_list_of_roots_finds_no_memory(rt: HostRuntime) -> Result<(), Fail> {
    let file = file_of(rt.alloc(), "LongRow 3: 1 18 03")?;
    for case in ROOTS {
        let found = refusals(rt.alloc(), case, file.as_slice())?;
        holds!(rt; matches!(found, Some(2..32)), (case.0, found));
    }
    Ok(())
}

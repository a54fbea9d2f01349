// Reads and memory that are refused in turn. What a write that fails leaves is said by the clauses of `explain`.
use crate::support::cases::{are_lines, lines, out_of_memory};
use crate::support::fakes::SmallOut;
use crate::support::samples::file_of;
use crate::support::stated::StatedSource;
use crate::support::stops::holds;
use dbexplain::{Explanation, explain};
use dbreport::Verdict;
use dbsource::{MemOut, MemSource, RunError};
use linked_list_allocator::LocalHeap;
use std::alloc::{AllocError, Global};
use std::test::Fail;

// Two tables of two leaves each, where the last child of `order` is the last one of `customer`, so that its own is lost.
const SHARED_FILE: &str = "Smallest 7: 1 47 04, 1 59 01, 1 100 0d 0000 0002 01d5 00 01e9 01d5, \
    1 469 12 02 06 17 17 0f 01 00 'tableordert' 05, 1 489 15 01 06 17 1d 0f 01 00 'tablecustomert' 02, \
    2 0 05 0000 0001 01fb 00 00000004 01fb, 2 507 00000003 05, \
    3 0 0d 0000 0002 01f8 00 01fc 01f8, 3 504 00 05, 3 508 00 04, \
    4 0 0d 0000 0002 01f8 00 01fc 01f8, 4 504 00 07, 4 508 00 06, \
    5 0 05 0000 0001 01fa 00 00000004 01fa, 5 506 00000006 8148, \
    6 0 0d 0000 0002 01f8 00 01fc 01f8, 6 504 00 8148, 6 508 00 64, \
    7 0 0d 0000 0001 01fc 00 01fc, 7 508 00 8149";

// What is written of it.
const SHARED: &str = "R03 page 5 item 1 value 4: page is already in use
    page 5 at byte 2048: root of table order
    page 4 at byte 1536: in table customer, child of page 2
N01 page 7 item 0 value 0: page is not in use
    page 7 at byte 3072: in no tree, overflow chain or freelist
    looks like a leaf of a table with 1 cell, rowids 201 to 201
2 faults
    1 R03 page is already in use
    1 N01 page is not in use
    1 in table order (root page 5), on 1 of its 2 pages
        rows not reached: rowids above 200
    1 in the whole file
    1 of 2 tables and 0 of 0 indexes without a fault
";

// A header with a wrong version, a pointer map whose entries of pages 4 and 8 are wrong, and pages 5 to 7 in no use: two of zeros, and a leaf
// between.
const LOST_BETWEEN: &str =
    "Smallest 8: 1 18 03, 1 47 04, 1 59 01, 1 100 0d 0000 0001 01f0 00 01f0, \
    1 496 0e 01 06 17 0f 0f 01 00 'tablett' 03, \
    1 52 00000003, 2 0 01 00000000 05 00000009, 2 25 05 00000009, \
    3 0 05 0000 0001 01fb 00 00000008 01fb, 3 507 00000004 0a, \
    4 0 0d 0000 0001 01fc 00 01fc, 4 508 00 0a, \
    6 0 0a 0000 0000 0200, \
    8 0 0d 0000 0001 01fc 00 01fc, 8 508 00 0b";

// The verdict of an answer.
fn verdict_in(answer: Result<Explanation, RunError>) -> Result<Verdict, RunError> {
    match answer {
        Ok(explanation) => Ok(explanation.verdict),
        Err(error) => Err(error),
    }
}

// Lists at most `limit` entries, while the source fails at one call, if that comes. True if this is the answer, and the first `count` lines
// of the text are written.
fn writes(
    alloc: Global,
    file: &[u8],
    (limit, fails_at): (u32, u64),
    wanted: Result<Verdict, RunError>,
    (text, count): (&str, usize),
) -> bool {
    let mut source = StatedSource::new(file, file.len() as u64, fails_at);
    let mut out = SmallOut::new(2048);
    let answer = verdict_in(explain(alloc, limit, &mut source, &mut out));
    answer == wanted && are_lines(text, count, out.bytes())
}

// Each call of the source fails in turn: its length, its header, and the six pages of both trees. No fault was found by then.
// Last the page that nothing refers to is read: then the line of the fault found before is written. There is no further call.
#[test]
fn each_read_fails_in_turn(rt: HostRuntime) -> Result<(), Fail> {
    let file = file_of(rt.alloc(), SHARED_FILE)?;
    for fails_at in 0..11u64 {
        let (answer, count) = match fails_at {
            0..8 => (Err(RunError::ReadFailed), 0),
            8 => (Err(RunError::ReadFailed), 1),
            _ => (Ok(Verdict::Faulty(2)), lines(SHARED.as_bytes())),
        };
        let is_so = writes(
            rt.alloc(),
            file.as_slice(),
            (100, fails_at),
            answer,
            (SHARED, count),
        );
        holds!(rt; is_so, fails_at);
    }
    Ok(())
}

// The lines of a file whose header is wrong, and two of whose map entries are; pages 5 to 7 are in no use, of which the last was not read.
const LOST: &str = "H01 page 1 item 18 value 3: file version is not 1 or 2
M01 page 4 item 5 value 9: pointer map entry differs
M01 page 8 item 5 value 9: pointer map entry differs
N01 page 5 item 0 value 0: page is not in use
N01 page 6 item 0 value 0: page is not in use
";

// The call of the source that fails, how many entries are listed at most, and how many lines are written: after the length and the header
// come the pages 1, 3, 4 and 8, the map, and the pages 5, 6 and 7.
const FOUND: [(u64, u32, usize); 15] = [
    (0, 100, 0),
    (1, 100, 0),
    (2, 100, 1),
    (3, 100, 1),
    (4, 100, 1),
    (5, 100, 1),
    (6, 100, 1),
    (7, 100, 3),
    (8, 100, 4),
    (9, 100, 5),
    // The entries of lost pages take no other's place.
    (7, 3, 3),
    (9, 4, 4),
    (9, 3, 3),
    (9, 2, 2),
    (9, 1, 1),
];

#[test]
fn what_was_found_is_written(rt: HostRuntime) -> Result<(), Fail> {
    let file = file_of(rt.alloc(), LOST_BETWEEN)?;
    let failed = Err(RunError::ReadFailed);
    for (fails_at, limit, count) in FOUND {
        let run = (limit, fails_at);
        holds!(rt; writes(rt.alloc(), file.as_slice(), run, failed, (LOST, count)), run);
    }
    Ok(())
}

// Whether a run answers this where its memory is a heap of this many bytes: nothing of it is held then, and nothing was written where it
// is an error.
fn is_answered_in(
    alloc: Global,
    file: &[u8],
    room: usize,
    wanted: Result<Verdict, RunError>,
) -> Result<bool, AllocError> {
    let heap = LocalHeap::new(alloc, room)?;
    let mut source = MemSource::new(file);
    let mut out = MemOut::new(alloc);
    let answer = verdict_in(explain(&heap, 100, &mut source, &mut out));
    let is_written = !out.bytes().is_empty();
    Ok(answer == wanted && heap.used() == 0 && answer.is_ok() == is_written)
}

// A buffer of a page for each of 22 levels, and four bytes a page of marks. The heap gives units of 16 bytes.
const DESK: usize = 22 * 512 + 32;

// 100 entries of 264 bytes.
const ENTRIES: usize = DESK + 100 * 264;

// A bit a page for those that are zeros, and one for those of one byte throughout.
const ZEROS: usize = ENTRIES + 16;

const BLANK: usize = ZEROS + 16;

// 16 bytes for each of 65537 starts, all but the freelist's; and a bit a page.
const STARTS: usize = BLANK + 65537 * 16;

const FAULTY: usize = STARTS + 16;

// Four bytes a page for the trees.
const TREES: usize = FAULTY + 32;

// 1000 ranges of 40 bytes; and 24 bytes and then one for each of 65537 starts, all but the freelist's.
const RANGES: usize = TREES + 1000 * 40;

const OTHERS: usize = RANGES + 65537 * 24 + 8;

const INDEXES: usize = OTHERS + 65537 + 15;
// As rows are read, the list of roots takes four rows of 20 bytes, and then 8 bytes of names, and 16 in their place.
const ROOTS: usize = INDEXES + 80;

const NAMES: usize = ROOTS + 16;

// Each is refused where there is room for those before it alone, and nothing where there is room for all.
#[test]
fn each_growth_is_refused(rt: HostRuntime) -> Result<(), Fail> {
    let file = file_of(rt.alloc(), SHARED_FILE)?;
    for room in [
        512usize,
        DESK - 16,
        DESK,
        ENTRIES,
        ZEROS,
        BLANK,
        STARTS,
        FAULTY,
        TREES,
        RANGES,
        OTHERS,
        INDEXES,
        ROOTS,
        NAMES,
        NAMES + 16,
    ] {
        let answer = if room <= NAMES {
            out_of_memory(rt.alloc())
        } else {
            Ok(Verdict::Faulty(2))
        };
        holds!(rt; is_answered_in(rt.alloc(), file.as_slice(), room, answer)?, room);
    }
    Ok(())
}

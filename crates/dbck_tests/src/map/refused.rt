// Reads and memory that are refused in turn. What a write that fails leaves is said by the clauses of `map`.
use crate::support::cases::out_of_memory;
use crate::support::samples::file_of;
use crate::support::stated::StatedSource;
use crate::support::stops::holds;
use dbmap::map;
use dbreport::Verdict;
use dbsource::{MemOut, MemSource, RunError};
use linked_list_allocator::LocalHeap;
use std::alloc::{AllocError, Global};
use std::test::Fail;

// A table `a`, whose root is page 2, with a payload that goes on on page 3; an index on page 4; page 5 is a trunk and 6 its leaf; page 7 is in
// no use.
const SMALL: &str =
    "Smallest 7: 1 32 00000005 00000002, 1 47 04, 1 59 01, 1 100 0d 0000 0002 01db 00 01f0 01db, \
    1 475 13 02 06 17 19 0f 01 00 'index<&' 22 0a 27 '>t' 04, 1 496 0e 01 06 17 0f 0f 01 00 'tableat' 02, \
    2 0 0d 0000 0001 019d 00 019d, 2 413 8458 05, 2 508 00000003, \
    4 0 0a 0000 0000 0200, \
    5 0 00000000 00000001 00000006";

// Whether a map answers so where the call of the source with this number fails, if there is one: nothing was put by then.
fn is_answered(
    alloc: Global,
    file: &[u8],
    fails_at: u64,
    wanted: Result<Verdict, RunError>,
) -> bool {
    let mut source = StatedSource::new(file, file.len() as u64, fails_at);
    let mut out = MemOut::new(alloc);
    let answer = map(alloc, "x", &mut source, &mut out);
    let is_put = !out.bytes().is_empty();
    answer == wanted && answer.is_ok() == is_put
}

// Each call of the source fails in turn: its length, its header, the pages 1 to 5, and last page 7, to which nothing refers. There is no
// further call.
#[test]
fn each_read_fails_in_turn(rt: HostRuntime) -> Result<(), Fail> {
    let file = file_of(rt.alloc(), SMALL)?;
    for fails_at in 0..10u64 {
        let wanted = if fails_at < 8 {
            Err(RunError::ReadFailed)
        } else {
            Ok(Verdict::Faulty(1))
        };
        holds!(rt; is_answered(rt.alloc(), file.as_slice(), fails_at, wanted), fails_at);
    }
    Ok(())
}

// Whether a heap of this many bytes answers so: nothing of it is held then, and nothing was put where it is an error.
fn is_answered_in(
    alloc: Global,
    file: &[u8],
    room: usize,
    wanted: Result<Verdict, RunError>,
) -> Result<bool, AllocError> {
    let heap = LocalHeap::new(alloc, room)?;
    let mut source = MemSource::new(file);
    let mut out = MemOut::new(alloc);
    let answer = map(&heap, "x", &mut source, &mut out);
    let is_put = !out.bytes().is_empty();
    Ok(answer == wanted && heap.used() == 0 && answer.is_ok() == is_put)
}

// A buffer of a page for each of 22 levels, and four bytes a page of marks.
const DESK: usize = 22 * 512 + 32;

// Four bytes a page for the trees.
const TREES: usize = DESK + 32;

// 8 bytes for each of 65537 starts, all but the freelist's. The heap gives units of 16 bytes.
const TALLY: usize = TREES + 65537 * 8 + 8;

// 8 bytes for each of 7 squares.
const SQUARES: usize = TALLY + 64;

// And a bit a page for those with a fault, and one for those with the strong frame.
const FAULTY: usize = SQUARES + 16;

const FRAMED: usize = FAULTY + 16;

// 264 bytes for each of 100 entries.
const ENTRIES: usize = FRAMED + 100 * 264;

// A bit a page for those that are zeros, and one for those of one byte throughout.
const ZEROS: usize = ENTRIES + 16;

const BLANK: usize = ZEROS + 16;

// As rows are read, the list of roots takes four rows of 20 bytes, and then 8 bytes of names.
const ROOTS: usize = BLANK + 80;

// Each is refused where there is room for those before it alone, and nothing where there is room for all.
#[test]
fn each_growth_is_refused(rt: HostRuntime) -> Result<(), Fail> {
    let file = file_of(rt.alloc(), SMALL)?;
    for room in [
        512usize,
        DESK - 16,
        DESK,
        TREES,
        TALLY,
        SQUARES,
        FAULTY,
        FRAMED,
        ENTRIES,
        ZEROS,
        BLANK,
        ROOTS,
        ROOTS + 16,
    ] {
        let wanted = if room <= ROOTS {
            out_of_memory(rt.alloc())
        } else {
            Ok(Verdict::Faulty(1))
        };
        holds!(rt; is_answered_in(rt.alloc(), file.as_slice(), room, wanted)?, room);
    }
    Ok(())
}

// Each read of a run fails in turn: the answer, and what was written by then.
use crate::support::cases::{are_lines, command_of, lines, verdict_of};
use crate::support::fakes::SmallOut;
use crate::support::files::{LONG_ROW_ROWS, MAPPED_ROWS, OLD_VERSION};
use crate::support::peeking::{PeekingSource, SeenWriter};
use crate::support::samples::file_of;
use crate::support::stated::StatedSource;
use crate::support::stops::holds;
use dbreport::{Verdict, run};
use dbsource::{Change, Changes, Patched, RunError, Source, StreamOut};
use std::alloc::Global;
use std::cell::Cell;
use std::test::Fail;

// What is run, the file, what is written to the first out, and how many lines of that are written after a failure of the length, the
// header, and each page in turn.
const READS: [[&str; 4]; 9] = [
    // `ok` comes at the end.
    ["check", "LongRow 3", "ok\n", "0 0 0 0 0"],
    // The line of the header is written before page 1 is read.
    ["check", "LongRow 3: 1 18 03", OLD_VERSION, "0 0 1 1 1"],
    // Of two trunks each is read once, and of the first, which has the leaves 9 and 4, the fault is written before the second is read.
    [
        "check",
        "Smallest 4: 1 32 00000002 00000003, 2 0 00000003 00000002 00000009 00000004, 3 0 00000002",
        "R01 page 2 item 0 value 9: page number out of range\nR03 page 3 item 0 value 2: page is already in use\n",
        "0 0 0 0 1",
    ],
    ["pages", "LongRow 3", LONG_ROW_ROWS, "0 0 0 1 2"],
    // The row of a tree is written when its last page is read.
    [
        "trees",
        "LongRow 3",
        "sqlite_schema|-|1|-|1|14|386|14|-|512\nt|-|2|-|1|600|403|600|-|1024\n",
        "0 0 0 1 1",
    ],
    // After page 4 the map page 2 is read, when all rows are written.
    ["all pages", "Mapped 4", MAPPED_ROWS, "0 0 0 1 2 4"],
    [
        "all trees",
        "Mapped 4",
        "sqlite_schema|-|1|-|1|14|386|14|-|512\nt|-|2|-|1|600|403|600|-|1024\n-|-|2|map|0|0|0|0|512|512\n",
        "0 0 0 1 1 3",
    ],
    // The trunk on page 3 is read after page 2.
    [
        "all pages",
        "LongRow 3: 1 32 00000003 00000001, 2 0 0d 0000 0000 0200 00, 2 508 00000000",
        "sqlite_schema|/|1|leaf|1|14|386|14|0|512\nt|/|2|leaf|0|0|504|0|512|512\n-|-|3|trunk|0|0|0|0|1024|512\n",
        "0 0 0 1 2",
    ],
    [
        "all pages",
        "Smallest 1",
        "sqlite_schema|/|1|leaf|0|0|404|0|0|512\n",
        "0 0 0",
    ],
];

// What a run answers whose call of this number fails, from 0, and how many lines it writes; where no call fails, all lines.
fn wanted_of(
    [what, _, text, counts]: &[&str; 4],
    fails_at: usize,
) -> (Result<Verdict, RunError>, usize) {
    match counts.split(' ').nth(fails_at) {
        Some(count) => {
            let count = count.parse::<usize>().unwrap_or(usize::MAX);
            (Err(RunError::ReadFailed), count)
        }
        // The files of the statistics have no fault.
        None => (
            Ok(verdict_of(if *what == "check" { text } else { "" })),
            lines(text.as_bytes()),
        ),
    }
}

// True if the run over a source whose call of this number fails gives that answer and writes that many lines.
fn is_written<S: Source>(alloc: Global, case: &[&str; 4], source: &mut S, fails_at: usize) -> bool {
    let mut out = SmallOut::new(2048);
    let mut err = SmallOut::new(0);
    let answer = run(alloc, command_of(case[0]), source, &mut out, &mut err);
    let (wanted, count) = wanted_of(case, fails_at);
    answer == wanted && are_lines(case[2], count, out.bytes())
}

// A source of a file whose call of this number fails, from 0.
fn failing(file: &[u8], fails_at: usize) -> StatedSource<'_> {
    StatedSource::new(file, file.len() as u64, fails_at as u64)
}

// Call 0 is the length, call 1 the header, and the others a page each. No line of a fault is written to the second out.
#[test]
fn each_read_fails_in_turn(rt: HostRuntime) -> Result<(), Fail> {
    for case in &READS {
        let file = file_of(rt.alloc(), case[1])?;
        let calls = case[3].split(' ').count();
        for fails_at in 0..calls.wrapping_add(2) {
            let mut source = failing(file.as_slice(), fails_at);
            holds!(rt; is_written(rt.alloc(), case, &mut source, fails_at), (case, fails_at));
        }
    }
    Ok(())
}

// Where the version is a change over the file, each call fails as where it is written in the file.
#[test]
fn each_read_under_a_change_fails_in_turn(rt: HostRuntime) -> Result<(), Fail> {
    let file = file_of(rt.alloc(), "LongRow 3")?;
    let mut changes = Changes::new();
    let added = Change::new(18, &[3]).and_then(|change| changes.add(change));
    holds!(rt; added.is_ok());
    let case = ["check", "LongRow 3", OLD_VERSION, "0 0 1 1 1"];
    for fails_at in 0..7usize {
        let mut source = Patched::new(&changes, failing(file.as_slice(), fails_at));
        holds!(rt; is_written(rt.alloc(), &case, &mut source, fails_at), fails_at);
    }
    Ok(())
}

// What is found is written before the next page is read: the row of page 1 is there when the read of page 2 fails.
#[test]
fn holds_nothing_back(rt: HostRuntime) -> Result<(), Fail> {
    let file = file_of(rt.alloc(), "Smallest 2: 1 100 05, 1 108 00000002")?;
    let (written, seen) = (Cell::new(0), Cell::new(0));
    let stated = StatedSource::new(file.as_slice(), 1024, 3);
    let mut source = PeekingSource::new(stated, &written, &seen);
    let mut out = StreamOut::new(SeenWriter::new(&written));
    let mut err = SmallOut::new(0);
    let command = command_of("pages");
    let answer = run(rt.alloc(), command, &mut source, &mut out, &mut err);
    holds!(rt; answer == Err(RunError::ReadFailed));
    holds!(rt; seen.get() == "sqlite_schema|/|1|internal|0|0|400|0|0|512\n".len());
    Ok(())
}

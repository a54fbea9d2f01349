// An out has room for each number of bytes in turn: the answer, and what was written by then.
use crate::support::cases::{begins, command_of, is_text, lines, verdict_of};
use crate::support::fakes::{FakeWriter, Manner, SmallOut};
use crate::support::files::{EMPTY_PAGES, LONG_ROW_ROWS, MAPPED_ROWS, OLD_VERSION};
use crate::support::samples::file_of;
use crate::support::stated::StatedSource;
use crate::support::stops::holds;
use dbreport::{Verdict, run};
use dbsource::{MemSource, RunError, StreamOut};
use std::alloc::Global;
use std::test::Fail;

// A ladder of three pages: two interior pages and a leaf.
const LADDER_ROWS: &str = "sqlite_schema|/|1|internal|0|0|400|0|0|512\n\
    sqlite_schema|/000/|2|internal|0|0|500|0|512|512\n\
    sqlite_schema|/000/000/|3|leaf|0|0|504|0|1024|512\n";

const LADDER_LINES: &str = "P10 page 2 item 0 value 0: empty page that is not a root\n\
    P10 page 3 item 0 value 0: empty page that is not a root\n";

// What is run, the file, and what is written to both outs, of which the first has little room.
const FIRST_OUTS: [[&str; 4]; 8] = [
    ["check", "LongRow 3", "ok\n", ""],
    ["check", "LongRow 3: 1 18 03", OLD_VERSION, ""],
    ["check", "Ladder 20", EMPTY_PAGES, ""],
    ["pages", "LongRow 3", LONG_ROW_ROWS, ""],
    [
        "trees",
        "LongRow 3",
        "sqlite_schema|-|1|-|1|14|386|14|-|512\nt|-|2|-|1|600|403|600|-|1024\n",
        "",
    ],
    ["all pages", "Mapped 4", MAPPED_ROWS, ""],
    ["pages", "Ladder 3", LADDER_ROWS, LADDER_LINES],
    [
        "trees",
        "Ladder 3",
        "sqlite_schema|-|3|-|0|0|1404|0|-|1536\n",
        LADDER_LINES,
    ],
];

// Whether the first out holds a beginning of what is written to it, as long as its room, and the second one a beginning too.
fn fills_first(alloc: Global, [what, _, text, told]: &[&str; 4], file: &[u8], room: usize) -> bool {
    let mut source = MemSource::new(file);
    let mut out = SmallOut::new(room);
    let mut err = SmallOut::new(2048);
    let command = command_of(what);
    let answer = run(alloc, command, &mut source, &mut out, &mut err);
    let report = if *what == "check" { text } else { told };
    let wanted = if room < text.len() {
        Err(RunError::WriteFailed)
    } else {
        Ok(verdict_of(report))
    };
    answer == wanted
        && out.bytes().len() == room.min(text.len())
        && begins(text, out.bytes())
        && told.as_bytes().starts_with(err.bytes())
}

#[test]
fn each_write_to_the_first_out_fails_in_turn(rt: HostRuntime) -> Result<(), Fail> {
    for case in &FIRST_OUTS {
        let file = file_of(rt.alloc(), case[1])?;
        for room in 0..case[2].len().wrapping_add(2) {
            holds!(rt; fills_first(rt.alloc(), case, file.as_slice(), room), (case, room));
        }
    }
    Ok(())
}

// How many calls a source gets where a row of each page is shown, and the first `room` bytes of them are taken.
fn calls_of(alloc: Global, file: &[u8], room: usize) -> u64 {
    let mut source = StatedSource::new(file, file.len() as u64, u64::MAX);
    let (mut out, mut err) = (SmallOut::new(room), SmallOut::new(0));
    let _ = run(alloc, command_of("pages"), &mut source, &mut out, &mut err);
    source.calls()
}

// Asked for are the length, the header and three pages, and after a write that failed nothing more.
#[test]
fn a_failed_write_ends_the_reads(rt: HostRuntime) -> Result<(), Fail> {
    let file = file_of(rt.alloc(), "LongRow 3")?;
    for (room, calls) in [(0, 3), (2048, 5)] {
        holds!(rt; calls_of(rt.alloc(), file.as_slice(), room) == calls, room);
    }
    Ok(())
}

// The file, its rows, its lines, for which the second out has little room, and how many rows are before the first line.
const SECOND_OUTS: [(&str, &str, &str, usize); 3] = [
    // The line of the header comes before all rows, and that of the overflow page after them.
    ("LongRow 3: 1 18 03", LONG_ROW_ROWS, OLD_VERSION, 0),
    (
        "LongRow 3: 3 0 00000002",
        LONG_ROW_ROWS,
        "O01 page 3 item 0 value 2: last overflow page names a next page\n",
        3,
    ),
    // The first line is of page 2.
    ("Ladder 3", LADDER_ROWS, LADDER_LINES, 2),
];

// Whether the second out holds a beginning of the lines, as long as its room, and the rows before the line that failed are written.
fn fills_second(
    alloc: Global,
    (_, rows, told, first): &(&str, &str, &str, usize),
    file: &[u8],
    room: usize,
) -> bool {
    let mut source = MemSource::new(file);
    let mut out = SmallOut::new(2048);
    let mut err = SmallOut::new(room);
    let command = command_of("pages");
    let answer = run(alloc, command, &mut source, &mut out, &mut err);
    let is_reported = Some(err.bytes()) == told.as_bytes().get(..room.min(told.len()));
    if room < told.len() {
        is_reported
            && answer == Err(RunError::WriteFailed)
            && begins(rows, out.bytes())
            && lines(out.bytes()) == lines(err.bytes()).wrapping_add(*first)
    } else {
        is_reported && answer == Ok(verdict_of(told)) && is_text(rows, out.bytes())
    }
}

#[test]
fn each_write_to_the_second_out_fails_in_turn(rt: HostRuntime) -> Result<(), Fail> {
    for case in &SECOND_OUTS {
        let file = file_of(rt.alloc(), case.0)?;
        for room in 0..case.2.len().wrapping_add(2) {
            holds!(rt; fills_second(rt.alloc(), case, file.as_slice(), room), (case, room));
        }
    }
    Ok(())
}

// Whether a writer that answers so takes this, and the run answers so.
fn is_taken(
    alloc: Global,
    what: &str,
    file: &[u8],
    manner: Manner,
    wanted: (Result<Verdict, RunError>, &str),
) -> bool {
    let mut writer = FakeWriter::new(manner);
    let mut err = SmallOut::new(0);
    let mut out = StreamOut::new(&mut writer);
    let command = command_of(what);
    let answer = run(
        alloc,
        command,
        &mut MemSource::new(file),
        &mut out,
        &mut err,
    );
    answer == wanted.0 && is_text(wanted.1, writer.taken())
}

// A writer that takes a byte at a call gets the same text, and one that takes nothing fails the run.
#[test]
fn runs_to_writers(rt: HostRuntime) -> Result<(), Fail> {
    let row = "sqlite_schema|/|1|leaf|0|0|404|0|0|512\n";
    let failed = (Err(RunError::WriteFailed), "");
    for (what, text, written) in [("check", "LongRow 3", "ok\n"), ("pages", "Smallest 1", row)] {
        let file = file_of(rt.alloc(), text)?;
        let file = file.as_slice();
        for (manner, wanted) in [
            (Manner::OneByte, (Ok(Verdict::Clean), written)),
            (Manner::Nothing, failed),
            (Manner::Fails, failed),
        ] {
            holds!(rt; is_taken(rt.alloc(), what, file, manner, wanted), what);
        }
    }
    Ok(())
}

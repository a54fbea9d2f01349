// Commands and verdicts by texts.
use crate::runs::{check_of, stat_of};
use dbreport::{Command, Verdict};
use dbsource::RunError;
use dbsource::memory::with_room;
use std::alloc::Global;

/// How many line feeds there are.
pub(crate) fn lines(bytes: &[u8]) -> usize {
    bytes.iter().filter(|byte| **byte == b'\n').count()
}

/// The verdict on a file whose report is this: each line is of a fault, but `ok`.
pub(crate) fn verdict_of(report: &str) -> Verdict {
    let faults = lines(report.as_bytes());
    if faults == 0 || report == "ok\n" {
        Verdict::Clean
    } else {
        Verdict::Faulty(faults as u64)
    }
}

/// What a run answers that finds no memory: no machine has room for so much.
pub(crate) fn out_of_memory(alloc: Global) -> Result<Verdict, RunError> {
    let _room = with_room::<u8, Global>(alloc, usize::MAX)?;
    Ok(Verdict::Clean)
}

/// The command that a text names: a check that shows a hundred faults, or a form of the statistics.
pub(crate) fn command_of(text: &str) -> Command {
    match text {
        "check" => check_of(100),
        "pages" => stat_of(false, false),
        "trees" => stat_of(true, false),
        "all pages" => stat_of(false, true),
        _ => stat_of(true, true),
    }
}

/// Whether some bytes are a beginning of a text in which each tab is written `|`.
pub(crate) fn begins(text: &str, bytes: &[u8]) -> bool {
    bytes.len() <= text.len()
        && bytes.iter().zip(text.as_bytes()).all(|(byte, wanted)| {
            if *wanted == b'|' {
                *byte == b'\t'
            } else {
                byte == wanted
            }
        })
}

/// Whether some bytes are a text in which each tab is written `|`.
pub(crate) fn is_text(text: &str, bytes: &[u8]) -> bool {
    bytes.len() == text.len() && begins(text, bytes)
}

/// Whether some bytes are the first `count` lines of a text in which each tab is written `|`.
pub(crate) fn are_lines(text: &str, count: usize, bytes: &[u8]) -> bool {
    let are_whole = bytes.is_empty() || bytes.ends_with(b"\n");
    are_whole && lines(bytes) == count && begins(text, bytes)
}

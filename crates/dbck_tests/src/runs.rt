// Runs into memory.
use dbreport::{Command, Verdict, run};
use dbsource::{MemOut, RunError, Source};
use std::alloc::Global;

/// A check that shows this many faults.
pub(crate) fn check_of(limit: u32) -> Command {
    Command::Check { limit }
}

/// The statistics of pages or of trees, and whether pages are shown that are in no tree.
pub(crate) fn stat_of(aggregate: bool, all: bool) -> Command {
    Command::Stat { aggregate, all }
}

/// What a run answers, and what is in its outs.
#[derive(Drop)]
pub(crate) struct Found {
    pub(crate) answer: Result<Verdict, RunError>,
    pub(crate) out: MemOut,
    pub(crate) err: MemOut,
}

/// What a run over a source finds.
pub(crate) fn found_of<S: Source>(alloc: Global, command: Command, source: &mut S) -> Found {
    let mut out = MemOut::new(alloc);
    let mut err = MemOut::new(alloc);
    let answer = run(alloc, command, source, &mut out, &mut err);
    Found { answer, out, err }
}

/// Whether two runs answer and write the same.
pub(crate) fn is_same(one: &Found, other: &Found) -> bool {
    one.answer == other.answer
        && one.out.bytes() == other.out.bytes()
        && one.err.bytes() == other.err.bytes()
}

/// Whether each out of a run has a beginning of what another's has.
pub(crate) fn is_beginning(one: &Found, whole: &Found) -> bool {
    whole.out.bytes().starts_with(one.out.bytes()) && whole.err.bytes().starts_with(one.err.bytes())
}

/// Whether a run wrote something.
pub(crate) fn has_written(found: &Found) -> bool {
    !found.out.bytes().is_empty() || !found.err.bytes().is_empty()
}

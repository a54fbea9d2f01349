// A run over a file that is written meanwhile, where each read answers bytes of another version: it writes to both outs, and
// answers, what a run over the one file does that the answers make up under the header that was read first. Where a read fails, a
// beginning of what there would be is written.
use crate::runs::{Found, check_of, found_of, has_written, is_beginning, is_same, stat_of};
use crate::support::bytes::patch;
use crate::support::cases::lines;
use crate::support::samples::file_of;
use crate::support::stops::holds;
use crate::support::versions::{Answer, ChangingSource};
use dbreport::{Command, Verdict};
use dbsource::{MemSource, RunError, Source};
use std::alloc::{AllocError, Global};
use std::process::Abort;
use std::test::Fail;

// Writes an answer over a file at its place.
fn put_answer(file: &mut [u8], answer: &Answer) {
    let at = usize::try_from(answer.offset).unwrap_or(usize::MAX);
    patch(file, at, answer.bytes.as_slice());
}

// Makes of zeros the file that answers make up: each answer at its place, and last the header that was read first.
fn put_together(file: &mut [u8], answers: &[Answer]) {
    for answer in answers {
        put_answer(file, answer);
    }
    if let Some(header) = answers.first() {
        put_answer(file, header);
    }
}

// What is found in the file that answers make up.
fn found_in(alloc: Global, case: Case<'_>, answers: &[Answer]) -> Result<Found, AllocError> {
    let mut file = Vec::from_elem(alloc, 0u8, case.file.len())?;
    put_together(file.as_mut_slice(), answers);
    let mut source = MemSource::new(file.as_slice());
    Ok(found_of(alloc, case.command, &mut source))
}

// Whether a read of this number was of the header, or of a page: of page 1 first, and of none that was read before after the
// header.
fn is_in_place(answers: &[Answer], number: usize) -> bool {
    let Some(answer) = answers.get(number) else {
        return true;
    };
    let size = answer.bytes.len() as u64;
    if number == 0 {
        return answer.offset == 0 && size == 100;
    }
    let is_page = size >= 512 && answer.offset.checked_rem(size) == Some(0);
    let mut is_in_place = is_page && (number > 1 || answer.offset == 0);
    for other in answers.iter().take(number).skip(1) {
        let is_other = other.offset != answer.offset && other.bytes.len() as u64 == size;
        is_in_place = is_in_place && is_other;
    }
    is_in_place
}

// That the header was read first, then page 1, if any, and no page twice after the header.
fn is_each_page_once(answers: &[Answer]) -> bool {
    let mut is_once = true;
    for number in 0..answers.len() {
        is_once = is_once && is_in_place(answers, number);
    }
    is_once
}

// A command, a file, and the first value of the counter that draws its versions.
#[derive(Clone, Copy)]
struct Case<'a> {
    command: Command,
    file: &'a [u8],
    seed: u32,
}

// How many runs were of each kind, and how many would have been reported otherwise of a later version of one page, and of the header
// that stood on page 1 when that was read as a page.
#[derive(Clone, Copy, Default)]
struct Counts {
    clean: u32,
    faulty: u32,
    refused: u32,
    later: u32,
    headed: u32,
    // How many failed runs had written something.
    begun: u32,
}

// One more where this holds.
fn count(number: &mut u32, holds: bool) {
    *number = number.wrapping_add(u32::from(holds));
}

// Whether there was a run of each kind.
fn are_all_met(counts: &Counts) -> bool {
    let are_answered = counts.clean > 0 && counts.faulty > 0 && counts.refused > 0;
    are_answered && counts.later > 0 && counts.headed > 0 && counts.begun > 0
}

// Whether as many lines of faults were written as the verdict says, and nothing else beside the rows.
fn has_its_lines(command: Command, found: &Found) -> bool {
    let (out, err) = (found.out.bytes(), found.err.bytes());
    let is_check = command == check_of(LIMIT);
    let told = if is_check { out } else { err };
    let clean = if is_check { "ok\n" } else { "" };
    let is_reported = match found.answer {
        Ok(Verdict::Clean) => told == clean.as_bytes(),
        Ok(Verdict::Faulty(faults)) => faults == lines(told) as u64,
        Err(RunError::Refused(_)) => out.is_empty() && err.is_empty(),
        Err(_) => false,
    };
    is_reported && (err.is_empty() || !is_check)
}

// Reads one of the pages again that were read, which is a later version of it.
fn read_one_again(
    alloc: Global,
    source: &mut ChangingSource<'_>,
    seed: u32,
) -> Result<(), AllocError> {
    let pages = source.answers().len().saturating_sub(1);
    let number = (seed as usize).checked_rem(pages).unwrap_or(0);
    let (offset, len) = match source.answers().get(number.wrapping_add(1)) {
        Some(answer) => (answer.offset, answer.bytes.len()),
        None => return Ok(()),
    };
    let mut page = Vec::from_elem(alloc, 0u8, len)?;
    let _ = source.read_at(offset, page.as_mut_slice());
    Ok(())
}

// Whether the file that answers make up is found otherwise.
fn is_other_in(
    alloc: Global,
    case: Case<'_>,
    answers: &[Answer],
    found: &Found,
) -> Result<bool, AllocError> {
    let other = found_in(alloc, case, answers)?;
    Ok(!is_same(found, &other))
}

// Whether a run to its end asked for the length once, read each page once, and found what is in the file that its answers make up.
fn is_whole_run_right(
    alloc: Global,
    case: Case<'_>,
    source: &ChangingSource<'_>,
    found: &Found,
) -> Result<bool, AllocError> {
    let answers = source.answers();
    let is_other = is_other_in(alloc, case, answers, found)?;
    let is_kept = source.lens() == 1 && answers.len() == source.reads();
    Ok(is_kept && is_each_page_once(answers) && !is_other && has_its_lines(case.command, found))
}

// Counts of what kind an answer is.
fn count_answer(answer: Result<Verdict, RunError>, counts: &mut Counts) {
    match answer {
        Ok(Verdict::Clean) => count(&mut counts.clean, true),
        Ok(Verdict::Faulty(_)) => count(&mut counts.faulty, true),
        Err(_) => count(&mut counts.refused, true),
    }
}

// Counts whether a run to its end would have found something else under another header, and in a later version of a page.
fn count_others(
    alloc: Global,
    case: Case<'_>,
    source: &mut ChangingSource<'_>,
    found: &Found,
    counts: &mut Counts,
) -> Result<(), AllocError> {
    let pages = source.answers().get(1..).unwrap_or(&[]);
    let is_headed = is_other_in(alloc, case, pages, found)?;
    count(&mut counts.headed, !pages.is_empty() && is_headed);
    read_one_again(alloc, source, case.seed)?;
    let is_later = is_other_in(alloc, case, source.answers(), found)?;
    count(&mut counts.later, is_later);
    Ok(())
}

// How many reads a run to its end made, if it is right.
fn reads_of(
    alloc: Global,
    case: Case<'_>,
    source: &mut ChangingSource<'_>,
    found: &Found,
    counts: &mut Counts,
) -> Result<Option<usize>, AllocError> {
    let reads = source.reads();
    let is_right = is_whole_run_right(alloc, case, source, found)?;
    count_answer(found.answer, counts);
    count_others(alloc, case, source, found, counts)?;
    Ok(is_right.then_some(reads))
}

// A run to its end, and how many reads it makes, if it is right.
fn whole_run(
    alloc: Global,
    case: Case<'_>,
    counts: &mut Counts,
) -> Result<Option<usize>, AllocError> {
    let mut source = ChangingSource::new(alloc, case.file, case.seed, usize::MAX);
    let found = found_of(alloc, case.command, &mut source);
    reads_of(alloc, case, &mut source, &found, counts)
}

// Whether what was written is a beginning of what is written of the file that answers make up.
fn is_beginning_in(
    alloc: Global,
    case: Case<'_>,
    answers: &[Answer],
    found: &Found,
) -> Result<bool, AllocError> {
    let whole = found_in(alloc, case, answers)?;
    Ok(is_beginning(found, &whole))
}

// Whether a run whose read of this number failed is right: the length was asked for once, nothing was read after the failure, and what was
// written is a beginning of what is written of a file with zeros in place of what was not read.
fn is_failing_run_right(
    alloc: Global,
    case: Case<'_>,
    source: &ChangingSource<'_>,
    fails_at: usize,
    found: &Found,
) -> Result<bool, AllocError> {
    let calls = (source.lens(), source.answers().len(), source.reads());
    let has_failed = found.answer == Err(RunError::ReadFailed);
    let is_beginning = is_beginning_in(alloc, case, source.answers(), found)?;
    Ok(is_beginning && has_failed && calls == (1, fails_at, fails_at.wrapping_add(1)))
}

// The same run where one read fails, and whether it is right.
fn failing_run(
    alloc: Global,
    case: Case<'_>,
    fails_at: usize,
    counts: &mut Counts,
) -> Result<bool, AllocError> {
    let mut source = ChangingSource::new(alloc, case.file, case.seed, fails_at);
    let found = found_of(alloc, case.command, &mut source);
    count(&mut counts.begun, has_written(&found));
    is_failing_run_right(alloc, case, &source, fails_at, &found)
}

// Whether a run to its end is right, and one of which a read fails.
fn are_runs_right(alloc: Global, case: Case<'_>, counts: &mut Counts) -> Result<bool, AllocError> {
    let Some(reads) = whole_run(alloc, case, counts)? else {
        return Ok(false);
    };
    let fails_at = (case.seed as usize).checked_rem(reads).unwrap_or(0);
    failing_run(alloc, case, fails_at, counts)
}

// Runs a command over the versions of a file, from 100 first values.
fn runs_over_file(
    rt: &impl Abort,
    alloc: Global,
    command: Command,
    name: &str,
) -> Result<(), AllocError> {
    let file = file_of(alloc, name)?;
    let file = file.as_slice();
    let mut counts = Counts::default();
    for seed in 0..100u32 {
        let case = Case {
            command,
            file,
            seed,
        };
        holds!(*rt; are_runs_right(alloc, case, &mut counts)?, (name, seed));
    }
    holds!(*rt; are_all_met(&counts), name);
    Ok(())
}

// Runs a command over the versions of each file.
fn runs_over_versions(rt: &impl Abort, alloc: Global, command: Command) -> Result<(), Fail> {
    for name in [
        "MappedForest 19",
        "Forest 19",
        "Mapped 4",
        "TwoLeaves 4",
        "LongSql 3",
    ] {
        runs_over_file(rt, alloc, command, name)?;
    }
    Ok(())
}

// What is changed is a sound file.
#[test]
fn forests_are_sound(rt: HostRuntime) -> Result<(), Fail> {
    for name in ["Forest 19", "MappedForest 19"] {
        let file = file_of(rt.alloc(), name)?;
        let mut source = MemSource::new(file.as_slice());
        let found = found_of(rt.alloc(), check_of(LIMIT), &mut source);
        holds!(rt; found.answer == Ok(Verdict::Clean), name);
    }
    Ok(())
}

// How many faults a check shows.
const LIMIT: u32 = 1000000;

#[test]
fn checks_what_was_answered(rt: HostRuntime) -> Result<(), Fail> {
    runs_over_versions(&rt, rt.alloc(), check_of(LIMIT))
}

#[test]
fn shows_pages_as_they_were_answered(rt: HostRuntime) -> Result<(), Fail> {
    runs_over_versions(&rt, rt.alloc(), stat_of(false, false))
}

#[test]
fn shows_trees_as_they_were_answered(rt: HostRuntime) -> Result<(), Fail> {
    runs_over_versions(&rt, rt.alloc(), stat_of(true, false))
}

#[test]
fn shows_all_pages_as_they_were_answered(rt: HostRuntime) -> Result<(), Fail> {
    runs_over_versions(&rt, rt.alloc(), stat_of(false, true))
}

#[test]
fn shows_trees_and_other_pages_as_they_were_answered(rt: HostRuntime) -> Result<(), Fail> {
    runs_over_versions(&rt, rt.alloc(), stat_of(true, true))
}

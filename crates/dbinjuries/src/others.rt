// The line of the faults that belong to an injury.
ghost use Rattle.arrayvec.specs.ArrayVec.{array_vec_len};
ghost use Rattle.std.specs.Prelude.{◌≡◌, ◌+◌, ◌-◌, ◌*◌, ◌≤◌, ◌++◌, None, length, take, codes};
ghost use Rattle.std.specs.List.{join_by};
ghost use Rattle.dblines.specs.Writing.{Wrote};
ghost use Rattle.dbinjuries.specs.Kept.{kept_of};
ghost use Rattle.dbinjuries.specs.Lines.{indented};
ghost use Rattle.dbinjuries.specs.Listing as listing;
ghost use Rattle.dbtrace.specs.Causes.{no_rowids, page_facts};
ghost use Rattle.dbtrace.specs.declared.Cause.TheVariants as cause;
ghost use Rattle.dbinjuries.specs.Others.{all_cells_text, alike_text, kept_faults_line, kept_text, last_text};
ghost use Rattle.dbinjuries.specs.Others.{kept_others_text, more_runs_text, next_run_text, others_text, run_text, shown_runs_text};

use crate::injury::{Injury, Others};
use crate::lines::append_count;
use crate::page_runs::{PageRun, PageRuns};
use arrayvec::ArrayVec;
use dbformat::Look;
use dblines::{Writer, append, append_number};
use dbsource::Out;
use dbtrace::Cause;

// Adds a run: a page, or from the first page to the last.
fn append_run<const CAP: usize>(line: &mut ArrayVec<u8, CAP>, run: PageRun)
    requires { array_vec_len line.old + 44 ≤ CAP }
    ensures text { line.new.items ≡ line.old.items ++ run_text run }
    ensures short { array_vec_len line.new ≤ array_vec_len line.old + 44 }
{
    append_number(line, u64::from(run.first));
    if run.first != run.last {
        append(line, " to ");
        append_number(line, u64::from(run.last));
    }
}

// Adds run number `index` of some: after a comma, but for the first.
fn append_next_run<const CAP: usize>(line: &mut ArrayVec<u8, CAP>, index: usize, run: PageRun)
    requires { array_vec_len line.old + 46 ≤ CAP }
    ensures text { line.new.items ≡ line.old.items ++ next_run_text index run }
    ensures short { array_vec_len line.new ≤ array_vec_len line.old + 46 }
{
    if index > 0 {
        append(line, ", ");
    }
    append_run(line, run);
}

// Adds some runs, with a comma between each two.
fn append_runs<const CAP: usize>(line: &mut ArrayVec<u8, CAP>, runs: &[PageRun])
    requires { array_vec_len line.old + 46 * length runs.now ≤ CAP }
    ensures text { line.new.items ≡ line.old.items ++ join_by run_text (codes ", ") runs.now }
    ensures short { array_vec_len line.new ≤ array_vec_len line.old + 46 * length runs.now }
{
    for index in 0..runs.len() {
        append_next_run(line, index, runs[index]);
    }
}

// Adds how many runs there are beside those that are shown.
fn append_more_runs<const CAP: usize>(line: &mut ArrayVec<u8, CAP>, more: u64)
    requires { array_vec_len line.old + 44 ≤ CAP }
    ensures text { line.new.items ≡ line.old.items ++ more_runs_text more }
    ensures short { array_vec_len line.new ≤ array_vec_len line.old + 44 }
{
    if more == 0 {
        return;
    }
    append(line, " and ");
    append_count(line, more, " more run", " more runs");
}

// Adds the runs that are kept, and how many more there are.
fn append_shown_runs<const CAP: usize>(line: &mut ArrayVec<u8, CAP>, runs: &PageRuns)
    requires { array_vec_len line.old + 504 ≤ CAP }
    ensures text { line.new.items ≡ line.old.items ++ shown_runs_text (take runs.now.count runs.now.kept) (runs.now.count - 10) }
    ensures short { array_vec_len line.new ≤ array_vec_len line.old + 504 }
{
    let shown = runs.count.min(10) as usize;
    append_runs(line, &runs.kept[..shown]);
    append_more_runs(line, runs.count.saturating_sub(10));
}

// Adds how many cells some pages have together that look like pages of a tree.
fn append_all_cells<const CAP: usize>(line: &mut ArrayVec<u8, CAP>, look: Look, cells: u64)
    requires { array_vec_len line.old + 37 ≤ CAP }
    ensures text { line.new.items ≡ line.old.items ++ all_cells_text look cells }
    ensures short { array_vec_len line.new ≤ array_vec_len line.old + 37 }
{
    if let Look::Tree(_) = look {
        append(line, " with ");
        append_count(line, cells, " cell", " cells");
    }
}

// The pages that look like this one: how many, and with how many cells.
fn alike_text(look: Look, count: u64, cells: u64) -> ArrayVec<u8, 640>
    ensures text { result.items ≡ codes "    " ++ alike_text look count cells }
    ensures short { array_vec_len result ≤ 104 }
{
    let mut line = ArrayVec::new();
    append(&mut line, "    and ");
    append_count(
        &mut line,
        count,
        " more page like it",
        " more pages like it",
    );
    append_all_cells(&mut line, look, cells);
    append(&mut line, ": ");
    line
}

// The pages that look like this one.
fn pages_text(look: Look, others: &Others) -> ArrayVec<u8, 640>
    ensures { result.items ≡ indented (kept_text (cause.Look look (page_facts no_rowids None)) others.now) }
{
    let mut line = alike_text(look, others.count, others.cells);
    append_shown_runs(&mut line, &others.runs);
    append(&mut line, "\n");
    line
}

// How many faults there are, and where the last one is.
fn last_text(others: &Others) -> ArrayVec<u8, 128>
    ensures { result.items ≡ indented (last_text others.now.count others.now.page others.now.item) }
{
    let mut line = ArrayVec::new();
    append(&mut line, "    and ");
    append_number(&mut line, others.count);
    append(&mut line, " more, the last at page ");
    append_number(&mut line, u64::from(others.page));
    append(&mut line, " item ");
    append_number(&mut line, u64::from(others.item));
    append(&mut line, "\n");
    line
}

// Writes the line of the faults that belong to one with this cause, if there are any.
fn put_kept<O: Out>(writer: &mut Writer<'_, O>, cause: &Cause, others: &Others)
    ensures { Wrote O.held writer.old (kept_faults_line cause.now others.now) writer.new }
{
    if others.count == 0 {
        return;
    }
    match *cause {
        Cause::Look(look, _) => writer.put(pages_text(look, others).as_slice()),
        _ => writer.put(last_text(others).as_slice()),
    }
}

/// Writes the line of the faults that belong to an injury, if there are any.
pub fn put_others<O: Out>(writer: &mut Writer<'_, O>, injury: &Injury)
    ensures line { Wrote O.held writer.old (kept_others_text injury.now) writer.new }
    ensures injury { (e : listing.Injury) → kept_others_text (kept_of e) ≡ others_text e }
{
    put_kept(writer, &injury.first.cause, &injury.others);
}

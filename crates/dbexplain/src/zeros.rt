// The pages that are zeros, in the summary.
ghost use Rattle.arrayvec.specs.ArrayVec.{array_vec_len};
ghost use Rattle.std.specs.Prelude.{◌≡◌, ◌+◌, ◌-◌, ◌≤◌, ◌++◌, length, take};
ghost use Rattle.std.specs.List.{flat_map};
ghost use Rattle.dbformat.specs.FixedPages.{IsInRange};
ghost use Rattle.dblines.specs.Writing.{Wrote};
ghost use Rattle.dbexplain.specs.Summary.{more_zeros_line, pages_text, zero_run_line};
ghost use Rattle.dbexplain.specs.Sums.{zeros_sum};

use arrayvec::ArrayVec;
use dbformat::Geometry;
use dbinjuries::{PageRun, PageRuns, append_count};
use dblines::{Writer, append, append_number};
use dbsource::Out;

/// Adds `page 3 is`, or `pages 3 to 5 are`, of the pages from `first` to `last`; what they are comes after it.
pub(crate) fn append_pages<const CAP: usize>(line: &mut ArrayVec<u8, CAP>, first: u64, last: u64)
    requires { array_vec_len line.old + 54 ≤ CAP }
    ensures text { line.new.items ≡ line.old.items ++ pages_text first last }
    ensures short { array_vec_len line.new ≤ array_vec_len line.old + 54 }
{
    if first == last {
        append(line, "page ");
        append_number(line, first);
        append(line, " is");
    } else {
        append(line, "pages ");
        append_number(line, first);
        append(line, " to ");
        append_number(line, last);
        append(line, " are");
    }
}

// The line of a run of pages that are zeros.
fn zero_run_line(shape: Geometry, run: PageRun) -> ArrayVec<u8, 160>
    requires { IsInRange shape }
    ensures { result.items ≡ zero_run_line shape.page_size run }
{
    let size = u64::from(shape.page_size);
    let mut line = ArrayVec::new();
    append(&mut line, "    ");
    append_pages(&mut line, u64::from(run.first), u64::from(run.last));
    append(&mut line, " zeros: bytes ");
    append_number(&mut line, u64::from(run.first.saturating_sub(1)) * size);
    append(&mut line, " to ");
    append_number(&mut line, (u64::from(run.last) * size).saturating_sub(1));
    append(&mut line, "\n");
    line
}

// The line of how many more runs there are.
fn more_zeros_line(more: u64) -> ArrayVec<u8, 96>
    ensures { result.items ≡ more_zeros_line more }
{
    let mut line = ArrayVec::new();
    if more == 0 {
        return line;
    }
    append(&mut line, "    and ");
    append_count(&mut line, more, " more run", " more runs");
    append(&mut line, " of zero pages\n");
    line
}

// Writes the lines of some runs.
fn put_runs<O: Out>(writer: &mut Writer<'_, O>, shape: Geometry, runs: &[PageRun])
    requires { IsInRange shape }
    ensures { Wrote O.held writer.old (flat_map (zero_run_line shape.page_size) runs.now) writer.new }
{
    for run in runs {
        writer.put(zero_run_line(shape, *run).as_slice());
    }
}

/// Writes the runs of the pages that are zeros, ten at most, and how many more there are.
pub(crate) fn put_zeros<O: Out>(writer: &mut Writer<'_, O>, shape: Geometry, runs: &PageRuns)
    requires { IsInRange shape }
    ensures { Wrote O.held writer.old (zeros_sum shape.page_size runs.now) writer.new }
{
    let shown = runs.count.min(10) as usize;
    put_runs(writer, shape, &runs.kept[..shown]);
    writer.put(more_zeros_line(runs.count.saturating_sub(10)).as_slice());
}

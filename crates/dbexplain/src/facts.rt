// What is known of a page with faults.
ghost use Rattle.arrayvec.specs.ArrayVec.{array_vec_len};
ghost use Rattle.std.specs.Prelude.{◌≡◌, ◌≤◌, ◌+◌, ◌++◌, length};
ghost use Rattle.dbformat.specs.FixedPages.{IsInRange};
ghost use Rattle.dblines.specs.Writing.{Wrote};
ghost use Rattle.dbexplain.specs.Facts.{bound_text, facts_text, rowids_text, run_line, run_text};

use arrayvec::ArrayVec;
use dbformat::{ByteRun, Geometry, hex_byte};
use dbinjuries::append_signed;
use dblines::{Writer, append, append_number};
use dbsource::Out;
use dbwalk::{PageFacts, RowidBounds};

// The line of a run of one byte in a page, by offsets in the file.
fn run_line(shape: Geometry, page: u32, run: ByteRun) -> ArrayVec<u8, 96>
    requires { IsInRange shape }
    ensures { result.items ≡ run_line shape.page_size page run }
{
    let begin = u64::from(page.saturating_sub(1)) * u64::from(shape.page_size);
    let first = begin + u64::from(run.start);
    let mut line = ArrayVec::new();
    append(&mut line, "    bytes ");
    append_number(&mut line, first);
    append(&mut line, " to ");
    append_number(&mut line, first + u64::from(run.len.saturating_sub(1)));
    if run.byte == 0 {
        append(&mut line, " are zeros");
    } else {
        append(&mut line, " are all ");
        let _ = line.try_extend_from_slice(&hex_byte(run.byte));
    }
    append(&mut line, "\n");
    line
}

// Adds a key that rowids are above, or up to.
fn append_bound(line: &mut ArrayVec<u8, 128>, words: &str, key: i64)
    requires room { array_vec_len line.old ≤ 101 }
    requires words { length words.now ≤ 7 }
    ensures text { line.new.items ≡ line.old.items ++ bound_text words.now key }
    ensures short { array_vec_len line.new ≤ array_vec_len line.old + 27 }
{
    append(line, words);
    append_signed(line, key);
}

// The line of rowids, if there are keys around the page.
fn rowids_line(rowids: &RowidBounds) -> ArrayVec<u8, 128>
    ensures { result.items ≡ rowids_text rowids.now.above rowids.now.up_to }
{
    let mut line = ArrayVec::new();
    append(&mut line, "    by the keys around it, its rowids are");
    match (rowids.above, rowids.up_to) {
        (None, None) => return ArrayVec::new(),
        (Some(above), None) => append_bound(&mut line, " above ", above),
        (None, Some(up_to)) => append_bound(&mut line, " up to ", up_to),
        (Some(above), Some(up_to)) => {
            append_bound(&mut line, " above ", above);
            append(&mut line, " and");
            append_bound(&mut line, " up to ", up_to);
        }
    }
    append(&mut line, "\n");
    line
}

/// Writes the longest run of one byte in a page, if there is one.
pub(crate) fn put_run<O: Out>(
    writer: &mut Writer<'_, O>,
    shape: Geometry,
    page: u32,
    run: Option<ByteRun>,
)
    requires { IsInRange shape }
    ensures { Wrote O.held writer.old (run_text shape.page_size page run) writer.new }
{
    if let Some(run) = run {
        writer.put(run_line(shape, page, run).as_slice());
    }
}

/// Writes what is known of a page with faults: its longest run of one byte, and between which rowids its rows are.
pub(crate) fn put_facts<O: Out>(
    writer: &mut Writer<'_, O>,
    shape: Geometry,
    page: u32,
    facts: &PageFacts,
)
    requires { IsInRange shape }
    ensures { Wrote O.held writer.old (facts_text shape.page_size page facts.now) writer.new }
{
    put_run(writer, shape, page, facts.run);
    writer.put(rowids_line(&facts.rowids).as_slice());
}

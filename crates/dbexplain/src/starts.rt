// The lines of the starts in the summary.
ghost use Rattle.arrayvec.specs.ArrayVec.{array_vec_len};
ghost use Rattle.std.specs.Prelude.{◌≡◌, ◌∷◌, [], ◌++◌, codes, decimal};
ghost use Rattle.dbformat.specs.Lines.{line_feed};
ghost use Rattle.dblines.specs.Writing.{Wrote};
ghost use Rattle.dbexplain.specs.Summary.{faulty_pages_text, is_index_start, start_name};
ghost use Rattle.dbexplain.specs.Sums.{numbered_sum, rows_sum, tree_sums};

use crate::page_lines::put_tree;
use crate::ranges::RowRanges;
use crate::row_lines::put_rows;
use crate::sums::sum_front;
use crate::tally::Tally;
use crate::trees::is_of_kind;
use arrayvec::ArrayVec;
use dbformat::{FREELIST_START, SCHEMA_START};
use dblines::{Writer, append, append_number};
use dbscan::{RootList, StartTable, TreeNames};
use dbsource::Out;
use std::alloc::{Allocator, Global};

/// What is known of the rows of trees: which rows the faults are of, and which trees have pages of an index, so no rowids.
#[derive(Drop)]
pub(crate) struct RowNotes<'a, A: Allocator = Global> {
    pub ranges: &'a RowRanges<A>,
    pub indexes: &'a StartTable<bool, A>,
}

// A root page, after its tree.
fn root_text(page: u32) -> ArrayVec<u8, 64>
    ensures { result.items ≡ codes " (root page " ++ decimal page ++ codes ")" }
{
    let mut text = ArrayVec::new();
    append(&mut text, " (root page ");
    append_number(&mut text, u64::from(page));
    append(&mut text, ")");
    text
}

// Puts the name of a start: the freelist, or a tree and its root page.
fn put_name<A: Allocator, O: Out>(writer: &mut Writer<'_, O>, names: &TreeNames<'_, A>, start: u32)
    ensures { Wrote O.held writer.old (start_name names.now.encoding names.now.roots.now.rows start) writer.new }
{
    if start == FREELIST_START {
        writer.put(b"the freelist");
        return;
    }
    put_tree(writer, names, Some(start));
    writer.put(root_text(names.roots.root_page(start)).as_slice());
}

// On how many of its pages the faults of a start are, and the end of the line.
fn pages_text(faulty: u32, reached: u32) -> ArrayVec<u8, 160>
    ensures { result.items ≡ faulty_pages_text faulty reached ++ line_feed ∷ [] }
{
    let mut text = ArrayVec::new();
    if reached == 0 {
        append(&mut text, ", of which no page was reached\n");
        return text;
    }
    append(&mut text, ", on ");
    append_number(&mut text, u64::from(faulty));
    append(&mut text, " of its ");
    append_number(&mut text, u64::from(reached));
    append(&mut text, if reached == 1 { " page\n" } else { " pages\n" });
    text
}

// Whether a start is of a row of an index.
fn is_index_start<A: Allocator>(roots: &RootList<A>, start: u32) -> bool
    ensures { result ≡ is_index_start roots.now.rows start }
{
    start != SCHEMA_START && is_of_kind(roots, start, true)
}

// Puts which rows of a tree the faults are of, if it has rowids.
fn put_rows_below<A: Allocator, O: Out>(
    writer: &mut Writer<'_, O>,
    roots: &RootList<A>,
    rows: &RowNotes<'_, A>,
    start: u32,
)
    ensures { Wrote O.held writer.old (rows_sum rows.now.ranges.now rows.now.indexes.now roots.now.rows start) writer.new }
{
    if is_index_start(roots, start) || rows.indexes.get(start).unwrap_or(false) {
        return;
    }
    put_rows(writer, rows.ranges, start);
}

// Puts how many of all faults were reported at a start, on how many of its pages, and of which rows, if there are any.
pub(crate) fn put_start_sum<A: Allocator, O: Out>(
    writer: &mut Writer<'_, O>,
    names: &TreeNames<'_, A>,
    tally: &Tally<A>,
    rows: &RowNotes<'_, A>,
    start: u32,
)
    ensures { Wrote O.held writer.old (numbered_sum tally.now (start_name names.now.encoding names.now.roots.now.rows)
        (rows_sum rows.now.ranges.now rows.now.indexes.now names.now.roots.now.rows) start) writer.new }
{
    let count = tally.start(start);
    if count.faults == 0 {
        return;
    }
    writer.put(sum_front(tally.all(), count.faults).as_slice());
    writer.put(b"in ");
    put_name(writer, names, start);
    writer.put(pages_text(count.faulty, count.reached).as_slice());
    put_rows_below(writer, names.roots, rows, start);
}

// Puts the line of each tree, from the schema's on.
pub(crate) fn put_start_sums<A: Allocator, O: Out>(
    writer: &mut Writer<'_, O>,
    names: &TreeNames<'_, A>,
    tally: &Tally<A>,
    rows: &RowNotes<'_, A>,
)
    ensures { Wrote O.held writer.old (tree_sums tally.now (start_name names.now.encoding names.now.roots.now.rows)
        (rows_sum rows.now.ranges.now rows.now.indexes.now names.now.roots.now.rows) names.now.roots.now.rows) writer.new }
{
    for start in 0..names.roots.len() + 1 {
        put_start_sum(writer, names, tally, rows, start);
    }
}

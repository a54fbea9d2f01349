// How many of the tables and of the indexes have no fault.
ghost use Rattle.arrayvec.specs.ArrayVec.{array_vec_len};
ghost use Rattle.std.specs.Prelude.{◌≡◌, ◌+◌, ◌≤◌, ◌++◌, length};
ghost use Rattle.dblines.specs.Writing.{Wrote};
ghost use Rattle.dbexplain.specs.Summary.{is_of_kind, share_text, trees_text};
ghost use Rattle.dbexplain.specs.Sums.{trees_by, trees_sum};

use crate::tally::Tally;
use arrayvec::ArrayVec;
use dbformat::RowKind;
use dbinjuries::append_count;
use dblines::{Writer, append, append_number};
use dbscan::RootList;
use dbsource::Out;
use std::alloc::Allocator;

/// How many trees of a kind there are, and how many of them have no fault.
#[derive(Clone, Copy)]
pub struct TreeSum {
    pub whole: u32,
    pub all: u32,
}

// Whether a start is of a row of this kind: of an index, or of a table.
pub(crate) fn is_of_kind<A: Allocator>(roots: &RootList<A>, start: u32, index: bool) -> bool
    requires { 1 ≤ start }
    ensures { result ≡ is_of_kind index roots.now.rows start }
{
    match roots.get(start) {
        Some(row) => matches!(row.kind, RowKind::Index) == index,
        None => false,
    }
}

// How many trees of a kind there are, and how many of them have no fault.
fn trees_by<A: Allocator>(roots: &RootList<A>, tally: &Tally<A>, index: bool) -> TreeSum
    ensures { result ≡ trees_by index roots.now.rows tally.now }
{
    let mut sum = TreeSum { whole: 0, all: 0 };
    for start in 1..roots.len() + 1 {
        if is_of_kind(roots, start, index) {
            sum.all += 1;
            if tally.start(start).faults == 0 {
                sum.whole += 1;
            }
        }
    }
    sum
}

// Adds how many of some trees have no fault.
fn append_share<const CAP: usize>(line: &mut ArrayVec<u8, CAP>, sum: TreeSum, one: &str, more: &str)
    requires room { array_vec_len line.old + 64 ≤ CAP }
    requires one { length one.now ≤ 10 }
    requires more { length more.now ≤ 10 }
    ensures text { line.new.items ≡ line.old.items ++ share_text sum one.now more.now }
    ensures short { array_vec_len line.new ≤ array_vec_len line.old + 64 }
{
    append_number(line, u64::from(sum.whole));
    append(line, " of ");
    append_count(line, u64::from(sum.all), one, more);
}

// The line of how many of the tables and of the indexes have no fault.
fn trees_text(tables: TreeSum, indexes: TreeSum) -> ArrayVec<u8, 160>
    ensures { result.items ≡ trees_text tables indexes }
{
    let mut line = ArrayVec::new();
    append(&mut line, "    ");
    append_share(&mut line, tables, " table", " tables");
    append(&mut line, " and ");
    append_share(&mut line, indexes, " index", " indexes");
    append(&mut line, " without a fault\n");
    line
}

/// Writes how many of the tables and of the indexes have no fault.
pub(crate) fn put_trees<A: Allocator, O: Out>(
    writer: &mut Writer<'_, O>,
    roots: &RootList<A>,
    tally: &Tally<A>,
)
    ensures { Wrote O.held writer.old (trees_sum roots.now.rows tally.now) writer.new }
{
    let tables = trees_by(roots, tally, false);
    let indexes = trees_by(roots, tally, true);
    writer.put(trees_text(tables, indexes).as_slice());
}

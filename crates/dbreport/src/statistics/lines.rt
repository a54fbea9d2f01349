// The lines of the statistics.
ghost use Rattle.std.specs.Prelude.{◌≡◌, List};
ghost use Rattle.std.specs.List.{flat_map};
ghost use Rattle.dbformat.specs.Rows.{StatRow};
ghost use Rattle.dbsource.specs.Failures.{failures_after, is_any};
ghost use Rattle.dbsource.specs.Outs.{Puts};
ghost use Rattle.dbwalk.specs.Rows.{row_of};
ghost use Rattle.dbreport.specs.Columns.{child_text, other_of, page_end, tree_end};
ghost use Rattle.dbformat.specs.Lines.{other_line, page_line, tree_line};
ghost use Rattle.dbreport.specs.Sums.{sums_of};
ghost use Rattle.dbreport.specs.TreeNames.{tree_label_text};

use crate::statistics::columns::{
    append_chain, append_count, append_counts, append_place, append_text,
};
use crate::statistics::hex::append_hex_number;
use crate::statistics::page_texts::{OtherPage, other_text, pagetype_text};
use crate::statistics::sums::Sums;
use crate::statistics::tree_name::TreeLabel;
use arrayvec::ArrayVec;
use dbformat::Counts;
use dblines::append;
use dbsource::{Out, WriteFailed};
use dbwalk::Row;

// Puts the line of the row of a page.
pub(crate) fn put_page_row<O: Out>(
    out: &mut O,
    label: &TreeLabel<'_>,
    row: &Row<'_>,
) -> Result<(), WriteFailed>
    ensures { Puts result (O.held out.old) (O.held out.new) (page_line (tree_label_text label.now) label.now.page_size (row_of row.now)) }
{
    let end = page_end(row, label.page_size);
    label.put_name(out)?;
    out.put(b"\t/")?;
    put_children(out, row.path)?;
    out.put(end.as_slice())
}

// Puts the children on a path. There are many where a tree is deep, so each is put by itself.
fn put_children<O: Out>(out: &mut O, path: &[u32]) -> Result<(), WriteFailed>
    ensures { Puts result (O.held out.old) (O.held out.new) (flat_map child_text path.now) }
{
    for child in path {
        let text = child_text(*child);
        out.put(text.as_slice())?;
    }
    Ok(())
}

fn child_text(child: u32) -> ArrayVec<u8, 16>
    ensures { result.items ≡ child_text child }
{
    let mut text = ArrayVec::new();
    append_hex_number(&mut text, 3, child);
    append(&mut text, "/");
    text
}

// What comes after the children.
fn page_end(row: &Row<'_>, page_size: u32) -> ArrayVec<u8, 192>
    ensures { result.items ≡ page_end page_size (row_of row.now) }
{
    let mut line = ArrayVec::new();
    append_chain(&mut line, row.chain);
    append_count(&mut line, u64::from(row.page));
    append_text(&mut line, pagetype_text(row.pagetype));
    append_counts(&mut line, &row.counts);
    append_place(&mut line, row.page, page_size);
    line
}

// Puts the line of a tree, by the sums of its rows.
pub(crate) fn put_tree_row<O: Out>(
    out: &mut O,
    label: &TreeLabel<'_>,
    sums: &Sums,
) -> Result<(), WriteFailed>
    ensures text { (rows : List StatRow) → sums.now ≡ sums_of rows
        → Puts result (O.held out.old) (O.held out.new) (tree_line (tree_label_text label.now) label.now.page_size rows) }
    ensures count { (O.held out.new).failures ≡ failures_after is_any result (O.held out.old).failures }
{
    let end = tree_end(sums, label.page_size);
    label.put_name(out)?;
    out.put(end.as_slice())
}

// What comes after the name of a tree.
fn tree_end(sums: &Sums, page_size: u32) -> ArrayVec<u8, 160>
    ensures { result.items ≡ tree_end page_size sums.now }
{
    let mut line = ArrayVec::new();
    append(&mut line, "\t-");
    append_count(&mut line, sums.pages);
    append(&mut line, "\t-");
    append_counts(&mut line, &sums.counts);
    append(&mut line, "\t-");
    let bytes = sums.pages.saturating_mul(u64::from(page_size));
    append_count(&mut line, bytes);
    append(&mut line, "\n");
    line
}

// Puts the line of a page that is in no tree and in no overflow chain.
pub(crate) fn put_other_row<O: Out>(
    out: &mut O,
    page_size: u32,
    page: u32,
    what: OtherPage,
) -> Result<(), WriteFailed>
    ensures { Puts result (O.held out.old) (O.held out.new) (other_line page_size page (other_of what)) }
{
    let line = other_line(page_size, page, what);
    out.put(line.as_slice())
}

fn other_line(page_size: u32, page: u32, what: OtherPage) -> ArrayVec<u8, 160>
    ensures { result.items ≡ other_line page_size page (other_of what) }
{
    let mut line = ArrayVec::new();
    append(&mut line, "-\t-");
    append_count(&mut line, u64::from(page));
    append_text(&mut line, other_text(what));
    append_counts(&mut line, &Counts::NONE);
    append_place(&mut line, page, page_size);
    line
}

// The lines of rows below the count of a tree.
ghost use Rattle.std.specs.Prelude.{◌≡◌, ◌+◌, ◌&&◌, [], filter, length, take, true};
ghost use Rattle.std.specs.Fmt.{signed_decimal};
ghost use Rattle.std.specs.List.{list_any};
ghost use Rattle.std.specs.Option.{option_map_or};
ghost use Rattle.dblines.specs.Writing.{Wrote};
ghost use Rattle.dbexplain.specs.KeptLines.{kept_line, kept_text, one_if, piece};
ghost use Rattle.dbexplain.specs.Ranges.{is_of};
ghost use Rattle.dbexplain.specs.RowLines.{and_more, bounds_text, is_all, lead_of, list_text, range_text, words_of};

use crate::ranges::{RowRange, RowRanges, RowsKind, is_of};
use arrayvec::ArrayVec;
use dbinjuries::append_signed;
use dblines::{Writer, append, append_number};
use dbsource::Out;
use dbtrace::RowidBounds;
use std::alloc::Allocator;

fn words_of(kind: RowsKind) -> &'static str
    ensures { result.now ≡ words_of kind }
{
    match kind {
        RowsKind::NotReached => "rows not reached: ",
        RowsKind::OnFaulty => "rows on pages with faults: ",
        RowsKind::CutShort => "rows cut short: ",
    }
}

// What comes before a range.
fn lead_of(kind: RowsKind, is_first: bool) -> &'static str
    ensures { result.now ≡ lead_of kind is_first }
{
    if !is_first {
        return ", ";
    }
    match kind {
        RowsKind::NotReached => "rowids ",
        RowsKind::OnFaulty => "rowids ",
        RowsKind::CutShort => "",
    }
}

// A range between two keys.
fn bounds_text(above: Option<i64>, up_to: Option<i64>) -> ArrayVec<u8, 128>
    ensures { result.items ≡ bounds_text above up_to }
{
    let mut text = ArrayVec::new();
    match (above, up_to) {
        (None, None) => append(&mut text, "all rows"),
        (Some(above), None) => {
            append(&mut text, "above ");
            append_signed(&mut text, above);
        }
        (None, Some(up_to)) => {
            append(&mut text, "up to ");
            append_signed(&mut text, up_to);
        }
        (Some(above), Some(up_to)) => {
            append(&mut text, "above ");
            append_signed(&mut text, above);
            append(&mut text, " and up to ");
            append_signed(&mut text, up_to);
        }
    }
    text
}

// The text of a row.
fn row_text(rowid: Option<i64>) -> ArrayVec<u8, 128>
    ensures { result.items ≡ option_map_or signed_decimal rowid [] }
{
    let mut text = ArrayVec::new();
    if let Some(rowid) = rowid {
        append_signed(&mut text, rowid);
    }
    text
}

// The text of a range.
fn range_text(kind: RowsKind, rowids: RowidBounds) -> ArrayVec<u8, 128>
    ensures { result.items ≡ range_text kind rowids }
{
    match kind {
        RowsKind::NotReached => bounds_text(rowids.above, rowids.up_to),
        RowsKind::OnFaulty => bounds_text(rowids.above, rowids.up_to),
        RowsKind::CutShort => row_text(rowids.up_to),
    }
}

// How many more ranges there are, after some or none.
fn and_more(some: bool, more: u64) -> ArrayVec<u8, 64>
    ensures { result.items ≡ and_more some more }
{
    let mut text = ArrayVec::new();
    if more == 0 {
        return text;
    }
    if some {
        append(&mut text, " and ");
    }
    append_number(&mut text, more);
    append(&mut text, " more");
    text
}

// Whether all rows of a table are within a range.
fn is_all(range: &RowRange) -> bool
    ensures { result ≡ is_all range.now }
{
    range.rowids.above.is_none() && range.rowids.up_to.is_none()
}

// How many ranges are of a start and a kind.
fn count_of(ranges: &[RowRange], start: u32, kind: RowsKind) -> usize
    ensures { result ≡ length (filter (is_of start kind) ranges.now) }
{
    let mut count = 0;
    for range in ranges {
        if is_of(start, kind, range) {
            count += 1;
        }
    }
    count
}

// Whether a range is of a start and a kind, and all rows.
fn is_all_of(start: u32, kind: RowsKind, range: &RowRange) -> bool
    ensures { result ≡ (is_of start kind range.now && is_all range.now) }
{
    is_of(start, kind, range) && is_all(range)
}

// Whether one of those is all rows.
fn has_all(ranges: &[RowRange], start: u32, kind: RowsKind) -> bool
    ensures { result ≡ list_any is_all (filter (is_of start kind) ranges.now) }
{
    let mut found = false;
    for range in ranges {
        found |= is_all_of(start, kind, range);
    }
    found
}

// Writes a range, if it is of a start and a kind, and fewer than ten are written; how many are written then.
fn put_if<O: Out>(
    writer: &mut Writer<'_, O>,
    start: u32,
    kind: RowsKind,
    range: &RowRange,
    shown: u32,
) -> u32
    ensures put { Wrote O.held writer.old (piece start kind shown range.now) writer.new }
    ensures shown { result ≡ shown + one_if start kind shown range.now }
{
    if shown >= 10 {
        return shown;
    }
    if !is_of(start, kind, range) {
        return shown;
    }
    writer.put(lead_of(kind, shown == 0).as_bytes());
    writer.put(range_text(kind, range.rowids).as_slice());
    shown + 1
}

// Writes the ranges of a start and a kind, the first ten.
fn put_list<O: Out>(writer: &mut Writer<'_, O>, ranges: &[RowRange], start: u32, kind: RowsKind)
    ensures { Wrote O.held writer.old (list_text kind true (take 10 (filter (is_of start kind) ranges.now))) writer.new }
{
    let mut shown = 0u32;
    for range in ranges {
        shown = put_if(writer, start, kind, range, shown);
    }
}

// Writes the line of a start and a kind, if there are such ranges.
fn put_kind<A: Allocator, O: Out>(
    writer: &mut Writer<'_, O>,
    ranges: &RowRanges<A>,
    start: u32,
    kind: RowsKind,
)
    ensures { Wrote O.held writer.old (kept_line ranges.now start kind) writer.new }
{
    let count = count_of(ranges.kept(), start, kind) as u64;
    let others = ranges.unkept(start, kind);
    if count == 0 && others == 0 {
        return;
    }
    writer.put(b"        ");
    writer.put(words_of(kind).as_bytes());
    if has_all(ranges.kept(), start, kind) {
        writer.put(b"all rows\n");
        return;
    }
    put_list(writer, ranges.kept(), start, kind);
    let more = count.saturating_sub(10).saturating_add(others);
    writer.put(and_more(count > 0, more).as_slice());
    writer.put(b"\n");
}

/// Writes the lines of the rows of a start.
pub(crate) fn put_rows<A: Allocator, O: Out>(
    writer: &mut Writer<'_, O>,
    ranges: &RowRanges<A>,
    start: u32,
)
    ensures { Wrote O.held writer.old (kept_text ranges.now start) writer.new }
{
    put_kind(writer, ranges, start, RowsKind::NotReached);
    put_kind(writer, ranges, start, RowsKind::OnFaulty);
    put_kind(writer, ranges, start, RowsKind::CutShort);
}

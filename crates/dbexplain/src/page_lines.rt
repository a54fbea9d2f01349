// The lines that say where a page is, and what a start is.
ghost use Rattle.arrayvec.specs.ArrayVec.{array_vec_len};
ghost use Rattle.std.specs.Prelude.{◌≡◌, ◌++◌, ◌+◌, ◌≤◌, [], ◌∷◌, length};
ghost use Rattle.std.specs.Option.{option_map_or};
ghost use Rattle.dbformat.specs.Lines.{line_feed};
ghost use Rattle.dbformat.specs.FixedPages.{IsInRange, fixed_use};
ghost use Rattle.dblines.specs.Writing.{Wrote};
ghost use Rattle.dbscan.specs.Texts.{place_from, place_front, place_words, tree_of_row};
ghost use Rattle.dbexplain.specs.Below.{line_of_start, page_place_line};
ghost use Rattle.dbexplain.specs.Notes.{page_front, place_end, start_front, start_tree};

use arrayvec::ArrayVec;
use dbformat::{FREELIST_START, Geometry};
use dblines::{Writer, append, append_number};
use dbscan::{Place, TreeNames, place_from, place_front, place_words};
use dbsource::Out;
use std::alloc::Allocator;

// What comes after the tree of a page, to the end of the line.
pub(crate) fn place_end(place: Place) -> ArrayVec<u8, 64>
    ensures { result.items ≡ place_end place }
{
    let mut end = ArrayVec::new();
    append(&mut end, place_words(place));
    if let Some(from) = place_from(place) {
        append_number(&mut end, u64::from(from));
    }
    append(&mut end, "\n");
    end
}

// Where a page begins in the file, and what comes before its tree.
pub(crate) fn page_front(shape: Geometry, page: u32, place: Place) -> ArrayVec<u8, 128>
    requires range { IsInRange shape }
    requires page { 1 ≤ page }
    ensures { result.items ≡ page_front shape page place }
{
    let mut front = ArrayVec::new();
    append(&mut front, "    page ");
    append_number(&mut front, u64::from(page));
    append(&mut front, " at byte ");
    append_number(&mut front, u64::from(page - 1) * u64::from(shape.page_size));
    append(&mut front, ": ");
    append(&mut front, place_front(shape.fixed(page), place));
    front
}

// What a start is, before its tree.
fn start_front(start: u32) -> ArrayVec<u8, 64>
    ensures { result.items ≡ start_front start }
{
    let mut front = ArrayVec::new();
    append(&mut front, "    start ");
    append_number(&mut front, u64::from(start));
    append(&mut front, ": ");
    if start == FREELIST_START {
        append(&mut front, "first trunk of the freelist");
    } else {
        append(&mut front, "root of ");
    }
    front
}

// The start whose tree it is.
fn start_tree(start: u32) -> Option<u32>
    ensures { result ≡ start_tree start }
{
    if start == FREELIST_START {
        None
    } else {
        Some(start)
    }
}

// Puts the text of the tree of a start, if there is one.
pub(crate) fn put_tree<A: Allocator, O: Out>(
    writer: &mut Writer<'_, O>,
    names: &TreeNames<'_, A>,
    start: Option<u32>,
)
    ensures { Wrote O.held writer.old (option_map_or (tree_of_row names.now.encoding names.now.roots.now.rows) start []) writer.new }
{
    if let Some(start) = start
        && !writer.has_failed
    {
        writer.has_failed = names.put_tree(writer.out, start).is_err();
    }
}

// Puts a line with the text of a tree in it, or of none.
pub(crate) fn put_line<A: Allocator, O: Out>(
    writer: &mut Writer<'_, O>,
    names: &TreeNames<'_, A>,
    front: &[u8],
    start: Option<u32>,
    end: &[u8],
)
    ensures { Wrote O.held writer.old
        (front.now ++ (option_map_or (tree_of_row names.now.encoding names.now.roots.now.rows) start [] ++ end.now)) writer.new }
{
    writer.put(front);
    put_tree(writer, names, start);
    writer.put(end);
}

// Puts what a start is.
pub(crate) fn put_start_line<A: Allocator, O: Out>(
    writer: &mut Writer<'_, O>,
    names: &TreeNames<'_, A>,
    start: u32,
)
    ensures { Wrote O.held writer.old (line_of_start (tree_of_row names.now.encoding names.now.roots.now.rows) start) writer.new }
{
    let front = start_front(start);
    put_line(writer, names, front.as_slice(), start_tree(start), b"\n");
}

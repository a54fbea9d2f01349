// What may have been in the head of a page of a tree, in its cell pointers, and in an entry of the pointer map.
ghost use Rattle.std.specs.Prelude.{◌≤◌};

use crate::gaps::{MOST_FRAGMENT, is_beside_free, longest_gap};
use crate::key::Key;
use crate::lengths::{is_whole, whole_records};
use crate::ranked::{Ranked, add_try};
use crate::reading::Paper;
use dbpage::{PageView, type_byte};
use dbscan::{Desk, Mark};
use std::alloc::Allocator;

// The types of pages of trees.
const TYPES: [u8; 4] = [13, 5, 10, 2];

// Where the head of a page begins.
pub(crate) fn head<A: Allocator>(paper: &Paper<A>) -> u32
    ensures { result ≤ 100 }
{
    if paper.page() == 1 { 100 } else { 0 }
}

// Adds some bytes at an offset of a page.
pub(crate) fn add_at<A: Allocator>(
    tries: &mut Ranked,
    paper: &Paper<A>,
    at: u32,
    bytes: &[u8],
    points: u32,
) {
    if let Some(offset) = paper.begins().checked_add(u64::from(at)) {
        add_try(tries, offset, bytes, points);
    }
}

// Adds a number of two bytes, where 65536 is stored as 0, if there is another one.
pub(crate) fn add_short<A: Allocator>(
    tries: &mut Ranked,
    paper: &Paper<A>,
    at: u32,
    number: u32,
    points: u32,
) {
    let stored = u16::try_from(number).unwrap_or(0);
    if paper.short_at(at) != Some(u32::from(stored)) {
        add_at(tries, paper, at, &stored.to_be_bytes(), points);
    }
}

// Whether each cell of the page can be read.
fn are_readable(view: &PageView<'_>) -> bool {
    for cell in 0..view.cells() {
        if view.cell(cell).is_err() {
            return false;
        }
    }
    true
}

// How a page is filled: the longest run of bytes that no item holds, if each cell can be read, and how many cells have a whole record.
#[derive(Clone, Copy)]
struct Fill {
    gap: Option<u32>,
    whole: u32,
}

// How it is filled with this type.
fn filled_as<A: Allocator>(paper: &mut Paper<A>, kind: u8) -> Option<Fill> {
    let at = head(paper);
    let other = u32::from(kind) * 256 + paper.short_at(at)? % 256;
    let stated = paper.replace_short(at, other)?;
    let found = paper.view().map(|view| Fill {
        gap: are_readable(&view).then(|| longest_gap(paper)),
        whole: whole_records(&view),
    });
    paper.put_short(at, stated);
    found
}

// How well another type fits the page, if it may be one of this type: with no byte left over it fits better. In place of a type that is known
// only one with which each cell can be read, and no record is cut that was whole: another one may hide what is wrong with its cells.
fn type_points<A: Allocator>(paper: &mut Paper<A>, kind: u8, whole: Option<u32>) -> Option<u32> {
    let other = filled_as(paper, kind)?;
    if let Some(whole) = whole
        && (other.gap.is_none() || other.whole < whole)
    {
        return None;
    }
    Some(if other.gap == Some(0) { 39 } else { 26 })
}

// Adds each other type of the page.
pub(crate) fn add_types<A: Allocator>(tries: &mut Ranked, paper: &mut Paper<A>) {
    let bytes = paper.bytes();
    if bytes.len() < 480 {
        return;
    }
    let was = type_byte(bytes, paper.page());
    let whole = paper.view().map(|view| whole_records(&view));
    for kind in TYPES {
        if kind != was
            && let Some(points) = type_points(paper, kind, whole)
        {
            add_at(tries, paper, head(paper), &[kind], points);
        }
    }
}

// Adds that a leaf is an interior page of the same kind of tree, or that one is a leaf, if each cell can be read so.
pub(crate) fn add_leaf<A: Allocator>(tries: &mut Ranked, paper: &mut Paper<A>) {
    let bytes = paper.bytes();
    if bytes.len() < 480 {
        return;
    }
    let other = type_byte(bytes, paper.page()) ^ 8;
    if filled_as(paper, other).is_some_and(|other| other.gap.is_some()) {
        add_at(tries, paper, head(paper), &[other], 26);
    }
}

// Whether the records of a page have as many columns as its first one. A pointer may lead into a cell, to what is a record too.
fn are_as_wide(view: &PageView<'_>) -> bool {
    let first = Key::of(view, 0);
    for cell in 1..view.cells() {
        if !Key::of(view, cell).is_as_wide_as(&first) {
            return false;
        }
    }
    true
}

// Whether some records of a page are cut, and others whole.
fn has_cut_records(view: &PageView<'_>) -> bool {
    let whole = whole_records(view);
    whole > 0 && whole < view.cells()
}

// Whether each pointer of a page leads to a cell, as far as the records show it: none is cut, and all have as many columns.
pub(crate) fn are_cells(view: &PageView<'_>) -> bool {
    !has_cut_records(view) && are_as_wide(view)
}

// Adds a count of fragmented bytes, unless the record of some cell is cut: bytes of that may be counted. It goes before a lower count of cells,
// and after another number by which free bytes are longer.
pub(crate) fn add_fragments<A: Allocator>(tries: &mut Ranked, paper: &Paper<A>, count: i64) {
    let Some(view) = paper.view() else {
        return;
    };
    if has_cut_records(&view) {
        return;
    }
    if let Ok(stored) = u8::try_from(count) {
        let is_full = longest_gap(paper) <= MOST_FRAGMENT && are_as_wide(&view);
        let points = match is_full {
            true if is_beside_free(paper, &view) => 37,
            true => 38,
            false => 20,
        };
        add_at(tries, paper, head(paper) + 7, &[stored], points);
    }
}

// Where the cell pointers of the page begin, by its type.
fn pointers<A: Allocator>(paper: &Paper<A>) -> u32
    ensures { result ≤ 112 }
{
    let bytes = paper.bytes();
    if bytes.len() < 480 {
        return 8;
    }
    match type_byte(bytes, paper.page()) {
        2 | 5 => head(paper) + 12,
        _ => head(paper) + 8,
    }
}

// How many pointers there are up to where the first of their cells begins. The list ends with the first one that leads before the pointers or
// past the usable bytes.
fn pointed<A: Allocator>(paper: &Paper<A>) -> u32 {
    let begin = pointers(paper);
    let mut least = paper.usable();
    for i in 0..32768u32 {
        let at = begin + 2 * i;
        let Some(pointer) = paper.short_at(at) else {
            return i;
        };
        if at + 2 > least || pointer < at + 2 || pointer.saturating_add(4) > paper.usable() {
            return i;
        }
        least = least.min(pointer);
    }
    32768
}

// Where the first cell of the page begins, of as many as it states, or its first freeblock. A pointer that leads before the end of the
// pointers is wrong.
fn least_pointer<A: Allocator>(paper: &Paper<A>) -> Option<u32> {
    let begin = pointers(paper);
    let cells = paper.short_at(head(paper) + 3)?.min(32768);
    let mut least = paper.usable();
    for i in 0..cells {
        let pointer = paper.short_at(begin + 2 * i)?;
        if pointer >= begin + 2 * cells {
            least = least.min(pointer);
        }
    }
    match paper.short_at(head(paper) + 1)? {
        0 => Some(least),
        block => Some(least.min(block)),
    }
}

// With how many cells the page has as many fragmented bytes as it states, of those that it has room for.
fn fitting_count<A: Allocator>(paper: &Paper<A>) -> Option<u32> {
    let view = paper.view()?;
    let mut held = u32::from(view.fragments());
    for block in view.freeblocks() {
        held = held.saturating_add(block.size);
    }
    let area = paper.usable().saturating_sub(paper.start());
    for i in 0..view.cells() {
        if held >= area {
            return (held == area).then_some(i);
        }
        held = held.saturating_add(view.cell(i).ok()?.len.max(4));
    }
    (held == area).then_some(view.cells())
}

// The same, whatever count the page states.
fn count_by_area<A: Allocator>(paper: &mut Paper<A>) -> Option<u32> {
    let at = head(paper) + 3;
    let room = paper.start().saturating_sub(pointers(paper)) / 2;
    let stated = paper.replace_short(at, room)?;
    let count = fitting_count(paper);
    paper.put_short(at, stated);
    count
}

// A content area: its longest run of bytes without an item, whether it has as many fragmented bytes as the page states, and whether each pointer
// leads to a cell.
#[derive(Clone, Copy)]
struct Area {
    longest: u32,
    is_counted: bool,
    has_cells: bool,
}

impl Area {
    fn of<A: Allocator>(paper: &Paper<A>) -> Option<Area> {
        let view = paper.view()?;
        Some(Area {
            longest: longest_gap(paper),
            is_counted: fitting_count(paper) == Some(view.cells()),
            has_cells: are_cells(&view),
        })
    }

    // That of a page with another number of two bytes.
    fn with<A: Allocator>(paper: &mut Paper<A>, at: u32, number: u32) -> Option<Area> {
        let stated = paper.replace_short(at, number)?;
        let area = Area::of(paper);
        paper.put_short(at, stated);
        area
    }

    // Whether it has as many fragmented bytes, or no run that is longer than a fragment. A longer one may be cells that are left out, or none of
    // the area.
    fn is_filled(&self) -> bool {
        self.is_counted || self.longest <= MOST_FRAGMENT
    }
}

// Adds where the content area may begin: at the first cell or freeblock. If each pointer leads to a cell then, a lower start goes before a count
// with which cells are left out, and one that is a few bytes higher before the length of a payload.
pub(crate) fn add_start<A: Allocator>(tries: &mut Ranked, paper: &mut Paper<A>) {
    let at = head(paper) + 5;
    let start = paper.start();
    let Some(least) = least_pointer(paper) else {
        return;
    };
    if let Some(area) = Area::with(paper, at, least)
        && (least >= start || area.is_filled())
    {
        let is_near = least <= start.saturating_add(MOST_FRAGMENT);
        let points = if is_near && area.has_cells { 39 } else { 30 };
        add_short(tries, paper, at, least, points);
    }
}

// Whether a cell with a whole record has this number, or a higher one.
fn has_whole_from<A: Allocator>(paper: &Paper<A>, first: u32) -> bool {
    let Some(view) = paper.view() else {
        return false;
    };
    for cell in first..view.cells() {
        if is_whole(&view, cell) {
            return true;
        }
    }
    false
}

// Whether cells are left out with another count: some have whole records, or their bytes are a run without an item then.
fn leaves_out<A: Allocator>(paper: &mut Paper<A>, at: u32, count: u32) -> bool {
    if has_whole_from(paper, count) {
        return true;
    }
    let longest = longest_gap(paper).max(MOST_FRAGMENT);
    Area::with(paper, at, count).is_none_or(|area| area.longest > longest)
}

// Adds how many cells there may be: as many as fill the content area, and as many as there are pointers, if no cells are left out then. As many
// as fill it may be fewer if another number is wrong: with cells that are left out that goes before them.
pub(crate) fn add_count<A: Allocator>(tries: &mut Ranked, paper: &mut Paper<A>) {
    let at = head(paper) + 3;
    let Some(stated) = paper.short_at(at) else {
        return;
    };
    if let Some(count) = count_by_area(paper) {
        let points = if leaves_out(paper, at, count) { 18 } else { 36 };
        add_short(tries, paper, at, count, points);
    }
    let count = pointed(paper);
    if count >= stated || Area::with(paper, at, count).is_some_and(|area| area.is_filled()) {
        add_short(tries, paper, at, count, 24);
    }
}

// Adds the entry of a page in the pointer map, as the marks say it.
pub(crate) fn add_entry<A: Allocator>(tries: &mut Ranked, desk: &Desk<A>, page: u32) {
    let geometry = desk.geometry();
    if page == 0 || page > desk.marks().pages() {
        return;
    }
    let (kind, number) = match desk.marks().get(page) {
        Mark::Unmarked | Mark::Fixed => return,
        Mark::Root => (1, 0),
        Mark::Trunk | Mark::FreeLeaf => (2, 0),
        Mark::FirstOverflow(from) => (3, from),
        Mark::LaterOverflow(from) => (4, from),
        Mark::Child(from) => (5, from),
    };
    let Some(map) = geometry.map_page_of(page) else {
        return;
    };
    let distance = u64::from(page.saturating_sub(map).saturating_sub(1));
    let begins = u64::from(map.saturating_sub(1)) * u64::from(geometry.page_size);
    let [a, b, c, d] = u32::to_be_bytes(number);
    if let Some(offset) = begins.checked_add(5 * distance) {
        add_try(tries, offset, &[kind, a, b, c, d], 40);
    }
}

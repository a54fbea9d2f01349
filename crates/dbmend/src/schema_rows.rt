// The root page in a row of the schema (Database File Format, 2.6).
ghost use Rattle.dbmend.specs.Deeds.{HasDone};

use crate::counter::Noted;
use crate::counting::Findings;
use crate::edit::Edit;
use crate::fit::{Fit, Root};
use crate::key::{column_at, integer};
use crate::lost::{Kind, Lost};
use crate::ranked::Ranked;
use crate::reading::{Paper, read_page};
use crate::wanted::{Number, Want, mark, named};
use dbformat::FaultCode;
use dbpage::PageView;
use dbscan::{Desk, Mark};
use dbsource::{RunError, Source};
use std::alloc::Allocator;

// How deep a tree is at most.
pub(crate) const MOST_LEVELS: u32 = 20;

// A row of the schema: the cell of this number in its page, and the root page of the last row before the page, or 0.
#[derive(Clone, Copy)]
pub(crate) struct RowAt<'v, 'p> {
    pub(crate) view: &'v PageView<'p>,
    pub(crate) item: u32,
    pub(crate) last: u32,
}

// Where a row has its root page: the offset in its page, the number of bytes, and the number; and what the row says to be there.
#[derive(Clone, Copy)]
struct RootPlace {
    at: u32,
    len: u64,
    root: i64,
    kind: Kind,
}

// What the type of a row says to be below its root page, by its length in bytes in any encoding: `table` and `index` alone have five letters.
// A table without rowids has pages of an index.
fn kind_of(text: &[u8]) -> Option<Kind> {
    if text.len() != 5 && text.len() != 10 {
        return None;
    }
    if text.contains(&105) {
        Some(Kind::Index)
    } else {
        Some(Kind::Table)
    }
}

// Where the row of a cell has its root page, if that takes bytes.
fn root_place(view: &PageView<'_>, item: u32) -> Option<RootPlace> {
    if item >= view.cells() {
        return None;
    }
    let cell = view.cell(item).ok()?;
    let after = if cell.overflow.is_some() { 4 } else { 0 };
    let local = u32::try_from(cell.local.len()).ok()?;
    let before = cell.len.checked_sub(local)?.checked_sub(after)?;
    let kind = column_at(cell.local, 0)?;
    let root = column_at(cell.local, 3)?;
    let value = integer(&root)?;
    if root.len == 0 || root.len > 4 {
        return None;
    }
    let within = u32::try_from(root.start).ok()?;
    Some(RootPlace {
        at: cell.offset.checked_add(before)?.checked_add(within)?,
        len: root.len,
        root: value,
        kind: kind_of(kind.body)?,
    })
}

// The root page of the row of a cell, if it has one.
pub(crate) fn root_of(view: &PageView<'_>, item: u32) -> Option<u32> {
    u32::try_from(root_place(view, item)?.root).ok()
}

// The root pages of the nearest rows before and after that of a cell in its page that have one.
fn roots_beside(view: &PageView<'_>, item: u32) -> (Option<u32>, Option<u32>) {
    let mut before = None;
    for cell in 0..view.cells() {
        match root_of(view, cell) {
            Some(root) if cell < item => before = Some(root),
            Some(root) if cell > item => return (before, Some(root)),
            _ => {}
        }
    }
    (before, None)
}

// Whether a number fits this many bytes, of which the first has a sign.
fn fits(page: u32, len: u64) -> bool {
    match len {
        1 => page < 128,
        2 => page < 32768,
        3 => page < 8388608,
        _ => page < 2147483648,
    }
}

// How well a page fits a row: its kind, and whether it is between the root pages of the rows beside it in its page, and after the last one
// before that. The more of these are known, the better. A table without rowids has pages of an index.
fn root_fit(last: u32, beside: (Option<u32>, Option<u32>), place: &RootPlace, root: &Root) -> Fit {
    let points = match (place.kind, root.kind) {
        (Kind::Table, Kind::Table) | (Kind::Index, Kind::Index) => 12,
        (Kind::Table, Kind::Index) => 11,
        _ => 0,
    };
    let (before, behind) = beside;
    let page = root.page;
    if before.unwrap_or(1) >= page || page >= behind.unwrap_or(u32::MAX) {
        return Fit::new(points, 0);
    }
    let away = match (before, behind) {
        (None, _) if last >= page => 3,
        (None, None) if last == 0 => 2,
        (_, None) => 1,
        (None, _) if last == 0 => 1,
        _ => 0,
    };
    Fit::new(points + 2, away)
}

// Adds what may have been the root page of the row of a cell: each lost page that no other one names. In a row that no fault names,
// only those that fit well, and later. (SQLite stores 0 in no byte: so that of a view is not looked at.)
pub(crate) fn add_root<A: Allocator>(
    tries: &mut Ranked,
    lost: &Lost<A>,
    paper: &Paper<A>,
    row: &RowAt<'_, '_>,
    is_named: bool,
) {
    let Some(place) = root_place(row.view, row.item) else {
        return;
    };
    let Some(offset) = paper.begins().checked_add(u64::from(place.at)) else {
        return;
    };
    let beside = roots_beside(row.view, row.item);
    for root in lost.roots() {
        if fits(root.page, place.len) {
            let bytes = root.page.to_be_bytes();
            let first = 4u64.saturating_sub(place.len) as usize;
            let fit = root_fit(row.last, beside, &place, root);
            if is_named || place.root == 0 {
                tries.add(offset, &bytes[first..], fit);
            } else if fit.is_better(&Fit::new(12, 0)) {
                tries.add(offset, &bytes[first..], fit.less(8));
            }
        }
    }
}

// Whether a fault says that the head of a page is damaged.
fn is_of_head(noted: &Noted, page: u32) -> bool {
    let is_head = matches!(noted.fault.code, FaultCode::P01 | FaultCode::P03);
    is_head && noted.fault.page == page
}

// Whether a fault says that a page is named twice.
fn is_of_two(noted: &Noted, page: u32) -> bool {
    matches!(noted.fault.code, FaultCode::R03) && named(&noted.fault) == page
}

// Whether the head of a root page is damaged, and nothing but its row names it: then the page was overwritten, and not its number.
fn is_overwritten<A: Allocator>(found: &Findings<A>, lost: &Lost<A>, page: u32) -> bool {
    let noted = found.counter.noted();
    matches!(mark(&found.desk, page), Mark::Root)
        && noted.iter().any(|it| is_of_head(it, page))
        && !noted.iter().any(|it| is_of_two(it, page))
        && !lost.names(page)
}

// Adds what may have been the root page of each row of a page, unless that itself was overwritten. Answers the last one of them, or
// of those before.
fn add_rows<A: Allocator>(
    tries: &mut Ranked,
    found: (&Findings<A>, &Lost<A>),
    wanted: &[Want],
    paper: &Paper<A>,
    last: u32,
) -> u32 {
    let (known, lost) = found;
    let Some(view) = paper.view() else {
        return last;
    };
    if view.kind().is_interior() {
        return last;
    }
    let mut behind = last;
    for item in 0..view.cells() {
        let root = root_of(&view, item).unwrap_or(0);
        behind = if root > 0 { root } else { behind };
        if !is_overwritten(known, lost, root) {
            let is_named = wanted.iter().any(|want| want.number == Number::Root(root));
            let row = RowAt {
                view: &view,
                item,
                last,
            };
            add_root(tries, lost, paper, &row, is_named);
        }
    }
    behind
}

// Whether a page is of the tree of the schema.
fn is_of_schema<A: Allocator>(desk: &Desk<A>, page: u32) -> bool {
    let mut at = page;
    for _ in 0..MOST_LEVELS {
        if at == 0 || at > desk.marks().pages() {
            return false;
        }
        match desk.marks().get(at) {
            Mark::Root => return at == 1,
            Mark::Child(from) => at = from,
            _ => return false,
        }
    }
    false
}

// Whether a page is to be read: one of the schema, if a page is lost.
fn is_wanted<A: Allocator>(desk: &Desk<A>, lost: &Lost<A>, page: u32) -> bool {
    !lost.roots().is_empty() && is_of_schema(desk, page)
}

// Reads the pages of the schema, if a page is lost, and adds what may have been in its rows.
pub(crate) fn add_roots<A: Allocator, S: Source>(
    tries: &mut Ranked,
    found: (&Findings<A>, &Lost<A>),
    wanted: &[Want],
    edits: &[Edit],
    source: &mut S,
    paper: &mut Paper<A>,
) -> Result<(), RunError>
    ensures { HasDone S.Source result 0 0 (λ a deeds. Unit {0}) source.old source.new }
{
    let (known, lost) = found;
    let mut last = 0;
    for index in 0..known.desk.geometry().pages {
        if is_wanted(&known.desk, lost, index + 1) {
            read_page(source, edits, index + 1, paper)?;
            last = add_rows(tries, found, wanted, paper, last);
        }
    }
    Ok(())
}

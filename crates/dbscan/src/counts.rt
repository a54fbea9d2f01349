// What the marks count at the end of a run, and the pages as a reporter receives them.
ghost use Rattle.std.specs.Prelude.{◌≡◌, max, count_by, Some, None, cond};
ghost use Rattle.std.specs.Option.{option_or};
ghost use Rattle.dbformat.specs.FixedPages.{IsInRange};
ghost use Rattle.dbmarks.specs.EndMarks.{is_free_mark, is_root_mark, is_other_mark, greatest_root_marked, least_other_marked};
ghost use Rattle.dbwalk.specs.Reporting.{IsReportedTo};
ghost use Rattle.dbscan.specs.Notices.{pages_from};

use crate::notice::Notice;
use crate::reporter::Reporter;
use dbformat::Geometry;
use dbwalk::{Mark, Marks};
use std::alloc::Allocator;

// How many pages are on the freelist, the greatest root page, and the least page in use that is no root.
#[derive(Clone, Copy)]
pub(crate) struct EndCounts {
    pub(crate) free_pages: u32,
    pub(crate) greatest_root: u32,
    pub(crate) least_other: Option<u32>,
}

// 1 if a page with this mark is on the freelist, else 0.
fn free_page(mark: Mark) -> u32
    ensures { result ≡ cond (is_free_mark mark) 1 0 }
{
    match mark {
        Mark::Trunk | Mark::FreeLeaf => 1,
        _ => 0,
    }
}

// `page` if it is a root and greater, else `greatest`.
fn greater_root(greatest: u32, page: u32, mark: Mark) -> u32
    ensures { result ≡ cond (is_root_mark mark) (max greatest page) greatest }
{
    match mark {
        Mark::Root => greatest.max(page),
        _ => greatest,
    }
}

fn is_other(mark: Mark) -> bool
    ensures { result ≡ is_other_mark mark }
{
    !matches!(&mark, Mark::Unmarked | Mark::Fixed | Mark::Root)
}

// The first page in use that is no root: `least`, or else this page.
fn first_other(least: Option<u32>, page: u32, mark: Mark) -> Option<u32>
    ensures { result ≡ option_or least (cond (is_other_mark mark) (Some page) None) }
{
    match least {
        Some(least) => Some(least),
        None => is_other(mark).then_some(page),
    }
}

// Reports each page with its mark, and counts the marks, in one pass.
pub(crate) fn count_marks<A: Allocator, K: Reporter>(
    geometry: &Geometry,
    marks: &Marks<A>,
    reporter: &mut K,
) -> EndCounts
    requires { IsInRange geometry.now }
    ensures reported { IsReportedTo K.receives K.held reporter.old (pages_from geometry.now 1 marks.now) reporter.new }
    ensures free { result.free_pages ≡ count_by is_free_mark marks.now }
    ensures greatest { result.greatest_root ≡ greatest_root_marked marks.now }
    ensures least { result.least_other ≡ least_other_marked marks.now }
{
    let mut free_pages: u32 = 0;
    let mut greatest_root: u32 = 1;
    let mut least_other: Option<u32> = None;
    for index in 0..marks.pages() {
        let mark = marks.get(index + 1);
        reporter.receive(&Notice::Page(geometry, index + 1, mark));
        let free = free_page(mark);
        free_pages += free;
        greatest_root = greater_root(greatest_root, index + 1, mark);
        least_other = first_other(least_other, index + 1, mark);
    }
    EndCounts {
        free_pages,
        greatest_root,
        least_other,
    }
}

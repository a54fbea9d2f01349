// What is reported of a page of a tree that was read.
ghost use Rattle.std.specs.Prelude.{◌≡◌, ◌<◌, length};
ghost use Rattle.dbformat.specs.FixedPages.{IsPageNumber};
ghost use Rattle.dbwalk.specs.Found.{IsFound, page_findings};
ghost use Rattle.dbwalk.specs.Reporting.{IsReportedTo, SinkMoves};
ghost use Rattle.dbtrace.specs.Progress.{key_value, leaf_after};
ghost use Rattle.dbwalk.specs.Points.{AtRead, IsSameButLeaf};

use crate::page::{PagePlace, undamaged};
use crate::page_row::{report_damaged, report_undamaged};
use crate::state::{KeySpan, Tree, key_value};
use crate::{RowidBounds, Sink};
use dbsource::Bench;
use std::alloc::Allocator;

/// What a page of a tree is: damaged, an interior page, or a leaf.
#[derive(Clone, Copy)]
pub(crate) enum PageFound {
    Damaged,
    Interior,
    /// A leaf, with the span of its keys if its cells have nothing else to look at.
    Leaf(Option<KeySpan>),
}

/// Reports the row of a page that was read at the level of the tree's path, and its faults; `up_to` is the key of the innermost
/// cell whose left child leads to it. Of a leaf it also reports that its depth differs from that of the first leaf.
pub(crate) fn report_page<A: Allocator, K: Sink>(
    bench: &mut Bench<A>,
    tree: &mut Tree,
    page: u32,
    up_to: Option<i64>,
    sink: &mut K,
) -> PageFound
    requires level { length tree.old.path.items < 20 }
    requires page { IsPageNumber page }
    ensures bench { (bench.new.geometry ≡ bench.old.geometry) × (bench.new.levels ≡ bench.old.levels) }
    ensures tree { IsSameButLeaf tree.old tree.new }
    ensures open { IsFound bench.new.geometry.usable tree.new.kind bench.new.levels (length tree.old.path.items) page result }
    ensures writes { SinkMoves (K.held sink.old) (K.held sink.new) }
    // For each file in which the bytes at the level are those of the page.
    ensures reported { AtRead bench.old.geometry tree.old bench.old.levels page (λ file c.
        IsReportedTo K.takes K.held sink.old
        (page_findings file (record { above = key_value tree.old.greatest; up_to = up_to }) tree.old.leaf c) sink.new
        × (tree.new.leaf ≡ leaf_after file tree.old.leaf (record { above = key_value tree.old.greatest; up_to = up_to }) c)) }
{
    let level = tree.path.len();
    let usable = bench.geometry().usable;
    let depth = level as u32 + 1;
    let rowids = RowidBounds {
        above: key_value(tree.greatest),
        up_to,
    };
    let place = PagePlace {
        start: tree.start,
        path: tree.path.as_slice(),
        page,
        rowids,
    };
    let (bytes, uses) = bench.uses(level);
    let keys = match undamaged(bytes, page, usable, tree.kind) {
        Ok(view) => {
            let keys = report_undamaged(&view, &place, depth > 1, uses, sink);
            if view.kind().is_interior() {
                return PageFound::Interior;
            }
            keys
        }
        Err(damage) => {
            report_damaged(&place, bytes, usable, damage, sink);
            return PageFound::Damaged;
        }
    };
    tree.report_depth(page, depth, rowids, sink);
    PageFound::Leaf(keys)
}

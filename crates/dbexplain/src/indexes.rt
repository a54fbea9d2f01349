// Which trees have no rowids: indexes, and tables without rowids.
ghost use Rattle.std.specs.Prelude.{◌≡◌, [], IfOk};
ghost use Rattle.dbwalk.specs.Rows.{row_of};
ghost use Rattle.dbexplain.specs.Indexes.{AreIndexes, index_noted, is_index_type};

use dbformat::{PageKind, PageType};
use dbscan::StartTable;
use dbsource::NoMemory;
use dbwalk::Row;
use std::alloc::Allocator;

// Whether a page is one of an index.
fn is_index_type(page: PageType) -> bool
    ensures { result ≡ is_index_type page }
{
    match page {
        PageType::Tree(PageKind::LeafIndex) => true,
        PageType::Tree(PageKind::InteriorIndex) => true,
        _ => false,
    }
}

/// For each start, whether its page is one of an index: no start has such a page yet.
///
/// # Errors
///
/// [`NoMemory`] where the growth was refused.
pub(crate) fn no_indexes<A: Allocator>(alloc: A) -> Result<StartTable<bool, A>, NoMemory>
    ensures { IfOk result (AreIndexes []) }
{
    StartTable::new_in(alloc, false)
}

/// Notes the start of a row, if its page is one of an index.
pub(crate) fn note_index<A: Allocator>(indexes: &mut StartTable<bool, A>, row: &Row<'_>)
    ensures { indexes.new ≡ index_noted indexes.old (row_of row.now) }
{
    if is_index_type(row.pagetype) {
        indexes.set(row.start, true);
    }
}

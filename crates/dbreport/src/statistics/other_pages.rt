// The row of a page that is in no tree and in no overflow chain.
ghost use Rattle.std.specs.Prelude.{◌≡◌, ◌≤◌, option_map};
ghost use Rattle.dbformat.specs.FixedPages.{IsInRange, fixed_use};
ghost use Rattle.dbformat.specs.Rows.{other_unvisited};
ghost use Rattle.dbsource.specs.Outs.{Puts};
ghost use Rattle.dbreport.specs.Columns.{other_of};
ghost use Rattle.dbreport.specs.OtherMarks.{marked_line, marked_other};

use crate::statistics::lines::put_other_row;
use crate::statistics::page_texts::OtherPage;
use dbsource::{Fixed, Geometry, Out, WriteFailed};
use dbwalk::Mark;

// What a page is that is not visited, by its fixed use.
fn unvisited_page(shape: Geometry, page: u32) -> OtherPage
    requires { IsInRange shape }
    ensures { other_of result ≡ other_unvisited (fixed_use shape page) }
{
    match shape.fixed(page) {
        Some(Fixed::Lock) => OtherPage::Lock,
        Some(Fixed::Map) => OtherPage::Map,
        None => OtherPage::Unowned,
    }
}

// What a page with this mark is, where it is in no tree and in no overflow chain.
fn other_page(shape: Geometry, page: u32, mark: Mark) -> Option<OtherPage>
    requires { IsInRange shape }
    ensures { option_map other_of result ≡ marked_other shape page mark }
{
    match mark {
        Mark::Trunk => Some(OtherPage::Trunk),
        Mark::FreeLeaf => Some(OtherPage::FreeLeaf),
        Mark::Unmarked | Mark::Fixed => Some(unvisited_page(shape, page)),
        _ => None,
    }
}

// Puts the line of a page with this mark, where it is in no tree and in no overflow chain.
pub(crate) fn put_marked<O: Out>(
    out: &mut O,
    shape: &Geometry,
    page: u32,
    mark: Mark,
) -> Result<(), WriteFailed>
    requires { IsInRange shape.now × (1 ≤ page) }
    ensures { Puts result (O.held out.old) (O.held out.new) (marked_line shape.now page mark) }
{
    match other_page(*shape, page, mark) {
        Some(what) => put_other_row(out, shape.page_size, page, what),
        None => Ok(()),
    }
}

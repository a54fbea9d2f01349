// What is reported of one page of a tree: its row, and its faults.
ghost use Rattle.std.specs.Prelude.{◌≡◌, ◌≤◌, length, IfSome};
ghost use Rattle.dbwalk.specs.LeafCells.{HasSpan};
ghost use Rattle.dbwalk.specs.Found.{IsPlaceOf, IsUsable, damage_fault, undamaged_findings, damaged_findings};
ghost use Rattle.dbwalk.specs.Reporting.{IsReportedTo};
ghost use Rattle.dbformat.specs.Cell.{cells};
ghost use Rattle.dbpage.specs.Packed.{payload_of, greatest_of};

use crate::page::{Damage, PagePlace, damage_cause, damage_fault, report_inner, report_readable};
use crate::state::KeySpan;
use crate::{Row, Sink};
use dbformat::{Counts, PageType};
use dbpage::PageView;

/// Reports the row of an undamaged page, and then the faults within it. Answers with the span of its keys, if these rise and no
/// cell has an overflow page. `uses` is room to work in, a byte for each usable byte of the page.
pub(crate) fn report_undamaged<K: Sink>(
    view: &PageView<'_>,
    place: &PagePlace<'_>,
    is_child: bool,
    uses: &mut [u8],
    sink: &mut K,
) -> Option<KeySpan>
    requires { IsPlaceOf place.now view.now (length uses.old) }
    ensures reported { IsReportedTo K.takes K.held sink.old (undamaged_findings place.now.start place.now.path.now place.now.rowids
        view.now is_child) sink.new }
    ensures keys { IfSome result (HasSpan view.now) }
{
    let packed = view.packed(uses);
    let sums = match packed {
        Some(page) => PayloadSums {
            all: u64::from(page.sums.payload),
            greatest: u64::from(page.sums.greatest),
        },
        None => payload_sums(view),
    };
    sink.row(&Row {
        start: place.start,
        path: place.path,
        chain: None,
        page: place.page,
        pagetype: PageType::Tree(view.kind()),
        counts: Counts {
            ncell: u64::from(view.cells()),
            payload: sums.all,
            unused: u64::from(view.unused()),
            mx_payload: sums.greatest,
        },
    });
    let Some(page) = packed else {
        report_inner(view, place, is_child, uses, sink);
        return None;
    };
    report_readable(view, place, is_child, page.unheld, sink);
    if page.sums.has_overflow {
        return None;
    }
    Some(KeySpan {
        cells: view.cells(),
        first: page.sums.first,
        last: page.sums.last,
    })
}

/// Reports the row of a damaged page of these bytes, and then its one fault.
pub(crate) fn report_damaged<K: Sink>(
    place: &PagePlace<'_>,
    bytes: &[u8],
    usable: u32,
    damage: Damage,
    sink: &mut K,
)
    requires { IsUsable usable bytes.now }
    ensures { IsReportedTo K.takes K.held sink.old (damaged_findings place.now.start place.now.path.now place.now.rowids
        place.now.page usable bytes.now (damage_fault place.now.page bytes.now damage)) sink.new }
{
    sink.row(&Row {
        start: place.start,
        path: place.path,
        chain: None,
        page: place.page,
        pagetype: PageType::Damaged,
        counts: Counts::NONE,
    });
    let fault = damage_fault(bytes, place.page, damage);
    let cause = damage_cause(bytes, place, usable, damage);
    sink.fault(&fault, &cause);
}

/// The payload of the readable cells of a page, in bytes: the sum of what is in the cells, and the greatest of one cell.
#[derive(Clone, Copy)]
pub(crate) struct PayloadSums {
    pub(crate) all: u64,
    pub(crate) greatest: u64,
}

/// The payload of the readable cells of a page.
// Most pages are packed and do not need this call.
#[inline(never)]
pub(crate) fn payload_sums(view: &PageView<'_>) -> PayloadSums
    requires { view.now.usable ≤ 65536 }
    ensures all { result.all ≡ payload_of (cells view.now) }
    ensures greatest { result.greatest ≡ greatest_of (cells view.now) }
{
    let mut all = 0;
    let mut greatest = 0;
    for i in 0..view.cells() {
        if let Ok(cell) = view.cell(i) {
            all += cell.local.len() as u64;
            greatest = greatest.max(u64::from(cell.size));
        }
    }
    PayloadSums { all, greatest }
}

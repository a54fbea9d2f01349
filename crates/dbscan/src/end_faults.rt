// The faults that are reported when all pages have been visited.
ghost use Rattle.std.specs.Prelude.{◌≡◌, flat_map, option_to_list, option_map};
ghost use Rattle.dbmarks.specs.EndMarks.{entry_value, late_fault, mark_fault};
ghost use Rattle.dbscan.specs.EndPass.{counted_faults};

use crate::counts::EndCounts;
use dbformat::{Fault, FaultCode};
use dbmarks::MapEntry;
use dbsource::Header;
use dbwalk::Mark;

// The fault of a page's use.
pub(crate) fn use_fault(page: u32, entry: Option<MapEntry>, mark: Mark) -> Option<Fault>
    ensures { option_to_list result ≡ mark_fault page (option_map entry_value entry) mark }
{
    match mark {
        Mark::Unmarked => Some(Fault::new(FaultCode::N01, page, 0, 0)),
        Mark::Fixed => None,
        _ => {
            let stored = entry?;
            let own = mark.entry();
            let is_same = stored.kind == own.kind && stored.number == own.number;
            let kind = u32::from(stored.kind);
            (!is_same).then_some(Fault::new(FaultCode::M01, page, kind, stored.number))
        }
    }
}

// That a root page comes after a page that is no root.
pub(crate) fn late_fault(
    has_map: bool,
    page: u32,
    mark: Mark,
    least_other: Option<u32>,
) -> Option<Fault>
    ensures { option_to_list result ≡ late_fault has_map page mark least_other }
{
    let least = least_other?;
    let is_root = match mark {
        Mark::Root => page != 1,
        _ => false,
    };
    (has_map && is_root && least < page).then_some(Fault::new(FaultCode::M02, page, 0, least))
}

// The faults of the whole file, by its header and the counts of its pages.
pub(crate) fn counted_faults(
    header: &Header,
    any_rows: bool,
    counts: EndCounts,
) -> [Option<Fault>; 3]
    ensures { flat_map option_to_list result ≡ counted_faults header.now.bytes any_rows counts.greatest_root counts.free_pages }
{
    let format = header.schema_format();
    let encoding = header.encoding_number();
    let is_unset = format == 0 || encoding == 0;
    let has_map = header.geometry().has_map;
    let (greatest, free) = (counts.greatest_root, counts.free_pages);
    [
        (is_unset && any_rows).then_some(Fault::new(FaultCode::H08, 1, format, encoding)),
        (has_map && header.greatest_root() != greatest).then_some(Fault::new(
            FaultCode::H09,
            1,
            0,
            greatest,
        )),
        (header.freelist_count() != free).then_some(Fault::new(FaultCode::H10, 1, 0, free)),
    ]
}

// What is reported after the walks: the marks, and then the faults at the end, of the whole and of each page.
ghost use Rattle.std.specs.Prelude.{◌≡◌, ◌↔◌, ℕ, ◌+◌, List, ◌≤◌, true, false, Some, None, length, option_map, IfErr, OnOk};
ghost use Rattle.dbformat.specs.EndFaults.{has_rows};
ghost use Rattle.dbformat.specs.File.{geometry, map_entry, refusal};
ghost use Rattle.dbformat.specs.FixedPages.{IsInRange, is_fixed};
ghost use Rattle.dbformat.specs.Reference.{Reference};
ghost use Rattle.dbformat.specs.Survey.{Survey};
ghost use Rattle.dbsource.specs.Errors.{is_read_failed, is_write_failed};
ghost use Rattle.dbsource.specs.Headers.{IsHeaderOf};
ghost use Rattle.dbsource.specs.Sources.{Asks};
ghost use Rattle.dbmarks.specs.EndMarks.{entry_value};
ghost use Rattle.dbmarks.specs.Marking.{AreMarksOf, is_none, page_mark};
ghost use Rattle.dbwalk.specs.Reporting.{IsReadOrWrite};
ghost use Rattle.dbwalk.specs.Reporting.{Reports, SinkAfter};
ghost use Rattle.dbmarks.specs.declared.marks.Mark as marking;
ghost use Rattle.dbscan.specs.Desks.{shape_of};
ghost use Rattle.dbscan.specs.EndPass.{EndsPage, is_fixed_mark, page_notices, pages_items};
ghost use Rattle.dbscan.specs.MapReads.{HasMapFor, IsMapInUse, IsMapTurn, MapReads};
ghost use Rattle.dbscan.specs.Notices.{end_notices};

use crate::Desk;
use crate::counts::count_marks;
use crate::end_faults::{counted_faults, late_fault, use_fault};
use crate::map_entry::stored_entry;
use crate::report::report_all;
use crate::reporter::{Reporter, ask};
use dbmarks::MapEntry;
use dbsource::{Bench, Fixed, Geometry, RunError, Source};
use dbtrace::Part;
use dbwalk::{CHAIN, Mark, Marks};
use std::alloc::Allocator;

// Whether this is a map page with pages after it.
fn is_map_in_use(geometry: Geometry, page: u32) -> bool
    requires { IsInRange geometry }
    ensures { result ≡ true ↔ IsMapInUse geometry page }
{
    match geometry.fixed(page) {
        Some(Fixed::Map) => page < geometry.pages,
        _ => false,
    }
}

fn is_fixed(mark: Mark) -> bool
    ensures { result ≡ is_fixed_mark mark }
{
    matches!(&mark, Mark::Fixed)
}

fn is_unmarked(mark: Mark) -> bool
    ensures { result ≡ is_none mark }
{
    matches!(&mark, Mark::Unmarked)
}

// The entry of a page in the map page that was read last.
fn entry_of<A: Allocator>(bench: &Bench<A>, page: u32) -> Option<MapEntry>
    ensures { (file : List ℕ) → bench.now.geometry ≡ geometry file → HasMapFor file bench.now.geometry page bench.now.chain
        → option_map entry_value result ≡ map_entry file page }
{
    match bench.geometry().map_page_of(page) {
        Some(map_page) => Some(stored_entry(bench.page(CHAIN), page - map_page)),
        None => None,
    }
}

// Reads a page, where it is a map page with pages after it, or reports its faults.
fn end_page<S: Source, K: Reporter, A: Allocator, B: Allocator>(
    source: &mut S,
    bench: &mut Bench<A>,
    marks: &Marks<B>,
    page: u32,
    least_other: Option<u32>,
    reporter: &mut K,
) -> Result<(), RunError>
    requires page { (1 ≤ page) × (page ≤ length marks.now) }
    requires open { (K.held reporter.old).is_shut ≡ false }
    // The bytes are those of the map page that the next page asks for, where they were those of the one that this page asks for.
    ensures asks { Asks S.step (IsMapTurn bench.old.geometry page)
        (λ file. (mark : marking.Mark) → page_mark marks.now page ≡ Some mark → bench.old.geometry ≡ geometry file → refusal file ≡ None
        → is_fixed_mark mark ≡ is_fixed (geometry file) page → HasMapFor file (geometry file) page bench.old.chain
        → Reports K.receives result reporter.old (page_notices file least_other page mark) reporter.new
        × OnOk result (HasMapFor file (geometry file) (page + 1) bench.new.chain))
        is_read_failed result (S.held source.old) (S.held source.new) }
    ensures ends { EndsPage result (K.held reporter.old) (K.held reporter.new) bench.old bench.new }
{
    let mark = marks.get(page);
    let geometry = bench.geometry();
    if is_fixed(mark) {
        if is_map_in_use(geometry, page) {
            bench.load(CHAIN, source, page)?;
        }
        return Ok(());
    }
    // In a file without a pointer map there is nothing to say of a page that is used.
    if !geometry.has_map && !is_unmarked(mark) {
        return Ok(());
    }
    let entry = entry_of(bench, page);
    let faults = [
        use_fault(page, entry, mark),
        late_fault(geometry.has_map, page, mark, least_other),
    ];
    report_all(Part::End, &faults, reporter)
}

// Does this for each page, by number.
fn end_pages<S: Source, K: Reporter, A: Allocator, B: Allocator>(
    source: &mut S,
    bench: &mut Bench<A>,
    marks: &Marks<B>,
    least_other: Option<u32>,
    reporter: &mut K,
) -> Result<(), RunError>
    requires { (K.held reporter.old).is_shut ≡ false }
    ensures asks { Asks S.step (MapReads bench.old.geometry) (λ file. bench.old.geometry ≡ geometry file → refusal file ≡ None
        → (V : List Reference) → AreMarksOf file V marks.now
        → Reports K.receives result reporter.old (pages_items file V least_other (geometry file).pages) reporter.new)
        is_read_failed result (S.held source.old) (S.held source.new) }
    ensures ends { EndsPage result (K.held reporter.old) (K.held reporter.new) bench.old bench.new }
{
    for index in 0..marks.pages() {
        end_page(source, bench, marks, index + 1, least_other, reporter)?;
    }
    Ok(())
}

/// Reports what is left when all walks have ended: the marks, and then the faults at the end, by the header and the marks, first of the
/// whole and then of each page. `any_rows` says whether the schema has rows. Each map page with pages after it is read once, to the chain
/// buffer, when its number has its turn.
///
/// # Errors
///
/// [`RunError::ReadFailed`] exactly where the source failed, [`RunError::WriteFailed`] exactly where the reporter failed: then it received a
/// prefix of the notices.
pub fn report_end<S: Source, K: Reporter, A: Allocator>(
    desk: &mut Desk<A>,
    source: &mut S,
    any_rows: bool,
    reporter: &mut K,
) -> Result<(), RunError>
    requires { (K.held reporter.old).is_shut ≡ false }
    ensures desk { desk.new ≡ record desk.old { pages = desk.new.pages } }
    ensures asks { Asks S.step (MapReads (shape_of desk.old)) (λ file. IsHeaderOf desk.old.header file
        → (V : List Reference) → Survey file V → AreMarksOf file V desk.old.marks → any_rows ≡ has_rows file V
        → Reports K.receives result reporter.old (end_notices file V) reporter.new)
        is_read_failed result (S.held source.old) (S.held source.new) }
    ensures writes { SinkAfter is_write_failed result (K.held reporter.old) (K.held reporter.new) }
    ensures only { IfErr result IsReadOrWrite }
{
    let geometry = desk.header.geometry();
    let counts = count_marks(&geometry, &desk.marks, reporter);
    ask(reporter)?;
    let faults = counted_faults(&desk.header, any_rows, counts);
    report_all(Part::End, &faults, reporter)?;
    let least = counts.least_other;
    end_pages(source, &mut desk.bench, &desk.marks, least, reporter)
}

// The faults within one page of a tree (Database File Format, 1.6).
ghost use Rattle.std.specs.Prelude.{◌≡◌, ℕ, ◌≤◌, ◌<◌, ◌==◌, length, None, Some, [], ◌∷◌, Bool, IsOk, IfOk, IsTrue, MatchResult};
ghost use Rattle.std.specs.List.{flat_map};
ghost use Rattle.std.specs.Option.{option_to_list};
ghost use Rattle.dbformat.specs.Cell.{cell, count};
ghost use Rattle.dbformat.specs.Coverage.{coverage};
ghost use Rattle.dbformat.specs.Head.{tree_of, is_same_tree, undamaged};
ghost use Rattle.dbformat.specs.PageFaults.{fragment_fault, cell_fault, cell_faults, freeblock_fault};
ghost use Rattle.dbformat.specs.PageFaults.{coverage_fault, empty_fault, inner_faults, tree_page_faults};
ghost use Rattle.dbformat.specs.Runs.{content_run};
ghost use Rattle.dbtrace.specs.Causes.{page_cause, page_facts};
ghost use Rattle.dbtrace.specs.Finding.{reported_by};
ghost use Rattle.dbtrace.specs.declared.Cause.TheVariants as cause;
ghost use Rattle.dbwalk.specs.Found.{IsPlaceOf, IsUsable, damage_fault, inner_cause, rows_of, view_cause};
ghost use Rattle.dbwalk.specs.Reporting.{IsReportedTo};

use crate::{Cause, PageFacts, RowidBounds, Sink};
use dbformat::{
    ByteRun, CellFault, Coverage, Fault, FaultCode, HeadFault, Look, PageKind, TreeKind,
};
use dbpage::{PageView, content_start, look_of, type_byte, uncounted_coverage, usable_run};

/// A page of a tree: the number of the tree's start, the children on the way to the page, its number, and its rowids.
#[derive(Clone, Copy, Drop)]
pub(crate) struct PagePlace<'a> {
    pub(crate) start: u32,
    pub(crate) path: &'a [u32],
    pub(crate) page: u32,
    pub(crate) rowids: RowidBounds,
}

/// Why a page of a tree is damaged.
#[derive(Clone, Copy)]
pub(crate) enum Damage {
    /// Its type is none of the four.
    UnknownType,
    /// It is a page of the other kind of tree.
    OtherTree,
    /// Its content area is out of bounds.
    ContentStart,
}

/// Page `number` as a page of a tree of this kind, or why it is damaged.
#[tactic(auto, unfolding(dbformat::specs::PageFaults::tree_page_faults))]
pub(crate) fn undamaged<'a>(
    page: &'a [u8],
    number: u32,
    usable: u32,
    kind: TreeKind,
) -> Result<PageView<'a>, Damage>
    requires { IsUsable usable page.now }
    ensures view { MatchResult result (λ v. undamaged kind number usable page.now ≡ Some v) (λ _. undamaged kind number usable page.now ≡ None) }
    ensures faults { (is_child : Bool) → MatchResult result
        (λ v. tree_page_faults kind is_child number usable page.now ≡ inner_faults v is_child)
        (λ damage. tree_page_faults kind is_child number usable page.now ≡ damage_fault number page.now damage ∷ []) }
    ensures of { IfOk result (λ v. (v.number ≡ number) × (v.usable ≡ usable) × (v.bytes ≡ page.now)) }
{
    match PageView::new(page, number, usable) {
        Ok(view) => {
            if is_of_tree(view.kind(), kind) {
                Ok(view)
            } else {
                Err(Damage::OtherTree)
            }
        }
        Err(HeadFault::UnknownType) => Err(Damage::UnknownType),
        Err(HeadFault::ContentStart) => Err(Damage::ContentStart),
    }
}

/// The one fault of a damaged page.
pub(crate) fn damage_fault(page: &[u8], number: u32, damage: Damage) -> Fault
    requires { 480 ≤ length page.now }
    ensures { result ≡ damage_fault number page.now damage }
{
    match damage {
        Damage::UnknownType => Fault::new(
            FaultCode::P01,
            number,
            0,
            u32::from(type_byte(page, number)),
        ),
        Damage::OtherTree => Fault::new(
            FaultCode::P02,
            number,
            0,
            u32::from(type_byte(page, number)),
        ),
        Damage::ContentStart => {
            Fault::new(FaultCode::P03, number, 0, content_start(page, number))
        }
    }
}

/// What this fault goes back to: the page, or for a page of an unknown type what it looks like; and the longest run of one byte.
pub(crate) fn damage_cause(page: &[u8], place: &PagePlace<'_>, usable: u32, damage: Damage) -> Cause
    requires { IsUsable usable page.now }
    ensures { result ≡ page_cause place.now.rowids place.now.page usable page.now None (damage_fault place.now.page page.now damage).code }
{
    let run = match damage {
        Damage::UnknownType => return look_cause(page, place, usable),
        Damage::OtherTree => None,
        Damage::ContentStart => usable_run(page, usable),
    };
    Cause::Page(place.page, page_facts(place.rowids, run))
}

// What is known of a page of a tree.
fn page_facts(rowids: RowidBounds, run: Option<ByteRun>) -> PageFacts
    ensures { result ≡ page_facts rowids run }
{
    PageFacts {
        run,
        named: None,
        rowids,
    }
}

// What a page of an unknown type goes back to.
fn look_cause(page: &[u8], place: &PagePlace<'_>, usable: u32) -> Cause
    requires { IsUsable usable page.now }
    ensures { result ≡ page_cause place.now.rowids place.now.page usable page.now None FaultCode.P01 }
{
    let look = look_of(page, place.page, usable);
    let run = match look {
        Look::Blank(_) => None,
        Look::Tree(_) | Look::Other(_) => usable_run(page, usable),
    };
    Cause::Look(look, page_facts(place.rowids, run))
}

// What the faults within an undamaged page go back to: the page, and its longest run of one byte in which a cell begins.
fn cause_within(view: &PageView<'_>, place: &PagePlace<'_>) -> Cause
    requires most { view.now.usable ≤ 65536 }
    ensures { result ≡ cause.Page place.now.page (page_facts place.now.rowids (content_run view.now)) }
{
    Cause::Page(place.page, page_facts(place.rowids, view.content_run()))
}

// Whether pages of this kind belong to trees of that kind.
fn is_of_tree(page: PageKind, tree: TreeKind) -> bool
    ensures { result ≡ is_same_tree (tree_of page) tree }
{
    match page {
        PageKind::InteriorTable | PageKind::LeafTable => tree == TreeKind::Table,
        PageKind::InteriorIndex | PageKind::LeafIndex => tree == TreeKind::Index,
    }
}

/// Reports the faults within an undamaged page. `uses` is room to work in, a byte for each usable byte of the page.
// Most pages are packed and do not reach this call.
#[inline(never)]
pub(crate) fn report_inner<K: Sink>(
    view: &PageView<'_>,
    place: &PagePlace<'_>,
    is_child: bool,
    uses: &mut [u8],
    sink: &mut K,
)
    requires { IsPlaceOf place.now view.now (length uses.old) }
    ensures { IsReportedTo K.takes K.held sink.old (reported_by (view_cause place.now.rowids view.now) (inner_faults view.now is_child)) sink.new }
{
    let number = place.page;
    let cause = cause_within(view, place);
    report_found(fragment_fault(view, number), &cause, sink);
    let are_cells_good = report_cells(view, number, &cause, sink);
    let freeblock = freeblock_fault(view, number);
    let is_good = are_cells_good & freeblock.is_none();
    let coverage = coverage_fault(view, number, is_good, uses);
    let empty = empty_fault(view, number, is_child);
    report_each(&[freeblock, coverage, empty], &cause, sink);
}

/// Reports the faults within an undamaged page whose cells are all readable and of which no byte is held twice. `unheld` is the
/// number of bytes that no item holds.
pub(crate) fn report_readable<K: Sink>(
    view: &PageView<'_>,
    place: &PagePlace<'_>,
    is_child: bool,
    unheld: u32,
    sink: &mut K,
)
    requires number { place.now.page ≡ view.now.number }
    requires cells { (i : ℕ) → i < count view.now → IsOk (cell view.now i) }
    requires unheld { coverage view.now ≡ Coverage.Unheld unheld }
    requires most { view.now.usable ≤ 65536 }
    ensures { IsReportedTo K.takes K.held sink.old (reported_by (view_cause place.now.rowids view.now) (inner_faults view.now is_child)) sink.new }
{
    let number = place.page;
    let fragments = fragment_fault(view, number);
    let freeblock = freeblock_fault(view, number);
    let coverage = unheld_fault(view, number, freeblock.is_none(), unheld);
    let empty = empty_fault(view, number, is_child);
    let found = [fragments, freeblock, coverage, empty];
    if !are_none(&found) {
        report_each(&found, &cause_within(view, place), sink);
    }
}

// Whether none of these faults is there, as on most pages.
#[inline(always)]
fn are_none(faults: &[Option<Fault>; 4]) -> bool
    ensures { IsTrue result → flat_map option_to_list faults.now ≡ [] }
{
    match faults {
        [None, None, None, None] => true,
        _ => false,
    }
}

// Reports those of these faults that are there.
fn report_each<K: Sink>(faults: &[Option<Fault>], cause: &Cause, sink: &mut K)
    ensures { IsReportedTo K.takes K.held sink.old (reported_by (inner_cause cause.now) (flat_map option_to_list faults.now)) sink.new }
{
    for found in faults {
        report_found(*found, cause, sink);
    }
}

// What a page without cells goes back to: nothing but itself, with the rows that were to be on it.
fn rows_of(cause: &Cause) -> Cause
    ensures { result ≡ rows_of cause.now }
{
    match cause {
        Cause::Page(_, facts) => Cause::Rows(facts.rowids),
        other => *other,
    }
}

// Reports a fault within a page, if there is one. That there are no cells goes back to nothing else.
fn report_found<K: Sink>(found: Option<Fault>, cause: &Cause, sink: &mut K)
    ensures { IsReportedTo K.takes K.held sink.old (reported_by (inner_cause cause.now) (option_to_list found)) sink.new }
{
    let Some(fault) = found else {
        return;
    };
    match fault.code {
        FaultCode::P10 => sink.fault(&fault, &rows_of(cause)),
        _ => sink.fault(&fault, cause),
    }
}

// The fault of more than 60 fragmented bytes, if there are more.
fn fragment_fault(view: &PageView<'_>, number: u32) -> Option<Fault>
    requires { number ≡ view.now.number }
    ensures { option_to_list result ≡ fragment_fault view.now }
{
    let fragments = view.fragments();
    if fragments <= 60 {
        return None;
    }
    Some(Fault::new(FaultCode::P04, number, 0, u32::from(fragments)))
}

// Reports each cell that is not readable; true if all are.
fn report_cells<K: Sink>(view: &PageView<'_>, number: u32, cause: &Cause, sink: &mut K) -> bool
    requires { number ≡ view.now.number }
    ensures reported { IsReportedTo K.takes K.held sink.old (reported_by (inner_cause cause.now) (cell_faults view.now)) sink.new }
    ensures good { result ≡ (length (cell_faults view.now) == 0) }
{
    let mut good = true;
    for i in 0..view.cells() {
        good &= report_cell(view, number, i, cause, sink);
    }
    good
}

// Reports cell `i` if it is not readable; true if it is.
fn report_cell<K: Sink>(
    view: &PageView<'_>,
    number: u32,
    i: u32,
    cause: &Cause,
    sink: &mut K,
) -> bool
    requires number { number ≡ view.now.number }
    requires cell { i < count view.now }
    ensures reported { IsReportedTo K.takes K.held sink.old (reported_by (inner_cause cause.now) (cell_fault view.now i)) sink.new }
    ensures good { result ≡ (length (cell_fault view.now i) == 0) }
{
    let code = match view.cell(i) {
        Ok(_) => return true,
        Err(CellFault::Offset) => FaultCode::P05,
        Err(CellFault::Unreadable) => FaultCode::P06,
    };
    let fault = Fault::new(code, number, i, view.pointer(i));
    report_found(Some(fault), cause, sink);
    false
}

// The fault of the first freeblock that is not good.
fn freeblock_fault(view: &PageView<'_>, number: u32) -> Option<Fault>
    requires { number ≡ view.now.number }
    ensures { option_to_list result ≡ freeblock_fault view.now }
{
    let (item, offset) = view.freeblocks().bad()?;
    Some(Fault::new(FaultCode::P07, number, item, offset))
}

// The fault of the first item that shares a byte with one before it. If there is none, that of a good page with a wrong count
// of fragmented bytes.
fn coverage_fault(view: &PageView<'_>, number: u32, is_good: bool, uses: &mut [u8]) -> Option<Fault>
    requires number { number ≡ view.now.number }
    requires room { view.now.usable ≤ length uses.old }
    ensures { option_to_list result ≡ coverage_fault view.now is_good }
{
    match uncounted_coverage(view, uses) {
        Coverage::Overlap(item) => Some(Fault::new(
            FaultCode::P08,
            number,
            item,
            view.item_offset(item),
        )),
        Coverage::Unheld(unheld) => unheld_fault(view, number, is_good, unheld),
    }
}

// The fault of a good page whose count of fragmented bytes is not the number of bytes that no item holds.
fn unheld_fault(view: &PageView<'_>, number: u32, is_good: bool, unheld: u32) -> Option<Fault>
    requires number { number ≡ view.now.number }
    requires unheld { coverage view.now ≡ Coverage.Unheld unheld }
    ensures { option_to_list result ≡ coverage_fault view.now is_good }
{
    if !is_good || unheld == u32::from(view.fragments()) {
        return None;
    }
    Some(Fault::new(FaultCode::P09, number, 0, unheld))
}

// The fault of a child without cells.
fn empty_fault(view: &PageView<'_>, number: u32, is_child: bool) -> Option<Fault>
    requires { number ≡ view.now.number }
    ensures { option_to_list result ≡ empty_fault view.now is_child }
{
    if !is_child || view.cells() > 0 {
        return None;
    }
    Some(Fault::new(FaultCode::P10, number, 0, 0))
}

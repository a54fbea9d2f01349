// The steps of an interior page: at each cell its overflow chain, its left child and its key, and after the cells the right
// child.
ghost use Rattle.std.specs.Prelude.{◌≡◌, ℕ, ◌<◌, ◌≤◌, ◌/◌, false, true};
ghost use Rattle.dbformat.specs.Address.{overflow_step, child_step, key_step};
ghost use Rattle.dbformat.specs.Cell.{count};
ghost use Rattle.dbtrace.specs.Progress.{key_value};
ghost use Rattle.dbwalk.specs.LeafCells.{is_late};
ghost use Rattle.dbwalk.specs.Steps.{AreEmpty, HasKeyBefore, HasLeft, HasNext, IsEmptyAt, IsNextStep, child_of};
ghost use Rattle.dbwalk.specs.Walking.{IsStepped};

use crate::RowidBounds;
use crate::cells::leaf_cell;
use crate::page::undamaged;
use crate::state::Tree;
use dbformat::{PageKind, TreeKind};
use dbpage::PageView;
use dbsource::Bench;
use std::alloc::Allocator;

/// An interior page that was visited, its next step, and the key of the innermost cell whose left child leads to the page.
#[derive(Clone, Copy, Default)]
pub(crate) struct StackFrame {
    pub(crate) page: u32,
    pub(crate) next: u32,
    pub(crate) up_to: Option<i64>,
}

impl StackFrame {
    /// The frame one step on.
    pub(crate) fn stepped(self) -> StackFrame
        requires { self.next < 4294967295 }
        ensures { IsStepped self result }
    {
        StackFrame {
            next: self.next + 1,
            ..self
        }
    }
}

/// What an interior page has at a step.
#[derive(Clone, Copy)]
pub(crate) enum Next {
    /// The step is after the last one.
    End,
    /// There is nothing at this step.
    Nothing,
    /// The key of a cell.
    Key(i64),
    /// The overflow chain of a cell: its first page, the number of payload bytes on overflow pages, and the cell's rowid.
    Chain {
        first: u32,
        left: u32,
        rowid: Option<i64>,
    },
    /// The page of a child, and the key of the cell whose left child it is.
    Child {
        page: u32,
        key: Option<i64>,
    },
}

/// The first step from that of a frame on at which the page at a level has something, as a frame, and what it has there. A damaged
/// page has no more steps.
pub(crate) fn step_of<A: Allocator>(
    bench: &Bench<A>,
    kind: TreeKind,
    level: usize,
    frame: StackFrame,
) -> (StackFrame, Next)
    requires { level < 20 }
    ensures page { result.0.page ≡ frame.page }
    ensures up_to { result.0.up_to ≡ frame.up_to }
    ensures empty { AreEmpty bench.now.geometry.usable kind bench.now.levels level frame.page frame.next result.0.next }
    ensures next { HasNext bench.now.geometry.usable kind bench.now.levels level frame.page result.0.next result.1 }
{
    let usable = bench.geometry().usable;
    let Ok(view) = undamaged(bench.page(level), frame.page, usable, kind) else {
        return (frame, Next::End);
    };
    let (next, what) = next_from(&view, view.cells(), frame.next);
    (StackFrame { next, ..frame }, what)
}

/// The rows of the left child of the cell at a frame's step, which has this key, where the key is out of order: by the cell before it
/// and its own key.
pub(crate) fn left_rows<A: Allocator>(
    bench: &Bench<A>,
    tree: &Tree,
    level: usize,
    frame: StackFrame,
    key: i64,
) -> RowidBounds
    requires { level < 20 }
    ensures { is_late false (key_value tree.now.greatest) key ≡ true
        → HasLeft bench.now.geometry.usable tree.now.kind bench.now.levels level frame.page (frame.next / 3) key result }
{
    if !tree.is_late(key) {
        return RowidBounds::NONE;
    }
    RowidBounds {
        above: key_before(bench, tree.kind, level, frame.page, frame.next / 3),
        up_to: Some(key),
    }
}

// The key of the cell before cell `item` of the page at a level.
#[inline(never)]
fn key_before<A: Allocator>(
    bench: &Bench<A>,
    kind: TreeKind,
    level: usize,
    page: u32,
    item: u32,
) -> Option<i64>
    requires { level < 20 }
    ensures { HasKeyBefore bench.now.geometry.usable kind bench.now.levels level page item result }
{
    if item == 0 {
        return None;
    }
    let usable = bench.geometry().usable;
    let Ok(view) = undamaged(bench.page(level), page, usable, kind) else {
        return None;
    };
    if item > view.cells() {
        return None;
    }
    leaf_cell(&view, item - 1).key
}

// The first step from one on at which there is something, and what is there.
fn next_from(view: &PageView<'_>, cells: u32, from: u32) -> (u32, Next)
    requires cells { cells ≡ count view.now }
    requires few { cells ≤ 32768 }
    ensures rise { from ≤ result.0 }
    ensures empty { (s : ℕ) → from ≤ s → s < result.0 → IsEmptyAt view.now s }
    ensures next { IsNextStep view.now result.0 result.1 }
{
    let mut step = from;
    let mut next = at_step(view, cells, step);
    while let Next::Nothing = next {
        step += 1;
        next = at_step(view, cells, step);
    }
    (step, next)
}

// What a page has at a step.
fn at_step(view: &PageView<'_>, cells: u32, step: u32) -> Next
    requires { cells ≡ count view.now }
    ensures { IsNextStep view.now step result }
{
    let i = step / 3;
    match step % 3 {
        0 => chain_at(view, cells, i),
        1 => child_at(view, cells, i),
        _ => key_at(view, cells, i),
    }
}

// The overflow chain of cell `i`, if it has one.
fn chain_at(view: &PageView<'_>, cells: u32, i: u32) -> Next
    requires { cells ≡ count view.now }
    ensures { IsNextStep view.now (overflow_step i) result }
{
    if i > cells {
        return Next::End;
    }
    if i == cells {
        return Next::Nothing;
    }
    // The cells of an interior page of a table have no payload.
    if let PageKind::InteriorTable = view.kind() {
        return Next::Nothing;
    }
    match view.cell(i) {
        Ok(cell) => match cell.overflow {
            Some(first) => Next::Chain {
                first,
                left: cell.overflow_size(),
                rowid: cell.key,
            },
            None => Next::Nothing,
        },
        Err(_) => Next::Nothing,
    }
}

// The page of child `i`, if there is one.
fn child_at(view: &PageView<'_>, cells: u32, i: u32) -> Next
    requires { cells ≡ count view.now }
    ensures { IsNextStep view.now (child_step i) result }
{
    if i > cells {
        return Next::End;
    }
    if i == cells {
        return child_of(view.child(i), None);
    }
    match view.cell(i) {
        Ok(cell) => child_of(cell.left, cell.key),
        Err(_) => Next::Nothing,
    }
}

// A child, if there is one.
fn child_of(page: Option<u32>, key: Option<i64>) -> Next
    ensures { result ≡ child_of page key }
{
    match page {
        Some(page) => Next::Child { page, key },
        None => Next::Nothing,
    }
}

// The key of cell `i`, if it has one.
fn key_at(view: &PageView<'_>, cells: u32, i: u32) -> Next
    requires { cells ≡ count view.now }
    ensures { IsNextStep view.now (key_step i) result }
{
    if i >= cells {
        return Next::End;
    }
    // The cells of an index have no rowids.
    if let PageKind::InteriorIndex = view.kind() {
        return Next::Nothing;
    }
    match view.cell(i) {
        Ok(cell) => match cell.key {
            Some(key) => Next::Key(key),
            None => Next::Nothing,
        },
        Err(_) => Next::Nothing,
    }
}

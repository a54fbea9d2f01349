// What is read of the cells of a leaf.
ghost use Rattle.std.specs.Prelude.{◌-◌, ◌<◌, ◌≤◌};
ghost use Rattle.dbformat.specs.Cell.{count};
ghost use Rattle.dbwalk.specs.LeafCells.{AreRisingFrom, HasCell};
ghost use Rattle.dbwalk.specs.Points.{IsSameButGreatest};

use crate::CellKey;
use crate::state::{Tree, key_value};
use dbformat::SCHEMA_START;
use dbpage::{PageView, is_rising};

/// A cell of a leaf, as far as a walk needs it: its first overflow page with the number of payload bytes on overflow pages, and
/// its key.
#[derive(Clone, Copy)]
pub(crate) struct LeafCell {
    pub(crate) overflow: Option<(u32, u32)>,
    pub(crate) key: Option<i64>,
}

/// Cell `i` of a page. A cell that cannot be read has neither an overflow page nor a key.
pub(crate) fn leaf_cell(view: &PageView<'_>, i: u32) -> LeafCell
    requires { i < count view.now }
    ensures { HasCell view.now i result.overflow result.key }
{
    match view.cell(i) {
        Ok(cell) => {
            let overflow = match cell.overflow {
                Some(first) => Some((first, cell.overflow_size())),
                None => None,
            };
            LeafCell {
                overflow,
                key: cell.key,
            }
        }
        Err(_) => LeafCell {
            overflow: None,
            key: None,
        },
    }
}

/// Passes over cells of a leaf, from cell `from` on, while they have nothing but their keys
/// to look at and the keys rise from above the greatest so far. Answers with the number of the first other cell, or of all
/// cells if there is none. In the tree of the schema, whose rows are wanted, it passes over no cell.
pub(crate) fn pass_cells(view: &PageView<'_>, tree: &mut Tree, page: u32, from: u32) -> u32
    requires { from ≤ count view.now }
    ensures within { (from ≤ result) × (result ≤ count view.now) }
    ensures rising { AreRisingFrom page view.now from (result - from) tree.old.greatest tree.new.greatest }
    ensures other { from < result → 1 ≤ tree.old.start }
    ensures others { IsSameButGreatest tree.old tree.new }
{
    if tree.start == SCHEMA_START {
        return from;
    }
    let rise = rise_from(view, page, from, tree.greatest);
    tree.greatest = rise.greatest;
    rise.end
}

// Cells whose keys rise: the number of the first cell after them, and the greatest key up to there.
#[derive(Clone, Copy)]
struct Rise {
    end: u32,
    greatest: Option<CellKey>,
}

// The cells from one on that are readable and without overflow pages, while their keys rise from above the greatest before
// them.
fn rise_from(view: &PageView<'_>, page: u32, from: u32, mut greatest: Option<CellKey>) -> Rise
    requires { from ≤ count view.now }
    ensures within { (from ≤ result.end) × (result.end ≤ count view.now) }
    ensures rising { AreRisingFrom page view.now from (result.end - from) greatest result.greatest }
{
    for i in from..view.cells() {
        let Ok(cell) = view.cell(i) else {
            return Rise { end: i, greatest };
        };
        if cell.overflow.is_some() || !is_rising(key_value(greatest), cell.key) {
            return Rise { end: i, greatest };
        }
        if let Some(value) = cell.key {
            greatest = Some(CellKey {
                page,
                item: i,
                value,
            });
        }
    }
    Rise {
        end: view.cells(),
        greatest,
    }
}

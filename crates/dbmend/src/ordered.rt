// Where a key belongs among the cells of a page.
ghost use Rattle.std.specs.Prelude.{◌<◌};

use crate::fit::{Fit, Span};
use crate::key::{Key, Order, Step};
use dbpage::PageView;

// How many cells are looked at to see how the keys of a page go.
const MOST_STEPS: u32 = 64;

// How many cells are looked at on each side of one.
const MOST_LOST: u32 = 16;

// How many columns of a key are counted apart. Those after them count as the last of these.
const MOST_COLUMNS: usize = 4;

// How often a key of a page is above the one before it, and how often below, by the column in which they differ. One cell is left out.
#[derive(Clone, Copy)]
struct Steps {
    rises: [u32; 4],
    falls: [u32; 4],
}

impl Steps {
    fn without(view: &PageView<'_>, cell: u32, folded: bool) -> Steps {
        let mut steps = Steps {
            rises: [0; MOST_COLUMNS],
            falls: [0; MOST_COLUMNS],
        };
        let mut last = Key::Unknown;
        for i in 0..view.cells().min(MOST_STEPS) {
            let key = if i == cell {
                Key::Unknown
            } else {
                Key::of(view, i)
            };
            steps.count(&last.step(&key, folded));
            if key.is_known() {
                last = key;
            }
        }
        steps
    }

    fn count(&mut self, step: &Step) {
        let column = place_of(step);
        match step.order {
            Order::Rising => self.rises[column] = self.rises[column].saturating_add(1),
            Order::Falling => self.falls[column] = self.falls[column].saturating_add(1),
            Order::Same | Order::Unknown => {}
        }
    }

    // How many of them go the way of most of their column, and how many the other way.
    fn sides(&self) -> (u32, u32) {
        let mut most = 0u32;
        let mut others = 0u32;
        for (rises, falls) in self.rises.iter().zip(&self.falls) {
            most = most.saturating_add((*rises).max(*falls));
            others = others.saturating_add((*rises).min(*falls));
        }
        (most, others)
    }

    // How many of them go the other way than most of their column.
    fn against(&self) -> u32 {
        self.sides().1
    }

    // Whether nearly all go the way of their column.
    fn are_clear(&self) -> bool {
        let (most, against) = self.sides();
        against.saturating_mul(4) < most
    }
}

// Where the steps of a column are counted.
fn place_of(step: &Step) -> usize
    ensures { result < 4 }
{
    (step.column as usize).min(MOST_COLUMNS - 1)
}

// How the keys of a page go: whether capital letters count as small ones, in which columns they fall, and whether that is clear.
#[derive(Clone, Copy)]
struct Way {
    folded: bool,
    steps: Steps,
}

impl Way {
    // By the keys of all cells but one: where that is may be wrong.
    fn without(view: &PageView<'_>, cell: u32) -> Way {
        let plain = Steps::without(view, cell, false);
        let small = Steps::without(view, cell, true);
        let folded = small.against() < plain.against();
        Way {
            folded,
            steps: if folded { small } else { plain },
        }
    }

    // Whether one key comes before another.
    fn leads(&self, one: &Key, other: &Key) -> bool {
        let step = one.step(other, self.folded);
        let column = place_of(&step);
        if self.steps.falls[column] > self.steps.rises[column] {
            step.order == Order::Falling
        } else {
            step.order == Order::Rising
        }
    }
}

// The nearest known key before a cell, and how many cells without one are between.
fn before(view: &PageView<'_>, cell: u32) -> (Key, u32) {
    for distance in 0..MOST_LOST {
        let Some(other) = cell.checked_sub(distance + 1) else {
            return (Key::Unknown, distance);
        };
        let key = Key::of(view, other);
        if key.is_known() {
            return (key, distance);
        }
    }
    (Key::Unknown, 0)
}

// The nearest known key after a cell.
fn behind(view: &PageView<'_>, cell: u32) -> Key {
    for distance in 0..MOST_LOST {
        let key = Key::of(view, cell.saturating_add(distance + 1));
        if key.is_known() {
            return key;
        }
    }
    Key::Unknown
}

// The place of a cell in the order of its page.
#[derive(Clone, Copy)]
pub(crate) struct Rank {
    way: Way,
    keys: Span,
    // How many cells without a key are directly before it.
    lost: u32,
}

impl Rank {
    pub(crate) fn of(view: &PageView<'_>, cell: u32) -> Rank {
        let (first, lost) = before(view, cell);
        let last = behind(view, cell);
        Rank {
            way: Way::without(view, cell),
            keys: Span { first, last },
            lost,
        }
    }

    // Whether a key may be there by those around.
    fn has_room_for(&self, key: &Key) -> bool {
        !self.way.leads(key, &self.keys.first) && !self.way.leads(&self.keys.last, key)
    }

    // Whether the page may have a cell of this key there: a record has as many columns as the others, and a rowid is between those around.
    pub(crate) fn accepts(&self, key: &Key) -> bool {
        match key {
            Key::Rowid(_) => self.has_room_for(key),
            _ => key.is_as_wide_as(&self.keys.first) && key.is_as_wide_as(&self.keys.last),
        }
    }

    // Whether a key is out of order there, and no fault would say it: that of a record, as no index is checked for its order.
    pub(crate) fn refuses(&self, key: &Key) -> bool {
        self.way.steps.are_clear() && matches!(key, Key::Record(_)) && !self.has_room_for(key)
    }

    // How well a key fits there, of which this number of others come before it.
    pub(crate) fn fit(&self, key: &Key, number: u32) -> Fit {
        if self.has_room_for(key) {
            Fit::new(32, self.lost.abs_diff(number))
        } else {
            Fit::new(22, 0)
        }
    }

    // Whether one key comes before another, of those that may be there.
    pub(crate) fn leads(&self, one: &Key, other: &Key) -> bool {
        self.has_room_for(one) && self.way.leads(one, other)
    }
}

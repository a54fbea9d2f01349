// Pages by their bytes, and what is read of them:
//
//     head         the byte of its type, and where its content area begins
//     look         what it looks like, whatever refers to it
//     kind         its kind and how many cells it has, or why its head is not sound; the words below ask of a page whose head is
//     cells        of each cell its offset and length, its local bytes and payload size, its left child, its key and its first overflow page
//     children     those that there are, each after its number
//     freeblocks   the good ones by offset and size, and number and offset of the bad one
//     items        the offsets of the items 0 to 3 and 4294967295
//     totals       how many cells can be read, their bytes of payload on the page, and the greatest payload
//     packed       the bytes of payload, the greatest payload, how many bytes no item holds, the rowids of the first and the last cell, and
//                  whether a payload goes on, of a page that one reading is enough for
//     unused       how many bytes are unused
//     coverage     the first item that shares a byte with one before it, or how many bytes no item holds
ghost use Rattle.std.specs.Prelude.{◌≤◌, length};

use crate::Text;
use crate::spelled::{bytes_of, write_at};
use dbpage::{Cell, PageView, content_start, look_of, type_byte, uncounted_coverage};
use std::alloc::{AllocError, Global};
use std::fmt::Write;

/// A page, with its number and how many of its bytes are usable, and a table of marks.
#[derive(Drop)]
pub(crate) struct Page {
    bytes: Vec<u8>,
    number: u32,
    usable: u32,
    table: Vec<u8>,
}

impl Page {
    /// A page of which nothing can be asked yet.
    ///
    /// # Errors
    ///
    /// [`AllocError`] where memory was refused.
    pub(crate) fn new(alloc: Global) -> Result<Page, AllocError> {
        Ok(Page {
            bytes: Vec::from_elem(alloc, 0u8, 65536)?,
            number: 0,
            usable: 0,
            table: Vec::from_elem(alloc, 255u8, 65536)?,
        })
    }

    /// Begins a page, or writes over it, as a line says. None where it says neither.
    pub(crate) fn write(&mut self, line: &str) -> Option<()> {
        let (word, of) = line.split_once(' ')?;
        let (number, of) = of.split_once(' ')?;
        let number = number.parse::<u32>().ok()?;
        match word {
            "page" => {
                self.number = number;
                self.usable = of.split_once(' ')?.1.parse::<u32>().ok()?;
                self.bytes.as_mut_slice().fill(0);
                Some(())
            }
            "at" => write_at(
                self.bytes.as_mut_slice(),
                number as usize,
                bytes_of(of)?.as_slice(),
            ),
            _ => None,
        }
    }

    /// Adds what is asked of the page.
    pub(crate) fn add_part(&mut self, word: &str, text: &mut Text) -> Option<()> {
        let of = (self.number, self.usable);
        add_part(
            self.bytes.as_slice(),
            of,
            self.table.as_mut_slice(),
            word,
            text,
        )
    }
}

// What is asked of the page of this number with this many usable bytes.
fn add_part(
    page: &[u8],
    (number, usable): (u32, u32),
    table: &mut [u8],
    word: &str,
    text: &mut Text,
) -> Option<()> {
    let room = page.len().min(table.len());
    if usable < 480 || usable > 65536 || usable as usize > room {
        return None;
    }
    let _ = match word {
        "head" => {
            let (kind, content) = (type_byte(page, number), content_start(page, number));
            write!(text, " {kind} {content}")
        }
        "look" => write!(text, " {:?}", look_of(page, number, usable)),
        _ => match PageView::new(page, number, usable) {
            Ok(view) => return describe(&view, table, word, text),
            Err(fault) => write!(text, " {fault:?}"),
        },
    };
    Some(())
}

// What is asked of a page whose head is sound.
fn describe(view: &PageView<'_>, table: &mut [u8], word: &str, text: &mut Text) -> Option<()>
    requires { view.now.usable ≤ length table.old }
{
    match word {
        "kind" => drop(write!(text, " {:?} {}", view.kind(), view.cells())),
        "cells" => add_cells(view, text),
        "children" => add_children(view, text),
        "freeblocks" => add_freeblocks(view, text),
        "items" => add_items(view, text),
        "totals" => add_totals(view, text),
        "packed" => add_packed(view, table, text),
        "unused" => drop(write!(text, " {}", view.unused())),
        "coverage" => drop(write!(text, " {:?}", uncounted_coverage(view, table))),
        _ => return None,
    }
    Some(())
}

fn add_cells(view: &PageView<'_>, text: &mut Text) {
    for i in 0..view.cells() {
        match view.cell(i) {
            Ok(cell) => add_cell(&cell, text),
            Err(fault) => drop(write!(text, " [{fault:?}]")),
        }
    }
}

fn add_cell(cell: &Cell<'_>, text: &mut Text) {
    let (offset, len, local, size) = (cell.offset, cell.len, cell.local.len(), cell.size);
    let _ = write!(text, " [{offset}+{len} {local}/{size}");
    add_number(" left ", cell.left.map(i64::from), text);
    add_number(" key ", cell.key, text);
    add_number(" to ", cell.overflow.map(i64::from), text);
    let _ = text.try_push(']');
}

// A number after what it is, if there is one.
fn add_number(name: &str, number: Option<i64>, text: &mut Text) {
    if let Some(number) = number {
        let _ = write!(text, "{name}{number}");
    }
}

fn add_children(view: &PageView<'_>, text: &mut Text) {
    for i in 0..view.cells().saturating_add(1) {
        if let Some(child) = view.child(i) {
            let _ = write!(text, " {i}:{child}");
        }
    }
}

fn add_freeblocks(view: &PageView<'_>, text: &mut Text) {
    let mut freeblocks = view.freeblocks();
    for freeblock in freeblocks.by_ref() {
        let _ = write!(text, " [{}+{}]", freeblock.offset, freeblock.size);
    }
    if let Some((number, offset)) = freeblocks.bad() {
        let _ = write!(text, " bad {number} {offset}");
    }
}

fn add_items(view: &PageView<'_>, text: &mut Text) {
    for item in [0, 1, 2, 3, 4294967295] {
        let _ = write!(text, " {}", view.item_offset(item));
    }
}

fn add_totals(view: &PageView<'_>, text: &mut Text) {
    let (mut cells, mut payload, mut largest) = (0u32, 0usize, 0);
    for i in 0..view.cells() {
        if let Ok(cell) = view.cell(i) {
            cells = cells.wrapping_add(1);
            payload = payload.wrapping_add(cell.local.len());
            largest = largest.max(cell.size);
        }
    }
    let _ = write!(text, " {cells} {payload} {largest}");
}

fn add_packed(view: &PageView<'_>, table: &mut [u8], text: &mut Text)
    requires { view.now.usable ≤ length table.old }
{
    let Some(packed) = view.packed(table) else {
        let _ = text.try_push_str(" none");
        return;
    };
    let sums = packed.sums;
    let (payload, greatest, unheld) = (sums.payload, sums.greatest, packed.unheld);
    let _ = write!(text, " {payload} {greatest} {unheld}");
    add_number(" ", sums.first, text);
    add_number(" ", sums.last, text);
    if sums.has_overflow {
        let _ = text.try_push_str(" goes on");
    }
}

// Packed pages: a page whose cells need only one reading.
ghost use Rattle.std.specs.Prelude.{◌≡◌, ℕ, None, Ok, false, ◌+◌, ◌<◌, ◌≤◌, length, MatchBool, MatchOption};
ghost use Rattle.dbformat.specs.Head.{content_start};
ghost use Rattle.dbformat.specs.Cell.{cell, count};
ghost use Rattle.dbformat.specs.Coverage.{items};
ghost use Rattle.dbpage.specs.Marking.{ShareNoByte, AreMarked, Holds, cells_upto, is_claimed};
ghost use Rattle.dbpage.specs.Beginning.{IsBegun, begins_with};
ghost use Rattle.dbpage.specs.Packed.{AddUpTo, IsPacked, IsAboveLast, IsUnpacked, key_at};

use crate::cell::Cell;
use crate::held_bytes::mark_freeblocks;
use crate::mark_count::MarkCount;
use crate::mark_table::{claim, clear};
use crate::run::CellRun;
use crate::view::{PageView, by_kind};
use dbformat::PageKind;
use std::marker::Brand;
use std::sync::ledger::{Blank, Ledger};

/// What one reading gives of a packed page. Each of its cells is readable, the keys rise from cell to cell, and no two of
/// its cells and good freeblocks share a byte. Most pages of most files are packed.
#[derive(Clone, Copy)]
pub struct Packed {
    /// What the cells add up to.
    pub sums: CellSums,
    /// How many bytes of the content area no cell and no good freeblock holds.
    pub unheld: u32,
}

/// Sums over the cells, from the first on.
#[derive(Clone, Copy)]
pub struct CellSums {
    /// How many bytes of payload are in the cells.
    pub payload: u32,
    /// The size in bytes of the greatest payload of a cell, with its bytes on overflow pages.
    pub greatest: u32,
    /// The key of the first cell, where there is one and it has a key.
    pub first: Option<i64>,
    /// The key of the last.
    pub last: Option<i64>,
    /// Whether a cell has an overflow page.
    pub has_overflow: bool,
}

impl<'a> PageView<'a> {
    /// What one reading of the cells gives of the page. `None` only where it is not packed: where a cell is not
    /// readable, where the keys do not rise, or where two items share a byte.
    ///
    /// `table` is room to work in, at least as many bytes as the page has usable ones. Its contents do not matter, and
    /// are unspecified afterwards.
    #[inline(never)]
    pub fn packed(&self, table: &mut [u8]) -> Option<Packed>
        requires { self.now.usable ≤ length table.old }
        ensures { MatchOption result (IsUnpacked self.now) (IsPacked self.now) }
    {
        by_kind!(self.kind, kind => self.packed_in_run(kind, table))
    }

    // `packed` of a page of this kind. No byte is marked while the cells form one run without gaps. SQLite fills a page
    // from its end downwards, so on most pages they do up to the last.
    #[inline(always)]
    fn packed_in_run(&self, kind: PageKind, table: &mut [u8]) -> Option<Packed>
        requires kind { kind ≡ self.now.kind }
        requires room { self.now.usable ≤ length table.old }
        ensures { MatchOption result (IsUnpacked self.now) (IsPacked self.now) }
    {
        let begun = self.leading_cells(kind, self.key_of_first(kind))?;
        let mut sums = begun.sums;
        let mut run = begun.run;
        for i in begun.cells..self.cells {
            let (offset, len) = self.add_cell(kind, i, &mut sums)?;
            if !run.add(offset, len) {
                let begun = Beginning {
                    cells: i + 1,
                    sums,
                    run,
                    next: Some((offset, len)),
                };
                return self.packed_by_marks(&begun, table);
            }
        }
        match self.freeblocks().next() {
            None => Some(self.packed_from(sums, run.len())),
            Some(_) => {
                let begun = Beginning {
                    cells: self.cells,
                    sums,
                    run,
                    next: None,
                };
                self.packed_by_marks(&begun, table)
            }
        }
    }

    // `packed` of a page whose first cells were read, by marks of all items, or by notes of them.
    #[inline(never)]
    fn packed_by_marks(&self, begun: &Beginning, table: &mut [u8]) -> Option<Packed>
        requires room { self.now.usable ≤ length table.old }
        requires begun { IsBegun self.now begun.now }
        ensures { MatchOption result (IsUnpacked self.now) (IsPacked self.now) }
    {
        if let PageKind::LeafTable = self.kind {
            // All cells are read once more, so only where few were. A note has room for the length of an item of such a page.
            if begun.cells <= self.cells / 4 && self.usable < 16384 {
                return self.packed_by_notes(begun.sums.first, table);
            }
        }
        clear(table, self.usable);
        self.copied()
            .packed_by_clear_marks::<Brand>(begun, table, Blank::new(1))
    }

    // The same view, as a local of the caller: a write into a table cannot change it, so a loop need not read it again.
    #[inline(always)]
    pub(crate) fn copied(&self) -> PageView<'a>
        ensures { result ≡ self.now }
    {
        PageView {
            bytes: self.bytes,
            number: self.number,
            kind: self.kind,
            usable: self.usable,
            pointers: self.pointers,
            cells: self.cells,
            start: self.start,
        }
    }

    // `packed_by_marks`, where no byte is marked yet. The marks are counted in the ledger that `blank` opens, which
    // nobody reads.
    #[inline(always)]
    fn packed_by_clear_marks<L: Ledger>(
        &self,
        begun: &Beginning,
        table: &mut [u8],
        blank: Blank,
    ) -> Option<Packed>
        requires room { self.now.usable ≤ length table.old }
        requires begun { IsBegun self.now begun.now }
        requires free { (byte : ℕ) → byte < self.now.usable → is_claimed table.old byte ≡ false }
        requires name { blank.name ≡ L.name }
        requires parts { blank.parts ≡ L.parts }
        requires some { 0 < blank.parts }
        ensures { MatchOption result (IsUnpacked self.now) (IsPacked self.now) }
    {
        let mut mark_count = MarkCount::<L>::new(blank);
        let held = self.mark_beginning(begun, table, &mut mark_count)?;
        by_kind!(self.kind, kind => self.packed_from_marks_of(kind, begun, held, table, &mut mark_count))
    }

    // Marks what the cells of the beginning hold, and counts it. `None` where two share a byte.
    fn mark_beginning<L: Ledger>(
        &self,
        begun: &Beginning,
        table: &mut [u8],
        mark_count: &mut MarkCount<L>,
    ) -> Option<u32>
        requires room { self.now.usable ≤ length table.old }
        requires begun { IsBegun self.now begun.now }
        requires free { (byte : ℕ) → byte < self.now.usable → is_claimed table.old byte ≡ false }
        ensures { MatchOption result (IsUnpacked self.now)
            (λ held. AreMarked (cells_upto self.now begun.now.cells) (content_start self.now.number self.now.bytes) self.now.usable table.new held) }
    {
        // This gives the proof what is known of the view.
        let _ = &self.usable;
        let in_run = begun.run.len();
        if !claim(table, begun.run.from, in_run, mark_count) {
            return None;
        }
        let Some((offset, len)) = begun.next else {
            return Some(in_run);
        };
        if !claim(table, offset, len, mark_count) {
            return None;
        }
        Some(in_run + len)
    }

    // `packed_by_marks` of a page of this kind, where what the cells of the beginning hold is marked.
    #[inline(always)]
    fn packed_from_marks_of<L: Ledger>(
        &self,
        kind: PageKind,
        begun: &Beginning,
        in_cells: u32,
        table: &mut [u8],
        mark_count: &mut MarkCount<L>,
    ) -> Option<Packed>
        requires kind { kind ≡ self.now.kind }
        requires room { self.now.usable ≤ length table.old }
        requires begun { IsBegun self.now begun.now }
        requires marked { AreMarked (cells_upto self.now begun.now.cells) (content_start self.now.number self.now.bytes) self.now.usable table.old in_cells }
        ensures { MatchOption result (IsUnpacked self.now) (IsPacked self.now) }
    {
        let marked = self.mark_short_cells(kind, begun, in_cells, table, mark_count)?;
        let mut sums = marked.sums;
        let mut held = marked.held;
        for i in marked.cells..self.cells {
            let (offset, len) = self.add_cell(kind, i, &mut sums)?;
            if !claim(table, offset, len, mark_count) {
                return None;
            }
            held += len;
        }
        match mark_freeblocks(self, held, table, mark_count) {
            Ok(all) => Some(self.packed_from(sums, all)),
            Err(_) => None,
        }
    }

    // Adds cell `i` to the sums of those before it, and answers which bytes it holds. `None` where it is not readable,
    // or where its key does not rise.
    #[inline(always)]
    pub(crate) fn add_cell(&self, kind: PageKind, i: u32, sums: &mut CellSums) -> Option<(u32, u32)>
        requires kind { kind ≡ self.now.kind }
        requires within { i < count self.now }
        requires before { AddUpTo self.now i sums.old }
        ensures { MatchOption result (IsUnpacked self.now) (λ held. Holds self.now i held.0 held.1
            × AddUpTo self.now (i + 1) sums.new) }
    {
        // This gives the proof what is known of the view.
        let _ = &self.usable;
        let Ok(cell) = self.read_cell(kind, i) else {
            return None;
        };
        if !self.add_read(i, &cell, sums) {
            return None;
        }
        Some((cell.offset, cell.len.max(4)))
    }

    // Adds cell `i`, which was read, to the sums of those before it. False where its key does not rise.
    #[inline(always)]
    pub(crate) fn add_read(&self, i: u32, found: &Cell<'a>, sums: &mut CellSums) -> bool
        requires within { i < count self.now }
        requires read { cell self.now i ≡ Ok found.now }
        requires before { AddUpTo self.now i sums.old }
        ensures { MatchBool result (AddUpTo self.now (i + 1) sums.new) (IsUnpacked self.now) }
    {
        // This gives the proof what is known of the view.
        let _ = &self.usable;
        if !is_rising(sums.last, found.key) {
            return false;
        }
        self.add_above(i, found, sums);
        true
    }

    // `add_read` of a cell whose key rises.
    #[inline(always)]
    pub(crate) fn add_above(&self, i: u32, found: &Cell<'a>, sums: &mut CellSums)
        requires within { i < count self.now }
        requires read { cell self.now i ≡ Ok found.now }
        requires before { AddUpTo self.now i sums.old }
        requires rising { IsAboveLast sums.old.last found.now.key }
        ensures added { AddUpTo self.now (i + 1) sums.new }
        ensures last { sums.new.last ≡ found.now.key }
    {
        // This gives the proof what is known of the view.
        let _ = &self.usable;
        sums.payload += found.local.len() as u32;
        sums.greatest = sums.greatest.max(found.size);
        sums.last = found.key;
        if found.overflow.is_some() {
            sums.has_overflow = true;
        }
    }

    // The key of the first cell of a page of this kind, where there is one and it has a key. No cell of a leaf of an index is read for it.
    #[inline(always)]
    fn key_of_first(&self, kind: PageKind) -> Option<i64>
        requires { kind ≡ self.now.kind }
        ensures some { 0 < count self.now → key_at self.now 0 ≡ result }
        ensures none { count self.now ≡ 0 → result ≡ None }
    {
        match kind {
            PageKind::LeafIndex => None,
            _ => self.first_key(kind),
        }
    }

    // `key_of_first`, of any kind.
    // Not inlined: a caller that reads two cells is too large to be compiled for each kind.
    #[inline(never)]
    fn first_key(&self, kind: PageKind) -> Option<i64>
        requires { kind ≡ self.now.kind }
        ensures some { 0 < count self.now → key_at self.now 0 ≡ result }
        ensures none { count self.now ≡ 0 → result ≡ None }
    {
        if self.cells == 0 {
            return None;
        }
        match self.read_cell(kind, 0) {
            Ok(cell) => cell.key,
            Err(_) => None,
        }
    }

    // The result for a page: the sums of its cells, and from `held`, the bytes that its items hold, those that none holds.
    #[inline(always)]
    pub(crate) fn packed_from(&self, sums: CellSums, held: u32) -> Packed
        requires read { AddUpTo self.now (count self.now) sums }
        requires apart { ShareNoByte (items self.now) (content_start self.now.number self.now.bytes) self.now.usable held }
        ensures { IsPacked self.now result }
    {
        Packed {
            sums,
            unheld: self.usable - self.start - held,
        }
    }
}

// What was read of a page before a byte is marked: how many cells, their sums, the run of the first of them, and what
// the last holds, if it is not part of this run.
#[derive(Clone, Copy)]
pub(crate) struct Beginning {
    pub(crate) cells: u32,
    pub(crate) sums: CellSums,
    pub(crate) run: CellRun,
    pub(crate) next: Option<(u32, u32)>,
}

impl Beginning {
    // No cell, of a page whose first key is this.
    #[inline(always)]
    pub(crate) fn new(first: Option<i64>, usable: u32) -> Beginning
        ensures { result ≡ begins_with first usable }
    {
        Beginning {
            cells: 0,
            sums: CellSums::new(first),
            run: CellRun::new(usable),
            next: None,
        }
    }
}

impl CellSums {
    // The sums of no cell.
    #[inline(always)]
    pub(crate) fn new(first: Option<i64>) -> CellSums
        ensures { result ≡ record { payload = 0; greatest = 0; first = first; last = None; has_overflow = false } }
    {
        CellSums {
            payload: 0,
            greatest: 0,
            first,
            last: None,
            has_overflow: false,
        }
    }
}

/// Whether a key is greater than the last, or one of them is missing.
#[inline(always)]
pub fn is_rising(last: Option<i64>, key: Option<i64>) -> bool
    ensures { MatchBool result (IsAboveLast last key) (IsAboveLast last key → ⊥) }
{
    match (last, key) {
        (Some(a), Some(b)) => a < b,
        _ => true,
    }
}

// The lost pages, and which of them no other one names.
ghost use Rattle.dbmend.specs.Deeds.{HasDone};

use crate::edit::Edit;
use crate::fit::{Root, Span};
use crate::places::child;
use crate::reading::{Paper, read_page};
use crate::schema_rows::root_of;
use crate::trunks::stated;
use crate::wanted::mark;
use arrayvec::ArrayVec;
use dbinjuries::PageBits;
use dbpage::PageView;
use dbscan::{Desk, Mark, PageKind};
use dbsource::{NoMemory, RunError, Source};
use std::alloc::Allocator;

// What a reference may name.
#[derive(Clone, Copy, PartialEq, Eq)]
pub(crate) enum Kind {
    // A page of a table, or of an index.
    Table,
    Index,
    // A page that is none of a tree.
    Other,
    // Any page: what a trunk names as free.
    Free,
}

// How many pages of one kind are kept that no other one names.
const MOST_ALIKE: usize = 8;

// Of each lost page whether another one names it, and what it looks like. Of the first that none names the keys. And the last page in use
// that a lost one names as its child, or 0, and whether page 2 looks like one of the pointer map.
#[derive(Drop)]
pub(crate) struct Lost<A: Allocator> {
    named: PageBits<A>,
    tables: PageBits<A>,
    indexes: PageBits<A>,
    roots: ArrayVec<Root, 24>,
    used_child: u32,
    has_map: bool,
}

impl<A: Allocator + Copy> Lost<A> {
    // Nothing is known of the pages of a file.
    pub(crate) fn new_in(alloc: A, pages: u32) -> Result<Lost<A>, NoMemory> {
        let named = PageBits::new_in(alloc, pages)?;
        let tables = PageBits::new_in(alloc, pages)?;
        let indexes = PageBits::new_in(alloc, pages)?;
        Ok(Lost {
            named,
            tables,
            indexes,
            roots: ArrayVec::new(),
            used_child: 0,
            has_map: false,
        })
    }
}

impl<A: Allocator> Lost<A> {
    // What a lost page looks like.
    fn kind(&self, page: u32) -> Kind {
        if self.tables.has(page) {
            Kind::Table
        } else if self.indexes.has(page) {
            Kind::Index
        } else {
            Kind::Other
        }
    }

    // Whether a page is lost, no other lost page names it, and few that look like it are kept.
    fn is_wanted(&self, desk: &Desk<A>, page: u32) -> bool {
        if !desk.is_lost(page) || self.named.has(page) {
            return false;
        }
        let kind = self.kind(page);
        let alike = self.roots.iter().filter(|root| root.kind == kind);
        alike.count() < MOST_ALIKE
    }

    // A page that no other one names, with its keys.
    fn root(&self, paper: &Paper<A>) -> Root {
        Root {
            page: paper.page(),
            kind: self.kind(paper.page()),
            keys: paper.view().map_or(Span::UNKNOWN, |view| Span::of(&view)),
            next: 0,
        }
    }

    // Keeps it, and the page in use to which it leads.
    fn keep(&mut self, root: Root, next: u32) {
        let _ = self.roots.try_push(Root { next, ..root });
    }

    // Whether page 2 is lost, and looks like one of the pointer map.
    pub(crate) fn has_map(&self) -> bool {
        self.has_map
    }

    // Whether a lost page names this one.
    pub(crate) fn names(&self, page: u32) -> bool {
        self.named.has(page)
    }

    // The first lost pages that no other one names.
    pub(crate) fn roots(&self) -> &[Root] {
        self.roots.as_slice()
    }

    // Notes what a lost page looks like, and the pages that it names.
    fn note(&mut self, desk: &Desk<A>, paper: &Paper<A>) {
        match paper.view() {
            Some(view) => {
                match view.kind() {
                    PageKind::LeafTable | PageKind::InteriorTable => self.tables.set(paper.page()),
                    PageKind::LeafIndex | PageKind::InteriorIndex => self.indexes.set(paper.page()),
                }
                self.note_tree(desk, &view);
            }
            None => {
                self.note_next(paper);
                self.note_leaves(desk, paper);
                self.note_map(paper);
            }
        }
    }

    // The pages that a page of a tree names, also in rows of the schema.
    fn note_tree(&mut self, desk: &Desk<A>, view: &PageView<'_>) {
        self.note_child(desk, child(view, view.cells()));
        for i in 0..view.cells() {
            if let Ok(cell) = view.cell(i) {
                self.note_child(desk, cell.left.unwrap_or(0));
                self.named.set(cell.overflow.unwrap_or(0));
                self.named.set(root_of(view, i).unwrap_or(0));
            }
        }
    }

    // A page that is named as a child.
    fn note_child(&mut self, desk: &Desk<A>, page: u32) {
        self.named.set(page);
        if let Mark::Child(_) = mark(desk, page) {
            self.used_child = page;
        }
    }

    // The page after an overflow page, or the next trunk.
    fn note_next(&mut self, paper: &Paper<A>) {
        self.named.set(paper.number_at(0).unwrap_or(0));
    }

    // Page 2, if it begins with one of the five types of an entry of the pointer map.
    fn note_map(&mut self, paper: &Paper<A>) {
        if paper.page() == 2 {
            self.has_map = matches!(paper.short_at(0).unwrap_or(0) / 256, 1..=5);
        }
    }

    // The leaves of a trunk, if each of them is lost, or was taken for a trunk.
    fn note_leaves(&mut self, desk: &Desk<A>, paper: &Paper<A>) {
        let leaves = stated(paper);
        for i in 0..leaves {
            match leaf_at(paper, i) {
                Some(page) if desk.is_lost(page) || mark(desk, page) == Mark::Trunk => {}
                _ => return,
            }
        }
        for i in 0..leaves {
            self.named.set(leaf_at(paper, i).unwrap_or(0));
        }
    }
}

// A leaf of a trunk.
pub(crate) fn leaf_at<A: Allocator>(paper: &Paper<A>, leaf: u32) -> Option<u32> {
    paper.number_at(leaf.checked_mul(4)?.checked_add(8)?)
}

// The page after a lost one in its list. Of a trunk it is a leaf that was taken for a trunk, if there is one.
fn after<A: Allocator>(desk: &Desk<A>, paper: &Paper<A>) -> u32 {
    for i in 0..stated(paper) {
        match leaf_at(paper, i) {
            Some(page) if mark(desk, page) == Mark::Trunk => return page,
            _ => {}
        }
    }
    paper.number_at(0).unwrap_or(0)
}

// The first child in use of a page of a tree, or 0.
fn child_in_use<A: Allocator>(desk: &Desk<A>, view: &PageView<'_>) -> u32 {
    for item in 0..view.cells().saturating_add(1) {
        let page = child(view, item);
        if let Mark::Child(_) = mark(desk, page) {
            return page;
        }
    }
    0
}

// The first page that is not lost below the lost one that was read, or after it. If all its children are lost, it is one that a lost page names.
fn next_of<A: Allocator, S: Source>(
    desk: &Desk<A>,
    lost: &Lost<A>,
    edits: &[Edit],
    source: &mut S,
    paper: &mut Paper<A>,
) -> Result<u32, RunError>
    ensures { HasDone S.Source result 0 0 (λ a deeds. Unit {0}) source.old source.new }
{
    if let Some(view) = paper.view() {
        let page = match child_in_use(desk, &view) {
            0 if view.kind().is_interior() => lost.used_child,
            page => page,
        };
        return Ok(page);
    }
    let mut next = after(desk, paper);
    for _ in 0..desk.geometry().pages {
        if !desk.is_lost(next) {
            return Ok(next);
        }
        read_page(source, edits, next, paper)?;
        next = after(desk, paper);
    }
    Ok(0)
}

// Reads each lost page of the file with some edits, once, and notes what it names.
pub(crate) fn look_at_lost<A: Allocator, S: Source>(
    desk: &Desk<A>,
    edits: &[Edit],
    source: &mut S,
    paper: &mut Paper<A>,
    lost: &mut Lost<A>,
) -> Result<(), RunError>
    ensures { HasDone S.Source result 0 0 (λ a deeds. Unit {0}) source.old source.new }
{
    for index in 0..desk.geometry().pages {
        if desk.is_lost(index + 1) {
            read_page(source, edits, index + 1, paper)?;
            lost.note(desk, paper);
        }
    }
    Ok(())
}

// Reads the first lost pages that no other one names again, and keeps their keys, and where they lead.
pub(crate) fn look_at_roots<A: Allocator, S: Source>(
    desk: &Desk<A>,
    edits: &[Edit],
    source: &mut S,
    paper: &mut Paper<A>,
    lost: &mut Lost<A>,
) -> Result<(), RunError>
    ensures { HasDone S.Source result 0 0 (λ a deeds. Unit {0}) source.old source.new }
{
    for index in 0..desk.geometry().pages {
        if lost.is_wanted(desk, index + 1) {
            read_page(source, edits, index + 1, paper)?;
            let root = lost.root(paper);
            let next = next_of(desk, lost, edits, source, paper)?;
            lost.keep(root, next);
        }
    }
    Ok(())
}

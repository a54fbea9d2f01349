// Views of b-tree pages (Database File Format, 1.6, "B-tree Page Header Format").
ghost use Rattle.std.specs.Prelude.{◌≡◌, ◌+◌, ◌*◌, ◌≤◌, length, IfOk};
ghost use Rattle.dbformat.specs.Head.{view, page_kind, header_start, pointers_start};
ghost use Rattle.dbformat.specs.Head.{first_freeblock, cell_count, content_start, fragmented_bytes, type_byte};
ghost use Rattle.dbformat.specs.Cell.{count};

use dbformat::{HeadFault, PageKind, u16_at};
use std::marker::Model;

// `$call` with the kind of a page as a constant, so that a loop in it is compiled for each kind and does not test it.
macro_rules! by_kind {
    ($kind:expr, $known:ident => $call:expr) => {
        match $kind {
            PageKind::LeafTable => {
                let $known = PageKind::LeafTable;
                $call
            }
            PageKind::InteriorTable => {
                let $known = PageKind::InteriorTable;
                $call
            }
            PageKind::LeafIndex => {
                let $known = PageKind::LeafIndex;
                $call
            }
            PageKind::InteriorIndex => {
                let $known = PageKind::InteriorIndex;
                $call
            }
        }
    };
}

pub(crate) use by_kind;

/// A b-tree page whose head is sound: its type is known, and its content area is between the cell pointers and the end
/// of the usable bytes. The numbers of the head are read once, when the view is made.
#[derive(Drop)]
pub struct PageView<'a> {
    pub(crate) bytes: &'a [u8],
    pub(crate) number: u32,
    pub(crate) kind: PageKind,
    pub(crate) usable: u32,
    // Where the cell pointers begin.
    pub(crate) pointers: u32,
    pub(crate) cells: u32,
    // Where the content area begins.
    pub(crate) start: u32,
}

impl<'a> Model for PageView<'a> {
    ghost use Rattle.dbformat.specs.Head.{View};

    ghost Value = { View };

    ghost use Rattle.dbpage.specs.Head.{IsHead};

    ghost view = { λ v. record { number = v.number; kind = v.kind; usable = v.usable; bytes = v.bytes.now } };

    ghost invariant = { λ v. IsHead v.number v.kind v.usable v.bytes.now v.pointers v.cells v.start };
}

impl<'a> PageView<'a> {
    /// A view of page `p`, whose first `usable` bytes are in use; `page` may be longer. It is an error
    /// ([`HeadFault::UnknownType`]) where the type of the page is unknown, and else ([`HeadFault::ContentStart`]) where
    /// the content area begins before the end of the cell pointers or past the usable bytes.
    ///
    /// A page of a `Bench` of `dbsource`, with the usable bytes of that bench's geometry, needs no test before the call:
    /// `PageView::new(bench.page(0), p, bench.geometry().usable)`.
    #[tactic(auto, unfolding(dbformat::specs::Head::view, dbformat::specs::Head::type_byte))]
    pub fn new(page: &'a [u8], p: u32, usable: u32) -> Result<PageView<'a>, HeadFault>
        requires whole { usable ≤ length page.now }
        requires least { 480 ≤ usable }
        requires most { usable ≤ 65536 }
        ensures view { result ≡ view p usable page.now }
        ensures of { IfOk result (λ v. (v.number ≡ p) × (v.usable ≡ usable) × (v.bytes ≡ page.now)) }
    {
        let Some(kind) = page_kind(type_byte(page, p)) else {
            return Err(HeadFault::UnknownType);
        };
        let pointers = pointers_start(p, kind);
        let cells = u32::from(cell_count(page, p));
        let start = content_start(page, p);
        if pointers + 2 * cells > start || start > usable {
            return Err(HeadFault::ContentStart);
        }
        Ok(PageView {
            bytes: page,
            number: p,
            kind,
            usable,
            pointers,
            cells,
            start,
        })
    }

    /// The kind of the page.
    #[inline(always)]
    pub fn kind(&self) -> PageKind
        ensures { result ≡ self.now.kind }
    {
        self.kind
    }

    /// The number of cells, readable or not: at most 32764, since their pointers come before the content area.
    #[inline(always)]
    pub fn cells(&self) -> u32
        ensures number { result ≡ count self.now }
        ensures few { 2 * result ≤ self.now.usable }
    {
        self.cells
    }

    /// The number of bytes in fragments that the head states.
    #[inline(always)]
    pub fn fragments(&self) -> u8
        ensures { result ≡ fragmented_bytes self.now.number self.now.bytes }
    {
        fragmented_bytes(self.bytes, self.number)
    }
}

// The kind that a type byte names.
#[inline(always)]
fn page_kind(type_byte: u8) -> Option<PageKind>
    ensures { result ≡ page_kind type_byte }
{
    match type_byte {
        2 => Some(PageKind::InteriorIndex),
        5 => Some(PageKind::InteriorTable),
        10 => Some(PageKind::LeafIndex),
        13 => Some(PageKind::LeafTable),
        _ => None,
    }
}

// Where the cell pointers of page `p` begin: interior pages have a right child before them.
#[inline(always)]
fn pointers_start(p: u32, kind: PageKind) -> u32
    ensures value { result ≡ pointers_start p kind }
    ensures low { result ≤ 112 }
{
    header_start(p) + if kind.is_interior() { 12 } else { 8 }
}

/// The type byte of page `p`, also of one whose head is not sound.
#[inline(always)]
#[tactic(auto, unfolding(dbformat::specs::Head::type_byte))]
pub fn type_byte(page: &[u8], p: u32) -> u8
    requires { 480 ≤ length page.now }
    ensures { result ≡ type_byte p page.now }
{
    page[header_start(p) as usize]
}

// Where the page header of page `p` begins: after the file's header on page 1.
#[inline(always)]
fn header_start(p: u32) -> u32
    ensures value { result ≡ header_start p }
    ensures low { result ≤ 100 }
{
    if p == 1 { 100 } else { 0 }
}

// The offset of the first freeblock of page `p`, or 0.
#[inline(always)]
#[tactic(auto, unfolding(dbformat::specs::Head::first_freeblock))]
pub(crate) fn first_freeblock(page: &[u8], p: u32) -> u16
    requires { 480 ≤ length page.now }
    ensures { result ≡ first_freeblock p page.now }
{
    u16_at(page, header_start(p) + 1)
}

// The number of bytes in fragments of page `p`.
#[inline(always)]
#[tactic(auto, unfolding(dbformat::specs::Head::fragmented_bytes))]
fn fragmented_bytes(page: &[u8], p: u32) -> u8
    requires { 480 ≤ length page.now }
    ensures { result ≡ fragmented_bytes p page.now }
{
    page[(header_start(p) + 7) as usize]
}

// The number of cells of page `p`.
#[inline(always)]
#[tactic(auto, unfolding(dbformat::specs::Head::cell_count))]
fn cell_count(page: &[u8], p: u32) -> u16
    requires { 480 ≤ length page.now }
    ensures { result ≡ cell_count p page.now }
{
    u16_at(page, header_start(p) + 3)
}

/// The start of the content area of page `p`, in bytes, also of one whose head is not sound. A stored 0 means 65536.
#[inline(always)]
#[tactic(auto, unfolding(dbformat::specs::Head::content_start))]
pub fn content_start(page: &[u8], p: u32) -> u32
    requires { 480 ≤ length page.now }
    ensures { result ≡ content_start p page.now }
{
    match u16_at(page, header_start(p) + 5) {
        0 => 65536,
        start => u32::from(start),
    }
}

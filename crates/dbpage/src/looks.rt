// What a page looks like by its bytes alone.
ghost use Rattle.std.specs.Prelude.{◌≡◌, ◌<◌, ◌≤◌, ◌==◌, length, take};
ghost use Rattle.std.specs.List.{list_all};
ghost use Rattle.dbformat.specs.Cell.{count};
ghost use Rattle.dbformat.specs.Looks.{blank_byte, is_zeros, look_of, rowid, rowids};

use crate::mark_table::has_other;
use crate::view::PageView;
use dbformat::{Look, PageKind, Rowids, TreeLook};

/// What page `p` looks like by its first `usable` bytes; `page` may be longer. A page whose bytes are all one is
/// [`Look::Blank`]; else one that [`PageView::new`] has a view of is a [`Look::Tree`]; of any other
/// the first 16 bytes are given.
#[inline(never)]
#[tactic(auto, unfolding(dbformat::specs::Looks::look_of))]
pub fn look_of(page: &[u8], p: u32, usable: u32) -> Look
    requires whole { usable ≤ length page.now }
    requires least { 480 ≤ usable }
    requires most { usable ≤ 65536 }
    ensures { result ≡ look_of p usable page.now }
{
    if let Some(byte) = blank_byte(page, usable) {
        return Look::Blank(byte);
    }
    match PageView::new(page, p, usable) {
        Ok(view) => Look::Tree(TreeLook {
            kind: view.kind(),
            cells: view.cells(),
            rowids: view.rowids(),
        }),
        Err(_) => {
            let mut first = [0u8; 16];
            first.copy_from_slice(&page[..16]);
            Look::Other(first)
        }
    }
}

/// Whether the usable bytes of a page are all 0; `page` may be longer.
#[inline(never)]
pub fn is_zeros(page: &[u8], usable: u32) -> bool
    requires { usable ≤ length page.now }
    ensures { result ≡ is_zeros usable page.now }
{
    are_all(&page[..usable as usize], 0)
}

// The byte of a blank page.
fn blank_byte(page: &[u8], usable: u32) -> Option<u8>
    requires whole { usable ≤ length page.now }
    requires least { 1 ≤ usable }
    ensures { result ≡ blank_byte usable page.now }
{
    let first = page[0];
    if are_all(&page[..usable as usize], first) {
        Some(first)
    } else {
        None
    }
}

// Whether all bytes are this one. They are looked at by 32, and one by one at the end.
fn are_all(bytes: &[u8], one: u8) -> bool
    ensures { result ≡ list_all (λ byte. byte == one) bytes.now }
{
    let mut start = 0;
    while bytes.len() - start >= 32 {
        if has_other(bytes, start, one) {
            return false;
        }
        start += 32;
    }
    is_each(&bytes[start..], one)
}

fn is_each(bytes: &[u8], one: u8) -> bool
    ensures { result ≡ list_all (λ byte. byte == one) bytes.now }
{
    bytes.iter().all(|byte| *byte == one)
}

impl<'a> PageView<'a> {
    // The rowids of the first and the last cell of a leaf of a table, if both can be read.
    fn rowids(&self) -> Option<Rowids>
        ensures { result ≡ rowids self.now.kind self.now }
    {
        if self.kind != PageKind::LeafTable || self.cells == 0 {
            return None;
        }
        Some(Rowids {
            first: self.rowid(0)?,
            last: self.rowid(self.cells - 1)?,
        })
    }

    // The rowid of cell `i` of a leaf of a table, if its pointer leads into the content area, and the size of its
    // payload and the rowid end within the usable bytes.
    #[tactic(auto, unfolding(dbformat::specs::Looks::rowid))]
    fn rowid(&self, i: u32) -> Option<i64>
        requires { i < count self.now }
        ensures { result ≡ rowid self.now i }
    {
        let offset = self.pointer(i);
        if offset < self.start || offset > self.usable - 4 {
            return None;
        }
        let (_, size_len) = self.varint_at(offset)?;
        let (rowid, _) = self.varint_at(offset + size_len)?;
        Some(rowid.cast_signed())
    }
}

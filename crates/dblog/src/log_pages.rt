// Where a log has the pages that it gives.
ghost use Rattle.std.specs.Prelude.{◌≡◌, ◌*◌, ◌^◌, ◌<◌, ◌≤◌};
ghost use Rattle.std.specs.List.{AllPairs};
ghost use Rattle.dblog.specs.Entries.{named_frame};
ghost use Rattle.dblog.specs.Placed.{page_start};

use crate::entry::{Entry, named_frame};
use std::alloc::{Allocator, Global};
use std::marker::Model;

/// Where a log has the pages that it gives, and how many pages the database then has. The entry of a page names a frame: the page of
/// frame 0 begins at byte `first`, and that of each later frame `stride` bytes after the one before.
#[derive(Drop)]
pub struct LogPages<A: Allocator = Global> {
    page_size: u32,
    pages: u32,
    first: u32,
    stride: u32,
    entries: Vec<Entry, A>,
}

impl<A: Allocator> Model for LogPages<A> {
    ghost use Rattle.std.specs.Prelude.{◌<◌, ◌≤◌};
    ghost use Rattle.std.specs.List.{AllPairs};
    ghost use Rattle.dblog.specs.Placed.{Located};

    ghost Value = { Located };

    ghost view = { λ p. record { page_size = p.page_size; pages = p.pages; first = p.first; stride = p.stride; entries = p.entries.items } };

    ghost invariant = { λ p. (512 ≤ p.page_size) × (p.page_size ≤ 65536) × (p.first ≤ 65536) × (p.stride ≤ 65560)
        × AllPairs (λ d e. d.page < e.page) p.entries.items };
}

impl<A: Allocator> LogPages<A> {
    // Of a database with this number of pages of this size: the log has the pages of these entries.
    pub(crate) fn new(
        page_size: u32,
        pages: u32,
        first: u32,
        stride: u32,
        entries: Vec<Entry, A>,
    ) -> LogPages<A>
        requires sized { (512 ≤ page_size) × (page_size ≤ 65536) }
        requires placed { (first ≤ 65536) × (stride ≤ 65560) }
        requires rising { AllPairs (λ d e. d.page < e.page) entries.items }
        ensures { result ≡ (record { page_size = page_size; pages = pages; first = first; stride = stride; entries = entries.items }) }
    {
        LogPages {
            page_size,
            pages,
            first,
            stride,
            entries,
        }
    }

    /// The size of a page in bytes.
    pub fn page_size(&self) -> u32
        ensures size { result ≡ self.now.page_size }
        ensures least { 512 ≤ result }
        ensures most { result ≤ 65536 }
    {
        self.page_size
    }

    /// The bytes of the database.
    pub fn byte_count(&self) -> u64
        ensures { result ≡ self.now.pages * self.now.page_size }
    {
        u64::from(self.pages) * u64::from(self.page_size)
    }

    /// The last used frame of a page, if the log gives the page.
    pub fn frame_of(&self, page: u64) -> Option<u32>
        ensures { result ≡ named_frame self.now.entries page }
    {
        named_frame(self.entries.as_slice(), page)
    }

    /// Where the page of a frame begins in the log.
    pub fn start_of(&self, frame: u32) -> u64
        ensures start { result ≡ page_start self.now.first self.now.stride frame }
        ensures most { result < 2 ^ 50 }
    {
        u64::from(self.first) + u64::from(self.stride) * u64::from(frame)
    }
}

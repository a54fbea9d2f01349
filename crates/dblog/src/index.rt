// The index of a write-ahead log.
ghost use Rattle.std.specs.Prelude.{◌≡◌, ◌+◌, ◌*◌, ◌<◌, ◌≤◌, List, ℕ, [], None, Some, length, map, OnOk, IfOk};
ghost use Rattle.std.specs.List.{AllPairs};
ghost use Rattle.dblog.specs.Entries.{IsIndexOf};
ghost use Rattle.dblog.specs.Indexes.{IndexesFrames, broken_at, no_counts};
ghost use Rattle.dblog.specs.Placed.{wal_pages};
ghost use Rattle.dblog.specs.Wal.{frame_size, page_size};

use crate::entry::Entry;
use crate::log_pages::LogPages;
use crate::wal_header::{HEAD_LEN, HEADER_LEN};
use std::alloc::{Allocator, Global};
use std::marker::Model;

/// What was found in a log.
#[derive(Clone, Copy, Debug, PartialEq, Eq)]
pub struct Counts {
    /// The valid frames: those before the first that is not.
    pub frames: u32,
    /// Those of them up to the last that ends a transaction: they are used.
    pub committed: u32,
    /// The transactions.
    pub transactions: u32,
    /// The frames after the first that is not valid that have the log's salts.
    pub later: u32,
    /// The byte where the first frame begins that is not valid, if the log goes on there.
    pub broken: Option<u64>,
}

impl Counts {
    // Of a file that is no log.
    fn none() -> Counts
        ensures { result ≡ no_counts }
    {
        Counts {
            frames: 0,
            committed: 0,
            transactions: 0,
            later: 0,
            broken: None,
        }
    }
}

/// An entry for each page that a log gives, with the frame that the page is read from. And how many pages the database then has, or 0
/// where nothing of the log is used.
#[derive(Drop)]
pub struct Index<A: Allocator = Global> {
    page_size: u32,
    pages: u32,
    entries: Vec<Entry, A>,
    counts: Counts,
}

impl<A: Allocator> Model for Index<A> {
    ghost use Rattle.std.specs.Prelude.{◌<◌, ◌≤◌};
    ghost use Rattle.std.specs.List.{AllPairs};
    ghost use Rattle.dblog.specs.Indexes.{Indexed};

    ghost Value = { Indexed };

    ghost view = { λ i. record { page_size = i.page_size; pages = i.pages; entries = i.entries.items; counts = i.counts } };

    ghost invariant = { λ i. (i.page_size ≤ 65536) × (0 < i.pages → 512 ≤ i.page_size) × AllPairs (λ d e. d.page < e.page) i.entries.items };
}

impl<A: Allocator> Index<A> {
    // Of a file of which nothing is used.
    pub(crate) fn none(alloc: A) -> Index<A>
        ensures { result ≡ (record { page_size = 0; pages = 0; entries = []; counts = no_counts }) }
    {
        Index {
            page_size: 0,
            pages: 0,
            entries: Vec::new(alloc),
            counts: Counts::none(),
        }
    }

    pub(crate) fn new(
        page_size: u32,
        pages: u32,
        entries: Vec<Entry, A>,
        counts: Counts,
    ) -> Index<A>
        requires sized { (512 ≤ page_size) × (page_size ≤ 65536) }
        requires rising { AllPairs (λ d e. d.page < e.page) entries.items }
        ensures { result ≡ (record { page_size = page_size; pages = pages; entries = entries.items; counts = counts }) }
    {
        Index {
            page_size,
            pages,
            entries,
            counts,
        }
    }

    /// The size of a page in bytes, or 0 where the file is no log.
    pub fn page_size(&self) -> u32
        ensures size { result ≡ self.now.page_size }
        ensures most { result ≤ 65536 }
        ensures least { 0 < self.now.pages → 512 ≤ result }
    {
        self.page_size
    }

    /// The pages that the recovered database has, or 0 where nothing of the log is used.
    pub fn pages(&self) -> u32
        ensures { result ≡ self.now.pages }
    {
        self.pages
    }

    /// The entries, by their pages, which rise.
    pub fn entries(&self) -> &[Entry]
        ensures { result.now ≡ self.now.entries }
    {
        self.entries.as_slice()
    }

    /// Where the log has its pages: something of it is used.
    pub fn into_pages(self) -> LogPages<A>
        requires { 0 < self.pages }
        ensures { result ≡ wal_pages self }
    {
        let Index {
            page_size,
            pages,
            entries,
            counts: _,
        } = self;
        let head = HEAD_LEN as u32;
        LogPages::new(
            page_size,
            pages,
            HEADER_LEN as u32 + head,
            head + page_size,
            entries,
        )
    }

    /// What was found in the log.
    pub fn counts(&self) -> Counts
        ensures { result ≡ self.now.counts }
    {
        self.counts
    }
}

// Where the first frame begins that is not valid, if the log goes on there.
pub(crate) fn broken_at(size: u32, frames: u32, len: u64) -> Option<u64>
    requires { size ≤ 65560 }
    ensures { (h : List ℕ) → size ≡ frame_size h → result ≡ broken_at h frames len }
{
    let end = 32 + u64::from(size) * u64::from(frames);
    if end < len { Some(end) } else { None }
}

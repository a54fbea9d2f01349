// The heads and the records of a rollback journal (Database File Format, 3).
ghost use Rattle.std.specs.Prelude.{◌≡◌, ◌+◌, ◌-◌, ◌/◌, ◌%◌, ◌^◌, ◌<◌, ◌≤◌, IsTrue, length};
ghost use Rattle.dblog.specs.Journal.{IsSized, gap, has_magic, is_record, is_sector_size, is_shape, place_after};
ghost use Rattle.dblog.specs.Journal.{record_sum, records_of, shape, stated_size};
ghost use Rattle.dblog.specs.Wal.{is_page_size};

use dbformat::u32_at;

// The bytes of a head that are looked at.
pub(crate) const HEAD_LEN: usize = 28;

// As many records as the journal has room for.
const ALL_RECORDS: u32 = u32::MAX;

// The page that no record has is that of this byte.
const LOCK_BYTE: u32 = 0x4000_0000;

/// What the first head says of the whole journal: its length, the sizes of a sector and of a page, and the pages that the database had.
#[derive(Clone, Copy)]
pub struct Shape {
    len: u64,
    sector: u32,
    page_size: u32,
    pages: u32,
}

/// Where a record begins, or the head of the next segment is looked for; the records of the segment that are left; and what their sums
/// begin with.
#[derive(Clone, Copy)]
pub struct Place {
    at: u64,
    left: u64,
    nonce: u32,
}

pub(crate) fn has_magic(head: &[u8]) -> bool
    requires { 8 ≤ length head.now }
    ensures { result ≡ has_magic head.now }
{
    u32_at(head, 0) == 0xd9d5_05f9 && u32_at(head, 4) == 0x20a1_63d7
}

fn is_page_size(size: u32) -> bool
    ensures stored { result ≡ is_page_size size }
    ensures sized { IsTrue result → (512 ≤ size) × (size ≤ 65536) × (size % 8 ≡ 0) }
{
    matches!(
        size,
        512 | 1024 | 2048 | 4096 | 8192 | 16384 | 32768 | 65536
    )
}

fn is_sector_size(size: u32) -> bool
    ensures stored { result ≡ is_sector_size size }
    ensures sized { IsTrue result → (32 ≤ size) × (size ≤ 65536) × (size % 8 ≡ 0) }
{
    matches!(
        size,
        32 | 64 | 128 | 256 | 512 | 1024 | 2048 | 4096 | 8192 | 16384 | 32768 | 65536
    )
}

// The stated size of a page, or that of the database.
fn stated_size(head: &[u8], stored: u32) -> u32
    requires { 28 ≤ length head.now }
    ensures { result ≡ stated_size stored head.now }
{
    match u32_at(head, 24) {
        0 => stored,
        stated => stated,
    }
}

impl Place {
    pub(crate) fn at(self) -> u64
        ensures { result ≡ self.at }
    {
        self.at
    }

    pub(crate) fn left(self) -> u64
        ensures { result ≡ self.left }
    {
        self.left
    }

    pub(crate) fn nonce(self) -> u32
        ensures { result ≡ self.nonce }
    {
        self.nonce
    }

    // How many units of eight bytes there are before it.
    pub(crate) fn unit(self) -> u32
        requires { self.at < 2 ^ 35 }
        ensures { result ≡ self.at / 8 }
    {
        (self.at / 8) as u32
    }

    // After a record of so many bytes.
    pub(crate) fn after_record(self, count: u64) -> Place
        requires fits { self.at + count < 2 ^ 64 }
        requires some { 0 < self.left }
        ensures { result ≡ (record { at = self.at + count; left = self.left - 1; nonce = self.nonce }) }
    {
        Place {
            at: self.at + count,
            left: self.left - 1,
            nonce: self.nonce,
        }
    }

    // So many bytes further, with no record left.
    pub(crate) fn further(self, count: u64) -> Place
        requires { self.at + count < 2 ^ 64 }
        ensures { result ≡ (record { at = self.at + count; left = 0; nonce = self.nonce }) }
    {
        Place {
            at: self.at + count,
            left: 0,
            nonce: self.nonce,
        }
    }
}

impl Shape {
    pub(crate) fn len(self) -> u64
        ensures { result ≡ self.len }
    {
        self.len
    }

    // How many bytes a record has.
    pub(crate) fn record_len(self) -> usize
        requires { self.page_size ≤ 65536 }
        ensures { result ≡ self.page_size + 8 }
    {
        self.page_size as usize + 8
    }

    pub(crate) fn page_size(self) -> u32
        ensures { result ≡ self.page_size }
    {
        self.page_size
    }

    // The pages that the database had.
    pub(crate) fn pages(self) -> u32
        ensures { result ≡ self.pages }
    {
        self.pages
    }

    pub(crate) fn sector(self) -> u32
        ensures { result ≡ self.sector }
    {
        self.sector
    }

    // What this head says of a journal of `len` bytes, beside a database that states this size of a page.
    pub(crate) fn of(head: &[u8], len: u64, stored: u32) -> Shape
        requires { 28 ≤ length head.now }
        ensures { result ≡ shape stored head.now len }
    {
        Shape {
            len,
            sector: u32_at(head, 20),
            page_size: stated_size(head, stored),
            pages: u32_at(head, 16),
        }
    }

    // Whether these can be the sizes of a journal.
    pub(crate) fn is_shape(self) -> bool
        ensures shape { result ≡ is_shape self }
        ensures sized { IsTrue result → IsSized self }
    {
        is_page_size(self.page_size)
            && is_sector_size(self.sector)
            && u64::from(self.sector) <= self.len
    }

    // The first record of a segment whose head begins at this byte.
    pub(crate) fn place_after(self, head: &[u8], at: u64) -> Place
        requires head { 28 ≤ length head.now }
        requires sized { IsSized self }
        requires within { at + self.sector ≤ self.len }
        ensures { result ≡ place_after self head.now at }
    {
        Place {
            at: at + u64::from(self.sector),
            left: self.records_of(head),
            nonce: u32_at(head, 12),
        }
    }

    // How many records a head states.
    fn records_of(self, head: &[u8]) -> u64
        requires head { 28 ≤ length head.now }
        requires sized { IsSized self }
        ensures { result ≡ records_of self head.now }
    {
        match u32_at(head, 8) {
            ALL_RECORDS => (self.len - u64::from(self.sector)) / (u64::from(self.page_size) + 8),
            stated => u64::from(stated),
        }
    }

    // How many bytes there are up to the next sector.
    pub(crate) fn gap(self, at: u64) -> u64
        requires { IsSized self }
        ensures gap { result ≡ gap self at }
        ensures short { result < self.sector }
    {
        let sector = u64::from(self.sector);
        (sector - at % sector) % sector
    }

    // Whether this is a record whose sum begins with this nonce.
    pub(crate) fn is_record(self, nonce: u32, bytes: &[u8]) -> bool
        requires sized { IsSized self }
        requires long { length bytes.now ≡ self.page_size + 8 }
        ensures { result ≡ is_record self nonce bytes.now }
    {
        let page = u32_at(bytes, 0);
        let end = self.page_size as usize + 4;
        page > 0
            && page != LOCK_BYTE / self.page_size + 1
            && (page > self.pages
                || record_sum(nonce, &bytes[4..end]) == u32_at(bytes, self.page_size + 4))
    }
}

// The nonce, and every 200th byte from the end of a page.
fn record_sum(nonce: u32, page: &[u8]) -> u32
    requires { 0 < length page.now }
    ensures { result ≡ record_sum nonce page.now }
{
    let mut sum = nonce;
    for i in 0..(page.len() - 1) / 200 {
        sum = sum.wrapping_add(u32::from(page[page.len() - 200 * (i + 1)]));
    }
    sum
}

// The numbers of a header, by their places in its 100 bytes (Database File Format, 1.3).
ghost use Rattle.std.specs.Prelude.{◌≡◌, ◌≤◌, ◌<◌, IsTrue, length, take, ◌==◌};
ghost use Rattle.std.specs.List.{list_any};
ghost use Rattle.std.specs.Str.{bytes_eq};
ghost use Rattle.dbformat.specs.Numbers.{u16_at};
ghost use Rattle.dbformat.specs.Header.{magic, stored_page_sizes, page_size, is_size_valid, page_count, whole_pages, stated_pages};

use dbformat::{u16_at, u32_at};

/// The number of bytes of a header.
pub const HEADER_LEN: usize = 100;

// The first 16 bytes of a database.
const MAGIC: &[u8; 16] = b"SQLite format 3\0";

pub(crate) fn has_magic(bytes: &[u8]) -> bool
    requires { 100 ≤ length bytes.now }
    ensures { result ≡ bytes_eq (take 16 bytes.now) magic }
{
    &bytes[..16] == MAGIC.as_slice()
}

// Whether the stored page size is a valid one.
#[tactic(auto, unfolding(dbformat::specs::Header::page_size))]
pub(crate) fn has_page_size(bytes: &[u8]) -> bool
    requires { 100 ≤ length bytes.now }
    ensures sized { IsTrue result → (512 ≤ page_size bytes.now) × (page_size bytes.now ≤ 65536) }
    ensures stored { result ≡ list_any (λ size. u16_at 16 bytes.now == size) stored_page_sizes }
{
    matches!(
        u16_at(bytes, 16),
        1 | 512 | 1024 | 2048 | 4096 | 8192 | 16384 | 32768
    )
}

// The size of a page in bytes. A stored 1 means 65536.
#[tactic(auto, unfolding(dbformat::specs::Header::page_size))]
pub(crate) fn page_size(bytes: &[u8]) -> u32
    requires { 100 ≤ length bytes.now }
    ensures { result ≡ page_size bytes.now }
{
    let stored = u16_at(bytes, 16);
    if stored == 1 {
        65536
    } else {
        u32::from(stored)
    }
}

// Whether the stated size in pages counts.
#[tactic(auto, unfolding(dbformat::specs::Header::is_size_valid, dbformat::specs::Header::stated_pages, dbformat::specs::Header::change_counter, dbformat::specs::Header::version_valid_for))]
pub(crate) fn is_size_valid(bytes: &[u8]) -> bool
    requires { 100 ≤ length bytes.now }
    ensures { result ≡ is_size_valid bytes.now }
{
    u32_at(bytes, 28) != 0 && u32_at(bytes, 24) == u32_at(bytes, 92)
}

// How many pages are looked at, in a file of `file_len` bytes.
#[tactic(auto, unfolding(dbformat::specs::Header::page_count, dbformat::specs::Header::whole_pages, dbformat::specs::Header::stated_pages))]
pub(crate) fn page_count(bytes: &[u8], file_len: u64) -> u64
    requires header { 100 ≤ length bytes.now }
    requires sized { 0 < page_size bytes.now }
    ensures { result ≡ page_count bytes.now file_len }
{
    let whole = file_len / u64::from(page_size(bytes));
    if is_size_valid(bytes) {
        whole.min(u64::from(u32_at(bytes, 28)))
    } else {
        whole
    }
}

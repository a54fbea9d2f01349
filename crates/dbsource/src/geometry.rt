// The shape of a file, and whether its header refuses it (Database File Format, 1.3, 1.4 and 1.8).
ghost use Rattle.std.specs.Prelude.{◌≡◌, ◌≤◌, ◌<◌, ◌^◌, length};
ghost use Rattle.dbformat.specs.FixedPages.{geometry_of};
ghost use Rattle.dbformat.specs.File.{refusal_of};
ghost use Rattle.dbformat.specs.Header.{page_size, page_count, usable_size, has_pointer_map};
ghost use Rattle.dbsource.specs.Headers.{shape_of};

use crate::header_words::{HEADER_LEN, has_magic, has_page_size, page_count, page_size};
use crate::{Geometry, Refusal};
use dbformat::u32_at;

// The most pages that are looked at.
const MOST_PAGES: u64 = 67108864;

// Whether the header states a greatest root page, which only a file with a pointer map has.
#[tactic(auto, unfolding(dbformat::specs::Header::has_pointer_map, dbformat::specs::Header::greatest_root))]
fn has_pointer_map(header: &[u8]) -> bool
    requires { 100 ≤ length header.now }
    ensures { result ≡ has_pointer_map header.now }
{
    u32_at(header, 52) != 0
}

// How many bytes of a page structures use.
#[tactic(auto, unfolding(dbformat::specs::Header::usable_size, dbformat::specs::Header::reserved_bytes))]
fn usable_size(header: &[u8]) -> u32
    requires { 100 ≤ length header.now }
    ensures { result ≡ usable_size header.now }
{
    page_size(header).saturating_sub(u32::from(header[20]))
}

// The shape of a file of `file_len` bytes.
pub(crate) fn geometry_of(header: &[u8], file_len: u64) -> Geometry
    requires header { 100 ≤ length header.now }
    requires sized { 0 < page_size header.now }
    requires counted { page_count header.now file_len < 2 ^ 32 }
    ensures { result ≡ geometry_of header.now file_len }
{
    Geometry {
        page_size: page_size(header),
        usable: usable_size(header),
        pages: page_count(header, file_len) as u32,
        has_map: has_pointer_map(header),
    }
}

// Why a file of this length whose first bytes are these is not read.
#[tactic(auto, unfolding(dbformat::specs::File::refusal_of))]
pub(crate) fn refusal_of(header: &[u8], file_len: u64) -> Option<Refusal>
    requires header { 100 ≤ length header.now }
    requires long { 100 ≤ file_len }
    ensures { result ≡ refusal_of header.now file_len }
{
    if !has_magic(header) {
        return Some(Refusal::Magic);
    }
    if !has_page_size(header) {
        return Some(Refusal::PageSize);
    }
    if usable_size(header) < 480 {
        return Some(Refusal::Usable);
    }
    let pages = page_count(header, file_len);
    if pages == 0 {
        return Some(Refusal::NoPage);
    }
    if pages > MOST_PAGES {
        return Some(Refusal::TooManyPages);
    }
    geometry_of(header, file_len)
        .has_map_at_lock()
        .then_some(Refusal::MapAtLock)
}

/// The shape of a file of `file_len` bytes that begins with these, or `None` where it is refused, or where these are fewer than
/// the 100 bytes of a header.
pub fn shape_of(bytes: &[u8], file_len: u64) -> Option<Geometry>
    ensures { result ≡ shape_of bytes.now file_len }
{
    if bytes.len() < HEADER_LEN {
        return None;
    }
    if file_len < HEADER_LEN as u64 {
        return None;
    }
    match refusal_of(bytes, file_len) {
        Some(_) => None,
        None => Some(geometry_of(bytes, file_len)),
    }
}

// The header of a write-ahead log, and when a frame is valid (Database File Format, 4.1 and 4.2).
ghost use Rattle.std.specs.Prelude.{◌≡◌, ◌==◌, ◌≤◌, IsTrue, length};
ghost use Rattle.dblog.specs.Wal.{frame_size, frame_sums, has_its_sums, has_salts, is_header, is_magic};
ghost use Rattle.dblog.specs.Wal.{is_page_size, is_valid, order, known_version, page_size, version};
ghost use Rattle.dblog.specs.Sums.{no_sums, sums};
ghost use Rattle.dbformat.specs.Numbers.{u32_at};

use crate::sums::{Sums, add_up};
use byteorder::{BigEndian, LittleEndian};
use dbformat::u32_at;

// The bytes of the header, and of the head of a frame.
pub(crate) const HEADER_LEN: usize = 32;

pub(crate) const HEAD_LEN: usize = 24;

const VERSION: u32 = 3_007_000;

const MAGIC_LITTLE: u32 = 0x377f_0682;

const MAGIC_BIG: u32 = 0x377f_0683;

// The sums of these bytes, in the byte order that the header says.
fn sums_by(header: &[u8], start: Sums, bytes: &[u8]) -> Sums
    requires { 32 ≤ length header.now }
    ensures { result ≡ sums (order header.now) start bytes.now }
{
    if u32_at(header, 0) == MAGIC_BIG {
        add_up::<BigEndian>(start, bytes)
    } else {
        add_up::<LittleEndian>(start, bytes)
    }
}

fn has_magic(header: &[u8]) -> bool
    requires { 32 ≤ length header.now }
    ensures { result ≡ is_magic (u32_at 0 header.now) }
{
    matches!(u32_at(header, 0), MAGIC_LITTLE | MAGIC_BIG)
}

// Whether the stated page size is one.
fn has_page_size(header: &[u8]) -> bool
    requires { 32 ≤ length header.now }
    ensures stored { result ≡ is_page_size (page_size header.now) }
    ensures sized { IsTrue result → (512 ≤ page_size header.now) × (page_size header.now ≤ 65536) }
{
    matches!(
        u32_at(header, 8),
        512 | 1024 | 2048 | 4096 | 8192 | 16384 | 32768 | 65536
    )
}

fn has_its_sums(header: &[u8]) -> bool
    requires { 32 ≤ length header.now }
    ensures { result ≡ has_its_sums header.now }
{
    sums_by(header, Sums::none(), &header[..24]).is_same(Sums::stated(header, 24))
}

// Whether these bytes are the header of a log.
#[tactic(auto, unfolding(crate::specs::Wal::is_header))]
pub(crate) fn is_header(header: &[u8]) -> bool
    requires { length header.now ≡ 32 }
    ensures header { result ≡ is_header header.now }
    ensures sized { IsTrue result → (512 ≤ page_size header.now) × (page_size header.now ≤ 65536) }
{
    has_magic(header) && has_page_size(header) && has_its_sums(header)
}

// The stated size of a page.
pub(crate) fn page_size(header: &[u8]) -> u32
    requires { 32 ≤ length header.now }
    ensures { result ≡ page_size header.now }
{
    u32_at(header, 8)
}

// The bytes of a frame.
pub(crate) fn frame_size(header: &[u8]) -> usize
    requires header { 32 ≤ length header.now }
    requires sized { page_size header.now ≤ 65536 }
    ensures { result ≡ frame_size header.now }
{
    HEAD_LEN + page_size(header) as usize
}

// Whether the version is the only one that there is.
pub(crate) fn has_known_version(header: &[u8]) -> bool
    requires { 32 ≤ length header.now }
    ensures { result ≡ (version header.now == known_version) }
{
    u32_at(header, 4) == VERSION
}

// Whether a frame has the salts of the log.
pub(crate) fn has_salts(header: &[u8], frame: &[u8]) -> bool
    requires header { 32 ≤ length header.now }
    requires frame { 24 ≤ length frame.now }
    ensures { result ≡ has_salts header.now frame.now }
{
    frame[8..16] == header[16..24]
}

// The sums of a frame, going on from those of the frame before.
fn frame_sums(header: &[u8], before: Sums, frame: &[u8]) -> Sums
    requires header { 32 ≤ length header.now }
    requires frame { 24 ≤ length frame.now }
    ensures { result ≡ frame_sums header.now before frame.now }
{
    let head = sums_by(header, before, &frame[..8]);
    sums_by(header, head, &frame[24..])
}

// Whether a frame is valid after those before it.
#[tactic(auto, unfolding(crate::specs::Wal::is_valid))]
pub(crate) fn is_valid(header: &[u8], before: Sums, frame: &[u8]) -> bool
    requires header { 32 ≤ length header.now }
    requires frame { 24 ≤ length frame.now }
    ensures { result ≡ is_valid header.now before frame.now }
{
    u32_at(frame, 0) > 0
        && has_salts(header, frame)
        && frame_sums(header, before, frame).is_same(Sums::stated(frame, 16))
}

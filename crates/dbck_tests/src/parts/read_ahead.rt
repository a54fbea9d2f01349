// What is read of a file that is read ahead, and along, and when it is.
use crate::support::fake_files::{Allowed, FakeFiles};
use crate::support::stops::holds;
use dbsource::{FileSource, Source};
use std::alloc::{AllocError, Global};
use std::fs;
use std::fs::File;
use std::rt::{Clock, Files};
use std::test::Fail;
use std::time::Duration;

const WINDOW: u64 = 1_048_576;

// The longest read that answers later ones.
const MOST_ALONG: u64 = 262_144;

// The bounds, in microseconds: each window is read ahead, those that come from a device, and none.
const BOUNDS: [Option<u64>; 3] = [Some(0), Some(15), None];

// How long the files are.
const LENGTHS: [u64; 5] = [0, 5, WINDOW, 2 * WINDOW, 2 * WINDOW + 77_777];

// How long reads are: of pages, and of parts that cross windows.
const SIZES: [usize; 4] = [4096, 65_536, 3000, 300_000];

// The orders in which parts are read: each part is this many parts after the one before. 1 is a row, and the others jump.
const STEPS: [u64; 3] = [1, 3, 101];

fn byte_at(place: u64) -> u8 {
    (place % 251) as u8
}

fn are_right(offset: u64, bytes: &[u8]) -> bool {
    let mut place = offset;
    for byte in bytes {
        if *byte != byte_at(place) {
            return false;
        }
        place = place.wrapping_add(1);
    }
    true
}

fn make_file(rt: &HostRuntime, path: &str, len: u64) -> Result<(), Fail> {
    let mut bytes = Vec::new(rt.alloc());
    for place in 0..len {
        bytes.push(byte_at(place))?;
    }
    fs::write(rt, path, bytes.as_slice())?;
    Ok(())
}

fn open<'r, R: Files<File = File> + Clock + AllocGlobal>(
    rt: &'r R,
    path: &str,
    bound: Option<u64>,
) -> Result<FileSource<'r, R>, Fail> {
    Ok(FileSource::open_with(rt, path, bound.map(Duration::from_micros))?)
}

// Whether a read into `buf` from a place on, in a file of `len` bytes, gives its bytes, or fails where they pass its end.
fn is_part_right(source: &mut impl Source, len: u64, offset: u64, buf: &mut [u8]) -> bool {
    let is_inside = offset.saturating_add(buf.len() as u64) <= len;
    let is_read = source.read_at(offset, buf).is_ok();
    is_read == is_inside && (!is_read || are_right(offset, buf))
}

// The same of a page, by its number from 0 on.
fn is_page_right(source: &mut impl Source, len: u64, number: u64, page: &mut [u8]) -> bool {
    let size = page.len() as u64;
    is_part_right(source, len, number.wrapping_mul(size), page)
}

// The same of some pages of 4096 bytes.
fn are_pages_right(source: &mut impl Source, len: u64, numbers: &[u64]) -> bool {
    let mut page = [0u8; 4096];
    let mut are_right = true;
    for number in numbers {
        are_right = is_page_right(source, len, *number, &mut page) && are_right;
    }
    are_right
}

// The same of all parts of a file, and two past its end.
fn are_parts_right(source: &mut impl Source, len: u64, step: u64, buf: &mut [u8]) -> bool {
    let size = buf.len() as u64;
    let parts = len.checked_div(size).unwrap_or(0).saturating_add(2);
    let mut part = 0u64;
    let mut are_right = true;
    for _ in 0..parts {
        are_right = is_page_right(source, len, part, buf) && are_right;
        part = part.wrapping_add(step).checked_rem(parts).unwrap_or(0);
    }
    are_right
}

// The same in each order.
fn are_orders_right(source: &mut impl Source, len: u64, buf: &mut [u8]) -> bool {
    let mut are_right = true;
    for step in STEPS {
        are_right = are_parts_right(source, len, step, buf) && are_right;
    }
    are_right
}

// The same of each size.
fn are_sizes_right(alloc: Global, source: &mut impl Source, len: u64) -> Result<bool, AllocError> {
    let mut are_right = true;
    for size in SIZES {
        let mut buf = vec![in alloc; 0; size]?;
        are_right = are_orders_right(source, len, &mut buf) && are_right;
    }
    Ok(are_right)
}

fn is_file_right(rt: &HostRuntime, len: u64, bound: Option<u64>) -> Result<bool, Fail> {
    let mut source = open(rt, "parts.db", bound)?;
    Ok(are_sizes_right(rt.alloc(), &mut source, len)?)
}

// The same at each bound.
fn is_right_at_bounds(rt: &HostRuntime, len: u64) -> Result<bool, Fail> {
    make_file(rt, "parts.db", len)?;
    for bound in BOUNDS {
        if !is_file_right(rt, len, bound)? {
            return Ok(false);
        }
    }
    Ok(true)
}

#[test]
fn reads_the_same_at_each_bound(rt: HostRuntime) -> Result<(), Fail> {
    for len in LENGTHS {
        holds!(rt; is_right_at_bounds(&rt, len)?, len);
    }
    fs::remove_file(&rt, "parts.db")?;
    Ok(())
}

fn cut(rt: &HostRuntime, path: &str, len: u64) -> Result<(), Fail> {
    File::options().write(true).open(rt, path)?.set_len(len)?;
    Ok(())
}

// To what length a file is cut, and the pages that are read then. Past its end nothing is read, except what a longer read returned before: those
// pages are said to be in a file without end, and those that are not read any more in an empty one.
const CUTS: [(u64, u64, &[u64]); 6] = [
    (2 * WINDOW, 2 * WINDOW, &[0]),
    (80_000, 80_000, &[200, 2, 300, 19, 18, 5, 6, 7, 8, 9]),
    // Page 8 came with a longer read, of 16384 bytes.
    (20_000, u64::MAX, &[10, 11]),
    (20_000, 0, &[12]),
    (20_000, u64::MAX, &[2]),
    (20_000, 0, &[5]),
];

// Whether these pages are right where the file is cut while it is read.
fn are_cuts_right(rt: &HostRuntime, source: &mut impl Source) -> Result<bool, Fail> {
    let mut are_right = true;
    for (cut_to, len, numbers) in &CUTS {
        cut(rt, "cut.db", *cut_to)?;
        are_right = are_pages_right(source, *len, numbers) && are_right;
    }
    Ok(are_right)
}

fn is_cut_file_right(rt: &HostRuntime, bound: Option<u64>) -> Result<bool, Fail> {
    make_file(rt, "cut.db", 2 * WINDOW)?;
    let mut source = open(rt, "cut.db", bound)?;
    are_cuts_right(rt, &mut source)
}

#[test]
fn reads_a_file_that_is_cut_short(rt: HostRuntime) -> Result<(), Fail> {
    for bound in BOUNDS {
        holds!(rt; is_cut_file_right(&rt, bound)?, bound);
    }
    fs::remove_file(&rt, "cut.db")?;
    Ok(())
}

// How often the clock is looked at while each page is read twice, with gaps.
fn looks(rt: &HostRuntime, bound: Option<u64>, pages: u64) -> Result<u64, Fail> {
    let files = FakeFiles::new(rt, Allowed::Reading);
    let mut page = [0u8; 4096];
    let mut source = open(&files, "looks.db", bound)?;
    for turn in 0..pages.saturating_mul(2) {
        let number = turn.wrapping_mul(7).checked_rem(pages).unwrap_or(0);
        let _ = source.read_at(number.wrapping_mul(4096), &mut page);
    }
    Ok(files.looks())
}

// Whether it is looked at so often at each bound, in a file of `len` bytes. Without a bound it is never looked at.
fn are_looks(rt: &HostRuntime, len: u64, count: u64) -> Result<bool, Fail> {
    make_file(rt, "looks.db", len)?;
    for bound in BOUNDS {
        let wanted = if bound.is_some() { count } else { 0 };
        if looks(rt, bound, len / 4096)? != wanted {
            return Ok(false);
        }
    }
    Ok(true)
}

// A look before the read, and one after it.
#[test]
fn looks_at_the_clock_once_a_window(rt: HostRuntime) -> Result<(), Fail> {
    for (len, count) in [(0, 0), (4096, 2), (WINDOW, 2), (WINDOW + 4096, 4)] {
        holds!(rt; are_looks(&rt, len, count)?, len);
    }
    fs::remove_file(&rt, "looks.db")?;
    Ok(())
}

// How many bytes this process has read, if the system counts them.
fn bytes_read(rt: &HostRuntime) -> Option<u64> {
    let text = fs::read_to_string(rt, "/proc/self/io").ok()?;
    let line = text.as_str().lines().next()?;
    line.strip_prefix("rchar: ")?.parse::<u64>().ok()
}

// How many bytes it has read since it had read these, if the system counts them.
fn read_since(rt: &HostRuntime, before: Option<u64>) -> Option<u64> {
    Some(bytes_read(rt)?.saturating_sub(before?))
}

// Reads some pages of a file of four windows, where each read takes `pace` microseconds. True if the pages are right, and `wanted` windows
// are read ahead.
fn are_windows_read(rt: &HostRuntime, pace: u64, wanted: u64) -> Result<bool, Fail> {
    let files = FakeFiles::new(rt, Allowed::Reading);
    files.set_pace(pace);
    let mut source = FileSource::open(&files, "ahead.db")?;
    let before = bytes_read(rt);
    let numbers = [300, 2, 1000, 400, 9, 600, 1010, 700, 20];
    let are_right = are_pages_right(&mut source, 4 * WINDOW, &numbers);
    let windows = read_since(rt, before).map(|read| read / WINDOW);
    Ok(are_right && windows.unwrap_or(wanted) == wanted)
}

#[test]
fn reads_ahead_what_a_device_has(rt: HostRuntime) -> Result<(), Fail> {
    make_file(&rt, "ahead.db", 4 * WINDOW)?;
    for (pace, wanted) in [(0, 0), (14, 0), (15, 4), (1000, 4)] {
        holds!(rt; are_windows_read(&rt, pace, wanted)?, pace);
    }
    fs::remove_file(&rt, "ahead.db")?;
    Ok(())
}

// Reads that jump through a file of 320 windows: a window for each, and how many windows are read ahead with it. The third that goes back
// reads sixteen at once, and the third after it 256, of which the ones that were read before are left out.
const JUMPS: [(u64, u64); 15] = [
    (0, 1),
    (60, 1),
    (40, 1),
    (50, 1),
    (20, 1),
    (10, 15),
    (30, 15),
    (5, 0),
    (100, 16),
    (80, 16),
    (70, 16),
    (33, 173),
    (300, 64),
    (200, 0),
    (319, 0),
];

// How many windows are read ahead with a read of some bytes at the beginning of a window.
fn windows_with(
    rt: &HostRuntime,
    source: &mut impl Source,
    window: u64,
    buf: &mut [u8],
) -> Option<u64> {
    let before = bytes_read(rt);
    let _ = source.read_at(window.wrapping_mul(WINDOW), buf);
    Some(read_since(rt, before)? / WINDOW)
}

// Whether each of these reads, of this size, reads this number of windows ahead. If a few pages fill a window, one window is read at once.
fn are_followed(
    rt: &HostRuntime,
    source: &mut impl Source,
    size: usize,
    is_short: bool,
) -> Result<bool, Fail> {
    let mut buf = vec![in rt.alloc(); 0; size]?;
    let mut are_followed = true;
    for (window, at_once) in JUMPS {
        let wanted = if is_short { at_once } else { 1 };
        let found = windows_with(rt, source, window, &mut buf);
        are_followed = are_followed && found.unwrap_or(wanted) == wanted;
    }
    Ok(are_followed)
}

// The same in a file whose reads all come from a device.
fn are_jumps_followed(rt: &HostRuntime, size: usize, is_short: bool) -> Result<bool, Fail> {
    let files = FakeFiles::new(rt, Allowed::Reading);
    files.set_pace(1000);
    let mut source = FileSource::open(&files, "jumps.db")?;
    are_followed(rt, &mut source, size, is_short)
}

#[test]
fn reads_more_windows_where_reads_jump(rt: HostRuntime) -> Result<(), Fail> {
    fs::write(&rt, "jumps.db", b"")?;
    cut(&rt, "jumps.db", 320 * WINDOW)?;
    for (size, is_short) in [(4096, true), (32_768, false)] {
        holds!(rt; are_jumps_followed(&rt, size, is_short)?, size);
    }
    fs::remove_file(&rt, "jumps.db")?;
    Ok(())
}

// The most bytes that are read for one page of four windows, which are read in their order, and whether the pages are right. Where the
// system does not count them they are 256 KiB.
fn most_read(rt: &HostRuntime, source: &mut impl Source) -> (u64, bool) {
    let mut most = 0;
    let mut are_right = true;
    for number in 0..1024 {
        let before = bytes_read(rt);
        are_right = are_pages_right(source, 4 * WINDOW, &[number]) && are_right;
        most = read_since(rt, before).unwrap_or(MOST_ALONG).max(most);
    }
    (most, are_right)
}

fn most_read_along(rt: &HostRuntime) -> Result<(u64, bool), Fail> {
    let mut source = open(rt, "along.db", None)?;
    Ok(most_read(rt, &mut source))
}

// The count itself is a read of less than a page.
#[test]
fn reads_along_by_256_kib_at_most(rt: HostRuntime) -> Result<(), Fail> {
    make_file(&rt, "along.db", 4 * WINDOW)?;
    let (most, are_right) = most_read_along(&rt)?;
    holds!(rt; are_right && (MOST_ALONG..MOST_ALONG + 4096).contains(&most), most);
    fs::remove_file(&rt, "along.db")?;
    Ok(())
}

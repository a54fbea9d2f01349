// A file and a log beside it, as one source.
ghost use Rattle.std.specs.Prelude.{◌≡◌, ℕ, ◌+◌, ◌*◌, ◌%◌, ◌^◌, ◌<◌, ◌≤◌, IfOk, IfSome, IsOk, length, slice_index};
ghost use Rattle.dbformat.specs.Log.{range};
ghost use Rattle.dbsource.specs.Failures.{failures_after, is_any};
ghost use Rattle.dbsource.specs.Sources.{AreBytes};
ghost use Rattle.dblog.specs.Beside.{BesideLength, Both, ReadsBoth, ReadsPadded, both_held};
ghost use Rattle.dblog.specs.Placed.{IsInOnePage, placed, placed_len};

use crate::log_pages::LogPages;
use dbsource::{Failures, ReadFailed, Source};
use std::alloc::{Allocator, Global};
use std::marker::Model;

/// A source over two: a database file, and a log beside it. It gives the bytes of the database that SQLite would recover: each page is
/// that of the log, if the log gives it, or that of the file, with zeros past its end. A range in one page
/// is read from one of them, by one read; a longer one page by page. Its length is that of the recovered database.
#[derive(Drop)]
pub struct Logged<B: Source, L: Source, A: Allocator = Global> {
    pages: LogPages<A>,
    base: B,
    base_len: u64,
    log: L,
    past_end: Failures,
}

impl<B: Source, L: Source, A: Allocator> Model for Logged<B, L, A> {
    ghost use Rattle.std.specs.Prelude.{◌<◌, IfSome};
    ghost use Rattle.dbsource.specs.Sources.{AreBytes};
    ghost use Rattle.dblog.specs.Beside.{Beside};
    ghost use Rattle.dblog.specs.Placed.{placed};

    ghost Value = { Beside B L };

    ghost view = { λ s. record { placed = placed s.pages s.base_len; base = s.base; log = s.log; past_end = s.past_end } };

    ghost invariant = { λ s. IfSome (B.held s.base).bytes AreBytes × IfSome (L.held s.log).bytes AreBytes };
}

impl<B: Source, L: Source, A: Allocator> Logged<B, L, A> {
    /// A file of `base_len` bytes, and a log that has these pages.
    pub fn new(pages: LogPages<A>, base: B, base_len: u64, log: L) -> Logged<B, L, A>
        requires base { IfSome (B.held base).bytes AreBytes }
        requires log { IfSome (L.held log).bytes AreBytes }
        ensures { result ≡ record { placed = placed pages base_len; base = base; log = log; past_end = 0 } }
    {
        Logged {
            pages,
            base,
            base_len,
            log,
            past_end: Failures::new(),
        }
    }

    /// The size of a page in bytes, as the log states it.
    pub fn page_size(&self) -> u32
        ensures { result ≡ self.now.placed.page_size }
    {
        self.pages.page_size()
    }

    /// The file, and the log.
    pub fn into_inner(self) -> (B, L)
        ensures { result ≡ (self.base, self.log) }
    {
        (self.base, self.log)
    }
}

// Puts 0 for the bytes from this place on.
fn clear_from(buf: &mut [u8], place: usize)
    requires { place ≤ length buf.old }
    ensures long { length buf.new ≡ length buf.old }
    ensures kept { (k : ℕ) → k < place → slice_index buf.new k ≡ slice_index buf.old k }
    ensures cleared { (k : ℕ) → place ≤ k → k < length buf.old → slice_index buf.new k ≡ 0 }
{
    buf[place..].fill(0);
}

// Reads a range of the first `len` bytes of a file, with zeros past them.
fn read_padded<B: Source>(
    base: &mut B,
    len: u64,
    offset: u64,
    buf: &mut [u8],
) -> Result<(), ReadFailed>
    ensures { ReadsPadded B.step len offset result buf.new (B.held base.old) (B.held base.new) }
{
    if offset >= len {
        clear_from(buf, 0);
        return Ok(());
    }
    let count = (len - offset).min(buf.len() as u64) as usize;
    base.read_at(offset, &mut buf[..count])?;
    clear_from(buf, count);
    Ok(())
}

// Reads a range that lies in one page.
fn read_in_page<B: Source, L: Source, A: Allocator>(
    pages: &LogPages<A>,
    base: &mut B,
    base_len: u64,
    log: &mut L,
    offset: u64,
    buf: &mut [u8],
) -> Result<(), ReadFailed>
    requires one { IsInOnePage (placed pages.now base_len) (range offset (length buf.old)) }
    ensures { ReadsBoth B.step L.step (placed pages.now base_len) offset result buf.new
        (record { base = B.held base.old; log = L.held log.old }) (record { base = B.held base.new; log = L.held log.new }) }
{
    let size = u64::from(pages.page_size());
    match pages.frame_of(offset / size + 1) {
        Some(frame) => log.read_at(pages.start_of(frame) + offset % size, buf),
        None => read_padded(base, base_len, offset, buf),
    }
}

// Reads a range that lies in more than one page, page by page.
fn read_by_pages<B: Source, L: Source, A: Allocator>(
    pages: &LogPages<A>,
    base: &mut B,
    base_len: u64,
    log: &mut L,
    offset: u64,
    buf: &mut [u8],
) -> Result<(), ReadFailed>
    requires more { pages.now.page_size < offset % pages.now.page_size + length buf.old }
    requires within { offset + length buf.old ≤ placed_len (placed pages.now base_len) }
    requires fits { offset + length buf.old < 2 ^ 64 }
    ensures { ReadsBoth B.step L.step (placed pages.now base_len) offset result buf.new
        (record { base = B.held base.old; log = L.held log.old }) (record { base = B.held base.new; log = L.held log.new }) }
{
    let size = u64::from(pages.page_size());
    let mut done = 0;
    while done < buf.len() {
        let at = offset + done as u64;
        let count = ((size - at % size) as usize).min(buf.len() - done);
        read_in_page(pages, base, base_len, log, at, &mut buf[done..done + count])?;
        done += count;
    }
    Ok(())
}

// Reads a range of the database.
fn read_range<B: Source, L: Source, A: Allocator>(
    pages: &LogPages<A>,
    base: &mut B,
    base_len: u64,
    log: &mut L,
    offset: u64,
    buf: &mut [u8],
) -> Result<(), ReadFailed>
    requires within { offset + length buf.old ≤ placed_len (placed pages.now base_len) }
    requires fits { offset + length buf.old < 2 ^ 64 }
    ensures { ReadsBoth B.step L.step (placed pages.now base_len) offset result buf.new
        (record { base = B.held base.old; log = L.held log.old }) (record { base = B.held base.new; log = L.held log.new }) }
{
    let size = u64::from(pages.page_size());
    if buf.len() as u64 <= size - offset % size {
        read_in_page(pages, base, base_len, log, offset, buf)
    } else {
        read_by_pages(pages, base, base_len, log, offset, buf)
    }
}

impl<B: Source, L: Source, A: Allocator> Source for Logged<B, L, A> {
    ghost use Rattle.dblog.specs.Beside.{BesideLength, BesideStep, beside};

    ghost held = { λ s. beside s.placed s.past_end (B.held s.base) (L.held s.log) };

    ghost step = { BesideStep B.step L.step };

    ghost lengths = { BesideLength };

    fn len(&mut self) -> Result<u64, ReadFailed>
        ensures told { (both_held B.held L.held self.new).bytes ≡ (both_held B.held L.held self.old).bytes }
        ensures trail { (both_held B.held L.held self.new).trail ≡ (both_held B.held L.held self.old).trail }
        ensures count { (both_held B.held L.held self.new).failures ≡ failures_after is_any result (both_held B.held L.held self.old).failures }
        ensures length { IfOk result (BesideLength (both_held B.held L.held self.old).trail) }
        ensures number { IfOk result (λ n. IfSome (both_held B.held L.held self.old).bytes (λ bytes. n ≡ length bytes)) }
        ensures bytes { IfSome (both_held B.held L.held self.old).bytes AreBytes }
        // It never fails.
        ensures always { IsOk result }
    {
        Ok(self.pages.byte_count())
    }

    fn read_at(&mut self, offset: u64, buf: &mut [u8]) -> Result<(), ReadFailed> {
        let len = self.pages.byte_count();
        let count = buf.len() as u64;
        if offset > len || count > len - offset {
            self.past_end.add();
            return Err(ReadFailed);
        }
        let (base, base_len, log) = (&mut self.base, self.base_len, &mut self.log);
        read_range(&self.pages, base, base_len, log, offset, buf)
    }
}

// A source over another source, which sees what is asked of that.
ghost use Rattle.std.specs.Prelude.{◌≡◌, ◌-◌, ◌++◌, length, replicate, take};

use crate::copied::Copied;
use crate::progress::Progress;
use dbsource::{Geometry, HEADER_LEN, ReadFailed, Source, shape_of};
use std::cell::Cell;

/// What was seen of a source.
#[derive(Drop)]
pub struct Watch {
    len: Cell<u64>,
    first: Cell<[u8; 16]>,
    geometry: Cell<Option<Geometry>>,
    // How many runs there were, and how many reads in the last of them.
    runs: Cell<u64>,
    reads: Cell<u64>,
    copied: Cell<Option<Copied>>,
}

impl Watch {
    /// Nothing seen yet.
    pub fn new() -> Watch {
        Watch {
            len: Cell::new(0),
            first: Cell::new([0; 16]),
            geometry: Cell::new(None),
            runs: Cell::new(0),
            reads: Cell::new(0),
            copied: Cell::new(None),
        }
    }

    /// The number of bytes, as the source answered last.
    pub fn len(&self) -> u64 {
        self.len.get()
    }

    /// The first bytes, once the header was read.
    pub fn first(&self) -> [u8; 16] {
        self.first.get()
    }

    /// The shape of the file, once its header was read and accepted.
    pub fn geometry(&self) -> Option<Geometry> {
        self.geometry.get()
    }

    /// How the file was copied as text, by its first page or, where that was not read, by its header.
    pub fn copied(&self) -> Option<Copied> {
        self.copied.get()
    }

    // A run asks for the length first, and then reads the header.
    fn see_len(&self, len: u64) {
        self.len.set(len);
        self.reads.set(0);
    }

    // The first read of a run is that of the header.
    fn pages_read(&self) -> u64 {
        self.reads.get().saturating_sub(1)
    }

    // How many pages there are, and how long each is. In a file that is refused, of which `mend` alone reads pages, each is as long as
    // this read.
    fn pages(&self, read: usize) -> (u64, u32) {
        match self.geometry() {
            Some(geometry) => (u64::from(geometry.pages), geometry.page_size),
            None => {
                let page_size = u32::try_from(read).unwrap_or(u32::MAX);
                let pages = self.len().checked_div(u64::from(page_size)).unwrap_or(0);
                (pages, page_size)
            }
        }
    }

    // Counts a read. Nothing else is kept of most.
    fn see_read(&self, offset: u64, bytes: &[u8], is_read: bool) {
        let before = self.reads.get();
        self.reads.set(before.saturating_add(1));
        if before == 0 || offset == 0 {
            self.keep_read(offset, bytes, is_read, before == 0);
        }
    }

    // Keeps what is asked for later of the first read, and of one from the start of the file. Most reads do not reach this call.
    #[inline(never)]
    fn keep_read(&self, offset: u64, bytes: &[u8], is_read: bool, is_first: bool) {
        if is_first {
            self.runs.set(self.runs.get().saturating_add(1));
        }
        if is_read && is_first {
            self.first.set(first_of(bytes));
            self.geometry.set(shape_of(bytes, self.len()));
        }
        // `mend` also looks at the first bytes alone, which say nothing of a copy.
        if is_read && offset == 0 && (is_first || bytes.len() >= HEADER_LEN) {
            self.copied.set(Copied::of(bytes));
        }
    }
}

// The first 16 bytes, with zeros for those that the file does not have.
fn first_of(bytes: &[u8]) -> [u8; 16]
    ensures { result ≡ take 16 bytes.now ++ replicate (16 - length bytes.now) 0 }
{
    let mut first = [0; 16];
    let count = bytes.len().min(16);
    first[..count].copy_from_slice(&bytes[..count]);
    first
}

/// A source over another source, which answers what that one answers, and shows the progress.
#[derive(Drop)]
pub struct Watched<'w, 'p, S, W> {
    source: S,
    watch: &'w Watch,
    progress: &'p Progress<W>,
}

impl<'w, 'p, S: Source, W: Print> Watched<'w, 'p, S, W> {
    /// A watched source over `source`.
    pub fn new(source: S, watch: &'w Watch, progress: &'p Progress<W>) -> Watched<'w, 'p, S, W>
        ensures { result.source ≡ source }
    {
        Watched {
            source,
            watch,
            progress,
        }
    }

    // Shows the progress, where it is due after a read of this length.
    #[inline(never)]
    fn show_progress(&self, read: usize) {
        let count = self.watch.pages_read();
        let (pages, page_size) = self.watch.pages(read);
        if self.progress.is_due(count, page_size) {
            self.progress
                .show(self.watch.runs.get(), count.min(pages), pages);
        }
    }

    /// The source below it.
    pub fn into_inner(self) -> S
        ensures { result ≡ self.entry.source }
    {
        self.source
    }
}

impl<S: Source, W: Print> Source for Watched<'_, '_, S, W> {
    ghost held = { λ s. S.held s.source };

    ghost step = { S.step };

    ghost lengths = { S.lengths };

    fn len(&mut self) -> Result<u64, ReadFailed> {
        let len = self.source.len()?;
        self.watch.see_len(len);
        Ok(len)
    }

    fn read_at(&mut self, offset: u64, buf: &mut [u8]) -> Result<(), ReadFailed> {
        let read = self.source.read_at(offset, buf);
        self.watch.see_read(offset, buf, read.is_ok());
        if self.progress.is_on() {
            self.show_progress(buf.len());
        }
        read
    }
}

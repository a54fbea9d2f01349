// A source that looks at how much was written.
ghost use Rattle.std.specs.Prelude.{◌≡◌};

use crate::support::stated::StatedSource;
use dbsource::{ReadFailed, Source};
use std::cell::Cell;
use std::io::{self, Write};

/// A writer that counts the bytes that it took.
#[derive(Drop)]
pub(crate) struct SeenWriter<'a> {
    written: &'a Cell<usize>,
}

impl<'a> SeenWriter<'a> {
    pub(crate) fn new(written: &'a Cell<usize>) -> SeenWriter<'a> {
        SeenWriter { written }
    }
}

impl Write for SeenWriter<'_> {
    fn write(&mut self, buf: &[u8]) -> io::Result<usize> {
        self.written.set(self.written.get().wrapping_add(buf.len()));
        Ok(buf.len())
    }

    fn flush(&mut self) -> io::Result<()> {
        Ok(())
    }
}

/// A source over a source. At each read it notes how many bytes were written by then.
#[derive(Drop)]
pub(crate) struct PeekingSource<'a> {
    source: StatedSource<'a>,
    written: &'a Cell<usize>,
    seen: &'a Cell<usize>,
}

impl<'a> PeekingSource<'a> {
    pub(crate) fn new(
        source: StatedSource<'a>,
        written: &'a Cell<usize>,
        seen: &'a Cell<usize>,
    ) -> PeekingSource<'a> {
        PeekingSource {
            source,
            written,
            seen,
        }
    }
}

impl Source for PeekingSource<'_> {
    ghost use Rattle.dbsource.specs.Sources.{any_length, no_step, untold_source};

    ghost held = { λ s. record untold_source { failures = s.source.failures } };

    ghost step = { no_step };

    ghost lengths = { any_length };

    fn len(&mut self) -> Result<u64, ReadFailed> {
        self.source.len()
    }

    fn read_at(&mut self, offset: u64, buf: &mut [u8]) -> Result<(), ReadFailed> {
        self.seen.set(self.written.get());
        self.source.read_at(offset, buf)
    }
}

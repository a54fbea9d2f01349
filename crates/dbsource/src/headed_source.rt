// A source with a header over its first bytes.
ghost use Rattle.std.specs.Prelude.{◌≡◌, length};
ghost use Rattle.dbsource.specs.Headed.{over};

use crate::{Header, ReadFailed, Source};

/// A source whose header was read before. A read at the beginning of the file gives that header's bytes, whatever the
/// inner source answers then. So a file that is written meanwhile has one header in a run.
#[derive(Drop)]
pub struct HeadedSource<'a, S> {
    header: &'a Header,
    source: &'a mut S,
}

impl<'a, S: Source> HeadedSource<'a, S> {
    /// One over `source`, from which `header` was read.
    pub fn new(header: &'a Header, source: &'a mut S) -> HeadedSource<'a, S>
        ensures same { result.source.ghost_name ≡ source.entry.ghost_name }
        ensures source { result.source.now ≡ source.old }
        ensures header { result.header.now ≡ header.now }
    {
        HeadedSource { header, source }
    }
}

// Puts the header over bytes that were read at `offset`.
fn put_over(header: &[u8], offset: u64, buf: &mut [u8])
    requires { length header.now ≡ 100 }
    ensures { buf.new ≡ over header.now offset buf.old }
{
    if offset == 0 {
        let count = header.len().min(buf.len());
        buf[..count].copy_from_slice(&header[..count]);
    }
}

impl<S: Source> Source for HeadedSource<'_, S> {
    ghost use Rattle.dbsource.specs.Headed.{HeadedLength, HeadedStep, headed};

    ghost held = { λ s. headed s.source.ghost_name s.header.now.bytes (S.held s.source.now) };

    ghost step = { HeadedStep S.step };

    ghost lengths = { HeadedLength S.lengths };

    fn len(&mut self) -> Result<u64, ReadFailed> {
        self.source.len()
    }

    fn read_at(&mut self, offset: u64, buf: &mut [u8]) -> Result<(), ReadFailed> {
        let header = self.header.bytes();
        self.source.read_at(offset, buf)?;
        put_over(header, offset, buf);
        Ok(())
    }
}

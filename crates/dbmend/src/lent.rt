// A source by a reference to it, with changes over its bytes.
ghost use Rattle.std.specs.Prelude.{◌≡◌};

use dbsource::{Changes, ReadFailed, Source};

// The source that it refers to, and the changes. Each read is one read of the source, of the same range.
#[derive(Drop)]
pub(crate) struct Lent<'a, S> {
    changes: &'a Changes,
    source: &'a mut S,
}

impl<'a, S: Source> Lent<'a, S> {
    pub(crate) fn new(changes: &'a Changes, source: &'a mut S) -> Lent<'a, S>
        ensures same { result.source.ghost_name ≡ source.entry.ghost_name }
        ensures source { result.source.now ≡ source.old }
        ensures changes { result.changes.now ≡ changes.now }
    {
        Lent { changes, source }
    }
}

impl<S: Source> Source for Lent<'_, S> {
    ghost use Rattle.dbsource.specs.Patched.{ChangedLength, ChangedStep, changed};
    ghost use Rattle.dbmend.specs.LentSources.{LentLength, LentStep, lent};

    ghost held = { λ s. changed s.changes.now (lent s.source.ghost_name (S.held s.source.now)) };

    ghost step = { ChangedStep (LentStep S.step) };

    ghost lengths = { ChangedLength (LentLength S.lengths) };

    // A contract also says that each byte is below 256.
    fn len(&mut self) -> Result<u64, ReadFailed> {
        let _known = self.changes.as_slice();
        self.source.len()
    }

    fn read_at(&mut self, offset: u64, buf: &mut [u8]) -> Result<(), ReadFailed> {
        self.source.read_at(offset, buf)?;
        self.changes.put_over(offset, buf);
        Ok(())
    }
}

// A source with changes over its bytes.
ghost use Rattle.std.specs.Prelude.{◌≡◌};

use crate::changes::put_changes;
use crate::{Changes, ReadFailed, Source};
use std::marker::Model;

/// A source over a source: it gives the bytes of the inner one, with those of some changes in their places. Each read is
/// one read of the inner source, of the same range. Its length is that of the inner source, so that what a change has
/// past the end is in no file.
#[derive(Drop)]
pub struct Patched<'c, S> {
    changes: &'c Changes,
    source: S,
}

impl<'c, S> Model for Patched<'c, S> {
    ghost use Rattle.dbsource.specs.Patched.{Over};

    ghost Value = { Over S };

    ghost view = { λ s. record { changes = s.changes.now; source = s.source } };
}

impl<'c, S: Source> Patched<'c, S> {
    /// One over `source`, with these changes.
    pub fn new(changes: &'c Changes, source: S) -> Patched<'c, S>
        ensures { result ≡ record { changes = changes.now; source = source } }
    {
        Patched { changes, source }
    }

    /// The source below it.
    pub fn into_inner(self) -> S
        ensures { result ≡ self.entry.source }
    {
        self.source
    }
}

impl<S: Source> Source for Patched<'_, S> {
    ghost use Rattle.dbsource.specs.Patched.{ChangedLength, ChangedStep, changed};

    ghost held = { λ s. changed s.changes (S.held s.source) };

    ghost step = { ChangedStep S.step };

    ghost lengths = { ChangedLength S.lengths };

    // A contract also says that each byte is below 256.
    fn len(&mut self) -> Result<u64, ReadFailed> {
        let _known = self.changes.as_slice();
        self.source.len()
    }

    fn read_at(&mut self, offset: u64, buf: &mut [u8]) -> Result<(), ReadFailed> {
        let changes = self.changes.as_slice();
        self.source.read_at(offset, buf)?;
        put_changes(changes, offset, buf);
        Ok(())
    }
}

// A source that states a length and fails where a test asks for it.
ghost use Rattle.std.specs.Prelude.{◌≡◌};
ghost use Rattle.dbsource.specs.Sources.{any_length, no_step, untold_source};

use crate::support::bytes::patch;
use dbsource::{Failures, ReadFailed, Source};

/// A source of a stated length, which gives some bytes and then zeros. Its call number `fails_at`, from 0, fails. It
/// has no told bytes.
#[derive(Drop)]
pub(crate) struct StatedSource<'a> {
    bytes: &'a [u8],
    len: u64,
    fails_at: u64,
    calls: u64,
    failures: Failures,
}

impl<'a> StatedSource<'a> {
    /// No call fails where `fails_at` is greater than any number of calls.
    pub(crate) fn new(bytes: &'a [u8], len: u64, fails_at: u64) -> StatedSource<'a> {
        StatedSource {
            bytes,
            len,
            fails_at,
            calls: 0,
            failures: Failures::new(),
        }
    }

    // Counts a call, and says whether it is to fail.
    fn is_to_fail(&mut self) -> bool
        ensures { self.new.failures ≡ self.old.failures }
    {
        let call = self.calls;
        self.calls = self.calls.wrapping_add(1);
        call == self.fails_at
    }

    /// How many calls were made.
    pub(crate) fn calls(&self) -> u64 {
        self.calls
    }
}

impl Source for StatedSource<'_> {
    ghost held = { λ s. record untold_source { failures = s.failures } };

    ghost step = { no_step };

    ghost lengths = { any_length };

    fn len(&mut self) -> Result<u64, ReadFailed> {
        if self.is_to_fail() {
            self.failures.add();
            return Err(ReadFailed);
        }
        Ok(self.len)
    }

    fn read_at(&mut self, offset: u64, buf: &mut [u8]) -> Result<(), ReadFailed> {
        if self.is_to_fail() {
            self.failures.add();
            return Err(ReadFailed);
        }
        buf.fill(0);
        let given = usize::try_from(offset).ok();
        patch(
            buf,
            0,
            given.and_then(|at| self.bytes.get(at..)).unwrap_or(&[]),
        );
        Ok(())
    }
}

// What a database's bytes are read from.
ghost use Rattle.std.specs.Prelude.{◌≡◌, length, IfSome, IfOk, OnOk};
ghost use Rattle.dbsource.specs.Answers.{IsRangeOf, answer};
ghost use Rattle.dbsource.specs.Failures.{failures_after, is_any};
ghost use Rattle.dbsource.specs.Sources.{AreBytes};

use thiserror::Error;

/// A read, or a question for the length, that failed.
#[derive(Clone, Copy, Debug, Error, PartialEq, Eq)]
#[error("the source cannot be read")]
pub struct ReadFailed;

/// Where the bytes of a database are read, range by range.
pub trait Source {
    ghost use Rattle.dbsource.specs.Answers.{Lengths, Step};
    ghost use Rattle.dbsource.specs.Sources.{SourceState};

    // Its told bytes, if it has any, what it keeps of the requested ranges, and its failures.
    ghost held: { Self → SourceState };
    // What the answer to a read makes of the trail.
    ghost step: { Step };
    // Which lengths it may answer, by the trail. So where only the trait is known of a source, a length in a contract
    // is one that it answered.
    ghost lengths: { Lengths };

    /// The number of bytes.
    ///
    /// # Errors
    ///
    /// [`ReadFailed`] where the length is not known; one failure is counted then.
    fn len(&mut self) -> Result<u64, ReadFailed>
        ensures told { (held self.new).bytes ≡ (held self.old).bytes }
        ensures trail { (held self.new).trail ≡ (held self.old).trail }
        ensures count { (held self.new).failures ≡ failures_after is_any result (held self.old).failures }
        ensures length { IfOk result (lengths (held self.old).trail) }
        ensures number { IfOk result (λ n. IfSome (held self.old).bytes (λ bytes. n ≡ length bytes)) }
        ensures bytes { IfSome (held self.old).bytes AreBytes };

    /// Reads as many bytes as `buf` has, from `offset` on.
    ///
    /// # Errors
    ///
    /// [`ReadFailed`] where not all of them could be read. One failure is counted then, and the contents of `buf` are
    /// unspecified.
    fn read_at(&mut self, offset: u64, buf: &mut [u8]) -> Result<(), ReadFailed>
        ensures told { (held self.new).bytes ≡ (held self.old).bytes }
        ensures trail { step (held self.old).trail (answer result offset buf.new) (held self.new).trail }
        ensures count { (held self.new).failures ≡ failures_after is_any result (held self.old).failures }
        ensures bytes { OnOk result (IfSome (held self.old).bytes (λ bytes. IsRangeOf bytes offset buf.new)) };
}

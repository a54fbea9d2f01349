// What is claimed of files that were read.
ghost use Rattle.dbsource.specs.Snapshots.{PatchedFileIsRead, ToldFileIsRead};
ghost use Rattle.dbsource.specs.Sources.{SourceState};

use crate::Source;
use std::marker::Brand;

/// What may be claimed of a file that was read. Only proofs use it.
pub trait Claim {
    ghost use Rattle.std.specs.Prelude.{ℕ, List};
    ghost use Rattle.dbformat.specs.declared.ByteRange.{ByteRange};

    // What is claimed of the requested ranges, whatever the file.
    ghost asks: { List ByteRange → Type 0 };
    // What is claimed of a file and of the requested ranges.
    ghost holds: { List ℕ → List ByteRange → Type 0 };
}

// The default claim: nothing.
impl Claim for Brand {
    ghost asks = { λ ranges. Unit {0} };

    ghost holds = { λ file ranges. Unit {0} };
}

/// Whatever is claimed of each file that agrees with what was read holds of a source's told bytes, as of memory. They do not
/// change, and if they are too few for a header, nothing was read. So a run over a file in memory is a run over its bytes.
pub fn told_files_are_read<S: Source, C: Claim>()
    ensures { (old new : SourceState) → ToldFileIsRead S.step S.lengths C.asks C.holds old new }
{}

/// What a run over [`Patched`](crate::Patched) read, it read of the source below: of each file that agrees with what that answered,
/// whatever is claimed of a file that was read is so of the file with the changes.
pub fn patched_files_are_read<S: Source, C: Claim>()
    ensures { (old new : SourceState) → PatchedFileIsRead S.step S.lengths C.asks C.holds old new }
{}

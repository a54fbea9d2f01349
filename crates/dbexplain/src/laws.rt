// The laws of `explain`: what its summary counts, and what a run says of a source whose bytes are known.
ghost use Rattle.std.specs.Prelude.{ℕ, List};
ghost use Rattle.dbformat.specs.Reference.{Reference};
ghost use Rattle.dbformat.specs.Survey.{Survey};
ghost use Rattle.dbtrace.specs.declared.TracedFault.{TracedFault};
ghost use Rattle.dbexplain.specs.Runs.{ToldFilesAreExplained};
ghost use Rattle.dbexplain.specs.Summary.{CodesAddUp, StartsAddUp};

use dbsource::Source;

/// The summary counts each fault once by its code, and once at its start or as one of the whole file: the numbers of the codes add
/// up to the number of all faults, and so do those of the starts and of the whole file.
pub fn summary_counts_all_faults()
    ensures codes { (ts : List TracedFault) → CodesAddUp ts }
    ensures starts { (file : List ℕ) (V : List Reference) → Survey file V → StartsAddUp file V }
{}

/// What [`explain`](crate::explain) says of each file that agrees with what was read is so of the bytes that a source tells, as
/// memory does: the report is theirs, and `Clean` is the answer exactly where they are sound.
pub fn told_files_are_explained<S: Source>()
    ensures { ToldFilesAreExplained S.step S.lengths }
{}

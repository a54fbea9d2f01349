// The laws of the starts and the causes that faults are reported with.
ghost use Rattle.std.specs.Prelude.{◌≡◌, ℕ, List};
ghost use Rattle.dbsurvey.specs.Address.{IsIn};
ghost use Rattle.dbformat.specs.Reference.{Reference};
ghost use Rattle.dbformat.specs.Report.{faults};
ghost use Rattle.dbformat.specs.Survey.{Survey};
ghost use Rattle.dbtrace.specs.declared.TracedFault.{TracedFault};
ghost use Rattle.dbscan.specs.Notices.{run_notices, start_notices};
ghost use Rattle.dbscan.specs.Placed.{AreStarts, IsOfStart, StartsRise, faults_of, reported_in, reported_faults, walk_reported};

/// At the starts, in their order, each fault of the walk is reported with its cause, which the whole survey decides. With the header's
/// faults before and those at the end after, whose cause is `Itself`, these are all faults of the file.
pub fn faults_are_reported_with_their_causes()
    ensures reported { (file : List ℕ) (V : List Reference) → Survey file V → reported_in (start_notices file V) ≡ walk_reported file V }
    ensures received { (file : List ℕ) (V : List Reference) → Survey file V → reported_in (run_notices file V) ≡ reported_faults file V }
    ensures rising { (file : List ℕ) (V : List Reference) → StartsRise (start_notices file V) }
    ensures starts { (file : List ℕ) (V : List Reference) → AreStarts (start_notices file V) }
    ensures all { (file : List ℕ) (V : List Reference) → faults_of (reported_faults file V) ≡ faults file V }
{}

/// A fault that is reported at a start is of a page that was reached from there, if it is of a page at all; and the start is one of the
/// file.
pub fn faults_are_of_reached_pages()
    ensures { (file : List ℕ) (V : List Reference) → Survey file V → (t : TracedFault) → IsIn t (reported_faults file V) → IsOfStart file V t }
{}

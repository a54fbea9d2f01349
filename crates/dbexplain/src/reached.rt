// The pages that were reached from each start, and those of them that have a fault.
ghost use Rattle.std.specs.Prelude.{ℕ, List};
ghost use Rattle.dbformat.specs.File.{geometry};
ghost use Rattle.dbformat.specs.Reference.{Reference};
ghost use Rattle.dbtrace.specs.declared.TracedFault.{TracedFault};
ghost use Rattle.dbexplain.specs.Notes.{AreOwnersOf};
ghost use Rattle.dbexplain.specs.Tallies.{IsTallyOf, IsTallyTo};

use crate::owners::Owners;
use crate::tally::Tally;
use std::alloc::Allocator;

/// Counts all pages of a file, each at the start that it was reached from.
pub(crate) fn count_pages<A: Allocator>(tally: &mut Tally<A>, owners: &Owners<'_, A>)
    ensures { (file : List ℕ) (V : List Reference) (ts : List TracedFault) → AreOwnersOf owners.now file V
        → IsTallyOf (geometry file).pages ts tally.old → IsTallyTo (geometry file).pages V ts (geometry file).pages tally.new }
{
    for index in 0..owners.marks.pages() {
        match owners.trees.start_of(owners.marks, index + 1) {
            Some(start) => tally.count_page(start, index + 1),
            None => {}
        }
    }
}

// The reference to a page of a tree, and what is done where that page is visited.
ghost use Rattle.std.specs.Prelude.{◌≡◌, ℕ, ◌<◌, List, length, false, IfOk, IsTrue};
ghost use Rattle.dbformat.specs.FixedPages.{IsPageNumber};
ghost use Rattle.dbformat.specs.Reference.{Reference};
ghost use Rattle.dbformat.specs.declared.TreeKind.{TreeKind};
ghost use Rattle.dbwalk.specs.Underway.{IsEntered, entered};
ghost use Rattle.dbwalk.specs.Walked.{Does, SaysOfFiles, Walked};
ghost use Rattle.dbwalk.specs.Watching.{fails, watches};
ghost use Rattle.dbwalk.specs.Walking.{IsCandidate, IsOpen};
ghost use Rattle.dbwalk.specs.Entered.{IsStepOf};
ghost use Rattle.dbmarks.specs.Marking.{IsUse, named_page};
ghost use Rattle.dbwalk.specs.Points.{AtPage};

use crate::entering::Step;
use crate::page_report::{PageFound, report_page};
use crate::tree_walk::TreeWalk;
use crate::{Mark, Sink, Taker};
use dbsource::{Bench, RunError, Source};
use std::alloc::Allocator;

/// The reference from item `item` of page `from` to a page of a tree; `level` pages of the tree are above that page.
pub(crate) fn tree_step(level: usize, page: u32, from: u32, item: u32) -> Step
    requires { IsPageNumber from }
    ensures page { result.page ≡ page }
    ensures used { IsUse result.mark }
    ensures named { IsPageNumber (named_page result.mark) }
    ensures shallow { result.is_too_deep ≡ false → level < 20 }
    ensures step { (kind : TreeKind) (k : ℕ) (children : List ℕ) (c : Reference) → length children ≡ level
        → IsCandidate kind k children page from item c → IsStepOf result c }
{
    let mark = if level == 0 {
        Mark::Root
    } else {
        Mark::Child(from)
    };
    Step {
        page,
        mark,
        from,
        item,
        is_too_deep: level >= 20,
    }
}

impl<A: Allocator, S: Source, K: Sink, T: Taker> TreeWalk<'_, '_, '_, '_, A, S, K, T> {
    /// Reports a page of a tree that was marked, and read at the level of the tree's path; `up_to` is the key of the innermost
    /// cell whose left child leads to it. If it is a leaf, walks over its cells. True if it is an undamaged interior page.
    ///
    /// # Errors
    ///
    /// [`RunError::ReadFailed`] exactly where the source failed, [`RunError::WriteFailed`] where the sink was found shut,
    /// [`RunError::OutOfMemory`] exactly where the taker was refused memory.
    pub(crate) fn visit_page(
        &mut self,
        bench: &mut Bench<A>,
        page: u32,
        up_to: Option<i64>,
    ) -> Result<bool, RunError>
        requires { (length self.old.tree.path.items < 20) × IsPageNumber page }
        ensures walked { Walked S.held K.held T.refusals result bench.old.geometry bench.new.geometry self.old self.new }
        ensures levels { bench.new.levels ≡ bench.old.levels }
        ensures path { self.new.tree.path ≡ self.old.tree.path }
        ensures log { SaysOfFiles S.step S.held bench.old.geometry self.old self.new (λ file. AtPage file bench.old.levels page up_to self.old (λ from c.
            Does (watches K.takes T.takes) (fails T.refuses) file (entered file from c result) result self.old self.new
            × IsEntered file from c result bench.new.levels)) }
        ensures open { IfOk result (λ yes. IsTrue yes
            → IsOpen bench.new.geometry.usable self.new.tree.kind bench.new.levels (length self.old.tree.path.items) page 0) }
    {
        match report_page(bench, &mut self.tree, page, up_to, self.sink) {
            PageFound::Interior => Ok(true),
            PageFound::Damaged => Ok(false),
            PageFound::Leaf(keys) => {
                if self.tree.pass_over(keys, page) {
                    return Ok(false);
                }
                let shape = bench.geometry();
                let (bytes, buffer) = bench.chain(self.tree.path.len());
                self.walk_leaf(bytes, buffer, shape, page)?;
                Ok(false)
            }
        }
    }
}

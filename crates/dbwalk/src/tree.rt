// The walk over one tree (Database File Format, 1.6).
ghost use Rattle.std.specs.Prelude.{◌≡◌, ◌≤◌, [], ◌↔◌, List, None, IfErr, OnOk, false};
ghost use Rattle.dbformat.specs.FixedPages.{IsPageNumber};
ghost use Rattle.dbformat.specs.Address.{schema_start};
ghost use Rattle.dbformat.specs.File.{geometry as shape_of};
ghost use Rattle.dbformat.specs.Header.{encoding as encoding_of};
ghost use Rattle.dbformat.specs.Reference.{Reference};
ghost use Rattle.dbsource.specs.Errors.{is_out_of_memory, is_read_failed, is_write_failed};
ghost use Rattle.dbsource.specs.Failures.{failures_after};
ghost use Rattle.dbsource.specs.Sources.{Asks};
ghost use Rattle.dbwalk.specs.Reporting.{IsReadOrWrite, IsReadWriteOrMemory, SinkAfter};
ghost use Rattle.dbmarks.specs.Reads.{Reads};
ghost use Rattle.dbwalk.specs.Roots.{IsRootAfter};
ghost use Rattle.dbwalk.specs.Points.{AtRoot};
ghost use Rattle.dbwalk.specs.Walked.{Does, SaysOfFiles, Walked};
ghost use Rattle.dbwalk.specs.Underway.{tree_walk};
ghost use Rattle.dbwalk.specs.Watching.{fails, watches};
ghost use Rattle.dbwalk.specs.Done.{IsTreeDone};
ghost use Rattle.dbwalk.specs.declared.root.RootKind.TheVariants as root_kind;

use crate::entering::{all_rows, ask, enter};
use crate::page_entry::tree_step;
use crate::root::{Root, root_kind};
use crate::state::Tree;
use crate::steps::{StackFrame, step_of};
use crate::tree_walk::TreeWalk;
use crate::{Marks, Sink, Taker};
use arrayvec::ArrayVec;
use dbsource::{Bench, RunError, Source};
use std::alloc::Allocator;

impl<A: Allocator, S: Source, K: Sink, T: Taker> TreeWalk<'_, '_, '_, '_, A, S, K, T> {
    // Walks over the pages of a tree whose root was marked, and read at level 0. No page of the tree was visited before. At Ok the
    // sink is open.
    fn walk_pages(&mut self, bench: &mut Bench<A>, page: u32) -> Result<(), RunError>
        requires { IsPageNumber page × (self.old.tree.greatest ≡ None) × (self.old.tree.leaf ≡ None) × (self.old.tree.path.items ≡ []) }
        ensures walked { Walked S.held K.held T.refusals result bench.old.geometry bench.new.geometry self.old self.new }
        ensures open { OnOk result ((K.held self.new.sink.now).is_shut ≡ false) }
        ensures log { SaysOfFiles S.step S.held bench.old.geometry self.old self.new (λ file. AtRoot file bench.old.levels page self.old (λ W c.
            Does (watches K.takes T.takes) (fails T.refuses) file (tree_walk file W c) result self.old self.new)) }
    {
        if !self.visit_page(bench, page, None)? {
            return ask(self.sink);
        }
        let mut frames: ArrayVec<StackFrame, 20> = ArrayVec::new();
        frames.push(StackFrame {
            page,
            next: 0,
            up_to: None,
        });
        while let Some(frame) = frames.pop() {
            let (frame, next) = step_of(bench, self.tree.kind, frames.len(), frame);
            self.take_step(bench, &mut frames, frame, next)?;
        }
        ask(self.sink)
    }
}

/// Walks over the tree of a root, and marks and reports all that is below it. Each page is marked and then read, once. A root that may not
/// be followed is reported. The rows of the schema that can be read go to the taker, in their order, each before its faults are reported:
/// S04 if and only if the taker answered [`Taken::Full`]. Only the walk over the schema's tree calls the taker.
///
/// All trees of a file share one [`Marks`] and one [`Bench`]: a page that a walk over one tree has marked is R03 in every other. Do not
/// make new marks for each tree: two trees could then own one page.
///
/// # Errors
///
/// [`RunError::ReadFailed`] exactly where the source failed, [`RunError::WriteFailed`] exactly where the sink failed,
/// [`RunError::OutOfMemory`] exactly where the taker was refused memory. The sink and the taker got a prefix then: nothing was reported of
/// a row that the taker was refused memory for. The sink is shut after [`RunError::WriteFailed`], and after no other error. No page is read
/// after that, and the taker is not called (tested; no clause says it). Which pages are marked is not specified.
pub fn walk_tree<A: Allocator, S: Source, K: Sink, T: Taker>(
    source: &mut S,
    bench: &mut Bench<A>,
    marks: &mut Marks<A>,
    root: Root,
    taker: &mut T,
    sink: &mut K,
) -> Result<(), RunError>
    requires schema { (root.kind ≡ root_kind.Schema) ↔ (root.start ≡ schema_start) }
    requires open { (K.held sink.old).is_shut ≡ false }
    ensures shape { bench.new.geometry ≡ bench.old.geometry }
    ensures asks { Asks S.step (Reads bench.old.geometry.page_size marks.old marks.new) (λ file. bench.old.geometry ≡ shape_of file
        → root.encoding ≡ encoding_of file → (W : List Reference) (c : Reference) → IsRootAfter file root W c marks.old
        → IsTreeDone K.takes T.takes T.refuses file W c result marks.new (sink.old, taker.old) (sink.new, taker.new))
        is_read_failed result (S.held source.old) (S.held source.new) }
    ensures writes { SinkAfter is_write_failed result (K.held sink.old) (K.held sink.new) }
    ensures shut { IfErr result (λ e. (K.held sink.new).is_shut ≡ is_write_failed e) }
    ensures refusals { T.refusals taker.new ≡ failures_after is_out_of_memory result (T.refusals taker.old) }
    ensures only { IfErr result IsReadWriteOrMemory }
    ensures others { 1 ≤ root.start → (taker.new ≡ taker.old) × IfErr result IsReadOrWrite }
{
    let step = tree_step(0, root.page, 0, root.start);
    if !enter(marks, step, all_rows, sink)? {
        return ask(sink);
    }
    bench.load(0, source, root.page)?;
    let tree = Tree::new(root.start, root_kind(bench, root));
    let mut walk = TreeWalk {
        source,
        marks,
        taker,
        sink,
        tree,
        encoding: root.encoding,
    };
    walk.walk_pages(bench, root.page)
}

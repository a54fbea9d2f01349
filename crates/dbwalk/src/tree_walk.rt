// One walk over a tree, and a turn of it: a step of the last frame.
ghost use Rattle.std.specs.Prelude.{◌≡◌, ◌++◌, [], ◌∷◌, OnOk};
ghost use Rattle.dbtrace.specs.declared.Cause.TheVariants as cause;
ghost use Rattle.dbwalk.specs.Walked.{SaysOfFiles, Walked};
ghost use Rattle.dbwalk.specs.Watching.{fails, watches};
ghost use Rattle.dbwalk.specs.declared.steps.Next.TheVariants.{Child};
ghost use Rattle.dbwalk.specs.Points.{IsAtTurn, LeavesFrames, TakesTurn};

use crate::chain::{Chain, walk_unfed};
use crate::entering::enter;
use crate::page_entry::tree_step;
use crate::state::{Tree, key_value};
use crate::steps::{Next, StackFrame, left_rows};
use crate::{Cause, CellKey, Marks, RowidBounds, Sink, Taker};
use arrayvec::ArrayVec;
use dbformat::Encoding;
use dbsource::{Bench, RunError, Source};
use std::alloc::Allocator;

/// What a walk over one tree borrows, and its state. The bench of page buffers is passed beside it from call to call.
#[derive(Drop)]
pub(crate) struct TreeWalk<'s, 'm, 't, 'k, A: Allocator, S: Source, K: Sink, T: Taker> {
    pub(crate) source: &'s mut S,
    pub(crate) marks: &'m mut Marks<A>,
    pub(crate) taker: &'t mut T,
    pub(crate) sink: &'k mut K,
    pub(crate) tree: Tree,
    /// How the texts of the file are encoded.
    pub(crate) encoding: Encoding,
}

impl<A: Allocator, S: Source, K: Sink, T: Taker> TreeWalk<'_, '_, '_, '_, A, S, K, T> {
    // Looks at the reference to the child at the step of a frame that was taken from the stack; `key` is that of the cell whose left
    // child it is. Reports that the reference is refused, or marks, reads and reports the page, and, if it is a leaf, all that it leads
    // to. The frame goes back with its next step, and an undamaged interior page gets a frame of its own.
    fn enter_child(
        &mut self,
        bench: &mut Bench<A>,
        frames: &mut ArrayVec<StackFrame, 20>,
        frame: StackFrame,
        page: u32,
        key: Option<i64>,
    ) -> Result<(), RunError>
        requires { IsAtTurn bench.old.geometry.usable self.old.tree.kind bench.old.levels self.old.tree.path.items frames.old.items frame (Child page key) }
        ensures walked { Walked S.held K.held T.refusals result bench.old.geometry bench.new.geometry self.old self.new }
        ensures left { OnOk result (LeavesFrames bench.new.geometry.usable bench.new.levels frames.old.items frame frames.new.items
            self.old.marks.now self.new.marks.now self.new.tree) }
        ensures log { SaysOfFiles S.step S.held bench.old.geometry self.old self.new (λ file. TakesTurn (watches K.takes T.takes) (fails T.refuses) file result
            (frames.old.items ++ (frame ∷ []), bench.old.levels) self.old (frames.new.items, bench.new.levels) self.new) }
    {
        let cell = frame.next / 3;
        let up_to = key.or(frame.up_to);
        let above = key_value(self.tree.greatest);
        let cause = || -> Cause
            ensures { result ≡ cause.Rows (record { above = above; up_to = up_to }) }
        { Cause::Rows(RowidBounds { above, up_to }) };
        frames.push(frame.stepped());
        let level = frames.len();
        let step = tree_step(level, page, frame.page, cell);
        if !enter(self.marks, step, cause, self.sink)? {
            return Ok(());
        }
        bench.load(level, self.source, page)?;
        self.tree.path.push(cell);
        if !self.visit_page(bench, page, up_to)? {
            let _ = self.tree.path.pop();
            return Ok(());
        }
        frames.push(StackFrame {
            page,
            next: 0,
            up_to,
        });
        Ok(())
    }

    /// One turn: what was found at the step of a frame that was taken from the stack.
    ///
    /// # Errors
    ///
    /// [`RunError::ReadFailed`] exactly where the source failed, [`RunError::WriteFailed`] where the sink was found shut,
    /// [`RunError::OutOfMemory`] exactly where the taker was refused memory.
    pub(crate) fn take_step(
        &mut self,
        bench: &mut Bench<A>,
        frames: &mut ArrayVec<StackFrame, 20>,
        frame: StackFrame,
        next: Next,
    ) -> Result<(), RunError>
        requires { IsAtTurn bench.old.geometry.usable self.old.tree.kind bench.old.levels self.old.tree.path.items frames.old.items frame next }
        ensures walked { Walked S.held K.held T.refusals result bench.old.geometry bench.new.geometry self.old self.new }
        ensures left { OnOk result (LeavesFrames bench.new.geometry.usable bench.new.levels frames.old.items frame frames.new.items
            self.old.marks.now self.new.marks.now self.new.tree) }
        ensures log { SaysOfFiles S.step S.held bench.old.geometry self.old self.new (λ file. TakesTurn (watches K.takes T.takes) (fails T.refuses) file result
            (frames.old.items ++ (frame ∷ []), bench.old.levels) self.old (frames.new.items, bench.new.levels) self.new) }
    {
        match next {
            Next::End => {
                // The path ends at the page above.
                let _ = self.tree.path.pop();
                Ok(())
            }
            Next::Nothing => {
                frames.push(frame.stepped());
                Ok(())
            }
            Next::Key(key) => {
                let left = left_rows(bench, &self.tree, frames.len(), frame, key);
                frames.push(frame.stepped());
                let at = CellKey {
                    page: frame.page,
                    item: frame.next / 3,
                    value: key,
                };
                self.tree.report_key(at, false, Some(left), self.sink);
                Ok(())
            }
            Next::Chain { first, left, rowid } => {
                frames.push(frame.stepped());
                let chain = Chain {
                    start: self.tree.start,
                    usable: bench.geometry().usable,
                    path: self.tree.path.as_slice(),
                    page: frame.page,
                    cell: frame.next / 3,
                    rowid,
                    first,
                    left,
                };
                walk_unfed(self.source, bench, self.marks, &chain, self.sink)
            }
            Next::Child { page, key } => self.enter_child(bench, frames, frame, page, key),
        }
    }
}

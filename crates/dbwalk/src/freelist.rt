// The walk along the freelist (Database File Format, 1.5).
ghost use Rattle.std.specs.Prelude.{◌≡◌, ℕ, ◌+◌, ◌*◌, ◌≤◌, ◌<◌, List, [], ◌∷◌, ◌++◌, length, IfSome, IfOk, IfErr, false, true};
ghost use Rattle.dbsurvey.specs.Story.{Errand, Go};
ghost use Rattle.dbsurvey.specs.Traverse.{is_followed};
ghost use Rattle.dbformat.specs.Errands.{leaf_errands};
ghost use Rattle.dbformat.specs.File.{geometry, page_bytes};
ghost use Rattle.dbformat.specs.Header.{usable_size};
ghost use Rattle.dbformat.specs.Numbers.{u32_at};
ghost use Rattle.dbformat.specs.Reference.{trunk, Way, Reference, role_of};
ghost use Rattle.dbformat.specs.Survey.{rules_of};
ghost use Rattle.dbformat.specs.Story.{Event};
ghost use Rattle.dbsource.specs.declared.error.RunError.TheVariants as run_error;
ghost use Rattle.dbwalk.specs.Beside.{IsPageBuffer, Turns, WalksBeside};
ghost use Rattle.dbwalk.specs.Done.{IsDone};
ghost use Rattle.dbwalk.specs.Entered.{IsNext};
ghost use Rattle.dbwalk.specs.Trunks.{LeavesErrands, IsFirstTrunk, IsOnTrunks, OpensTrunk, next_step};
ghost use Rattle.dbwalk.specs.Underway.{HasDone, IsAt, IsUnderway, done_below};
ghost use Rattle.dbwalk.specs.Watching.{fed, never};
ghost use Rattle.dbwalk.specs.declared.state.Tree.{Tree};
ghost use Rattle.dbtrace.specs.Walk.{Walk};
ghost use Rattle.dbmarks.specs.Marking.{AreMarksOf, KeepsMarks, unmarked_pages};
ghost use Rattle.dbwalk.specs.Reporting.{IsReadOrWrite, SinkAfter, SinkWalks};
ghost use Rattle.dbmarks.specs.Reads.{Reads};
ghost use Rattle.dbmarks.specs.declared.marks.Mark.{Mark};
ghost use Rattle.dbmarks.specs.declared.marks.Mark.TheVariants as use_mark;
ghost use Rattle.dbsource.specs.Errors.{is_read_failed, is_write_failed};
ghost use Rattle.dbsource.specs.Sources.{Asks};

use crate::beside::enter_beside;
use crate::entering::{Step, ask, enter, itself};
use crate::{Cause, Fault, Mark, Marks, Sink};
use dbformat::{FREELIST_START, FaultCode, u32_at};
use dbsource::{Bench, RunError, Source};
use std::alloc::Allocator;

/// Enters the leaves of a trunk, one after another, by the bytes of its page: marks each, or reports why it may not be
/// followed.
///
/// # Errors
///
/// [`RunError::WriteFailed`] where the sink was found shut.
pub(crate) fn walk_leaves<K: Sink, A: Allocator>(
    bytes: &[u8],
    marks: &mut Marks<A>,
    page: u32,
    count: u32,
    sink: &mut K,
) -> Result<(), RunError>
    requires within { 8 + 4 * count ≤ length bytes.now }
    requires few { count ≤ 16384 }
    ensures keeps { KeepsMarks marks.old marks.new }
    ensures writes { SinkWalks result (K.held sink.old) (K.held sink.new) }
    ensures only { IfErr result (λ e. e ≡ run_error.WriteFailed) }
    ensures done { (file : List ℕ) (whole : Walk) (before : K) (now : Walk) (d : Reference) (tail : List (Errand Way Event)) (tree : Tree)
        → d.page ≡ page → IsUnderway (fed K.takes) file whole before now (leaf_errands d bytes.now count ++ tail) (marks.old, tree) sink.old
        → LeavesErrands K.takes file whole before (λ u. tail) result (marks.new, tree) sink.new }
{
    for index in 0..count {
        let step = Step {
            page: u32_at(bytes, 8 + 4 * index),
            mark: Mark::FreeLeaf,
            from: page,
            item: index,
            is_too_deep: false,
        };
        enter(marks, step, itself, sink)?;
    }
    Ok(())
}

// Enters the leaves of a trunk, or reports that they are too many, and answers the item of the next trunk.
fn open_trunk<K: Sink, A: Allocator>(
    bytes: &[u8],
    usable: u32,
    marks: &mut Marks<A>,
    page: u32,
    sink: &mut K,
) -> Result<u32, RunError>
    requires usable { (480 ≤ usable) × (usable ≤ 65536) × (usable ≤ length bytes.now) }
    ensures keeps { KeepsMarks marks.old marks.new }
    ensures writes { SinkWalks result (K.held sink.old) (K.held sink.new) }
    ensures only { IfErr result (λ e. e ≡ run_error.WriteFailed) }
    ensures opened { (file : List ℕ) (whole : Walk) (before : K) (now : Walk) (d : Reference) (old : List Mark) (tree : Tree)
        → d.page ≡ page → role_of d ≡ trunk → bytes.now ≡ page_bytes file page → usable ≡ usable_size file → is_followed (rules_of file) now.visits d ≡ true
        → AreMarksOf file (now.visits ++ d ∷ []) marks.old → IsUnderway (fed K.takes) file whole before now (Go d ∷ []) (old, tree) sink.old
        → OpensTrunk K.takes file whole before d result (marks.new, tree) sink.new }
{
    let count = u32_at(bytes, 4);
    if count <= usable / 4 - 2 {
        walk_leaves(bytes, marks, page, count, sink)?;
        Ok(count)
    } else {
        let fault = Fault::new(FaultCode::L01, page, 0, count);
        sink.fault(&fault, &Cause::Itself);
        Ok(0)
    }
}

// The next trunk, if there is one.
fn next_trunk(bytes: &[u8], page: u32, item: u32) -> Option<Step>
    requires { 4 ≤ length bytes.now }
    ensures { result ≡ next_step (u32_at 0 bytes.now) page item }
{
    let next = u32_at(bytes, 0);
    if next == 0 {
        return None;
    }
    Some(Step {
        page: next,
        mark: Mark::Trunk,
        from: page,
        item,
        is_too_deep: false,
    })
}

// Goes on by one trunk, if the next one may be followed.
fn enter_trunk<S: Source, K: Sink, A: Allocator>(
    source: &mut S,
    buffer: &mut [u8],
    usable: u32,
    marks: &mut Marks<A>,
    step: Step,
    sink: &mut K,
) -> Result<Option<Step>, RunError>
    requires mark { step.mark ≡ use_mark.Trunk }
    requires buffer { IsPageBuffer usable buffer.old }
    ensures walks { WalksBeside S.step result (S.held source.old) (S.held source.new) (K.held sink.old) (K.held sink.new) (length buffer.old)
        marks.old marks.new (λ file. usable ≡ usable_size file
        → (whole : Walk) (before : K) (tree : Tree) → IsOnTrunks K.takes file whole before step (marks.old, tree) sink.old
        → Turns K.takes file whole before (λ next. IsOnTrunks K.takes file whole before next (marks.new, tree) sink.new) Unit result
        (marks.new, tree) sink.new) }
    ensures trunk { IfOk result (λ o. IfSome o (λ next. next.mark ≡ use_mark.Trunk)) }
    ensures less { IfOk result (λ o. IfSome o (λ next. unmarked_pages marks.new < unmarked_pages marks.old)) }
{
    if !enter_beside(source, buffer, marks, step, None, sink)? {
        return Ok(None);
    }
    let bytes = &*buffer;
    let item = open_trunk(bytes, usable, marks, step.page, sink)?;
    Ok(next_trunk(bytes, step.page, item))
}

// Walks along the trunks from the first one, each read into the buffer.
fn walk_trunks<S: Source, K: Sink, A: Allocator>(
    source: &mut S,
    buffer: &mut [u8],
    usable: u32,
    marks: &mut Marks<A>,
    first: u32,
    sink: &mut K,
) -> Result<(), RunError>
    requires buffer { IsPageBuffer usable buffer.old }
    ensures walks { WalksBeside S.step result (S.held source.old) (S.held source.new) (K.held sink.old) (K.held sink.new) (length buffer.old)
        marks.old marks.new (λ file. usable ≡ usable_size file → (from : Walk) (c : Reference) (tree : Tree) → IsFirstTrunk first c
        → IsNext from.visits c → IsAt file from marks.old tree
        → HasDone (fed K.takes) never file (done_below file from (Go c ∷ [])) result (marks.new, tree) sink.old sink.new) }
{
    let mut step = Step {
        page: first,
        mark: Mark::Trunk,
        from: 0,
        item: FREELIST_START,
        is_too_deep: false,
    };
    while let Some(next) = enter_trunk(source, buffer, usable, marks, step, sink)? {
        step = next;
    }
    Ok(())
}

/// Walks along the freelist from its first trunk: marks each trunk and then reads it, and marks its leaves, which are not read.
/// Reports the faults on the way.
///
/// # Errors
///
/// [`RunError::ReadFailed`] exactly where the source failed, [`RunError::WriteFailed`] exactly where the sink failed: it is shut then, and
/// no page is read after that (tested; no clause says it). It got a prefix of what is reported otherwise.
pub fn walk_freelist<S: Source, K: Sink, A: Allocator>(
    source: &mut S,
    bench: &mut Bench<A>,
    marks: &mut Marks<A>,
    first: u32,
    sink: &mut K,
) -> Result<(), RunError>
    requires open { (K.held sink.old).is_shut ≡ false }
    ensures asks { Asks S.step (Reads bench.old.geometry.page_size marks.old marks.new) (λ file. bench.old.geometry ≡ geometry file
        → (W : List Reference) (c : Reference) → IsFirstTrunk first c → IsNext W c → AreMarksOf file W marks.old
        → IsDone K.takes file W (Go c ∷ []) result marks.new sink.old sink.new)
        is_read_failed result (S.held source.old) (S.held source.new) }
    ensures writes { SinkAfter is_write_failed result (K.held sink.old) (K.held sink.new) }
    ensures shut { IfErr result (λ e. (K.held sink.new).is_shut ≡ is_write_failed e) }
    ensures only { IfErr result IsReadOrWrite }
    ensures bench { bench.new ≡ record bench.old { chain = bench.new.chain } }
{
    let usable = bench.geometry().usable;
    let (_, buffer) = bench.chain(0);
    walk_trunks(source, buffer, usable, marks, first, sink)?;
    ask(sink)
}

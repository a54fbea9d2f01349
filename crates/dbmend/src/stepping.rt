// One change more.
ghost use Rattle.std.specs.Prelude.{◌≤◌, IfSome, length};
ghost use Rattle.dbmend.specs.Deeds.{HasDone, runs_in};
ghost use Rattle.dbmend.specs.Sizes.{SearchFitsInMemory};
ghost use Rattle.dbmend.specs.Trials.{IsStep, WasThere};

use crate::choosing::candidates;
use crate::counting::Findings;
use crate::edit::{Edit, Edits};
use crate::known::Known;
use crate::looking::look_at;
use crate::ranked::Tries;
use crate::refused::reading_tries;
use crate::trying::best_of;
use dbsource::{ReadFailed, RunError, Source};
use std::alloc::Allocator;

// A change that leaves fewer faults than there were, what was there before it, and what the run with it found.
#[derive(Drop)]
pub(crate) struct Step<A: Allocator> {
    pub(crate) edit: Edit,
    pub(crate) was: Edit,
    pub(crate) found: Findings<A>,
    // How many edits may have been tried for it.
    pub(crate) tried: usize,
}

// The bytes of the file where an edit puts others.
fn look_before<S: Source>(edit: &Edit, source: &mut S) -> Result<Edit, RunError>
    ensures { HasDone S.Source result 0 0 (λ was deeds. WasThere edit.now was.bytes deeds) source.old source.new }
{
    let mut was = [0u8; 16];
    let bytes = &mut was[..edit.bytes().len()];
    look_at(source, edit.offset(), bytes)?;
    Ok(Edit::new(edit.offset(), bytes))
}

// The edits that are worth a trial, by what a run found. That is let go.
fn tries_of<A: Allocator + Copy, S: Source>(
    alloc: A,
    before: &Edits,
    known: Known<A>,
    source: &mut S,
) -> Result<Tries, RunError>
    requires fits { SearchFitsInMemory A.row A.Allocator }
    ensures { HasDone S.Source result 0 0 (λ tries deeds. Unit {0}) source.old source.new }
{
    match &known.findings {
        Some(found) => candidates(alloc, before.as_slice(), found, source),
        None => Ok(reading_tries()),
    }
}

// The first `most` of them, or all.
fn first_of(tries: &Tries, most: usize) -> &[Edit]
    ensures { length result.now ≤ most }
{
    let all = tries.as_slice();
    &all[..all.len().min(most)]
}

// The change that helps most after some others, by what the run with these found; `most` edits are tried at most.
pub(crate) fn next_step<A: Allocator + Copy, S: Source>(
    alloc: A,
    before: &Edits,
    known: Known<A>,
    most: usize,
    source: &mut S,
) -> Result<Option<Step<A>>, RunError>
    requires fits { SearchFitsInMemory A.row A.Allocator }
    ensures { HasDone S.Source result most 0
        (λ o deeds. IfSome o (λ s. IsStep before.now.items known.faults s.edit s.was.bytes s.found.count deeds
        × (runs_in deeds ≤ s.tried) × (s.tried ≤ most))) source.old source.new }
{
    let faults = known.faults;
    let tries = tries_of(alloc, before, known, source)?;
    let first = first_of(&tries, most);
    let best = best_of(alloc, before, first, faults, source)?;
    let Some(best) = best else {
        return Ok(None);
    };
    let was = look_before(&best.edit, source)?;
    Ok(Some(Step {
        edit: best.edit,
        was,
        found: best.found,
        tried: first.len(),
    }))
}

// Trials of edits: a run with each.
ghost use Rattle.std.specs.Prelude.{◌≡◌, ◌≤◌, ◌++◌, [], ◌∷◌, length, IfSome};
ghost use Rattle.dbscan.specs.DeskSizes.{DeskFitsInMemory};
ghost use Rattle.dbmend.specs.Deeds.{HasDone};
ghost use Rattle.dbmend.specs.Trials.{IsBetter, IsTrial, WasTried};

use crate::counting::{Findings, count_changed};
use crate::edit::{Edit, Edits, changes_with};
use dbsource::{RunError, Source};
use std::alloc::Allocator;

// An edit, and what the run with it found.
#[derive(Drop)]
pub(crate) struct Trial<A: Allocator> {
    pub(crate) edit: Edit,
    pub(crate) found: Findings<A>,
}

// What a run with some edits and one more finds, if they can be made together and the file is read with them.
fn try_edit<A: Allocator + Copy, S: Source>(
    alloc: A,
    before: &Edits,
    edit: &Edit,
    source: &mut S,
) -> Result<Option<Findings<A>>, RunError>
    requires fits { DeskFitsInMemory A.row A.Allocator }
    ensures { HasDone S.Source result 1 0
        (λ o deeds. IfSome o (λ f. WasTried before.now.items edit.now f.count deeds)) source.old source.new }
{
    let Some(changes) = changes_with(before.as_slice(), edit) else {
        return Ok(None);
    };
    match count_changed(alloc, &changes, source) {
        Ok(found) => Ok(Some(found)),
        Err(error) => match error {
            RunError::Refused(_) => Ok(None),
            _ => Err(error),
        },
    }
}

// An edit with what was found.
fn trial_of<A: Allocator>(edit: &Edit, found: Findings<A>) -> Trial<A>
    ensures edit { result.edit ≡ edit.now }
    ensures found { result.found ≡ found }
{
    Trial {
        edit: edit.copied(),
        found,
    }
}

// How many faults a trial left, if fewer than `faults`.
fn least_of<A: Allocator>(best: &Option<Trial<A>>, faults: u64) -> u64
    ensures { result ≤ faults }
{
    match best {
        Some(trial) => trial.found.count.faults.min(faults),
        None => faults,
    }
}

// The better of two trials: the first of them that leaves the fewest faults, if fewer than `faults`.
fn better<A: Allocator>(
    best: Option<Trial<A>>,
    edit: &Edit,
    found: Option<Findings<A>>,
    faults: u64,
) -> Option<Trial<A>>
    ensures { IsBetter (λ t. t.edit) (λ t. t.found) (λ f. f.count) best edit.now found faults result }
{
    let least = least_of(&best, faults);
    match found {
        Some(found) if found.count.faults < least => Some(trial_of(edit, found)),
        _ => best,
    }
}

// Whether a trial left no fault.
fn leaves_none<A: Allocator>(best: &Option<Trial<A>>) -> bool {
    best.as_ref()
        .is_some_and(|trial| trial.found.count.faults == 0)
}

// Of some edits the first that leaves the fewest faults after some others, if one leaves fewer than `faults`. The rest is not tried after
// one that leaves none.
pub(crate) fn best_of<A: Allocator + Copy, S: Source>(
    alloc: A,
    before: &Edits,
    tries: &[Edit],
    faults: u64,
    source: &mut S,
) -> Result<Option<Trial<A>>, RunError>
    requires fits { DeskFitsInMemory A.row A.Allocator }
    ensures { HasDone S.Source result (length tries.now) 0
        (λ o deeds. IfSome o (λ t. IsTrial before.now.items t.edit t.found.count faults deeds)) source.old source.new }
{
    let mut best = None;
    for edit in tries {
        if leaves_none(&best) {
            return Ok(best);
        }
        let found = try_edit(alloc, before, edit, source)?;
        best = better(best, edit, found, faults);
    }
    Ok(best)
}

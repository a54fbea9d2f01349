// The changes that are put over a file.
ghost use Rattle.std.specs.Prelude.{◌≡◌, [], All, IsTrue, ◌↔◌, MatchResult, Ok, OnErr};
ghost use Rattle.dbsource.specs.Changes.{AreChanges, IsInside, changed_from, changes_with};

use crate::{Change, ChangeError};
use arrayvec::ArrayVec;
use std::marker::Model;

/// At most 16 changes of a file, of which no two overlap.
#[derive(Drop)]
pub struct Changes {
    changes: ArrayVec<Change, 16>,
}

impl Model for Changes {
    ghost use Rattle.std.specs.Prelude.{List};
    ghost use Rattle.dbsource.specs.Changes.{AreChanges, Change as At};

    ghost Value = { List At };

    ghost view = { λ s. s.changes.items };

    ghost invariant = { λ s. AreChanges s.changes.items };
}

impl Changes {
    /// No change yet.
    pub fn new() -> Changes
        ensures { result ≡ [] }
    {
        Changes {
            changes: ArrayVec::new(),
        }
    }

    /// The changes, in the order in which they were added.
    pub fn as_slice(&self) -> &[Change]
        ensures items { result.now ≡ self.now }
        ensures right { AreChanges self.now }
    {
        self.changes.as_slice()
    }

    /// Adds a change.
    ///
    /// # Errors
    ///
    /// [`ChangeError::TooMany`] where there are 16, and else [`ChangeError::Overlaps`] where it has a byte where another
    /// one has one. Then it is not added.
    pub fn add(&mut self, change: Change) -> Result<(), ChangeError>
        ensures added { MatchResult result (λ _. changes_with self.old change ≡ Ok self.new) (λ e. changes_with self.old change ≡ Err e) }
        ensures kept { OnErr result (self.new ≡ self.old) }
    {
        if self.changes.is_full() {
            return Err(ChangeError::TooMany);
        }
        if change.overlaps_any(self.changes.as_slice()) {
            return Err(ChangeError::Overlaps);
        }
        self.changes.push(change);
        Ok(())
    }

    /// Whether all their bytes are among the first `len` of a file.
    pub fn are_inside(&self, len: u64) -> bool
        ensures { IsTrue result ↔ All (IsInside len) self.now }
    {
        self.changes.iter().all(|change| change.is_inside(len))
    }

    /// Puts their bytes over those that were read at `offset`.
    pub fn put_over(&self, offset: u64, buf: &mut [u8])
        ensures { buf.new ≡ changed_from self.now offset buf.old }
    {
        put_changes(self.changes.as_slice(), offset, buf);
    }
}

// Puts changes over bytes that were read at `offset`.
pub(crate) fn put_changes(changes: &[Change], offset: u64, buf: &mut [u8])
    ensures { buf.new ≡ changed_from changes.now offset buf.old }
{
    for change in changes {
        change.put_over(offset, buf);
    }
}

// Entries that are gathered while a log is read.
ghost use Rattle.std.specs.Prelude.{◌≡◌, ◌+◌, ◌<◌, ◌≤◌, ◌^◌, ℕ, List, [], ◌∷◌, ◌++◌, length, IfOk, OnOk, nat_lt, take, if◌then◌else◌};
ghost use Rattle.std.specs.List.{All, AllPairs, filter};
ghost use Rattle.dblog.specs.Entries.{Gathers, IsIndexOf};

use crate::entry::{Entry, keep_latest};
use dbsource::{NoMemory, memory};
use std::alloc::Allocator;
use std::marker::Model;

// So many entries are gathered before the first are dropped.
const LEAST: usize = 4096;

/// The entries, and how many frames are committed. At the limit, those that others replace are dropped, and the limit
/// becomes twice what is left, at least `LEAST`.
#[derive(Drop)]
pub(crate) struct Gathered<A: Allocator> {
    entries: Vec<Entry, A>,
    committed: u32,
    limit: usize,
}

impl<A: Allocator> Model for Gathered<A> {
    ghost use Rattle.std.specs.Prelude.{ℕ, List};
    ghost use Rattle.dblog.specs.Entries.{Gathering};

    ghost Value = { Gathering };

    ghost view = { λ g. record { entries = g.entries.items; committed = g.committed } };
}

// Moves the entries that no other replaces to the front, and answers how many they are.
fn sort_latest(entries: &mut [Entry], committed: u32) -> usize
    ensures kept { (pages : List ℕ) → Gathers entries.old pages committed → Gathers (take result entries.new) pages committed }
    ensures rising { All (λ e. e.frame < committed) entries.old → AllPairs (λ d e. d.page < e.page) (take result entries.new) }
{
    entries.sort_unstable();
    keep_latest(entries, committed)
}

// Drops the entries that others replace.
fn drop_replaced<A: Allocator>(entries: &mut Vec<Entry, A>, committed: u32)
    ensures kept { (pages : List ℕ) → Gathers entries.old.items pages committed → Gathers entries.new.items pages committed }
    ensures rising { All (λ e. e.frame < committed) entries.old.items → AllPairs (λ d e. d.page < e.page) entries.new.items }
{
    let count = sort_latest(entries.as_mut_slice(), committed);
    entries.truncate(count);
}

// Drops the entries that name no committed frame.
fn drop_uncommitted<A: Allocator>(entries: &mut Vec<Entry, A>, committed: u32)
    ensures { entries.new.items ≡ filter (λ e. nat_lt e.frame committed) entries.old.items }
{
    entries.retain(|e| e.frame() < committed);
}

impl<A: Allocator> Gathered<A> {
    // Of no frame.
    pub fn new(alloc: A) -> Gathered<A>
        ensures gathers { Gathers result.entries [] 0 }
        ensures committed { result.committed ≡ 0 }
    {
        Gathered {
            entries: Vec::new(alloc),
            committed: 0,
            limit: LEAST,
        }
    }

    // Drops the entries that others replace, where there are as many as the limit.
    fn make_room(&mut self)
        ensures gathers { (pages : List ℕ) → Gathers self.old.entries pages self.old.committed → Gathers self.new.entries pages self.new.committed }
        ensures committed { self.new.committed ≡ self.old.committed }
    {
        if self.entries.len() >= self.limit {
            drop_replaced(&mut self.entries, self.committed);
            self.limit = LEAST.max(self.entries.len().saturating_mul(2));
        }
    }

    // One more frame, of this page; and whether it is committed with all before it.
    pub fn add(&mut self, page: u32, frame: u32, commits: bool) -> Result<(), NoMemory>
        requires { frame + 1 < 2 ^ 32 }
        ensures gathers { OnOk result ((pages : List ℕ) → length pages ≡ frame → self.old.committed ≤ frame
            → Gathers self.old.entries pages self.old.committed → Gathers self.new.entries (pages ++ page ∷ []) self.new.committed) }
        ensures committed { OnOk result (self.new.committed ≡ (if commits then frame + 1 else self.old.committed)) }
    {
        self.make_room();
        memory::push(&mut self.entries, Entry::new(page, frame))?;
        if commits {
            self.committed = frame + 1;
        }
        Ok(())
    }

    // How many frames are committed.
    pub fn committed(&self) -> u32
        ensures { result ≡ self.now.committed }
    {
        self.committed
    }

    // The index of the frames that are committed.
    pub fn into_index(self) -> Vec<Entry, A>
        ensures index { (pages : List ℕ) → self.committed ≤ length pages → Gathers self.entries pages self.committed
            → IsIndexOf result.items (take self.committed pages) }
        ensures rising { AllPairs (λ d e. d.page < e.page) result.items }
    {
        let Gathered {
            mut entries,
            committed,
            limit: _,
        } = self;
        drop_uncommitted(&mut entries, committed);
        drop_replaced(&mut entries, committed);
        entries
    }
}

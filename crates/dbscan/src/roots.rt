// The list of roots.
ghost use Rattle.std.specs.Prelude.{◌≡◌, ◌+◌, ◌-◌, ◌<◌, ◌≤◌, [], ◌∷◌, ◌++◌, length, option_map, slice_get, vec_len, IfOk, IfErr, OnOk, OnErr};
ghost use Rattle.std.specs.Option.{option_copied};
ghost use Rattle.dbwalk.specs.Rows.{schema_row_of};
ghost use Rattle.dbscan.specs.Roots.{kept_row, root_page, short_name, name_in, IsWithin, Grows};

use dbbytes::{MAX_NAME, SchemaRow};
use dbformat::{MOST_ROOTS, RowKind, SCHEMA_START};
use dbsource::{Failures, NoMemory, memory};
use dbwalk::{Taken, Taker};
use std::alloc::{Allocator, Global};
use std::marker::Model;

// The place of a name among the bytes of all names.
#[derive(Clone, Copy)]
struct Span {
    start: u32,
    len: u32,
}

// A row of the schema that has a root page.
#[derive(Clone, Copy)]
struct RootRow {
    page: u32,
    kind: RowKind,
    name: Option<Span>,
}

/// The rows of the schema that have a root page, 65536 at most, each with the bytes of its name, 1000 at most. A longer
/// name is kept as none.
#[derive(Drop)]
pub struct RootList<A: Allocator = Global> {
    entries: Vec<RootRow, A>,
    names: Vec<u8, A>,
    refusals: Failures,
}

impl<A: Allocator> Model for RootList<A> {
    ghost use Rattle.dbscan.specs.Roots.{Listed};

    ghost Value = { Listed };

    ghost use Rattle.dbscan.specs.Roots.{listed, AreRoots};

    ghost view = { listed };

    ghost invariant = { AreRoots };
}

impl RootList {
    /// An empty list. It takes memory from `alloc` as rows are taken.
    pub fn new(alloc: Global) -> RootList
        ensures rows { result.rows ≡ [] }
        ensures refusals { result.refusals ≡ 0 }
    {
        RootList::new_in(alloc)
    }
}

impl<A: Allocator + Copy> RootList<A> {
    /// An empty list, over any allocator. It takes memory as rows are taken.
    pub fn new_in(alloc: A) -> RootList<A>
        ensures rows { result.rows ≡ [] }
        ensures refusals { result.refusals ≡ 0 }
    {
        RootList {
            entries: Vec::new(alloc),
            names: Vec::new(alloc),
            refusals: Failures::new(),
        }
    }
}

impl<A: Allocator> RootList<A> {
    /// How many rows there are.
    pub fn len(&self) -> u32
        ensures count { result ≡ length self.now.rows }
        ensures most { result ≤ 65536 }
    {
        self.entries.len() as u32
    }

    /// The row of a start, numbered from 1, if there is one.
    pub fn get(&self, start: u32) -> Option<SchemaRow<'_>>
        requires { 1 ≤ start }
        ensures { option_map schema_row_of result ≡ slice_get self.now.rows (start - 1) }
    {
        let entry = self.entries.get(start as usize - 1)?;
        let name = match entry.name {
            Some(span) => {
                let start = span.start as usize;
                Some(&self.names[start..start + span.len as usize])
            }
            None => None,
        };
        Some(SchemaRow {
            kind: entry.kind,
            root: entry.page,
            name,
        })
    }

    /// The root page of a start: page 1 of the schema; and 0 where there is no such start.
    pub fn root_page(&self, start: u32) -> u32
        ensures { result ≡ root_page self.now.rows start }
    {
        if start == SCHEMA_START {
            return 1;
        }
        match self.get(start) {
            Some(row) => row.root,
            None => 0,
        }
    }

    /// Takes all rows away, and gives no memory back. The count of refusals stays.
    pub fn clear(&mut self)
        ensures rows { self.new.rows ≡ [] }
        ensures refusals { self.new.refusals ≡ self.old.refusals }
    {
        self.entries.clear();
        self.names.clear();
    }

    // Adds a row, for which there is room.
    #[tactic(auto, using(crate::proofs::RootLists::rows_kept))]
    fn add(&mut self, row: &SchemaRow<'_>) -> Result<(), NoMemory>
        requires { length self.old.rows < 65536 }
        ensures added { OnOk result (self.new ≡ record self.old { rows = self.old.rows ++ kept_row (schema_row_of row.now) ∷ [] }) }
        ensures refused { OnErr result (self.new ≡ self.old) }
    {
        let old_len = self.names.len();
        let name = keep_name(&mut self.names, row.name)?;
        let entry = RootRow {
            page: row.root,
            kind: row.kind,
            name,
        };
        if let Err(error) = memory::push(&mut self.entries, entry) {
            self.names.truncate(old_len);
            return Err(error);
        }
        Ok(())
    }
}

impl<A: Allocator> Taker for RootList<A> {
    ghost use Rattle.dbscan.specs.Roots.{TakesRow, RefusesRow};

    ghost takes = { TakesRow };

    ghost refuses = { RefusesRow };

    ghost refusals = { λ l. l.refusals };

    fn take(&mut self, row: &SchemaRow<'_>) -> Result<Taken, NoMemory> {
        if row.root == 0 {
            return Ok(Taken::NoRoot);
        }
        if self.entries.len() >= MOST_ROOTS as usize {
            return Ok(Taken::Full);
        }
        match self.add(row) {
            Ok(()) => Ok(Taken::Taken),
            Err(error) => {
                self.refusals.add();
                Err(error)
            }
        }
    }
}

// Adds the bytes of a name after those of others, where there are 1000 at most.
fn keep_name<A: Allocator>(
    names: &mut Vec<u8, A>,
    name: Option<&[u8]>,
) -> Result<Option<Span>, NoMemory>
    requires { vec_len names.old ≤ 65536000 }
    ensures more { IfOk result (λ _. Grows names.old.items names.new.items) }
    ensures len { (vec_len names.old ≤ vec_len names.new) × (vec_len names.new ≤ vec_len names.old + 1000) }
    ensures name { IfOk result (λ span. name_in names.new.items span ≡ short_name (option_copied name.entry)) }
    ensures within { IfOk result (λ span. IsWithin (vec_len names.new) span) }
    ensures same { IfErr result (λ _. (names.new.items ≡ names.old.items) × (vec_len names.new ≡ vec_len names.old)) }
{
    match name {
        Some(bytes) if bytes.len() <= MAX_NAME => {
            let start = names.len() as u32;
            let len = bytes.len() as u32;
            memory::extend(names, bytes)?;
            Ok(Some(Span { start, len }))
        }
        _ => Ok(None),
    }
}

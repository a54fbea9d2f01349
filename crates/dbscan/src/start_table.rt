// A value for each start.
ghost use Rattle.std.specs.Prelude.{◌≡◌, IfOk, replicate, slice_get, slice_set};
ghost use Rattle.dbscan.specs.StartTable.{most_starts};

use dbformat::FREELIST_START;
use dbsource::NoMemory;
use dbsource::memory::with_room;
use std::alloc::{Allocator, Global};
use std::marker::Model;

/// A value for each start, with room for all of them. It writes the trees' values only up to the last one that was set, since most files
/// have few trees.
#[derive(Drop)]
pub struct StartTable<T, A: Allocator = Global> {
    // Of the first trees.
    trees: Vec<T, A>,
    // Of each tree after these.
    rest: T,
    // Of the last start.
    freelist: T,
}

impl<T, A: Allocator> Model for StartTable<T, A> {
    ghost use Rattle.std.specs.Prelude.{List};

    ghost Value = { List T };

    ghost use Rattle.dbscan.specs.StartTable.{start_values, HasRoom};

    ghost view = { start_values };

    ghost invariant = { HasRoom };
}

impl<T: Copy, A: Allocator> StartTable<T, A> {
    /// A table with this value for each start, in one growth from any allocator. After that it takes no memory.
    ///
    /// # Errors
    ///
    /// [`NoMemory`] where the growth was refused.
    pub fn new_in(alloc: A, value: T) -> Result<StartTable<T, A>, NoMemory>
        ensures { IfOk result (λ t. t ≡ replicate most_starts value) }
    {
        let trees = with_room(alloc, FREELIST_START as usize)?;
        Ok(StartTable {
            trees,
            rest: value,
            freelist: value,
        })
    }

    /// Gives each start this value.
    pub fn fill(&mut self, value: T)
        ensures { self.new ≡ replicate most_starts value }
    {
        self.trees.clear();
        self.rest = value;
        self.freelist = value;
    }

    /// The value of a start. A number after the last start has none.
    pub fn get(&self, start: u32) -> Option<T>
        ensures { result ≡ slice_get self.now start }
    {
        let index = start as usize;
        if index < self.trees.len() {
            Some(self.trees[index])
        } else if start < FREELIST_START {
            Some(self.rest)
        } else if start == FREELIST_START {
            Some(self.freelist)
        } else {
            None
        }
    }

    /// Gives a start this value. A number after the last start changes nothing.
    pub fn set(&mut self, start: u32, value: T)
        ensures { self.new ≡ slice_set self.old start value }
    {
        if start == FREELIST_START {
            self.freelist = value;
        } else if start < FREELIST_START {
            let index = start as usize;
            if index >= self.trees.len() {
                // There is room, so this is not refused.
                let _ = self.trees.resize(index + 1, self.rest);
            }
            self.trees[index] = value;
        }
    }
}

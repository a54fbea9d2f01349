// Where something of a file is found.
ghost use Rattle.std.specs.Prelude.{◌≡◌, ℕ, ◌≤◌, None};
ghost use Rattle.std.specs.Option.{option_copied};
ghost use Rattle.dbscan.specs.Starts.{at_freelist, at_schema};

use dbformat::{FREELIST_START, SCHEMA_START};
use std::marker::Model;

/// A start of a file: the schema, a root that it names, or the freelist.
#[derive(Drop)]
pub struct Start<'a> {
    number: u32,
    name: Option<&'a [u8]>,
}

impl<'a> Model for Start<'a> {
    ghost use Rattle.dbscan.specs.Starts.{At};

    ghost Value = { At };

    ghost use Rattle.dbscan.specs.Starts.{start_in, IsNumbered};

    ghost view = { start_in };

    ghost invariant = { IsNumbered };
}

impl<'a> Start<'a> {
    // The schema's tree.
    pub(crate) fn schema() -> Start<'static>
        ensures { result ≡ at_schema }
    {
        Start {
            number: SCHEMA_START,
            name: None,
        }
    }

    // The tree of a row of the schema.
    pub(crate) fn tree(number: u32, name: Option<&'a [u8]>) -> Start<'a>
        requires { number ≤ 65536 }
        ensures { result ≡ record { number = number; name = option_copied name.entry } }
    {
        Start { number, name }
    }

    // The freelist.
    pub(crate) fn freelist() -> Start<'static>
        ensures { result ≡ at_freelist }
    {
        Start {
            number: FREELIST_START,
            name: None,
        }
    }

    /// Its number: 0 for the schema, 65537 for the freelist, and from 1 on for the rows of the schema that have a root page.
    pub fn number(&self) -> u32
        ensures value { result ≡ self.now.number }
        ensures most { result ≤ 65537 }
    {
        self.number
    }

    /// The bytes of the name of its row, 1000 at most. The schema and the freelist have none.
    pub fn name(&self) -> Option<&[u8]>
        ensures { option_copied result ≡ self.now.name }
    {
        self.name
    }
}

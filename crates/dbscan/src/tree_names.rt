// The texts of trees.
ghost use Rattle.std.specs.Prelude.{◌≡◌};
ghost use Rattle.dbsource.specs.Outs.{Puts};
ghost use Rattle.dbwalk.specs.Rows.{schema_row_of};
ghost use Rattle.dbscan.specs.Texts.{kind_text, row_text, tree_of_row};

use crate::roots::RootList;
use dbbytes::plain_name_text;
use dbformat::{Encoding, RowKind, SCHEMA_START};
use dbsource::{Out, WriteFailed};
use dbwalk::SchemaRow;
use std::alloc::{Allocator, Global};

/// The texts of trees: how texts are stored, and the rows of the schema that have a root page.
#[derive(Drop)]
pub struct TreeNames<'a, A: Allocator = Global> {
    pub encoding: Encoding,
    pub roots: &'a RootList<A>,
}

impl<A: Allocator> TreeNames<'_, A> {
    /// Puts the text of the tree of a start: its kind and its name, or nothing where the list has no such row.
    ///
    /// # Errors
    ///
    /// [`WriteFailed`] where a put failed. A beginning of the text was put then.
    pub fn put_tree<O: Out>(&self, out: &mut O, start: u32) -> Result<(), WriteFailed>
        ensures { Puts result (O.held out.old) (O.held out.new) (tree_of_row self.now.encoding self.now.roots.now.rows start) }
    {
        if start == SCHEMA_START {
            return out.put(b"sqlite_schema");
        }
        match self.roots.get(start) {
            Some(row) => put_row(out, self.encoding, &row),
            None => Ok(()),
        }
    }
}

// Puts the text of the tree of a row.
fn put_row<O: Out>(out: &mut O, encoding: Encoding, row: &SchemaRow<'_>) -> Result<(), WriteFailed>
    ensures { Puts result (O.held out.old) (O.held out.new) (row_text encoding (schema_row_of row.now)) }
{
    out.put(kind_text(row.kind).as_bytes())?;
    match row.name {
        Some(name) => plain_name_text(name, encoding, out),
        None => out.put(b"?"),
    }
}

// The kind of tree that a row names.
fn kind_text(kind: RowKind) -> &'static str
    ensures { result.now ≡ kind_text kind }
{
    match kind {
        RowKind::Index => "index ",
        RowKind::Table | RowKind::View | RowKind::Trigger => "table ",
    }
}

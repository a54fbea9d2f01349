// What the rows of a tree show beside their own numbers.
ghost use Rattle.dbsource.specs.Outs.{Puts};
ghost use Rattle.dbreport.specs.TreeNames.{tree_label_text};

use dbbytes::name_text;
use dbformat::{Encoding, SCHEMA_START};
use dbscan::Start;
use dbsource::{Out, WriteFailed};

// How texts are stored, the size of a page, and the start of the tree, which has its name.
#[derive(Drop)]
pub(crate) struct TreeLabel<'a> {
    pub(crate) encoding: Encoding,
    pub(crate) page_size: u32,
    pub(crate) start: &'a Start<'a>,
}

impl TreeLabel<'_> {
    // Puts the name.
    pub(crate) fn put_name<O: Out>(&self, out: &mut O) -> Result<(), WriteFailed>
        ensures { Puts result (O.held out.old) (O.held out.new) (tree_label_text self.now) }
    {
        if self.start.number() == SCHEMA_START {
            return out.put(b"sqlite_schema");
        }
        match self.start.name() {
            Some(name) => name_text(name, self.encoding, out),
            None => out.put(b"?"),
        }
    }
}

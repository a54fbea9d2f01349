// The root of a tree.
ghost use Rattle.dbsource.specs.Bench.{bytes_at};
ghost use Rattle.dbwalk.specs.Roots.{kind_of};
ghost use Rattle.std.specs.Prelude.{◌≡◌, ◌≤◌, length, slice_get, Some};

use dbformat::{Encoding, TreeKind};
use dbpage::type_byte;
use dbsource::Bench;
use std::alloc::Allocator;

/// What names a root, which also decides the kind of its tree.
#[derive(Clone, Copy)]
pub enum RootKind {
    /// The root of the schema, which is a table.
    Schema,
    /// The root of an index.
    Index,
    /// The root of a table: the kind of its tree is that of the page.
    Own,
}

/// The root of a tree: the number of the start that names it, 0 for the schema's and from 1 on for the others; its page; and
/// the encoding of the file's texts.
#[derive(Clone, Copy)]
pub struct Root {
    pub start: u32,
    pub page: u32,
    pub kind: RootKind,
    pub encoding: Encoding,
}

impl Root {
    // The kind of its tree, by the bytes of its page.
    #[tactic(auto, unfolding(dbformat::specs::Head::own_kind))]
    fn tree_kind(&self, page: &[u8]) -> TreeKind
        requires { 480 ≤ length page.now }
        ensures { result ≡ kind_of self.now.kind self.now.page page.now }
    {
        match self.kind {
            RootKind::Schema => TreeKind::Table,
            RootKind::Index => TreeKind::Index,
            RootKind::Own => {
                let own = type_byte(page, self.page);
                if own == 2 || own == 10 {
                    TreeKind::Index
                } else {
                    TreeKind::Table
                }
            }
        }
    }
}

/// The kind of the tree whose root was read at level 0.
pub(crate) fn root_kind<A: Allocator>(bench: &Bench<A>, root: Root) -> TreeKind
    ensures there { slice_get bench.now.levels 0 ≡ Some (bytes_at bench.now 0) }
    ensures kind { result ≡ kind_of root.kind root.page (bytes_at bench.now 0) }
{
    // By the geometry a page has at least 512 bytes.
    let _geometry = bench.geometry();
    root.tree_kind(bench.page(0))
}

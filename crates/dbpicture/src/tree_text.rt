// The names of trees, as a picture shows them.
ghost use Rattle.std.specs.Prelude.{◌≡◌, [], None};
ghost use Rattle.dbpicture.specs.Keeping.{HoldsTreeName, shown_tree, tree_named};

use crate::kept_bytes::KeptBytes;
use crate::shown::Shown;
use dbscan::TreeNames;
use std::alloc::Allocator;

/// The tree of a start, or the first 320 bytes of its text.
pub(crate) fn shown_tree<A: Allocator>(names: &TreeNames<'_, A>, start: u32) -> Shown
    ensures { result ≡ shown_tree names.now.encoding names.now.roots.now.rows start }
{
    let mut kept = KeptBytes::new();
    let _ = names.put_tree(&mut kept, start);
    Shown::of(kept)
}

/// The tree that was named last. Pages that follow one another are mostly of one tree.
#[derive(Drop)]
pub(crate) struct NamedTree {
    start: Option<u32>,
    /// The name of the tree of this start, or nothing.
    pub(crate) name: Shown,
}

impl NamedTree {
    /// None was named.
    pub(crate) fn none() -> NamedTree
        ensures { result ≡ record { start = None; name = [] } }
    {
        NamedTree {
            start: None,
            name: Shown::new(),
        }
    }

    /// Names the tree of a start, or nothing.
    pub(crate) fn turn_to<A: Allocator>(&mut self, names: &TreeNames<'_, A>, start: Option<u32>)
        requires { HoldsTreeName names.now self.old }
        ensures { self.new ≡ tree_named names.now start }
    {
        if start == self.start {
            return;
        }
        self.name = match start {
            Some(start) => shown_tree(names, start),
            None => Shown::new(),
        };
        self.start = start;
    }
}

// The names of the largest trees.
ghost use Rattle.std.specs.Prelude.{◌≡◌, ◌≤◌, length, map};
ghost use Rattle.dbpicture.specs.Keeping.{shown_tree};
ghost use Rattle.dblines.specs.Writing.{Wrote};
ghost use Rattle.dbpicture.specs.Groups.{name_text};

use crate::pieces::WritePieces;
use crate::shown::Shown;
use crate::tally::COLOURED;
use crate::tree_text::shown_tree;
use arrayvec::ArrayVec;
use dblines::Writer;
use dbscan::TreeNames;
use dbsource::Out;
use std::alloc::Allocator;

/// The names of the largest trees, by their ranks.
#[derive(Drop)]
pub(crate) struct Labels {
    names: ArrayVec<Shown, COLOURED>,
}

impl Labels {
    /// The names of these trees.
    pub(crate) fn new<A: Allocator>(names: &TreeNames<'_, A>, largest: &[u32]) -> Labels
        requires { length largest.now ≤ 12 }
        ensures { result.names.items ≡ map (shown_tree names.now.encoding names.now.roots.now.rows) largest.now }
    {
        let mut labels = Labels {
            names: ArrayVec::new(),
        };
        for start in largest {
            let _ = labels.names.try_push(shown_tree(names, *start));
        }
        labels
    }

    /// Draws the name of the tree of a rank in at most `width` columns, if there is one.
    pub(crate) fn draw<O: Out>(&self, writer: &mut Writer<'_, O>, rank: usize, width: u32)
        ensures { Wrote O.held writer.old (name_text self.now.names.items rank width) writer.new }
    {
        if let Some(name) = self.names.as_slice().get(rank) {
            writer.write_shown(name, width);
        }
    }
}

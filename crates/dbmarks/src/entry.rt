// Entries of the pointer map, by marks (Database File Format, 1.8).
ghost use Rattle.std.specs.Prelude.{◌≡◌};
ghost use Rattle.dbmarks.specs.EndMarks.{entry_value, mark_entry};

use crate::marks::Mark;

/// An entry of the pointer map: what a page is, and the page that it is reached from, or 0.
#[derive(Clone, Copy)]
pub struct MapEntry {
    /// The number of the page's use: 1 to 5.
    pub kind: u8,
    /// The page that the entry names, or 0.
    pub number: u32,
}

impl Mark {
    /// The entry that a page with this mark has. A page without a mark or of fixed use has no entry: its kind is 0.
    #[inline(always)]
    pub fn entry(self) -> MapEntry
        ensures { entry_value result ≡ mark_entry self }
    {
        let (kind, number) = match self {
            Mark::Root => (1, 0),
            Mark::Trunk | Mark::FreeLeaf => (2, 0),
            Mark::FirstOverflow(from) => (3, from),
            Mark::LaterOverflow(from) => (4, from),
            Mark::Child(from) => (5, from),
            Mark::Unmarked | Mark::Fixed => (0, 0),
        };
        MapEntry { kind, number }
    }
}

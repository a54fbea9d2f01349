// The texts that say where a page is.
ghost use Rattle.std.specs.Prelude.{◌≡◌, ◌≤◌, length};
ghost use Rattle.dbscan.specs.Texts.{place_from, place_front, place_tree, place_words};

use crate::place::Place;
use dbsource::Fixed;

/// The text before that of a page's tree, by the page's fixed use, if it has one.
pub fn place_front(fixed: Option<Fixed>, place: Place) -> &'static str
    ensures text { result.now ≡ place_front fixed place }
    ensures short { length result.now ≤ 39 }
{
    match place {
        Place::Root => "root of ",
        Place::ChildOf(_) | Place::OverflowOf(_) | Place::OverflowAfter(_) => "in ",
        Place::Trunk => "trunk of the freelist",
        Place::FreeLeaf => "leaf of the freelist",
        Place::Fixed => match fixed {
            Some(Fixed::Lock) => "lock-byte page",
            _ => "pointer map",
        },
        Place::Nowhere => "in no tree, overflow chain or freelist",
    }
}

/// The start whose tree a page is said to be in.
pub fn place_tree(place: Place, start: Option<u32>) -> Option<u32>
    ensures { result ≡ place_tree place start }
{
    match place {
        Place::Root | Place::ChildOf(_) | Place::OverflowOf(_) | Place::OverflowAfter(_) => start,
        Place::Trunk | Place::FreeLeaf | Place::Fixed | Place::Nowhere => None,
    }
}

/// What comes after the tree of a page, before the page that it is reached from, if there is one.
pub fn place_words(place: Place) -> &'static str
    ensures text { result.now ≡ place_words place }
    ensures short { length result.now ≤ 27 }
{
    match place {
        Place::ChildOf(_) => ", child of page ",
        Place::OverflowOf(_) => ", overflow page of page ",
        Place::OverflowAfter(_) => ", overflow page after page ",
        Place::Root | Place::Trunk | Place::FreeLeaf | Place::Fixed | Place::Nowhere => "",
    }
}

/// The page that a page of a tree or of an overflow chain is reached from, if it is no root.
pub fn place_from(place: Place) -> Option<u32>
    ensures { result ≡ place_from place }
{
    match place {
        Place::ChildOf(from) | Place::OverflowOf(from) | Place::OverflowAfter(from) => Some(from),
        Place::Root | Place::Trunk | Place::FreeLeaf | Place::Fixed | Place::Nowhere => None,
    }
}

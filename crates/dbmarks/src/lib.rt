//! The marks of the pages of a database: four bytes a page, which are all that a walk remembers of its visits.
//!
//! The mark of a page says which visit reached it, and which page refers to it (specs/Marking). So one mark shows
//! whether a reference may be followed, and [`Marks::follow`] marks the page at once: a caller that reads a page only
//! after it was followed reads no page twice, whatever a source answers (specs/Reads, [`walks_read_each_page_once`]).
//!
//! At the end of a run the marks alone say which pages nothing refers to, which entries of the pointer map are wrong,
//! how long the freelist is and which root is the greatest (specs/EndMarks, [`marks_give_the_end`]).
#![tactic(auto)]

mod entry;
mod marks;

pub use dbformat::{FaultCode, Geometry};
pub use entry::MapEntry;
pub use marks::{Mark, Marks, marks_give_the_end, walks_read_each_page_once};

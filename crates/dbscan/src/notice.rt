// What a reporter receives, one thing at a time.
use crate::start::Start;
use dbformat::Geometry;
use dbtrace::TracedFault;
use dbwalk::{Mark, Row};

/// One thing that is found in a file; that a tree has ended; or a page, once all walks have ended. The freelist is no tree, so no `Ended`
/// comes for it.
#[derive(Clone, Copy)]
pub enum Notice<'a> {
    /// A fault, with the part of the report that it belongs to and what it goes back to.
    Fault(&'a TracedFault),
    /// A row of the tree of a start.
    Row(&'a Start<'a>, &'a Row<'a>),
    /// The tree of a start has ended.
    Ended(&'a Start<'a>),
    /// A page of a file of this shape, and its mark. When all starts have been walked from, each page comes once, by number from 1 on,
    /// before the faults at the end.
    Page(&'a Geometry, u32, Mark),
}

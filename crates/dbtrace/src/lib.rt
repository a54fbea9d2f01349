//! What is reported of a file, as a fold over the events of a walk. `dbformat` defines the faults of a page, a key and
//! a schema row by all that was visited before, and by the places of its keys. A walk keeps a few values instead. Here
//! it is proved that they are enough.
#![tactic(auto)]

ghost use Rattle.std.specs.Prelude.{ℕ, List};
ghost use Rattle.dbtrace.specs.Fold.{IsFold};
ghost use Rattle.dbtrace.specs.LookBack.{CausesLookBack, FindingsLookBack};
ghost use Rattle.dbtrace.specs.Steps.{AreAside, HasSteps};

pub use dbformat::{ByteRun, Fault, Look};

/// A key of a cell: its place, and its value.
#[derive(Clone, Copy)]
pub struct CellKey {
    /// The page of the cell.
    pub page: u32,
    /// The number of the cell on its page, from 0.
    pub item: u32,
    /// The rowid, or the key of an interior page.
    pub value: i64,
}

/// What is seen in the bytes of the overflow page that a fault is of.
#[derive(Clone, Copy)]
pub struct SeenBytes {
    /// Its usable bytes are zeros.
    pub are_zeros: bool,
    /// Else the longest run of one byte among them, if it has 64 bytes or more.
    pub run: Option<ByteRun>,
}

impl SeenBytes {
    /// Of a fault that is of no overflow page.
    pub const NONE: SeenBytes = SeenBytes {
        are_zeros: false,
        run: None,
    };
}

/// The overflow chain of a cell, and how much of it was found.
#[derive(Clone, Copy)]
pub struct CellChain {
    /// The page of the cell.
    pub page: u32,
    /// The number of the cell on its page, from 0.
    pub item: u32,
    /// The rowid of the cell, in a leaf of a table.
    pub rowid: Option<i64>,
    /// How many overflow pages the payload takes.
    pub pages: u32,
    /// How many of them were found.
    pub found: u32,
    /// If the fault is of an overflow page, what is seen in that.
    pub seen: SeenBytes,
}

/// How many pages an interior page names, each as often as it does, and how many of them are lost.
#[derive(Clone, Copy)]
pub struct NamedPages {
    pub pages: u32,
    pub lost: u32,
}

/// Between which rowids the rows of a page of a table are, by the keys around it: of a page that was visited, or of one that a
/// reference leads to.
#[derive(Clone, Copy)]
pub struct RowidBounds {
    /// They are above the greatest key before the page in its tree.
    pub above: Option<i64>,
    /// They are up to the key of the innermost cell whose left child leads to the page.
    pub up_to: Option<i64>,
}

impl RowidBounds {
    /// There is no key around the page.
    pub const NONE: RowidBounds = RowidBounds {
        above: None,
        up_to: None,
    };
}

/// A leaf of a tree: its page, its depth, where the root has depth 1, and its rowids.
#[derive(Clone, Copy)]
pub struct TreeLeaf {
    pub page: u32,
    pub depth: u32,
    pub rowids: RowidBounds,
}

/// What is known of a page with faults. Two causes are compared without it.
#[derive(Clone, Copy)]
pub struct PageFacts {
    /// The longest run of one byte, where it has 64 bytes or more: of its usable bytes, or of its content area, and then only if a
    /// cell begins in it.
    pub run: Option<ByteRun>,
    /// Of a lost interior page what it names.
    pub named: Option<NamedPages>,
    /// Of a page of a tree, its rowids.
    pub rowids: RowidBounds,
}

impl PageFacts {
    /// Nothing is known.
    pub const NONE: PageFacts = PageFacts {
        run: None,
        named: None,
        rowids: RowidBounds::NONE,
    };
}

/// What a fault goes back to. Two causes are compared without rowids.
#[derive(Clone, Copy)]
pub enum Cause {
    /// The fault goes back to nothing but itself.
    Itself,
    /// It goes back to nothing but itself, and is of these rows: below a reference to a page of a tree that is refused, or of a leaf
    /// without cells.
    Rows(RowidBounds),
    /// The key that a key is not above: the greatest before it, at the first cell that has it. Of a key of an interior page, the rows
    /// of its left child, by the cell before it on its page.
    Key(CellKey, Option<RowidBounds>),
    /// The page of the first leaf, which has another depth, and the rows of the page with the fault: where these go on from the rows
    /// of the first leaf, with those.
    Leaf(u32, RowidBounds),
    /// The chain that it breaks.
    Chain(CellChain),
    /// The page itself, which has it with other faults of its code.
    Page(u32, PageFacts),
    /// What the page looks like.
    Look(Look, PageFacts),
}

/// A part of a report: the header of a file, what is found from a start on, and what is found when all pages have been visited.
#[derive(Clone, Copy)]
pub enum Part {
    /// The faults of the header.
    Header,
    /// What is reached from this start: 0 is the schema, 1 to 65536 are its rows that have a root page, 65537 is the freelist.
    Start(u32),
    /// What is found when all pages have been visited.
    End,
}

/// A fault, the part of the report that it belongs to, and what it goes back to.
#[derive(Clone, Copy)]
pub struct TracedFault {
    pub part: Part,
    pub fault: Fault,
    pub cause: Cause,
}

/// What a walk keeps beside the visits is a fold over the events so far: the greatest key and the first leaf. All that is
/// reported of a start follows from it, and for the rows of the schema from how many with a root page came before, exactly as it
/// is defined.
pub fn progress_is_enough()
    ensures { (file : List ℕ) → IsFold file }
{}

/// A walk step by step, for a program with a list of errands that are still to be done.
pub fn walks_go_by_steps()
    ensures steps { (file : List ℕ) → HasSteps file }
    ensures aside { (file : List ℕ) → AreAside file }
{}

/// Causes look back only, as faults do: each rests on the pages visited before the fault. So a fault can be reported
/// with its cause during the walk.
pub fn causes_look_back()
    ensures causes { (file : List ℕ) → CausesLookBack file }
    ensures findings { (file : List ℕ) → FindingsLookBack file }
{}

//! The walk over the pages of a database: what each page is used as, and what is reported on the way.
//!
//! `dbformat` defines what the survey of a file visits, and what is reported of each visit. Here the pages are walked over in
//! that order. A call takes one start, [`walk_tree`] a root and [`walk_freelist`] the first trunk, so that a caller can go
//! through the starts one after another. The caller passes a source, a bench of page buffers, the marks of all pages, a
//! [`Sink`] for what is reported and a [`Taker`] for the rows of the schema. Both traits show an `impl` of which nothing is
//! claimed, to copy.
//!
//! **Marks** (`dbmarks`) record all visits so far: the mark of a page shows whether a reference to it may be followed. A page is
//! marked before it is read, and only a page that had no mark is read. So no page is read twice, whatever the source answers
//! (`Reads`).
//!
//! **What a call has done** (specs/Underway, Watching and Done). A walk follows the events of a trace. `dbtrace` defines what
//! it keeps of them, its progress, and which items it hands out: findings to the sink, rows of the schema to the taker. For
//! each file a call of the walk over a tree states one thing, `HasDone`: the marks and the tree's state are those after its
//! part of the walk, and all items of this part were handed out; or, at an error, a beginning of them. Parts that follow one
//! another are one part, so the contract of a tree is made from those of its pages, and theirs from those of their cells. A walk
//! along an overflow chain or the freelist states the same of a sink alone (`fed`), for each state that a tree may have: the
//! progress stays as it is there. `walk_freelist` states it by the visits and findings of the definitions (`IsDone`).
//!
//! **Beside the pages of a tree** (specs/Beside) a walk goes from step to step: along an overflow chain, or from trunk to trunk.
//! `enter_beside` marks the page of a step and reads it into a buffer, which the bench lends once for the whole walk. `IsAtStep`
//! says what is left then, `Turns` what one turn leaves, and `WalksBeside` what such a walk reads and what it keeps of all that
//! it borrows.
//!
//! **What a call keeps** (specs/Walked). A walk over a tree is one struct, `TreeWalk`, of all that it borrows but the page
//! buffers. One clause of each of its methods, `Walked`, says that it still borrows the same, that each failure of a source or a
//! taker is counted and answered, and that only the schema's tree calls the taker. Another, `SaysOfFiles`, says which pages were
//! read, and what holds for each file that agrees with these reads.
//!
//! **A failed write** (specs/Reporting). A sink at which a write fails is shut, and stays shut: it takes no more rows and faults. The
//! calls that report have no result, so a walk learns of it by `ask`, which answers `WriteFailed` where the sink is shut. It asks
//! before a page is marked and read (`enter`), before a row of the schema goes to the taker (`take_row`), and at its end. So
//! after an error the sink is shut exactly if this is `WriteFailed` (`SinkWalks`). That no page is read once the sink is shut is
//! not said by a clause; tests count the reads.
//!
//! **How far a walk is** (specs/Walking and Underway; Points has it for clauses). The loop over interior pages keeps one
//! equation: the walk so far, continued by what its frames still have to do, is the whole walk (`IsUnderway`). Pages on the
//! path stay in the bench, one level each, at most 20. After a chain the walk goes on where it left the path.
//!
//! **Pages reported at once** (specs/LeafCells). If one reading of a page shows all of its cells, the row and the faults come
//! from that reading. For a leaf whose cells have nothing but their keys to look at, the first and the last key are enough. The
//! cells of another leaf are walked over with one view of its bytes.
//!
//! **Rows of the schema** (specs/Taking) go to the taker in the order of their cells; its answer decides whether S04 is
//! reported. All that is said of a walk holds for every taker. The walk over a leaf passes its cells a place for the sieve that takes a row's payload.
//! Other trees leave the place empty.
#![tactic(auto)]

mod beside;
mod cells;
mod chain;
mod entering;
mod freelist;
mod leaf;
mod overflow;
mod page;
mod page_entry;
mod page_report;
mod page_row;
mod root;
mod schema_row;
mod sink;
mod state;
mod steps;
mod taker;
mod tree;
mod tree_walk;

pub use chain::CHAIN;
pub use dbbytes::{RowKind, SchemaRow};
pub use dbformat::{Counts, Encoding, Fault, FaultCode, Geometry, PageKind, PageType};
pub use dbmarks::{Mark, Marks};
pub use dbsource::{Bench, RunError, Source, WriteFailed};
pub use dbtrace::{Cause, CellChain, CellKey, PageFacts, RowidBounds, TreeLeaf};
pub use freelist::walk_freelist;
pub use root::{Root, RootKind};
pub use sink::{Row, Sink};
pub use taker::{Taken, Taker};
pub use tree::walk_tree;

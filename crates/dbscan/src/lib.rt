//! A scan of a file: what a reporter receives of its header, of the walks over all its starts and of its end, in the order of the report.
//!
//! A [`Desk`] has what a run keeps of a file: its header, page buffers, a mark for each page, and the list of roots ([`RootList`] takes
//! the rows of the schema in a walk, and keeps those that have a root page). [`scan`] reports to a [`Reporter`] all that is found in the
//! file, in three steps. [`report_header`] reports the faults of the header. Then it walks over the schema, over each root that the schema
//! names, and along the freelist; of what is found there the reporter is notified at which [`Start`] it is, and where each tree ends.
//! [`report_end`] reports what is left when all pages have been visited: each page with its mark, and then the faults that the marks, the
//! header and the pages of the pointer map show.
//!
//! Marks and rows say who owns a page and what it is; no page is read again. [`PageTrees`] keeps, in four bytes a page, the start of each
//! page of a tree or a chain, as its row was received; the marks say the rest. specs/Owners says it by the
//! survey of a file, of which nothing but the visits is used: the start that a page belongs to ([`PageTrees::start_of`]), what it is there
//! ([`place_of`]), and that the tree of a root page owns it ([`visited_pages_are_owned`]). specs/Texts has the texts of trees and pages:
//! [`TreeNames`] puts that of a tree, and [`place_front`], [`place_words`] and [`place_from`] give what a page is in its tree.
//!
//! specs/Notices says what a reporter receives, specs/Desks what a desk holds, and specs/Walks how far a walk over the starts has
//! come.
#![tactic(auto)]

mod counts;
mod desk;
mod end_faults;
mod end_pass;
mod finish;
mod header_faults;
mod looks;
mod map_entry;
mod no_rows;
mod notice;
mod notifier;
mod owner;
mod page_trees;
mod place;
mod place_texts;
mod placed;
mod report;
mod reporter;
mod roots;
mod scans;
mod start;
mod start_table;
mod tree_names;
mod walks;

pub use dbformat::{Encoding, Fault, Fixed, Geometry, Look, Verdict};
pub use dbsource::{Bench, Header, Out, ReadFailed, RunError, Source, WriteFailed};
pub use dbwalk::{Cause, Mark, Marks, PageKind, PageType, Row, RowKind, SchemaRow, Taken, Taker};
pub use desk::Desk;
pub use end_pass::report_end;
pub use finish::{Finish, Viewed, run_over};
pub use notice::Notice;
pub use owner::visited_pages_are_owned;
pub use page_trees::PageTrees;
pub use place::{Place, mark_of, place_of};
pub use place_texts::{place_from, place_front, place_tree, place_words};
pub use placed::{faults_are_of_reached_pages, faults_are_reported_with_their_causes};
pub use report::report_header;
pub use reporter::Reporter;
pub use roots::RootList;
pub use scans::scan;
pub use start::Start;
pub use start_table::StartTable;
pub use tree_names::TreeNames;

//! What `dbck explain` writes of a database: the injuries, each by its first fault, with where that is, what it goes back to, and how
//! many faults belong to it; and then how many faults there are of each code and in each tree.
//!
//! ```
//! let mut source = MemSource::new(bytes);
//! let mut out = MemOut::new(alloc);
//! let explanation = explain(alloc, 100, &mut source, &mut out)?;
//! ```
//!
//! specs/Explained defines the report, over the bytes of a file and its survey, and specs/Runs says what a run leaves of it.
#![tactic(auto)]

mod after_end;
mod facts;
mod indexes;
mod injury_lines;
mod kept;
mod laws;
mod missing;
mod owners;
mod page_lines;
mod range_counts;
mod ranges;
mod reached;
mod report;
mod reporter;
mod row_lines;
mod runs;
mod start_counts;
mod starts;
mod summary;
mod sums;
mod tally;
mod trees;
mod zeros;

pub use dbformat::Verdict;
pub use dbsource::{Out, RunError, Source};
pub use laws::{summary_counts_all_faults, told_files_are_explained};
pub use runs::{Explanation, explain};

//! What `explain` lists of a file, and `map` frames: the faults that lead, each with the faults that belong to it.
//!
//! A fault leads if no earlier fault of its code and part goes back to the same cause. [`Listing`] keeps the first of
//! them, and for each how many faults belong to it and on which pages; and which pages are zeros. It takes memory when it is
//! made, and none for a fault. A fault takes a bounded number of steps.
//!
//! [`put_cause`] and [`put_others`] write the lines below the fault line of an injury: what it goes back to, and how many faults
//! belong to it, with the pages that look alike in runs.
//!
//! Each fault is listed as it is received ([`Listing::receive`]), but for that of a lost page, to which nothing refers: it goes back to
//! what the page looks like, and that is known when all pages have been visited. [`Listing::look_at_lost`] then reads each lost
//! page, once, in their order, and lists their faults after all others.
//!
//! specs/Listing has the definition of injuries, over any list of faults, and specs/Listed that of the list of a file; specs/Lines and
//! specs/Others have the lines.
#![tactic(auto)]

mod causes;
mod injury;
mod lines;
mod listing;
mod lost;
mod others;
mod page_bits;
mod page_runs;

pub use dbscan::Desk;
pub use dbsource::{Out, ReadFailed, Source, WriteFailed};
pub use dbtrace::{Cause, Part, TracedFault};
pub use injury::{Injury, Others};
pub use lines::{append_count, append_signed, put_cause};
pub use listing::Listing;
pub use others::put_others;
pub use page_bits::PageBits;
pub use page_runs::{MAX_RUNS, PageRun, PageRuns};

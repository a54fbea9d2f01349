//! What is written of a database: its faults and the rows of its statistics, as lines, and the verdict.
//!
//! ```
//! let mut source = MemSource::new(bytes);
//! let (mut out, mut err) = (MemOut::new(alloc), MemOut::new(alloc));
//! let verdict = run(alloc, Command::Check { limit: 100 }, &mut source, &mut out, &mut err)?;
//! ```
#![tactic(auto)]

mod checking;
mod opening;
mod runs;
mod statistics;

pub use dbformat::{Command, Verdict};
pub use dbscan::{Desk, RootList};
pub use dbsource::{Geometry, Header, Out, RunError, Source};
pub use opening::open_in;
pub use runs::{run, run_on, told_files_are_run};

//! Looks for the changes that make a damaged database sound.
//!
//! [`mend`] writes each change, and how many faults a run over the file with it and all changes before it found. Nothing is written to the
//! file.
//!
//! [`count_changed`] counts the faults of a file with some changes, as a check does of the file itself. It writes nothing. So whether a
//! file would be sound with other bytes is answered before they are written.
//!
//! [`candidates`] gives, by what a run found, the edits that are worth a trial: for a reference that may be wrong the pages that it may have
//! named, and for another number the few values that fit. What it finds is tested, not proved: it is plain code, of which is proved that it
//! ends, and that it reads pieces of at most 65536 bytes, and nothing else.
#![tactic(auto)]

mod blocks;
mod choosing;
mod count;
mod counter;
mod counting;
mod edit;
mod fit;
mod gaps;
mod header_edits;
mod key;
mod known;
mod lengths;
mod lent;
mod looking;
mod lost;
mod mending;
mod numbers;
mod ordered;
mod places;
mod pointers;
mod ranked;
mod reading;
mod refused;
mod schema_rows;
mod stepping;
mod texts;
mod trunks;
mod trying;
mod wanted;

pub use choosing::candidates;
pub use count::Count;
pub use counter::Counter;
pub use counting::{Findings, count_changed};
pub use dbsource::{Change, Changes, Out, RunError, Source};
pub use edit::{Edit, changes_with};
pub use mending::mend;
pub use ranked::Tries;

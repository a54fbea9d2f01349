//! A picture of what the pages of a database are used for: one self-contained SVG, with a square for each page, or for a group of pages, in
//! the colour of the tree that owns it.
//!
//! ```
//! let mut source = MemSource::new(bytes);
//! let mut out = MemOut::new(alloc);
//! let verdict = map(alloc, "shop.db", &mut source, &mut out)?;
//! ```
//!
//! [`map`] reads the file as `explain` does, and writes no line of a fault: its reporter notes each fault, and the tree of each page.
//! When the walks and the end are done, and the lost pages have been looked at, it puts the picture (`dbpicture`).
//!
//! What is proved is what is read of the file, that the verdict is the check's, and that what is put is the picture of the file, which
//! is a function of the file, its survey and its name. No text of the file or of the command line comes into it but escaped.
#![tactic(auto)]

mod map_reporter;
mod maps;

pub use dbformat::Verdict;
pub use dbsource::{Out, RunError, Source};
pub use maps::{map, told_files_are_drawn};

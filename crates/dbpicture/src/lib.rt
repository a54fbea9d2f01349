//! The picture of a file: one self-contained SVG, with a square for each page, or for a group of pages, in the colour of the tree that
//! owns it. Nothing here reads a file: what is known of it was noted in [`KeptFaults`] and on the desk of its run.
//!
//! ```
//! let mut kept = KeptFaults::new_in(alloc, &desk.geometry())?;
//! // For each fault that the run reports, and for each row of a page.
//! kept.note(&reported);
//! kept.note_row(&row);
//! put_map("shop.db", &desk, &mut kept, &mut out)?;
//! ```
//!
//! The marks and the list of roots say which tree each page belongs to (`dbscan`); a first pass over the pages counts those of each
//! tree, and a second one writes the squares. The injuries are kept as `explain` keeps them (`dbinjuries`): their pages, and those of the
//! causes of their first faults, have a stronger frame than other pages with a fault. A page that is one byte throughout is white, with a
//! thin cross.
//!
//! The picture is a function of the file, its survey and its name (specs/Pictures). Each page, or group of pages, has one square, in their
//! order. The square of a page says what the page is and names its tree; that of a group with several owners is divided in six bands
//! (specs/Groups); each has the frame and the codes of the faults that the file's report has of its pages. The heading has the file's name,
//! and the legend a line for each owner of pages and each frame, with how many pages it has.
//!
//! The text of the document is put together of pieces, which are markup and numbers, and of texts of the file or of the command line,
//! which come into it escaped, and cut to a width (specs/Xml). specs/Names has the names of files.
#![tactic(auto)]

mod bands;
mod colours;
mod drawing;
mod fault_notes;
mod faults;
mod frame;
mod grid;
mod group;
mod kept;
mod kept_bytes;
mod labels;
mod legend;
mod legend_text;
mod listed;
mod outlines;
mod owner_shares;
mod page;
mod picture;
mod pieces;
mod shown;
mod size;
mod squares;
mod tally;
mod tree_text;
mod xml;

pub use dbsource::{Out, WriteFailed};
pub use drawing::put_map;
pub use kept::KeptFaults;

//! The b-tree pages of a database file: their heads, cells and freeblocks, and what these hold of a page. Nothing is
//! copied: a view borrows the page that it was made of. One reading by [`PageView::packed`] is enough for most pages.
//!
//! ```
//! // Page 2, of which all 4096 bytes are in use.
//! let view = PageView::new(page, 2, 4096)?;
//! for i in 0..view.cells() {
//!     if let Ok(cell) = view.cell(i) {
//!         payload += cell.local.len();
//!     }
//! }
//! let mut table = [0u8; 4096];
//! match uncounted_coverage(&view, &mut table) {
//!     Coverage::Overlap(item) => ..,
//!     Coverage::Unheld(bytes) => ..,
//! }
//! ```
#![tactic(auto)]

mod byte_runs;
mod cell;
mod common_cells;
mod freeblocks;
mod held_bytes;
mod looks;
mod mark_count;
mod mark_table;
mod noted_leaf;
mod notes;
mod packed;
mod run;
mod view;
mod whole_cells;

pub use byte_runs::usable_run;
pub use cell::Cell;
pub use dbformat::{ByteRun, CellFault, Coverage, HeadFault, Look, PageKind, Rowids, TreeLook};
pub use freeblocks::{Freeblock, Freeblocks};
pub use held_bytes::{coverage, uncounted_coverage};
pub use looks::{is_zeros, look_of};
pub use mark_count::MarkCount;
pub use packed::{CellSums, Packed, is_rising};
pub use view::{PageView, content_start, type_byte};

//! Where the bytes of a database come from, what its header says, and where a report goes.
//!
//! ```
//! let mut source = MemSource::new(bytes);
//! let header = Header::read(&mut source)?;
//! let mut page = [0u8; 512];
//! source.read_at(u64::from(header.geometry().page_size), &mut page)?;
//! let mut out = MemOut::new(alloc);
//! out.put(b"ok\n")?;
//! ```
#![tactic(auto)]

mod bench;
mod buffered_out;
mod change;
mod changes;
mod claims;
mod error;
mod failures;
mod file_source;
mod geometry;
mod headed_source;
mod header;
mod header_fields;
mod header_words;
mod log_source;
pub mod memory;
mod memory_out;
mod memory_source;
mod out;
mod patched;
mod read_ahead;
mod read_along;
mod source;
mod stream_out;
mod used_share;

pub use bench::{Bench, load_page};
pub use buffered_out::BufferedOut;
pub use change::{Change, ChangeError};
pub use changes::Changes;
pub use claims::{Claim, patched_files_are_read, told_files_are_read};
pub use dbformat::{ByteRange, Encoding, Fixed, Geometry, Refusal};
pub use error::{OpenError, RunError};
pub use failures::Failures;
pub use file_source::FileSource;
pub use geometry::shape_of;
pub use headed_source::HeadedSource;
pub use header::Header;
pub use header_words::HEADER_LEN;
pub use log_source::{LogSource, log_source_keeps_its_log};
pub use memory::NoMemory;
pub use memory_out::MemOut;
pub use memory_source::MemSource;
pub use out::{Out, WriteFailed};
pub use patched::Patched;
pub use source::{ReadFailed, Source};
pub use stream_out::StreamOut;

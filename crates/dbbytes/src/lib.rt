//! The byte formats of a database file: its numbers, how much of a payload is in a cell, and the rows of its schema,
//! read piece by piece.
//!
//! ```
//! let (rowid, len) = varint(bytes)?;
//! // A record of 600 bytes, in pieces on several pages.
//! let mut sieve = RowSieve::new(600, Encoding::Utf8);
//! for piece in pieces {
//!     sieve.feed(piece);
//! }
//! let row = sieve.finish()?;
//! ```
#![tactic(auto)]

mod name;
mod partial;
mod payload;
mod plain;
mod record_header;
mod row;
mod serial;
mod sieve;
mod text;
mod varints;
mod window;

pub use dbformat::{Encoding, PayloadKind, RowFault, RowKind};
pub use dbsource::{Out, WriteFailed};
pub use name::name_text;
pub use payload::{local_len, most_local};
pub use plain::plain_name_text;
pub use row::{MAX_NAME, SchemaRow};
pub use serial::serial_len;
pub use sieve::RowSieve;
pub use varints::{short_varint, varint, varint_of_four, varint_of_nine};

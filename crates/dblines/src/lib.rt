//! The lines of a report, each put to an [`Out`](dbsource::Out) as a whole: a fault, how many more there are, and `ok`.
//! Also the pieces of lines that are made on the stack.
#![tactic(auto)]

mod codes;
mod first_bytes;
mod lines;
mod pieces;
mod writer;

pub use arrayvec::ArrayVec;
pub use codes::{code_text, code_words};
pub use dbformat::{Fault, FaultCode};
pub use dbsource::{Out, WriteFailed};
pub use first_bytes::append_first_bytes;
pub use lines::{put_fault, put_ok, put_rest};
pub use pieces::{append, append_number};
pub use writer::Writer;

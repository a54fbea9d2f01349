//! The logs of SQLite, and a database as SQLite would open it beside one.
#![tactic(auto)]

mod cold;
mod entry;
mod error;
mod gathered;
mod index;
mod journal;
mod journal_error;
mod journal_reading;
mod laws;
mod log_pages;
mod logged;
mod names;
mod reading;
mod rollback;
mod scan;
mod stated;
mod sums;
#[cfg(test)]
mod tests;
mod wal_header;

pub use cold::Cold;
pub use entry::Entry;
pub use error::LogError;
pub use index::{Counts, Index};
pub use journal_error::JournalError;
pub use journal_reading::Journal;
pub use laws::{both_are_read, both_logs_recover, index_recovers, journal_rolls_back};
pub use log_pages::LogPages;
pub use logged::Logged;
pub use names::{SuperName, super_name};
pub use rollback::Rollback;
pub use stated::measure;

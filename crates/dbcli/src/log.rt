// The logs of a database.
ghost use Rattle.std.specs.Prelude.{◌≡◌};
ghost use Rattle.dbcli.specs.OpeningFiles.{suffix_of};

use std::alloc::{AllocError, Global};

/// A log that SQLite keeps beside a database.
#[derive(Clone, Copy)]
pub enum Log {
    /// A rollback journal.
    Journal,
    /// A write-ahead log.
    Wal,
}

impl Log {
    /// What its name has after that of its database.
    pub(crate) fn suffix(self) -> &'static str
        ensures { result.now ≡ suffix_of self }
    {
        match self {
            Log::Journal => "-journal",
            Log::Wal => "-wal",
        }
    }

    /// The path of this log of the database at a path.
    pub(crate) fn beside(self, alloc: Global, database: &str) -> Result<String, AllocError> {
        let suffix = self.suffix();
        format!(in alloc; "{database}{suffix}")
    }
}

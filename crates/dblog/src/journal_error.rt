// Why a rollback journal was not read.
use dbsource::{NoMemory, ReadFailed};
use thiserror::Error;

/// Why a rollback journal was not read.
#[derive(Clone, Copy, Debug, Error, PartialEq, Eq)]
pub enum JournalError {
    /// The source failed to answer its length, or a read.
    #[error("the journal cannot be read")]
    ReadFailed,
    /// Memory was refused.
    #[error("out of memory")]
    OutOfMemory(NoMemory),
    /// The journal has 32 GiB or more.
    #[error("the journal is too long")]
    TooLong,
}

impl From<ReadFailed> for JournalError {
    ghost use Rattle.std.specs.Prelude.{◌≡◌};
    ghost use Rattle.dblog.specs.declared.journal_error.JournalError.TheVariants as journal_error;

    ghost from_gives = { λ _ e. e ≡ journal_error.ReadFailed };

    fn from(_error: ReadFailed) -> JournalError {
        JournalError::ReadFailed
    }
}

impl From<NoMemory> for JournalError {
    ghost use Rattle.std.specs.Prelude.{◌≡◌};
    ghost use Rattle.dblog.specs.declared.journal_error.JournalError.TheVariants as journal_error;

    ghost from_gives = { λ refused e. e ≡ journal_error.OutOfMemory refused };

    fn from(refused: NoMemory) -> JournalError {
        JournalError::OutOfMemory(refused)
    }
}

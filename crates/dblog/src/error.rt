// Why a log was not read.
use dbsource::{NoMemory, ReadFailed};
use thiserror::Error;

/// Why a log was not read.
#[derive(Clone, Copy, Debug, Error, PartialEq, Eq)]
pub enum LogError {
    /// The source failed to answer its length, or a read.
    #[error("the log cannot be read")]
    ReadFailed,
    /// Memory was refused.
    #[error("out of memory")]
    OutOfMemory(NoMemory),
    /// The log has a version that SQLite does not open.
    #[error("the log has an unknown version")]
    Version,
}

impl From<ReadFailed> for LogError {
    ghost use Rattle.std.specs.Prelude.{◌≡◌};
    ghost use Rattle.dblog.specs.declared.error.LogError.TheVariants as log_error;

    ghost from_gives = { λ _ e. e ≡ log_error.ReadFailed };

    fn from(_error: ReadFailed) -> LogError {
        LogError::ReadFailed
    }
}

impl From<NoMemory> for LogError {
    ghost use Rattle.std.specs.Prelude.{◌≡◌};
    ghost use Rattle.dblog.specs.declared.error.LogError.TheVariants as log_error;

    ghost from_gives = { λ refused e. e ≡ log_error.OutOfMemory refused };

    fn from(refused: NoMemory) -> LogError {
        LogError::OutOfMemory(refused)
    }
}

// Exit statuses.
ghost use Rattle.std.specs.Prelude.{◌≡◌};
ghost use Rattle.dbcli.specs.Status.{exit_status, line_status};

use crate::command_line::LineError;
use clap::error::ErrorKind;
use dbreport::Verdict;
use dbsource::RunError;

/// The exit status for the outcome of a run: 0 without a fault, 1 with faults, 3 for a refused file, 4 for a file that
/// cannot be read, 5 for want of memory, and 6 for output that cannot be written.
pub fn status_of(outcome: &Result<Verdict, RunError>) -> u8
    ensures { result ≡ exit_status outcome.now }
{
    match outcome {
        Ok(Verdict::Clean) => 0,
        Ok(Verdict::Faulty(_)) => 1,
        Err(RunError::Refused(_)) => 3,
        Err(RunError::ReadFailed) => 4,
        Err(RunError::OutOfMemory { .. }) => 5,
        Err(RunError::WriteFailed) => 6,
    }
}

/// The exit status for a command line that is not taken: 0 where it asks for help or the version, 5 for want of memory, else 2.
pub fn line_status(error: &LineError) -> u8
    ensures { result ≡ line_status error.now }
{
    match error {
        LineError::Words(error) => match error.kind() {
            ErrorKind::DisplayHelp | ErrorKind::DisplayVersion => 0,
            ErrorKind::OutOfMemory => 5,
            _ => 2,
        },
        LineError::Limit | LineError::With(_) | LineError::NotText(_) => 2,
    }
}

// The file of a run, and its logs: opened, and given back.
ghost use Rattle.std.specs.Prelude.{◌≡◌};
ghost use Rattle.dbcli.specs.OpeningFiles.{ClosesFiles, ClosesLog, OpensFiles, OpensLogs};

use crate::command_line::Line;
use crate::log::Log;
use crate::opening::Opener;
use dbsource::RunError;

// Gives a log back, if there is one.
fn close_log<F: Opener>(files: &mut F, log: Option<F::File>)
    ensures { ClosesLog F.opens F.opens_log F.closes log files.old files.new }
{
    if let Some(log) = log {
        files.close(log);
    }
}

// Opens the logs of the database at this path, if there are some. Where one cannot be opened, the other is given back.
fn open_logs<F: Opener>(
    files: &mut F,
    path: &str,
) -> Result<(Option<F::File>, Option<F::File>), RunError>
    ensures { OpensLogs F.opens F.opens_log F.closes path.now result files.old files.new }
{
    let journal = match files.open_log(path, Log::Journal) {
        Ok(journal) => journal,
        Err(error) => return Err(error),
    };
    match files.open_log(path, Log::Wal) {
        Ok(wal) => Ok((journal, wal)),
        Err(error) => {
            close_log(files, journal);
            Err(error)
        }
    }
}

/// Opens the file of a line, and its logs, if the line asks for them and there are some. Where a log cannot be opened, what was opened is
/// given back.
pub(crate) fn open_files<F: Opener>(
    files: &mut F,
    line: &Line<'_>,
) -> Result<(F::File, Option<F::File>, Option<F::File>), RunError>
    ensures { OpensFiles F.opens F.opens_log F.closes line.now.recovered line.now.file.now result files.old files.new }
{
    let base = match files.open(line.file) {
        Ok(base) => base,
        Err(error) => return Err(RunError::from(error)),
    };
    if !line.recovered {
        return Ok((base, None, None));
    }
    match open_logs(files, line.file) {
        Ok((journal, wal)) => Ok((base, journal, wal)),
        Err(error) => {
            files.close(base);
            Err(error)
        }
    }
}

/// Gives back what was opened.
pub(crate) fn close_files<F: Opener>(
    files: &mut F,
    opened: (F::File, Option<F::File>, Option<F::File>),
)
    ensures { ClosesFiles F.opens F.opens_log F.closes opened files.old files.new }
{
    let (base, journal, wal) = opened;
    files.close(base);
    close_log(files, journal);
    close_log(files, wal);
}

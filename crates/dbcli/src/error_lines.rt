// The lines of errors.
ghost use Rattle.std.specs.Prelude.{◌≡◌};
ghost use Rattle.dbcli.specs.ErrorLines.{error_line, refusal_line, unrun_line};
ghost use Rattle.dbsource.specs.declared.error.RunError.TheVariants.{OutOfMemory};

use dbsource::{Refusal, RunError};

#[tactic(auto, unfolding(crate::specs::ErrorLines::refusal_line))]
fn refusal_line(refusal: Refusal) -> &'static str
    ensures { result.now ≡ refusal_line refusal }
{
    match refusal {
        Refusal::Short => "dbck: E1 file is shorter than 100 bytes\n",
        Refusal::Magic => "dbck: E2 file is not a SQLite 3 database\n",
        Refusal::PageSize => "dbck: E3 page size is not valid\n",
        Refusal::Usable => "dbck: E4 usable size is below 480\n",
        Refusal::NoPage => "dbck: E5 file has no whole page\n",
        Refusal::TooManyPages => "dbck: E6 file has more than 67108864 pages\n",
        Refusal::MapAtLock => "dbck: E7 pointer map at the lock-byte page\n",
    }
}

/// Why there is no run of a file that was opened.
#[derive(Clone, Copy)]
pub enum Unrun {
    /// A change is past its end.
    PastEnd,
    /// Its log has a version that SQLite does not open.
    Version,
    /// Its log has pages of another size.
    PageSize,
}

/// The line that says why there is no run, with its line feed.
#[tactic(auto, unfolding(crate::specs::ErrorLines::unrun_line))]
pub fn unrun_line(why: Unrun) -> &'static str
    ensures { result.now ≡ unrun_line why }
{
    match why {
        Unrun::PastEnd => "dbck: E11 a byte of --with is past the end of the file\n",
        Unrun::Version | Unrun::PageSize => "dbck: E11 the log does not fit the database\n",
    }
}

/// The line of want of memory, with its line feed.
#[tactic(auto, unfolding(crate::specs::ErrorLines::error_line))]
pub fn no_memory_line() -> &'static str
    ensures { result.now ≡ error_line OutOfMemory }
{
    "dbck: E9 out of memory\n"
}

/// The line of an error, with its line feed: the program's name and the text of the error.
#[tactic(auto, unfolding(crate::specs::ErrorLines::error_line))]
pub fn error_line(error: RunError) -> &'static str
    ensures { result.now ≡ error_line error }
{
    match error {
        RunError::Refused(refusal) => refusal_line(refusal),
        RunError::ReadFailed => "dbck: E8 the file cannot be read\n",
        RunError::OutOfMemory { .. } => no_memory_line(),
        RunError::WriteFailed => "dbck: E10 the output cannot be written\n",
    }
}

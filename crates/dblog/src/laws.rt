// What is so of every log.
ghost use Rattle.dblog.specs.Laws.{BothAreRead, BothLogsRecover, IndexRecovers, JournalRollsBack};

use dbsource::{Claim, Source};

/// By its index a write-ahead log gives the database that SQLite recovers of it.
pub fn index_recovers()
    ensures { IndexRecovers }
{}

/// By its index a rollback journal gives the database that SQLite rolls back by it.
pub fn journal_rolls_back()
    ensures { JournalRollsBack }
{}

/// A write-ahead log over what a rollback journal makes of a file gives the database that SQLite makes of all three.
pub fn both_logs_recover()
    ensures { BothLogsRecover }
{}

/// What a run over [`Logged`](crate::Logged) read, it read of the file and of the log: of each file and each log that agree with what
/// these answered, whatever is claimed of a database that was read is so of what the log makes of the file. A range in one page is
/// asked of one of them, once.
pub fn both_are_read<B: Source, L: Source, C: Claim>()
    ensures { BothAreRead B.step L.step C.asks C.holds }
{}

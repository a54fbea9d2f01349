// Why nothing of a rollback journal is used.
ghost use Rattle.std.specs.Prelude.{◌≡◌, ◌≤◌, length};
ghost use Rattle.dblog.specs.Journal.{cold_by};

use crate::journal::has_magic;

/// Why nothing of a rollback journal is used.
#[derive(Clone, Copy)]
pub enum Cold {
    /// It has fewer than 512 bytes.
    Short,
    /// It begins with 0: SQLite does not need it.
    Zeroed,
    /// It does not begin as a journal does.
    NoMagic,
    /// Its header states a size of a page or of a sector that there is not, or a sector that is longer than the journal.
    Sizes,
}

impl Cold {
    // The reason by the first head, where the journal is long enough.
    pub(crate) fn by_head(head: &[u8]) -> Cold
        requires { 28 ≤ length head.now }
        ensures { result ≡ cold_by head.now }
    {
        if head[0] == 0 {
            Cold::Zeroed
        } else if has_magic(head) {
            Cold::Sizes
        } else {
            Cold::NoMagic
        }
    }
}

// A database and a rollback journal beside it.
ghost use Rattle.std.specs.Prelude.{◌≡◌, IfSome, OnOk};
ghost use Rattle.std.specs.Option.{option_copied};
ghost use Rattle.dbsource.specs.Sources.{AreBytes};
ghost use Rattle.dblog.specs.Rollbacks.{FindsJournal, ReadsNamed, used_pages};

use crate::cold::Cold;
use crate::journal_error::JournalError;
use crate::journal_reading::Journal;
use crate::log_pages::LogPages;
use crate::names::{SuperName, super_name};
use crate::stated::measure;
use dbsource::Source;
use std::alloc::{Allocator, Global};
use std::marker::Model;

/// What is found of a database and a rollback journal beside it: the length of the database; what is used of the journal, or why nothing
/// is; and the super-journal that it then names, if it names one.
#[derive(Drop)]
pub struct Rollback<A: Allocator = Global> {
    len: u64,
    journal: Result<Journal<A>, Cold>,
    name: Option<SuperName>,
}

impl<A: Allocator> Model for Rollback<A> {
    ghost use Rattle.dblog.specs.Rollbacks.{Found};

    ghost Value = { Found };

    ghost view = { λ r. record { len = r.len; journal = r.journal; name = r.name } };
}

// Reads a journal, and the name of a super-journal, if something of it is used.
fn read_named<L: Source, A: Allocator + Copy>(
    alloc: A,
    log: &mut L,
    len: u64,
    stored: u32,
) -> Result<Rollback<A>, JournalError>
    ensures named { ReadsNamed L.step L.lengths len stored result (L.held log.old) (L.held log.new) }
    ensures bytes { IfSome (L.held log.old).bytes AreBytes }
{
    match Journal::read(alloc, log, stored) {
        Ok(Ok(journal)) => match super_name(log, journal.len()) {
            Ok(name) => Ok(Rollback {
                len,
                journal: Ok(journal),
                name,
            }),
            Err(error) => Err(JournalError::from(error)),
        },
        Ok(Err(cold)) => Ok(Rollback {
            len,
            journal: Err(cold),
            name: None,
        }),
        Err(error) => Err(error),
    }
}

impl<A: Allocator + Copy> Rollback<A> {
    /// Asks for the length of a database, and for the size of a page that it states, and then reads a journal: once, in order, from its
    /// start. If something of it is used, its last bytes are read once more, for the name of a super-journal.
    ///
    /// # Errors
    ///
    /// Those of [`Journal::read`].
    pub fn find<B: Source, L: Source>(
        alloc: A,
        base: &mut B,
        log: &mut L,
    ) -> Result<Rollback<A>, JournalError>
        ensures found { FindsJournal B.step B.lengths L.step L.lengths result (record { base = B.held base.old; log = L.held log.old })
            (record { base = B.held base.new; log = L.held log.new }) }
        ensures base { IfSome (B.held base.new).bytes AreBytes }
        ensures log { OnOk result (IfSome (L.held log.new).bytes AreBytes) }
    {
        match measure(base) {
            Ok((len, stored)) => read_named(alloc, log, len, stored),
            Err(error) => Err(JournalError::from(error)),
        }
    }
}

impl<A: Allocator> Rollback<A> {
    /// The length of the database.
    pub fn len(&self) -> u64
        ensures { result ≡ self.now.len }
    {
        self.len
    }

    /// What is used of the journal, or why nothing is.
    pub fn journal(&self) -> &Result<Journal<A>, Cold>
        ensures { result.now ≡ self.now.journal }
    {
        &self.journal
    }

    /// The super-journal that it names, if it names one.
    pub fn name(&self) -> Option<&SuperName>
        ensures { option_copied result ≡ self.now.name }
    {
        self.name.as_ref()
    }

    /// Where the journal has its pages, if it is rolled back. One that names a super-journal is rolled back only if that exists.
    pub fn into_pages(self, is_there: bool) -> Option<LogPages<A>>
        ensures { result ≡ used_pages is_there self }
    {
        if self.len == 0 || (self.name.is_some() && !is_there) {
            return None;
        }
        match self.journal {
            Ok(journal) => Some(journal.into_pages()),
            Err(_) => None,
        }
    }
}

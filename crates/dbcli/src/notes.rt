// Notes on a file: lines beside the report, which they do not change.
ghost use Rattle.std.specs.Prelude.{◌≡◌, ◌==◌, ◌<◌, ◌%◌, ◌↔◌, IsTrue, length, sum_by};
ghost use Rattle.std.specs.List.{list_all};
ghost use Rattle.dbcli.specs.Beside.{IsSuperThere};
ghost use Rattle.dbcli.specs.NoteLines.{beginning_text, piece_text};

use crate::error_lines::Unrun;
use crate::finishing::Notes;
use crate::format::Format;
use crate::journal_notes::{put_journal, put_unread};
use crate::log::Log;
use crate::log_notes::put_found;
use crate::logs::put_log_notes;
use crate::lookup::Lookup;
use crate::note::{NoteOut, Piece};
use crate::opening::target_of;
use crate::rest::put_rest;
use crate::shown::Shown;
use crate::stamp::Stamp;
use crate::task::Task;
use crate::unread::{FailedReads, put_failed};
use crate::unwritten::FailedWrites;
use crate::watched::Watch;
use dblog::{Index, JournalError, LogError, Rollback};
use dbreport::Verdict;
use dbsource::{Changes, Out, Refusal, RunError};
use std::alloc::Global;

// What is said of a file, or of a log of it, that somebody writes to.
const CHANGED: &str = " was changed while it was read; the report may be of no state that it had";

/// Puts notes on the file at a path; `watch` has what the run has seen of it, `writes` of its outputs, and `reads` which read failed.
#[derive(Drop)]
pub struct FileNotes<'a, R, N> {
    rt: &'a R,
    file: &'a str,
    watch: &'a Watch,
    writes: &'a FailedWrites,
    reads: &'a FailedReads,
    notes: NoteOut<'a, N>,
    before: Option<Stamp>,
    // The path that the logs which are read are beside: that of what a link leads to.
    database: Option<String>,
    // What the system knew of these logs when they were opened.
    journal_before: Option<Stamp>,
    wal_before: Option<Stamp>,
    is_open: bool,
    // Whether its log could be read, if it has one that is read.
    is_read: bool,
    // How many references lead to pages after the stated end, where they were counted.
    references: u64,
    // Whether the file and a log of it are run as one.
    is_joined: bool,
    // The file's name, and why it cannot be opened, if that is known.
    reason: Option<Shown>,
}

impl<'a, R: Lookup + AllocGlobal, N: Out> FileNotes<'a, R, N> {
    /// Notes on a file that is not yet opened.
    pub fn new(
        rt: &'a R,
        file: &'a str,
        watch: &'a Watch,
        writes: &'a FailedWrites,
        reads: &'a FailedReads,
        notes: &'a mut N,
    ) -> FileNotes<'a, R, N>
        ensures out { result.notes.out.now ≡ notes.old }
        ensures rt { result.rt.now ≡ rt.now }
    {
        FileNotes {
            rt,
            file,
            watch,
            writes,
            reads,
            notes: NoteOut::new(rt.alloc(), notes),
            before: Stamp::at(rt, file),
            database: None,
            journal_before: None,
            wal_before: None,
            is_open: false,
            is_read: true,
            references: 0,
            is_joined: false,
            reason: None,
        }
    }

    /// What gives memory.
    pub fn alloc(&self) -> Global {
        self.rt.alloc()
    }

    /// What the run has seen of the file.
    pub fn watch(&self) -> &'a Watch {
        self.watch
    }

    /// Says that the file was opened, and its logs too, if those are read. A note is put on each log beside it that is not.
    pub fn opened(&mut self, recovered: bool)
        ensures { self.new.rt.now ≡ self.old.rt.now }
    {
        self.is_open = true;
        if recovered {
            self.database = database_of(self.rt, self.file);
            self.journal_before = self.stamp_of(Log::Journal);
            self.wal_before = self.stamp_of(Log::Wal);
        } else {
            put_log_notes(self.rt, self.file, &mut self.notes);
        }
    }

    /// Says that the file could not be opened, or a log of it, and why, if that is known.
    pub fn unopened(&mut self, reason: Option<(Option<Log>, &str)>) {
        let alloc = self.rt.alloc();
        if let Some((log, reason)) = reason {
            if log.is_some() {
                self.database = database_of(self.rt, self.file);
            }
            if let Some(name) = self.name_of(log)
                && let Ok(said) = format!(in alloc; "{name}: {reason}")
            {
                self.reason = Shown::of(alloc, said.as_str()).ok();
            }
        }
    }

    /// Takes what was found in the write-ahead log, with the length of the file, and puts a note on it.
    pub fn log_read(&mut self, found: &Result<(Index, u64), LogError>) {
        if let Some(name) = self.shown_name(Some(Log::Wal)) {
            put_found(&mut self.notes, &name, found);
        }
        self.is_read = found.is_ok();
    }

    /// Whether the super-journal is there that a journal names, if it names one.
    pub fn has_super(&self, found: &Rollback) -> bool
        ensures { IsSuperThere (R.finds self.now.rt.now) found.now.name result }
    {
        match found.name() {
            Some(name) => self.rt.has_super(name.bytes()),
            None => false,
        }
    }

    /// Says what was found in the rollback journal, and whether the super-journal is there that it names: a note is put on it.
    pub fn journal_read(&mut self, found: &Rollback, is_there: bool) {
        if let Some(name) = self.name_of(Some(Log::Journal)) {
            let alloc = self.rt.alloc();
            put_journal(alloc, &mut self.notes, name.as_str(), found, is_there);
        }
    }

    /// Says why the rollback journal, or the file before it, was not read: a note is put on it.
    pub fn journal_unread(&mut self, error: JournalError) {
        if let Some(name) = self.shown_name(Some(Log::Journal)) {
            put_unread(&mut self.notes, &name, error);
        }
        self.is_read = false;
    }

    /// Says that the file and a log of it are run as one: the changes of a mend are then not those of the file. The note on
    /// that is put once, even if both logs are used.
    pub fn joined(&mut self, task: Task<'_>) {
        if let Task::Mend { .. } = task
            && !self.is_joined
        {
            self.put_of_file(&[Piece::Words(
                ": the changes are of the database that SQLite would recover, not of this file",
            )]);
        }
        self.is_joined = true;
    }

    // The name of the file, or of a log of it.
    fn name_of(&self, log: Option<Log>) -> Option<String> {
        let alloc = self.rt.alloc();
        match log {
            Some(log) => log.beside(alloc, self.database.as_deref()?).ok(),
            None => String::from_str(alloc, self.file).ok(),
        }
    }

    // The same, as it is shown.
    fn shown_name(&self, log: Option<Log>) -> Option<Shown> {
        let name = self.name_of(log)?;
        Shown::of(self.rt.alloc(), name.as_str()).ok()
    }

    // What the system knows of a log of the file.
    fn stamp_of(&self, log: Log) -> Option<Stamp> {
        let name = self.name_of(Some(log))?;
        Stamp::at(self.rt, name.as_str())
    }

    // The note on a log that was changed since it had this stamp.
    fn put_changed(&mut self, log: Log, before: Option<Stamp>) {
        if let Some(before) = before
            && let Some(name) = self.name_of(Some(log))
            && let Some(after) = Stamp::at(self.rt, name.as_str())
            && before.is_changed(after)
            && let Ok(name) = Shown::of(self.rt.alloc(), name.as_str())
        {
            self.notes.put(&name, &[Piece::Words(CHANGED)]);
        }
    }

    // The notes on the file and its logs, if they were changed since they were opened.
    fn put_changes(&mut self) {
        if self.is_open && self.has_changed() {
            self.put_of_file(&[Piece::Words(CHANGED)]);
        }
        self.put_changed(Log::Journal, self.journal_before);
        self.put_changed(Log::Wal, self.wal_before);
    }

    // Puts a note of the file's name, and of what is said of it.
    fn put_of_file(&mut self, said: &[Piece]) {
        if let Ok(name) = Shown::of(self.rt.alloc(), self.file) {
            self.notes.put(&name, said);
        }
    }

    // What follows the file's name where a note is about the bytes of the run, which may not be those of the file.
    fn as_run(&self) -> Piece {
        Piece::Words(if self.is_joined {
            ", as SQLite would recover it,"
        } else {
            ""
        })
    }

    // The note on a copy that was made as of a text, if the file has no whole pages or it may have them.
    fn put_copied(&mut self, is_cut: bool) {
        if let Some(copied) = self.watch.copied()
            && (is_cut || copied.keeps_length())
        {
            let none = Shown::none(self.rt.alloc());
            self.notes.put(&none, &[Piece::Words(copied.text())]);
        }
    }

    // The note on the bytes after the last page, if there are some, and on the references that lead there.
    fn put_rest(&mut self) {
        if let Some(geometry) = self.watch.geometry() {
            let none = Shown::none(self.rt.alloc());
            put_rest(
                &mut self.notes,
                &none,
                self.watch.len(),
                geometry,
                self.references,
            );
        }
    }

    // The note on a file that cannot be read: why it could not be opened, or which read of it or of a log of it failed.
    fn put_unread(&mut self) {
        if !self.is_open {
            if let Some(reason) = &self.reason {
                self.notes.put(reason, &[]);
            }
            return;
        }
        if !self.is_read {
            return;
        }
        match self.reads.last() {
            Some(failed) => {
                if let Some(name) = self.shown_name(failed.log) {
                    put_failed(&mut self.notes, &name, failed.range);
                }
            }
            None => self.put_of_file(&[Piece::Words(": its length is not known")]),
        }
    }

    // The note on an output that cannot be written, if the system said why.
    fn put_unwritten(&mut self) {
        if let Some(failed) = self.writes.first()
            && let Ok(said) = failed.text(self.rt.alloc())
            && let Ok(said) = Shown::of(self.rt.alloc(), said.as_str())
        {
            self.notes.put(&said, &[]);
        }
    }

    // What is known of a refused file: that it has no bytes, or which bytes it begins with.
    fn put_known(&mut self, refusal: Refusal) {
        match refusal {
            Refusal::Short if self.watch.len() == 0 => {
                let said = " has no bytes; to SQLite it is an empty database";
                self.put_of_file(&[self.as_run(), Piece::Words(said)]);
            }
            Refusal::Magic => {
                self.put_of_file(&[self.as_run(), beginning(self.watch.first())]);
            }
            _ => {}
        }
    }

    // How many bytes there are.
    fn put_length(&mut self) {
        let what = self.as_run();
        let noun = match self.watch.len() {
            0 => return self.put_of_file(&[what, Piece::Words(" has no bytes")]),
            1 => " byte",
            _ => " bytes",
        };
        let len = Piece::Number(self.watch.len());
        self.put_of_file(&[what, Piece::Words(" has "), len, Piece::Words(noun)]);
    }

    // Whether the last page that the file has bytes of is not whole.
    fn ends_in_part(&self) -> bool {
        match self.watch.geometry() {
            Some(geometry) => ends_in_part(self.watch.len(), geometry.page_size),
            None => false,
        }
    }

    // Whether the file was changed, if its name still leads to it.
    fn has_changed(&self) -> bool {
        let Some(before) = self.before else {
            return false;
        };
        match Stamp::at(self.rt, self.file) {
            Some(after) => before.is_changed(after),
            None => false,
        }
    }
}

impl<R: Lookup + AllocGlobal, N: Out> Notes for FileNotes<'_, R, N> {
    fn begin(&mut self, changes: &Changes) {
        let count = changed_bytes(changes);
        let noun = if count == 1 {
            " other byte"
        } else {
            " other bytes"
        };
        self.put_of_file(&[
            Piece::Words(" with "),
            Piece::Number(count),
            Piece::Words(noun),
        ]);
    }

    fn report_references(&mut self, count: u64) {
        self.references = count;
    }

    fn report_unrun(&mut self, why: Unrun) {
        match why {
            Unrun::PastEnd => self.put_length(),
            Unrun::Version => {}
            Unrun::PageSize => self.put_of_file(&[Piece::Words(
                " and its log have pages of different sizes",
            )]),
        }
        self.put_changes();
    }

    fn report_outcome(&mut self, outcome: &Result<Verdict, RunError>) {
        match outcome {
            Ok(verdict) => {
                if *verdict != Verdict::Clean {
                    self.put_copied(self.ends_in_part());
                }
                self.put_rest();
            }
            Err(RunError::Refused(refusal)) => {
                self.put_of_file(&[Piece::Words(" is not checked")]);
                self.put_copied(true);
                self.put_known(*refusal);
            }
            Err(RunError::ReadFailed) => self.put_unread(),
            Err(RunError::WriteFailed) => self.put_unwritten(),
            Err(RunError::OutOfMemory { .. }) => {}
        }
        self.put_changes();
    }
}

// The path of the database at a path: that of what it leads to, if it is a link.
fn database_of<R: Lookup + AllocGlobal>(rt: &R, path: &str) -> Option<String> {
    match target_of(rt, path).ok()? {
        Some(target) => Some(target),
        None => String::from_str(rt.alloc(), path).ok(),
    }
}

// How many bytes of a file are others.
fn changed_bytes(changes: &Changes) -> u64
    ensures { result ≡ sum_by (λ change. length change.bytes) changes.now }
{
    let mut count = 0u64;
    for change in changes.as_slice() {
        count = count.saturating_add(change.count() as u64);
    }
    count
}

// Whether bytes are zeros.
fn are_zeros(bytes: &[u8]) -> bool
    ensures { result ≡ list_all (λ byte. byte == 0) bytes.now }
{
    bytes.iter().all(|byte| *byte == 0)
}

// What the first bytes of a file are.
fn beginning(first: [u8; 16]) -> Piece
    ensures { piece_text result ≡ beginning_text first }
{
    if are_zeros(&first) {
        return Piece::Words(" begins with zeros");
    }
    match Format::of(&first) {
        Some(format) => Piece::Words(format.text()),
        None => Piece::First(first),
    }
}

// Whether a file of this length ends within a page.
fn ends_in_part(len: u64, page_size: u32) -> bool
    ensures { 0 < page_size → IsTrue result ↔ 0 < len % page_size }
{
    len.checked_rem(u64::from(page_size)) != Some(0)
}

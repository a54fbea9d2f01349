// Who opens a file, and gets it back.
use crate::log::Log;
use crate::lookup::{LOGS_UNKNOWN, LONGEST_PATH, Lookup, is_nothing, is_something};
use crate::unread::{FailedReads, Traced};
use crate::unwritten::system_text;
use dbsource::{FileSource, ReadFailed, RunError, Source, memory};
use std::alloc::AllocError;
use std::fs::{self, File};
use std::os::unix::fs::FileTypeExt;
use std::rt::{Clock, Files};
use std::{io, str};

/// Opens files by their paths, and gets each back when it was read.
pub trait Opener {
    ghost use Rattle.std.specs.Prelude.{ℕ, List, Option, Result};
    ghost use Rattle.dbsource.specs.declared.error.RunError.{RunError as Why};
    ghost use Rattle.dbsource.specs.declared.source.ReadFailed.{ReadFailed as Unread};
    ghost use Rattle.dbcli.specs.declared.log.Log.{Log as Beside};

    /// What the bytes of an opened file are read from.
    type File: Source + Drop;

    // What opening a path makes of the opener, and which file the answer is.
    ghost opens: { Self → List ℕ → Result Self.File Unread → Self → Type 0 };
    // What opening a log of a path makes of the opener: the answer is the log, or that there is none.
    ghost opens_log: { Self → List ℕ → Beside → Result (Option Self.File) Why → Self → Type 0 };
    // What a file that is given back makes of the opener, by the state in which it is.
    ghost closes: { Self → Self.File → Self → Type 0 };

    /// Opens the file at `path` for reading.
    ///
    /// # Errors
    ///
    /// [`ReadFailed`] where it cannot be opened.
    fn open(&mut self, path: &str) -> Result<Self::File, ReadFailed>
        ensures { opens self.old path.now result self.new };

    /// Opens a log of the database at `path`, for reading. Its name is that of the database with `-journal` or `-wal` after it; if `path` is
    /// a link, the database is what it leads to. `None` where there is no log of this name, or there can be none, or it has no bytes.
    ///
    /// # Errors
    ///
    /// [`RunError::ReadFailed`] where it cannot be opened, and [`RunError::OutOfMemory`] where memory for its name was refused.
    fn open_log(&mut self, path: &str, log: Log) -> Result<Option<Self::File>, RunError>
        ensures { opens_log self.old path.now log result self.new };

    /// Takes back a file that it opened.
    fn close(&mut self, file: Self::File)
        ensures { closes self.old file self.new };

    /// Why the last file that could not be opened could not, if that is known, and which file it was: the database, or a log of it.
    fn reason(&self) -> Option<(Option<Log>, &str)>;
}

/// The files of the system, as [`FileSource`] opens them. Which read of one failed is kept for the notes.
#[derive(Drop)]
pub struct SystemFiles<'a, R> {
    rt: &'a R,
    reads: &'a FailedReads,
    // The last file that could not be opened, the database or a log of it, and why.
    reason: Option<(Option<Log>, String)>,
}

impl<'a, R: Files<File = File> + Clock + AllocGlobal> SystemFiles<'a, R> {
    ghost use Rattle.std.specs.Prelude.{◌≡◌, IfOk};
    ghost use Rattle.dbsource.specs.Sources.{untold_source};

    /// The files of the system that `rt` reaches.
    pub fn new(rt: &'a R, reads: &'a FailedReads) -> SystemFiles<'a, R> {
        SystemFiles {
            rt,
            reads,
            reason: None,
        }
    }

    // Opens the file of this name: the database, or a log of it.
    fn open_named(
        &mut self,
        name: &str,
        log: Option<Log>,
    ) -> Result<Traced<'a, FileSource<'a, R>>, ReadFailed>
        ensures { IfOk result (λ file. file.source ≡ untold_source) }
    {
        match FileSource::open(self.rt, name) {
            Ok(file) => Ok(Traced::new(file, log, self.reads)),
            Err(error) => {
                let reason = reason_of(self.rt, name).unwrap_or(None);
                self.reason = reason.map(|reason| (log, reason));
                Err(error)
            }
        }
    }
}

impl<'a, R: Files<File = File> + Clock + AllocGlobal> Opener for SystemFiles<'a, R> {
    ghost use Rattle.std.specs.Prelude.{◌≡◌, IfOk, IfSome, ⊤};
    ghost use Rattle.dbsource.specs.Sources.{untold_source};

    type File = Traced<'a, FileSource<'a, R>>;

    // No contract knows the bytes of a file.
    ghost opens = { λ old path opened new. IfOk opened (λ file. file.source ≡ untold_source) };

    ghost opens_log = { λ old path log opened new. IfOk opened (λ found. IfSome found (λ file. file.source ≡ untold_source)) };

    ghost closes = { λ old file new. ⊤ };

    fn open(&mut self, path: &str) -> Result<Traced<'a, FileSource<'a, R>>, ReadFailed> {
        self.open_named(path, None)
    }

    fn open_log(
        &mut self,
        path: &str,
        log: Log,
    ) -> Result<Option<Traced<'a, FileSource<'a, R>>>, RunError> {
        let name = match log_name(self.rt, path, log) {
            Ok(name) => name,
            Err(error) => {
                let reason = String::from_str(self.rt.alloc(), LOGS_UNKNOWN).ok();
                self.reason = reason.map(|reason| (None, reason));
                return Err(error);
            }
        };
        // Both parts are UTF-8.
        let name = str::from_utf8(name.as_slice()).unwrap_or("");
        if !has_log(self.rt, name) {
            return Ok(None);
        }
        match self.open_named(name, Some(log)) {
            Ok(log) => Ok(Some(log)),
            Err(error) => Err(RunError::from(error)),
        }
    }

    fn close(&mut self, _file: Traced<'a, FileSource<'a, R>>) {}

    fn reason(&self) -> Option<(Option<Log>, &str)> {
        let (log, reason) = self.reason.as_ref()?;
        Some((*log, reason.as_str()))
    }
}

/// The path of what the link at this path leads to, if it is one. Where there was no memory to look it up, and there is some, it is looked
/// up once more.
///
/// # Errors
///
/// [`RunError::ReadFailed`] where it is not known what a link leads to, and [`RunError::OutOfMemory`] where memory was refused.
pub(crate) fn target_of<R: Lookup + AllocGlobal>(
    rt: &R,
    path: &str,
) -> Result<Option<String>, RunError> {
    let looked_up = match rt.link_target(path) {
        Err(error) if error.kind() == io::ErrorKind::OutOfMemory => {
            memory::filled(rt.alloc(), 0u8, LONGEST_PATH)?;
            rt.link_target(path)
        }
        looked_up => looked_up,
    };
    looked_up.map_err(|_| RunError::ReadFailed)
}

// The name of a log of the database at this path, or at the end of the link that it is.
fn log_name<R: Lookup + AllocGlobal>(rt: &R, path: &str, log: Log) -> Result<Vec<u8>, RunError> {
    let target = target_of(rt, path)?;
    let database = target.as_deref().unwrap_or(path);
    let mut name = Vec::new(rt.alloc());
    memory::extend(&mut name, database.as_bytes())?;
    memory::extend(&mut name, log.suffix().as_bytes())?;
    Ok(name)
}

// Whether there is something at this path, or that cannot be seen.
fn has_log<R: Files + AllocGlobal>(rt: &R, path: &str) -> bool {
    match rt.metadata(path) {
        Ok(metadata) => is_something(&metadata),
        Err(error) => !is_nothing(path, &error),
    }
}

// Why a file could not be opened, if it still cannot: a `FileSource` does not say, so the system is asked once more.
fn reason_of<R: Files<File = File> + AllocGlobal>(
    rt: &R,
    path: &str,
) -> Result<Option<String>, AllocError> {
    let opened = match fs::metadata(rt, path) {
        Ok(metadata) if metadata.is_file() || metadata.file_type().is_block_device() => {
            fs::open(rt, path).map(|_| ())
        }
        Ok(metadata) if metadata.is_dir() => return of_kind(rt, "a directory"),
        Ok(_) => return of_kind(rt, "not a regular file: unpack it first"),
        // Standard input, as its name is for other programs.
        Err(_) if path == "-" => return of_kind(rt, "not a regular file: unpack it first"),
        Err(error) => Err(error),
    };
    match opened {
        Ok(()) => Ok(None),
        Err(error) => Ok(Some(system_text(rt.alloc(), &error)?)),
    }
}

// The reason that it is none of those that are read.
fn of_kind<R: AllocGlobal>(rt: &R, kind: &str) -> Result<Option<String>, AllocError> {
    Ok(Some(String::from_str(rt.alloc(), kind)?))
}

// A source over a file.
ghost use Rattle.std.specs.Prelude.{◌≡◌, IfOk};
ghost use Rattle.dbsource.specs.Sources.{any_length, no_step, untold_source};

use crate::read_ahead::{DEVICE_MICROS, ReadAhead};
use crate::read_along::ReadAlong;
use crate::{Failures, ReadFailed, Source};
use std::fs::{File, Metadata};
use std::io::{Seek, SeekFrom};
use std::marker::Model;
use std::os::unix::fs::{FileExt, FileTypeExt};
use std::rt::{Clock, Files};
use std::time::Duration;
use std::{fs, io};

/// A file, opened for reading only. It has no told bytes: no contract knows what the file holds.
///
/// It may ask the system for more than its caller asks for. Where reads of at most 4096 bytes follow one another it makes
/// longer ones, of at most 256 KiB, and answers from these. Of a file that is not in memory it reads a MiB as a whole
/// when the first read falls into it, once, so that the system has it in memory; and where such reads jump through the
/// file, with it the MiB beside it, at most 256 at once, the fewer the smaller the share of the pages that the header
/// states to be in use. If that is below a sixteenth, or on a slow disk below a 128th, it reads no MiB as a whole. Where
/// its caller did not read the header, since page 1 is in a log, it does so itself, once, after a slow read. It takes the
/// buffer for either when it first needs it, so that what a run needs comes first, and reads page by page where there is
/// no memory for it.
#[derive(Drop)]
pub struct FileSource<'r, C> {
    file: File,
    ahead: Option<ReadAhead<'r, C>>,
    along: ReadAlong,
    failures: Failures,
}

impl<'r, C> Model for FileSource<'r, C> {
    ghost use Rattle.dbsource.specs.Sources.{SourceState, untold_source};

    ghost Value = { SourceState };

    ghost view = { λ s. record untold_source { failures = s.failures } };
}

// Whether the path has a file with a length: a regular one, or a block device.
fn has_length(looked: io::Result<Metadata>) -> bool {
    match looked {
        Ok(metadata) => metadata.is_file() || metadata.file_type().is_block_device(),
        Err(_) => false,
    }
}

impl<'r, R: Files<File = File> + Clock + AllocGlobal> FileSource<'r, R> {
    /// Opens the file at `path` for reading.
    ///
    /// # Errors
    ///
    /// [`ReadFailed`] where it cannot be opened, or is neither a regular file nor a block device.
    pub fn open(rt: &'r R, path: &str) -> Result<FileSource<'r, R>, ReadFailed>
        ensures { IfOk result (λ s. s ≡ untold_source) }
    {
        FileSource::open_with(rt, path, Some(Duration::from_micros(DEVICE_MICROS)))
    }

    /// Opens the file as [`open`](FileSource::open) does, for tests and measurements. A read that takes `bound` or
    /// longer counts as one from a device, so with a bound of 0 each does; with no bound no MiB is read as a whole.
    ///
    /// # Errors
    ///
    /// [`ReadFailed`], as `open`.
    pub fn open_with(
        rt: &'r R,
        path: &str,
        bound: Option<Duration>,
    ) -> Result<FileSource<'r, R>, ReadFailed>
        ensures { IfOk result (λ s. s ≡ untold_source) }
    {
        // Before it is opened: opening a named pipe would wait for its writer, and opening a device may have an effect.
        if !has_length(fs::metadata(rt, path)) {
            return Err(ReadFailed);
        }
        match fs::open(rt, path) {
            // And again: another file may have come to the path meanwhile.
            Ok(mut file) if has_length(file.metadata()) => {
                let len = file.seek(SeekFrom::End(0)).unwrap_or(0);
                Ok(FileSource {
                    file,
                    ahead: bound.and_then(|bound| ReadAhead::new(rt.alloc(), rt, len, bound).ok()),
                    along: ReadAlong::new(rt.alloc()),
                    failures: Failures::new(),
                })
            }
            _ => Err(ReadFailed),
        }
    }
}

impl<C: Clock> FileSource<'_, C> {
    // Reads as many bytes as `buf` has, from `offset` on: from the bytes of a longer read if they are there, else from
    // the file.
    fn read(&mut self, offset: u64, buf: &mut [u8]) -> io::Result<()>
        ensures { self.new ≡ self.old }
    {
        if self.along.read(&self.file, offset, buf) {
            return Ok(());
        }
        match &mut self.ahead {
            Some(ahead) => ahead.read(&self.file, offset, buf),
            None => self.file.read_exact_at(buf, offset),
        }
    }
}

impl<C: Clock> Source for FileSource<'_, C> {
    ghost held = { λ s. s };

    ghost step = { no_step };

    ghost lengths = { any_length };

    // The metadata of a block device state no length; its end does.
    fn len(&mut self) -> Result<u64, ReadFailed> {
        match self.file.seek(SeekFrom::End(0)) {
            Ok(end) => Ok(end),
            Err(_) => {
                self.failures.add();
                Err(ReadFailed)
            }
        }
    }

    fn read_at(&mut self, offset: u64, buf: &mut [u8]) -> Result<(), ReadFailed> {
        match self.read(offset, buf) {
            Ok(()) => Ok(()),
            Err(_) => {
                self.failures.add();
                Err(ReadFailed)
            }
        }
    }
}

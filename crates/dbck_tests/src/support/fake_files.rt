// Files of the system, of which a test allows some calls.
use std::alloc::{Allocator, Global};
use std::cell::Cell;
use std::fs::{File, Metadata, OpenOptions};
use std::io;
use std::path::PathBuf;
use std::rt::{Clock, Files};
use std::time::Duration;

/// What is allowed beside a look at a path.
#[derive(Clone, Copy, PartialEq)]
pub(crate) enum Allowed {
    /// To open a file for reading alone.
    Reading,
    /// The same, where a look at a path finds 512 bytes, whatever the file has.
    Lying,
    /// The same, where a device takes the place of each file after the look, which finds 512 bytes.
    Swapping,
}

/// The files of the system. A call that is not allowed is refused, and that is noted. Each look at the clock finds it some
/// microseconds after the one before, none at first.
#[derive(Drop)]
pub(crate) struct FakeFiles<'a> {
    rt: &'a HostRuntime,
    allowed: Allowed,
    has_refused: Cell<bool>,
    pace: Cell<u64>,
    looks: Cell<u64>,
}

impl<'a> FakeFiles<'a> {
    pub(crate) fn new(rt: &'a HostRuntime, allowed: Allowed) -> FakeFiles<'a> {
        FakeFiles {
            rt,
            allowed,
            has_refused: Cell::new(false),
            pace: Cell::new(0),
            looks: Cell::new(0),
        }
    }

    /// How many microseconds there are from now on between two looks at the clock.
    pub(crate) fn set_pace(&self, micros: u64) {
        self.pace.set(micros);
    }

    /// How often the clock was looked at.
    pub(crate) fn looks(&self) -> u64 {
        self.looks.get()
    }

    /// Whether a call was refused.
    pub(crate) fn has_refused(&self) -> bool {
        self.has_refused.get()
    }

    fn refusal(&self) -> io::Error {
        self.has_refused.set(true);
        io::Error::from(io::ErrorKind::Unsupported)
    }
}

// Whether a file that is opened so can be read, and nothing else is done to it.
fn only_reads(how: &OpenOptions) -> bool {
    let writes = how.asks_write() || how.asks_append() || how.asks_truncate();
    let makes = how.asks_create() || how.asks_create_new();
    how.asks_read() && !writes && !makes
}

impl<'a> Alloc for FakeFiles<'a> {
    type A = Global;

    fn alloc(&self) -> Global {
        self.rt.alloc()
    }
}

impl<'a> Clock for FakeFiles<'a> {
    fn monotonic(&self) -> io::Result<Duration> {
        let looks = self.looks.get().saturating_add(1);
        self.looks.set(looks);
        Ok(Duration::from_micros(looks.saturating_mul(self.pace.get())))
    }

    fn since_1970(&self) -> io::Result<Duration> {
        Err(self.refusal())
    }
}

impl<'a> Files for FakeFiles<'a> {
    type File = File;

    type Dir = File;

    fn open_file(&self, how: &OpenOptions, path: &str) -> io::Result<File> {
        match self.allowed {
            Allowed::Reading | Allowed::Lying if only_reads(how) => how.open(self.rt, path),
            Allowed::Swapping if only_reads(how) => how.open(self.rt, "/dev/zero"),
            _ => Err(self.refusal()),
        }
    }

    fn open_dir(&self, _path: &str) -> io::Result<File> {
        Err(self.refusal())
    }

    fn metadata(&self, path: &str) -> io::Result<Metadata> {
        if self.allowed == Allowed::Swapping || self.allowed == Allowed::Lying {
            Ok(Metadata::of_file(512))
        } else {
            self.rt.metadata(path)
        }
    }

    fn symlink_metadata(&self, path: &str) -> io::Result<Metadata> {
        self.rt.symlink_metadata(path)
    }

    fn canonicalize<B: Allocator>(&self, alloc: B, path: &str) -> io::Result<PathBuf<B>> {
        self.rt.canonicalize(alloc, path)
    }

    fn copy(&self, _from: &str, _to: &str) -> io::Result<u64> {
        Err(self.refusal())
    }

    fn rename(&self, _from: &str, _to: &str) -> io::Result<()> {
        Err(self.refusal())
    }

    fn remove_file(&self, _path: &str) -> io::Result<()> {
        Err(self.refusal())
    }

    fn create_dir(&self, _path: &str) -> io::Result<()> {
        Err(self.refusal())
    }

    fn remove_dir(&self, _path: &str) -> io::Result<()> {
        Err(self.refusal())
    }

    fn remove_dir_all<B: Allocator>(&self, _alloc: B, _path: &str) -> io::Result<()> {
        Err(self.refusal())
    }
}

// A system of which a test knows each call.
use std::alloc::{AllocError, Allocator, Global};
use std::cell::{Cell, RefCell};
use std::fmt::Display;
use std::fs::{File, Metadata, OpenOptions};
use std::io::{self, ErrorKind};
use std::path::PathBuf;
use std::rt::{Clock, Files};
use std::time::Duration;

/// The path of which a look finds a device.
const DEVICE: &str = "device";

/// The path of a file that may not be opened.
const CLOSED: &str = "closed";

/// The path of a file that every look finds longer.
const GROWING: &str = "growing";

/// The files of the system, and what is asked of them: a line for each call, with its path. What is printed is kept.
#[derive(Drop)]
pub(crate) struct FakeSystem<'a> {
    rt: &'a HostRuntime,
    calls: RefCell<String>,
    printed: RefCell<String>,
    looks: Cell<u64>,
}

impl<'a> FakeSystem<'a> {
    pub(crate) fn new(rt: &'a HostRuntime) -> FakeSystem<'a> {
        FakeSystem {
            rt,
            calls: RefCell::new(String::new(rt.alloc())),
            printed: RefCell::new(String::new(rt.alloc())),
            looks: Cell::new(0),
        }
    }

    /// Whether these are the calls.
    pub(crate) fn has_calls(&self, calls: &str) -> bool {
        match self.calls.try_borrow() {
            Ok(text) => text.as_str() == calls,
            Err(_) => false,
        }
    }

    /// Whether what was printed begins so, and ends there where it is nothing. A character that does not show itself is none but a line feed.
    pub(crate) fn has_printed(&self, beginning: &str) -> bool {
        match self.printed.try_borrow() {
            Ok(text) => {
                let text = text.as_str();
                let is_shown = text
                    .chars()
                    .all(|char| char == '\n' || (' '..='~').contains(&char));
                is_shown && text.starts_with(beginning) && text.is_empty() == beginning.is_empty()
            }
            Err(_) => false,
        }
    }

    /// Whether this text was printed, which ends where the cursor goes back to the beginning of the line, and then as many blanks at least.
    pub(crate) fn has_wiped(&self, text: &str) -> bool {
        match self.printed.try_borrow() {
            Ok(printed) => is_wiped(printed.as_str(), text),
            Err(_) => false,
        }
    }

    // Notes a call.
    fn note(&self, call: &str, path: &str) {
        if let Ok(mut calls) = self.calls.try_borrow_mut() {
            let _ = write!(calls, "{call} {path}, ");
        }
    }

    fn keep<D: Display + Drop>(&self, value: D, end: &str) -> io::Result<()> {
        let text = value.to_string(self.rt.alloc())?;
        let text = text.as_str();
        if let Ok(mut printed) = self.printed.try_borrow_mut() {
            write!(printed, "{text}{end}")?;
        }
        Ok(())
    }
}

// Whether what was printed is a text and then a line of blanks over all of it.
fn is_wiped(printed: &str, text: &str) -> bool {
    let Some(blanks) = printed.strip_prefix(text) else {
        return false;
    };
    let Some((before, blanks)) = blanks.split_once('\r') else {
        return false;
    };
    let Some((blanks, after)) = blanks.split_once('\r') else {
        return false;
    };
    // The text has its return besides.
    let is_long = blanks.len().saturating_add(1) >= text.len();
    is_long && before.is_empty() && after.is_empty() && blanks.chars().all(|char| char == ' ')
}

fn refusal() -> io::Error {
    io::Error::from(ErrorKind::Unsupported)
}

// How a file is opened: for reading alone, or so that it may be changed.
fn how_opened(how: &OpenOptions) -> &'static str {
    let writes = how.asks_write() || how.asks_append() || how.asks_truncate();
    let makes = how.asks_create() || how.asks_create_new();
    if how.asks_read() && !writes && !makes {
        "open"
    } else {
        "change"
    }
}

impl Alloc for FakeSystem<'_> {
    type A = Global;

    fn alloc(&self) -> Global {
        self.rt.alloc()
    }
}

impl Clock for FakeSystem<'_> {
    fn monotonic(&self) -> io::Result<Duration> {
        Ok(Duration::from_micros(0))
    }

    fn since_1970(&self) -> io::Result<Duration> {
        Err(refusal())
    }
}

impl Print for FakeSystem<'_> {
    fn print<D: Display + Drop>(&self, value: D) -> io::Result<()> {
        self.keep(value, "")
    }

    fn println<D: Display + Drop>(&self, value: D) -> io::Result<()> {
        self.keep(value, "\n")
    }

    fn write_all(&self, _bytes: &[u8]) -> io::Result<()> {
        Err(refusal())
    }
}

impl Eprint for FakeSystem<'_> {
    fn eprint<D: Display + Drop>(&self, value: D) -> io::Result<()> {
        self.keep(value, "")
    }

    fn eprintln<D: Display + Drop>(&self, value: D) -> io::Result<()> {
        self.keep(value, "\n")
    }
}

impl Files for FakeSystem<'_> {
    type File = File;

    type Dir = File;

    fn open_file(&self, how: &OpenOptions, path: &str) -> io::Result<File> {
        self.note(how_opened(how), path);
        if path == CLOSED {
            return Err(io::Error::from(ErrorKind::PermissionDenied));
        }
        how.open(self.rt, path)
    }

    fn open_dir(&self, path: &str) -> io::Result<File> {
        self.note("list", path);
        Err(refusal())
    }

    fn metadata(&self, path: &str) -> io::Result<Metadata> {
        self.note("look", path);
        match path {
            DEVICE => self.rt.metadata("/dev/null"),
            CLOSED => Ok(Metadata::of_file(512)),
            GROWING => {
                self.looks.set(self.looks.get().saturating_add(1));
                Ok(Metadata::of_file(self.looks.get()))
            }
            _ => self.rt.metadata(path),
        }
    }

    fn symlink_metadata(&self, path: &str) -> io::Result<Metadata> {
        self.note("link", path);
        self.rt.symlink_metadata(path)
    }

    fn canonicalize<B: Allocator>(&self, alloc: B, path: &str) -> io::Result<PathBuf<B>> {
        self.note("follow", path);
        self.rt.canonicalize(alloc, path)
    }

    fn copy(&self, from: &str, _to: &str) -> io::Result<u64> {
        self.note("copy", from);
        Err(refusal())
    }

    fn rename(&self, from: &str, _to: &str) -> io::Result<()> {
        self.note("rename", from);
        Err(refusal())
    }

    fn remove_file(&self, path: &str) -> io::Result<()> {
        self.note("remove", path);
        Err(refusal())
    }

    fn create_dir(&self, path: &str) -> io::Result<()> {
        self.note("make", path);
        Err(refusal())
    }

    fn remove_dir(&self, path: &str) -> io::Result<()> {
        self.note("remove", path);
        Err(refusal())
    }

    fn remove_dir_all<B: Allocator>(&self, _alloc: B, path: &str) -> io::Result<()> {
        self.note("remove", path);
        Err(refusal())
    }
}

// What the system knows of a path.
use crate::stamp::Stamp;
use std::fs::Metadata;
use std::rt::Files;
use std::{fs, io, str};

/// Looks paths up, and opens nothing.
pub trait Lookup {
    ghost use Rattle.std.specs.Prelude.{ℕ, List, Bool};

    // What is answered of a super-journal of this name: whether it is there.
    ghost finds: { Self → List ℕ → Bool → Type 0 };

    /// The metadata of what the path leads to.
    ///
    /// # Errors
    ///
    /// Why there are none, as the system says it.
    fn metadata(&self, path: &str) -> io::Result<Metadata>;

    /// The path of what this one leads to, if it is a link.
    ///
    /// # Errors
    ///
    /// As of [`metadata`](Lookup::metadata), and want of memory. [`io::ErrorKind::NotFound`] where another file has that path
    /// here: below `/proc` a link may be one of another mount namespace.
    fn link_target(&self, path: &str) -> io::Result<Option<String>>;

    /// Whether a super-journal of this name is there. As for SQLite, a file without bytes is not, and the name ends at a byte of 0. One
    /// that is not UTF-8 cannot be looked up, and counts as not there.
    fn has_super(&self, name: &[u8]) -> bool
        ensures { finds self.now name.now result };
}

// As many bytes as the longest path has, with the zero after it.
pub(crate) const LONGEST_PATH: usize = 4096;

// Said of a file where it is not known whether it is a link, or what that leads to.
pub(crate) const LOGS_UNKNOWN: &str = "whether a log is beside it is not known";

// Whether there is something at a path, by its metadata: anything but a file without bytes.
pub(crate) fn is_something(metadata: &Metadata) -> bool {
    !metadata.is_file() || metadata.len() > 0
}

// Whether a path that cannot be looked up, for this reason, leads to nothing. Nothing has a name that is longer than its folder takes; but a
// path that is longer than a call takes may lead to something.
pub(crate) fn is_nothing(path: &str, error: &io::Error) -> bool {
    match error.kind() {
        io::ErrorKind::NotFound => true,
        io::ErrorKind::InvalidFilename => path.len() < LONGEST_PATH,
        _ => false,
    }
}

// The path of the super-journal that a journal names, if it is UTF-8. As for SQLite, it ends at a byte of 0.
pub(crate) fn super_path(name: &[u8]) -> Option<&str> {
    let end = name.iter().position(|byte| *byte == 0);
    str::from_utf8(&name[..end.unwrap_or(name.len())]).ok()
}

impl<R: Files + AllocGlobal> Lookup for R {
    ghost use Rattle.std.specs.Prelude.{⊤};

    // No contract knows what is there.
    ghost finds = { λ system name there. ⊤ };

    fn metadata(&self, path: &str) -> io::Result<Metadata> {
        fs::metadata(self, path)
    }

    fn link_target(&self, path: &str) -> io::Result<Option<String>> {
        if !fs::symlink_metadata(self, path)?.is_symlink() {
            return Ok(None);
        }
        let target = fs::canonicalize(self, path)?.into_string();
        let meant = Stamp::of(&fs::metadata(self, path)?);
        let named = Stamp::of(&fs::metadata(self, target.as_str())?);
        if meant.is_of_file(named) {
            Ok(Some(target))
        } else {
            Err(io::Error::from(io::ErrorKind::NotFound))
        }
    }

    fn has_super(&self, name: &[u8]) -> bool {
        let Some(path) = super_path(name) else {
            return false;
        };
        match fs::metadata(self, path) {
            Ok(metadata) => is_something(&metadata),
            Err(_) => false,
        }
    }
}

// Whether a file was changed between two looks at it.
ghost use Rattle.std.specs.Prelude.{◌≡◌, ◌↔◌, IsTrue};
ghost use Rattle.std.specs.Fs.{metadata_len};
ghost use Rattle.dbcli.specs.Stamps.{IsChanged, IsSameFile};

use crate::lookup::Lookup;
use std::fs::Metadata;
use std::os::unix::fs::MetadataExt;

/// Which file a path leads to, how long it is, and when it was last written.
#[derive(Clone, Copy)]
pub(crate) struct Stamp {
    device: u64,
    inode: u64,
    len: u64,
    seconds: i64,
    nanoseconds: i64,
}

impl Stamp {
    /// The stamp of what the path leads to, if the system knows it.
    pub(crate) fn at<R: Lookup>(rt: &R, path: &str) -> Option<Stamp> {
        match rt.metadata(path) {
            Ok(known) => Some(Stamp::of(&known)),
            Err(_) => None,
        }
    }

    /// The same, of what is known of it.
    pub(crate) fn of(known: &Metadata) -> Stamp
        ensures { result.len ≡ metadata_len known.now }
    {
        Stamp {
            device: known.dev(),
            inode: known.ino(),
            len: known.len(),
            seconds: known.mtime(),
            nanoseconds: known.mtime_nsec(),
        }
    }

    /// Whether both are stamps of one file.
    pub(crate) fn is_of_file(self, other: Stamp) -> bool
        ensures { IsTrue result ↔ IsSameFile self other }
    {
        self.device == other.device && self.inode == other.inode
    }

    /// Whether the file got another length, or was written, before it had the stamp `after`. Another file that took its place is no
    /// change of it.
    pub(crate) fn is_changed(self, after: Stamp) -> bool
        ensures { IsTrue result ↔ IsChanged self after }
    {
        let is_same = self.is_of_file(after);
        let is_written = self.seconds != after.seconds || self.nanoseconds != after.nanoseconds;
        is_same && (is_written || self.len != after.len)
    }
}

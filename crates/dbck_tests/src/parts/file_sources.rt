// How a file is opened and read.
use crate::support::fake_files::{Allowed, FakeFiles};
use crate::support::stops::holds;
use dbsource::{FileSource, Source};
use std::os::unix::fs::FileExt;
use std::test::Fail;
use std::{fs, io};

// Whether a source has this length, and gives these five bytes from a place on. Where no bytes are wanted they cannot be read.
fn gives(source: &mut impl Source, len: u64, at: u64, bytes: &str) -> bool {
    let mut buf = [0u8; 5];
    let has_length = source.len() == Ok(len);
    let is_read = source.read_at(at, &mut buf).is_ok();
    has_length && is_read != bytes.is_empty() && (!is_read || buf.as_slice() == bytes.as_bytes())
}

// Whether a file is opened for reading alone, and then has this length, and these bytes at these places.
fn reads(rt: &HostRuntime, allowed: Allowed, path: &str, len: u64, places: &[(u64, &str)]) -> bool {
    let files = FakeFiles::new(rt, allowed);
    let Ok(mut source) = FileSource::open(&files, path) else {
        return false;
    };
    let mut are_given = !files.has_refused();
    for (at, bytes) in places {
        are_given = gives(&mut source, len, *at, bytes) && are_given;
    }
    are_given
}

// Makes a file that holds some bytes from a place on, and zeros before them.
fn make_file(rt: &HostRuntime, path: &str, at: u64, bytes: &[u8]) -> io::Result<()> {
    fs::create(rt, path)?.write_all_at(bytes, at)
}

#[test]
fn reads_files(rt: HostRuntime) -> Result<(), Fail> {
    make_file(&rt, "some.db", 0, b"7 bytes")?;
    let places = &[(2, "bytes"), (3, "")];
    holds!(rt; reads(&rt, Allowed::Reading, "some.db", 7, places));
    // A file of 4 GiB and seven bytes, of which the disk holds the last five alone.
    make_file(&rt, "some.db", 4294967298, b"bytes")?;
    let places = &[(4294967298, "bytes"), (2, "\0\0\0\0\0")];
    holds!(rt; reads(&rt, Allowed::Reading, "some.db", 4294967303, places));
    fs::remove_file(&rt, "some.db")?;
    Ok(())
}

// The length is that of the end of the file, not the one that was found at its path before it was opened.
#[test]
fn goes_to_the_end(rt: HostRuntime) -> Result<(), Fail> {
    make_file(&rt, "end.db", 0, b"7 bytes")?;
    holds!(rt; reads(&rt, Allowed::Lying, "end.db", 7, &[(2, "bytes")]));
    fs::remove_file(&rt, "end.db")?;
    Ok(())
}

#[test]
fn asks_what_was_opened(rt: HostRuntime) {
    let files = FakeFiles::new(&rt, Allowed::Swapping);
    holds!(rt; fs::open(&files, "x").is_ok(), "open");
    holds!(rt; FileSource::open(&files, "x").is_err(), "source");
}

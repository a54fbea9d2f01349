// How often a header asks its source. No clause can say it, since asking for a length leaves no trace.
use crate::support::samples::file_of;
use crate::support::stated::StatedSource;
use crate::support::stops::holds;
use dbsource::Header;
use std::test::Fail;

// Whether a header of a file of this many bytes is read, and in how many calls.
fn calls_of(bytes: &[u8], len: u64) -> (bool, u64) {
    let mut source = StatedSource::new(bytes, len, 9);
    let is_read = Header::read(&mut source).is_ok();
    (is_read, source.calls())
}

// The length is asked for once, and the bytes once.
#[test]
fn asks_for_the_length_and_the_bytes_once(rt: HostRuntime) -> Result<(), Fail> {
    let file = file_of(rt.alloc(), "Smallest 1")?;
    holds!(rt; calls_of(file.as_slice(), 512) == (true, 2));
    holds!(rt; calls_of(file.as_slice(), 99) == (false, 1));
    Ok(())
}

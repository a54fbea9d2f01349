// What outs and sources do at their ends.
use crate::support::fakes::{FakeWriter, Manner};
use crate::support::stops::holds;
use dbsource::{LogSource, MemOut, Out, Source, StreamOut, WriteFailed};
use linked_list_allocator::LocalHeap;
use std::test::Fail;

#[test]
fn streams_loop_over_writes(rt: HostRuntime) {
    for (manner, answer) in [
        (Manner::OneByte, Ok(())),
        (Manner::Nothing, Err(WriteFailed)),
        (Manner::Fails, Err(WriteFailed)),
    ] {
        let mut out = StreamOut::new(FakeWriter::new(manner));
        let answers = (out.put(b"ok\n"), out.put(b""));
        holds!(rt; answers == (answer, Ok(())));
    }
}

#[test]
fn memory_holds_what_was_put(rt: HostRuntime) {
    let mut out = MemOut::new(rt.alloc());
    let answers = (out.put(b"more "), out.put(b"1\n"));
    holds!(rt; answers == (Ok(()), Ok(())) && out.bytes() == b"more 1\n".as_slice());
}

#[test]
fn full_memory_holds_nothing(rt: HostRuntime) -> Result<(), Fail> {
    let heap = LocalHeap::new(rt.alloc(), 0)?;
    let mut full = MemOut::new_in(&heap);
    holds!(rt; full.put(&[7u8; 256]) == Err(WriteFailed));
    holds!(rt; full.bytes().is_empty());
    Ok(())
}

// Whether a source of four bytes gives them, and none after their end. Two reads are kept.
fn gives_bytes(source: &mut LogSource<'_>) -> bool {
    let mut buf = [0u8; 2];
    let has_bytes = source.len() == Ok(4) && source.read_at(1, &mut buf).is_ok();
    has_bytes && buf == [2, 3] && source.read_at(3, &mut buf).is_err()
}

#[test]
fn logs_keep_1024_ranges(rt: HostRuntime) {
    let bytes = [1, 2, 3, 4];
    let mut source = LogSource::new(&bytes);
    let mut buf = [0u8; 2];
    let mut are_kept = gives_bytes(&mut source);
    for _ in 0..1022u32 {
        are_kept = source.read_at(0, &mut buf).is_ok() && are_kept;
    }
    holds!(rt; are_kept && source.ranges().len() == 1024);
    let is_refused = source.read_at(0, &mut buf).is_err();
    holds!(rt; is_refused && source.ranges().len() == 1024);
}

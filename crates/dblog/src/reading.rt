// Reading a write-ahead log: once, in order, from its start.
ghost use Rattle.std.specs.Prelude.{◌≡◌, ◌+◌, ◌*◌, ◌^◌, ◌<◌, ◌≤◌, IfSome, length};
ghost use Rattle.dbsource.specs.Sources.{AreBytes};
ghost use Rattle.dblog.specs.Reading.{ReadsFrames, ReadsLog, ReadsRest, longest_read};
ghost use Rattle.dblog.specs.Scanning.{HasRoom, LooksAt, Scans};
ghost use Rattle.dblog.specs.Wal.{frame_size, page_size, whole_frames};

use crate::error::LogError;
use crate::index::Index;
use crate::scan::Scan;
use crate::wal_header::{HEADER_LEN, frame_size, has_known_version, is_header};
use dbsource::{Source, memory};
use std::alloc::Allocator;

// The most bytes of frames that are read at once, if a frame has no more.
const PIECE: usize = 65536;

// Reads the next `count` frames, from byte `at` on, and looks at them.
fn read_piece<S: Source, A: Allocator>(
    log: &mut S,
    header: &[u8],
    scan: &mut Scan<A>,
    piece: &mut [u8],
    at: u64,
    count: usize,
) -> Result<(), LogError>
    requires header { 32 ≤ length header.now }
    requires sized { page_size header.now ≤ 65536 }
    requires whole { length piece.old ≡ count * frame_size header.now }
    requires short { length piece.old ≤ longest_read }
    requires room { HasRoom count scan.old }
    ensures { ReadsFrames S.step (frame_size header.now) at count result (S.held log.old) (S.held log.new) (λ fs _. LooksAt header.now fs scan.old scan.new) }
{
    log.read_at(at, piece)?;
    scan.look_at_all(header, piece, frame_size(header), count)?;
    Ok(())
}

// How many frames are read at once: as many as 64 KiB have room for, or one.
fn frames_at_once(size: usize) -> usize
    requires { (24 ≤ size) × (size ≤ longest_read) }
    ensures some { 0 < result }
    ensures most { result * size ≤ longest_read }
{
    (PIECE / size).max(1)
}

// Reads the first `count` frames, and looks at them.
fn read_frames<S: Source, A: Allocator + Copy>(
    alloc: A,
    log: &mut S,
    header: &[u8],
    count: usize,
) -> Result<Scan<A>, LogError>
    requires header { 32 ≤ length header.now }
    requires sized { page_size header.now ≤ 65536 }
    requires counted { count < 2 ^ 32 }
    ensures { ReadsFrames S.step (frame_size header.now) 32 count result (S.held log.old) (S.held log.new) (λ fs s. Scans header.now s fs) }
{
    let size = frame_size(header);
    let most = frames_at_once(size);
    let mut buffer = memory::filled(alloc, 0u8, most.min(count) * size)?;
    let mut scan = Scan::new(alloc, header);
    let mut done = 0;
    while done < count {
        let next = most.min(count - done);
        let piece = &mut buffer.as_mut_slice()[..next * size];
        read_piece(
            log,
            header,
            &mut scan,
            piece,
            (32 + done * size) as u64,
            next,
        )?;
        done += next;
    }
    Ok(scan)
}

// How many whole frames a log of `len` bytes has.
fn whole_frames(header: &[u8], len: u64) -> usize
    requires header { 32 ≤ length header.now }
    requires sized { page_size header.now ≤ 65536 }
    ensures { result ≡ whole_frames header.now len }
{
    (len.saturating_sub(32) / frame_size(header) as u64).min(u64::from(u32::MAX)) as usize
}

// Reads what comes after the header of a log of `len` bytes.
fn read_rest<S: Source, A: Allocator + Copy>(
    alloc: A,
    log: &mut S,
    header: &[u8],
    len: u64,
) -> Result<Index<A>, LogError>
    requires header { length header.now ≡ 32 }
    requires len { 32 ≤ len }
    ensures { ReadsRest S.step header.now len result (S.held log.old) (S.held log.new) }
{
    if !is_header(header) {
        return Ok(Index::none(alloc));
    }
    if !has_known_version(header) {
        return Err(LogError::Version);
    }
    let scan = read_frames(alloc, log, header, whole_frames(header, len))?;
    Ok(scan.finish(header, len))
}

impl<A: Allocator + Copy> Index<A> {
    /// Reads a log: its length, and then its bytes once, in order, in pieces of at most 64 KiB or a frame. It takes memory
    /// for a piece, which it gives back, and for the entries.
    ///
    /// # Errors
    ///
    /// [`LogError::ReadFailed`] exactly where the source failed, [`LogError::OutOfMemory`] where memory was refused, and
    /// [`LogError::Version`] where the file is a log of another version than SQLite opens.
    pub fn read<S: Source>(alloc: A, log: &mut S) -> Result<Index<A>, LogError>
        ensures reads { ReadsLog S.step S.lengths result (S.held log.old) (S.held log.new) }
        ensures bytes { IfSome (S.held log.old).bytes AreBytes }
    {
        let len = log.len()?;
        if len < HEADER_LEN as u64 {
            return Ok(Index::none(alloc));
        }
        let mut header = [0u8; HEADER_LEN];
        log.read_at(0, &mut header)?;
        read_rest(alloc, log, &header, len)
    }
}

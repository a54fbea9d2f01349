// The frames of a log, one after another.
ghost use Rattle.std.specs.Prelude.{◌≡◌, false, ◌+◌, ◌*◌, ◌<◌, ◌≤◌, List, ℕ, [], ◌∷◌, ◌++◌, length, OnOk, take, map};
ghost use Rattle.dblog.specs.Indexes.{IndexesFrames};
ghost use Rattle.dblog.specs.Scanning.{Adds, HasRoom, LooksAt, Scans, passed};
ghost use Rattle.dblog.specs.Reading.{AreFrames};
ghost use Rattle.dblog.specs.Wal.{page_size};

use crate::gathered::Gathered;
use crate::index::{Counts, Index, broken_at};
use crate::sums::Sums;
use crate::wal_header::{has_salts, is_valid, page_size};
use dbformat::u32_at;
use dbsource::NoMemory;
use std::alloc::Allocator;
use std::marker::Model;

/// What is kept of the frames that were looked at.
#[derive(Drop)]
pub(crate) struct Scan<A: Allocator> {
    // The sums of the last valid frame, and whether each frame was valid.
    before: Sums,
    is_open: bool,
    // The valid frames, the pages that the last commit states, and the commits.
    frames: u32,
    pages: u32,
    transactions: u32,
    // The frames after the first that is not valid that have the log's salts.
    later: u32,
    gathered: Gathered<A>,
}

impl<A: Allocator> Model for Scan<A> {
    ghost use Rattle.dblog.specs.Scanning.{Scanned};

    ghost Value = { Scanned };

    ghost view = { λ s. record {
      before = s.before;
      is_open = s.is_open;
      frames = s.frames;
      committed = s.gathered.committed;
      pages = s.pages;
      transactions = s.transactions;
      later = s.later;
      entries = s.gathered.entries;
    } };
}

impl<A: Allocator> Scan<A> {
    // Of no frame of a log with this header.
    pub fn new(alloc: A, header: &[u8]) -> Scan<A>
        requires { 32 ≤ length header.now }
        ensures { Scans header.now result [] }
    {
        Scan {
            before: Sums::stated(header, 24),
            is_open: true,
            frames: 0,
            pages: 0,
            transactions: 0,
            later: 0,
            gathered: Gathered::new(alloc),
        }
    }

    // A valid frame more.
    fn add(&mut self, frame: &[u8]) -> Result<(), NoMemory>
        requires frame { 24 ≤ length frame.now }
        requires room { HasRoom 1 self.old }
        ensures { OnOk result (Adds frame.now self.old self.new) }
    {
        let pages = u32_at(frame, 4);
        let commits = pages > 0;
        self.gathered.add(u32_at(frame, 0), self.frames, commits)?;
        self.frames += 1;
        self.before = Sums::stated(frame, 16);
        if commits {
            self.pages = pages;
            self.transactions += 1;
        }
        Ok(())
    }

    // A frame more after one that was not valid.
    fn pass(&mut self, header: &[u8], frame: &[u8])
        requires header { 32 ≤ length header.now }
        requires frame { 24 ≤ length frame.now }
        requires room { HasRoom 1 self.old }
        ensures { self.new ≡ passed header.now frame.now self.old }
    {
        if has_salts(header, frame) {
            self.later += 1;
        }
    }

    // The next frame.
    pub fn look_at(&mut self, header: &[u8], frame: &[u8]) -> Result<(), NoMemory>
        requires header { 32 ≤ length header.now }
        requires frame { 24 ≤ length frame.now }
        requires room { HasRoom 1 self.old }
        ensures { OnOk result (LooksAt header.now (frame.now ∷ []) self.old self.new) }
    {
        if !self.is_open {
            self.pass(header, frame);
            return Ok(());
        }
        if is_valid(header, self.before, frame) {
            return self.add(frame);
        }
        self.break_off();
        Ok(())
    }

    // A frame that is not valid.
    fn break_off(&mut self)
        ensures { self.new ≡ (record self.old { is_open = false }) }
    {
        self.is_open = false;
    }

    // The next `count` frames, of `size` bytes each.
    pub fn look_at_all(
        &mut self,
        header: &[u8],
        frames: &[u8],
        size: usize,
        count: usize,
    ) -> Result<(), NoMemory>
        requires header { 32 ≤ length header.now }
        requires size { 24 ≤ size }
        requires whole { length frames.now ≡ count * size }
        requires room { HasRoom count self.old }
        ensures { OnOk result ((fs : List (List ℕ)) × AreFrames size frames.now fs × (length fs ≡ count) × LooksAt header.now fs self.old self.new) }
    {
        let mut rest = frames;
        for _i in 0..count {
            let (frame, next) = rest.split_at(size);
            self.look_at(header, frame)?;
            rest = next;
        }
        Ok(())
    }

    // The index of a log of `len` bytes, all whose frames were looked at.
    pub fn finish(self, header: &[u8], len: u64) -> Index<A>
        requires header { 32 ≤ length header.now }
        requires sized { (512 ≤ page_size header.now) × (page_size header.now ≤ 65536) }
        ensures { (done : List (List ℕ)) → Scans header.now self done → IndexesFrames header.now len result done }
    {
        let Scan {
            before: _,
            is_open: _,
            frames,
            pages,
            transactions,
            later,
            gathered,
        } = self;
        let size = page_size(header);
        let counts = Counts {
            frames,
            committed: gathered.committed(),
            transactions,
            later,
            broken: broken_at(size + 24, frames, len),
        };
        Index::new(size, pages, gathered.into_index(), counts)
    }
}

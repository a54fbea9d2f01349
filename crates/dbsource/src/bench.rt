// The page buffers of a walk.
ghost use Rattle.std.specs.Borrow.{sem};
ghost use Rattle.std.specs.Prelude.{◌≡◌, ◌-◌, ◌*◌, ◌<◌, ◌≤◌, length, slice_get, Some, IfSome, IfOk, OnOk};
ghost use Rattle.dbformat.specs.FixedPages.{IsInRange};
ghost use Rattle.dbsource.specs.Bench.{Changes, bytes_at};
ghost use Rattle.dbsource.specs.Failures.{failures_after, is_any};
ghost use Rattle.dbsource.specs.Lending.{LendsChain, LendsUses};
ghost use Rattle.dbsource.specs.Answers.{IsRangeOf, answer};

use crate::memory::filled;
use crate::{Geometry, NoMemory, ReadFailed, Source};
use arrayvec::ArrayVec;
use std::alloc::{Allocator, Global};
use std::marker::Model;

/// Reads a page of a buffer's size into the buffer: asks for its bytes once.
///
/// # Errors
///
/// [`ReadFailed`] exactly where the source failed. The bytes of the buffer are then unspecified.
pub fn load_page<S: Source>(source: &mut S, page: u32, buffer: &mut [u8]) -> Result<(), ReadFailed>
    requires page { 1 ≤ page }
    requires size { length buffer.old ≤ 65536 }
    ensures told { (S.held source.new).bytes ≡ (S.held source.old).bytes }
    ensures count { (S.held source.new).failures ≡ failures_after is_any result (S.held source.old).failures }
    ensures trail { S.step (S.held source.old).trail (answer result ((page - 1) * length buffer.old) buffer.new) (S.held source.new).trail }
    ensures bytes { OnOk result (IfSome (S.held source.old).bytes (λ file. IsRangeOf file ((page - 1) * length buffer.old) buffer.new)) }
{
    let offset = (page as u64 - 1) * buffer.len() as u64;
    source.read_at(offset, buffer)
}

/// The 22 buffers that a walk reads pages into, each of a page's size: 20 for the levels of a tree, one for the page of
/// a chain or of the pointer map, and one that counts the uses of a page's bytes.
#[derive(Drop)]
pub struct Bench<A: Allocator = Global> {
    geometry: Geometry,
    levels: ArrayVec<Vec<u8, A>, 20, A>,
    chain: Vec<u8, A>,
    uses: Vec<u8, A>,
}

impl<A: Allocator> Model for Bench<A> {
    ghost use Rattle.dbsource.specs.Bench.{Pages};

    ghost Value = { Pages };

    ghost use Rattle.dbsource.specs.Bench.{pages, AreWhole};

    ghost view = { pages };

    ghost invariant = { AreWhole };
}

impl<A: Allocator> Bench<A> {
    /// The geometry of the file. A loop that reads pages asks for it, since it says without a test that the buffers
    /// have its page size.
    pub fn geometry(&self) -> Geometry
        ensures value { result ≡ self.now.geometry }
        ensures range { IsInRange result }
    {
        self.geometry
    }

    /// The bytes at a level, where 20 is the chain buffer.
    pub fn page(&self, level: usize) -> &[u8]
        requires { level ≤ 20 }
        ensures bytes { result.now ≡ bytes_at self.now level }
        ensures len { length result.now ≡ self.now.geometry.page_size }
    {
        match self.levels.get(level) {
            Some(buffer) => buffer.as_slice(),
            None => self.chain.as_slice(),
        }
    }

    /// The bytes at a level, and beside them the chain buffer: a view of the level stays borrowed while the page of a chain is
    /// written.
    pub fn chain(&mut self, level: usize) -> (&[u8], &mut [u8])
        requires { level < 20 }
        ensures* writes_back { sem 𝓛 (LendsChain A.row A.Allocator self.entry result.1) }
        ensures page { slice_get self.old.levels level ≡ Some result.0.now }
        ensures bytes { result.1.now ≡ self.old.chain }
        ensures len { (length result.0.now ≡ self.old.geometry.page_size) × (length result.1.now ≡ self.old.geometry.page_size) }
    {
        (self.levels[level].as_slice(), self.chain.as_mut_slice())
    }

    /// The bytes at a level, and beside them the table of their uses.
    pub fn uses(&mut self, level: usize) -> (&[u8], &mut [u8])
        requires { level < 20 }
        ensures* writes_back { sem 𝓛 (LendsUses A.row A.Allocator self.entry result.1) }
        ensures page { slice_get self.old.levels level ≡ Some result.0.now }
        ensures bytes { result.1.now ≡ self.old.uses }
        ensures len { (length result.0.now ≡ self.old.geometry.page_size) × (length result.1.now ≡ self.old.geometry.page_size) }
    {
        (self.levels[level].as_slice(), self.uses.as_mut_slice())
    }

    /// Reads a page into a level, where 20 is the chain buffer: asks for its bytes once.
    ///
    /// # Errors
    ///
    /// [`ReadFailed`] exactly where the source failed. The bytes of the level are then unspecified; all else is as it was.
    pub fn load<S: Source>(
        &mut self,
        level: usize,
        source: &mut S,
        page: u32,
    ) -> Result<(), ReadFailed>
        requires level { level ≤ 20 }
        requires page { 1 ≤ page }
        ensures told { (S.held source.new).bytes ≡ (S.held source.old).bytes }
        ensures count { (S.held source.new).failures ≡ failures_after is_any result (S.held source.old).failures }
        ensures level { Changes self.old level (λ bytes.
            S.step (S.held source.old).trail (answer result ((page - 1) * self.old.geometry.page_size) bytes) (S.held source.new).trail
            × OnOk result (IfSome (S.held source.old).bytes (λ file. IsRangeOf file ((page - 1) * self.old.geometry.page_size) bytes)))
            self.new }
    {
        match self.levels.get_mut(level) {
            Some(buffer) => load_page(source, page, buffer.as_mut_slice()),
            None => load_page(source, page, self.chain.as_mut_slice()),
        }
    }
}

impl<A: Allocator + Copy> Bench<A> {
    /// All buffers, each in one growth, from any allocator.
    ///
    /// # Errors
    ///
    /// [`NoMemory`] where a growth was refused.
    pub fn new_in(alloc: A, geometry: Geometry) -> Result<Bench<A>, NoMemory>
        requires { IsInRange geometry }
        ensures { IfOk result (λ b. b.geometry ≡ geometry) }
    {
        let page_size = geometry.page_size as usize;
        let mut levels = ArrayVec::new_in(alloc);
        for _i in 0..20usize {
            levels.push(filled(alloc, 0u8, page_size)?);
        }
        let chain = filled(alloc, 0u8, page_size)?;
        let uses = filled(alloc, 0u8, page_size)?;
        Ok(Bench {
            geometry,
            levels,
            chain,
            uses,
        })
    }
}

impl Bench {
    /// All buffers, each in one growth.
    ///
    /// # Errors
    ///
    /// [`NoMemory`] where a growth was refused.
    pub fn new(alloc: Global, geometry: Geometry) -> Result<Bench, NoMemory>
        requires { IsInRange geometry }
        ensures { IfOk result (λ b. b.geometry ≡ geometry) }
    {
        Bench::new_in(alloc, geometry)
    }
}

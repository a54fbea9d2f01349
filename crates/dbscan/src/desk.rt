// What a run works with.
ghost use Rattle.std.specs.Prelude.{◌≡◌, [], None, length, IfOk};
ghost use Rattle.dbformat.specs.File.{refusal_of};
ghost use Rattle.dbformat.specs.FixedPages.{geometry_of, IsInRange};
ghost use Rattle.dbscan.specs.Desks.{IsFresh, shape_of};

use crate::roots::RootList;
use dbsource::{Bench, Geometry, Header, NoMemory};
use dbwalk::Marks;
use std::alloc::{Allocator, Global};
use std::marker::Model;

/// What every run over a file keeps: its header, 22 page buffers, one mark for each page, and the roots that its schema names.
#[derive(Drop)]
pub struct Desk<A: Allocator = Global> {
    pub(crate) header: Header,
    pub(crate) bench: Bench<A>,
    pub(crate) marks: Marks<A>,
    pub(crate) roots: RootList<A>,
}

impl<A: Allocator> Model for Desk<A> {
    ghost use Rattle.dbscan.specs.Desks.{DeskView};

    ghost Value = { DeskView };

    ghost use Rattle.dbscan.specs.Desks.{desk_view, AreForHeader};

    ghost view = { desk_view };

    ghost invariant = { AreForHeader };
}

impl<A: Allocator> Desk<A> {
    /// The header of the file.
    pub fn header(&self) -> &Header
        ensures value { result.now ≡ self.now.header }
        ensures accepted { (refusal_of self.now.header.bytes self.now.header.file_len ≡ None) × (length self.now.header.bytes ≡ 100) }
    {
        &self.header
    }

    /// The shape of the file.
    pub fn geometry(&self) -> Geometry
        ensures shape { result ≡ shape_of self.now }
        ensures range { IsInRange result }
    {
        self.header.geometry()
    }

    /// The marks of its pages.
    pub fn marks(&self) -> &Marks<A>
        ensures { result.now ≡ self.now.marks }
    {
        &self.marks
    }

    /// The rows of its schema that have a root page, as far as they were walked over.
    pub fn roots(&self) -> &RootList<A>
        ensures { result.now ≡ self.now.roots }
    {
        &self.roots
    }

    /// Removes all marks and roots, for a new run.
    pub fn renew(&mut self)
        ensures fresh { IsFresh self.new }
        ensures header { self.new.header ≡ self.old.header }
        ensures refusals { self.new.roots.refusals ≡ self.old.roots.refusals }
    {
        self.marks.clear();
        self.roots.clear();
    }
}

impl<A: Allocator + Copy> Desk<A> {
    /// A desk for the file of this header: 22 buffers and the marks, each in one growth, from any allocator. After that
    /// only the list of roots grows.
    ///
    /// # Errors
    ///
    /// [`NoMemory`] where a growth was refused.
    pub fn new_in(alloc: A, header: Header) -> Result<Desk<A>, NoMemory>
        ensures header { IfOk result (λ desk. desk.header ≡ header) }
        ensures roots { IfOk result (λ desk. (desk.roots.rows ≡ []) × (desk.roots.refusals ≡ 0)) }
        ensures range { IsInRange (geometry_of header.bytes header.file_len) }
    {
        let geometry = header.geometry();
        let bench = Bench::new_in(alloc, geometry)?;
        let marks = Marks::new_in(alloc, &geometry)?;
        Ok(Desk {
            header,
            bench,
            marks,
            roots: RootList::new_in(alloc),
        })
    }
}

impl Desk {
    /// A desk for the file of this header.
    ///
    /// # Errors
    ///
    /// [`NoMemory`] where a growth was refused.
    pub fn new(alloc: Global, header: Header) -> Result<Desk, NoMemory>
        ensures header { IfOk result (λ desk. desk.header ≡ header) }
        ensures roots { IfOk result (λ desk. (desk.roots.rows ≡ []) × (desk.roots.refusals ≡ 0)) }
        ensures range { IsInRange (geometry_of header.bytes header.file_len) }
    {
        Desk::new_in(alloc, header)
    }
}

// The lines below a fault, by what is known of a file at the end of a run.
ghost use Rattle.std.specs.Prelude.{◌≡◌, option_map};
ghost use Rattle.dbformat.specs.EndFaults.{visit_of};
ghost use Rattle.dbformat.specs.FixedPages.{geometry_of};
ghost use Rattle.dbformat.specs.Header.{encoding};
ghost use Rattle.dbmarks.specs.EndMarks.{entry_value};
ghost use Rattle.dblines.specs.Writing.{Wrote, WroteOf};
ghost use Rattle.dbexplain.specs.Below.{entry_line, header_line, line_of_entry, lines_below, own_line, place_line};
ghost use Rattle.dbexplain.specs.Notes.{AreOwnersOf, below_of, page_or_none, wanted_entry};

use crate::after_end::{after_end_line, named_page};
use crate::page_lines::{page_front, place_end, put_line, put_start_line};
use arrayvec::ArrayVec;
use dbformat::{Fault, FaultCode};
use dblines::{Writer, append, append_number};
use dbmarks::MapEntry;
use dbscan::{PageTrees, RootList, TreeNames, mark_of, place_of, place_tree};
use dbsource::{Header, Out};
use dbwalk::{Mark, Marks};
use std::alloc::{Allocator, Global};

/// What is known of a file at the end of a run: its header, the marks of its pages, the rows of its schema that have a root page,
/// and the tree of each page.
#[derive(Drop)]
pub(crate) struct Owners<'a, A: Allocator = Global> {
    pub header: &'a Header,
    pub marks: &'a Marks<A>,
    pub roots: &'a RootList<A>,
    pub trees: &'a PageTrees<A>,
}

// What is written below a fault.
#[derive(Clone, Copy)]
pub(crate) enum Below {
    Nothing,
    /// The number of pages that the header states.
    StatedPages,
    /// The greatest root page that the header states.
    GreatestRoot,
    /// The number of pages on the freelist that the header states.
    FreelistCount,
    /// Where the fault is.
    Own,
    /// Where the fault is, and whether the page that its value names is after the end that the header states.
    Outside,
    /// Where the fault is, and where the page is that its value names.
    Both,
    /// Where the page is, and the entry of the pointer map that it should have.
    Entry,
}

// What is written below a fault with this code.
fn below_of(code: FaultCode) -> Below
    ensures { result ≡ below_of code }
{
    match code {
        FaultCode::H06 => Below::StatedPages,
        FaultCode::H09 => Below::GreatestRoot,
        FaultCode::H10 => Below::FreelistCount,
        FaultCode::H01
        | FaultCode::H02
        | FaultCode::H03
        | FaultCode::H04
        | FaultCode::H05
        | FaultCode::H07
        | FaultCode::H08 => Below::Nothing,
        FaultCode::R01 => Below::Outside,
        FaultCode::R02 | FaultCode::R03 | FaultCode::T04 | FaultCode::O01 | FaultCode::M02 => {
            Below::Both
        }
        FaultCode::M01 => Below::Entry,
        _ => Below::Own,
    }
}

// The entry that a page with this mark has, if it is in use.
fn wanted_entry(mark: Option<Mark>) -> Option<MapEntry>
    ensures { option_map entry_value result ≡ wanted_entry mark }
{
    match mark? {
        Mark::Unmarked | Mark::Fixed => None,
        mark => Some(mark.entry()),
    }
}

fn header_line(number: u32) -> ArrayVec<u8, 64>
    ensures { result.items ≡ header_line number }
{
    let mut line = ArrayVec::new();
    append(&mut line, "    header: ");
    append_number(&mut line, u64::from(number));
    append(&mut line, "\n");
    line
}

fn entry_line(entry: MapEntry) -> ArrayVec<u8, 96>
    ensures { result.items ≡ line_of_entry (entry_value entry) }
{
    let mut line = ArrayVec::new();
    append(&mut line, "    entry wanted: type ");
    append_number(&mut line, u64::from(entry.kind));
    append(&mut line, ", number ");
    append_number(&mut line, u64::from(entry.number));
    append(&mut line, "\n");
    line
}

impl<A: Allocator> Owners<'_, A> {
    /// The texts of the trees.
    pub(crate) fn names(&self) -> TreeNames<'_, A>
        ensures encoding { result.encoding ≡ encoding self.now.header.now.bytes }
        ensures roots { result.roots.now ≡ self.now.roots.now }
    {
        TreeNames {
            encoding: self.header.encoding(),
            roots: self.roots,
        }
    }

    // The page that the value of a fault is, or 0 where there is none.
    fn value_page(&self, fault: &Fault) -> u32
        ensures { result ≡ page_or_none (geometry_of self.now.header.now.bytes self.now.header.now.file_len) fault.now.value }
    {
        let value = fault.value;
        let pages = self.header.geometry().pages;
        if value >= 1 && value <= i64::from(pages) {
            value as u32
        } else {
            0
        }
    }

    /// Writes the line of a page: where it is, and in which tree. A number that no page has gets no line.
    pub(crate) fn put_page<O: Out>(&self, writer: &mut Writer<'_, O>, page: u32)
        ensures { WroteOf O.held writer.old (AreOwnersOf self.now) (λ file V. place_line file V page) writer.new }
    {
        let shape = self.header.geometry();
        if page == 0 || page > shape.pages {
            return;
        }
        let place = place_of(self.marks, page);
        let tree = place_tree(place, self.trees.start_of(self.marks, page));
        let front = page_front(shape, page, place);
        let end = place_end(place);
        put_line(
            writer,
            &self.names(),
            front.as_slice(),
            tree,
            end.as_slice(),
        );
    }

    // Writes where a fault is.
    fn put_own<O: Out>(&self, writer: &mut Writer<'_, O>, fault: &Fault)
        ensures { WroteOf O.held writer.old (AreOwnersOf self.now) (λ file V. own_line file V fault.now) writer.new }
    {
        if fault.page == 0 {
            put_start_line(writer, &self.names(), fault.item);
        } else {
            self.put_page(writer, fault.page);
        }
    }

    // Writes the entry of the pointer map that a page has, if it is in use.
    fn put_wanted<O: Out>(&self, writer: &mut Writer<'_, O>, page: u32)
        ensures { WroteOf O.held writer.old (AreOwnersOf self.now) (λ file V. entry_line (visit_of V page)) writer.new }
    {
        match wanted_entry(mark_of(self.marks, page)) {
            Some(entry) => writer.put(entry_line(entry).as_slice()),
            None => {}
        }
    }

    /// Writes the lines below a fault: the number in the header that is wrong; or where its page is, and then, by its code, where the page
    /// is that it names, that this page is after the stated end, or which entry was wanted.
    pub(crate) fn put_below<O: Out>(&self, writer: &mut Writer<'_, O>, fault: &Fault)
        ensures { WroteOf O.held writer.old (AreOwnersOf self.now) (λ file V. lines_below file V fault.now fault.now.code) writer.new }
    {
        match below_of(fault.code) {
            Below::Nothing => {}
            Below::StatedPages => writer.put(header_line(self.header.stated_pages()).as_slice()),
            Below::GreatestRoot => writer.put(header_line(self.header.greatest_root()).as_slice()),
            Below::FreelistCount => writer.put(header_line(
                self.header.freelist_count(),
            ).as_slice()),
            Below::Own => self.put_own(writer, fault),
            Below::Outside => {
                self.put_own(writer, fault);
                writer.put(after_end_line(
                    self.header.geometry(),
                    self.header.file_len(),
                    named_page(fault),
                )
                .as_slice());
            }
            Below::Both => {
                self.put_own(writer, fault);
                self.put_page(writer, self.value_page(fault));
            }
            Below::Entry => {
                self.put_own(writer, fault);
                self.put_wanted(writer, fault.page);
            }
        }
    }
}

// Pages that are in the file, after the end that its header states: the line of one, and how many references lead to them.
ghost use Rattle.std.specs.Prelude.{◌≡◌, ◌/◌, true};
ghost use Rattle.dbformat.specs.FixedPages.{IsInRange, geometry_of};
ghost use Rattle.dbexplain.specs.AfterEnd.{after_end_reported, is_outside, none_after_end};
ghost use Rattle.dbexplain.specs.Below.{after_end_said, after_end_text, is_after_end, value_page};

use arrayvec::ArrayVec;
use dbformat::{Fault, FaultCode, Geometry};
use dblines::{append, append_number};
use dbsource::Header;
use dbtrace::TracedFault;

/// How many references were reported to lead to pages that are whole in a file, after the end that its header states. The number stops
/// at the greatest one of 64 bits.
#[derive(Clone, Copy)]
pub(crate) struct AfterEnd {
    /// The last page, by the header.
    pub(crate) last: u64,
    /// The last page that is whole in the file.
    pub(crate) whole: u64,
    pub(crate) references: u64,
}

/// The page that the value of a fault is the number of, or 0.
pub(crate) fn named_page(fault: &Fault) -> u64
    ensures { result ≡ value_page fault.now.value }
{
    let value = fault.value;
    if value < 0 { 0 } else { value as u64 }
}

// Whether a page is whole in a file of this length, but after its last page.
fn is_after_end(shape: Geometry, len: u64, page: u64) -> bool
    requires { IsInRange shape }
    ensures { result ≡ is_after_end shape len page }
{
    page > u64::from(shape.pages) && page <= len / u64::from(shape.page_size)
}

// The line that says so.
fn said_line(page: u64) -> ArrayVec<u8, 96>
    ensures { result.items ≡ after_end_said page }
{
    let mut line = ArrayVec::new();
    append(&mut line, "    page ");
    append_number(&mut line, page);
    append(&mut line, " is in the file, after its stated end\n");
    line
}

/// The line that says that a page is in a file of this length, after its last page; or nothing, where it is not.
pub(crate) fn after_end_line(shape: Geometry, len: u64, page: u64) -> ArrayVec<u8, 96>
    requires { IsInRange shape }
    ensures { result.items ≡ after_end_text shape len page }
{
    if is_after_end(shape, len, page) {
        said_line(page)
    } else {
        ArrayVec::new()
    }
}

// Whether a fault with this code is of a reference to a page that the file does not have.
fn is_outside(code: FaultCode) -> bool
    ensures { result ≡ is_outside code }
{
    match code {
        FaultCode::R01 => true,
        _ => false,
    }
}

impl AfterEnd {
    /// None yet, of a file with this header.
    pub(crate) fn new(header: &Header) -> AfterEnd
        ensures { result ≡ none_after_end (geometry_of header.now.bytes header.now.file_len) header.now.file_len }
    {
        let shape = header.geometry();
        AfterEnd {
            last: u64::from(shape.pages),
            whole: header.file_len() / u64::from(shape.page_size),
            references: 0,
        }
    }

    // Counts a fault of a reference to a page that the file does not have, if the page is after the stated end.
    #[cold]
    fn add(&mut self, reported: &TracedFault)
        requires { is_outside reported.now.fault.code ≡ true }
        ensures { self.new ≡ after_end_reported self.old reported.now }
    {
        let page = named_page(&reported.fault);
        if page > self.last && page <= self.whole {
            self.references = self.references.saturating_add(1);
        }
    }

    /// Counts a fault, if it is of such a reference. Most are not, even where a file has many.
    #[inline(always)]
    pub(crate) fn receive(&mut self, reported: &TracedFault)
        ensures { self.new ≡ after_end_reported self.old reported.now }
    {
        if is_outside(reported.fault.code) {
            self.add(reported);
        }
    }
}

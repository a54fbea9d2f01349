// The pages that a file lacks.
ghost use Rattle.std.specs.Prelude.{◌≡◌, ◌++◌, codes};
ghost use Rattle.dblines.specs.Writing.{WroteOf};
ghost use Rattle.dbinjuries.specs.Lines.{indented};
ghost use Rattle.dbexplain.specs.Explained.{missing_line};
ghost use Rattle.dbexplain.specs.Notes.{AreOwnersOf};
ghost use Rattle.dbexplain.specs.Summary.{pages_text};

use crate::owners::Owners;
use crate::zeros::append_pages;
use arrayvec::ArrayVec;
use dbformat::FaultCode;
use dblines::{Writer, append};
use dbsource::Out;
use std::alloc::Allocator;

// The line of the pages from one number to another.
fn missing_text(first: u64, last: u64) -> ArrayVec<u8, 96>
    ensures { result.items ≡ indented (pages_text first last ++ codes " missing") }
{
    let mut line = ArrayVec::new();
    append(&mut line, "    ");
    append_pages(&mut line, first, last);
    append(&mut line, " missing\n");
    line
}

/// Writes which pages are missing, below a fault with the code H06, which says that the header states more pages than there are.
pub(crate) fn put_missing<A: Allocator, O: Out>(
    writer: &mut Writer<'_, O>,
    owners: &Owners<'_, A>,
    code: FaultCode,
)
    ensures { WroteOf O.held writer.old (AreOwnersOf owners.now) (λ file V. missing_line file code) writer.new }
{
    if let FaultCode::H06 = code {
        let first = u64::from(owners.header.geometry().pages) + 1;
        let line = missing_text(first, u64::from(owners.header.stated_pages()));
        writer.put(line.as_slice());
    }
}

// The opening of a file: what each run does before it walks.
ghost use Rattle.std.specs.Prelude.{MatchResult};
ghost use Rattle.dbscan.specs.DeskSizes.{DeskFitsInMemory};
ghost use Rattle.dbreport.specs.Opening.{IsNotOpened, IsOpened};

use dbscan::Desk;
use dbsource::{Header, RunError, Source};
use std::alloc::Allocator;

/// Reads the header of the file that `source` gives, and makes a desk for that file, in memory from any allocator.
///
/// # Errors
///
/// [`RunError::Refused`] where the file is not read at all: then nothing but its header was asked for. [`RunError::ReadFailed`]
/// exactly where the source failed, and [`RunError::OutOfMemory`] where a growth was refused.
pub fn open_in<A: Allocator + Copy, S: Source>(
    alloc: A,
    source: &mut S,
) -> Result<Desk<A>, RunError>
    // The desk fits in memory, as it does unless the allocator itself is nearly that large.
    requires { DeskFitsInMemory A.row A.Allocator }
    ensures { MatchResult result (λ desk. IsOpened S.Source desk.header source.old source.new) (λ e. IsNotOpened S.Source e source.old source.new) }
{
    let header = Header::read(source)?;
    Ok(Desk::new_in(alloc, header)?)
}

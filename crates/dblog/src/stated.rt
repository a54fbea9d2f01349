// The size of a page that the header of a database states.
ghost use Rattle.std.specs.Prelude.{◌≡◌, IfSome, length};
ghost use Rattle.dbsource.specs.Sources.{AreBytes};
ghost use Rattle.dblog.specs.Recovered.{size_in};
ghost use Rattle.dblog.specs.Stated.{Measures};

use dbformat::u16_at;
use dbsource::{ReadFailed, Source};

// A shorter file states none.
const LEAST_LEN: u64 = 18;

const AT: u64 = 16;

// The size that these two bytes state.
fn size_in(two: &[u8]) -> u32
    requires { length two.now ≡ 2 }
    ensures { result ≡ size_in two.now }
{
    match u16_at(two, 0) {
        1 => 65536,
        size => u32::from(size),
    }
}

/// The length of a database, and the size of a page that its header states, or 0 where the file ends before: one read of two bytes.
///
/// # Errors
///
/// [`ReadFailed`] exactly where the source failed.
pub fn measure<S: Source>(base: &mut S) -> Result<(u64, u32), ReadFailed>
    ensures size { Measures S.step S.lengths result (S.held base.old) (S.held base.new) }
    ensures bytes { IfSome (S.held base.new).bytes AreBytes }
{
    let len = base.len()?;
    if len < LEAST_LEN {
        return Ok((len, 0));
    }
    let mut two = [0u8; 2];
    base.read_at(AT, &mut two)?;
    Ok((len, size_in(&two)))
}

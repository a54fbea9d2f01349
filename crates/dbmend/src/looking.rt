// A look at a piece of a file, between two runs.
ghost use Rattle.std.specs.Prelude.{◌≡◌, ◌≤◌, length};
ghost use Rattle.dbsource.specs.Answers.{answer};
ghost use Rattle.dbmend.specs.Deeds.{HasLooked};

use dbsource::{ReadFailed, Source};

// Reads as many bytes as `buf` has, from `offset` on.
pub(crate) fn look_at<S: Source>(
    source: &mut S,
    offset: u64,
    buf: &mut [u8],
) -> Result<(), ReadFailed>
    requires { length buf.old ≤ 65536 }
    ensures { HasLooked S.Source (answer result offset buf.new) source.old source.new }
{
    source.read_at(offset, buf)
}

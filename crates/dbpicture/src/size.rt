// Sizes in bytes.
ghost use Rattle.std.specs.Prelude.{◌≡◌, ◌≤◌};
ghost use Rattle.dbpicture.specs.Legends as legends;

// A number of units of some bytes, in tenths, rounded.
fn tenths(bytes: u64, unit: u64) -> u64
    requires { 1 ≤ unit }
    ensures { result ≡ legends.tenths bytes unit }
{
    bytes.saturating_mul(20).saturating_add(unit) / 2 / unit
}

/// The size of some pages, in tenths of its unit, and this unit: KiB below 1 MiB, and else MiB.
pub(crate) fn size(pages: u32, page_size: u32) -> (u64, &'static str)
    ensures tenths { result.0 ≡ legends.size_tenths pages page_size }
    ensures unit { result.1.now ≡ legends.size_unit pages page_size }
{
    let bytes = u64::from(pages) * u64::from(page_size);
    if bytes < 1_048_576 {
        (tenths(bytes, 1024), " KiB")
    } else {
        (tenths(bytes, 1_048_576), " MiB")
    }
}

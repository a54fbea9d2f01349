// The sums of a write-ahead log (Database File Format, 4.2).
ghost use Rattle.std.specs.Prelude.{◌≡◌, ◌+◌, ◌≤◌, length};
ghost use Rattle.dblog.specs.Sums.{is_same, plus, sums, sums_at, with_pair};

use byteorder::ByteOrder;
use dbformat::u32_at;

/// Two sums of 32 bits.
#[derive(Clone, Copy)]
pub struct Sums {
    first: u32,
    second: u32,
}

impl Sums {
    // Those before anything is summed.
    pub(crate) fn none() -> Sums
        ensures { result ≡ (record { first = 0; second = 0 }) }
    {
        Sums {
            first: 0,
            second: 0,
        }
    }

    // Those that are stated from byte `at` on.
    pub(crate) fn stated(bytes: &[u8], at: u32) -> Sums
        requires place { at ≤ 24 }
        requires within { at + 8 ≤ length bytes.now }
        ensures { result ≡ sums_at at bytes.now }
    {
        Sums {
            first: u32_at(bytes, at),
            second: u32_at(bytes, at + 4),
        }
    }

    pub(crate) fn is_same(self, other: Sums) -> bool
        ensures { result ≡ is_same self other }
    {
        self.first == other.first && self.second == other.second
    }
}

// The sums of these bytes, going on from a start.
pub(crate) fn add_up<O: ByteOrder>(start: Sums, bytes: &[u8]) -> Sums
    ensures { result ≡ sums O.number_of start bytes.now }
{
    let mut sums = start;
    for pair in 0..bytes.len() / 8 {
        let first = sums
            .first
            .wrapping_add(O::read_u32(&bytes[8 * pair..]))
            .wrapping_add(sums.second);
        sums = Sums {
            first,
            second: sums
                .second
                .wrapping_add(O::read_u32(&bytes[8 * pair + 4..]))
                .wrapping_add(first),
        };
    }
    sums
}

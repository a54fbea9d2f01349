// Numbers as the file stores them: big-endian (Database File Format, 1.3 and 1.6).
ghost use Rattle.std.specs.Prelude.{◌≡◌, ◌+◌, ◌≤◌, length};
ghost use Rattle.dbformat.specs.Numbers.{u16_at, u32_at};

use byteorder::{BigEndian, ByteOrder};

/// The number in the two bytes from byte `at` on.
#[inline(always)]
pub fn u16_at(bytes: &[u8], at: u32) -> u16
    requires { at + 2 ≤ length bytes.now }
    ensures { result ≡ u16_at at bytes.now }
{
    BigEndian::read_u16(&bytes[at as usize..])
}

/// The number in the four bytes from byte `at` on.
#[inline(always)]
pub fn u32_at(bytes: &[u8], at: u32) -> u32
    requires { at + 4 ≤ length bytes.now }
    ensures { result ≡ u32_at at bytes.now }
{
    BigEndian::read_u32(&bytes[at as usize..])
}

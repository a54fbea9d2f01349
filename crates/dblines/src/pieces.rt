// Pieces of a line.
ghost use Rattle.arrayvec.specs.ArrayVec.{array_vec_len};
ghost use Rattle.std.specs.Prelude.{◌≡◌, ◌+◌, ◌≤◌, ◌++◌, length, decimal};

use arrayvec::ArrayVec;
use itoa::Buffer;

/// Adds a text, for which the caller has made room.
pub fn append<const CAP: usize>(line: &mut ArrayVec<u8, CAP>, text: &str)
    requires { array_vec_len line.old + length text.now ≤ CAP }
    ensures text { line.new.items ≡ line.old.items ++ text.now }
    ensures long { array_vec_len line.new ≡ array_vec_len line.old + length text.now }
{
    let _ = line.try_extend_from_slice(text.as_bytes());
}

/// Adds a number in decimal, of at most 20 digits.
pub fn append_number<const CAP: usize>(line: &mut ArrayVec<u8, CAP>, number: u64)
    requires { array_vec_len line.old + 20 ≤ CAP }
    ensures text { line.new.items ≡ line.old.items ++ decimal number }
    ensures short { array_vec_len line.new ≤ array_vec_len line.old + 20 }
{
    let mut buffer = Buffer::new();
    append(line, buffer.format(number));
}

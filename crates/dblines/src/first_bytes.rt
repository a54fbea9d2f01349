// Bytes in hexadecimal, and as ASCII.
ghost use Rattle.arrayvec.specs.ArrayVec.{array_vec_len};
ghost use Rattle.std.specs.Prelude.{◌≡◌, ◌+◌, ◌*◌, ◌≤◌, ◌++◌, length, map};
ghost use Rattle.std.specs.List.{flat_map};
ghost use Rattle.dbformat.specs.FirstBytes.{begins_with, hex_column, shown_byte};

use crate::pieces::append;
use arrayvec::ArrayVec;
use dbformat::{hex_byte, shown_byte};

// A byte in hexadecimal, after a blank.
fn hex_column(byte: u8) -> [u8; 3]
    ensures { result ≡ hex_column byte }
{
    let [high, low] = hex_byte(byte);
    [b' ', high, low]
}

// Adds a byte in hexadecimal, after a blank.
fn append_column<const CAP: usize>(line: &mut ArrayVec<u8, CAP>, byte: u8)
    requires { array_vec_len line.old + 3 ≤ CAP }
    ensures text { line.new.items ≡ line.old.items ++ hex_column byte }
    ensures long { array_vec_len line.new ≡ array_vec_len line.old + 3 }
{
    let column = hex_column(byte);
    let _ = line.try_extend_from_slice(&column[..]);
}

// Adds bytes in hexadecimal.
fn append_hex<const CAP: usize>(line: &mut ArrayVec<u8, CAP>, bytes: &[u8])
    requires { array_vec_len line.old + 3 * length bytes.now ≤ CAP }
    ensures text { line.new.items ≡ line.old.items ++ flat_map hex_column bytes.now }
    ensures long { array_vec_len line.new ≡ array_vec_len line.old + 3 * length bytes.now }
{
    for byte in bytes {
        append_column(line, *byte);
    }
}

// Adds bytes as ASCII.
fn append_shown<const CAP: usize>(line: &mut ArrayVec<u8, CAP>, bytes: &[u8])
    requires { array_vec_len line.old + length bytes.now ≤ CAP }
    ensures text { line.new.items ≡ line.old.items ++ map shown_byte bytes.now }
    ensures long { array_vec_len line.new ≡ array_vec_len line.old + length bytes.now }
{
    for byte in bytes {
        line.push(shown_byte(*byte));
    }
}

/// Adds what bytes begin with: the first of them, in hexadecimal and as ASCII.
pub fn append_first_bytes<const CAP: usize>(line: &mut ArrayVec<u8, CAP>, bytes: &[u8])
    requires { array_vec_len line.old + 13 + 4 * length bytes.now ≤ CAP }
    ensures text { line.new.items ≡ line.old.items ++ begins_with bytes.now }
    ensures long { array_vec_len line.new ≡ array_vec_len line.old + 13 + 4 * length bytes.now }
{
    append(line, "begins with");
    append_hex(line, bytes);
    append(line, "  ");
    append_shown(line, bytes);
}

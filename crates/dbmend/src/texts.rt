// What is written of a search for changes.
ghost use Rattle.arrayvec.specs.ArrayVec.{array_vec_len};
ghost use Rattle.std.specs.Prelude.{◌≡◌, ◌+◌, ◌*◌, ◌≤◌, ◌∷◌, ◌++◌, [], length};
ghost use Rattle.std.specs.List.{flat_map};
ghost use Rattle.dbformat.specs.Lines.{line_feed, ok_line};
ghost use Rattle.dbformat.specs.Text.{hex_text};
ghost use Rattle.dbinjuries.specs.Lines.{number_text};
ghost use Rattle.dbmend.specs.Texts.{change_line, end_text, first_text, left_text, page_line, still_text};

use arrayvec::ArrayVec;
use dbformat::hex_byte;
use dbinjuries::append_count;
use dblines::{append, append_number};

// The line that counts some things, of which there may be one.
fn count_line(front: &str, count: u64, one: &str, more: &str) -> ArrayVec<u8, 64>
    requires front { length front.now ≤ 4 }
    requires one { length one.now ≤ 18 }
    requires more { length more.now ≤ 18 }
    ensures { result.items ≡ front.now ++ (number_text count one.now more.now ++ line_feed ∷ []) }
{
    let mut line = ArrayVec::new();
    append(&mut line, front);
    append_count(&mut line, count, one, more);
    append(&mut line, "\n");
    line
}

// The line that says how many faults there are, if there are any.
pub(crate) fn first_text(faults: u64) -> ArrayVec<u8, 64>
    ensures { result.items ≡ first_text faults }
{
    if faults == 0 {
        return ArrayVec::new();
    }
    count_line("", faults, " fault", " faults")
}

// The line that says how many faults are left.
fn left_line(front: &str, faults: u64) -> ArrayVec<u8, 64>
    requires { length front.now ≤ 4 }
    ensures { result.items ≡ front.now ++ left_text faults }
{
    count_line(front, faults, " fault is left", " faults are left")
}

// The line `ok`.
fn ok_line() -> ArrayVec<u8, 64>
    ensures { result.items ≡ ok_line }
{
    let mut line = ArrayVec::new();
    append(&mut line, "ok\n");
    line
}

// The last line: that no fault is left, or how many are.
pub(crate) fn end_text(faults: u64) -> ArrayVec<u8, 64>
    ensures { result.items ≡ end_text faults }
{
    if faults == 0 {
        return ok_line();
    }
    left_line("", faults)
}

// How many faults are left after a change, if there are any.
pub(crate) fn still_text(faults: u64) -> ArrayVec<u8, 64>
    ensures { result.items ≡ still_text faults }
{
    if faults == 0 {
        return ArrayVec::new();
    }
    left_line("    ", faults)
}

// The page of a change, and where it begins.
#[tactic(auto, unfolding(crate::specs::Texts::page_line))]
pub(crate) fn page_line(page_size: u32, offset: u64) -> ArrayVec<u8, 64>
    requires { 512 ≤ page_size }
    ensures { result.items ≡ page_line page_size offset }
{
    let size = u64::from(page_size);
    let mut line = ArrayVec::new();
    append(&mut line, "    page ");
    append_number(&mut line, offset / size + 1);
    append(&mut line, " at byte ");
    append_number(&mut line, offset - offset % size);
    append(&mut line, "\n");
    line
}

// Adds a byte in hexadecimal.
fn append_byte<const CAP: usize>(line: &mut ArrayVec<u8, CAP>, byte: u8)
    requires { array_vec_len line.old + 2 ≤ CAP }
    ensures text { line.new.items ≡ line.old.items ++ hex_text 2 byte }
    ensures long { array_vec_len line.new ≡ array_vec_len line.old + 2 }
{
    let digits = hex_byte(byte);
    let _ = line.try_extend_from_slice(&digits[..]);
}

// Adds bytes in hexadecimal.
fn append_hex<const CAP: usize>(line: &mut ArrayVec<u8, CAP>, bytes: &[u8])
    requires { array_vec_len line.old + 2 * length bytes.now ≤ CAP }
    ensures text { line.new.items ≡ line.old.items ++ flat_map (hex_text 2) bytes.now }
    ensures long { array_vec_len line.new ≡ array_vec_len line.old + 2 * length bytes.now }
{
    for byte in bytes {
        append_byte(line, *byte);
    }
}

// What a change puts, and for what.
#[tactic(auto, unfolding(crate::specs::Texts::change_line))]
pub(crate) fn change_line(offset: u64, bytes: &[u8], was: &[u8]) -> ArrayVec<u8, 112>
    requires bytes { length bytes.now ≤ 16 }
    requires was { length was.now ≤ 16 }
    ensures { result.items ≡ change_line offset bytes.now was.now }
{
    let mut line = ArrayVec::new();
    append(&mut line, "at byte ");
    append_number(&mut line, offset);
    append(&mut line, " put ");
    append_hex(&mut line, bytes);
    append(&mut line, " for ");
    append_hex(&mut line, was);
    append(&mut line, "\n");
    line
}

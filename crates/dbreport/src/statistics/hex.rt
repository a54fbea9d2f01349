// Numbers in hexadecimal.
ghost use Rattle.arrayvec.specs.ArrayVec.{array_vec_len};
ghost use Rattle.std.specs.Prelude.{◌≡◌, ◌+◌, ◌<◌, ◌≤◌, false, ◌++◌, take, drop};
ghost use Rattle.std.specs.Fmt.{digits};
ghost use Rattle.dbformat.specs.Text.{hex_text};

use arrayvec::ArrayVec;
use dbformat::hex_digit;

// How many digits a number of 32 bits has at most.
const MAX_DIGITS: usize = 8;

// Adds a number in lower-case hexadecimal, with zeros in front up to a width.
pub(crate) fn append_hex_number<const CAP: usize>(
    line: &mut ArrayVec<u8, CAP>,
    width: usize,
    number: u32,
)
    requires width { width ≤ 8 }
    requires room { array_vec_len line.old + 8 ≤ CAP }
    ensures text { line.new.items ≡ line.old.items ++ hex_text width number }
    ensures short { array_vec_len line.new ≤ array_vec_len line.old + 8 }
{
    let mut text = [b'0'; MAX_DIGITS];
    let start = write_hex(number, &mut text);
    let _ = line.try_extend_from_slice(&text[start.min(MAX_DIGITS - width)..]);
}

// Writes the digits at the end, and answers where they start.
fn write_hex(number: u32, text: &mut [u8; MAX_DIGITS]) -> usize
    ensures some { result < 8 }
    ensures written { drop result text.new ≡ digits 16 false number }
    ensures before { take result text.new ≡ take result text.old }
{
    let mut rest = number;
    let mut at = MAX_DIGITS - 1;
    while rest >= 16 {
        text[at] = hex_digit((rest % 16) as u8);
        at -= 1;
        rest /= 16;
    }
    text[at] = hex_digit(rest as u8);
    at
}

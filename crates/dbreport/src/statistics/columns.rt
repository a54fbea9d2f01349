// Columns of a row of the statistics, each after a tab.
ghost use Rattle.arrayvec.specs.ArrayVec.{array_vec_len};
ghost use Rattle.std.specs.Prelude.{◌≡◌, ◌+◌, ◌-◌, ◌*◌, ◌≤◌, ◌∷◌, ◌++◌, length, decimal};
ghost use Rattle.dbformat.specs.Lines.{tab, chain_text};
ghost use Rattle.dbreport.specs.Columns.{counts_text, offset_text};

use crate::statistics::hex::append_hex_number;
use arrayvec::ArrayVec;
use dbformat::Counts;
use dblines::{append, append_number};

// Adds a column with a text, for which there is room.
pub(crate) fn append_text<const CAP: usize>(line: &mut ArrayVec<u8, CAP>, text: &str)
    requires { array_vec_len line.old + 1 + length text.now ≤ CAP }
    ensures { line.new.items ≡ line.old.items ++ tab ∷ text.now }
{
    append(line, "\t");
    append(line, text);
}

// Adds a column with a number.
pub(crate) fn append_count<const CAP: usize>(line: &mut ArrayVec<u8, CAP>, number: u64)
    requires { array_vec_len line.old + 21 ≤ CAP }
    ensures text { line.new.items ≡ line.old.items ++ tab ∷ decimal number }
    ensures short { array_vec_len line.new ≤ array_vec_len line.old + 21 }
{
    append(line, "\t");
    append_number(line, number);
}

// Adds the columns of what a page or a tree counts.
pub(crate) fn append_counts<const CAP: usize>(line: &mut ArrayVec<u8, CAP>, counts: &Counts)
    requires { array_vec_len line.old + 84 ≤ CAP }
    ensures text { line.new.items ≡ line.old.items ++ counts_text counts.now }
    ensures short { array_vec_len line.new ≤ array_vec_len line.old + 84 }
{
    append_count(line, counts.ncell);
    append_count(line, counts.payload);
    append_count(line, counts.unused);
    append_count(line, counts.mx_payload);
}

// Adds the last columns of the row of a page, where it begins in the file and its size, and the end of the line.
pub(crate) fn append_place<const CAP: usize>(
    line: &mut ArrayVec<u8, CAP>,
    page: u32,
    page_size: u32,
)
    requires { array_vec_len line.old + 43 ≤ CAP }
    ensures { line.new.items ≡ line.old.items ++ offset_text page page_size }
{
    append_count(line, offset_of(page, page_size));
    append_count(line, u64::from(page_size));
    append(line, "\n");
}

// Where a page begins in the file.
fn offset_of(page: u32, page_size: u32) -> u64
    ensures { result ≡ (page - 1) * page_size }
{
    u64::from(page.saturating_sub(1)) * u64::from(page_size)
}

// Adds the end of a path: the cell of an overflow page, and its number in the chain.
pub(crate) fn append_chain<const CAP: usize>(
    line: &mut ArrayVec<u8, CAP>,
    chain: Option<(u32, u32)>,
)
    requires { array_vec_len line.old + 17 ≤ CAP }
    ensures text { line.new.items ≡ line.old.items ++ chain_text chain }
    ensures short { array_vec_len line.new ≤ array_vec_len line.old + 17 }
{
    if let Some((cell, number)) = chain {
        append_hex_number(line, 3, cell);
        append(line, "+");
        append_hex_number(line, 6, number);
    }
}

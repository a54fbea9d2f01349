// The lines of the summary.
ghost use Rattle.arrayvec.specs.ArrayVec.{array_vec_len};
ghost use Rattle.std.specs.Prelude.{◌≡◌, ◌+◌, ◌≤◌, [], ◌∷◌, ◌++◌, length, replicate, codes, decimal};
ghost use Rattle.std.specs.List.{flat_map};
ghost use Rattle.dbformat.specs.Lines.{code_text, code_words, line_feed};
ghost use Rattle.dblines.specs.Writing.{Wrote};
ghost use Rattle.dbexplain.specs.Summary.{aligned, count_text, sum_line};
ghost use Rattle.dbexplain.specs.Sums.{code_sum, sum_front};

use crate::tally::Tally;
use arrayvec::ArrayVec;
use dbformat::FaultCode;
use dblines::{Writer, append, append_number, code_text, code_words};
use dbsource::Out;
use itoa::Buffer;
use std::alloc::Allocator;

// How many digits a number of 64 bits has at most.
const MAX_DIGITS: usize = 20;

// How many digits a number has.
fn width(number: u64) -> usize
    ensures digits { result ≡ length (decimal number) }
    ensures most { result ≤ 20 }
{
    let mut buffer = Buffer::new();
    buffer.format(number).len()
}

// Adds blanks.
fn append_blanks<const CAP: usize>(line: &mut ArrayVec<u8, CAP>, count: usize)
    requires room { array_vec_len line.old + count ≤ CAP }
    requires most { count ≤ 20 }
    ensures { line.new.items ≡ line.old.items ++ replicate count 32 }
{
    let blanks = [b' '; MAX_DIGITS];
    let _ = line.try_extend_from_slice(&blanks[..count]);
}

// Adds a number with blanks in front, to the width of another.
fn append_aligned<const CAP: usize>(line: &mut ArrayVec<u8, CAP>, most: u64, number: u64)
    requires { array_vec_len line.old + 40 ≤ CAP }
    ensures text { line.new.items ≡ line.old.items ++ aligned most number }
    ensures short { array_vec_len line.new ≤ array_vec_len line.old + 40 }
{
    append_blanks(line, width(most).saturating_sub(width(number)));
    append_number(line, number);
}

// The beginning of the line of a count.
pub(crate) fn sum_front(all: u64, count: u64) -> ArrayVec<u8, 160>
    ensures text { result.items ≡ sum_front all count }
    ensures short { array_vec_len result ≤ 45 }
{
    let mut line = ArrayVec::new();
    append(&mut line, "    ");
    append_aligned(&mut line, all, count);
    append(&mut line, " ");
    line
}

// The line of a count of some text.
fn sum_text(all: u64, count: u64, text: &str) -> ArrayVec<u8, 160>
    requires { length text.now ≤ 64 }
    ensures { result.items ≡ sum_front all count ++ (text.now ++ line_feed ∷ []) }
{
    let mut line = sum_front(all, count);
    append(&mut line, text);
    append(&mut line, "\n");
    line
}

// The line of the count of a code.
fn code_sum(all: u64, count: u64, code: FaultCode) -> ArrayVec<u8, 160>
    ensures { result.items ≡ sum_front all count ++ (code_text code ++ codes " " ++ code_words code ++ line_feed ∷ []) }
{
    let mut line = sum_front(all, count);
    append(&mut line, code_text(code));
    append(&mut line, " ");
    append(&mut line, code_words(code));
    append(&mut line, "\n");
    line
}

// Puts how many of all faults have a code, if there are any.
fn put_code_sum<A: Allocator, O: Out>(writer: &mut Writer<'_, O>, tally: &Tally<A>, code: FaultCode)
    ensures { Wrote O.held writer.old (code_sum tally.now code) writer.new }
{
    let count = tally.with_code(code);
    if count == 0 {
        return;
    }
    writer.put(code_sum(tally.all(), count, code).as_slice());
}

// Puts how many of all faults have each of these codes.
pub(crate) fn put_code_sums<A: Allocator, O: Out>(
    writer: &mut Writer<'_, O>,
    tally: &Tally<A>,
    codes: &[FaultCode],
)
    ensures { Wrote O.held writer.old (flat_map (code_sum tally.now) codes.now) writer.new }
{
    for code in codes {
        put_code_sum(writer, tally, *code);
    }
}

// Puts how many of all faults there are of this, if there are any.
pub(crate) fn put_sum<O: Out>(writer: &mut Writer<'_, O>, all: u64, count: u64, text: &str)
    requires { length text.now ≤ 64 }
    ensures { Wrote O.held writer.old (sum_line all count text.now) writer.new }
{
    if count == 0 {
        return;
    }
    writer.put(sum_text(all, count, text).as_slice());
}

// The line of how many faults there are.
pub(crate) fn count_text(all: u64) -> ArrayVec<u8, 32>
    ensures { result.items ≡ count_text all }
{
    let mut line = ArrayVec::new();
    append_number(&mut line, all);
    append(&mut line, if all == 1 { " fault\n" } else { " faults\n" });
    line
}

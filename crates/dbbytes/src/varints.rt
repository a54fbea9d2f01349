// Variable-length integers (Database File Format, 1.6).
ghost use Rattle.std.specs.Prelude.{◌≡◌, ◌<◌, ◌≤◌, drop, length, None, Some, IfSome, IfOk, IfErr, MatchBool, ◌==◌};
ghost use Rattle.dbformat.specs.Varint.{varint};
ghost use Rattle.dbbytes.specs.Varint.{GoesOn};

use crate::partial::{PartialVarint, VarintProgress};

// What the bits that say that more follow add to the bytes of a number after one, two and three of them. They are taken off at the
// end, all at once.
const ONE_MORE: u64 = 128 * 128;

const TWO_MORE: u64 = (ONE_MORE + 128) * 128;

const THREE_MORE: u64 = (TWO_MORE + 128) * 128;

/// The number that `bytes` begin with, and its length in bytes, from 1 to 9. Every spelling of a number is accepted.
/// `None` only where the bytes end within it.
// Nearly all numbers of a page have four bytes at most, so these are read in the caller, without a loop.
#[inline(always)]
pub fn varint(bytes: &[u8]) -> Option<(u64, usize)>
    ensures value { result ≡ varint bytes.now }
    ensures within { IfSome result (λ r. (0 < r.1) × (r.1 ≤ 9) × (r.1 ≤ length bytes.now)) }
{
    if bytes.len() < 4 {
        return varint_by_bytes(bytes);
    }
    varint_of_four(bytes)
}

/// `varint` of four bytes or more.
#[inline(always)]
pub fn varint_of_four(bytes: &[u8]) -> Option<(u64, usize)>
    requires { 4 ≤ length bytes.now }
    ensures value { result ≡ varint bytes.now }
    ensures within { IfSome result (λ r. (0 < r.1) × (r.1 ≤ 9) × (r.1 ≤ length bytes.now)) }
{
    match short_varint(bytes) {
        Ok(short) => Some(short),
        Err(_) if bytes.len() < 9 => varint_by_bytes(bytes),
        Err(four) => Some(far_varint_after_four(bytes, four)),
    }
}

/// `varint` of nine bytes or more, for a loop over numbers that often have more than four: all of it is read in the caller.
#[inline(always)]
pub fn varint_of_nine(bytes: &[u8]) -> (u64, usize)
    requires { 9 ≤ length bytes.now }
    ensures value { Some result ≡ varint bytes.now }
    ensures within { (0 < result.1) × (result.1 ≤ 9) }
{
    match short_varint(bytes) {
        Ok(short) => short,
        Err(four) => varint_after_four(bytes, four),
    }
}

/// `varint` of four bytes or more. It is an error where the number has more than four bytes: what the first four give of it.
#[inline(always)]
pub fn short_varint(bytes: &[u8]) -> Result<(u64, usize), u64>
    requires { 4 ≤ length bytes.now }
    ensures value { IfOk result (λ r. varint bytes.now ≡ Some r) }
    ensures within { IfOk result (λ r. (0 < r.1) × (r.1 ≤ 4)) }
    ensures more { IfErr result (λ four. GoesOn 4 four (drop 4 bytes.now) bytes.now × (four < 268435456)) }
{
    let one = u64::from(bytes[0]);
    if one < 128 {
        return Ok((one, 1));
    }
    let two = one * 128 + u64::from(bytes[1]);
    if bytes[1] < 128 {
        return Ok((two - ONE_MORE, 2));
    }
    let three = two * 128 + u64::from(bytes[2]);
    if bytes[2] < 128 {
        return Ok((three - TWO_MORE, 3));
    }
    let four = three * 128 + u64::from(bytes[3]);
    if bytes[3] < 128 {
        return Ok((four - THREE_MORE, 4));
    }
    Err(four - THREE_MORE - 128)
}

// `varint_after_four`, not read in the caller. Cold, so that what the loops of callers keep in registers is what shorter
// numbers need.
#[cold]
#[inline(never)]
fn far_varint_after_four(bytes: &[u8], four: u64) -> (u64, usize)
    requires nine { 9 ≤ length bytes.now }
    requires more { GoesOn 4 four (drop 4 bytes.now) bytes.now }
    requires small { four < 268435456 }
    ensures value { Some result ≡ varint bytes.now }
    ensures within { (5 ≤ result.1) × (result.1 ≤ 9) }
{
    varint_after_four(bytes, four)
}

// `varint`, whose first four bytes gave `four` and say that more follow.
#[inline(always)]
fn varint_after_four(bytes: &[u8], four: u64) -> (u64, usize)
    requires nine { 9 ≤ length bytes.now }
    requires more { GoesOn 4 four (drop 4 bytes.now) bytes.now }
    requires small { four < 268435456 }
    ensures value { Some result ≡ varint bytes.now }
    ensures within { (5 ≤ result.1) × (result.1 ≤ 9) }
{
    let five = four * 128 + u64::from(bytes[4] % 128);
    if bytes[4] < 128 {
        return (five, 5);
    }
    let six = five * 128 + u64::from(bytes[5] % 128);
    if bytes[5] < 128 {
        return (six, 6);
    }
    let seven = six * 128 + u64::from(bytes[6] % 128);
    if bytes[6] < 128 {
        return (seven, 7);
    }
    let eight = seven * 128 + u64::from(bytes[7] % 128);
    if bytes[7] < 128 {
        return (eight, 8);
    }
    (eight * 256 + u64::from(bytes[8]), 9)
}

// `varint`, byte by byte.
#[inline(always)]
fn varint_by_bytes(bytes: &[u8]) -> Option<(u64, usize)>
    ensures value { result ≡ varint bytes.now }
    ensures within { IfSome result (λ r. (0 < r.1) × (r.1 ≤ 9) × (r.1 ≤ length bytes.now)) }
{
    let (value, len) = long_varint(bytes);
    if len == 0 { None } else { Some((value, len)) }
}

// `varint`, byte by byte. Its length is 0 where the bytes end within it. A pair is returned in registers: an `Option` of one needs
// room that each caller would clear for each number.
#[cold]
#[inline(never)]
fn long_varint(bytes: &[u8]) -> (u64, usize)
    ensures value { MatchBool (result.1 == 0) (varint bytes.now ≡ None) (varint bytes.now ≡ Some result) }
{
    let mut number = PartialVarint::new();
    for byte in bytes {
        match number.push(*byte) {
            VarintProgress::More(partial) => number = partial,
            VarintProgress::Whole { value, length } => return (value, usize::from(length)),
        }
    }
    (0, 0)
}

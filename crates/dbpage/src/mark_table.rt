// A table of marks, a bit for each byte of a page.
ghost use Rattle.std.specs.Prelude.{◌≡◌, ℕ, false, ◌+◌, ◌-◌, ◌*◌, ◌%◌, ◌^◌, ◌<◌, ◌≤◌, ◌⊎◌, length, slice_index, MatchBool};
ghost use Rattle.std.specs.Int.{bit_at};
ghost use Rattle.dbpage.specs.Marking.{HasMarked, HasOther, Marks, is_claimed, mark_bit};

use crate::mark_count::MarkCount;
use byteorder::{ByteOrder, LittleEndian};
use std::simd::prelude::*;
use std::sync::ledger::Ledger;

// Clears the marks of the first `bytes` bytes.
#[inline(always)]
pub(crate) fn clear(table: &mut [u8], bytes: u32)
    requires room { bytes ≤ length table.old }
    requires least { 16 ≤ bytes }
    ensures { (byte : ℕ) → byte < bytes → is_claimed table.new byte ≡ false }
{
    table[..(bytes / 8 + 1) as usize].fill(0);
}

// Marks `len` bytes from `from` on, unless one of them is marked. The marks of most items are in one window.
#[inline(always)]
pub(crate) fn claim<L: Ledger>(
    table: &mut [u8],
    from: u32,
    len: u32,
    mark_count: &mut MarkCount<L>,
) -> bool
    requires room { from + len ≤ length table.old }
    requires least { 16 ≤ length table.old }
    requires fits { from + len < 2 ^ 32 }
    ensures marked { MatchBool result (Marks table.old from (from + len) table.new) (HasMarked table.old from (from + len)) }
    ensures counted { MatchBool result (mark_count.new ≡ mark_count.old + len) (mark_count.new ≡ mark_count.old + 1) }
{
    let is_free = if len <= 56 {
        claim_few(table, from, len)
    } else {
        claim_many(table, from, len)
    };
    mark_count.add(if is_free { len } else { 1 });
    is_free
}

// `claim` of items that are longer than a window.
#[inline(never)]
fn claim_many(table: &mut [u8], from: u32, len: u32) -> bool
    requires room { from + len ≤ length table.old }
    requires least { 16 ≤ length table.old }
    requires fits { from + len < 2 ^ 32 }
    ensures { MatchBool result (Marks table.old from (from + len) table.new) (HasMarked table.old from (from + len)) }
{
    if len < 264 {
        claim_plain(table, from, len)
    } else {
        claim_long(table, from, len)
    }
}

// `claim` by windows of 64 marks. Each but the last ends where the next begins in the table: a read that overlaps a
// part of what was just written waits for it.
#[inline(always)]
pub(crate) fn claim_plain(table: &mut [u8], from: u32, len: u32) -> bool
    requires room { from + len ≤ length table.old }
    requires least { 16 ≤ length table.old }
    requires fits { from + len < 2 ^ 32 }
    ensures { MatchBool result (Marks table.old from (from + len) table.new) (HasMarked table.old from (from + len)) }
{
    let end = from + len;
    let mut at = from;
    while end - at >= 64 - at % 8 {
        if !claim_few(table, at, 64 - at % 8) {
            return false;
        }
        at += 64 - at % 8;
    }
    claim_few(table, at, end - at)
}

// `claim` of 64 bytes or more: by a window that ends at a whole byte of the table, by lanes of 256 marks, and then the rest.
#[inline(always)]
pub(crate) fn claim_long(table: &mut [u8], from: u32, len: u32) -> bool
    requires room { from + len ≤ length table.old }
    requires least { 16 ≤ length table.old }
    requires fits { from + len < 2 ^ 32 }
    requires long { 64 ≤ len }
    ensures { MatchBool result (Marks table.old from (from + len) table.new) (HasMarked table.old from (from + len)) }
{
    let end = from + len;
    let mut at = from + (64 - from % 8);
    if !claim_few(table, from, at - from) {
        return false;
    }
    while end - at >= 256 {
        if !claim_lanes(table, at) {
            return false;
        }
        at += 256;
    }
    claim_plain(table, at, end - at)
}

// Marks 256 bytes from `from` on, unless one of them is marked. Their marks are whole bytes of the table.
#[inline(always)]
fn claim_lanes(table: &mut [u8], from: u32) -> bool
    requires room { from + 256 ≤ length table.old }
    requires whole { from % 8 ≡ 0 }
    ensures { MatchBool result (Marks table.old from (from + 256) table.new) (HasMarked table.old from (from + 256)) }
{
    let start = (from / 8) as usize;
    if has_other(table, start, 0) {
        return false;
    }
    u8x32::splat(255).copy_to_slice(&mut table[start..]);
    true
}

/// Whether one of the 32 bytes from `start` on is not `one`. In a table of marks, and not 0: whether one of 256 bytes is marked.
#[inline(always)]
pub(crate) fn has_other(table: &[u8], start: usize, one: u8) -> bool
    requires { start + 32 ≤ length table.now }
    ensures { MatchBool result (HasOther table.now one start (start + 32)) ((k : ℕ) → start ≤ k → k < start + 32 → slice_index table.now k ≡ one) }
{
    let lanes = u8x32::from_slice(&table[start..]);
    lanes.simd_ne(u8x32::splat(one)).to_bitmask() != 0
}

// Marks `len` bytes from `from` on, unless one of them is marked. Their bits are in eight bytes of the table, which are
// read and written as one number.
#[inline(always)]
fn claim_few(table: &mut [u8], from: u32, len: u32) -> bool
    requires room { from + len ≤ length table.old }
    requires least { 16 ≤ length table.old }
    requires few { from % 8 + len ≤ 64 }
    ensures marked { MatchBool result (Marks table.old from (from + len) table.new) (HasMarked table.old from (from + len)) }
{
    let start = from / 8;
    let old = eight_at(table, start);
    let bits = ones(from % 8, from % 8 + len);
    if old & bits != 0 {
        return false;
    }
    set_eight(table, start, old | bits);
    true
}

// The number whose bits from `from` up to `to`, without it, are ones.
#[inline(always)]
fn ones(from: u32, to: u32) -> u64
    requires { (from ≤ to) × (from < 64) × (to ≤ 64) }
    ensures { result ≡ 2 ^ to - 2 ^ from }
{
    if to == 64 {
        return u64::MAX << from;
    }
    ((1u64 << (to - from)) - 1) << from
}

// Eight bytes of the table as a number: the marks of 64 bytes.
#[inline(always)]
fn eight_at(table: &[u8], start: u32) -> u64
    requires { start + 8 ≤ length table.now }
    ensures { (byte : ℕ) → 8 * start ≤ byte → byte < 8 * start + 64 → bit_at result (byte - 8 * start) ≡ mark_bit table.now byte }
{
    LittleEndian::read_u64(&table[start as usize..start as usize + 8])
}

// Writes the marks of 64 bytes.
#[inline(always)]
fn set_eight(table: &mut [u8], start: u32, marks: u64)
    requires { start + 8 ≤ length table.old }
    ensures inside { (byte : ℕ) → 8 * start ≤ byte → byte < 8 * start + 64 → mark_bit table.new byte ≡ bit_at marks (byte - 8 * start) }
    ensures outside { (byte : ℕ) → (byte < 8 * start) ⊎ (8 * start + 64 ≤ byte) → mark_bit table.new byte ≡ mark_bit table.old byte }
{
    LittleEndian::write_u64(&mut table[start as usize..start as usize + 8], marks);
}

// Notes of where items end, one for each four bytes of a content area: an item has four at least, so two that begin in the same four
// share a byte.
ghost use Rattle.std.specs.Prelude.{◌≡◌, ℕ, ◌+◌, ◌-◌, ◌/◌, ◌<◌, ◌≤◌, length, MatchBool};
ghost use Rattle.dbpage.specs.Notes.{AreInside, HasNear, Notes, Walked, end_at, note_of};

// Clears the notes of a content area.
#[inline(always)]
pub(crate) fn clear_notes(table: &mut [u8], start: u32, end: u32)
    requires order { start ≤ end }
    requires room { (end - start) / 2 + 2 ≤ length table.old }
    ensures { (at : ℕ) → end_at table.new start end at ≡ 0 }
{
    table[..((end - start) / 2 + 2) as usize].fill(0);
}

// Notes an item of `len` bytes at `offset`, unless another is noted that begins in the same four bytes.
#[inline(always)]
pub(crate) fn note(table: &mut [u8], start: u32, offset: u32, len: u32) -> bool
    requires from { start ≤ offset }
    requires room { (offset - start) / 2 + 2 ≤ length table.old }
    requires some { 1 ≤ len }
    requires short { len < 16384 }
    ensures { (end : ℕ) → offset ≤ end → MatchBool result
        (Notes (end_at table.old start end) (end_at table.new start end) offset (offset + len))
        (HasNear (end_at table.old start end) offset) }
{
    let at = offset - start;
    if note_at(table, at) >= 4 {
        return false;
    }
    let note = len * 4 + at % 4;
    let place = (at / 4 * 2) as usize;
    table[place] = (note % 256) as u8;
    table[place + 1] = (note / 256) as u8;
    true
}

// How many bytes the items hold that a walk meets, from the first byte of the content area on: after an item it goes on at its end.
// The other bytes are counted, as they are few.
#[inline(always)]
pub(crate) fn held_in_order(table: &[u8], start: u32, end: u32) -> u32
    requires order { start ≤ end }
    requires most { end ≤ 65536 }
    requires room { (end - start) / 2 + 2 ≤ length table.now }
    requires inside { AreInside (end_at table.now start end) start end }
    ensures { Walked (end_at table.now start end) end end result }
{
    let mut at = start;
    let mut others = 0;
    while at < end {
        let len = len_at(table, start, at);
        if len == 0 {
            at += 1;
            others += 1;
            continue;
        }
        at += len;
    }
    end - start - others
}

// The length of the item that begins at an offset, or 0.
#[inline(always)]
fn len_at(table: &[u8], start: u32, at: u32) -> u32
    requires from { start ≤ at }
    requires room { (at - start) / 2 + 2 ≤ length table.now }
    ensures { (end : ℕ) → at ≤ end → result ≡ end_at table.now start end at - at }
{
    let note = note_at(table, at - start);
    if note % 4 == (at - start) % 4 {
        note / 4
    } else {
        0
    }
}

// What is noted for the four bytes that byte `at` of the content area is one of.
#[inline(always)]
fn note_at(table: &[u8], at: u32) -> u32
    requires { at / 2 + 2 ≤ length table.now }
    ensures value { result ≡ note_of table.now (at / 4) }
    ensures fits { result < 65536 }
{
    let place = (at / 4 * 2) as usize;
    u32::from(u16::from_le_bytes([table[place], table[place + 1]]))
}

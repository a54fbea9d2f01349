// The name of a super-journal, which is at the end of a rollback journal.
ghost use Rattle.std.specs.Prelude.{◌≡◌, ◌+◌, ◌≤◌, IsTrue, length, true};
ghost use Rattle.dbformat.specs.Numbers.{u32_at};
ghost use Rattle.dblog.specs.Journal.{has_name, is_name, name_sum, with_letter};
ghost use Rattle.dblog.specs.Stated.{ReadsBefore, ReadsName};

use crate::journal::has_magic;
use dbformat::u32_at;
use dbsource::{ReadFailed, Source};
use std::marker::Model;

// After a name: its length, its sum, and the magic.
const TAIL_LEN: usize = 16;

const MOST_NAME: usize = 512;

// What is added for a byte above 127, which counts as a negative number.
const NEGATIVE: u32 = 0xffff_ff00;

/// The name of a super-journal. A rollback journal that has one is one of several, of a transaction over more than one database.
#[derive(Drop)]
pub struct SuperName {
    bytes: [u8; 512],
    count: u32,
}

impl Model for SuperName {
    ghost use Rattle.std.specs.Prelude.{ℕ, ◌≤◌, List, take};

    ghost Value = { List ℕ };

    ghost view = { λ n. take n.count n.bytes };

    ghost invariant = { λ n. n.count ≤ 512 };
}

impl SuperName {
    // The name of these bytes.
    fn of(name: &[u8]) -> SuperName
        requires { length name.now ≤ 512 }
        ensures { result ≡ name.now }
    {
        let mut bytes = [0u8; MOST_NAME];
        bytes[..name.len()].copy_from_slice(name);
        SuperName {
            bytes,
            count: name.len() as u32,
        }
    }

    /// Its bytes.
    pub fn bytes(&self) -> &[u8]
        ensures { result.now ≡ self.now }
    {
        &self.bytes[..self.count as usize]
    }
}

// Whether this tail of a journal of `len` bytes says that there is a name before it.
fn has_name(len: u64, tail: &[u8]) -> bool
    requires { length tail.now ≡ 16 }
    ensures has { result ≡ has_name len tail.now }
    ensures fits { IsTrue result → (1 ≤ u32_at 0 tail.now) × (u32_at 0 tail.now ≤ 512) × (u32_at 0 tail.now + 16 ≤ len) }
{
    let count = u32_at(tail, 0);
    count > 0
        && count <= MOST_NAME as u32
        && u64::from(count) + TAIL_LEN as u64 <= len
        && has_magic(&tail[8..])
}

// A sum after one more byte of a name.
fn with_letter(sum: u32, byte: u8) -> u32
    ensures { result ≡ with_letter sum byte }
{
    let letter = u32::from(byte);
    sum.wrapping_add(if letter < 128 {
        letter
    } else {
        letter + NEGATIVE
    })
}

// The sum of a name.
#[tactic(auto, using(std::proofs::lemmas::List::Sums::fold_more))]
fn name_sum(name: &[u8]) -> u32
    ensures { result ≡ name_sum name.now }
{
    let mut sum = 0u32;
    for byte in name {
        sum = with_letter(sum, *byte);
    }
    sum
}

// Whether these bytes are the name that the tail states.
fn is_name(tail: &[u8], name: &[u8]) -> bool
    requires tail { length tail.now ≡ 16 }
    requires some { 1 ≤ length name.now }
    ensures { result ≡ is_name tail.now name.now }
{
    name[0] > 0 && name_sum(name) == u32_at(tail, 4)
}

// Reads the bytes before a tail that says that there is a name, into as many, and answers the name.
fn read_before<S: Source>(
    journal: &mut S,
    len: u64,
    tail: &[u8],
    name: &mut [u8],
) -> Result<Option<SuperName>, ReadFailed>
    requires has { has_name len tail.now ≡ true }
    requires fits { (u32_at 0 tail.now ≤ 512) × (u32_at 0 tail.now + 16 ≤ len) }
    requires tail { length tail.now ≡ 16 }
    requires room { length name.old ≡ u32_at 0 tail.now }
    requires some { 1 ≤ length name.old }
    ensures { ReadsBefore S.step len tail.now result (S.held journal.old) (S.held journal.new) }
{
    journal.read_at(len - (TAIL_LEN as u64 + name.len() as u64), name)?;
    if is_name(tail, name) {
        return Ok(Some(SuperName::of(name)));
    }
    Ok(None)
}

// Reads the name before a tail that says that there is one.
fn read_name<S: Source>(
    journal: &mut S,
    len: u64,
    tail: &[u8],
) -> Result<Option<SuperName>, ReadFailed>
    requires tail { length tail.now ≡ 16 }
    requires has { has_name len tail.now ≡ true }
    requires fits { (1 ≤ u32_at 0 tail.now) × (u32_at 0 tail.now ≤ 512) × (u32_at 0 tail.now + 16 ≤ len) }
    ensures { ReadsBefore S.step len tail.now result (S.held journal.old) (S.held journal.new) }
{
    let mut bytes = [0u8; MOST_NAME];
    let count = u32_at(tail, 0) as usize;
    read_before(journal, len, tail, &mut bytes[..count])
}

/// The name of a super-journal at the end of a journal of `len` bytes, if it has one: two reads at most.
///
/// # Errors
///
/// [`ReadFailed`] exactly where the source failed.
pub fn super_name<S: Source>(journal: &mut S, len: u64) -> Result<Option<SuperName>, ReadFailed>
    ensures name { ReadsName S.step len result (S.held journal.old) (S.held journal.new) }
{
    if len < TAIL_LEN as u64 {
        return Ok(None);
    }
    let mut tail = [0u8; TAIL_LEN];
    journal.read_at(len - TAIL_LEN as u64, &mut tail)?;
    if !has_name(len, &tail) {
        return Ok(None);
    }
    read_name(journal, len, &tail)
}

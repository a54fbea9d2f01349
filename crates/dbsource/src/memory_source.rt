// A source over memory.
ghost use Rattle.std.specs.Prelude.{◌≡◌, ◌+◌, ◌≤◌, length, IfOk, IfSome, IsOk, OnOk, IsTrue, ◌↔◌};
ghost use Rattle.dbsource.specs.Answers.{IsRangeOf, answer};
ghost use Rattle.dbsource.specs.Failures.{failures_after, is_any};
ghost use Rattle.dbsource.specs.Sources.{AreBytes, any_length, no_step, source_of};

use crate::{Failures, ReadFailed, Source};
use std::marker::Model;

/// Bytes in memory. A read fails only where its range passes their end.
#[derive(Drop)]
pub struct MemSource<'a> {
    bytes: &'a [u8],
    failures: Failures,
}

impl<'a> Model for MemSource<'a> {
    ghost use Rattle.dbsource.specs.Sources.{SourceState, source_of};

    ghost Value = { SourceState };

    ghost view = { λ s. record (source_of s.bytes.now) { failures = s.failures } };
}

impl<'a> MemSource<'a> {
    /// A source of these bytes.
    pub fn new(bytes: &'a [u8]) -> MemSource<'a>
        ensures { result ≡ source_of bytes.entry.now }
    {
        MemSource {
            bytes,
            failures: Failures::new(),
        }
    }
}

// Copies the bytes of a range into `buf`, or answers `false` where it passes their end.
pub(crate) fn copy_range(bytes: &[u8], offset: u64, buf: &mut [u8]) -> bool
    ensures inside { IsTrue result ↔ (offset + length buf.old ≤ length bytes.now) }
    ensures copied { IsTrue result → IsRangeOf bytes.now offset buf.new }
{
    if offset > bytes.len() as u64 {
        return false;
    }
    let from = offset as usize;
    if buf.len() > bytes.len() - from {
        return false;
    }
    buf.copy_from_slice(&bytes[from..from + buf.len()]);
    true
}

// The number of bytes. A contract also says that each is below 256.
pub(crate) fn byte_count(bytes: &[u8]) -> u64
    ensures number { result ≡ length bytes.now }
    ensures bytes { AreBytes bytes.now }
{
    bytes.len() as u64
}

impl Source for MemSource<'_> {
    ghost held = { λ s. s };

    ghost step = { no_step };

    ghost lengths = { any_length };

    fn len(&mut self) -> Result<u64, ReadFailed>
        ensures told { self.new.bytes ≡ self.old.bytes }
        ensures trail { self.new.trail ≡ self.old.trail }
        ensures count { self.new.failures ≡ failures_after is_any result self.old.failures }
        ensures length { IfOk result (any_length self.old.trail) }
        ensures number { IfOk result (λ n. IfSome self.old.bytes (λ bytes. n ≡ length bytes)) }
        ensures bytes { IfSome self.old.bytes AreBytes }
        // It never fails.
        ensures always { IsOk result }
    {
        Ok(byte_count(self.bytes))
    }

    fn read_at(&mut self, offset: u64, buf: &mut [u8]) -> Result<(), ReadFailed>
        ensures told { self.new.bytes ≡ self.old.bytes }
        ensures trail { no_step self.old.trail (answer result offset buf.new) self.new.trail }
        ensures count { self.new.failures ≡ failures_after is_any result self.old.failures }
        ensures bytes { OnOk result (IfSome self.old.bytes (λ bytes. IsRangeOf bytes offset buf.new)) }
        // It fails only where the range passes the end.
        ensures inside { IfSome self.old.bytes (λ bytes. IsOk result ↔ (offset + length buf.old ≤ length bytes)) }
    {
        if copy_range(self.bytes, offset, buf) {
            Ok(())
        } else {
            self.failures.add();
            Err(ReadFailed)
        }
    }
}

// A source over memory that keeps the ranges it was asked for.
ghost use Rattle.std.specs.Prelude.{◌≡◌, ◌+◌, ◌<◌, ◌≤◌, length, IfOk, IfSome, IsOk, OnOk, ◌↔◌};
ghost use Rattle.dbsource.specs.Answers.{IsRangeOf, answer};
ghost use Rattle.dbsource.specs.Failures.{failures_after, is_any};
ghost use Rattle.dbsource.specs.Sources.{AreBytes, KeepsItsLog, any_length, kept_step, source_of};

use crate::memory_source::{byte_count, copy_range};
use crate::{ByteRange, Failures, ReadFailed, Source};
use arrayvec::ArrayVec;
use std::marker::Model;

/// Bytes in memory, and the ranges that reads asked for, in their order. A read fails where its range passes the end of
/// the bytes, or where 1024 ranges are kept already: that range is not kept.
#[derive(Drop)]
pub struct LogSource<'a> {
    bytes: &'a [u8],
    ranges: ArrayVec<ByteRange, 1024>,
    failures: Failures,
}

impl<'a> Model for LogSource<'a> {
    ghost use Rattle.std.specs.Prelude.{[], Some};
    ghost use Rattle.dbsource.specs.Sources.{SourceState};

    ghost Value = { SourceState };

    ghost view = { λ s. record { bytes = Some s.bytes.now; trail = record { fronts = []; ranges = s.ranges.items }; failures = s.failures } };
}

impl<'a> LogSource<'a> {
    /// A source of these bytes that was asked for nothing yet.
    pub fn new(bytes: &'a [u8]) -> LogSource<'a>
        ensures { result ≡ source_of bytes.entry.now }
    {
        LogSource {
            bytes,
            ranges: ArrayVec::new(),
            failures: Failures::new(),
        }
    }

    /// The ranges that reads asked for, Ok or not, in their order.
    pub fn ranges(&self) -> &[ByteRange]
        ensures { result.now ≡ self.now.trail.ranges }
    {
        self.ranges.as_slice()
    }
}

/// If a [`LogSource`] has room for them, the ranges that it kept in a call are those that the call asked for.
pub fn log_source_keeps_its_log()
    ensures { KeepsItsLog }
{}

impl Source for LogSource<'_> {
    ghost held = { λ s. s };

    ghost step = { kept_step };

    ghost lengths = { any_length };

    fn len(&mut self) -> Result<u64, ReadFailed>
        ensures told { self.new.bytes ≡ self.old.bytes }
        ensures trail { self.new.trail ≡ self.old.trail }
        ensures count { self.new.failures ≡ failures_after is_any result self.old.failures }
        ensures length { IfOk result (any_length self.old.trail) }
        ensures number { IfOk result (λ n. IfSome self.old.bytes (λ bytes. n ≡ length bytes)) }
        ensures bytes { IfSome self.old.bytes AreBytes }
        // It never fails.
        ensures always { IsOk result }
    {
        Ok(byte_count(self.bytes))
    }

    fn read_at(&mut self, offset: u64, buf: &mut [u8]) -> Result<(), ReadFailed>
        ensures told { self.new.bytes ≡ self.old.bytes }
        ensures trail { kept_step self.old.trail (answer result offset buf.new) self.new.trail }
        ensures count { self.new.failures ≡ failures_after is_any result self.old.failures }
        ensures bytes { OnOk result (IfSome self.old.bytes (λ bytes. IsRangeOf bytes offset buf.new)) }
        // It fails only where the range passes the end, or where the log is full.
        ensures inside { IfSome self.old.bytes (λ bytes. IsOk result ↔ ((length self.old.trail.ranges < 1024) × (offset + length buf.old ≤ length bytes))) }
    {
        let len = buf.len() as u64;
        if !self.ranges.is_full() {
            self.ranges.push(ByteRange { offset, len });
            if copy_range(self.bytes, offset, buf) {
                return Ok(());
            }
        }
        self.failures.add();
        Err(ReadFailed)
    }
}

// An Out over a writer, which gathers bytes before it writes.
ghost use Rattle.std.specs.Prelude.{◌≡◌, ◌+◌, ◌-◌, ◌≤◌, [], ◌++◌, length, take, drop, Some, IfSome, IfOk, IsOk, OnOk, vec_len, vec_capacity};
ghost use Rattle.std.specs.Io.KnownBytes.{Appends, Keeps, append_known};
ghost use Rattle.dbsource.specs.Gathers.{begun_line, gathered_most, gathered_with, kept_line, told};
ghost use Rattle.dbsource.specs.Outs.{Begins, Flushes, Puts, Writes};

use crate::memory::with_room;
use crate::stream_out::write_whole;
use crate::{Failures, NoMemory, Out, WriteFailed};
use std::alloc::{Allocator, Global};
use std::io::Write;
use std::marker::Model;

// The most bytes that are gathered.
const CAPACITY: usize = 65_536;

/// A writer with a buffer of 65536 bytes, which gathers what is put. When a piece finds no room, the gathered lines go
/// to the writer, up to the last line feed, and the unfinished line stays gathered. If the piece still has no room,
/// that line goes too. A piece longer than the buffer is written directly, after all that was gathered. A
/// [`flush`](Out::flush) hands on everything.
///
/// So a line of at most 65536 bytes reaches the writer whole, unless a piece goes on after its line feed or a flush
/// cuts it: what another writer writes to the same place between two puts comes before the line or after it.
///
/// What the writer does not take stays gathered, and is handed on again later, so no byte is lost or written twice.
/// Only `flush` writes what is gathered at the end: a drop writes nothing.
#[derive(Drop)]
pub struct BufferedOut<W: Write, A: Allocator = Global> {
    writer: W,
    gathered: Vec<u8, A>,
    failures: Failures,
}

impl<W: Write, A: Allocator> Model for BufferedOut<W, A> {
    ghost use Rattle.std.specs.Prelude.{◌≤◌, length, vec_capacity};
    ghost use Rattle.dbsource.specs.Gathers.{Gathering, gathered_most};

    ghost Value = { Gathering };

    ghost view = { λ s. record { written = W.contents s.writer; gathered = s.gathered.items; failures = s.failures } };

    ghost invariant = { λ s. (length s.gathered.items ≤ gathered_most) × (gathered_most ≤ vec_capacity s.gathered) };
}

impl<W: Write> BufferedOut<W> {
    /// A buffered Out over `writer`, as [`new_in`](BufferedOut::new_in).
    ///
    /// # Errors
    ///
    /// [`NoMemory`] where the buffer was refused. The writer is dropped then.
    pub fn new(alloc: Global, writer: W) -> Result<BufferedOut<W>, NoMemory>
    where
        W: Drop,
        ensures { IfOk result (λ out. out ≡ record { written = W.contents writer; gathered = []; failures = 0 }) }
    {
        BufferedOut::new_in(alloc, writer)
    }
}

impl<W: Write, A: Allocator> BufferedOut<W, A> {
    /// A buffered Out over `writer`, which is never flushed and has to hand on what it takes by itself. The buffer is
    /// one growth from `alloc`, the only one.
    ///
    /// # Errors
    ///
    /// [`NoMemory`] where the buffer was refused. The writer is dropped then.
    pub fn new_in(alloc: A, writer: W) -> Result<BufferedOut<W, A>, NoMemory>
    where
        W: Drop,
        ensures { IfOk result (λ out. out ≡ record { written = W.contents writer; gathered = []; failures = 0 }) }
    {
        let gathered = with_room(alloc, CAPACITY)?;
        Ok(BufferedOut {
            writer,
            gathered,
            failures: Failures::new(),
        })
    }

    /// The writer. It has a beginning of what was put, without the bytes that are still gathered.
    pub fn writer(&self) -> &W
        ensures { W.contents result.now ≡ self.now.written }
    {
        &self.writer
    }

    /// The bytes that were put and are not yet written, at most 65536.
    pub fn gathered(&self) -> &[u8]
        ensures bytes { result.now ≡ self.now.gathered }
        ensures bound { length result.now ≤ gathered_most }
    {
        self.gathered.as_slice()
    }
}

// Where the last, unfinished line of these bytes begins: after the last line feed.
fn begun_at(bytes: &[u8]) -> usize
    ensures bound { result ≤ length bytes.now }
    ensures line { drop result bytes.now ≡ begun_line bytes.now }
{
    match bytes.iter().rposition(|byte| *byte == b'\n') {
        Some(at) => at + 1,
        None => 0,
    }
}

// Writes the first `count` of the gathered bytes. What was not taken stays.
fn hand_on<W: Write, A: Allocator>(
    writer: &mut W,
    gathered: &mut Vec<u8, A>,
    count: usize,
) -> Result<(), WriteFailed>
    requires { count ≤ vec_len gathered.old }
    ensures writes { Writes result (W.contents writer.old) (W.contents writer.new) (take count gathered.old.items) }
    ensures rest { OnOk result (gathered.new.items ≡ drop count gathered.old.items) }
    ensures bound { vec_len gathered.new ≤ vec_len gathered.old }
    ensures capacity { vec_capacity gathered.new ≡ vec_capacity gathered.old }
    ensures kept { Keeps (append_known (W.contents writer.old) gathered.old.items) (append_known (W.contents writer.new) gathered.new.items) }
{
    let (taken, written) = write_whole(writer, &gathered.as_slice()[..count]);
    drop_front(gathered, taken);
    written
}

// Removes the first `count` bytes.
fn drop_front<A: Allocator>(bytes: &mut Vec<u8, A>, count: usize)
    requires { count ≤ vec_len bytes.old }
    ensures items { bytes.new.items ≡ drop count bytes.old.items }
    ensures len { vec_len bytes.new ≡ vec_len bytes.old - count }
    ensures capacity { vec_capacity bytes.new ≡ vec_capacity bytes.old }
{
    let len = bytes.len();
    bytes.as_mut_slice().copy_within(count..len, 0);
    bytes.truncate(len - count);
}

// Hands on the gathered lines. The unfinished one goes too where `count` bytes have no room after it.
fn make_room<W: Write, A: Allocator>(
    writer: &mut W,
    gathered: &mut Vec<u8, A>,
    count: usize,
) -> Result<(), WriteFailed>
    requires { vec_len gathered.old ≤ gathered_most }
    ensures begins { Begins (W.contents writer.old) (W.contents writer.new) gathered.old.items }
    ensures rest { OnOk result (gathered.new.items ≡ kept_line gathered.old.items count) }
    ensures bound { vec_len gathered.new ≤ vec_len gathered.old }
    ensures capacity { vec_capacity gathered.new ≡ vec_capacity gathered.old }
    ensures kept { Keeps (append_known (W.contents writer.old) gathered.old.items) (append_known (W.contents writer.new) gathered.new.items) }
{
    let lines = begun_at(gathered.as_slice());
    let begun = gathered.len() - lines;
    let handed = if count > CAPACITY - begun {
        gathered.len()
    } else {
        lines
    };
    hand_on(writer, gathered, handed)
}

impl<W: Write, A: Allocator> Out for BufferedOut<W, A> {
    ghost held = { told };

    fn put(&mut self, piece: &[u8]) -> Result<(), WriteFailed>
        ensures puts { Puts result (told self.old) (told self.new) piece.now }
        ensures grows { Begins self.old.written self.new.written (self.old.gathered ++ piece.now) }
        ensures fits { length self.old.gathered + length piece.now ≤ gathered_most → IsOk result }
        ensures gathers { length self.old.gathered + length piece.now ≤ gathered_most
            → self.new ≡ record self.old { gathered = self.old.gathered ++ piece.now } }
        ensures rest { OnOk result (self.new.gathered ≡ gathered_with self.old.gathered piece.now) }
    {
        if piece.len() > CAPACITY - self.gathered.len() {
            let handed = make_room(&mut self.writer, &mut self.gathered, piece.len());
            if handed.is_err() {
                self.failures.add();
                return handed;
            }
            if piece.len() > CAPACITY {
                let written = write_whole(&mut self.writer, piece).1;
                if written.is_err() {
                    self.failures.add();
                }
                return written;
            }
        }
        let Ok(()) = self.gathered.extend_from_slice(piece) else {
            unreachable!()
        };
        Ok(())
    }

    fn flush(&mut self) -> Result<(), WriteFailed>
        ensures flushes { Flushes result (told self.old) (told self.new) }
        ensures writes { Writes result self.old.written self.new.written self.old.gathered }
        ensures whole { OnOk result (Keeps (told self.old).bytes self.new.written) }
        ensures beginning { IfSome (told self.old).bytes (λ bytes. Appends self.new.written (Some bytes) self.new.gathered) }
    {
        let count = self.gathered.len();
        let handed = hand_on(&mut self.writer, &mut self.gathered, count);
        if handed.is_err() {
            self.failures.add();
        }
        handed
    }
}

// An Out over memory.
ghost use Rattle.std.specs.Prelude.{◌≡◌, Some, OnErr};
ghost use Rattle.dbsource.specs.Outs.{Puts, at_once, empty_out};

use crate::{Failures, Out, WriteFailed};
use std::alloc::{Allocator, Global};
use std::marker::Model;

/// Bytes in memory. A put fails only where its growth was refused, and then none of its bytes is held.
#[derive(Drop)]
pub struct MemOut<A: Allocator = Global> {
    bytes: Vec<u8, A>,
    failures: Failures,
}

impl<A: Allocator> Model for MemOut<A> {
    ghost use Rattle.std.specs.Prelude.{Some};
    ghost use Rattle.dbsource.specs.Outs.{Holding};

    ghost Value = { Holding };

    ghost view = { λ s. record { bytes = Some s.bytes.items; failures = s.failures } };
}

impl MemOut {
    /// An empty Out. It takes memory from `alloc` as bytes are put.
    pub fn new(alloc: Global) -> MemOut
        ensures { result ≡ empty_out }
    {
        MemOut::new_in(alloc)
    }
}

impl<A: Allocator> MemOut<A> {
    /// An empty Out, over any allocator.
    pub fn new_in(alloc: A) -> MemOut<A>
        ensures { result ≡ empty_out }
    {
        MemOut {
            bytes: Vec::new(alloc),
            failures: Failures::new(),
        }
    }

    /// The bytes that were put, in their order.
    pub fn bytes(&self) -> &[u8]
        ensures { self.now.bytes ≡ Some result.now }
    {
        self.bytes.as_slice()
    }
}

impl<A: Allocator> Out for MemOut<A> {
    ghost held = { at_once };

    fn put(&mut self, piece: &[u8]) -> Result<(), WriteFailed>
        ensures puts { Puts result (at_once self.old) (at_once self.new) piece.now }
        ensures refused { OnErr result (self.new.bytes ≡ self.old.bytes) }
    {
        match self.bytes.extend_from_slice(piece) {
            Ok(()) => Ok(()),
            Err(_) => {
                self.failures.add();
                Err(WriteFailed)
            }
        }
    }

    fn flush(&mut self) -> Result<(), WriteFailed> {
        Ok(())
    }
}

// A few bytes that may be put into a file, and how changes are made of them.
ghost use Rattle.std.specs.Prelude.{◌≡◌, ◌∷◌, ◌++◌, [], ◌≤◌, length, take, IfSome};

use arrayvec::ArrayVec;
use dbsource::{Change, Changes};
use std::marker::Model;

/// Up to 16 bytes at an offset.
#[derive(Drop)]
pub struct Edit {
    offset: u64,
    bytes: [u8; 16],
    count: usize,
}

impl Model for Edit {
    ghost use Rattle.std.specs.Prelude.{◌≤◌, take};
    ghost use Rattle.dbsource.specs.Changes.{Change as At};

    ghost Value = { At };

    ghost view = { λ e. record { offset = e.offset; bytes = take e.count e.bytes } };

    ghost invariant = { λ e. e.count ≤ 16 };
}

// What is in an unused place of a list.
impl Default for Edit {
    fn default() -> Edit {
        Edit::new(0, &[])
    }
}

impl Edit {
    /// These bytes at this offset.
    pub fn new(offset: u64, bytes: &[u8]) -> Edit
        requires { length bytes.now ≤ 16 }
        ensures { result ≡ record { offset = offset; bytes = bytes.now } }
    {
        let mut kept = [0u8; 16];
        kept[..bytes.len()].copy_from_slice(bytes);
        Edit {
            offset,
            bytes: kept,
            count: bytes.len(),
        }
    }

    /// The same.
    pub fn copied(&self) -> Edit
        ensures { result ≡ self.now }
    {
        Edit {
            offset: self.offset,
            bytes: self.bytes,
            count: self.count,
        }
    }

    /// Where they are put, from the start of the file.
    pub fn offset(&self) -> u64
        ensures { result ≡ self.now.offset }
    {
        self.offset
    }

    // Puts the bytes over those that were read at `offset`.
    pub(crate) fn put_over(&self, offset: u64, buf: &mut [u8])
        ensures { length buf.new ≡ length buf.old }
    {
        for (index, byte) in self.bytes().iter().enumerate() {
            let place = self.offset.saturating_add(index as u64);
            if place >= offset && place - offset < buf.len() as u64 {
                buf[(place - offset) as usize] = *byte;
            }
        }
    }

    /// The bytes.
    pub fn bytes(&self) -> &[u8]
        ensures bytes { result.now ≡ self.now.bytes }
        ensures few { length result.now ≤ 16 }
    {
        &self.bytes[..self.count]
    }
}

// The edits of a search so far.
pub(crate) type Edits = ArrayVec<Edit, 16>;

// The changes of some edits, if they can be made together.
fn changes_of(edits: &[Edit]) -> Option<Changes>
    ensures { IfSome result (λ changes. changes ≡ edits.now) }
{
    let mut changes = Changes::new();
    for edit in edits {
        let Ok(change) = Change::new(edit.offset(), edit.bytes()) else {
            return None;
        };
        if changes.add(change).is_err() {
            return None;
        }
    }
    Some(changes)
}

/// The changes of some edits and of one more after them; none where two of them overlap, one has no byte, or they are more than 16.
pub fn changes_with(edits: &[Edit], last: &Edit) -> Option<Changes>
    ensures { IfSome result (λ changes. changes ≡ edits.now ++ last.now ∷ []) }
{
    let mut changes = changes_of(edits)?;
    let Ok(change) = Change::new(last.offset(), last.bytes()) else {
        return None;
    };
    match changes.add(change) {
        Ok(()) => Some(changes),
        Err(_) => None,
    }
}

// Edits in the order in which they are to be tried.
ghost use Rattle.std.specs.Prelude.{◌≤◌};

use crate::edit::Edit;
use crate::fit::Fit;
use arrayvec::ArrayVec;

/// Edits to try, in their order.
pub type Tries = ArrayVec<Edit, 60>;

// How many are kept. Two of them may be the same.
const MOST: usize = 120;

// An edit, and how well it fits. One without bytes is none.
#[derive(Clone, Copy)]
struct Rated {
    offset: u64,
    bytes: [u8; 8],
    count: usize,
    fit: Fit,
}

// The best of the edits that were added, the best first, and of equals the first.
#[derive(Drop)]
pub(crate) struct Ranked {
    rated: [Rated; 120],
}

impl Ranked {
    pub(crate) fn new() -> Ranked {
        let none = Rated {
            offset: 0,
            bytes: [0; 8],
            count: 0,
            fit: Fit::new(0, u32::MAX),
        };
        Ranked {
            rated: [none; MOST],
        }
    }

    // Adds one of at most eight bytes.
    pub(crate) fn add(&mut self, offset: u64, bytes: &[u8], fit: Fit) {
        if bytes.len() > 8 || !fit.is_better(&self.rated[MOST - 1].fit) {
            return;
        }
        let mut kept = [0u8; 8];
        kept[..bytes.len()].copy_from_slice(bytes);
        let mut next = Rated {
            offset,
            bytes: kept,
            count: bytes.len(),
            fit,
        };
        let mut moves = false;
        for place in self.rated.iter_mut() {
            if moves || next.fit.is_better(&place.fit) {
                let worse = *place;
                *place = next;
                next = worse;
                moves = true;
            }
        }
    }

    // The first of them, each once.
    pub(crate) fn tries(&self) -> Tries {
        let mut tries = ArrayVec::new();
        for rated in self.rated.iter() {
            let bytes = &rated.bytes[..rated.count.min(8)];
            if rated.count > 0 && !has(&tries, rated.offset, bytes) {
                let _ = tries.try_push(Edit::new(rated.offset, bytes));
            }
        }
        tries
    }
}

// Whether an edit is among some.
fn has(tries: &Tries, offset: u64, bytes: &[u8]) -> bool {
    tries
        .as_slice()
        .iter()
        .any(|edit| edit.offset() == offset && edit.bytes() == bytes)
}

// Adds one that has no page beside it, with its points.
pub(crate) fn add_try(tries: &mut Ranked, offset: u64, bytes: &[u8], points: u32) {
    tries.add(offset, bytes, Fit::new(points, 0));
}

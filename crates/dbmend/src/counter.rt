// A reporter that counts faults, and notes where the first of them are.
ghost use Rattle.std.specs.Prelude.{◌≡◌, ◌≤◌, length};
ghost use Rattle.dbmend.specs.Counts.{Counts};

use dbformat::{Fault, FaultCode, Verdict};
use dbscan::{Cause, Desk, Finish, Notice, Reporter};
use dbsource::{RunError, Source};
use dbtrace::TracedFault;
use std::alloc::Allocator;

// How many faults are noted, and how many of one code.
const ROOM: usize = 32;

const MOST_ALIKE: usize = 8;

// A fault, and the cell of the key that it is not above, if it goes back to one.
#[derive(Clone, Copy)]
pub(crate) struct Noted {
    pub(crate) fault: Fault,
    pub(crate) key_page: u32,
    pub(crate) key_item: u32,
}

impl Noted {
    const NONE: Noted = Noted {
        fault: Fault {
            code: FaultCode::H01,
            page: 0,
            item: 0,
            value: 0,
        },
        key_page: 0,
        key_item: 0,
    };

    fn of(reported: &TracedFault) -> Noted {
        let (key_page, key_item) = match reported.cause {
            Cause::Key(key, _) => (key.page, key.item),
            _ => (0, 0),
        };
        Noted {
            fault: reported.fault,
            key_page,
            key_item,
        }
    }
}

/// Counts all faults, and notes the first that say where a wrong number may be.
#[derive(Drop)]
pub struct Counter {
    pub(crate) faults: u64,
    noted: [Noted; 32],
    count: usize,
}

impl Counter {
    // One that received nothing.
    pub(crate) fn new() -> Counter
        ensures { result.faults ≡ 0 }
    {
        Counter {
            faults: 0,
            noted: [Noted::NONE; ROOM],
            count: 0,
        }
    }

    // The noted faults.
    pub(crate) fn noted(&self) -> &[Noted] {
        &self.noted[..self.count.min(ROOM)]
    }

    // Counts a fault.
    fn add(&mut self, reported: &TracedFault)
        ensures { Counts self.old 1 self.new }
    {
        self.faults = self.faults.saturating_add(1);
        if self.count < ROOM && is_of_place(reported.fault.code) && !self.has(&reported.fault) {
            self.noted[self.count] = Noted::of(reported);
            self.count += 1;
        }
    }

    // Whether a fault is noted that says the same place, or enough of its code are.
    fn has(&self, fault: &Fault) -> bool {
        let mut alike = 0usize;
        for noted in self.noted() {
            if noted.fault.code.index() == fault.code.index() {
                alike = alike.saturating_add(1);
                if alike >= MOST_ALIKE || is_same_place(&noted.fault, fault) {
                    return true;
                }
            }
        }
        false
    }
}

// Whether two faults of a code say the same place.
fn is_same_place(one: &Fault, other: &Fault) -> bool {
    one.page == other.page && (one.item == other.item || !is_of_item(one.code))
}

// Whether a fault of this code says where a wrong number may be. A lost page is what may have been there.
fn is_of_place(code: FaultCode) -> bool {
    !matches!(
        code,
        FaultCode::N01 | FaultCode::M02 | FaultCode::S02 | FaultCode::S04
    )
}

// Whether the item of a fault of this code says the place.
fn is_of_item(code: FaultCode) -> bool {
    matches!(
        code,
        FaultCode::H01
            | FaultCode::H02
            | FaultCode::R01
            | FaultCode::R02
            | FaultCode::R03
            | FaultCode::T04
    )
}

// Where a fault is found is nothing to the count.
impl Reporter for Counter {
    ghost use Rattle.dbscan.specs.Notices.{ReceivesFaults};
    ghost use Rattle.dbmend.specs.Counts.{Counts, borrows_none};

    ghost receives = { ReceivesFaults (λ s f t. Counts s 1 t) };

    ghost held = { borrows_none };

    fn receive(&mut self, notice: &Notice<'_>) {
        match notice {
            Notice::Fault(reported) => self.add(reported),
            Notice::Row(_, _) | Notice::Ended(_) | Notice::Page(_, _, _) => {}
        }
    }

    fn is_shut(&self) -> bool {
        false
    }
}

impl<A: Allocator> Finish<Desk<A>> for Counter {
    ghost use Rattle.dbmend.specs.Counts.{LeavesCount};

    ghost leaves = { LeavesCount };

    fn finish<S: Source>(
        &mut self,
        _desk: &mut Desk<A>,
        _source: &mut S,
    ) -> Result<Verdict, RunError> {
        Ok(Verdict::of(self.faults))
    }
}

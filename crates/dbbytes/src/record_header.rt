// The header of a record, byte by byte (Database File Format, 2.1).
ghost use Rattle.std.specs.Prelude.{◌<◌};
ghost use Rattle.dbbytes.specs.declared.serial.TheConstants.{COLUMNS};

use crate::partial::{PartialVarint, VarintProgress};
use crate::serial::COLUMNS;

// A header whose size is known: what is left of it, what comes after it, and what it said so far.
#[derive(Clone, Copy)]
pub(crate) struct RecordHeader {
    left: u32,
    bodies: u32,
    types: [u64; COLUMNS],
    count: usize,
    number: PartialVarint,
    ghost unfinished: { count < COLUMNS },
}

// What one more byte makes of a header.
#[derive(Clone, Copy)]
pub(crate) enum HeaderProgress {
    Size { size: u32, number: PartialVarint },
    Types { header: RecordHeader },
    Whole { types: [u64; COLUMNS], bodies: u32 },
    Malformed,
}

impl HeaderProgress {
    ghost use Rattle.std.specs.Prelude.{◌≡◌, List, ◌∷◌, ℕ};
    ghost use Rattle.dbformat.specs.declared.Encoding.{Encoding};
    ghost use Rattle.dbbytes.specs.Record.{progress_row};
    ghost use Rattle.dbbytes.specs.declared.record_header.HeaderProgress.TheVariants as progress;

    // The first number of a record of `size` bytes is the size of its header, which counts itself.
    pub(crate) fn after_size_byte(size: u32, number: PartialVarint, byte: u8) -> HeaderProgress
        ensures { (e : Encoding) (more : List ℕ) → progress_row e result more
            ≡ progress_row e (progress.Size size number) (byte ∷ more) }
    {
        match number.push(byte) {
            VarintProgress::More(number) => HeaderProgress::Size { size, number },
            VarintProgress::Whole { value, length } => {
                if value < u64::from(length) || value > u64::from(size) {
                    return HeaderProgress::Malformed;
                }
                HeaderProgress::Types {
                    header: RecordHeader::new(
                        (value - u64::from(length)) as u32,
                        size - value as u32,
                    ),
                }
            }
        }
    }
}

impl RecordHeader {
    ghost use Rattle.std.specs.Prelude.{◌≡◌, ℕ, ◌+◌, ◌-◌, ◌<◌, ◌==◌, List, ◌∷◌, length, take};
    ghost use Rattle.dbformat.specs.declared.Encoding.{Encoding};
    ghost use Rattle.dbbytes.specs.Record.{progress_row, row_by, values_with};
    ghost use Rattle.dbbytes.specs.declared.record_header.HeaderProgress.TheVariants as progress;

    // One of which `left` bytes are still to come, and `bodies` bytes after it.
    fn new(left: u32, bodies: u32) -> RecordHeader
        ensures left { result.left ≡ left }
        ensures bodies { result.bodies ≡ bodies }
        ensures count { result.count ≡ 0 }
        ensures value { result.number.value ≡ 0 }
        ensures length { result.number.length ≡ 0 }
    {
        RecordHeader {
            left,
            bodies,
            types: [0; COLUMNS],
            count: 0,
            number: PartialVarint::new(),
        }
    }

    // The types are as many varints as there are columns, and end where the header does.
    pub(crate) fn push(self, byte: u8) -> HeaderProgress
        ensures { (e : Encoding) (more : List ℕ) → progress_row e result more
            ≡ progress_row e (progress.Types self) (byte ∷ more) }
    {
        if self.left == 0 {
            return HeaderProgress::Malformed;
        }
        let types = self.types;
        match self.number.push(byte) {
            VarintProgress::More(number) => HeaderProgress::Types {
                header: RecordHeader {
                    left: self.left - 1,
                    bodies: self.bodies,
                    types,
                    count: self.count,
                    number,
                },
            },
            VarintProgress::Whole { value, .. } => self.with_type(value),
        }
    }

    // Its next byte ends the number of a type, of this value.
    fn with_type(self, value: u64) -> HeaderProgress
        requires { 0 < self.left }
        ensures { (e : Encoding) (more : List ℕ) → progress_row e result more
            ≡ row_by e (length more + 1 == self.left + self.bodies)
            (values_with (self.left - 1) self.bodies (take self.count self.types) (4 - self.count) value more) }
    {
        let left = self.left - 1;
        let mut types = self.types;
        types[self.count] = value;
        if self.count + 1 < COLUMNS {
            HeaderProgress::Types {
                header: RecordHeader {
                    left,
                    bodies: self.bodies,
                    types,
                    count: self.count + 1,
                    number: PartialVarint::new(),
                },
            }
        } else if left == 0 {
            HeaderProgress::Whole {
                types,
                bodies: self.bodies,
            }
        } else {
            HeaderProgress::Malformed
        }
    }
}

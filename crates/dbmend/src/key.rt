// Keys of cells, and whether they are in order: rowids, and the records of indexes as far as they are kept (Database File Format, 2.1).
use dbbytes::{serial_len, varint};
use dbpage::PageView;

// How many bytes of a record are kept: in pages of at most 4096 bytes each that is not on an overflow page.
const KEPT: usize = 1024;

// How many columns of a record are looked at.
const MOST_COLUMNS: u32 = 32;

// The bit of the sign of a double, and the greatest exponent.
const SIGN: u64 = 1 << 63;

const MOST_EXPONENT: u64 = 2047;

// The first bytes of a record.
#[derive(Clone, Copy)]
pub(crate) struct Record {
    bytes: [u8; 1024],
    len: usize,
}

// The key of a cell.
#[derive(Clone, Copy)]
pub(crate) enum Key {
    Unknown,
    Rowid(i64),
    Record(Record),
}

// How one key follows another.
#[derive(Clone, Copy, PartialEq, Eq)]
pub(crate) enum Order {
    Rising,
    Falling,
    Same,
    Unknown,
}

// How one key follows another, and the column that says it: the first in which they differ.
#[derive(Clone, Copy)]
pub(crate) struct Step {
    pub(crate) order: Order,
    pub(crate) column: u32,
}

impl Step {
    // That of keys of which no column is known to differ.
    const UNKNOWN: Step = Step {
        order: Order::Unknown,
        column: 0,
    };

    // Whether it rises in the column in which another one falls.
    pub(crate) fn is_against(&self, other: &Step) -> bool {
        self.order == Order::Rising && other.order == Order::Falling && self.column == other.column
    }
}

// A column of a record: its serial type, where its bytes begin, how many it has, and as many of these as are kept.
#[derive(Clone, Copy)]
pub(crate) struct Column<'a> {
    pub(crate) kind: u64,
    pub(crate) start: u64,
    pub(crate) len: u64,
    pub(crate) body: &'a [u8],
}

// A number as it is compared: first the exponent of a double of its size, then its bits from the first one on. Below 0 both are negated.
#[derive(Clone, Copy)]
struct Number {
    exponent: i64,
    bits: i64,
}

impl Number {
    fn new(is_negative: bool, exponent: u64, bits: u64) -> Number {
        let exponent = exponent.min(MOST_EXPONENT) as i64;
        let bits = (bits / 2) as i64;
        if is_negative {
            return Number {
                exponent: exponent.wrapping_neg(),
                bits: bits.wrapping_neg(),
            };
        }
        Number { exponent, bits }
    }

    fn of_integer(value: i64) -> Number {
        let size = value.unsigned_abs();
        let zeros = size.leading_zeros();
        if size == 0 {
            return Number::new(false, 0, 0);
        }
        // That of 1, which has 63 zeros, is 1023.
        let exponent = 1086u64.saturating_sub(u64::from(zeros));
        Number::new(value < 0, exponent, size.wrapping_shl(zeros))
    }

    // That of a double of these bits. Its first bit is not stored, unless the exponent is 0.
    fn of_double(word: u64) -> Number {
        let exponent = (word >> 52) & MOST_EXPONENT;
        let first = if exponent > 0 { SIGN } else { 0 };
        Number::new(word > SIGN, exponent, first | ((word << 12) >> 1))
    }

    fn of(column: &Column<'_>) -> Option<Number> {
        if column.kind == 7 {
            let stored = stored(column)?;
            Some(Number::of_double(u64::from_be_bytes(stored.to_be_bytes())))
        } else {
            integer(column).map(Number::of_integer)
        }
    }

    fn order(&self, other: &Number) -> Order {
        match of_numbers(self.exponent, other.exponent) {
            Order::Same => of_numbers(self.bits, other.bits),
            order => order,
        }
    }
}

impl Record {
    fn new(local: &[u8]) -> Record {
        let len = local.len().min(KEPT);
        let mut bytes = [0u8; KEPT];
        bytes[..len].copy_from_slice(&local[..len]);
        Record { bytes, len }
    }

    fn bytes(&self) -> &[u8] {
        &self.bytes[..self.len.min(KEPT)]
    }

    // The type of its first column, and how many columns it has.
    fn shape(&self) -> (u8, u32) {
        let bytes = self.bytes();
        let first = match column_at(bytes, 0) {
            Some(column) => class(column.kind),
            None => return (0, 0),
        };
        for i in 1..MOST_COLUMNS {
            if column_at(bytes, i).is_none() {
                return (first, i);
            }
        }
        (first, MOST_COLUMNS)
    }
}

impl Key {
    // This one, or another one if it is unknown.
    pub(crate) fn or(&self, other: &Key) -> Key {
        match self {
            Key::Unknown => *other,
            Key::Rowid(_) | Key::Record(_) => *self,
        }
    }

    // The key of a cell of a page.
    pub(crate) fn of(view: &PageView<'_>, cell: u32) -> Key {
        if cell >= view.cells() {
            return Key::Unknown;
        }
        match view.cell(cell) {
            Ok(found) => match found.key {
                Some(rowid) => Key::Rowid(rowid),
                None => Key::Record(Record::new(found.local)),
            },
            Err(_) => Key::Unknown,
        }
    }

    pub(crate) fn is_known(&self) -> bool {
        !matches!(self, Key::Unknown)
    }

    // Whether it is a record with as many columns as another, and the first of them of the same type.
    pub(crate) fn is_like(&self, other: &Key) -> bool {
        match (self, other) {
            (Key::Record(a), Key::Record(b)) => a.shape() == b.shape(),
            _ => false,
        }
    }

    // Whether it has as many columns as another record, if both are records.
    pub(crate) fn is_as_wide_as(&self, other: &Key) -> bool {
        match (self, other) {
            (Key::Record(a), Key::Record(b)) => a.shape().1 == b.shape().1,
            _ => true,
        }
    }

    // Whether it is so much above another rowid.
    pub(crate) fn is_above_by(&self, other: &Key, distance: i64) -> bool {
        match (self, other) {
            (Key::Rowid(a), Key::Rowid(b)) => a.checked_sub(*b) == Some(distance),
            _ => false,
        }
    }

    // How another key follows it. `folded`: capital letters count as small ones.
    pub(crate) fn step(&self, other: &Key, folded: bool) -> Step {
        match (self, other) {
            (Key::Rowid(a), Key::Rowid(b)) => Step {
                order: of_numbers(*a, *b),
                column: 0,
            },
            (Key::Record(a), Key::Record(b)) => of_records(a.bytes(), b.bytes(), folded),
            _ => Step::UNKNOWN,
        }
    }
}

// The bytes from an offset on.
pub(crate) fn after(bytes: &[u8], at: u64) -> &[u8] {
    if at < bytes.len() as u64 {
        &bytes[at as usize..]
    } else {
        &[]
    }
}

// A column of a record, if its type is kept.
pub(crate) fn column_at(record: &[u8], number: u32) -> Option<Column<'_>> {
    let (size, first) = varint(record)?;
    let mut at = first as u64;
    let mut start = size;
    for i in 0..number.saturating_add(1) {
        if at >= size {
            return None;
        }
        let (kind, more) = varint(after(record, at))?;
        let len = serial_len(kind)?;
        if i == number {
            let rest = after(record, start);
            let body = &rest[..len.min(rest.len() as u64) as usize];
            return Some(Column {
                kind,
                start,
                len,
                body,
            });
        }
        at = at.saturating_add(more as u64);
        start = start.saturating_add(len);
    }
    None
}

// NULL comes before numbers, and these before texts and blobs.
fn class(kind: u64) -> u8 {
    match kind {
        0 => 0,
        1..=11 => 1,
        _ if kind % 2 == 1 => 2,
        _ => 3,
    }
}

// The value of a column that is an integer.
pub(crate) fn integer(column: &Column<'_>) -> Option<i64> {
    match column.kind {
        8 => Some(0),
        9 => Some(1),
        1..=6 => stored(column),
        _ => None,
    }
}

// The bytes of a column as an integer, if all of them are there.
fn stored(column: &Column<'_>) -> Option<i64> {
    if column.body.len() as u64 != column.len {
        return None;
    }
    let first = *column.body.first()?;
    let mut value: i64 = if first >= 128 { -1 } else { 0 };
    for byte in column.body {
        value = value.wrapping_mul(256).wrapping_add(i64::from(*byte));
    }
    Some(value)
}

fn of_numbers(a: i64, b: i64) -> Order {
    if a < b {
        Order::Rising
    } else if b < a {
        Order::Falling
    } else {
        Order::Same
    }
}

// A letter as it is compared.
fn letter(byte: u8, folded: bool) -> u8 {
    if folded && byte.is_ascii_uppercase() {
        byte.to_ascii_lowercase()
    } else {
        byte
    }
}

// By the bytes that both have.
fn of_bytes(a: &[u8], b: &[u8], folded: bool) -> Order {
    for (x, y) in a.iter().zip(b) {
        let order = of_numbers(i64::from(letter(*x, folded)), i64::from(letter(*y, folded)));
        if order != Order::Same {
            return order;
        }
    }
    Order::Same
}

// Two texts or blobs, of which the end may be missing.
fn of_texts(a: &Column<'_>, b: &Column<'_>, folded: bool) -> Order {
    let order = of_bytes(a.body, b.body, folded);
    if order != Order::Same {
        return order;
    }
    if (a.body.len() as u64) < a.len || (b.body.len() as u64) < b.len {
        return Order::Unknown;
    }
    of_numbers(a.body.len().min(KEPT) as i64, b.body.len().min(KEPT) as i64)
}

fn of_columns(a: &Column<'_>, b: &Column<'_>, folded: bool) -> Order {
    let order = of_numbers(i64::from(class(a.kind)), i64::from(class(b.kind)));
    if order != Order::Same {
        return order;
    }
    match class(a.kind) {
        0 => Order::Same,
        1 => match (Number::of(a), Number::of(b)) {
            (Some(x), Some(y)) => x.order(&y),
            _ => Order::Unknown,
        },
        _ => of_texts(a, b, folded),
    }
}

// By the first column in which they differ.
fn of_records(a: &[u8], b: &[u8], folded: bool) -> Step {
    for column in 0..MOST_COLUMNS {
        let (Some(x), Some(y)) = (column_at(a, column), column_at(b, column)) else {
            return Step::UNKNOWN;
        };
        let order = of_columns(&x, &y, folded);
        if order != Order::Same {
            return Step { order, column };
        }
    }
    Step::UNKNOWN
}

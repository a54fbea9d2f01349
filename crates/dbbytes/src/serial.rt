// Serial types (Database File Format, 2.1).
ghost use Rattle.std.specs.Prelude.{◌≡◌, nat_lt, ◌==◌, ◌&&◌, ◌%◌};
ghost use Rattle.dbformat.specs.Record.{serial_len};
ghost use Rattle.dbbytes.specs.Record.{body_lens};

// How many columns a row of the schema has.
pub(crate) const COLUMNS: usize = 5;

/// How many bytes the value of a column with this serial type has. `None` for the reserved types 10 and 11 only.
#[tactic(auto, unfolding(dbformat::specs::Record::serial_len))]
pub fn serial_len(serial_type: u64) -> Option<u64>
    ensures { result ≡ serial_len serial_type }
{
    match serial_type {
        0..=4 => Some(serial_type),
        5 => Some(6),
        6 | 7 => Some(8),
        8 | 9 => Some(0),
        10 | 11 => None,
        _ => Some((serial_type - 12) / 2),
    }
}

// Whether a value with this serial type, which is not reserved, is a text.
pub(crate) fn is_text(serial_type: u64) -> bool
    ensures { result ≡ (nat_lt 9 serial_type && (serial_type % 2 == 1)) }
{
    serial_type > 9 && serial_type % 2 == 1
}

// The lengths of the values of these serial types, if they add up to `bodies`.
pub(crate) fn body_lens(types: &[u64; COLUMNS], bodies: u32) -> Option<[u32; COLUMNS]>
    ensures { result ≡ body_lens types.now bodies }
{
    let mut lens = [0; COLUMNS];
    let mut left = bodies;
    for i in 0..COLUMNS {
        let len = serial_len(types[i])?;
        if len > u64::from(left) {
            return None;
        }
        lens[i] = len as u32;
        left -= len as u32;
    }
    if left == 0 { Some(lens) } else { None }
}

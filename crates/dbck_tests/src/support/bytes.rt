// Bytes that are written over others.
ghost use Rattle.std.specs.Prelude.{◌≡◌, length};

/// Writes some bytes over others from a place on, as far as those go.
pub(crate) fn patch(file: &mut [u8], at: usize, bytes: &[u8])
    ensures { length file.new ≡ length file.old }
{
    if at <= file.len() {
        let count = bytes.len().min(file.len() - at);
        file[at..at + count].copy_from_slice(&bytes[..count]);
    }
}

/// Writes over a file of pages of one size: for each change a page, a place on it, and the bytes, with commas between changes. Two hexadecimal
/// digits are a byte, and so is a letter between two of '. Where something has no place the file is emptied.
pub(crate) fn write(file: &mut Vec<u8>, page_size: usize, changes: &str) {
    for change in changes.split(',') {
        let change = change.trim();
        if !change.is_empty() && write_change(file.as_mut_slice(), page_size, change).is_none() {
            file.clear();
        }
    }
}

fn write_change(file: &mut [u8], page_size: usize, change: &str) -> Option<()> {
    let (page, rest) = change.split_once(' ')?;
    let (at, text) = rest.split_once(' ')?;
    let number = page.parse::<usize>().ok()?;
    let start = number.checked_sub(1)?.checked_mul(page_size)?;
    let page = file.get_mut(start..start.checked_add(page_size)?)?;
    write_bytes(page, at.parse::<usize>().ok()?, text)
}

// Writes the bytes that a text spells. Spaces between them are left out.
fn write_bytes(bytes: &mut [u8], at: usize, text: &str) -> Option<()> {
    let mut at = at;
    let mut is_letter = false;
    let mut high = None;
    for letter in text.as_bytes() {
        let letter = *letter;
        if letter == b'\'' {
            is_letter = !is_letter;
            continue;
        }
        if letter == b' ' && !is_letter {
            continue;
        }
        let byte = if is_letter { letter } else { digit_of(letter)? };
        match high {
            None if !is_letter => high = Some(byte),
            _ => {
                let first: u8 = high.unwrap_or(0);
                *bytes.get_mut(at)? = byte.wrapping_add(first << 4);
                at = at.wrapping_add(1);
                high = None;
            }
        }
    }
    if high.is_some() { None } else { Some(()) }
}

// The value of a hexadecimal digit.
fn digit_of(letter: u8) -> Option<u8> {
    match letter {
        b'0'..=b'9' => Some(letter - b'0'),
        b'a'..=b'f' => Some(letter - b'a' + 10),
        _ => None,
    }
}

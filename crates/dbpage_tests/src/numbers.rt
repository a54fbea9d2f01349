// Varints, the lengths of serial types, how much of a payload is in its cell, and pages of fixed use.
use crate::Text;
use crate::spelled::bytes_of;
use dbbytes::{local_len, serial_len, varint};
use dbformat::{Fixed, Geometry, PayloadKind};
use std::fmt::Write;

/// Adds the number that begins some bytes. One that is cut has no value, and bytes after it change nothing.
pub(crate) fn add_varint(spelled: &str, text: &mut Text) -> Option<()> {
    let bytes = bytes_of(spelled)?;
    let whole = varint(bytes.as_slice());
    let _ = write!(text, " {whole:?}");
    for end in 0..bytes.len() {
        let cut = varint(&bytes.as_slice()[..end]);
        let want = match whole {
            Some((_, len)) if len <= end => whole,
            _ => None,
        };
        if cut != want {
            let _ = write!(text, ", and {cut:?} of {end} bytes");
        }
    }
    Some(())
}

/// Adds the length of a serial type.
pub(crate) fn add_serial(of: &str, text: &mut Text) -> Option<()> {
    let number = of.split(' ').next()?;
    write!(text, " {:?}", serial_len(number.parse::<u64>().ok()?)).ok()
}

/// Adds how many bytes of a payload are in its cell, by the usable bytes of the page.
pub(crate) fn add_local(of: &str, text: &mut Text) -> Option<()> {
    let mut words = of.split(' ');
    let kind = match words.next()? {
        "table" => PayloadKind::TableLeaf,
        "index" => PayloadKind::Index,
        _ => return None,
    };
    let usable = words.next()?.parse::<u32>().ok()?;
    let payload = words.next()?.parse::<u32>().ok()?;
    if usable < 480 || usable > 65536 || payload > 2147483647 {
        return None;
    }
    write!(text, " {}", local_len(kind, usable, payload)).ok()
}

/// Adds the fixed use of a page, and the map page that has its entry, by the page size, the number of pages, and whether there is a map.
pub(crate) fn add_use(of: &str, text: &mut Text) -> Option<()> {
    let mut words = of.split(' ');
    let page_size = words.next()?.parse::<u32>().ok()?;
    let pages = words.next()?.parse::<u32>().ok()?;
    let has_map = words.next()? == "mapped";
    let page = words.next()?.parse::<u32>().ok()?;
    if page_size < 512 || page_size > 65536 || pages < 1 || pages > 67108864 {
        return None;
    }
    let geometry = Geometry {
        page_size,
        usable: page_size,
        pages,
        has_map,
    };
    let fixed = match geometry.fixed(page) {
        Some(Fixed::Lock) => "lock",
        Some(Fixed::Map) => "map",
        None => "none",
    };
    write!(text, " {fixed} {:?}", geometry.map_page_of(page)).ok()
}

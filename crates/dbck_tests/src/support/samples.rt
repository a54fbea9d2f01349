// The databases of the tests, each as one text of the bytes that are not 0.
use crate::support::bytes::{patch, write};
use std::alloc::{AllocError, Global};

// An empty schema, and nothing else. Every other database is written over it.
const EMPTY: &str = "1 0 'SQLite format 3' 00 0200 0101 00 402020, 1 100 0d 0000 0000 0200";

// Databases by their names. In all that have a schema, its format is 4 and its encoding UTF-8.
const SAMPLES: [[&str; 2]; 9] = [
    ["Smallest", ""],
    // A schema of as many levels as there are pages, which `write_ladder` writes.
    ["Ladder", ""],
    // A table with a row of 600 bytes, of which 508 are on page 3.
    [
        "LongRow",
        "1 47 04, 1 59 01, 1 100 0d 0000 0001 01f0 00 01f0, 1 496 0e 01 06 17 0f 0f 01 00 'tablett' 02, \
        2 0 0d 0000 0001 019d 00 019d, 2 413 8458 01, 2 508 00000003",
    ],
    // The same after a pointer map, with the root on page 3.
    [
        "Mapped",
        "1 47 04, 1 59 01, 1 100 0d 0000 0001 01f0 00 01f0, 1 496 0e 01 06 17 0f 0f 01 00 'tablett' 03, \
        1 52 00000003, 2 0 01 00000000 03 00000003, \
        3 0 0d 0000 0001 019d 00 019d, 3 413 8458 01, 3 508 00000004",
    ],
    // A table of two leaves, with the rowids 5 and 6.
    [
        "TwoLeaves",
        "1 47 04, 1 59 01, 1 100 0d 0000 0001 01f0 00 01f0, 1 496 0e 01 06 17 0f 0f 01 00 'tablett' 02, \
        2 0 05 0000 0001 01fb 00 00000004 01fb, 2 507 00000003 05, \
        3 0 0d 0000 0001 01fc 00 01fc, 3 508 00 05, \
        4 0 0d 0000 0001 01fc 00 01fc, 4 508 00 06",
    ],
    // An index of two leaves, whose key between them is of 600 bytes, of which 508 are on page 5.
    [
        "Index",
        "1 47 04, 1 59 01, 1 100 0d 0000 0001 01f0 00 01f0, 1 496 0e 01 06 17 0f 0f 01 00 'indextt' 02, \
        2 0 02 0000 0001 019a 00 00000004 019a, 2 410 00000003 8458, 2 508 00000005, \
        3 0 0a 0000 0001 01f8 00 01f8, 3 504 07, \
        4 0 0a 0000 0001 01f8 00 01f8, 4 504 07",
    ],
    // A row of the schema whose SQL, of 585 bytes, is mostly on page 3, and its table on page 2.
    [
        "LongSql",
        "1 47 04, 1 59 01, 1 100 0d 0000 0001 019d 00 019d, \
        1 413 8458 01 07 17 0f 0f 01 891f 'tablett' 02, 1 508 00000003, \
        2 0 0d 0000 0000 0200",
    ],
    // A trunk, page 2, and its leaf.
    ["Freelist", "1 32 00000002 00000002, 2 4 00000001 00000003"],
    // A trunk and its leaf after a pointer map.
    [
        "MappedFreelist",
        "1 32 00000003 00000002, 1 52 00000001, 2 0 02 00000000 02, 3 4 00000001 00000004",
    ],
];

// A table of three levels with a chain of two pages, an index of two levels with a chain, and two trunks, each with a leaf.
const TREES: &str = "1 47 04, 1 59 01, 1 100 0d 0000 0002 01e0 00 01f0 01e0, \
    1 480 0e 02 06 17 0f 0f 01 00 'indexit' 04, 1 496 0e 01 06 17 0f 0f 01 00 'tablett' 03, \
    3 0 05 0000 0001 01fb 00 00000006 01fb, 3 507 00000005 0a, \
    4 0 02 0000 0001 019a 00 0000000e 019a, 4 410 0000000d 8458, 4 508 0000000f, \
    5 0 05 0000 0001 01fb 00 00000008 01fb, 5 507 00000007 05, \
    6 0 05 0000 0001 01fb 00 0000000a 01fb, 6 507 00000009 0f, \
    7 0 0d 0000 0001 019d 00 019d, 7 413 8854 01, 7 508 0000000b, \
    8 0 0d 0000 0001 01f5 00 01f5, 8 501 09 06, \
    9 0 0d 0000 0002 01ea 00 01f5 01ea, 9 490 09 0c, 9 501 09 0b, \
    10 0 0d 0000 0001 01f5 00 01f5, 10 501 09 10, \
    11 0 0000000c, \
    13 0 0a 0000 0001 01f8 00 01f8, 13 504 07, \
    14 0 0a 0000 0001 01f8 00 01f8, 14 504 07, \
    16 0 00000012 00000001 00000011, \
    18 0 00000000 00000001 00000013";

// With a trunk before those, on page 2, which has no leaf.
const FOREST: &str = "1 32 00000002 00000005, 2 0 00000010";

// With a pointer map on page 2.
const MAPPED_FOREST: &str = "1 32 00000010 00000004, 1 52 00000004, \
    2 0 01 00000000 01 00000000 05 00000003 05 00000003 05 00000005 05 00000005 05 00000006 05 00000006 03 00000007 \
    04 0000000b 05 00000004 05 00000004 03 00000004 02 00000000 02 00000000 02 00000000 02 00000000";

/// Pages of one size: an empty schema, and zeros after it. In the header they have 512 bytes.
pub(crate) fn pages_of(alloc: Global, pages: u32, size: usize) -> Result<Vec<u8>, AllocError> {
    let len = (pages as usize).saturating_mul(size);
    let mut file = Vec::from_elem(alloc, 0u8, len)?;
    write(&mut file, size, EMPTY);
    Ok(file)
}

/// The database of a text as `LongRow 3: 1 18 0303, 2 0 0d`: a sample by its name, how many pages of 512 bytes it has, and after a colon what
/// is written over it. Where something has no place it is empty, so that a test over it fails.
pub(crate) fn file_of(alloc: Global, text: &str) -> Result<Vec<u8>, AllocError> {
    let (sample, changes) = text.split_once(':').unwrap_or((text, ""));
    let (name, pages) = sample.split_once(' ').unwrap_or((sample, ""));
    let pages = pages.parse::<u32>().unwrap_or(0);
    let mut file = pages_of(alloc, pages, 512)?;
    let (first, second) = match name {
        "Forest" => (TREES, FOREST),
        "MappedForest" => (TREES, MAPPED_FOREST),
        _ => (sample_of(name), ""),
    };
    if name == "Ladder" {
        write_ladder(file.as_mut_slice(), pages);
    }
    write(&mut file, 512, first);
    write(&mut file, 512, second);
    write(&mut file, 512, changes);
    Ok(file)
}

// What is written over an empty schema.
fn sample_of(name: &str) -> &'static str {
    for [other, text] in &SAMPLES {
        if *other == name {
            return text;
        }
    }
    "there is no such sample"
}

// Interior pages without cells, of which each has the next page as its right child, and last an empty leaf.
fn write_ladder(file: &mut [u8], pages: u32) {
    let mut at: usize = 100;
    let mut end: usize = 512;
    for page in 1..pages {
        patch(file, at, &[5, 0, 0, 0, 0, 2, 0, 0]);
        patch(
            file,
            at.wrapping_add(8),
            &page.wrapping_add(1).to_be_bytes(),
        );
        at = end;
        end = end.wrapping_add(512);
    }
    patch(file, at, &[13, 0, 0, 0, 0, 2]);
}

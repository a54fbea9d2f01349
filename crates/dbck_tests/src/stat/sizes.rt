// Statistics of large files: a path of four digits, and the lock-byte page.
use crate::runs::{Found, found_of};
use crate::support::bytes::{patch, write};
use crate::support::cases::{command_of, is_text};
use crate::support::samples::pages_of;
use crate::support::stated::StatedSource;
use crate::support::stops::holds;
use dbreport::Verdict;
use dbsource::MemSource;
use std::alloc::{AllocError, Global};
use std::process::Abort;
use std::test::Fail;

// The line of this number of a text, from 0, with its end.
fn line_of(bytes: &[u8], number: usize) -> &[u8] {
    let mut left = number;
    let mut start: usize = 0;
    for (i, byte) in bytes.iter().enumerate() {
        if *byte != b'\n' {
            continue;
        }
        if left == 0 {
            return bytes.get(start..i.wrapping_add(1)).unwrap_or(&[]);
        }
        left = left.wrapping_sub(1);
        start = i.wrapping_add(1);
    }
    &[]
}

// Page 1, of 16384 bytes, is an interior page of 4096 cells, which are of five bytes and have the key 0. Three of them name the
// pages 3 to 5, all others share their bytes and name page 0, and the right child is page 2.
const MANY_CHILDREN: &str = "1 16 4000, 1 100 05 0000 1000 3fec 00 00000002, \
    1 16364 00000005 00, 1 16369 00000004 00, 1 16374 00000003 00, 1 16379 00000000 00, \
    2 0 0d 0000 0000 4000, 3 0 0d 0000 0000 4000, 4 0 0d 0000 0000 4000, 5 0 0d 0000 0000 4000";

fn many_children(alloc: Global) -> Result<Vec<u8>, AllocError> {
    let mut file = pages_of(alloc, 5, 16384)?;
    write(&mut file, 16384, MANY_CHILDREN);
    for child in 0..4096usize {
        let at: u16 = match child {
            0x010 => 16374,
            0x0ff => 16369,
            0xfff => 16364,
            _ => 16379,
        };
        let pointer = child.wrapping_mul(2).wrapping_add(112);
        patch(file.as_mut_slice(), pointer, &at.to_be_bytes());
    }
    Ok(file)
}

const CHILDREN: &str = "sqlite_schema|/|1|internal|4096|0|8060|0|0|16384\n\
    sqlite_schema|/010/|3|leaf|0|0|16376|0|32768|16384\n\
    sqlite_schema|/0ff/|4|leaf|0|0|16376|0|49152|16384\n\
    sqlite_schema|/fff/|5|leaf|0|0|16376|0|65536|16384\n\
    sqlite_schema|/1000/|2|leaf|0|0|16376|0|16384|16384\n";

// The last child has a number of four digits. Of page 1 the bytes 112 + 2 * 4096 = 8304 to 16364 are free.
#[test]
fn shows_4097_children(rt: HostRuntime) -> Result<(), Fail> {
    let file = many_children(rt.alloc())?;
    let found = found_of(
        rt.alloc(),
        command_of("pages"),
        &mut MemSource::new(file.as_slice()),
    );
    // 4093 cells that name page 0, the bytes that they share, and four empty pages that are no roots.
    holds!(rt; found.answer == Ok(Verdict::Faulty(4098)));
    holds!(rt; is_text(CHILDREN, found.out.bytes()));
    Ok(())
}

// That a run answers this, and that the rows of these numbers, from 0, are these. After the last there is none.
fn has_some(rt: &impl Abort, found: &Found, verdict: Verdict, rows: &[(usize, &str)]) {
    holds!(*rt; found.answer == Ok(verdict));
    for (number, row) in rows {
        holds!(*rt; is_text(row, line_of(found.out.bytes(), *number)), number);
    }
}

// Nothing uses the pages but the first and the lock-byte page.
const LOCK_ROWS: [(usize, &str); 6] = [
    (0, "sqlite_schema|-|1|-|0|0|65428|0|-|65536\n"),
    (1, "-|-|2|unowned|0|0|0|0|65536|65536\n"),
    (16383, "-|-|16384|unowned|0|0|0|0|1073676288|65536\n"),
    (16384, "-|-|16385|lock|0|0|0|0|1073741824|65536\n"),
    (16385, "-|-|16386|unowned|0|0|0|0|1073807360|65536\n"),
    (16386, ""),
];

// The lock-byte page is page 16385 of a file of pages of 65536 bytes.
#[test]
fn shows_the_lock_byte_page(rt: HostRuntime) -> Result<(), Fail> {
    let mut file = pages_of(rt.alloc(), 1, 65536)?;
    write(&mut file, 65536, "1 16 0001, 1 105 0000");
    let mut source = StatedSource::new(file.as_slice(), 16386 * 65536, u64::MAX);
    let found = found_of(rt.alloc(), command_of("all trees"), &mut source);
    has_some(&rt, &found, Verdict::Faulty(16384), &LOCK_ROWS);
    Ok(())
}

// What may have been in the header of a file that is refused (Database File Format, 1.3).
use crate::edit::Edit;
use crate::ranked::Tries;
use arrayvec::ArrayVec;

// What a database begins with.
const MAGIC: &[u8; 16] = b"SQLite format 3\0";

// Where the header has the size of a page, and how many bytes are reserved at the end of each.
pub(crate) const PAGE_SIZE: u64 = 16;

pub(crate) const RESERVED: u64 = 20;

// The sizes of a page, the usual one first, as the header has them: 1 is 65536.
pub(crate) const SIZES: [u16; 8] = [4096, 1024, 512, 2048, 8192, 16384, 32768, 1];

// The edits with which it may be read: what it has to begin with, each page size, and that no bytes are reserved.
pub(crate) fn reading_tries() -> Tries {
    let mut tries = ArrayVec::new();
    let _ = tries.try_push(Edit::new(0, MAGIC));
    for size in SIZES {
        let _ = tries.try_push(Edit::new(PAGE_SIZE, &size.to_be_bytes()));
    }
    let _ = tries.try_push(Edit::new(RESERVED, &[0]));
    tries
}

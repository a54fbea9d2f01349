// Which share of a file's pages a run will read, as its header states it.
use crate::header_words::{HEADER_LEN, has_magic, has_page_size, page_count, page_size};
use dbformat::u32_at;

/// How many of a file's pages a run will read: all but those after the stated end, and the leaves of the freelist. The header may be
/// wrong, so this decides how a file is read, and nothing else.
#[derive(Clone, Copy)]
pub(crate) struct UsedShare {
    used: u64,
    pages: u64,
}

impl UsedShare {
    /// The share of which nothing is known: each page is read.
    pub const WHOLE: UsedShare = UsedShare { used: 1, pages: 1 };

    /// The share that the first bytes of a file of `len` bytes state, if they are a header.
    pub fn stated(bytes: &[u8], len: u64) -> UsedShare {
        match bytes.get(..HEADER_LEN) {
            Some(header) if has_magic(header) && has_page_size(header) => UsedShare {
                // A trunk has a place for some hundred leaves, so trunks do not count.
                used: page_count(header, len).saturating_sub(u64::from(u32_at(header, 36))),
                pages: len / u64::from(page_size(header)),
            },
            _ => UsedShare::WHOLE,
        }
    }

    /// Whether at least one page in `many` is read.
    pub fn is_one_in(self, many: u64) -> bool {
        self.used.saturating_mul(many) >= self.pages
    }

    /// As large a share of `whole`.
    pub fn of(self, whole: u64) -> u64 {
        self.used
            .saturating_mul(whole)
            .checked_div(self.pages)
            .unwrap_or(whole)
            .min(whole)
    }
}

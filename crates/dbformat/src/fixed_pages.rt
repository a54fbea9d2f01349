// The pages whose use the file's shape fixes (Database File Format, 1.4 and 1.8).
ghost use Rattle.std.specs.Prelude.{◌≡◌, ◌+◌, ◌<◌, ◌&&◌, nat_le};
ghost use Rattle.dbformat.specs.FixedPages.{IsInRange, entries_per_map, fixed_use, is_map_position, is_page, lock_page, map_page_of};

use crate::{Fixed, Geometry};

impl Geometry {
    /// The page that holds the byte at 2^30, which no structure uses, whether or not the file is that long (1.4).
    pub(crate) fn lock_page(self) -> u32
        requires { 0 < self.page_size }
        ensures { result ≡ lock_page self.page_size }
    {
        (1 << 30) / self.page_size + 1
    }

    // Whether the file has a page of this number.
    fn is_page(self, page: u32) -> bool
        ensures { result ≡ is_page self page }
    {
        1 <= page && page <= self.pages
    }

    // How many pages a pointer-map page and those that it describes are.
    fn group(self) -> u32
        ensures { result ≡ entries_per_map self + 1 }
    {
        self.usable / 5 + 1
    }

    // Whether a pointer-map page is at this number, where there is a map (1.8).
    fn is_map_position(self, page: u32) -> bool
        ensures { result ≡ is_map_position self page }
    {
        page >= 2 && (page - 2) % self.group() == 0
    }

    /// Whether the lock-byte page of the file is at the position of a pointer-map page.
    pub fn has_map_at_lock(self) -> bool
        requires { 0 < self.page_size }
        ensures { result ≡ (self.has_map && nat_le (lock_page self.page_size) self.pages && is_map_position self (lock_page self.page_size)) }
    {
        let lock = self.lock_page();
        self.has_map && lock <= self.pages && self.is_map_position(lock)
    }

    /// The fixed use of a page, where it has one: the lock-byte page (1.4), or a pointer-map page (1.8).
    #[tactic(auto, unfolding(crate::specs::FixedPages::fixed_use))]
    pub fn fixed(self, page: u32) -> Option<Fixed>
        requires { IsInRange self }
        ensures { result ≡ fixed_use self page }
    {
        if !self.is_page(page) {
            return None;
        }
        if page == self.lock_page() {
            return Some(Fixed::Lock);
        }
        if self.has_map && self.is_map_position(page) {
            return Some(Fixed::Map);
        }
        None
    }

    /// The pointer-map page that has the entry of a page, where it has one: the last one before the page (1.8).
    #[tactic(auto, unfolding(crate::specs::FixedPages::map_page_of))]
    pub fn map_page_of(self, page: u32) -> Option<u32>
        requires { IsInRange self }
        ensures { result ≡ map_page_of self page }
    {
        if !self.has_map || page < 3 || !self.is_page(page) || self.fixed(page).is_some() {
            return None;
        }
        Some(page - (page - 2) % self.group())
    }
}

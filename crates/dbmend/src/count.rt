// What a run found.

/// How many faults a file has, and the size of its pages.
#[derive(Clone, Copy)]
pub struct Count {
    /// All faults, or the greatest number of 64 bits where there are more.
    pub faults: u64,
    /// In bytes, from 512 to 65536.
    pub page_size: u32,
}

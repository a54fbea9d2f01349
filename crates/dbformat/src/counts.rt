// What a row of the statistics counts.
ghost use Rattle.std.specs.Prelude.{◌≡◌, List, [], ◌∷◌, ◌++◌};
ghost use Rattle.dbformat.specs.Lines.{total_counts};
ghost use Rattle.dbformat.specs.declared.counts.Counts as declared;

/// The counts of a page, or of all pages of a tree: columns of the statistics.
#[derive(Clone, Copy)]
pub struct Counts {
    /// How many cells there are.
    pub ncell: u64,
    /// The payload bytes on the pages.
    pub payload: u64,
    /// The bytes of the pages that are not in use.
    pub unused: u64,
    /// The greatest payload of a cell, with its bytes on overflow pages.
    pub mx_payload: u64,
}

impl Counts {
    /// All 0: the counts of no page, and of a damaged one.
    pub const NONE: Counts = Counts {
        ncell: 0,
        payload: 0,
        unused: 0,
        mx_payload: 0,
    };

    /// Adds the counts of another page: sums, and the greater payload. A sum stops at the greatest number of 64 bits.
    #[inline(always)]
    pub fn add(&mut self, page: &Counts)
        ensures { (cs : List declared.Counts) → self.old ≡ total_counts cs → self.new ≡ total_counts (cs ++ page.now ∷ []) }
    {
        self.ncell = self.ncell.saturating_add(page.ncell);
        self.payload = self.payload.saturating_add(page.payload);
        self.unused = self.unused.saturating_add(page.unused);
        self.mx_payload = self.mx_payload.max(page.mx_payload);
    }
}

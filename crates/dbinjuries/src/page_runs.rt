// Pages in runs.
ghost use Rattle.std.specs.Prelude.{◌≡◌, ◌+◌, ◌<◌, replicate, take};
ghost use Rattle.std.specs.List.{list_any};
ghost use Rattle.dbformat.specs.Lines.{counted};
ghost use Rattle.dbinjuries.specs.Kept.{has_page, is_last, no_run, run_added, run_begun, run_grown};

/// The most runs that are kept.
pub const MAX_RUNS: usize = 10;

/// Pages that follow one another, from `first` to `last`.
#[derive(Clone, Copy)]
pub struct PageRun {
    pub first: u32,
    pub last: u32,
}

/// The first runs of some pages, and how many runs there are in all.
#[derive(Clone, Copy)]
pub struct PageRuns {
    pub kept: [PageRun; MAX_RUNS],
    pub count: u64,
    /// The last page of them.
    pub last: u32,
}

// The runs of no pages.
pub(crate) const NO_RUNS: PageRuns = PageRuns {
    kept: [PageRun { first: 0, last: 0 }; MAX_RUNS],
    count: 0,
    last: 0,
};

// Whether one of these runs has a page.
fn have_page(runs: &[PageRun], page: u32) -> bool
    ensures { result ≡ list_any (has_page page) runs.now }
{
    runs.iter().any(|run| run.first <= page && page <= run.last)
}

impl PageRuns {
    /// Adds a page. If it is the last one, or a run that is kept has it, nothing changes.
    #[inline(always)]
    pub(crate) fn add(&mut self, page: u32)
        ensures { self.new ≡ run_added self.old page }
    {
        if !self.has_last(page) {
            self.add_other(page);
        }
    }

    // Adds a page. Most faults are on the page of the one before, and do not reach this call.
    #[inline(never)]
    fn add_other(&mut self, page: u32)
        ensures { self.new ≡ run_added self.old page }
    {
        if self.has_last(page) || self.keeps(page) {
            return;
        }
        if self.count > 0 && u64::from(page) == u64::from(self.last) + 1 {
            self.extend(page);
        } else {
            self.begin(page);
        }
        self.last = page;
    }

    // Whether a page is the last one.
    fn has_last(&self, page: u32) -> bool
        ensures { result ≡ is_last self.now page }
    {
        self.count > 0 && page == self.last
    }

    // Whether a run that is kept has a page.
    fn keeps(&self, page: u32) -> bool
        ensures { result ≡ list_any (has_page page) (take self.now.count self.now.kept) }
    {
        let shown = self.count.min(10) as usize;
        have_page(&self.kept[..shown], page)
    }

    // Lets the last run, if it is kept, end at this page.
    fn extend(&mut self, page: u32)
        requires { 0 < self.old.count }
        ensures { self.new ≡ record self.old { kept = run_grown self.old page } }
    {
        if self.count <= 10 {
            self.kept[self.count as usize - 1].last = page;
        }
    }

    // Begins a run at this page, which is kept if there is room.
    fn begin(&mut self, page: u32)
        ensures { self.new ≡ record self.old { kept = run_begun self.old page; count = counted (self.old.count + 1) } }
    {
        if self.count < 10 {
            self.kept[self.count as usize] = PageRun {
                first: page,
                last: page,
            };
        }
        self.count = self.count.saturating_add(1);
    }
}

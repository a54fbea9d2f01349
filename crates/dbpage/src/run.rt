// A run: cells without gaps between them.
ghost use Rattle.std.specs.Prelude.{◌≡◌, ◌+◌, ◌-◌, ◌^◌, ◌<◌, ◌≤◌, IsTrue, false};
ghost use Rattle.dbpage.specs.Marking.{AreAdjoining};

// A range of bytes, which cells without gaps between them hold.
#[derive(Clone, Copy)]
pub(crate) struct CellRun {
    pub(crate) from: u32,
    to: u32,
}

impl CellRun {
    // The run of no cell, at the end of a page of `usable` bytes.
    #[inline(always)]
    pub(crate) fn new(usable: u32) -> CellRun
        ensures { result ≡ record { from = usable; to = usable } }
    {
        CellRun {
            from: usable,
            to: usable,
        }
    }

    // Its length in bytes.
    #[inline(always)]
    pub(crate) fn len(&self) -> u32
        requires { self.now.from ≤ self.now.to }
        ensures { result ≡ self.now.to - self.now.from }
    {
        self.to - self.from
    }

    // Adds a cell that holds `len` bytes from `offset` on, if it ends where the run begins, or begins where the run
    // ends. Answers whether it did.
    #[inline(always)]
    pub(crate) fn add(&mut self, offset: u32, len: u32) -> bool
        requires { offset + len < 2 ^ 32 }
        ensures beside { IsTrue result → AreAdjoining self.old.from self.old.to offset len self.new.from self.new.to }
        ensures apart { result ≡ false → self.new ≡ self.old }
    {
        let end = offset + len;
        if end == self.from {
            self.from = offset;
        } else if offset == self.to {
            self.to = end;
        } else {
            return false;
        }
        true
    }
}

// The longest run of one byte in a page.
ghost use Rattle.std.specs.Prelude.{◌≡◌, ◌+◌, ◌<◌, ◌≤◌, length};
ghost use Rattle.std.specs.List.{list_any, range_with_len};
ghost use Rattle.dbformat.specs.Cell.{count};
ghost use Rattle.dbformat.specs.Runs.{begins_in, content_run, long_run, longest_run, usable_run};
ghost use Rattle.dbpage.specs.ByteRuns.{run_before};

use crate::view::PageView;
use dbformat::ByteRun;

/// The longest run of one byte in the first `usable` bytes of a page, if it has 64 bytes or more; `page` may be longer.
#[inline(never)]
pub fn usable_run(page: &[u8], usable: u32) -> Option<ByteRun>
    requires whole { usable ≤ length page.now }
    requires most { usable ≤ 65536 }
    ensures { result ≡ usable_run usable page.now }
{
    long_run(longest_run(&page[..usable as usize], 0))
}

impl PageView<'_> {
    /// The longest run of one byte in the content area, if it has 64 bytes or more and a cell begins in it.
    #[inline(never)]
    pub fn content_run(&self) -> Option<ByteRun>
        requires { self.now.usable ≤ 65536 }
        ensures { result ≡ content_run self.now }
    {
        let content = &self.bytes[self.start as usize..self.usable as usize];
        let run = longest_run(content, self.start);
        if !self.has_cell_in(run) {
            return None;
        }
        long_run(run)
    }

    // Whether a cell begins in a run.
    fn has_cell_in(&self, run: ByteRun) -> bool
        ensures { result ≡ list_any (begins_in self.now run) (range_with_len 0 (count self.now)) }
    {
        for i in 0..self.cells {
            if self.begins_in(run, i) {
                return true;
            }
        }
        false
    }

    // Whether cell `i` begins in a run.
    fn begins_in(&self, run: ByteRun, i: u32) -> bool
        requires { i < count self.now }
        ensures { result ≡ begins_in self.now run i }
    {
        let at = self.pointer(i);
        let end = u64::from(run.start) + u64::from(run.len);
        at >= self.start && at <= self.usable - 4 && run.start <= at && u64::from(at) < end
    }
}

// A run that is long enough to be reported.
fn long_run(run: ByteRun) -> Option<ByteRun>
    ensures { result ≡ long_run run }
{
    if run.len >= 64 { Some(run) } else { None }
}

// The longest run of one byte, and of equal ones the first, of bytes that begin at this offset. It is looked for from the last
// byte on, since a run is then known by the one that begins a byte after it.
fn longest_run(bytes: &[u8], at: u32) -> ByteRun
    requires { at + length bytes.now ≤ 65536 }
    ensures { result ≡ longest_run at bytes.now }
{
    let mut i = bytes.len() as u32;
    let mut longest = ByteRun {
        start: at + i,
        len: 0,
        byte: 0,
    };
    let mut run = longest;
    while i > 0 {
        i -= 1;
        run = run_before(run, at + i, bytes[i as usize]);
        if run.len >= longest.len {
            longest = run;
        }
    }
    longest
}

// The run that begins with a byte, before the one that begins after it.
fn run_before(run: ByteRun, start: u32, byte: u8) -> ByteRun
    requires { run.len < 65536 }
    ensures { result ≡ run_before run start byte }
{
    let len = if run.len > 0 && run.byte == byte {
        run.len + 1
    } else {
        1
    };
    ByteRun { start, len, byte }
}

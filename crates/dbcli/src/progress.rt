// Progress of a run, on a terminal.
use arrayvec::ArrayString;
use std::cell::Cell;
use std::fmt::Write;

// Progress is shown each time after this many pages, or bytes of pages, whichever comes first.
const PAGES: u64 = 65_536;

const BYTES: u64 = 268_435_456;

// Blanks over the longest text of a file that is read once, between two returns to the beginning of the line. No file that is read has
// more than 67108864 pages, so it is `dbck: 67108864 of 67108864 pages, 100%`.
const BLANK: &str = "\r                                        \r";

// And over the longest of one that is read again, of 256 runs at most. Of a file that is refused all pages are counted, which may be as
// many as `dbck: run 256, 67108864 of 9223372036854775807 pages, 0%` says.
const LONG_BLANK: &str = "\r                                                        \r";

/// A line of a stream that is overwritten, if the stream is a terminal. After each text the cursor goes back to the beginning
/// of the line, so that the next text overwrites it, also after an interrupted run. A failed write changes nothing.
#[derive(Drop)]
pub struct Progress<W> {
    stream: W,
    is_on: Cell<bool>,
    is_shown: Cell<bool>,
    // Whether what is shown has the number of a run.
    is_long: Cell<bool>,
}

impl<W: Print> Progress<W> {
    /// A line that shows nothing yet, and never anything where `stream` is no terminal.
    pub fn new(stream: W, is_terminal: bool) -> Progress<W> {
        Progress {
            stream,
            is_on: Cell::new(is_terminal),
            is_shown: Cell::new(false),
            is_long: Cell::new(false),
        }
    }

    /// Shows nothing from now on.
    pub fn turn_off(&self) {
        self.is_on.set(false);
    }

    /// Whether it is shown.
    pub fn is_on(&self) -> bool {
        self.is_on.get()
    }

    /// Whether it is due after `count` pages of this size: after each 65536th, and of pages above 4096 bytes after each 256 MiB.
    pub fn is_due(&self, count: u64, page_size: u32) -> bool {
        let step = BYTES
            .checked_div(u64::from(page_size))
            .unwrap_or(PAGES)
            .min(PAGES)
            .max(1);
        count > 0 && count % step == 0
    }

    /// Shows how many pages the run of this number, from 1, has read, and how many there are. Only a later run shows its number.
    pub fn show(&self, run: u64, count: u64, pages: u64) {
        let Some(percent) = count.saturating_mul(100).checked_div(pages) else {
            return;
        };
        let mut line: ArrayString<80> = ArrayString::new();
        let written = if run > 1 {
            // It may be shorter than the last one.
            self.wipe();
            write!(
                line,
                "dbck: run {run}, {count} of {pages} pages, {percent}%\r"
            )
        } else {
            write!(line, "dbck: {count} of {pages} pages, {percent}%\r")
        };
        if written.is_ok() {
            self.is_shown.set(true);
            self.is_long.set(run > 1);
            let _ = self.stream.print(line.as_str());
        }
    }

    /// Wipes the text that is shown, before another line is written.
    pub fn wipe(&self) {
        if self.is_shown.replace(false) {
            let blank = if self.is_long.get() {
                LONG_BLANK
            } else {
                BLANK
            };
            let _ = self.stream.print(blank);
        }
    }
}

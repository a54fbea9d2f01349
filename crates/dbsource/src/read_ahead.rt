// Reading ahead: a file that is not in memory is read by windows.
use crate::header_words::HEADER_LEN;
use crate::used_share::UsedShare;
use std::alloc::{AllocError, Global};
use std::fs::File;
use std::io;
use std::os::unix::fs::FileExt;
use std::rt::Clock;
use std::time::{Duration, Instant};

// The size of a window in bytes. A turning disk reads this much in about the time that its head takes to move to a page, and
// an SSD at the rate at which it reads a whole file.
const WINDOW: usize = 1_048_576;

// Reads that jump through the file will need most of its windows, and a disk is faster the more it reads at once. So after this many
// slow reads, each in a window before the last, the next of them reads `TIMES` as many windows at once, up to the greatest number. Reads
// that only go on, with gaps, are left to the system, which reads ahead of them by itself.
const JUMPS: u32 = 2;

const TIMES: u64 = 16;

const MOST_AT_ONCE: u64 = 256;

// A window is read only if at least one page in 16 is used: otherwise its pages take less time one by one. On a turning disk, where a read
// takes `SEEK_MICROS` or longer, two pages in a window are enough.
const PAGES_A_USED_ONE: u64 = 16;

const PAGES_A_USED_ONE_ON_A_DISK: u64 = 128;

const SEEK_MICROS: u64 = 2000;

// The longest page for which more than one window is read at once. A few longer ones fill a window.
const LONGEST: usize = 16_384;

// The windows of the greatest file that is checked, of 67108864 pages of 65536 bytes. Their bits take half a mebibyte.
const MOST_WINDOWS: u64 = 4_194_304;

// At most this many bytes of a read are timed: a page of the usual size. One of 65536 bytes may take 20 microseconds
// from memory.
const TIMED: usize = 4096;

/// The least time in microseconds that a read of `TIMED` bytes takes from a device. From memory it takes one or two,
/// from a fast SSD some forty.
pub(crate) const DEVICE_MICROS: u64 = 15;

/// The windows of a file. The beginning of the first read in each is timed: if it came from a device, the whole window
/// is read once, so that the system has it in memory when its other pages are read; and where reads jump, the windows beside it, the
/// fewer the smaller the used share of the file is. Of a file that is mostly free no window is read. These bytes are not used.
#[derive(Drop)]
pub(crate) struct ReadAhead<'r, C> {
    clock: &'r C,
    bound: Duration,
    // One bit for each window: whether a read in it was timed, or it was read with another.
    seen: Vec<u64>,
    windows: u64,
    len: u64,
    share: UsedShare,
    // Whether the file's header was read, or a read of it was tried.
    asked: bool,
    buffer: Vec<u8>,
    // How many windows are read at once, the last window with a slow read, and how many of them came before the last.
    at_once: u64,
    last: u64,
    jumps: u32,
}

impl<'r, C: Clock> ReadAhead<'r, C> {
    /// The windows of a file of `len` bytes, where a page that takes `bound` or longer comes from a device. The memory of the
    /// windows' bits is taken here, that of a window when the first is read; where it is refused none is.
    ///
    /// # Errors
    ///
    /// [`AllocError`] where it was refused.
    pub fn new(
        alloc: Global,
        clock: &'r C,
        len: u64,
        bound: Duration,
    ) -> Result<ReadAhead<'r, C>, AllocError> {
        let windows = len.div_ceil(WINDOW as u64).min(MOST_WINDOWS);
        Ok(ReadAhead {
            clock,
            bound,
            seen: vec![in alloc; 0; windows.div_ceil(64) as usize]?,
            windows,
            len,
            share: UsedShare::WHOLE,
            asked: false,
            buffer: Vec::new(alloc),
            at_once: 1,
            last: 0,
            jumps: 0,
        })
    }

    // Whether this window is seen for the first time. There are no windows after the length that the file had.
    fn is_new(&mut self, window: u64) -> bool {
        let bit = 1u64 << (window % 64);
        match self.seen.get_mut((window / 64) as usize) {
            Some(bits) if *bits & bit == 0 && window < self.windows => {
                *bits |= bit;
                true
            }
            _ => false,
        }
    }

    /// Reads from `offset` on, as the file does, and then ahead if the window is new and the read was slow. An error is
    /// that of the read itself.
    // Reads that follow one another do not reach this call.
    #[inline(never)]
    pub fn read(&mut self, file: &File, offset: u64, buf: &mut [u8]) -> io::Result<()> {
        let window = offset / WINDOW as u64;
        if !self.is_new(window) {
            return file.read_exact_at(buf, offset);
        }
        let is_short = buf.len() <= LONGEST;
        let (first, rest) = buf.split_at_mut(TIMED.min(buf.len()));
        let start = Instant::now(self.clock);
        file.read_exact_at(first, offset)?;
        if offset == 0 {
            self.state(first);
        }
        if let Ok(start) = start
            && let Ok(time) = start.elapsed(self.clock)
            && time >= self.bound
        {
            self.ask(file);
            if self.pays(time) {
                if is_short {
                    self.grow(window);
                }
                self.fetch(file, window);
                self.fetch_beside(file, window);
            }
        }
        file.read_exact_at(rest, offset.wrapping_add(first.len() as u64))
    }

    // Keeps the share that the first bytes of the file state.
    fn state(&mut self, first: &[u8]) {
        self.asked = true;
        self.share = UsedShare::stated(first, self.len);
    }

    // Reads the header where no read before began with it: page 1 may have been read from a log beside the file.
    fn ask(&mut self, file: &File) {
        if self.asked {
            return;
        }
        self.asked = true;
        let mut header = [0u8; HEADER_LEN];
        if file.read_exact_at(&mut header, 0).is_ok() {
            self.state(&header);
        }
    }

    // Whether enough pages of a window will be read that it pays to read it as a whole, if one page takes this time.
    fn pays(&self, time: Duration) -> bool {
        self.share.is_one_in(if time >= Duration::from_micros(SEEK_MICROS) {
            PAGES_A_USED_ONE_ON_A_DISK
        } else {
            PAGES_A_USED_ONE
        })
    }

    // Notes a slow read in a window, after which more windows may be read at once.
    fn grow(&mut self, window: u64) {
        if window < self.last {
            self.jumps = self.jumps.saturating_add(1);
        }
        self.last = window;
        if self.jumps > JUMPS {
            self.jumps = 0;
            let most = self.share.of(MOST_AT_ONCE).max(1);
            self.at_once = most.min(self.at_once.saturating_mul(TIMES));
        }
    }

    // Reads the windows that are read at once with a window, but for those that were seen.
    fn fetch_beside(&mut self, file: &File, window: u64) {
        let first = window.saturating_sub(window.checked_rem(self.at_once).unwrap_or(0));
        for beside in first..first.saturating_add(self.at_once) {
            if self.is_new(beside) {
                self.fetch(file, beside);
            }
        }
    }

    // Reads a window. The buffer gets its bytes only now, so that a file in memory costs none.
    fn fetch(&mut self, file: &File, window: u64) {
        if self.buffer.resize(WINDOW, 0).is_ok() {
            let _ = file.read_at(&mut self.buffer, window.saturating_mul(WINDOW as u64));
        }
    }
}

// Why an output cannot be written.
ghost use Rattle.std.specs.Prelude.{◌≡◌};

use std::alloc::{AllocError, Global};
use std::cell::Cell;
use std::io::{self, Write};
use std::rc::Rc;

/// A stream that is written to.
#[derive(Clone, Copy)]
pub enum StreamName {
    Output,
    Error,
}

impl StreamName {
    // What it is called in a note.
    fn text(self) -> &'static str {
        match self {
            StreamName::Output => "standard output",
            StreamName::Error => "standard error",
        }
    }
}

// The number of the system's error of a stream that is closed, or open for reading alone.
const NOT_OPEN: i32 = 9;

/// A write that failed: of which stream, and the number of the system's error.
#[derive(Clone, Copy)]
pub struct FailedWrite {
    stream: StreamName,
    code: i32,
}

impl FailedWrite {
    /// This error of a stream, if it is one of the system.
    pub fn of(stream: StreamName, error: &io::Error) -> Option<FailedWrite> {
        let code = error.raw_os_error()?;
        Some(FailedWrite { stream, code })
    }

    /// The stream, and why.
    ///
    /// # Errors
    ///
    /// [`AllocError`] where memory was refused.
    pub fn text(self, alloc: Global) -> Result<String, AllocError> {
        let stream = self.stream.text();
        let reason = reason_of(alloc, self.code)?;
        format!(in alloc; "{stream}: {reason}")
    }
}

/// The first write that failed, of all streams.
#[derive(Drop)]
pub struct FailedWrites {
    first: Cell<Option<FailedWrite>>,
}

impl FailedWrites {
    /// None yet.
    pub fn new() -> FailedWrites {
        FailedWrites {
            first: Cell::new(None),
        }
    }

    /// None yet, for several streams.
    ///
    /// # Errors
    ///
    /// [`AllocError`] where memory was refused.
    pub fn shared(alloc: Global) -> Result<Rc<FailedWrites>, AllocError> {
        match Rc::new(alloc, FailedWrites::new()) {
            Ok(failed) => Ok(failed),
            Err(_) => Err(AllocError),
        }
    }

    /// The first one, if the system said why.
    pub fn first(&self) -> Option<FailedWrite> {
        self.first.get()
    }

    // Keeps one, if it is the first.
    fn keep(&self, stream: StreamName, error: &io::Error) {
        if self.first.get().is_none() {
            self.first.set(FailedWrite::of(stream, error));
        }
    }
}

/// A writer over another writer, which takes what that one takes, and keeps why it failed.
#[derive(Drop)]
pub struct Stream<W> {
    writer: W,
    name: StreamName,
    failed: Rc<FailedWrites>,
}

impl<W: Write> Stream<W> {
    /// One over `writer`, which has this name in a note.
    pub fn new(writer: W, name: StreamName, failed: Rc<FailedWrites>) -> Stream<W>
        ensures { result.writer ≡ writer }
    {
        Stream {
            writer,
            name,
            failed,
        }
    }
}

impl<W: Write> Write for Stream<W> {
    ghost contents = { λ s. W.contents s.writer };

    fn write(&mut self, buf: &[u8]) -> io::Result<usize> {
        let written = self.writer.write(buf);
        if let Err(error) = &written {
            self.failed.keep(self.name, error);
        }
        written
    }

    fn flush(&mut self) -> io::Result<()> {
        self.writer.flush()
    }
}

// What the system says of the error of this number.
fn reason_of(alloc: Global, code: i32) -> Result<String, AllocError> {
    if code == NOT_OPEN {
        return String::from_str(alloc, "it is not open for writing");
    }
    system_text(alloc, &io::Error::from_raw_os_error(code))
}

/// What the system says of an error, without its number.
///
/// # Errors
///
/// [`AllocError`] where memory was refused.
pub(crate) fn system_text(alloc: Global, error: &io::Error) -> Result<String, AllocError> {
    let text = error.to_string(alloc)?;
    match text.as_str().split_once(" (os error ") {
        Some((reason, _)) => String::from_str(alloc, reason),
        None => Ok(text),
    }
}

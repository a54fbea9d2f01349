// What is wrong with the words of a command line, as it is said.
ghost use Rattle.std.specs.Prelude.{◌≡◌, ◌⊎◌};
ghost use Rattle.clap.specs.declared.error.kind.ErrorKind.TheVariants.{OutOfMemory};

use crate::arguments::dbck_command;
use crate::shown::Shown;
use clap::error::ErrorKind;
use std::alloc::{AllocError, Global};
use std::error::Error;
use std::fmt;
use std::marker::Model;

/// What the parser reports of words. Its text has the words as they are shown on one line, so that no control character of a
/// word reaches a terminal.
#[derive(Debug, Drop)]
pub struct WordsError {
    kind: ErrorKind,
    // What the parser says of the words as they are shown.
    said: Option<clap::Error>,
}

impl Model for WordsError {
    ghost use Rattle.clap.specs.declared.error.kind.ErrorKind.{ErrorKind as kind_type};

    ghost Value = { kind_type };

    ghost view = { λ s. s.kind };
}

// What the parser says of the words as they are shown.
fn said_of(alloc: Global, words: &[Shown]) -> Option<clap::Error> {
    match dbck_command(alloc) {
        Ok(command) => command.try_get_matches_from(words).err(),
        Err(error) => Some(clap::Error::from(error)),
    }
}

impl WordsError {
    /// Want of memory.
    pub(crate) fn out_of_memory() -> WordsError
        ensures { result ≡ OutOfMemory }
    {
        WordsError {
            kind: ErrorKind::OutOfMemory,
            said: None,
        }
    }

    /// An error of this kind, of words that are shown so.
    pub(crate) fn new(alloc: Global, kind: ErrorKind, words: &[Shown]) -> WordsError
        ensures { (result ≡ kind) ⊎ (result ≡ OutOfMemory) }
    {
        match said_of(alloc, words) {
            Some(error) if error.kind() == kind => WordsError {
                kind,
                said: Some(error),
            },
            Some(error) if error.kind() == ErrorKind::OutOfMemory => WordsError::out_of_memory(),
            // Words and the same words as they are shown have errors of one kind.
            _ => WordsError { kind, said: None },
        }
    }

    /// What is wrong, or what is asked for.
    pub fn kind(&self) -> ErrorKind
        ensures { result ≡ self.now }
    {
        self.kind
    }
}

impl fmt::Display for WordsError {
    fn fmt<W: fmt::Write>(&self, f: &mut fmt::Formatter<W>) -> fmt::Result {
        match &self.said {
            Some(error) => error.fmt(f),
            None => {
                let kind = self.kind;
                write!(f, "error: {kind}\n")
            }
        }
    }
}

impl Error for WordsError {}

// The words of the command line.
use crate::command_line::LineError;
use std::alloc::{AllocError, Global};
use std::env::{self, Env, FillError};
use std::io::ErrorKind;
use std::str;

// The most bytes that the system takes of a word, with the zero at its end.
const LONGEST: usize = 131_072;

// The number of the first word that is not UTF-8; that of the program's name is 0.
fn first_not_text<R: Env + AllocGlobal>(rt: &R) -> Result<usize, AllocError> {
    let mut word = Vec::from_elem(rt.alloc(), 0u8, LONGEST)?;
    for number in 0..usize::MAX {
        match rt.arg(number, word.as_mut_slice()) {
            Ok(len) => {
                if str::from_utf8(&word.as_slice()[..len]).is_err() {
                    return Ok(number);
                }
            }
            Err(FillError::TooLong) => {}
            Err(FillError::NotPresent) => break,
        }
    }
    Ok(0)
}

// The error of the line for words that could not be read.
fn words_error<R: Env + AllocGlobal>(rt: &R, kind: ErrorKind) -> LineError {
    match kind {
        ErrorKind::OutOfMemory => LineError::from(AllocError),
        _ => match first_not_text(rt) {
            Ok(number) => LineError::NotText(number),
            Err(refused) => LineError::from(refused),
        },
    }
}

/// The words of the command line, the program's name first.
///
/// # Errors
///
/// [`LineError::NotText`] where one is not UTF-8, and [`LineError::Words`] for want of memory.
pub fn words_of<R: Env + AllocGlobal>(rt: &R) -> Result<Vec<String>, LineError> {
    match env::args(rt) {
        Ok(words) => Ok(words.collect(rt.alloc())?),
        Err(error) => Err(words_error(rt, error.kind())),
    }
}

/// The same words, as texts.
///
/// # Errors
///
/// [`AllocError`] where memory was refused.
pub fn texts_of(alloc: Global, words: &[String]) -> Result<Vec<&str>, AllocError> {
    let mut texts = Vec::new(alloc);
    for word in words {
        texts.push(word.as_str())?;
    }
    Ok(texts)
}

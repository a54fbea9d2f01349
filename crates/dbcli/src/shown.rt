// Texts as they are shown on one line.
ghost use Rattle.std.specs.Prelude.{◌≡◌, [], IfOk, map};
ghost use Rattle.dbformat.specs.PlainNames.{plain_name};
ghost use Rattle.dbformat.specs.declared.Encoding.TheVariants.{Utf8};

use dbbytes::plain_name_text;
use dbformat::Encoding;
use dbsource::MemOut;
use std::alloc::{AllocError, Global};
use std::convert::AsStr;
use std::marker::Model;
use std::{fmt, str};

/// A text of the command line, of a file or of the system, made harmless for the line on which it is shown: control characters, line
/// feeds among them, backslashes, and characters that turn the direction of text are shown by their codes. Only [`Shown::of`] makes one
/// that is not empty, and notes and errors have such a text in no other form.
#[derive(Debug, Drop)]
pub(crate) struct Shown {
    text: String,
}

impl Model for Shown {
    ghost use Rattle.std.specs.Prelude.{ℕ, List, string_bytes};

    ghost Value = { List ℕ };

    ghost view = { λ s. string_bytes s.text };
}

impl Shown {
    /// No text.
    pub(crate) fn none(alloc: Global) -> Shown
        ensures { result ≡ [] }
    {
        Shown {
            text: String::new(alloc),
        }
    }

    /// The text as it is shown.
    ///
    /// # Errors
    ///
    /// [`AllocError`] where memory was refused.
    pub(crate) fn of(alloc: Global, text: &str) -> Result<Shown, AllocError>
        ensures { IfOk result (λ shown. shown ≡ plain_name Utf8 text.now) }
    {
        let mut line = MemOut::new(alloc);
        if plain_name_text(text.as_bytes(), Encoding::Utf8, &mut line).is_err() {
            return Err(AllocError);
        }
        match str::from_utf8(line.bytes()) {
            Ok(text) => Ok(Shown {
                text: String::from_str(alloc, text)?,
            }),
            Err(_) => Err(AllocError),
        }
    }

    /// Its characters.
    pub(crate) fn as_str(&self) -> &str
        ensures { result.now ≡ self.now }
    {
        self.text.as_str()
    }
}

impl fmt::Display for Shown {
    fn fmt<W: fmt::Write>(&self, f: &mut fmt::Formatter<W>) -> fmt::Result {
        f.write_str(self.as_str())
    }
}

impl AsStr for Shown {
    ghost text = { λ s. s };

    fn as_str(&self) -> &str {
        self.text.as_str()
    }
}

/// Words as they are shown, one for each.
///
/// # Errors
///
/// [`AllocError`] where memory was refused.
pub(crate) fn shown_words(alloc: Global, words: &[&str]) -> Result<Vec<Shown>, AllocError>
    ensures { IfOk result (λ shown. shown.items ≡ map (λ word. plain_name Utf8 word.now) words.now) }
{
    let mut shown = Vec::new(alloc);
    for word in words {
        shown.push(Shown::of(alloc, word)?)?;
    }
    Ok(shown)
}

// Copies of a database that were made as of a text, by what its first page has.
ghost use Rattle.std.specs.Prelude.{◌≡◌, ◌↔◌, ◌==◌, IsTrue, MatchOption, drop};
ghost use Rattle.std.specs.List.{list_any};
ghost use Rattle.dbcli.specs.Copies.{AreAfterReturns, HasEndsOfLines, HasLetters, IsCopied, IsUncopied, IsUtf8SoFar, copied_text, keeps_length, lacks_returns};

use std::str;

// With fewer line feeds, or bytes above 127, a page may look so by chance.
const LINE_FEEDS: usize = 4;

const HIGH_BYTES: usize = 8;

// Up to here a header has no byte above 127 but in numbers.
const NUMBERS: usize = 80;

// Where page 1 has the type of its tree page: 13 if it is a leaf of a table.
const TYPE: usize = 100;

/// What a copy made of the bytes of a database.
#[derive(Clone, Copy)]
pub enum Copied {
    /// A carriage return was put before each line feed.
    Lines,
    /// Each byte above 127 became two, as in the change from Latin-1 to UTF-8.
    Letters,
    /// Carriage returns became line feeds, or were taken away.
    Returns,
}

impl Copied {
    /// How a file was copied whose first bytes are these, or `None` where nothing is seen of that.
    pub fn of(bytes: &[u8]) -> Option<Copied>
        ensures { MatchOption result (IsUncopied bytes.now) (IsCopied bytes.now) }
    {
        if has_ends_of_lines(bytes) {
            Some(Copied::Lines)
        } else if has_letters(after_numbers(bytes)) {
            Some(Copied::Letters)
        } else if lacks_returns(bytes) {
            Some(Copied::Returns)
        } else {
            None
        }
    }

    /// What is seen, and what it means.
    #[tactic(auto, unfolding(crate::specs::Copies::copied_text))]
    pub fn text(self) -> &'static str
        ensures { result.now ≡ copied_text self }
    {
        match self {
            Copied::Lines => {
                "every line feed of the first page comes after a carriage return: perhaps copied as text (see the manual)"
            }
            Copied::Letters => {
                "the bytes of the first page from 80 on are well-formed UTF-8: perhaps converted as text (see the manual)"
            }
            Copied::Returns => {
                "the first page has 0a where 0d belongs, and no 0d: perhaps carriage returns were taken away (see the manual)"
            }
        }
    }

    /// Whether a file may have as many bytes as before.
    pub fn keeps_length(self) -> bool
        ensures { result ≡ keeps_length self }
    {
        matches!(self, Copied::Returns)
    }
}

// The bytes in which a header has no number: those from 80 on, if there are some.
fn after_numbers(bytes: &[u8]) -> &[u8]
    ensures { result.now ≡ drop 80 bytes.now }
{
    if bytes.len() < NUMBERS {
        &[]
    } else {
        &bytes[NUMBERS..]
    }
}

// Whether some byte is a carriage return.
fn has_returns(bytes: &[u8]) -> bool
    ensures { result ≡ list_any (λ byte. byte == 13) bytes.now }
{
    bytes.iter().any(|byte| *byte == b'\r')
}

// Whether a line feed is where page 1 has its type, and no byte is a carriage return.
fn lacks_returns(bytes: &[u8]) -> bool
    ensures { result ≡ lacks_returns bytes.now }
{
    if bytes.len() <= TYPE || bytes[TYPE] != b'\n' {
        return false;
    }
    !has_returns(bytes)
}

// Whether each line feed comes after a carriage return.
fn are_after_returns(bytes: &[u8]) -> bool
    ensures { IsTrue result ↔ AreAfterReturns bytes.now }
{
    let mut last = 0u8;
    for byte in bytes {
        if *byte == b'\n' && last != b'\r' {
            return false;
        }
        last = *byte;
    }
    true
}

// Whether there are some line feeds, each after a carriage return.
fn has_ends_of_lines(bytes: &[u8]) -> bool
    ensures { IsTrue result ↔ HasEndsOfLines bytes.now }
{
    let count = bytes.iter().filter(|byte| **byte == b'\n').count();
    count >= LINE_FEEDS && are_after_returns(bytes)
}

// Whether there are some bytes above 127, and all bytes are well-formed UTF-8; the last character may be cut.
fn has_letters(bytes: &[u8]) -> bool
    ensures { IsTrue result ↔ HasLetters bytes.now }
{
    let high = bytes.iter().filter(|byte| **byte > 127).count();
    high >= HIGH_BYTES && is_utf8_so_far(bytes)
}

// Whether the bytes begin a well-formed UTF-8 text: an error has no length where more bytes may follow.
fn is_utf8_so_far(bytes: &[u8]) -> bool
    ensures { IsTrue result ↔ IsUtf8SoFar bytes.now }
{
    match str::from_utf8(bytes) {
        Ok(_) => true,
        Err(error) => error.error_len().is_none(),
    }
}

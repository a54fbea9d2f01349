// Changes of the file, as the words of `--with` spell them.
ghost use Rattle.std.specs.Prelude.{◌≡◌, ◌<◌, ◌≤◌, ◌⊎◌, ◌+◌, ◌*◌, ℕ, List, [], ◌∷◌, ◌++◌, true, length, map, IfOk, IfErr, OnOk};
ghost use Rattle.std.specs.Char.{digit_value};
ghost use Rattle.std.specs.List.{AllZip, list_any};
ghost use Rattle.std.specs.Option.{SomeIff};
ghost use Rattle.dbsource.specs.Changes.{AreChanges, Change as change_type, IsChange, overlaps};
ghost use Rattle.dbcli.specs.Spelled.{SpellsBytes, SpellsChange, texts_in};

use arrayvec::ArrayVec;
use dbsource::{Change, ChangeError, Changes};
use thiserror::Error;

/// Why a word of `--with` is not taken.
#[derive(Clone, Copy, Debug, Error, PartialEq, Eq)]
pub enum SpellingError {
    /// There is no `=` between an offset and bytes.
    #[error("there is no '='")]
    NoEquals,
    /// The offset is no number of 64 bits.
    #[error("the offset is not a number from 0 to 18446744073709551615")]
    Offset,
    /// A digit has no other beside it.
    #[error("the last byte has one digit and not two")]
    OneDigit,
    /// There are more than 32 digits.
    #[error("there are more than 16 bytes")]
    TooLong,
    /// A byte has something else than digits.
    #[error("a byte is not two digits of 0 to 9 and a to f")]
    NoDigits,
    /// There is no digit.
    #[error("there are no bytes")]
    NoBytes,
    /// There are 16 others before it.
    #[error("it comes after 16 others, and no more are taken")]
    TooMany,
    /// Another one has a byte where it has one.
    #[error("it overlaps another one")]
    Overlaps,
}

/// A word that is not taken, and why.
#[derive(Clone, Copy)]
pub(crate) struct Misspelled<'a> {
    pub(crate) word: &'a str,
    pub(crate) error: SpellingError,
}

// Why a change is not taken that was spelled.
fn error_of(error: ChangeError) -> SpellingError {
    match error {
        ChangeError::NoBytes => SpellingError::NoBytes,
        ChangeError::TooLong => SpellingError::TooLong,
        ChangeError::Overlaps => SpellingError::Overlaps,
        ChangeError::TooMany => SpellingError::TooMany,
    }
}

// The byte of two digits.
fn byte_of(high: u8, low: u8) -> Option<u8>
    ensures { SomeIff result ((digit_value high < 16) × (digit_value low < 16)) (16 * digit_value high + digit_value low) }
{
    let high = (high as char).to_digit(16)?;
    let low = (low as char).to_digit(16)?;
    Some((16 * high + low) as u8)
}

// The bytes of some digits.
fn bytes_of(digits: &[u8]) -> Result<ArrayVec<u8, 16>, SpellingError>
    ensures given { IfOk result (λ bytes. SpellsBytes digits.now bytes.items) }
    ensures refused { IfErr result (λ error. (bytes : List ℕ) → length bytes ≤ 16 → SpellsBytes digits.now bytes → ⊥) }
{
    let count = digits.len() / 2;
    if count > 16 {
        return Err(SpellingError::TooLong);
    }
    let mut bytes = ArrayVec::new();
    for at in 0..count {
        match byte_of(digits[2 * at], digits[2 * at + 1]) {
            Some(byte) => bytes.push(byte),
            None => return Err(SpellingError::NoDigits),
        }
    }
    if count * 2 != digits.len() {
        return Err(SpellingError::OneDigit);
    }
    Ok(bytes)
}

// The change that a word spells.
fn change_of(word: &str) -> Result<Change, SpellingError>
    ensures given { IfOk result (SpellsChange word.now) }
    ensures refused { IfErr result (λ error. (c : change_type) → IsChange c → SpellsChange word.now c → ⊥) }
{
    let Some((offset, digits)) = word.split_once('=') else {
        return Err(SpellingError::NoEquals);
    };
    let Ok(offset) = offset.parse::<u64>() else {
        return Err(SpellingError::Offset);
    };
    let bytes = bytes_of(digits.as_bytes())?;
    match Change::new(offset, bytes.as_slice()) {
        Ok(change) => Ok(change),
        Err(error) => Err(error_of(error)),
    }
}

// Adds the change that a word spells.
fn add_spelled(changes: &mut Changes, word: &str) -> Result<(), SpellingError>
    ensures added { OnOk result ((c : change_type) × SpellsChange word.now c × (changes.new ≡ changes.old ++ c ∷ [])) }
    ensures refused { IfErr result (λ error. (c : change_type) → IsChange c → SpellsChange word.now c
        → (length changes.old ≡ 16) ⊎ (list_any (overlaps c) changes.old ≡ true)) }
{
    let change = change_of(word)?;
    match changes.add(change) {
        Ok(()) => Ok(()),
        Err(error) => Err(error_of(error)),
    }
}

// The changes that some words spell, in their order; or the first word that spells none, or whose change is not taken after those
// before it, and why.
fn changes_of<'a>(words: &[&'a str]) -> Result<Changes, Misspelled<'a>>
    ensures given { IfOk result (AllZip SpellsChange (map (λ word. word.now) words.now)) }
    ensures apart { IfOk result AreChanges }
    ensures refused { IfErr result (λ error. (changes : List change_type) → AreChanges changes
        → AllZip SpellsChange (map (λ word. word.now) words.now) changes → ⊥) }
{
    let mut changes = Changes::new();
    for word in words {
        if let Err(error) = add_spelled(&mut changes, word) {
            return Err(Misspelled { word, error });
        }
    }
    // A contract also says that no two overlap.
    let _known = changes.as_slice();
    Ok(changes)
}

/// The changes that some words spell, in their order, and none where there are no words.
///
/// # Errors
///
/// The first word that spells none, or whose change is not taken after those before it, and why.
pub(crate) fn changes_in<'a>(words: Option<&[&'a str]>) -> Result<Changes, Misspelled<'a>>
    ensures given { IfOk result (AllZip SpellsChange (texts_in words.entry)) }
    ensures apart { IfOk result AreChanges }
    ensures refused { IfErr result (λ error. (changes : List change_type) → AreChanges changes
        → AllZip SpellsChange (texts_in words.entry) changes → ⊥) }
{
    match words {
        Some(words) => changes_of(words),
        None => changes_of(&[]),
    }
}

// The command line of the program.
ghost use Rattle.std.specs.Prelude.{◌≡◌, ◌⊎◌, ℕ, List, [], Option, IfOk, IfErr, IfSome, IfNone, codes, map, not};
ghost use Rattle.clap.specs.Words.{Row, Text, fault_of, found_of, rows_of, subcommand_of, subcommand_rows_of};
ghost use Rattle.clap.specs.declared.error.kind.ErrorKind.TheVariants as error_kind;
ghost use Rattle.dbcli.specs.CommandLine.{dbck_app, name_of};
ghost use Rattle.dbcli.specs.CommandLine.{AreSpelled, AsksForNone, IsErrorIn, SpellsNone, change_texts};
ghost use Rattle.dbcli.specs.Spelled.{texts_in};
ghost use Rattle.dbsource.specs.Changes.{AreChanges};
ghost use Rattle.dbcli.specs.CommandLine.{AsksFor, HasFlags, HasLimit, IsErrorOf, IsFlag, IsInRow, IsLimit, IsLimitOf, IsNameOf, IsProgressOf};
ghost use Rattle.dbcli.specs.CommandLine.{IsRecoveredOf};
ghost use Rattle.dbcli.specs.declared.task.Task.{Task as task_type};

use crate::arguments::{MOST_CHANGED, MOST_EXPLAINED, MOST_SHOWN, dbck_command};
use crate::request::Request;
use crate::shown::{Shown, shown_words};
use crate::spelled::{Misspelled, SpellingError, changes_in};
use crate::task::Task;
use crate::words_error::WordsError;
use clap::ArgMatches;
use clap::error::ErrorKind;
use dbreport::Command;
use dbsource::{Changes, NoMemory};
use std::alloc::{AllocError, Global};
use std::path::Path;
use thiserror::Error;

/// What the words of a command line ask for.
#[derive(Drop)]
pub struct Line<'a> {
    /// What is to be done with the file.
    pub task: Task<'a>,
    /// The path of the file.
    pub file: &'a str,
    /// The changes with which the file is reported.
    pub changes: Changes,
    /// Whether its log is read too.
    pub recovered: bool,
    /// Whether progress is shown.
    pub progress: bool,
}

// The same, with the words in which the changes are given.
#[derive(Clone, Copy)]
struct Asked<'m, 'a> {
    task: Task<'a>,
    file: &'a str,
    changes: Option<&'m [&'a str]>,
    recovered: bool,
    progress: bool,
}

/// A word of `--with` that is not taken, as it is shown on one line, and why.
#[derive(Debug, Drop, Error)]
#[error("dbck: invalid value '{word}' for '--with <OFFSET=HEX>': {error}\n\nFor more information, try '--help'.")]
pub struct WithError {
    word: Shown,
    error: SpellingError,
}

/// Why a command line is not taken, or that it asks for help or the version.
#[derive(Debug, Drop, Error)]
pub enum LineError {
    /// What the parser of the words reports.
    #[error(transparent)]
    Words(WordsError),
    /// The limit passed the parser, but is no number in its range.
    #[error("dbck: the limit is not a number in its range")]
    Limit,
    /// The words spell no changes that are taken.
    #[error(transparent)]
    With(WithError),
    /// The word of this number is not UTF-8; number 0 is the program's name.
    #[error("dbck: word {0} of the command line is not UTF-8")]
    NotText(usize),
}

impl From<AllocError> for LineError {
    ghost use Rattle.std.specs.Prelude.{◌≡◌};
    ghost use Rattle.clap.specs.declared.error.kind.ErrorKind.TheVariants.{OutOfMemory};
    ghost use Rattle.dbcli.specs.declared.command_line.LineError.TheVariants.{Words};

    ghost from_gives = { λ _ error. error ≡ Words OutOfMemory };

    fn from(_error: AllocError) -> LineError {
        LineError::Words(WordsError::out_of_memory())
    }
}

impl From<NoMemory> for LineError {
    ghost use Rattle.std.specs.Prelude.{◌≡◌};
    ghost use Rattle.clap.specs.declared.error.kind.ErrorKind.TheVariants.{OutOfMemory};
    ghost use Rattle.dbcli.specs.declared.command_line.LineError.TheVariants.{Words};

    ghost from_gives = { λ _ error. error ≡ Words OutOfMemory };

    fn from(_error: NoMemory) -> LineError {
        LineError::Words(WordsError::out_of_memory())
    }
}

// The given limit, if it is from 1 to `most`.
fn limit_of(given: &ArgMatches<'_>, most: u32) -> Option<u32>
    ensures range { IfSome result (λ limit. IsLimit most limit) }
    ensures value { IfSome result (λ limit. IsInRow limit (rows_of (found_of given.now))) }
    ensures none { IfNone result ((limit : ℕ) → IsLimit most limit → IsInRow limit (rows_of (found_of given.now)) → ⊥) }
{
    let limit = given.get_one::<u32>("N")?;
    if limit < 1 || limit > most {
        return None;
    }
    Some(limit)
}

// The check that the words ask for.
fn check_of<'a>(given: &ArgMatches<'_>) -> Option<Task<'a>>
    ensures named { IfSome result (λ task. name_of task ≡ codes "check") }
    ensures limit { IfSome result HasLimit }
    ensures value { IfSome result (λ task. IsLimitOf task (rows_of (found_of given.now))) }
    ensures flags { IfSome result (λ task. HasFlags task (rows_of (found_of given.now))) }
    ensures title { (file : Text) → IfSome result (λ task. IsNameOf task file) }
    ensures none { IfNone result ((limit : ℕ) → IsLimit 1000000 limit → IsInRow limit (rows_of (found_of given.now)) → ⊥) }
{
    match limit_of(given, MOST_SHOWN) {
        Some(limit) => Some(Task::Run(Request::Report(Command::Check { limit }))),
        None => None,
    }
}

// The explanation that the words ask for.
fn explain_of<'a>(given: &ArgMatches<'_>) -> Option<Task<'a>>
    ensures named { IfSome result (λ task. name_of task ≡ codes "explain") }
    ensures limit { IfSome result HasLimit }
    ensures value { IfSome result (λ task. IsLimitOf task (rows_of (found_of given.now))) }
    ensures flags { IfSome result (λ task. HasFlags task (rows_of (found_of given.now))) }
    ensures title { (file : Text) → IfSome result (λ task. IsNameOf task file) }
    ensures none { IfNone result ((limit : ℕ) → IsLimit 10000 limit → IsInRow limit (rows_of (found_of given.now)) → ⊥) }
{
    match limit_of(given, MOST_EXPLAINED) {
        Some(limit) => Some(Task::Run(Request::Explain { limit })),
        None => None,
    }
}

// A picture of the file at this path, whose title is the last part of the path.
fn map_of<'a>(file: &'a str) -> Task<'a>
    ensures named { name_of result ≡ codes "map" }
    ensures title { IsNameOf result file.entry.now }
    ensures limit { HasLimit result }
    ensures value { (rows : List Row) → IsLimitOf result rows }
    ensures flags { (rows : List Row) → HasFlags result rows }
{
    let name = Path::new(file).file_name().unwrap_or(file);
    Task::Run(Request::Map { name })
}

// The mend that the words ask for.
fn mend_of<'a>(given: &ArgMatches<'_>) -> Option<Task<'a>>
    ensures named { IfSome result (λ task. name_of task ≡ codes "mend") }
    ensures limit { IfSome result HasLimit }
    ensures value { IfSome result (λ task. IsLimitOf task (rows_of (found_of given.now))) }
    ensures flags { IfSome result (λ task. HasFlags task (rows_of (found_of given.now))) }
    ensures title { (file : Text) → IfSome result (λ task. IsNameOf task file) }
    ensures none { IfNone result ((limit : ℕ) → IsLimit 16 limit → IsInRow limit (rows_of (found_of given.now)) → ⊥) }
{
    match limit_of(given, MOST_CHANGED) {
        Some(limit) => Some(Task::Mend { limit }),
        None => None,
    }
}

// The statistics that the words ask for.
fn stat_of<'a>(given: &ArgMatches<'_>) -> Task<'a>
    ensures named { name_of result ≡ codes "stat" }
    ensures limit { HasLimit result }
    ensures value { IsLimitOf result (rows_of (found_of given.now)) }
    ensures flags { HasFlags result (rows_of (found_of given.now)) }
    ensures title { (file : Text) → IsNameOf result file }
{
    Task::Run(Request::Report(Command::Stat {
        aggregate: given.get_flag("aggregate"),
        all: given.get_flag("all"),
    }))
}

// Whether progress is shown: it is unless a flag turns it off.
fn shows_progress(given: &ArgMatches<'_>) -> bool
    ensures { IsFlag (not result) (codes "no-progress") (rows_of (found_of given.now)) }
{
    !given.get_flag("no-progress")
}

// Whether the log of the file is read too.
fn is_recovered(given: &ArgMatches<'_>) -> bool
    ensures { IsFlag result (codes "recovered") (rows_of (found_of given.now)) }
{
    given.get_flag("recovered")
}

// What this subcommand asks for, of the file at this path.
fn task_of<'a>(name: &str, given: &ArgMatches<'_>, file: &'a str) -> Option<Task<'a>>
    ensures named { IfSome result (λ task. name.now ≡ name_of task) }
    ensures limit { IfSome result HasLimit }
    ensures value { IfSome result (λ task. IsLimitOf task (rows_of (found_of given.now))) }
    ensures none { IfNone result ((task : task_type) → HasLimit task → name.now ≡ name_of task
        → IsLimitOf task (rows_of (found_of given.now)) → ⊥) }
    ensures flags { IfSome result (λ task. HasFlags task (rows_of (found_of given.now))) }
    ensures title { IfSome result (λ task. IsNameOf task file.entry.now) }
{
    match name {
        "check" => check_of(given),
        "explain" => explain_of(given),
        "map" => Some(map_of(file)),
        "mend" => mend_of(given),
        "stat" => Some(stat_of(given)),
        _ => None,
    }
}

// What the subcommand that was parsed asks for, of its file.
fn asked_of<'m, 'a: 'm>(matches: &'m ArgMatches<'a>) -> Option<Asked<'m, 'a>>
    ensures asks { IfSome result (λ asked. AsksFor (subcommand_rows_of matches.now) asked.task asked.file.now) }
    ensures limit { IfSome result (λ asked. HasLimit asked.task) }
    ensures progress { IfSome result (λ asked. IsProgressOf asked.progress (subcommand_rows_of matches.now)) }
    ensures recovered { IfSome result (λ asked. IsRecoveredOf asked.recovered (subcommand_rows_of matches.now)) }
    ensures changes { IfSome result (λ asked. texts_in asked.changes ≡ change_texts (subcommand_rows_of matches.now)) }
    ensures none { IfNone result (AsksForNone (subcommand_rows_of matches.now)) }
{
    let (name, given) = matches.subcommand()?;
    let file = given.get_str("FILE")?;
    Some(Asked {
        task: task_of(name, given, file)?,
        file,
        changes: given.get_strs("OFFSET=HEX"),
        recovered: is_recovered(given),
        progress: shows_progress(given),
    })
}

// An error of this kind, of these words.
fn error_of(alloc: Global, kind: ErrorKind, words: &[&str]) -> LineError
    ensures { (result ≡ LineError.Words kind) ⊎ (result ≡ LineError.Words error_kind.OutOfMemory) }
{
    match shown_words(alloc, words) {
        Ok(shown) => LineError::Words(WordsError::new(alloc, kind, shown.as_slice())),
        Err(error) => LineError::from(error),
    }
}

// The error of a word that spells no change that is taken.
fn with_error(alloc: Global, misspelled: Misspelled<'_>) -> LineError
    ensures { (met : Option (Text × List Row)) → SpellsNone met → IsErrorIn result met }
{
    match Shown::of(alloc, misspelled.word) {
        Ok(word) => LineError::With(WithError {
            word,
            error: misspelled.error,
        }),
        Err(error) => LineError::from(error),
    }
}

// What the subcommand that was parsed asks for, of its file with its changes.
fn line_in<'a>(alloc: Global, matches: &ArgMatches<'a>) -> Result<Line<'a>, LineError>
    ensures asks { IfOk result (λ line. AsksFor (subcommand_rows_of matches.now) line.task line.file.now) }
    ensures limit { IfOk result (λ line. HasLimit line.task) }
    ensures progress { IfOk result (λ line. IsProgressOf line.progress (subcommand_rows_of matches.now)) }
    ensures recovered { IfOk result (λ line. IsRecoveredOf line.recovered (subcommand_rows_of matches.now)) }
    ensures changes { IfOk result (λ line. AreSpelled line.changes (subcommand_rows_of matches.now)) }
    ensures apart { IfOk result (λ line. AreChanges line.changes) }
    ensures refused { IfErr result (λ error. IsErrorIn error (subcommand_rows_of matches.now)) }
{
    let Some(asked) = asked_of(matches) else {
        return Err(LineError::Limit);
    };
    match changes_in(asked.changes) {
        Ok(changes) => Ok(Line {
            task: asked.task,
            file: asked.file,
            changes,
            recovered: asked.recovered,
            progress: asked.progress,
        }),
        Err(misspelled) => Err(with_error(alloc, misspelled)),
    }
}

/// What the words ask for. The first of them is the program's name.
///
/// # Errors
///
/// [`LineError::Words`] where they ask for help or the version, where they are no command line of the program, or for
/// want of memory; its kind says which. Its text has the words as they are shown on one line. [`LineError::Limit`] where
/// the parser took a limit that is out of range, and [`LineError::With`] where it took a word of `--with` that spells no
/// change, or one that is not taken beside others.
pub fn line_of<'a>(alloc: Global, words: &'a [&'a str]) -> Result<Line<'a>, LineError>
    ensures asks { IfOk result (λ line. AsksFor (subcommand_of dbck_app (map (λ word. word.now) words.entry.now)) line.task line.file.now) }
    ensures limit { IfOk result (λ line. HasLimit line.task) }
    ensures progress { IfOk result (λ line. IsProgressOf line.progress (subcommand_of dbck_app (map (λ word. word.now) words.entry.now))) }
    ensures recovered { IfOk result (λ line. IsRecoveredOf line.recovered (subcommand_of dbck_app (map (λ word. word.now) words.entry.now))) }
    ensures changes { IfOk result (λ line. AreSpelled line.changes (subcommand_of dbck_app (map (λ word. word.now) words.entry.now))) }
    ensures apart { IfOk result (λ line. AreChanges line.changes) }
    // Exactly the words in which the parser finds no fault are taken, and its fault is why others are not.
    ensures taken { IfOk result (λ line. fault_of dbck_app (map (λ word. word.now) words.entry.now) ≡ []) }
    ensures refused { IfErr result (λ error. IsErrorOf error (map (λ word. word.now) words.entry.now)) }
{
    let command = dbck_command(alloc)?;
    match command.try_get_matches_from(words) {
        Ok(matches) => line_in(alloc, &matches),
        Err(error) => Err(error_of(alloc, error.kind(), words)),
    }
}

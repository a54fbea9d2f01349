// The words that `clap` knows: the subcommands, and what each takes.
ghost use Rattle.std.specs.Prelude.{◌≡◌, ◌≤◌, IfOk, codes, false};
ghost use Rattle.clap.specs.Words.{App, app_of, new_app, rule_of, with_subcommand};
ghost use Rattle.clap.specs.declared.builder.command.Command.TheViews.{out-Command as fields_of};
ghost use Rattle.dbcli.specs.CommandLine.{dbck_app, check_app, explain_app, limited_app, map_app, mend_app, stat_app};
ghost use Rattle.dbcli.specs.CommandLine.{changes_rule, file_rule, flag_rule, limit_rule, with_file_rules};

use crate::help::{
    ABOUT, CHECK_ABOUT, CHECK_EXAMPLES, EXPLAIN_ABOUT, EXPLAIN_EXAMPLES, MAP_ABOUT, MAP_EXAMPLES,
    MEND_ABOUT, MEND_EXAMPLES, STAT_ABOUT, STAT_EXAMPLES, STATUSES,
};
use clap::{Arg, ArgAction, Command as Words, value_parser};
use std::alloc::{AllocError, Global};

/// The version of the program, which is stated only here.
const VERSION: &str = "0.2.0";

/// The most faults that `check` shows.
pub(crate) const MOST_SHOWN: u32 = 1000000;

/// The most injuries that `explain` shows.
pub(crate) const MOST_EXPLAINED: u32 = 10000;

/// The most changes that `mend` makes.
pub(crate) const MOST_CHANGED: u32 = 16;

fn file_arg<'a>(alloc: Global) -> Arg<'a>
    ensures rule { rule_of result ≡ file_rule }
    ensures local { result.global ≡ false }
{
    Arg::new(alloc, "FILE")
        .required(true)
        .help("The database file")
}

// The option `--limit N`, from 1 to `most`, and `usual` where it is not given.
fn limit_arg<'a>(alloc: Global, most: u32, usual: &'a str, help: &'a str) -> Arg<'a>
    requires { (1 ≤ most) × (most ≤ 1000000) }
    ensures rule { rule_of result ≡ limit_rule most usual.entry.now }
    ensures local { result.global ≡ false }
{
    Arg::new(alloc, "N")
        .long("limit")
        .value_parser(value_parser!(u32).range(1..i64::from(most) + 1))
        .default_value(usual)
        .help(help)
}

// A flag, by its name after two dashes.
fn flag_arg<'a>(alloc: Global, name: &'a str, help: &'a str) -> Arg<'a>
    ensures rule { rule_of result ≡ flag_rule name.entry.now }
    ensures local { result.global ≡ false }
{
    Arg::new(alloc, name)
        .long(name)
        .action(ArgAction::SetTrue)
        .help(help)
}

// The option `--with OFFSET=HEX`, which may be given more than once.
fn changes_arg<'a>(alloc: Global) -> Arg<'a>
    ensures rule { rule_of result ≡ changes_rule }
    ensures local { result.global ≡ false }
{
    let help = "Report FILE with these bytes at this offset, from 0; up to 16 times";
    Arg::new(alloc, "OFFSET=HEX")
        .long("with")
        .action(ArgAction::Append)
        .help(help)
}

fn recovered_arg<'a>(alloc: Global) -> Arg<'a>
    ensures rule { rule_of result ≡ flag_rule (codes "recovered") }
    ensures local { result.global ≡ false }
{
    let help = "Report FILE as SQLite would open it next, with its -journal and -wal";
    flag_arg(alloc, "recovered", help)
}

fn no_progress_arg<'a>(alloc: Global) -> Arg<'a>
    ensures rule { rule_of result ≡ flag_rule (codes "no-progress") }
    ensures local { result.global ≡ false }
{
    let help = "Show no progress where standard error is a terminal";
    flag_arg(alloc, "no-progress", help)
}

// A command of this name, with the texts at the top and at the end of its help.
fn described<'a>(alloc: Global, name: &'a str, about: &'a str, after: &'a str) -> Words<'a>
    ensures app { app_of result ≡ new_app name.entry.now }
    ensures local { (fields_of result).has_globals ≡ false }
{
    Words::new(alloc, name).about(about).after_help(after)
}

// The command with what each subcommand takes last: the log, the changes, the flag that turns progress off, and the file.
fn with_file<'a>(alloc: Global, command: Words<'a>) -> Result<Words<'a>, AllocError>
    ensures { (app : App) → app_of command.entry ≡ app → (fields_of command.entry).has_globals ≡ false
        → IfOk result (λ c. (app_of c ≡ with_file_rules app) × ((fields_of c).has_globals ≡ false)) }
{
    command
        .arg(recovered_arg(alloc))?
        .arg(changes_arg(alloc))?
        .arg(no_progress_arg(alloc))?
        .arg(file_arg(alloc))
}

// A subcommand of this name with a limit of at most `most`, and 100 where it is not given.
fn limited_command<'a>(
    alloc: Global,
    name: &'a str,
    most: u32,
    help: &'a str,
    about: &'a str,
    after: &'a str,
) -> Result<Words<'a>, AllocError>
    requires { (1 ≤ most) × (most ≤ 1000000) }
    ensures { IfOk result (λ c. (app_of c ≡ limited_app name.entry.now most) × ((fields_of c).has_globals ≡ false)) }
{
    let command = described(alloc, name, about, after).arg(limit_arg(alloc, most, "100", help))?;
    with_file(alloc, command)
}

fn check_command<'a>(alloc: Global) -> Result<Words<'a>, AllocError>
    ensures { IfOk result (λ c. (app_of c ≡ check_app) × ((fields_of c).has_globals ≡ false)) }
{
    let help = "The most fault lines to print, from 1 to 1000000";
    limited_command(
        alloc,
        "check",
        MOST_SHOWN,
        help,
        CHECK_ABOUT,
        CHECK_EXAMPLES,
    )
}

fn explain_command<'a>(alloc: Global) -> Result<Words<'a>, AllocError>
    ensures { IfOk result (λ c. (app_of c ≡ explain_app) × ((fields_of c).has_globals ≡ false)) }
{
    let help = "The most injuries to print, from 1 to 10000";
    limited_command(
        alloc,
        "explain",
        MOST_EXPLAINED,
        help,
        EXPLAIN_ABOUT,
        EXPLAIN_EXAMPLES,
    )
}

fn map_command<'a>(alloc: Global) -> Result<Words<'a>, AllocError>
    ensures { IfOk result (λ c. (app_of c ≡ map_app) × ((fields_of c).has_globals ≡ false)) }
{
    with_file(alloc, described(alloc, "map", MAP_ABOUT, MAP_EXAMPLES))
}

fn mend_command<'a>(alloc: Global) -> Result<Words<'a>, AllocError>
    ensures { IfOk result (λ c. (app_of c ≡ mend_app) × ((fields_of c).has_globals ≡ false)) }
{
    let help = "The most changes to find, from 1 to 16";
    let limit = limit_arg(alloc, MOST_CHANGED, "8", help);
    let command = described(alloc, "mend", MEND_ABOUT, MEND_EXAMPLES).arg(limit)?;
    with_file(alloc, command)
}

fn stat_command<'a>(alloc: Global) -> Result<Words<'a>, AllocError>
    ensures { IfOk result (λ c. (app_of c ≡ stat_app) × ((fields_of c).has_globals ≡ false)) }
{
    let aggregate = "One row for each tree, with the sums of its pages";
    let all = "Rows for the pages that are in no tree, too";
    let command = described(alloc, "stat", STAT_ABOUT, STAT_EXAMPLES)
        .arg(flag_arg(alloc, "aggregate", aggregate))?
        .arg(flag_arg(alloc, "all", all))?;
    with_file(alloc, command)
}

// The command with one more subcommand, if there was memory for that.
fn with_command<'a>(
    command: Words<'a>,
    made: Result<Words<'a>, AllocError>,
) -> Result<Words<'a>, AllocError>
    ensures { (app : App) → IfOk made.entry (λ c. (app_of c ≡ app) × ((fields_of c).has_globals ≡ false))
        → IfOk result (λ c. app_of c ≡ with_subcommand (app_of command.entry) app.top) }
{
    command.subcommand(made?)
}

/// The command `dbck`, with its subcommands.
pub(crate) fn dbck_command<'a>(alloc: Global) -> Result<Words<'a>, AllocError>
    ensures { IfOk result (λ c. app_of c ≡ dbck_app) }
{
    let command = described(alloc, "dbck", ABOUT, STATUSES)
        .version(VERSION)
        .subcommand_required(true);
    let command = with_command(command, check_command(alloc))?;
    let command = with_command(command, explain_command(alloc))?;
    let command = with_command(command, map_command(alloc))?;
    let command = with_command(command, mend_command(alloc))?;
    Ok(with_command(command, stat_command(alloc))?)
}

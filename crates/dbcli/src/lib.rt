//! What the program `dbck` does between its words and its exit status: it reads the command line, opens the file, runs
//! the request, and reports errors, notes and progress.
#![tactic(auto)]

mod arguments;
mod beside;
mod command_line;
mod copied;
mod error_lines;
mod finishing;
mod format;
mod help;
mod journal_notes;
mod line_out;
mod log;
mod log_notes;
mod logs;
mod lookup;
mod note;
mod notes;
mod opened_files;
mod opening;
mod progress;
mod request;
mod rest;
mod rolled;
mod running;
mod shown;
mod spelled;
mod stamp;
mod status;
mod task;
mod unread;
mod unwritten;
mod watched;
mod words;
mod words_error;

pub use command_line::{Line, LineError, WithError, line_of};
pub use dbreport::{Command, Verdict};
pub use dbsource::{Out, ReadFailed, RunError, Source};
pub use error_lines::error_line;
pub use finishing::{Notes, end, finish, hand_on, told_files_are_finished};
pub use line_out::LineOut;
pub use log::Log;
pub use lookup::Lookup;
pub use opening::{Opener, SystemFiles};
pub use progress::Progress;
pub use request::Request;
pub use running::{System, answer_words, report_error, run_line};
pub use spelled::SpellingError;
pub use status::{line_status, status_of};
pub use task::Task;
pub use unread::{FailedRead, FailedReads, Traced};
pub use unwritten::{FailedWrite, FailedWrites, Stream, StreamName};
pub use words::{texts_of, words_of};
pub use words_error::WordsError;

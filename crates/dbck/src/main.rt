//! `dbck`: checks the structure of a SQLite 3 database file.
#![tactic(auto)]

use dbcli::{
    FailedReads, FailedWrites, LineError, LineOut, Progress, Stream, StreamName, System,
    SystemFiles, answer_words, report_error, texts_of, words_of,
};
use dbsource::{BufferedOut, StreamOut};
use std::io::IsTerminal;
use std::process::ExitCode;

// Hands on the words, and the streams that are written to.
fn run(rt: &HostRuntime) -> Result<u8, LineError> {
    let words = words_of(rt)?;
    let texts = texts_of(rt.alloc(), words.as_slice())?;
    let is_terminal = rt.stderr().is_terminal();
    let progress = Progress::new(rt.stderr(), is_terminal);
    let writes = FailedWrites::shared(rt.alloc())?;
    let stdout = Stream::new(rt.stdout(), StreamName::Output, writes.clone()?);
    let stderr = Stream::new(rt.stderr(), StreamName::Error, writes.clone()?);
    let out = BufferedOut::new(rt.alloc(), stdout)?;
    let err = BufferedOut::new(rt.alloc(), stderr)?;
    let mut out = LineOut::new(out, rt.stdout().is_terminal(), &progress);
    let mut err = LineOut::new(err, is_terminal, &progress);
    let mut notes = LineOut::new(StreamOut::new(rt.stderr()), is_terminal, &progress);
    let reads = FailedReads::new();
    let files = SystemFiles::new(rt, &reads);
    let mut system = System::new(rt, &*writes, &reads, files);
    Ok(answer_words(
        &mut system,
        texts.as_slice(),
        &mut out,
        &mut err,
        &mut notes,
        &progress,
    ))
}

fn main(rt: HostRuntime) -> ExitCode {
    match run(&rt) {
        Ok(status) => ExitCode::from(status),
        Err(error) => ExitCode::from(report_error(&rt, &error)),
    }
}

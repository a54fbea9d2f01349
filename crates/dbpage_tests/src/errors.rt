// What a program shows that passes an error on by `?`.
use crate::Text;
use dbformat::{CellFault, HeadFault, RowFault};
use dbsource::memory::with_room;
use dbsource::{NoMemory, ReadFailed, Refusal, RunError, WriteFailed};
use std::alloc::Global;
use std::error::Error;
use std::fmt::Write;

fn pass_on<E: Error>(answer: Result<(), E>) -> anyhow::Result<()> {
    Ok(answer?)
}

fn show<E: Error>(error: E, text: &mut Text) -> Option<()> {
    match pass_on(Err(error)) {
        Ok(()) => None,
        Err(error) => write!(text, " {error}").ok(),
    }
}

/// Adds the text of an error.
pub(crate) fn add_error(alloc: Global, of: &str, text: &mut Text) -> Option<()> {
    let name = of.split(' ').next()?;
    match name {
        "ReadFailed" => show(ReadFailed, text),
        "WriteFailed" => show(WriteFailed, text),
        "NoMemory" => show(no_memory(alloc)?, text),
        "HeadFault::UnknownType" => show(HeadFault::UnknownType, text),
        "HeadFault::ContentStart" => show(HeadFault::ContentStart, text),
        "CellFault::Offset" => show(CellFault::Offset, text),
        "CellFault::Unreadable" => show(CellFault::Unreadable, text),
        "RowFault::Malformed" => show(RowFault::Malformed, text),
        "RowFault::Root(-1)" => show(RowFault::Root(-1), text),
        _ => show(run_error(alloc, name)?, text),
    }
}

// Want of memory: no machine has room for so much.
fn no_memory(alloc: Global) -> Option<NoMemory> {
    with_room::<u8, Global>(alloc, usize::MAX).err()
}

// An error of a run.
fn run_error(alloc: Global, name: &str) -> Option<RunError> {
    let refusal = match name {
        "Refusal::Short" => Refusal::Short,
        "Refusal::Magic" => Refusal::Magic,
        "Refusal::PageSize" => Refusal::PageSize,
        "Refusal::Usable" => Refusal::Usable,
        "Refusal::NoPage" => Refusal::NoPage,
        "Refusal::TooManyPages" => Refusal::TooManyPages,
        "Refusal::MapAtLock" => Refusal::MapAtLock,
        "RunError::ReadFailed" => return Some(RunError::ReadFailed),
        "RunError::OutOfMemory" => return Some(RunError::from(no_memory(alloc)?)),
        "RunError::WriteFailed" => return Some(RunError::WriteFailed),
        _ => return None,
    };
    Some(RunError::Refused(refusal))
}

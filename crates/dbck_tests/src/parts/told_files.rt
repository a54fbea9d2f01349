// What is proved of sources that tell their bytes.
use crate::runs::{check_of, found_of};
use crate::support::samples::file_of;
use crate::support::stops::holds;
use dbreport::{Verdict, told_files_are_run};
use dbsource::{MemSource, told_files_are_read};
use std::marker::Brand;
use std::test::Fail;

// What it says is proved; here it is called for a source over memory.
#[test]
fn told_files_are_run_from_memory(rt: HostRuntime) -> Result<(), Fail> {
    let file = file_of(rt.alloc(), "LongRow 3")?;
    let mut source = MemSource::new(file.as_slice());
    let found = found_of(rt.alloc(), check_of(100), &mut source);
    holds!(rt; found.answer == Ok(Verdict::Clean));
    told_files_are_read::<MemSource<'_>, Brand>();
    told_files_are_run::<MemSource<'_>>();
    Ok(())
}

// Runs of the program over files, and what is wanted of each.
use crate::fake_system::FakeSystem;
use crate::stops::holds;
use dbcli::{FailedReads, FailedWrites, Progress, System, SystemFiles, answer_words};
use dbsource::MemOut;
use std::alloc::{AllocError, Global};
use std::fs;
use std::process::Abort;
use std::test::Fail;

/// What is run, and what is wanted of it.
pub(crate) struct Case {
    /// The words after the program's name, with `|` between them.
    pub(crate) words: &'static str,
    /// The calls of the system.
    pub(crate) calls: &'static str,
    pub(crate) status: u8,
    /// What is put to the two outputs, and the notes.
    pub(crate) out: &'static str,
    pub(crate) err: &'static str,
    pub(crate) notes: &'static str,
    /// What is printed past the outputs begins so.
    pub(crate) printed: &'static str,
}

/// An empty database of one page.
pub(crate) fn empty_database(alloc: Global) -> Result<Vec<u8>, AllocError> {
    let mut file = Vec::from_elem(alloc, 0u8, 512)?;
    let parts: [(usize, &[u8]); 3] = [
        (0, b"SQLite format 3\0\x02\0\x01\x01\0\x40\x20\x20"),
        (100, b"\x0d"),
        (105, b"\x02"),
    ];
    for (at, bytes) in parts {
        for (to, from) in file.iter_mut().skip(at).zip(bytes) {
            *to = *from;
        }
    }
    Ok(file)
}

// What a run puts.
#[derive(Drop)]
struct Outs {
    out: MemOut,
    err: MemOut,
    notes: MemOut,
}

// Runs the program over a system, and answers its status.
fn status_of<'w>(system: &FakeSystem<'_>, words: &'w [&'w str], outs: &mut Outs) -> u8 {
    let progress = Progress::new(system, false);
    let writes = FailedWrites::new();
    let reads = FailedReads::new();
    let files = SystemFiles::new(system, &reads);
    let mut runner = System::new(system, &writes, &reads, files);
    answer_words(
        &mut runner,
        words,
        &mut outs.out,
        &mut outs.err,
        &mut outs.notes,
        &progress,
    )
}

// The words of a case, after the program's name.
fn words_of<'w>(alloc: Global, text: &'w str) -> Result<Vec<&'w str>, AllocError> {
    let mut words = Vec::new(alloc);
    words.push("dbck")?;
    for word in text.split('|') {
        words.push(word)?;
    }
    Ok(words)
}

// Whether a run put what is wanted.
fn is_put(outs: &Outs, case: &Case) -> bool {
    outs.out.bytes() == case.out.as_bytes()
        && outs.err.bytes() == case.err.as_bytes()
        && outs.notes.bytes() == case.notes.as_bytes()
}

/// Runs the program over the files, and stops where it does not do what is wanted.
pub(crate) fn run(rt: &HostRuntime, stop: &impl Abort, case: &Case) -> Result<(), Fail> {
    let system = FakeSystem::new(rt);
    let words = words_of(rt.alloc(), case.words)?;
    let mut outs = Outs {
        out: MemOut::new(rt.alloc()),
        err: MemOut::new(rt.alloc()),
        notes: MemOut::new(rt.alloc()),
    };
    let status = status_of(&system, words.as_slice(), &mut outs);
    let is_asked = system.has_calls(case.calls);
    let is_printed = system.has_printed(case.printed);
    holds!(*stop; status == case.status, case.words);
    holds!(*stop; is_asked, case.words);
    holds!(*stop; is_put(&outs, case), case.words);
    holds!(*stop; is_printed, case.words);
    Ok(())
}

/// Runs cases over files that are written before, and removed after: an empty database for each name, and other bytes.
pub(crate) fn run_over(
    rt: &HostRuntime,
    stop: &impl Abort,
    databases: &[&str],
    others: &[(&str, &[u8])],
    cases: &[Case],
) -> Result<(), Fail> {
    let database = empty_database(rt.alloc())?;
    for name in databases {
        fs::write(rt, *name, database.as_slice())?;
    }
    for (name, bytes) in others {
        fs::write(rt, *name, *bytes)?;
    }
    for case in cases {
        run(rt, stop, case)?;
    }
    for name in databases {
        fs::remove_file(rt, *name)?;
    }
    for (name, _) in others {
        fs::remove_file(rt, *name)?;
    }
    Ok(())
}

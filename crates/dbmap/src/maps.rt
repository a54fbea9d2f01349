// A map: from the bytes of a database to its picture.
ghost use Rattle.dbscan.specs.DeskSizes.{DeskFitsInMemory};
ghost use Rattle.dbreport.specs.Runs.{FailsOnce, IsUntouched};
ghost use Rattle.dbmap.specs.Maps.{HasMap, ToldFilesAreDrawn};

use crate::map_reporter::MapReporter;
use dbformat::Verdict;
use dbpicture::KeptFaults;
use dbreport::open_in;
use dbscan::run_over;
use dbsource::{Out, RunError, Source};
use std::alloc::Allocator;

/// Reads the database that `source` gives, and puts a picture of its pages to `out`, an SVG with `name` as the file's name. It
/// answers what was found, as a check does; no line of a fault is put. It reads what a check reads, and then each page to which nothing
/// refers, once, for what it looks like.
///
/// It keeps, beside what a check does, a [`KeptFaults`], whose memory is taken before the first page is read. All memory is from
/// `alloc`, which may be any allocator.
///
/// # Errors
///
/// [`RunError::Refused`] where the file is not read at all: then nothing but its header was asked for, and nothing was put.
/// [`RunError::ReadFailed`] where the source failed, [`RunError::OutOfMemory`] where a growth was refused, and
/// [`RunError::WriteFailed`] where the Out failed: it took a beginning of the picture then.
pub fn map<A: Allocator + Copy, S: Source, O: Out>(
    alloc: A,
    name: &str,
    source: &mut S,
    out: &mut O,
) -> Result<Verdict, RunError>
    // The desk fits in memory, as it does unless the allocator itself is nearly that large.
    requires fits { DeskFitsInMemory A.row A.Allocator }
    // Whatever the source answers: there is a file, of the length that it answered, that agrees with every byte that was used,
    // and of each such file the verdict is that on its faults, and its picture was put.
    ensures read { HasMap S.Source O.Out name.now result (source.old, out.old) (source.new, out.new) }
    ensures failed { FailsOnce S.Source O.Out result (source.old, out.old) (source.new, out.new) }
    ensures refused { IsUntouched S.Source O.Out result (source.old, out.old) (source.new, out.new) }
{
    let mut desk = open_in(alloc, source)?;
    let mut kept = KeptFaults::new_in(alloc, &desk.geometry())?;
    let mut reporter = MapReporter {
        name,
        kept: &mut kept,
        out,
    };
    run_over(&mut desk, source, &mut reporter)
}

/// What [`map`] says of each file that agrees with what was read is so of the bytes that a source tells, as memory does: the picture is
/// theirs, and `Clean` is the answer exactly where they are sound.
pub fn told_files_are_drawn<S: Source>()
    ensures { ToldFilesAreDrawn S.step S.lengths }
{}

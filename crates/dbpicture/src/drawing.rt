// The picture of a file, once all is known of it.
ghost use Rattle.std.specs.Prelude.{◌≡◌};
ghost use Rattle.dblines.specs.Writing.{PutsOf};
ghost use Rattle.dbpicture.specs.Keeping.{HasAll, noted_by};
ghost use Rattle.dbpicture.specs.Pictures.{map_picture, stated_of};

use crate::fault_notes::FaultNotes;
use crate::grid::{Grid, Outside};
use crate::kept::KeptFaults;
use crate::labels::Labels;
use crate::legend::{Legend, NotedPages};
use crate::listed::note_listing;
use crate::picture::{Heading, draw_picture};
use crate::shown::shown_file;
use crate::squares::Squares;
use dblines::Writer;
use dbscan::{Desk, TreeNames};
use dbsource::{Header, Out, WriteFailed};
use std::alloc::Allocator;

// The number of pages that the header states, where it counts.
fn stated_pages(header: &Header) -> u32
    ensures { result ≡ stated_of header.now.bytes }
{
    if header.is_size_valid() {
        header.stated_pages()
    } else {
        0
    }
}

// How many pages are one byte throughout, have each frame, and are outlined.
fn noted_pages<A: Allocator>(notes: &FaultNotes<A>, blank: u32, grid: &Grid) -> NotedPages
    ensures { result ≡ noted_by notes.now blank grid.now }
{
    let (strong, weak) = notes.framed();
    NotedPages {
        blank,
        strong,
        weak,
        outside: grid.missing(),
        are_after: grid.outside.are_after,
    }
}

/// Puts the picture of a file whose pages have been visited, and whose faults were noted.
///
/// # Errors
///
/// [`WriteFailed`] where the Out failed: it took a beginning of the picture.
pub fn put_map<A: Allocator, O: Out>(
    name: &str,
    desk: &Desk<A>,
    kept: &mut KeptFaults<A>,
    out: &mut O,
) -> Result<(), WriteFailed>
    ensures { PutsOf result (O.held out.old) (O.held out.new) (HasAll desk.now kept.old) (λ file V. map_picture file V name.now) }
{
    let geometry = desk.geometry();
    let header = desk.header();
    let marks = desk.marks();
    let roots = desk.roots();
    let blank = note_listing(&mut kept.notes, &kept.listing, geometry.pages);
    kept.tally.count(marks, &kept.trees);
    let largest = kept.tally.largest(roots.len() + 1);
    let names = TreeNames {
        encoding: header.encoding(),
        roots,
    };
    let outside = Outside::of(geometry, stated_pages(header), header.file_len());
    let grid = Grid::new(geometry.pages, outside);
    let labels = Labels::new(&names, largest.as_slice());
    let noted = noted_pages(&kept.notes, blank, &grid);
    let legend = Legend::new(&kept.tally, largest.as_slice(), roots, noted);
    let heading = Heading {
        file: shown_file(name),
        geometry,
        faults: kept.faults,
    };
    let squares = Squares {
        header,
        marks,
        trees: &kept.trees,
        blank: kept.listing.blank(),
        names,
        notes: &kept.notes,
        largest,
        grid,
        labels,
    };
    let mut writer = Writer::new(out);
    draw_picture(&mut writer, &heading, &squares, &legend);
    writer.end()
}

// The outlines of pages that only the header states, or only the file has.
ghost use Rattle.std.specs.Prelude.{◌≡◌, ◌-◌, ◌≤◌};
ghost use Rattle.std.specs.List.{flat_map, range_with_len};
ghost use Rattle.dblines.specs.Writing.{Wrote};
ghost use Rattle.dbpicture.specs.Grids.{missing_of};
ghost use Rattle.dbpicture.specs.Squares.{outline_pages, outline_text, outlines_text, outside_words};

use crate::frame::outline_tail;
use crate::grid::{Grid, Outside};
use crate::group::draw_group_pages;
use crate::pieces::{Piece, WritePieces};
use dblines::Writer;
use dbsource::Out;

// Why pages that are outlined have no square.
fn outside_words(outside: Outside) -> &'static str
    ensures { result.now ≡ outside_words outside }
{
    if outside.are_after {
        ": after the stated end"
    } else {
        ": not in the file"
    }
}

// Draws an outline.
fn draw_outline<O: Out>(writer: &mut Writer<'_, O>, grid: &Grid, place: u32)
    ensures { Wrote O.held writer.old (outline_text grid.now place) writer.new }
{
    writer.write_all(&[
        Piece::Markup("<rect x=\""),
        Piece::Number(grid.x_of(place) as u64),
        Piece::Markup(outline_tail(grid.width)),
    ]);
    draw_pages(writer, grid, place);
    writer.write_all(&[
        Piece::Markup(outside_words(grid.outside)),
        Piece::Markup("</title></rect>\n"),
    ]);
}

// Draws which pages an outline is of.
fn draw_pages<O: Out>(writer: &mut Writer<'_, O>, grid: &Grid, place: u32)
    ensures { Wrote O.held writer.old (outline_pages grid.now (missing_of grid.now place)) writer.new }
{
    let (first, last) = grid.missing_of(place);
    if grid.group == 1 {
        writer.write_all(&[Piece::Markup(" "), Piece::Number(first as u64)]);
    } else {
        draw_group_pages(writer, first, last);
    }
}

// Draws some outlines.
fn draw_places<O: Out>(writer: &mut Writer<'_, O>, grid: &Grid, first: u32, end: u32)
    requires { first ≤ end }
    ensures { Wrote O.held writer.old (flat_map (outline_text grid.now) (range_with_len first (end - first))) writer.new }
{
    for place in first..end {
        draw_outline(writer, grid, place);
    }
}

/// Draws the outlines of a row, if it has any.
pub(crate) fn draw_outlines<O: Out>(writer: &mut Writer<'_, O>, grid: &Grid, row: u32)
    ensures { Wrote O.held writer.old (outlines_text grid.now row) writer.new }
{
    let (first, end) = grid.places_of(row, grid.places());
    let first = first.max(grid.squares);
    if first < end {
        writer.write_all(&[Piece::Markup(
            "<g transform=\"translate(.5,.5)\" fill=\"#FFFFFF\" stroke=\"#AAAAAA\">\n",
        )]);
        draw_places(writer, grid, first, end);
        writer.write_all(&[Piece::Markup("</g>\n")]);
    }
}

// The picture as a whole.
ghost use Rattle.std.specs.Prelude.{◌≡◌};
ghost use Rattle.dblines.specs.Writing.{Wrote, WroteOf};
ghost use Rattle.dbpicture.specs.Keeping.{AreOf, drawn_by};
ghost use Rattle.dbpicture.specs.Pictures as pictures;
ghost use Rattle.dbpicture.specs.Pictures.{picture_text};

use crate::colours::{LATER_OVERFLOW, LATER_TREES, OTHERS, OVERFLOW, TREES};
use crate::grid::Grid;
use crate::legend::Legend;
use crate::pieces::{Piece, WritePieces};
use crate::shown::Shown;
use crate::size::size;
use crate::squares::{NAME_WIDTH, Squares};
use dblines::Writer;
use dbsource::{Geometry, Out};
use std::alloc::Allocator;

/// Where each row begins; its first page is written before it.
pub(crate) const LEFT: u64 = 72;

const WIDTH: u64 = 988;

/// What is said above the squares.
#[derive(Drop)]
pub(crate) struct Heading {
    /// The file's name.
    pub(crate) file: Shown,
    pub(crate) geometry: Geometry,
    pub(crate) faults: u64,
}

// Draws the patterns: the hatching of pages that are nobody's, and the thin cross of those that are one byte throughout.
fn draw_patterns<O: Out>(writer: &mut Writer<'_, O>)
    ensures { Wrote O.held writer.old pictures.patterns_text writer.new }
{
    writer.write_all(&[
        Piece::Markup(
            "</style>\n<defs><pattern id=\"unowned\" width=\"4\" height=\"4\" patternUnits=\"userSpaceOnUse\" patternTransform=\"rotate(45)\">",
        ),
        Piece::Markup(
            "<rect width=\"4\" height=\"4\" fill=\"#FFFFFF\"/><rect width=\"2\" height=\"4\" fill=\"#444444\"/></pattern>\n",
        ),
        Piece::Markup(
            "<pattern id=\"zeros\" width=\"1\" height=\"1\" patternContentUnits=\"objectBoundingBox\">",
        ),
        Piece::Markup(
            "<path d=\"M0 0h1v1h-1z\" fill=\"#FFFFFF\"/><path d=\"M0 0L1 1M1 0L0 1\" stroke=\"#888888\" stroke-width=\".06\"/></pattern></defs>\n",
        ),
    ]);
}

// Draws what begins the picture: its size, its accessible name, the colours and patterns, and a white background.
fn draw_head<O: Out>(writer: &mut Writer<'_, O>, file: &Shown, height: u64)
    ensures { Wrote O.held writer.old (pictures.head_text file.now height) writer.new }
{
    writer.write_all(&[
        Piece::Markup("<svg xmlns=\"http://www.w3.org/2000/svg\" width=\""),
        Piece::Number(WIDTH),
        Piece::Markup("\" height=\""),
        Piece::Number(height),
        Piece::Markup("\" viewBox=\"0 0 "),
        Piece::Number(WIDTH),
        Piece::Markup(" "),
        Piece::Number(height),
        Piece::Markup(
            "\" font-family=\"sans-serif\" font-size=\"12\" role=\"img\" aria-label=\"Pages of ",
        ),
    ]);
    writer.write_shown(file, NAME_WIDTH);
    writer.write_all(&[Piece::Markup("\">\n<title>Pages of ")]);
    writer.write_shown(file, NAME_WIDTH);
    writer.write_all(&[
        Piece::Markup("</title>\n<style>"),
        Piece::Markup(TREES),
        Piece::Markup(LATER_TREES),
        Piece::Markup(OVERFLOW),
        Piece::Markup(LATER_OVERFLOW),
        Piece::Markup(OTHERS),
    ]);
    draw_patterns(writer);
    writer.write_all(&[Piece::Markup("<rect width=\"100%\" height=\"100%\" fill=\"#FFFFFF\"/>\n")]);
}

// Draws how many faults there are.
fn draw_faults<O: Out>(writer: &mut Writer<'_, O>, faults: u64)
    ensures { Wrote O.held writer.old (pictures.fault_count_text faults) writer.new }
{
    match faults {
        0 => writer.write_all(&[Piece::Markup("no fault")]),
        1 => writer.write_all(&[Piece::Markup("1 fault")]),
        _ => writer.write_all(&[Piece::Number(faults), Piece::Markup(" faults")]),
    }
}

// What comes after the number of pages.
fn pages_word(pages: u32) -> &'static str
    ensures { result.now ≡ pictures.pages_word pages }
{
    if pages == 1 {
        " page of "
    } else {
        " pages of "
    }
}

// Draws how many pages there are, and of which size.
fn draw_size<O: Out>(writer: &mut Writer<'_, O>, geometry: Geometry)
    ensures { Wrote O.held writer.old (pictures.size_text geometry) writer.new }
{
    let (tenths, unit) = size(geometry.pages, geometry.page_size);
    writer.write_all(&[
        Piece::Number(geometry.pages as u64),
        Piece::Markup(pages_word(geometry.pages)),
        Piece::Number(geometry.page_size as u64),
        Piece::Markup(" bytes ("),
        Piece::Tenths(tenths),
        Piece::Markup(unit),
        Piece::Markup("), "),
    ]);
}

// Draws how many pages a square covers.
fn draw_unit<O: Out>(writer: &mut Writer<'_, O>, group: u32)
    ensures { Wrote O.held writer.old (pictures.unit_text group) writer.new }
{
    if group == 1 {
        writer.write_all(&[Piece::Markup(
            "; a square is a page, in the order of the file</text>\n",
        )]);
    } else {
        writer.write_all(&[
            Piece::Markup("; a square is "),
            Piece::Number(group as u64),
            Piece::Markup(" pages, in the order of the file</text>\n"),
        ]);
    }
}

// Draws the two lines above the squares.
fn draw_heading<O: Out>(writer: &mut Writer<'_, O>, heading: &Heading, group: u32)
    ensures { Wrote O.held writer.old (pictures.heading_text heading.now group) writer.new }
{
    writer.write_all(&[Piece::Markup(
        "<text x=\"20\" y=\"26\" font-size=\"16\" font-weight=\"bold\">",
    )]);
    writer.write_shown(&heading.file, NAME_WIDTH);
    writer.write_all(&[Piece::Markup("</text>\n<text x=\"20\" y=\"46\" fill=\"#444444\">")]);
    draw_size(writer, heading.geometry);
    draw_faults(writer, heading.faults);
    draw_unit(writer, group);
}

// Draws the first page of a row before it; where rows are narrow, of each second one.
fn draw_row_name<O: Out>(writer: &mut Writer<'_, O>, grid: &Grid, row: u32)
    ensures { Wrote O.held writer.old (pictures.row_label_text grid.now row) writer.new }
{
    if grid.side() > 10 || row % 2 == 0 {
        writer.write_all(&[
            Piece::Markup("<text x=\"64\" y=\""),
            Piece::Number(grid.top_of(row) + (grid.side() / 2 + 3) as u64),
            Piece::Markup("\">"),
            Piece::Number(grid.page_of_row(row)),
            Piece::Markup("</text>\n"),
        ]);
    }
}

// Draws the first pages of all rows.
fn draw_row_names<O: Out>(writer: &mut Writer<'_, O>, grid: &Grid)
    ensures { Wrote O.held writer.old (pictures.row_names grid.now) writer.new }
{
    writer.write_all(&[Piece::Markup(
        "<g font-size=\"10\" fill=\"#666666\" text-anchor=\"end\">\n",
    )]);
    for row in 0..grid.rows() {
        draw_row_name(writer, grid, row);
    }
    writer.write_all(&[Piece::Markup("</g>\n")]);
}

/// Draws the picture.
pub(crate) fn draw_picture<A: Allocator, O: Out>(
    writer: &mut Writer<'_, O>,
    heading: &Heading,
    squares: &Squares<'_, A>,
    legend: &Legend,
)
    ensures { WroteOf O.held writer.old (AreOf squares.now) (λ file V. picture_text heading.now (drawn_by squares.now V) legend.now.lines.items) writer.new }
{
    let grid = &squares.grid;
    let bottom = grid.top_of(grid.rows());
    let height = u64::from(legend.height());
    draw_head(writer, &heading.file, bottom + height);
    draw_heading(writer, heading, grid.group);
    draw_row_names(writer, grid);
    squares.draw(writer);
    legend.draw(writer, heading.geometry, &squares.labels, bottom);
    writer.write_all(&[Piece::Markup("</svg>\n")]);
}

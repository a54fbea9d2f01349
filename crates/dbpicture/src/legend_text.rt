// The texts of the legend: its columns, and a line for each owner of pages.
ghost use Rattle.std.specs.Prelude.{◌≡◌, ◌≤◌, length};
ghost use Rattle.dbpicture.specs.Pieces.{piece_text};
ghost use Rattle.dblines.specs.Writing.{Wrote};
ghost use Rattle.dbpicture.specs.Legends as legends;

use crate::colours::{MISSING, shade_letter};
use crate::labels::Labels;
use crate::legend::{LINE, Label, LegendLine, NAME_WIDTH};
use crate::owner_shares::{BLANK, FIXED, FREELIST, NOBODY, OTHER_TREES, Share};
use crate::pieces::{Piece, WritePieces};
use crate::size::size;
use dblines::Writer;
use dbsource::{Geometry, Out};

// Where the columns of numbers end.
const PAGES: u32 = 580;

const OVERFLOW: u32 = 710;

const SIZE: u32 = 790;

const SHARE: u32 = 860;

/// Draws the lines.
pub(crate) fn draw_lines<O: Out>(
    writer: &mut Writer<'_, O>,
    labels: &Labels,
    geometry: Geometry,
    lines: &[LegendLine],
)
    requires { length lines.now ≤ 20 }
    ensures { Wrote O.held writer.old (legends.lines_text labels.now.names.items geometry lines.now) writer.new }
{
    for (index, line) in lines.iter().enumerate() {
        draw_line(writer, labels, geometry, line, (index as u32 + 2) * LINE);
    }
}

// Draws a line: its swatch, what it is of, and the numbers.
fn draw_line<O: Out>(
    writer: &mut Writer<'_, O>,
    labels: &Labels,
    geometry: Geometry,
    line: &LegendLine,
    y: u32,
)
    ensures { Wrote O.held writer.old (legends.line_text labels.now.names.items geometry line.now y) writer.new }
{
    draw_swatch(writer, line.label, line.share, y);
    draw_label(writer, labels, line.label, y);
    draw_share(writer, line.share, geometry, y);
    draw_percent(writer, line, geometry.pages, y);
    writer.write_all(&[Piece::Markup("\n")]);
}

// Draws a text and what follows it, so that they end at x.
fn draw_right<O: Out>(writer: &mut Writer<'_, O>, x: u32, y: u32, text: Piece, end: &'static str)
    ensures { Wrote O.held writer.old (legends.right_text x y (piece_text text) end.now) writer.new }
{
    writer.write_all(&[
        Piece::Markup("<text x=\""),
        Piece::Number(x as u64),
        Piece::Markup("\" y=\""),
        Piece::Number(y as u64),
        Piece::Markup("\" text-anchor=\"end\">"),
        text,
        Piece::Markup(end),
        Piece::Markup("</text>"),
    ]);
}

/// Begins the legend, and draws the headings of its columns.
pub(crate) fn draw_columns<O: Out>(writer: &mut Writer<'_, O>, bottom: u64)
    ensures { Wrote O.held writer.old (legends.columns_text bottom) writer.new }
{
    writer.write_all(&[
        Piece::Markup("<g transform=\"translate(0 "),
        Piece::Number(bottom),
        Piece::Markup(")\">\n<g fill=\"#666666\">"),
    ]);
    draw_right(writer, PAGES, LINE, Piece::Markup("pages"), "");
    draw_right(
        writer,
        OVERFLOW,
        LINE,
        Piece::Markup("of them overflow"),
        "",
    );
    draw_right(writer, SIZE, LINE, Piece::Markup("size"), "");
    draw_right(writer, SHARE, LINE, Piece::Markup("%"), "");
    writer.write_all(&[Piece::Markup("</g>\n")]);
}

// Draws the number of pages of a line, of overflow pages among them, and the size of all.
fn draw_share<O: Out>(writer: &mut Writer<'_, O>, share: Share, geometry: Geometry, y: u32)
    ensures { Wrote O.held writer.old (legends.share_text share geometry.page_size y) writer.new }
{
    draw_right(writer, PAGES, y, Piece::Number(share.pages as u64), "");
    draw_overflow(writer, share.overflow, y);
    let (tenths, unit) = size(share.pages, geometry.page_size);
    draw_right(writer, SIZE, y, Piece::Tenths(tenths), unit);
}

// Draws the number of overflow pages, if there are any.
fn draw_overflow<O: Out>(writer: &mut Writer<'_, O>, pages: u32, y: u32)
    ensures { Wrote O.held writer.old (legends.overflow_text pages y) writer.new }
{
    if pages != 0 {
        draw_right(writer, OVERFLOW, y, Piece::Number(pages as u64), "");
    }
}

// Draws the share of all pages that a line has; those that are outlined are none of them.
fn draw_percent<O: Out>(writer: &mut Writer<'_, O>, line: &LegendLine, all: u32, y: u32)
    ensures { Wrote O.held writer.old (legends.percent_text line.now.label line.now.share.pages all y) writer.new }
{
    match line.label {
        Label::Missing | Label::After => {}
        _ => {
            let all = u64::from(all).max(1);
            let tenths = (u64::from(line.share.pages) * 2000 + all) / (2 * all);
            draw_right(writer, SHARE, y, Piece::Tenths(tenths), "");
        }
    }
}

// Draws a square of the legend, in the colour of the owner with a number, or in the shade of overflow pages.
fn draw_box<O: Out>(writer: &mut Writer<'_, O>, x: u32, y: u32, owner: usize, is_overflow: bool)
    ensures { Wrote O.held writer.old (legends.box_text x y owner is_overflow) writer.new }
{
    writer.write_all(&[
        Piece::Markup("<rect class=\""),
        Piece::Markup(shade_letter(is_overflow)),
        Piece::Number(owner as u64),
        Piece::Markup("\" x=\""),
        Piece::Number(x as u64),
        Piece::Markup("\" y=\""),
        Piece::Number(y as u64),
        Piece::Markup("\" width=\"12\" height=\"12\" stroke=\"#888888\" stroke-width=\".5\"/>"),
    ]);
}

// The number of the owner that a line is of, if it is of one.
fn owner_of(label: Label) -> Option<usize>
    ensures { result ≡ legends.label_owner label }
{
    match label {
        Label::Tree(rank, _) => Some(rank),
        Label::Others(_) => Some(OTHER_TREES),
        Label::Freelist => Some(FREELIST),
        Label::Fixed => Some(FIXED),
        Label::Nobody => Some(NOBODY),
        Label::Blank => Some(BLANK),
        Label::Missing | Label::After => Some(MISSING),
        Label::Strong | Label::Weak => None,
    }
}

// Draws the colour of a line, or its frame.
fn draw_swatch<O: Out>(writer: &mut Writer<'_, O>, label: Label, share: Share, y: u32)
    ensures { Wrote O.held writer.old (legends.swatch_text label share y) writer.new }
{
    match owner_of(label) {
        Some(owner) => {
            draw_shade(writer, owner, share.overflow, y);
            draw_box(writer, 72, y.saturating_sub(10), owner, false);
        }
        None => draw_frame(writer, label, y),
    }
}

// Draws the shade of an owner's overflow pages, if there are any.
fn draw_shade<O: Out>(writer: &mut Writer<'_, O>, owner: usize, overflow: u32, y: u32)
    ensures { Wrote O.held writer.old (legends.shade_text owner overflow y) writer.new }
{
    if overflow != 0 {
        draw_box(writer, 88, y.saturating_sub(10), owner, true);
    }
}

// How the frame of a line ends, as those of squares do: the strong one covers its edge, and the weak one lies around it.
fn frame_end(label: Label) -> &'static str
    ensures { result.now ≡ legends.frame_end label }
{
    match label {
        Label::Strong => "4\"/>",
        _ => "2\" paint-order=\"stroke\"/>",
    }
}

// Draws the frame of a line.
fn draw_frame<O: Out>(writer: &mut Writer<'_, O>, label: Label, y: u32)
    ensures { Wrote O.held writer.old (legends.legend_frame_text label y) writer.new }
{
    writer.write_all(&[
        Piece::Markup("<rect x=\"73\" y=\""),
        Piece::Number(y.saturating_sub(9) as u64),
        Piece::Markup(
            "\" width=\"10\" height=\"10\" fill=\"#FFFFFF\" stroke=\"#BE0700\" stroke-width=\"",
        ),
        Piece::Markup(frame_end(label)),
    ]);
}

// Draws the text of a line: what it is of.
fn draw_label<O: Out>(writer: &mut Writer<'_, O>, labels: &Labels, label: Label, y: u32)
    ensures { Wrote O.held writer.old (legends.label_text labels.now.names.items label y) writer.new }
{
    writer.write_all(&[
        Piece::Markup("<text x=\"108\" y=\""),
        Piece::Number(y as u64),
        Piece::Markup("\">"),
    ]);
    draw_subject(writer, labels, label);
    writer.write_all(&[Piece::Markup(words(label)), Piece::Markup("</text>")]);
}

// Draws the name of a tree and its root page, or how many other trees there are.
fn draw_subject<O: Out>(writer: &mut Writer<'_, O>, labels: &Labels, label: Label)
    ensures { Wrote O.held writer.old (legends.label_subject labels.now.names.items label) writer.new }
{
    match label {
        Label::Tree(rank, root) => {
            labels.draw(writer, rank, NAME_WIDTH);
            writer.write_all(&[Piece::Markup(" (root page "), Piece::Number(root as u64)]);
        }
        Label::Others(count) => writer.write_all(&[Piece::Number(count as u64)]),
        _ => {}
    }
}

// What comes after that.
fn words(label: Label) -> &'static str
    ensures { result.now ≡ legends.label_words label }
{
    match label {
        Label::Tree(_, _) => ")",
        Label::Others(1) => " other tree",
        Label::Others(_) => " other trees",
        Label::Freelist => "freelist",
        Label::Fixed => "pointer map and lock-byte page",
        Label::Nobody => "in no tree, overflow chain or freelist",
        Label::Blank => "one byte throughout",
        Label::Strong => "injuries that explain shows, what they name or go back to",
        Label::Weak => "other pages with a fault",
        Label::Missing => "stated in the header, not in the file",
        Label::After => "in the file, after the stated end",
    }
}

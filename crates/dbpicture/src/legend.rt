// The legend of the picture: which lines it has. Each is drawn in legend_text.rt.
ghost use Rattle.std.specs.Prelude.{◌≡◌, ◌+◌, ◌≤◌, ◌<◌, ◌++◌, length};
ghost use Rattle.dblines.specs.Writing.{Wrote};
ghost use Rattle.dbpicture.specs.Legends.{legend_lines, line_if};
ghost use Rattle.dbpicture.specs.Legends as legends;

use crate::labels::Labels;
use crate::legend_text::{draw_columns, draw_lines};
use crate::owner_shares::Share;
use crate::pieces::{Piece, WritePieces};
use crate::tally::PageTally;
use arrayvec::ArrayVec;
use dbformat::FREELIST_START;
use dblines::Writer;
use dbscan::RootList;
use dbsource::{Geometry, Out};
use std::alloc::Allocator;

/// The columns of a tree's name that are shown: of 56, ` (root page `, 8 digits and `)` take 21.
pub(crate) const NAME_WIDTH: u32 = 35;

/// The height of a line in pixels.
pub(crate) const LINE: u32 = 20;

/// What a line of the legend counts.
#[derive(Clone, Copy, Default)]
pub(crate) enum Label {
    /// A tree, by its rank, and its root page.
    Tree(usize, u32),
    /// This number of trees.
    Others(u32),
    Freelist,
    Fixed,
    #[default]
    Nobody,
    /// Pages that are one byte throughout.
    Blank,
    /// Pages that have the strong frame.
    Strong,
    /// Pages that have the weak one.
    Weak,
    /// Pages that the header states and the file does not have.
    Missing,
    /// Pages that the file has after the end that the header states.
    After,
}

/// A line, with the number of its pages.
#[derive(Clone, Copy, Default)]
pub(crate) struct LegendLine {
    pub(crate) label: Label,
    pub(crate) share: Share,
}

/// How many pages are one byte throughout, and have each frame, and how many are outlined, and whether these are in the file.
#[derive(Clone, Copy)]
pub(crate) struct NotedPages {
    pub(crate) blank: u32,
    pub(crate) strong: u32,
    pub(crate) weak: u32,
    pub(crate) outside: u32,
    pub(crate) are_after: bool,
}

/// The lines of the legend.
#[derive(Drop)]
pub(crate) struct Legend {
    lines: ArrayVec<LegendLine, 20>,
}

/// `pages` pages, none of them an overflow page.
pub(crate) fn no_overflow(pages: u32) -> Share
    ensures { result ≡ legends.no_overflow pages }
{
    Share { pages, overflow: 0 }
}

// What the line of the pages that are outlined counts.
fn outside_label(are_after: bool) -> Label
    ensures { result ≡ legends.outside_label are_after }
{
    if are_after {
        Label::After
    } else {
        Label::Missing
    }
}

impl Legend {
    /// The legend of a file whose pages were counted, of its largest trees, and of the pages that were noted.
    pub(crate) fn new<A: Allocator, B: Allocator>(
        tally: &PageTally<A>,
        largest: &[u32],
        roots: &RootList<B>,
        noted: NotedPages,
    ) -> Legend
        requires { length largest.now ≤ 12 }
        ensures { result.lines.items ≡ legend_lines roots.now.rows tally.now largest.now noted }
    {
        let mut legend = Legend {
            lines: ArrayVec::new(),
        };
        for rank in 0..largest.len() {
            let start = largest[rank];
            legend.add(
                Label::Tree(rank, roots.root_page(start)),
                tally.share(start),
            );
        }
        let (count, others) = tally.others(largest, roots.len() + 1);
        legend.add(Label::Others(count), others);
        legend.add(Label::Freelist, tally.share(FREELIST_START));
        legend.add(Label::Fixed, no_overflow(tally.fixed()));
        legend.add(Label::Nobody, no_overflow(tally.nobody()));
        legend.add(Label::Blank, no_overflow(noted.blank));
        legend.add(Label::Strong, no_overflow(noted.strong));
        legend.add(Label::Weak, no_overflow(noted.weak));
        legend.add(outside_label(noted.are_after), no_overflow(noted.outside));
        legend
    }

    // Adds a line, if there is a page of it.
    fn add(&mut self, label: Label, share: Share)
        requires { length self.old.lines.items < 20 }
        ensures line { self.new.lines.items ≡ self.old.lines.items ++ line_if label share }
        ensures room { length self.new.lines.items ≤ length self.old.lines.items + 1 }
    {
        if share.pages != 0 {
            self.lines.push(LegendLine { label, share });
        }
    }

    /// How many pixels it takes, with the room around it.
    pub(crate) fn height(&self) -> u32
        ensures { result ≡ legends.height self.now.lines.items }
    {
        self.lines.as_slice().len() as u32 * LINE + 40
    }

    /// Draws the legend, below the squares, which end at `bottom`.
    pub(crate) fn draw<O: Out>(
        &self,
        writer: &mut Writer<'_, O>,
        geometry: Geometry,
        labels: &Labels,
        bottom: u64,
    )
        ensures { Wrote O.held writer.old (legends.legend_text self.now.lines.items labels.now.names.items geometry bottom) writer.new }
    {
        draw_columns(writer, bottom);
        draw_lines(writer, labels, geometry, self.lines.as_slice());
        writer.write_all(&[Piece::Markup("</g>\n")]);
    }
}

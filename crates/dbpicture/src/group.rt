// The square of a group of pages.
ghost use Rattle.std.specs.Prelude.{◌≡◌, ◌<◌, ◌&&◌, not};
ghost use Rattle.dblines.specs.Writing.{Wrote};
ghost use Rattle.dbpicture.specs.Faults.{shown};
ghost use Rattle.dbpicture.specs.Marks.{group_pages_text};
ghost use Rattle.dbpicture.specs.Groups.{band_frame, band_text, bands_text, mixed_text, owner_mark, owner_text, owners_text, plain_text};
ghost use Rattle.dbpicture.specs.Groups.{group_pages, group_text, title_text, words};

use crate::bands::Bands;
use crate::colours::shade_letter;
use crate::faults::{Sign, SquareFaults};
use crate::frame::{BAND_FRAME, extent, stroke};
use crate::grid::Width;
use crate::labels::Labels;
use crate::owner_shares::{OWNERS, OwnerShares};
use crate::pieces::{Piece, WritePieces};
use crate::squares::NAME_WIDTH;
use dblines::Writer;
use dbsource::Out;

/// The square of a group of pages, the first to the last.
#[derive(Clone, Copy)]
pub(crate) struct GroupSquare {
    /// Where it begins in its row, in pixels.
    pub(crate) x: u32,
    pub(crate) first: u32,
    pub(crate) last: u32,
    pub(crate) shares: OwnerShares,
}

impl GroupSquare {
    // How many pages it has.
    fn pages(&self) -> u32
        ensures { result ≡ group_pages self.now }
    {
        self.last.saturating_sub(self.first).saturating_add(1)
    }

    /// Draws it: in one fill where all its pages have one owner, and else in bands.
    pub(crate) fn draw<O: Out>(
        &self,
        writer: &mut Writer<'_, O>,
        width: Width,
        labels: &Labels,
        faults: SquareFaults,
    )
        ensures { Wrote O.held writer.old (group_text self.now width labels.now.names.items (shown faults.bits)) writer.new }
    {
        let all = self.pages();
        let first = Bands::none().next(&self.shares, all);
        if self.shares.share(first).pages == all {
            self.draw_plain(writer, width, labels, faults, first);
        } else {
            self.draw_mixed(writer, labels, faults, &Bands::divide(&self.shares, all));
        }
    }

    // Draws the square of pages that all have the owner with this number.
    fn draw_plain<O: Out>(
        &self,
        writer: &mut Writer<'_, O>,
        width: Width,
        labels: &Labels,
        faults: SquareFaults,
        owner: usize,
    )
        requires { owner < 17 }
        ensures { Wrote O.held writer.old (plain_text self.now width labels.now.names.items (shown faults.bits) owner) writer.new }
    {
        let frame = faults.frame();
        writer.write_all(&[
            Piece::Markup("<rect class=\""),
            Piece::Markup(shade_letter(self.shares.share(owner).is_overflow())),
            Piece::Number(owner as u64),
            Piece::Markup("\" x=\""),
            Piece::Number(self.x as u64),
            Piece::Markup(extent(width, frame)),
            Piece::Markup(stroke(width, frame)),
            Piece::Markup("><title>page"),
        ]);
        self.draw_title(writer, labels, faults);
        writer.write_all(&[Piece::Markup("</title></rect>\n")]);
    }

    // Draws the square of pages of several owners, divided in bands. A weak frame lies below these, which cover its inner half, and a
    // strong one above them.
    fn draw_mixed<O: Out>(
        &self,
        writer: &mut Writer<'_, O>,
        labels: &Labels,
        faults: SquareFaults,
        bands: &Bands,
    )
        ensures { Wrote O.held writer.old (mixed_text self.now labels.now.names.items (shown faults.bits) bands.now) writer.new }
    {
        let strong = faults.shows(Sign::Framed);
        let faulty = faults.shows(Sign::Faulty);
        writer.write_all(&[Piece::Markup("<g><title>page")]);
        self.draw_title(writer, labels, faults);
        writer.write_all(&[Piece::Markup("</title>")]);
        self.draw_frame(writer, faulty & !strong);
        self.draw_bands(writer, bands);
        self.draw_frame(writer, strong);
        writer.write_all(&[Piece::Markup("</g>\n")]);
    }

    // Draws the frame of a square in bands, if it has this one.
    fn draw_frame<O: Out>(&self, writer: &mut Writer<'_, O>, is_framed: bool)
        ensures { Wrote O.held writer.old (band_frame is_framed self.now.x) writer.new }
    {
        if is_framed {
            writer.write_all(&[
                Piece::Markup(BAND_FRAME),
                Piece::Number(self.x as u64),
                Piece::Markup("\" fill=\"none\"/>"),
            ]);
        }
    }

    // Draws its bands, each owner's below those before it.
    fn draw_bands<O: Out>(&self, writer: &mut Writer<'_, O>, bands: &Bands)
        ensures { Wrote O.held writer.old (bands_text self.now bands.now) writer.new }
    {
        let mut top = 0u32;
        for number in 0..OWNERS {
            let height = bands.height(number);
            self.draw_band(writer, number, top, height);
            top = top.saturating_add(height);
        }
    }

    // Draws the band of an owner, if it has one.
    fn draw_band<O: Out>(&self, writer: &mut Writer<'_, O>, number: usize, top: u32, height: u32)
        requires { number < 17 }
        ensures { Wrote O.held writer.old (band_text self.now number top height) writer.new }
    {
        if height == 0 {
            return;
        }
        let is_overflow = self.shares.share(number).is_overflow();
        writer.write_all(&[
            Piece::Markup("<rect class=\""),
            Piece::Markup(shade_letter(is_overflow)),
            Piece::Number(number as u64),
            Piece::Markup("\" x=\""),
            Piece::Number(self.x as u64),
            Piece::Markup("\" y=\""),
            Piece::Number(top as u64),
            Piece::Markup("\" width=\"6\" height=\""),
            Piece::Number(height as u64),
            Piece::Markup("\"/>"),
        ]);
    }

    // Draws the title after its first word: its pages, the number of each owner's, and the codes of their faults.
    fn draw_title<O: Out>(&self, writer: &mut Writer<'_, O>, labels: &Labels, faults: SquareFaults)
        ensures { Wrote O.held writer.old (title_text self.now labels.now.names.items (shown faults.bits)) writer.new }
    {
        draw_group_pages(writer, self.first, self.last);
        self.draw_owners(writer, labels);
        faults.draw(writer);
    }

    // Draws the number of each owner's pages.
    fn draw_owners<O: Out>(&self, writer: &mut Writer<'_, O>, labels: &Labels)
        ensures { Wrote O.held writer.old (owners_text self.now.shares labels.now.names.items) writer.new }
    {
        let mut is_first = true;
        for number in 0..OWNERS {
            self.draw_owner(writer, labels, is_first, number);
            is_first = is_still_first(is_first, self.shares.has(number));
        }
    }

    // Draws the number of an owner's pages, and who it is, if it has any.
    fn draw_owner<O: Out>(
        &self,
        writer: &mut Writer<'_, O>,
        labels: &Labels,
        is_first: bool,
        number: usize,
    )
        requires { number < 17 }
        ensures { Wrote O.held writer.old (owner_text self.now.shares labels.now.names.items is_first number) writer.new }
    {
        if !self.shares.has(number) {
            return;
        }
        writer.write_all(&[
            Piece::Markup(owner_mark(is_first)),
            Piece::Number(self.shares.share(number).pages as u64),
            Piece::Markup(words(number)),
        ]);
        labels.draw(writer, number, NAME_WIDTH);
    }
}

/// Draws the pages of a group, after the word.
pub(crate) fn draw_group_pages<O: Out>(writer: &mut Writer<'_, O>, first: u32, last: u32)
    ensures { Wrote O.held writer.old (group_pages_text first last) writer.new }
{
    writer.write_all(&[
        Piece::Markup("s "),
        Piece::Number(first as u64),
        Piece::Markup(" to "),
        Piece::Number(last as u64),
    ]);
}

// Whether no owner has had a page, where none had before one that has or not.
fn is_still_first(is_first: bool, has: bool) -> bool
    ensures { result ≡ (is_first && not has) }
{
    is_first && !has
}

// What comes before the number of an owner's pages.
fn owner_mark(is_first: bool) -> &'static str
    ensures { result.now ≡ owner_mark is_first }
{
    if is_first { ": " } else { ", " }
}

// What comes after a number of pages of the owner with a number: for one of the largest trees, all but its name.
fn words(number: usize) -> &'static str
    ensures { result.now ≡ words number }
{
    match number {
        0..=11 => " in ",
        12 => " in other trees",
        13 => " in the freelist",
        14 => " of fixed use",
        15 => " in no tree",
        _ => " of one byte throughout",
    }
}

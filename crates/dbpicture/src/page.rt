// The square of a page.
ghost use Rattle.std.specs.Prelude.{◌≡◌, ◌≤◌, ◌<◌};
ghost use Rattle.dblines.specs.Writing.{Wrote};
ghost use Rattle.dbpicture.specs.Pieces.{piece_text};
ghost use Rattle.dbpicture.specs.Faults.{shown};
ghost use Rattle.dbpicture.specs.Squares.{bytes_words, from_text, page_text};

use crate::colours::shade_letter;
use crate::faults::{Sign, SquareFaults};
use crate::frame::{extent, inset, stroke};
use crate::grid::Width;
use crate::owner_shares::{is_lighter, shown_owner};
use crate::pieces::{Piece, WritePieces};
use crate::shown::Shown;
use crate::squares::NAME_WIDTH;
use dbformat::Fixed;
use dblines::Writer;
use dbscan::{Place, place_from, place_front, place_words};
use dbsource::Out;

/// The square of a page.
#[derive(Clone, Copy)]
pub(crate) struct PageSquare {
    /// Where its place in the row begins, in pixels.
    pub(crate) x: u32,
    pub(crate) page: u32,
    /// The number of its owner.
    pub(crate) owner: usize,
    pub(crate) place: Place,
    /// Its fixed use, if it has one.
    pub(crate) fixed: Option<Fixed>,
}

// The page that a page is reached from, where it is no root.
fn from_piece(place: Place) -> Piece
    ensures { piece_text result ≡ from_text place }
{
    match place_from(place) {
        Some(from) => Piece::Number(from as u64),
        None => Piece::Markup(""),
    }
}

// What its title says of its bytes.
fn bytes_words(faults: SquareFaults) -> &'static str
    ensures { result.now ≡ bytes_words (shown faults.bits) }
{
    if faults.shows(Sign::Zeros) {
        ", all zeros"
    } else if faults.shows(Sign::Blank) {
        ", one byte throughout"
    } else {
        ""
    }
}

impl PageSquare {
    /// Draws it, by the name of the tree that the page is in: its title says what the page is by its number, what comes before its
    /// tree, the tree, the page that it is reached from, the codes of its faults, and whether it is zeros, or one byte throughout.
    pub(crate) fn draw<O: Out>(
        &self,
        writer: &mut Writer<'_, O>,
        width: Width,
        tree: &Shown,
        faults: SquareFaults,
    )
        requires x { self.now.x ≤ 3556 }
        requires owner { self.now.owner < 16 }
        ensures { Wrote O.held writer.old (page_text self.now width tree.now (shown faults.bits)) writer.new }
    {
        let frame = faults.frame();
        let blank = faults.shows(Sign::Blank);
        writer.write_all(&[
            Piece::Markup("<rect class=\""),
            Piece::Markup(shade_letter(is_lighter(blank, self.place))),
            Piece::Number(shown_owner(blank, self.owner) as u64),
            Piece::Markup("\" x=\""),
            Piece::Number((self.x + inset(width, frame)) as u64),
            Piece::Markup(extent(width, frame)),
            Piece::Markup(stroke(width, frame)),
            Piece::Markup("><title>page "),
            Piece::Number(self.page as u64),
            Piece::Markup(": "),
            Piece::Markup(place_front(self.fixed, self.place)),
        ]);
        writer.write_shown(tree, NAME_WIDTH);
        writer.write_all(&[
            Piece::Markup(place_words(self.place)),
            from_piece(self.place),
        ]);
        faults.draw(writer);
        writer.write_all(&[
            Piece::Markup(bytes_words(faults)),
            Piece::Markup("</title></rect>\n"),
        ]);
    }
}

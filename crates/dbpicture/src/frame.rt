// The markup of squares, by their size and their frame.
ghost use Rattle.std.specs.Prelude.{◌≡◌, ◌≤◌};
ghost use Rattle.dbpicture.specs.Marks.{extent, inset, outline_tail, stroke};

use crate::grid::Width;

/// The frame of a square.
#[derive(Clone, Copy)]
pub(crate) enum Frame {
    /// No page has a fault, or is the cause of one that is listed.
    None,
    /// It lies around the square, a pixel wide: a page has a fault, and none is as below.
    Weak,
    /// It covers the edge of the square too: a page has a fault that is listed, or is the cause of one.
    Strong,
}

/// How far a square with this frame is moved in, in pixels. Its stroke lies half within.
pub(crate) fn inset(width: Width, frame: Frame) -> u32
    ensures inset { result ≡ inset width frame }
    ensures most { result ≤ 1 }
{
    match (width, frame) {
        (Width::Narrow, Frame::Strong) => 1,
        _ => 0,
    }
}

/// The markup of the size of a square, after its x coordinate.
pub(crate) fn extent(width: Width, frame: Frame) -> &'static str
    ensures { result.now ≡ extent width frame }
{
    match (width, frame) {
        (Width::Narrow, Frame::Strong) => "\" y=\"1\" width=\"25\" height=\"25\"",
        (Width::Narrow, _) => "\" width=\"27\" height=\"27\"",
        (Width::Medium, _) => "\" width=\"13\" height=\"13\"",
        (Width::Wide, _) => "\" width=\"6\" height=\"6\"",
    }
}

/// The markup of its frame, after that. With a weak frame the square is painted over the inner half of the stroke.
pub(crate) fn stroke(width: Width, frame: Frame) -> &'static str
    ensures { result.now ≡ stroke width frame }
{
    match (frame, width) {
        (Frame::None, _) => "",
        (Frame::Weak, _) => " stroke=\"#BE0700\" stroke-width=\"2\" paint-order=\"stroke\"",
        (Frame::Strong, Width::Narrow) => " stroke=\"#BE0700\" stroke-width=\"4\"",
        (Frame::Strong, _) => " stroke=\"#BE0700\" stroke-width=\"2\"",
    }
}

/// The markup of an outline after its x coordinate.
pub(crate) fn outline_tail(width: Width) -> &'static str
    ensures { result.now ≡ outline_tail width }
{
    match width {
        Width::Narrow => "\" width=\"26\" height=\"26\"><title>page",
        Width::Medium => "\" width=\"12\" height=\"12\"><title>page",
        Width::Wide => "\" width=\"5\" height=\"5\"><title>page",
    }
}

/// How the frame of a square in bands begins.
pub(crate) const BAND_FRAME: &str =
    "<rect width=\"6\" height=\"6\" stroke=\"#BE0700\" stroke-width=\"2\" x=\"";

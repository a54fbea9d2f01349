// What pages, and their squares, show of faults.
ghost use Rattle.std.specs.Prelude.{◌≡◌, ◌<◌, ◌==◌};
ghost use Rattle.std.specs.List.{flat_map};
ghost use Rattle.dbformat.specs.Codes.{all_codes};
ghost use Rattle.dblines.specs.Writing.{Wrote};
ghost use Rattle.dbpicture.specs.Faults.{code_if, faults_text, frame_of, shown, sign_added, sign_bit};

use crate::frame::Frame;
use crate::pieces::{Piece, WritePieces};
use dbformat::FaultCode;
use dblines::{Writer, code_text};
use dbsource::Out;

/// What a page may show of faults.
#[derive(Clone, Copy)]
pub(crate) enum Sign {
    /// A fault with this code.
    Code(FaultCode),
    /// A fault.
    Faulty,
    /// The strong frame.
    Framed,
    /// Zeros in all its usable bytes.
    Zeros,
    /// One byte in all of them, zero or another.
    Blank,
}

impl Sign {
    // Its bit.
    fn bit(self) -> usize
        ensures bit { result ≡ sign_bit self }
        ensures within { result < 64 }
    {
        match self {
            Sign::Code(code) => code.index(),
            Sign::Blank => 60,
            Sign::Zeros => 61,
            Sign::Faulty => 62,
            Sign::Framed => 63,
        }
    }

    /// Whether it is another.
    pub(crate) fn is(self, other: Sign) -> bool
        ensures { result ≡ (sign_bit self == sign_bit other) }
    {
        self.bit() == other.bit()
    }
}

/// What a square shows of faults: a bit for each sign that one of its pages has.
#[derive(Clone, Copy, Default)]
pub(crate) struct SquareFaults {
    pub(crate) bits: u64,
}

impl SquareFaults {
    /// Adds a sign.
    pub(crate) fn add(&mut self, sign: Sign)
        ensures { self.new ≡ sign_added sign self.old }
    {
        self.bits |= 1 << sign.bit();
    }

    /// Whether a page has this sign.
    pub(crate) fn shows(self, sign: Sign) -> bool
        ensures { result ≡ shown self.bits sign }
    {
        (self.bits >> sign.bit()) & 1 == 1
    }

    /// The frame of the square.
    pub(crate) fn frame(self) -> Frame
        ensures { result ≡ frame_of (shown self.bits) }
    {
        if self.shows(Sign::Framed) {
            Frame::Strong
        } else if self.shows(Sign::Faulty) {
            Frame::Weak
        } else {
            Frame::None
        }
    }

    // Draws a code after a space, if a fault has it.
    fn draw_code<O: Out>(self, writer: &mut Writer<'_, O>, code: FaultCode)
        ensures { Wrote O.held writer.old (code_if (shown self.bits) code) writer.new }
    {
        if self.shows(Sign::Code(code)) {
            writer.write_all(&[Piece::Markup(" "), Piece::Markup(code_text(code))]);
        }
    }

    // Draws the codes, each after a space.
    fn draw_codes<O: Out>(self, writer: &mut Writer<'_, O>)
        ensures { Wrote O.held writer.old (flat_map (code_if (shown self.bits)) all_codes) writer.new }
    {
        for code in FaultCode::all() {
            self.draw_code(writer, code);
        }
    }

    /// Draws the end of a title: the codes, if there is a fault.
    pub(crate) fn draw<O: Out>(self, writer: &mut Writer<'_, O>)
        ensures { Wrote O.held writer.old (faults_text (shown self.bits)) writer.new }
    {
        if self.shows(Sign::Faulty) {
            writer.write_all(&[Piece::Markup(", with")]);
            self.draw_codes(writer);
        }
    }
}

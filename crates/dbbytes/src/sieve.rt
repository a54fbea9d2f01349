// A row of the schema whose bytes come in pieces.
use crate::partial::PartialVarint;
use crate::record_header::{HeaderProgress, RecordHeader};
use crate::row::{MAX_NAME, SchemaRow, root_number, row_kind, row_name};
use crate::serial::{COLUMNS, body_lens};
use crate::window::Window;
use dbformat::{Encoding, RowFault};

// One byte more than the longest type has, `trigger` in UTF-16, so that a longer text is recognised as none of the types.
const KIND_KEPT: usize = 15;

// One byte more than a name may have.
const NAME_KEPT: usize = MAX_NAME + 1;

// An integer has eight bytes at most.
const ROOT_KEPT: usize = 8;

/// Reads a row of the schema piece by piece. It keeps the bytes of the row's type, of its root page and of its name,
/// and takes no memory beyond itself.
#[derive(Drop)]
pub struct RowSieve {
    encoding: Encoding,
    stage: Stage,
    kind: Window<KIND_KEPT>,
    name: Window<NAME_KEPT>,
    root: Window<ROOT_KEPT>,
}

// Where in the record the next byte is.
#[derive(Clone, Copy)]
pub(crate) enum Stage {
    // In the size of the header of a record of `size` bytes.
    HeaderSize { size: u32, number: PartialVarint },
    // In the serial types.
    SerialTypes { header: RecordHeader },
    // In the bodies of columns of these types, of which `left` bytes are still to come.
    Bodies { left: u32, types: [u64; COLUMNS] },
    // In what is no row, whatever follows.
    Malformed,
}

impl RowSieve {
    ghost use Rattle.std.specs.Prelude.{◌≡◌, ℕ, List, [], ◌++◌, length, ◌==◌};
    ghost use Rattle.dbformat.specs.SchemaRow.{schema_row};
    ghost use Rattle.dbformat.specs.declared.Encoding.{Encoding};
    ghost use Rattle.dbbytes.specs.Record.{body_values, progress_row, row_by};
    ghost use Rattle.dbbytes.specs.Row.{seen};
    ghost use Rattle.dbbytes.specs.Sieve.{HasTaken, row_after};

    /// A sieve for a row of `p` bytes, none of which has come.
    pub fn new(p: u32, encoding: Encoding) -> RowSieve
        ensures { HasTaken result p encoding [] }
    {
        RowSieve {
            encoding,
            stage: Stage::HeaderSize {
                size: p,
                number: PartialVarint::new(),
            },
            kind: Window::new(),
            name: Window::new(),
            root: Window::new(),
        }
    }

    /// Takes the next bytes of the row, which may be cut into pieces anywhere. More bytes than the row was to have make
    /// it malformed.
    pub fn feed(&mut self, piece: &[u8])
        ensures { (size : ℕ) (e : Encoding) (bytes : List ℕ) → HasTaken self.old size e bytes
            → HasTaken self.new size e (bytes ++ piece.now) }
    {
        for (i, byte) in piece.iter().enumerate() {
            match self.stage {
                Stage::HeaderSize { size, number } => self.enter(HeaderProgress::after_size_byte(
                    size, number, *byte,
                )),
                Stage::SerialTypes { header } => self.enter(header.push(*byte)),
                Stage::Bodies { left, types } => {
                    self.take_bodies(left, types, &piece[i..]);
                    return;
                }
                Stage::Malformed => return,
            }
        }
    }

    /// The row that the bytes so far spell.
    ///
    /// # Errors
    ///
    /// [`RowFault::Malformed`] where they are no record of five columns, or where fewer bytes came than the row was to
    /// have, or more; [`RowFault::Root`] where its type or its root page is wrong. It may be asked again, and after more
    /// bytes.
    pub fn finish(&self) -> Result<SchemaRow<'_>, RowFault>
        ensures { (size : ℕ) (e : Encoding) (bytes : List ℕ) → HasTaken self.now size e bytes
            → seen result ≡ schema_row bytes size e }
    {
        match self.stage {
            Stage::Bodies { left, types } => {
                if left > 0 {
                    return Err(RowFault::Malformed);
                }
                SchemaRow::checked(
                    row_kind(self.encoding, types[0], self.kind.bytes()),
                    root_number(types[3], self.root.bytes()),
                    row_name(self.encoding, types[1], self.name.bytes()),
                )
            }
            Stage::HeaderSize { .. } => Err(RowFault::Malformed),
            Stage::SerialTypes { .. } => Err(RowFault::Malformed),
            Stage::Malformed => Err(RowFault::Malformed),
        }
    }

    // Goes on with what follows the header.
    #[tactic(auto, unfolding(crate::specs::Sieve::row_after))]
    fn enter(&mut self, progress: HeaderProgress)
        ensures { (more : List ℕ) → row_after self.new more ≡ progress_row self.old.encoding progress more }
    {
        match progress {
            HeaderProgress::Size { size, number } => self.stage = Stage::HeaderSize {
                size,
                number,
            },
            HeaderProgress::Types { header } => self.stage = Stage::SerialTypes { header },
            HeaderProgress::Whole { types, bodies } => self.enter_bodies(types, bodies),
            HeaderProgress::Malformed => self.stage = Stage::Malformed,
        }
    }

    // Goes to the first of the bodies, which are of these types and `bodies` bytes in all.
    #[tactic(auto, unfolding(crate::specs::Sieve::row_after))]
    fn enter_bodies(&mut self, types: [u64; COLUMNS], bodies: u32)
        ensures { (more : List ℕ) → row_after self.new more
            ≡ row_by self.old.encoding (length more == bodies) (body_values types bodies more) }
    {
        match body_lens(&types, bodies) {
            Some(lens) => {
                self.kind.aim(0, lens[0]);
                self.name.aim(lens[0], lens[1]);
                self.root.aim(lens[0] + lens[1] + lens[2], lens[3]);
                self.stage = Stage::Bodies {
                    left: bodies,
                    types,
                };
            }
            None => self.stage = Stage::Malformed,
        }
    }

    // Takes the next bytes of the bodies.
    #[tactic(auto, unfolding(crate::specs::Sieve::row_after))]
    fn take_bodies(&mut self, left: u32, types: [u64; COLUMNS], piece: &[u8])
        requires { self.old.stage ≡ Stage.Bodies left types }
        ensures { (more : List ℕ) → row_after self.new more ≡ row_after self.old (piece.now ++ more) }
    {
        if piece.len() > left as usize {
            self.stage = Stage::Malformed;
            return;
        }
        self.kind.take(piece);
        self.name.take(piece);
        self.root.take(piece);
        self.stage = Stage::Bodies {
            left: left - piece.len() as u32,
            types,
        };
    }
}

// A row of the schema (Database File Format, 2.6).
ghost use Rattle.std.specs.Prelude.{◌≡◌, ◌≤◌, [], ◌∷◌, length};
ghost use Rattle.std.specs.Option.{option_copied};
ghost use Rattle.std.specs.Str.{bytes_eq};
ghost use Rattle.dbformat.specs.Record.{value_of};
ghost use Rattle.dbformat.specs.SchemaRow.{row_kind, root_number, row_name};
ghost use Rattle.dbformat.specs.Tests.{first_true};
ghost use Rattle.dbbytes.specs.Root.{fitting_root};

use crate::serial::is_text;
use crate::text::is_well_formed;
use byteorder::{BigEndian, ByteOrder};
use dbformat::{Encoding, RowFault, RowKind};

/// The most bytes that a stored name may have (own).
pub const MAX_NAME: usize = 1000;

/// What is kept of a row of the schema.
#[derive(Clone, Copy, PartialEq, Eq)]
pub struct SchemaRow<'a> {
    /// What the row describes: a table, an index, a view or a trigger.
    pub kind: RowKind,
    /// Its root page, or 0.
    pub root: u32,
    /// The stored bytes of its name. `None` where the name is no text, has more than 1000 bytes or is not
    /// well-formed in the file's encoding.
    pub name: Option<&'a [u8]>,
}

// The type that a text names, among the names of the four.
fn kind_among(
    text: &[u8],
    table: &[u8],
    index: &[u8],
    view: &[u8],
    trigger: &[u8],
) -> Option<RowKind>
    ensures { result ≡ first_true ((bytes_eq text.now table.now, RowKind.Table)
        ∷ (bytes_eq text.now index.now, RowKind.Index)
        ∷ (bytes_eq text.now view.now, RowKind.View)
        ∷ (bytes_eq text.now trigger.now, RowKind.Trigger) ∷ []) }
{
    if text == table {
        Some(RowKind::Table)
    } else if text == index {
        Some(RowKind::Index)
    } else if text == view {
        Some(RowKind::View)
    } else if text == trigger {
        Some(RowKind::Trigger)
    } else {
        None
    }
}

// The type that a column with this serial type and body gives.
pub(crate) fn row_kind(encoding: Encoding, serial_type: u64, body: &[u8]) -> Option<RowKind>
    ensures { result ≡ row_kind encoding (value_of serial_type body.now) }
{
    if !is_text(serial_type) {
        return None;
    }
    match encoding {
        Encoding::Utf8 => kind_among(body, b"table", b"index", b"view", b"trigger"),
        Encoding::Utf16le => kind_among(
            body,
            b"t\0a\0b\0l\0e\0",
            b"i\0n\0d\0e\0x\0",
            b"v\0i\0e\0w\0",
            b"t\0r\0i\0g\0g\0e\0r\0",
        ),
        Encoding::Utf16be => kind_among(
            body,
            b"\0t\0a\0b\0l\0e",
            b"\0i\0n\0d\0e\0x",
            b"\0v\0i\0e\0w",
            b"\0t\0r\0i\0g\0g\0e\0r",
        ),
    }
}

// The root page that it gives, where it is NULL or an integer. An integer of no bytes is 0.
pub(crate) fn root_number(serial_type: u64, body: &[u8]) -> Option<i64>
    requires { length body.now ≤ 8 }
    ensures { result ≡ root_number (value_of serial_type body.now) }
{
    match serial_type {
        0 | 8 => Some(0),
        9 => Some(1),
        1..=6 if body.is_empty() => Some(0),
        1..=6 => Some(BigEndian::read_int(body, body.len())),
        _ => None,
    }
}

// The name that it gives.
pub(crate) fn row_name(encoding: Encoding, serial_type: u64, body: &[u8]) -> Option<&[u8]>
    ensures { option_copied result ≡ row_name encoding (value_of serial_type body.now) }
{
    if is_text(serial_type) && body.len() <= MAX_NAME && is_well_formed(encoding, body) {
        Some(body)
    } else {
        None
    }
}

// The root page, where a row of this type may have it. 0 is none.
fn fitting_root(kind: RowKind, root: i64) -> Option<u32>
    ensures { result ≡ fitting_root kind root }
{
    let page = u32::try_from(root).ok()?;
    let fits = match kind {
        RowKind::Table => true,
        RowKind::Index => page > 0,
        RowKind::View | RowKind::Trigger => page == 0,
    };
    fits.then_some(page)
}

impl<'a> SchemaRow<'a> {
    ghost use Rattle.std.specs.Prelude.{◌≡◌};
    ghost use Rattle.std.specs.Option.{option_copied};
    ghost use Rattle.dbformat.specs.SchemaRow.{checked_row};
    ghost use Rattle.dbbytes.specs.Row.{seen};

    // The row of these columns.
    pub(crate) fn checked(
        kind: Option<RowKind>,
        root: Option<i64>,
        name: Option<&'a [u8]>,
    ) -> Result<SchemaRow<'a>, RowFault>
        ensures { seen result ≡ checked_row kind root (option_copied name.entry) }
    {
        let Some(kind) = kind else {
            return Err(RowFault::Root(root.unwrap_or(0)));
        };
        let Some(root) = root else {
            return Err(RowFault::Root(0));
        };
        match fitting_root(kind, root) {
            Some(root) => Ok(SchemaRow { kind, root, name }),
            None => Err(RowFault::Root(root)),
        }
    }
}

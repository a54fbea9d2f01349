// The note on bytes after the last page.
ghost use Rattle.std.specs.Prelude.{◌≡◌, ◌-◌, ◌*◌};
ghost use Rattle.dbcli.specs.NoteLines.{PutsIfRoom, said_line};
ghost use Rattle.dbcli.specs.Rest.{PutsRest, after_words, bytes_after, lead_words, read_words, rest_said, whole_words};

use crate::note::{NoteOut, Piece};
use crate::shown::Shown;
use dbsource::{Geometry, Out};

// What stands between the number of bytes and that of the last page.
fn after_words(rest: u64) -> &'static str
    ensures { result.now ≡ after_words rest }
{
    if rest == 1 {
        " byte after page "
    } else {
        " bytes after page "
    }
}

// That these bytes are not read.
fn read_words(rest: u64) -> &'static str
    ensures { result.now ≡ read_words rest }
{
    if rest == 1 {
        " is not read"
    } else {
        " are not read"
    }
}

// How the number of whole pages among them is followed.
fn whole_words(pages: u64) -> &'static str
    ensures { result.now ≡ whole_words pages }
{
    if pages == 1 {
        " whole page among them"
    } else {
        " whole pages among them"
    }
}

// How the number of references that lead to these is followed.
fn lead_words(references: u64) -> &'static str
    ensures { result.now ≡ lead_words references }
{
    if references == 1 {
        " reference leads"
    } else {
        " references lead"
    }
}

// Puts the note on the bytes after this page: how many they are, how many whole pages, and how many references lead to these, if some do.
fn put_counts<N: Out>(
    notes: &mut NoteOut<'_, N>,
    none: &Shown,
    rest: u64,
    page: u64,
    pages: u64,
    references: u64,
)
    ensures { PutsIfRoom (N.held notes.old.out.now) (N.held notes.new.out.now) (said_line none.now (rest_said rest page pages references)) }
{
    let after = Piece::Words(after_words(rest));
    let read = Piece::Words(read_words(rest));
    let (rest, page) = (Piece::Number(rest), Piece::Number(page));
    if pages == 0 {
        notes.put(none, &[rest, after, page, read]);
        return;
    }
    let whole = Piece::Words(whole_words(pages));
    let (comma, pages) = (Piece::Words(", "), Piece::Number(pages));
    if references == 0 {
        notes.put(none, &[rest, after, page, read, comma, pages, whole]);
        return;
    }
    let lead = Piece::Words(lead_words(references));
    let (which, references) = (Piece::Words(", to which "), Piece::Number(references));
    notes.put(
        none,
        &[
            rest, after, page, read, comma, pages, whole, which, references, lead,
        ],
    );
}

// How many bytes there are after the last page of a file of this length.
fn bytes_after(len: u64, geometry: Geometry) -> u64
    ensures { result ≡ bytes_after len geometry }
{
    len.saturating_sub(u64::from(geometry.pages) * u64::from(geometry.page_size))
}

/// Puts the note on the bytes after the last page of a file of this length, if there are some: how many, and how many whole pages
/// these are. This many references are said to lead to these, if some do.
pub(crate) fn put_rest<N: Out>(
    notes: &mut NoteOut<'_, N>,
    none: &Shown,
    len: u64,
    geometry: Geometry,
    references: u64,
)
    ensures { PutsRest (N.held notes.old.out.now) (N.held notes.new.out.now) none.now len geometry references }
{
    let rest = bytes_after(len, geometry);
    if rest == 0 {
        return;
    }
    let pages = rest.checked_div(u64::from(geometry.page_size)).unwrap_or(0);
    put_counts(
        notes,
        none,
        rest,
        u64::from(geometry.pages),
        pages,
        references,
    );
}

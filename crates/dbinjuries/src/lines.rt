// The lines of an injury below its fault line: its cause, and the faults that belong to it.
ghost use Rattle.arrayvec.specs.ArrayVec.{array_vec_len};
ghost use Rattle.std.specs.Prelude.{◌≡◌, ◌+◌, ◌≤◌, [], ◌++◌, length, if◌then◌else◌};
ghost use Rattle.std.specs.Fmt.{signed_decimal};
ghost use Rattle.std.specs.Option.{option_map_or};
ghost use Rattle.dblines.specs.Writing.{Wrote};
ghost use Rattle.dbinjuries.specs.Lines.{blank_text, broken_chain_text, cause_text, first_bytes_text, key_text, leaf_text, look_text};
ghost use Rattle.dbinjuries.specs.Lines.{named_text, number_text, page_kind_text, rowid_text, rowids_text, tree_look_text};

use arrayvec::ArrayVec;
use dbformat::{Look, PageKind, Rowids, TreeLook, hex_byte};
use dblines::{Writer, append, append_first_bytes, append_number};
use dbsource::Out;
use dbtrace::{Cause, CellChain, CellKey, NamedPages};
use itoa::Buffer;

/// Adds a number with its sign.
pub fn append_signed<const CAP: usize>(line: &mut ArrayVec<u8, CAP>, number: i64)
    requires { array_vec_len line.old + 20 ≤ CAP }
    ensures text { line.new.items ≡ line.old.items ++ signed_decimal number }
    ensures short { array_vec_len line.new ≤ array_vec_len line.old + 20 }
{
    let mut buffer = Buffer::new();
    append(line, buffer.format(number));
}

/// Adds a number of things, of which there may be one.
pub fn append_count<const CAP: usize>(
    line: &mut ArrayVec<u8, CAP>,
    count: u64,
    one: &str,
    more: &str,
)
    requires one { array_vec_len line.old + 20 + length one.now ≤ CAP }
    requires more { array_vec_len line.old + 20 + length more.now ≤ CAP }
    ensures text { line.new.items ≡ line.old.items ++ number_text count one.now more.now }
    ensures short { array_vec_len line.new ≤ array_vec_len line.old + 20 + length one.now + length more.now }
{
    append_number(line, count);
    append(line, if count == 1 { one } else { more });
}

fn key_text(key: CellKey) -> ArrayVec<u8, 128>
    ensures { result.items ≡ key_text key }
{
    let mut line = ArrayVec::new();
    append(&mut line, "    not above key ");
    append_signed(&mut line, key.value);
    append(&mut line, " of page ");
    append_number(&mut line, u64::from(key.page));
    append(&mut line, " item ");
    append_number(&mut line, u64::from(key.item));
    append(&mut line, "\n");
    line
}

fn leaf_text(page: u32) -> ArrayVec<u8, 64>
    ensures { result.items ≡ leaf_text page }
{
    let mut line = ArrayVec::new();
    append(&mut line, "    the first leaf of the tree is page ");
    append_number(&mut line, u64::from(page));
    append(&mut line, "\n");
    line
}

// Adds the rowid of a cell, if it is known.
fn append_rowid<const CAP: usize>(line: &mut ArrayVec<u8, CAP>, rowid: Option<i64>)
    requires { array_vec_len line.old + 28 ≤ CAP }
    ensures text { line.new.items ≡ line.old.items ++ option_map_or rowid_text rowid [] }
    ensures short { array_vec_len line.new ≤ array_vec_len line.old + 28 }
{
    if let Some(rowid) = rowid {
        append(line, ", rowid ");
        append_signed(line, rowid);
    }
}

// Adds the line of a page of zeros, if it is one.
fn append_zeros<const CAP: usize>(line: &mut ArrayVec<u8, CAP>, is_zeros: bool)
    requires { array_vec_len line.old + 32 ≤ CAP }
    ensures { line.new.items ≡ line.old.items ++ (if is_zeros then blank_text 0 else []) }
{
    if is_zeros {
        let _ = line.try_extend_from_slice(blank_text(0).as_slice());
    }
}

fn chain_text(chain: CellChain) -> ArrayVec<u8, 192>
    ensures { result.items ≡ broken_chain_text chain }
{
    let mut line = ArrayVec::new();
    append(&mut line, "    chain of page ");
    append_number(&mut line, u64::from(chain.page));
    append(&mut line, " item ");
    append_number(&mut line, u64::from(chain.item));
    append_rowid(&mut line, chain.rowid);
    append(&mut line, ": ");
    append_number(&mut line, u64::from(chain.found));
    append(&mut line, " of ");
    append_count(&mut line, u64::from(chain.pages), " page", " pages");
    append(&mut line, "\n");
    append_zeros(&mut line, chain.seen.are_zeros);
    line
}

fn page_kind_text(kind: PageKind) -> &'static str
    ensures text { result.now ≡ page_kind_text kind }
    ensures short { length result.now ≤ 28 }
{
    match kind {
        PageKind::LeafTable => "a leaf of a table",
        PageKind::InteriorTable => "an interior page of a table",
        PageKind::LeafIndex => "a leaf of an index",
        PageKind::InteriorIndex => "an interior page of an index",
    }
}

// Adds the first and the last rowid, if they are known.
fn append_rowids<const CAP: usize>(line: &mut ArrayVec<u8, CAP>, rowids: Option<Rowids>)
    requires { array_vec_len line.old + 53 ≤ CAP }
    ensures text { line.new.items ≡ line.old.items ++ option_map_or rowids_text rowids [] }
    ensures short { array_vec_len line.new ≤ array_vec_len line.old + 53 }
{
    if let Some(rowids) = rowids {
        append(line, ", rowids ");
        append_signed(line, rowids.first);
        append(line, " to ");
        append_signed(line, rowids.last);
    }
}

// Adds how many of the pages that a lost interior page names are lost too, if it is one.
fn append_named<const CAP: usize>(line: &mut ArrayVec<u8, CAP>, named: Option<NamedPages>)
    requires { array_vec_len line.old + 114 ≤ CAP }
    ensures text { line.new.items ≡ line.old.items ++ option_map_or named_text named [] }
    ensures short { array_vec_len line.new ≤ array_vec_len line.old + 114 }
{
    if let Some(named) = named {
        append(line, "; ");
        append_number(line, u64::from(named.lost));
        append(line, " of the ");
        append_count(
            line,
            u64::from(named.pages),
            " page that it names is lost too",
            " pages that it names are lost too",
        );
    }
}

fn tree_look_text(look: TreeLook, named: Option<NamedPages>) -> ArrayVec<u8, 256>
    ensures { result.items ≡ tree_look_text look named }
{
    let mut line = ArrayVec::new();
    append(&mut line, "    looks like ");
    append(&mut line, page_kind_text(look.kind));
    append(&mut line, " with ");
    append_count(&mut line, u64::from(look.cells), " cell", " cells");
    append_rowids(&mut line, look.rowids);
    append_named(&mut line, named);
    append(&mut line, "\n");
    line
}

fn blank_text(byte: u8) -> ArrayVec<u8, 32>
    ensures { result.items ≡ blank_text byte }
{
    let mut line = ArrayVec::new();
    append(&mut line, "    all ");
    if byte == 0 {
        append(&mut line, "zeros");
    } else {
        append(&mut line, "bytes ");
        let _ = line.try_extend_from_slice(&hex_byte(byte));
    }
    append(&mut line, "\n");
    line
}

// The line of the first bytes of a page.
fn first_bytes_text(first: [u8; 16]) -> ArrayVec<u8, 128>
    ensures { result.items ≡ first_bytes_text first }
{
    let mut line = ArrayVec::new();
    append(&mut line, "    ");
    append_first_bytes(&mut line, &first);
    append(&mut line, "\n");
    line
}

// Writes what a page looks like.
fn put_look<O: Out>(writer: &mut Writer<'_, O>, look: Look, named: Option<NamedPages>)
    ensures { Wrote O.held writer.old (look_text look named) writer.new }
{
    match look {
        Look::Blank(byte) => writer.put(blank_text(byte).as_slice()),
        Look::Tree(look) => writer.put(tree_look_text(look, named).as_slice()),
        Look::Other(first) => writer.put(first_bytes_text(first).as_slice()),
    }
}

/// Writes what a fault goes back to, if that is not its own place: one line.
pub fn put_cause<O: Out>(writer: &mut Writer<'_, O>, cause: &Cause)
    ensures { Wrote O.held writer.old (cause_text cause.now) writer.new }
{
    match *cause {
        Cause::Itself | Cause::Rows(_) | Cause::Page(_, _) => {}
        Cause::Key(key, _) => writer.put(key_text(key).as_slice()),
        Cause::Leaf(page, _) => writer.put(leaf_text(page).as_slice()),
        Cause::Chain(chain) => writer.put(chain_text(chain).as_slice()),
        Cause::Look(look, facts) => put_look(writer, look, facts.named),
    }
}

// The walks of a run, start after start.
ghost use Rattle.std.specs.Prelude.{◌≡◌, ◌↔◌, ◌≤◌, ◌+◌, ◌-◌, List, [], Some, false};
ghost use Rattle.std.specs.List.{enumerate_from};
ghost use Rattle.dbformat.specs.Address.{schema_start};
ghost use Rattle.dbformat.specs.Reference.{Reference};
ghost use Rattle.dbformat.specs.Survey.{Survey};
ghost use Rattle.dbwalk.specs.Rows.{schema_row_of};
ghost use Rattle.dbwalk.specs.declared.root.RootKind.TheVariants as root_kind;
ghost use Rattle.dbscan.specs.Desks.{AsksOver, IsFresh};
ghost use Rattle.dbscan.specs.Kept.{KeepsHeader, KeepsRoots};
ghost use Rattle.dbscan.specs.Starts.{at_freelist, kind_by, root_of, root_of_schema};
ghost use Rattle.dbscan.specs.Walks.{AreReported, IsSchemaWalked, IsBetweenStarts, StopsReporting};

use crate::Desk;
use crate::no_rows::NoRows;
use crate::notifier::Notifier;
use crate::reporter::Reporter;
use crate::start::Start;
use dbbytes::SchemaRow;
use dbformat::{Encoding, RowKind};
use dbsource::{RunError, Source};
use dbwalk::{Root, RootKind, walk_freelist, walk_tree};
use std::alloc::Allocator;

// The root of the schema.
fn schema_root(encoding: Encoding) -> Root
    ensures { result ≡ root_of_schema encoding }
{
    Root {
        start: 0,
        page: 1,
        kind: RootKind::Schema,
        encoding,
    }
}

// How a row names the kind of its tree.
fn kind_by(kind: RowKind) -> RootKind
    ensures { result ≡ kind_by kind }
{
    match kind {
        RowKind::Index => RootKind::Index,
        _ => RootKind::Own,
    }
}

// The root that a row of the list names, which is not the schema's.
#[tactic(auto, using(crate::proofs::Starts::no_schema_kind))]
fn root_of(row: &SchemaRow<'_>, start: u32, encoding: Encoding) -> Root
    requires { 1 ≤ start }
    ensures root { result ≡ root_of encoding start (schema_row_of row.now) }
    ensures own { (result.kind ≡ root_kind.Schema) ↔ (result.start ≡ schema_start) }
{
    Root {
        start,
        page: row.root,
        kind: kind_by(row.kind),
        encoding,
    }
}

// Walks over the schema's tree, to its end. The list takes its rows. It answers whether there are any.
pub(crate) fn walk_schema<A: Allocator, S: Source, K: Reporter>(
    desk: &mut Desk<A>,
    source: &mut S,
    reporter: &mut K,
) -> Result<bool, RunError>
    requires fresh { IsFresh desk.old }
    requires open { (K.held reporter.old).is_shut ≡ false }
    ensures asks { AsksOver S.step desk.old desk.new (λ file.
        IsSchemaWalked K.receives file result desk.new.marks desk.new.roots.rows reporter.old reporter.new)
        result (S.held source.old) (S.held source.new) }
    ensures keeps { KeepsHeader result desk.old desk.new (K.held reporter.old) (K.held reporter.new) }
{
    let root = schema_root(desk.header.encoding());
    let start = Start::schema();
    let mut notifier = Notifier::new(reporter, &start);
    let (bench, marks) = (&mut desk.bench, &mut desk.marks);
    walk_tree(source, bench, marks, root, &mut desk.roots, &mut notifier)?;
    notifier.end()?;
    Ok(notifier.has_rows())
}

// Walks over the trees of the list, one after another. The reporter is given the name of each, borrowed from the list.
pub(crate) fn walk_roots<A: Allocator, S: Source, K: Reporter>(
    desk: &mut Desk<A>,
    source: &mut S,
    reporter: &mut K,
) -> Result<(), RunError>
    requires { (K.held reporter.old).is_shut ≡ false }
    ensures asks { AsksOver S.step desk.old desk.new (λ file. (V : List Reference) → Survey file V → (before : K)
        → IsBetweenStarts K.receives file V before (enumerate_from 1 desk.old.roots.rows) desk.old.marks reporter.old
        → StopsReporting K.receives file V before [] result desk.new.marks reporter.new)
        result (S.held source.old) (S.held source.new) }
    ensures keeps { KeepsRoots result desk.old desk.new (K.held reporter.old) (K.held reporter.new) }
{
    let encoding = desk.header.encoding();
    for index in 0..desk.roots.len() {
        let number = index + 1;
        let Some(row) = desk.roots.get(number) else {
            unreachable!()
        };
        let root = root_of(&row, number, encoding);
        let start = Start::tree(number, row.name);
        let mut notifier = Notifier::new(reporter, &start);
        let (bench, marks) = (&mut desk.bench, &mut desk.marks);
        walk_tree(source, bench, marks, root, &mut NoRows, &mut notifier)?;
        notifier.end()?;
    }
    Ok(())
}

// Walks along the freelist, if there is one.
pub(crate) fn walk_trunks<A: Allocator, S: Source, K: Reporter>(
    desk: &mut Desk<A>,
    source: &mut S,
    notifier: &mut Notifier<'_, K>,
) -> Result<(), RunError>
    requires start { notifier.old.start.now ≡ at_freelist }
    requires open { (K.held notifier.old.reporter.now).is_shut ≡ false }
    ensures same_reporter { notifier.new.reporter.ghost_name ≡ notifier.old.reporter.ghost_name }
    ensures asks { AsksOver S.step desk.old desk.new (λ file. (V : List Reference) → Survey file V → (before : K)
        → IsBetweenStarts K.receives file V before [] desk.old.marks notifier.old.reporter.now
        → AreReported K.receives file V result desk.new.marks before notifier.new.reporter.now)
        result (S.held source.old) (S.held source.new) }
    ensures keeps { KeepsRoots result desk.old desk.new (K.held notifier.old.reporter.now) (K.held notifier.new.reporter.now) }
{
    let first = desk.header.first_trunk();
    if first == 0 {
        return Ok(());
    }
    walk_freelist(source, &mut desk.bench, &mut desk.marks, first, notifier)
}

// The lines of injuries.
ghost use Rattle.std.specs.Prelude.{◌≡◌, flat_map};
ghost use Rattle.dblines.specs.Writing.{Wrote, WroteOf};
ghost use Rattle.dbexplain.specs.Explained.{after_cause};
ghost use Rattle.dbexplain.specs.Keeping.{kept_injury_text, lines_of};
ghost use Rattle.dbexplain.specs.Notes.{AreOwnersOf};

use crate::facts::{put_facts, put_run};
use crate::missing::put_missing;
use crate::owners::Owners;
use dbinjuries::{Cause, Injury, put_cause, put_others};
use dblines::Writer;
use dbsource::Out;
use std::alloc::Allocator;

// Writes what comes after the line of a cause: of a key and a leaf where its page is, of a page what is known of it, and of
// a chain the longest run of one byte in the overflow page with the fault.
fn put_after_cause<A: Allocator, O: Out>(
    writer: &mut Writer<'_, O>,
    owners: &Owners<'_, A>,
    page: u32,
    cause: &Cause,
)
    ensures { WroteOf O.held writer.old (AreOwnersOf owners.now) (λ file V. after_cause file V page cause.now) writer.new }
{
    match cause {
        Cause::Key(key, _) => owners.put_page(writer, key.page),
        Cause::Leaf(leaf, _) => owners.put_page(writer, *leaf),
        Cause::Page(page, facts) => put_facts(writer, owners.header.geometry(), *page, facts),
        Cause::Look(_, facts) => put_facts(writer, owners.header.geometry(), page, facts),
        Cause::Chain(chain) => put_run(writer, owners.header.geometry(), page, chain.seen.run),
        _ => {}
    }
}

// Writes the lines of an injury.
fn put_injury<A: Allocator, O: Out>(
    writer: &mut Writer<'_, O>,
    owners: &Owners<'_, A>,
    injury: &Injury,
)
    ensures { WroteOf O.held writer.old (AreOwnersOf owners.now) (λ file V. kept_injury_text file V injury.now) writer.new }
{
    let first = &injury.first;
    writer.put_fault(&first.fault);
    owners.put_below(writer, &first.fault);
    put_missing(writer, owners, first.fault.code);
    put_cause(writer, &first.cause);
    put_after_cause(writer, owners, first.fault.page, &first.cause);
    put_others(writer, injury);
}

/// Writes the lines of injuries.
pub(crate) fn put_injuries<A: Allocator, O: Out>(
    writer: &mut Writer<'_, O>,
    owners: &Owners<'_, A>,
    injuries: &[Injury],
)
    ensures { WroteOf O.held writer.old (AreOwnersOf owners.now) (λ file V. flat_map (kept_injury_text file V) injuries.now) writer.new }
{
    for injury in injuries {
        put_injury(writer, owners, injury);
    }
}

/// Writes the fault lines of injuries alone.
pub(crate) fn put_fault_lines<O: Out>(writer: &mut Writer<'_, O>, injuries: &[Injury])
    ensures { Wrote O.held writer.old (lines_of injuries.now) writer.new }
{
    for injury in injuries {
        writer.put_fault(&injury.first.fault);
    }
}

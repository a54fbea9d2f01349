//! Prints the number of rows of each table of a database file, `dbrows FILE`: a line for each table of the schema, its number of rows
//! and its name. An example of a program over `dbscan`.
//!
//! A row is a cell: of a leaf page, and in a table WITHOUT ROWID, whose tree is one of an index, of an interior page too. The cells of a
//! damaged page are not counted. A name of more than 1000 bytes is shown as `?`.
#![tactic(auto)]

use anyhow::{Context, Result};
use dbbytes::name_text;
use dbscan::{Desk, Header, Notice, PageKind, PageType, Reporter, RowKind, StartTable, scan};
use dbsource::{FileSource, MemOut, Source};
use std::alloc::Global;
use std::env;

/// How many rows there are at each start.
#[derive(Drop)]
struct RowCounts {
    starts: StartTable<u64>,
}

impl Reporter for RowCounts {
    ghost use Rattle.std.specs.Prelude.{[], false, ⊤};

    ghost receives = { λ _ _ _. ⊤ };

    ghost held = { λ _. record { lent = []; failures = []; is_shut = false } };

    fn receive(&mut self, notice: &Notice<'_>) {
        if let Notice::Row(start, page) = notice {
            let rows = match page.pagetype {
                PageType::Tree(PageKind::InteriorTable) => 0,
                PageType::Tree(_) => page.counts.ncell,
                PageType::Damaged | PageType::Overflow => 0,
            };
            let count = self.starts.get(start.number()).unwrap_or(0);
            self.starts.set(start.number(), count.saturating_add(rows));
        }
    }

    fn is_shut(&self) -> bool {
        false
    }
}

/// Scans a file, and counts the rows at each start.
fn count_rows(alloc: Global, desk: &mut Desk, source: &mut impl Source) -> Result<RowCounts> {
    let mut rows = RowCounts {
        starts: StartTable::new_in(alloc, 0)?,
    };
    desk.renew();
    scan(desk, source, &mut rows)?;
    Ok(rows)
}

/// Prints a line for each table.
fn print_rows(rt: &(impl Print + AllocGlobal), desk: &Desk, rows: &RowCounts) -> Result<()> {
    for start in 1..=desk.roots().len() {
        let Some(row) = desk.roots().get(start) else {
            continue;
        };
        if row.kind == RowKind::Table {
            let count = rows.starts.get(start).unwrap_or(0);
            let mut name = MemOut::new(rt.alloc());
            name_text(
                row.name.unwrap_or(b"?"),
                desk.header().encoding(),
                &mut name,
            )?;
            println!(rt; "{count}\t{}", str::from_utf8(name.bytes())?)?;
        }
    }
    Ok(())
}

/// Prints a line for each table of a file.
fn print_tables(rt: &(impl Print + AllocGlobal), source: &mut impl Source) -> Result<()> {
    let mut desk = Desk::new(rt.alloc(), Header::read(source)?)?;
    let rows = count_rows(rt.alloc(), &mut desk, source)?;
    print_rows(rt, &desk, &rows)
}

fn main(rt: HostRuntime) -> Result<()> {
    let path = env::args(&rt)?.nth(1).context("usage: dbrows FILE")?;
    let mut source = FileSource::open(&rt, path.as_str()).context(format_args!("opening {path}"))?;
    print_tables(&rt, &mut source)
}

//! Prints a line for each page of a database file, `dbpages FILE`: its number, and the kind and the number of cells of a
//! b-tree page. An example of a program over `dbsource` and `dbpage`.
//!
//! The places of pointer-map pages and of the lock-byte page follow from the file's shape. Every other page is judged
//! by its own bytes: an overflow page or a free page is reported as no b-tree page, but a free page that SQLite did not
//! clear still looks like the b-tree page that it was.
#![tactic(auto)]

use anyhow::{Context, Result};
use dbpage::{PageKind, PageView};
use dbsource::{Bench, FileSource, Fixed, Header, Source};
use std::env;

fn kind_text(kind: PageKind) -> &'static str {
    match kind {
        PageKind::InteriorIndex => "interior index",
        PageKind::InteriorTable => "interior table",
        PageKind::LeafIndex => "leaf index",
        PageKind::LeafTable => "leaf table",
    }
}

// The geometry is that of the bench, so that the prover sees that it fits the bytes of its page.
fn print_page(rt: &impl Print, bench: &Bench, number: u32) -> Result<()> {
    let geometry = bench.geometry();
    match geometry.fixed(number) {
        Some(Fixed::Map) => println!(rt; "{number}\tpointer map")?,
        Some(Fixed::Lock) => println!(rt; "{number}\tlock-byte page")?,
        None => match PageView::new(bench.page(0), number, geometry.usable) {
            Ok(view) => println!(rt; "{number}\t{}\t{}", kind_text(view.kind()), view.cells())?,
            Err(fault) => println!(rt; "{number}\tnot a b-tree page: {fault}")?,
        },
    }
    Ok(())
}

fn print_pages(rt: &(impl Print + AllocGlobal), source: &mut impl Source) -> Result<()> {
    let header = Header::read(source)?;
    let mut bench = Bench::new(rt.alloc(), header.geometry())?;
    for number in 1..=header.geometry().pages {
        bench.load(0, source, number)?;
        print_page(rt, &bench, number)?;
    }
    Ok(())
}

fn main(rt: HostRuntime) -> Result<()> {
    let path = env::args(&rt)?.nth(1).context("usage: dbpages FILE")?;
    let mut source = FileSource::open(&rt, path.as_str()).context(format_args!("opening {path}"))?;
    print_pages(&rt, &mut source)
}

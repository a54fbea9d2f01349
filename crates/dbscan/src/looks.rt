// What a page looks like that no walk read.
ghost use Rattle.std.specs.Prelude.{◌≡◌, ◌≤◌, [], ◌∷◌, IfOk, true};
ghost use Rattle.dbformat.specs.File.{geometry};
ghost use Rattle.dbformat.specs.Log.{page_range};
ghost use Rattle.dbsource.specs.Failures.{is_any};
ghost use Rattle.dbsource.specs.Headers.{IsHeaderOf};
ghost use Rattle.dbsource.specs.Sources.{Asks};
ghost use Rattle.dbmarks.specs.Marking.{is_unmarked};
ghost use Rattle.dbtrace.specs.Causes.{lost_cause, lost_cause_at, names_of};
ghost use Rattle.dbwalk.specs.Found.{IsUsable};
ghost use Rattle.dbscan.specs.Desks.{shape_of};

use crate::Desk;
use dbpage::{PageView, look_of};
use dbsource::{Bench, ReadFailed, Source};
use dbtrace::{Cause, NamedPages, PageFacts};
use dbwalk::{CHAIN, Mark, Marks};
use std::alloc::Allocator;

// Whether nothing refers to a page.
fn is_lost<A: Allocator>(marks: &Marks<A>, page: u32) -> bool
    ensures mark { result ≡ is_unmarked marks.now page }
    ensures page { result ≡ true → 1 ≤ page }
{
    if page == 0 || page > marks.pages() {
        return false;
    }
    marks.get(page) == Mark::Unmarked
}

// How many pages an interior page names, and how many of them are lost.
fn names_of<A: Allocator>(view: &PageView<'_>, marks: &Marks<A>) -> Option<NamedPages>
    requires { view.now.usable ≤ 65536 }
    ensures { result ≡ names_of (is_unmarked marks.now) view.now }
{
    if !view.kind().is_interior() {
        return None;
    }
    let mut named = NamedPages { pages: 0, lost: 0 };
    for i in 0..view.cells() + 1 {
        if let Some(page) = view.named_page(i) {
            named.pages += 1;
            if is_lost(marks, page) {
                named.lost += 1;
            }
        }
    }
    Some(named)
}

// What the fault of a lost page goes back to: what it looks like, and the pages that it names.
fn lost_cause<A: Allocator>(page: &[u8], number: u32, usable: u32, marks: &Marks<A>) -> Cause
    requires { IsUsable usable page.now }
    ensures { result ≡ lost_cause (is_unmarked marks.now) number usable page.now }
{
    let named = match PageView::new(page, number, usable) {
        Ok(view) => names_of(&view, marks),
        Err(_) => None,
    };
    Cause::Look(
        look_of(page, number, usable),
        PageFacts {
            named,
            ..PageFacts::NONE
        },
    )
}

// Reads a page, and says what its fault goes back to, where it is lost.
fn look_at<S: Source, A: Allocator>(
    bench: &mut Bench<A>,
    marks: &Marks<A>,
    source: &mut S,
    page: u32,
) -> Result<Cause, ReadFailed>
    requires { 1 ≤ page }
    ensures asks { Asks S.step (λ log. log ≡ page_range bench.old.geometry.page_size page ∷ [])
        (λ file. bench.old.geometry ≡ geometry file → IfOk result (λ cause. cause ≡ lost_cause_at (is_unmarked marks.now) file page))
        is_any result (S.held source.old) (S.held source.new) }
    ensures bench { bench.new ≡ record bench.old { chain = bench.new.chain } }
{
    bench.load(CHAIN, source, page)?;
    let usable = bench.geometry().usable;
    Ok(lost_cause(bench.page(CHAIN), page, usable, marks))
}

impl<A: Allocator> Desk<A> {
    /// Whether nothing refers to a page, by the marks of the visits.
    pub fn is_lost(&self, page: u32) -> bool
        ensures mark { result ≡ is_unmarked self.now.marks page }
        ensures page { result ≡ true → 1 ≤ page }
    {
        is_lost(&self.marks, page)
    }

    /// Reads a page into the chain buffer, once, and returns the cause of its N01, which applies only if the page is lost: what it looks
    /// like, and of an interior page how many of the pages that it names are lost too.
    ///
    /// # Errors
    ///
    /// [`ReadFailed`] exactly where the source failed.
    pub fn look_at<S: Source>(&mut self, source: &mut S, page: u32) -> Result<Cause, ReadFailed>
        requires { 1 ≤ page }
        ensures desk { self.new ≡ record self.old { pages = self.new.pages } }
        ensures asks { Asks S.step (λ log. log ≡ page_range (shape_of self.old).page_size page ∷ [])
            (λ file. IsHeaderOf self.old.header file → IfOk result (λ cause. cause ≡ lost_cause_at (is_unmarked self.old.marks) file page))
            is_any result (S.held source.old) (S.held source.new) }
    {
        look_at(&mut self.bench, &self.marks, source, page)
    }
}

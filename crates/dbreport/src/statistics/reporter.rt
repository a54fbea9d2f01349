// What the statistics write of the notices that they receive.
ghost use Rattle.std.specs.Prelude.{◌≡◌, ◌≤◌, [], List, true, false};
ghost use Rattle.dbformat.specs.FixedPages.{IsInRange};
ghost use Rattle.dbformat.specs.Report.{verdict_of};
ghost use Rattle.dbformat.specs.Rows.{StatRow};
ghost use Rattle.dbsource.specs.Failures.{failures_after, is_any};
ghost use Rattle.dbsource.specs.Outs.{Puts};
ghost use Rattle.dbwalk.specs.Rows.{row_of};
ghost use Rattle.dbscan.specs.Notices.{ended, received_fault, received_row, marked};
ghost use Rattle.dbreport.specs.StatReporter.{Writes, tree_end_text};
ghost use Rattle.dbreport.specs.Sums.{sums_of};
ghost use Rattle.dbreport.specs.TreeNames.{tree_label_text};

use crate::statistics::Form;
use crate::statistics::lines::{put_page_row, put_tree_row};
use crate::statistics::other_pages::put_marked;
use crate::statistics::sums::Sums;
use crate::statistics::tree_name::TreeLabel;
use dbformat::{Encoding, Verdict};
use dblines::put_fault;
use dbscan::{Desk, Finish, Notice, Reporter, Start};
use dbsource::{Geometry, Out, RunError, Source, WriteFailed};
use dbtrace::TracedFault;
use dbwalk::{Mark, Row};
use std::alloc::Allocator;

// Writes rows to the one Out and the lines of faults to the other, as they come. In the aggregate form it adds up the rows
// of a tree, and writes their sums when it has ended. Before it puts to one Out it flushes the other, so that both come in
// the order of the report where both lead to one place. Once an Out has failed nothing is put to either.
#[derive(Drop)]
pub(crate) struct StatReporter<'a, O, E> {
    out: &'a mut O,
    err: &'a mut E,
    encoding: Encoding,
    page_size: u32,
    form: Form,
    sums: Sums,
    found: u64,
    is_shut: bool,
}

impl<'a, O: Out, E: Out> StatReporter<'a, O, E> {
    // One that received nothing.
    pub(crate) fn new(
        out: &'a mut O,
        err: &'a mut E,
        encoding: Encoding,
        page_size: u32,
        form: Form,
    ) -> StatReporter<'a, O, E>
        ensures same_out { result.out.ghost_name ≡ out.entry.ghost_name }
        ensures same_err { result.err.ghost_name ≡ err.entry.ghost_name }
        ensures out { result.out.now ≡ out.old }
        ensures err { result.err.now ≡ err.old }
        ensures encoding { result.encoding ≡ encoding }
        ensures page_size { result.page_size ≡ page_size }
        ensures form { result.form ≡ form }
        ensures sums { result.sums ≡ sums_of [] }
        ensures found { result.found ≡ 0 }
        ensures open { result.is_shut ≡ false }
    {
        StatReporter {
            out,
            err,
            encoding,
            page_size,
            form,
            sums: Sums::new(),
            found: 0,
            is_shut: false,
        }
    }

    // What the rows of the tree of a start show.
    fn label<'s>(&self, start: &'s Start<'s>) -> TreeLabel<'s>
        ensures { result ≡ record { encoding = self.now.encoding; page_size = self.now.page_size; start = start.entry } }
    {
        TreeLabel {
            encoding: self.encoding,
            page_size: self.page_size,
            start,
        }
    }

    // Writes the line of a fault, and counts it.
    fn fault(&mut self, reported: &TracedFault) -> Result<(), WriteFailed>
        ensures { Writes O.held E.held result self.old (received_fault reported.now) self.new }
    {
        self.out.flush()?;
        put_fault(self.err, &reported.fault)?;
        self.found = self.found.saturating_add(1);
        Ok(())
    }

    // Writes a row of the tree of a start, or counts it for the row of the tree.
    #[tactic(auto, using(dbsource::proofs::Beginnings::begins_nothing))]
    fn row(&mut self, start: &Start<'_>, row: &Row<'_>) -> Result<(), WriteFailed>
        ensures { Writes O.held E.held result self.old (received_row start.now (row_of row.now)) self.new }
    {
        if !self.form.aggregate {
            self.err.flush()?;
            let label = self.label(start);
            put_page_row(self.out, &label, row)?;
        }
        self.sums.add(row);
        Ok(())
    }

    // Writes the row of a tree, where the rows of its pages are added up.
    fn end_tree(&mut self, start: &Start<'_>) -> Result<(), WriteFailed>
        ensures { Writes O.held E.held result self.old (ended start.now) self.new }
    {
        if self.form.aggregate {
            self.err.flush()?;
            let label = self.label(start);
            put_sums(self.out, &label, &self.sums)?;
        }
        self.sums = Sums::new();
        Ok(())
    }

    // Writes the row of a page, by its mark, if it is in no tree and in no overflow chain, where these rows are asked for.
    #[tactic(auto, using(dbsource::proofs::Beginnings::begins_nothing))]
    fn page(&mut self, geometry: &Geometry, page: u32, mark: Mark) -> Result<(), WriteFailed>
        requires { IsInRange geometry.now × (1 ≤ page) }
        ensures { Writes O.held E.held result self.old (marked geometry.now page mark) self.new }
    {
        if self.form.all {
            self.err.flush()?;
            put_marked(self.out, geometry, page, mark)?;
        }
        Ok(())
    }

    // What was found.
    pub(crate) fn verdict(&self) -> Verdict
        ensures { result ≡ verdict_of self.now.found }
    {
        Verdict::of(self.found)
    }
}

impl<O: Out, E: Out> Reporter for StatReporter<'_, O, E> {
    ghost use Rattle.dbreport.specs.StatReporter.{ReceivesOpen, stat_held};

    ghost receives = { ReceivesOpen O.held E.held };

    ghost held = { stat_held O.held E.held };

    fn receive(&mut self, notice: &Notice<'_>) {
        if self.is_shut {
            return;
        }
        let taken = match notice {
            Notice::Fault(reported) => self.fault(reported),
            Notice::Row(start, row) => self.row(start, row),
            Notice::Ended(start) => self.end_tree(start),
            Notice::Page(geometry, page, mark) => self.page(geometry, *page, *mark),
        };
        self.is_shut = taken.is_err();
    }

    fn is_shut(&self) -> bool {
        self.is_shut
    }
}

impl<O: Out, E: Out, A: Allocator> Finish<Desk<A>> for StatReporter<'_, O, E> {
    ghost use Rattle.dbreport.specs.StatStarts.{LeavesStat};

    ghost leaves = { LeavesStat O.held E.held };

    fn finish<S: Source>(
        &mut self,
        _desk: &mut Desk<A>,
        _source: &mut S,
    ) -> Result<Verdict, RunError> {
        Ok(self.verdict())
    }
}

// Puts the row of a tree that some rows came of.
fn put_sums<O: Out>(out: &mut O, label: &TreeLabel<'_>, sums: &Sums) -> Result<(), WriteFailed>
    ensures text { (rows : List StatRow) → sums.now ≡ sums_of rows
        → Puts result (O.held out.old) (O.held out.new) (tree_end_text true (tree_label_text label.now) label.now.page_size rows) }
    ensures count { (O.held out.new).failures ≡ failures_after is_any result (O.held out.old).failures }
{
    if sums.pages == 0 {
        return Ok(());
    }
    put_tree_row(out, label, sums)
}
